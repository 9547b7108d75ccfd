// Laws of plans: each is a public function with an empty body, whose contract is the law.
ghost use Rattle.std.specs.Prelude.{◌≡◌, ℕ, List, Ok};
ghost use Rattle.nb_host.specs.Files.{Files};
ghost use Rattle.nb_level.specs.declared.head.LevelHead.{LevelHead};
ghost use Rattle.nb_catalog.specs.Chained.{KeepsChains, KeepsFiles};
ghost use Rattle.nb_catalog.specs.Heads.{read_files};
ghost use Rattle.nb_catalog.specs.Plans.{Retention};
ghost use Rattle.nb_catalog.specs.Turns.{names_in, planned};

/// Whatever files are planned for, the files of each kept restore point's line, level 0 first, are a chain that a restore accepts, and a plan
/// drops none of them.
pub fn a_plan_keeps_its_chains()
    ensures { (files : Files) (names : List (List ℕ)) (keep : ℕ) (plan : Retention) → planned files names keep ≡ Ok plan → KeepsChains files names keep plan }
{}

/// Whatever list names the files, a plan of them drops no name of a file in the line of a kept restore point.
pub fn a_plan_of_a_list_keeps_its_files()
    ensures { (files : Files) (list : List ℕ) (names : List (List ℕ)) (heads : List LevelHead) (keep : ℕ) (plan : Retention) → names_in list (files list) ≡ Ok names → planned files names keep ≡ Ok plan → read_files files names ≡ Ok heads → KeepsFiles names heads keep plan }
{}
