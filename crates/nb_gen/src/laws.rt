// What the script of a number is: a public function with an empty body, whose contract is the law.
ghost use Rattle.std.specs.Prelude.{◌≡◌, ℕ, Ok};
ghost use Rattle.nb_model.specs.Generated.{generated};
ghost use Rattle.nb_script.specs.Scripts.{Plan, script_of};
ghost use Rattle.nb_gen.specs.Texts.{IsScriptText, generated_first};

/// No front of it is taken for a backup, and where it is a script that can be run, that creates a database of its own.
pub fn the_script_of_a_number()
    ensures text { (n : ℕ) → IsScriptText (generated n) }
    ensures first { (n : ℕ) (plan : Plan) → script_of (generated n) ≡ Ok plan → plan.first ≡ generated_first }
{}
