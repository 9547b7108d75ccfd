// Laws of restoring: each is a public function with an empty body, whose contract is the law.
ghost use Rattle.nb_fields.specs.Header.{is_header};
ghost use Rattle.nb_host.specs.Files.{Files};
ghost use Rattle.nb_host.specs.Names.{is_delta};
ghost use Rattle.nb_host.specs.declared.refusals.Refusal.TheVariants.{ChainGuid, ChainLevel};
ghost use Rattle.nb_model.specs.Account.{Account, Kept, base_of};
ghost use Rattle.nb_model.specs.Levels.{Contents, read_level};
ghost use Rattle.nb_model.specs.Line.{last_in};
ghost use Rattle.nb_model.specs.Restoring.{Link, verdict};
ghost use Rattle.nb_model.specs.Stands.{Stands};
ghost use Rattle.nb_model.specs.Strokes.{fixed};
ghost use Rattle.nb_model.specs.Trail.{settled};
ghost use Rattle.nb_model.specs.WellTrail.{IsWellTrail};
ghost use Rattle.nb_restore.specs.Kept.{AreKept, GiveLast, GivesKept, HoldChain};
ghost use Rattle.std.specs.Prelude.{Contains, Err, List, Ok, Some, false, length, true, ◌+◌, ◌++◌, ◌∷◌, ◌≡◌, ◌≢◌, ◌≤◌, ℕ};
ghost use Rattle.std.specs.List.{AllByRecursion};

/// A chain of kept backups gives the image that the begin of its last one kept. Each of its files may be the backup's own, a
/// copy of its pages, or a level since one of its ancestors.
pub fn a_kept_chain_gives_its_last_image()
    ensures { (files : Files) (account : Account) (names : List (List ℕ)) (links : List Link) → Stands files account → AllByRecursion (λ (name : List ℕ). is_delta name ≡ false) names → verdict files names ≡ Ok links
        → 1 ≤ length links → AreKept account.kept links → GivesKept account.kept links }
{}

/// Files that are those of a chain of kept backups, a copy of the first and a level of each of the next in its place, are accepted, and give
/// the image of the last.
pub fn a_chain_of_kept_backups_is_accepted()
    ensures { (files : Files) (account : Account) (name : List ℕ) (names : List (List ℕ)) (r : Kept) (rs : List Kept) → Stands files account → HoldChain files account.kept name names r rs → GiveLast files (name ∷ names) r rs }
{}

/// A chain is refused at the first file that isn't in its place, whatever stands after it: a level file in the place of level 0, pages in the
/// place of a level, a level of another place, and one that goes on from another backup than the one before it.
pub fn a_file_out_of_place_is_refused()
    ensures first { (files : Files) (name : List ℕ) (more : List (List ℕ)) (bytes : List ℕ) (c : Contents) → files name ≡ Some bytes → read_level bytes ≡ Ok c → verdict files (name ∷ more) ≡ Err (ChainLevel name c.head.level 0) }
    ensures pages { (files : Files) (account : Account) (name : List ℕ) (names : List (List ℕ)) (r : Kept) (rs : List Kept) (next : List ℕ) (more : List (List ℕ)) (bytes : List ℕ) → Stands files account → HoldChain files account.kept name names r rs → files next ≡ Some bytes → is_header bytes ≡ true
        → verdict files (name ∷ (names ++ next ∷ more)) ≡ Err (ChainLevel next 0 (1 + length names)) }
    ensures level { (files : Files) (account : Account) (name : List ℕ) (names : List (List ℕ)) (r : Kept) (rs : List Kept) (next : List ℕ) (more : List (List ℕ)) (bytes : List ℕ) (c : Contents) → Stands files account → HoldChain files account.kept name names r rs → files next ≡ Some bytes → read_level bytes ≡ Ok c → c.head.level ≢ 1 + length names
        → verdict files (name ∷ (names ++ next ∷ more)) ≡ Err (ChainLevel next c.head.level (1 + length names)) }
    ensures guid { (files : Files) (account : Account) (name : List ℕ) (names : List (List ℕ)) (r : Kept) (rs : List Kept) (next : List ℕ) (more : List (List ℕ)) (bytes : List ℕ) (c : Contents) → Stands files account → HoldChain files account.kept name names r rs → files next ≡ Some bytes → read_level bytes ≡ Ok c → c.head.level ≡ 1 + length names
        → c.head.previous ≢ (last_in r rs).guid → verdict files (name ∷ (names ++ next ∷ more)) ≡ Err (ChainGuid next c.head.previous (last_in r rs).guid) }
{}

/// What is restored of a kept backup is well in the normal state: it is sound and goes on from each backup that it names.
pub fn what_is_restored_is_well()
    ensures { (files : Files) (account : Account) (r : Kept) → Stands files account → Contains account.kept r → IsWellTrail account.kept (settled (base_of (fixed r.image))) }
{}
