// Laws of a look and of the first step: each is a public function with an empty body, whose contract is the law.
ghost use Rattle.nb_fields.specs.Header.{guid_of};
ghost use Rattle.nb_host.specs.Files.{Files};
ghost use Rattle.nb_inplace.specs.Apply.{base_with};
ghost use Rattle.nb_inplace.specs.Half.{IsHalf};
ghost use Rattle.nb_inplace.specs.Verdict.{IsMergeable};
ghost use Rattle.nb_model.specs.Levels.{Contents};
ghost use Rattle.nb_model.specs.Owner.{delta_name};
ghost use Rattle.nb_model.specs.Trail.{ShowsIn};
ghost use Rattle.nb_page.specs.Free.{has_delta, is_free_name};
ghost use Rattle.nb_ship.specs.Finds.{Finds};
ghost use Rattle.nb_ship.specs.Looks.{look_at};
ghost use Rattle.nb_ship.specs.Names.{ship_of};
ghost use Rattle.nb_ship.specs.declared.found.Found.{Found};
ghost use Rattle.nb_ship.specs.declared.found.Found.TheVariants.{Applied, Nothing, Pending};
ghost use Rattle.nb_ship.specs.declared.found.Look.{Look};
ghost use Rattle.std.specs.Prelude.{List, Ok, Some, false, true, ◌≡◌, ℕ};

/// What a look finds stands there.
pub fn what_is_found_stands_there()
    ensures { (files : Files) (standby : List ℕ) (look : Look) → look_at files standby ≡ Ok look
        → (bytes : List ℕ) × (look.guid ≡ guid_of bytes) × Finds files standby bytes look.found }
{}

/// And what stands there is found: nothing else is refused.
pub fn what_stands_there_is_found()
    ensures { (files : Files) (standby bytes : List ℕ) (found : Found) → Finds files standby bytes found → look_at files standby ≡ Ok (record { guid = guid_of bytes; found = found }) }
{}

/// Where a merge of the ship file was stopped half way, it is found, and is to be gone on with.
pub fn a_stopped_merge_is_found()
    ensures { (old files : Files) (standby bytes half : List ℕ) (c : Contents) → IsMergeable old standby (ship_of standby) bytes c → IsHalf bytes c half
        → files standby ≡ Some half → files (ship_of standby) ≡ old (ship_of standby)
        → look_at files standby ≡ Ok (record { guid = c.head.previous; found = Pending c.head.guid }) }
{}

/// Where it was merged, and no difference file stands beside it, it is found as such, and is to be removed.
pub fn a_merged_ship_file_is_found()
    ensures { (old files : Files) (standby bytes : List ℕ) (c : Contents) → IsMergeable old standby (ship_of standby) bytes c
        → ShowsIn standby (base_with bytes c) files → files (ship_of standby) ≡ old (ship_of standby) → has_delta files (ship_of standby) ≡ false
        → look_at files standby ≡ Ok (record { guid = c.head.guid; found = Applied }) }
{}

/// Where it was removed, nothing is found: the next increment is to be copied.
pub fn after_a_merge_nothing_is_found()
    ensures { (old files : Files) (standby bytes : List ℕ) (c : Contents) → IsMergeable old standby (ship_of standby) bytes c
        → ShowsIn standby (base_with bytes c) files → is_free_name files (ship_of standby) ≡ true
        → look_at files standby ≡ Ok (record { guid = c.head.guid; found = Nothing }) }
{}

/// A look goes by the standby, the ship file and the difference file beside it, whatever else stands.
pub fn a_look_goes_by_three_files()
    ensures { (files others : Files) (standby : List ℕ) → others standby ≡ files standby → others (ship_of standby) ≡ files (ship_of standby)
        → others (delta_name (ship_of standby)) ≡ files (delta_name (ship_of standby)) → look_at others standby ≡ look_at files standby }
{}
