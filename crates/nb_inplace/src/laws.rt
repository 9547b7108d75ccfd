// Laws of a merge in place: each is a public function with an empty body, whose contract is the law.
ghost use Rattle.nb_fields.specs.Free.{is_free_file};
ghost use Rattle.nb_host.specs.Files.{File, Files};
ghost use Rattle.nb_host.specs.declared.refusals.Refusal.TheVariants.{Unfinished};
ghost use Rattle.nb_model.specs.Account.{Account, Kept, Plain, base_of, with_entry};
ghost use Rattle.nb_model.specs.Image.{image_in};
ghost use Rattle.nb_model.specs.InPlace.{in_place};
ghost use Rattle.nb_model.specs.Levels.{Contents, read_level};
ghost use Rattle.nb_model.specs.Owner.{delta_name, owner};
ghost use Rattle.nb_model.specs.Stands.{IsKeptAs, IsStopped, Stands, nil};
ghost use Rattle.nb_model.specs.Strokes.{as_standby, merged};
ghost use Rattle.nb_model.specs.Well.{IsWellBaseIn};
ghost use Rattle.nb_inplace.specs.Half.{IsHalf};
ghost use Rattle.nb_inplace.specs.Kept.{MergesBackup};
ghost use Rattle.nb_inplace.specs.Verdict.{IsMergeable};
ghost use Rattle.std.specs.Prelude.{Contains, Err, List, Ok, Some, false, ◌≡◌, ◌≢◌, ◌⊎◌, ℕ};

/// A merge that was stopped half way is finished by the same file, also in a later call: it is accepted, and gives the image that the
/// merge would have given.
pub fn a_stopped_merge_is_finished()
    ensures { (old files : Files) (standby name bytes half : List ℕ) (c : Contents) → IsMergeable old standby name bytes c → IsHalf bytes c half → files standby ≡ Some half → files name ≡ old name
        → IsMergeable files standby name half c × (merged c.pages (image_in half) ≡ merged c.pages (image_in bytes)) }
{}

/// It is finished by no file of another GUID, and by none that goes on from another backup: these are refused as `Unfinished`.
pub fn no_other_file_finishes_it()
    ensures { (old files : Files) (standby name other bytes half level : List ℕ) (c d : Contents) → IsMergeable old standby name bytes c → IsHalf bytes c half → files standby ≡ Some half → files other ≡ Some level → read_level level ≡ Ok d
        → (d.head.guid ≢ c.head.guid) ⊎ (d.head.previous ≢ c.head.previous) → in_place files standby other ≡ Err Unfinished }
{}

/// It may be stopped again and again: what is half way from half way is half way from the start.
pub fn a_merge_may_be_stopped_again()
    ensures { (files : Files) (standby name bytes half further : List ℕ) (c : Contents) → IsMergeable files standby name bytes c → IsHalf bytes c half → IsHalf half c further → IsHalf bytes c further }
{}

/// A standby that is half merged can't be opened: that is refused as `Unfinished`, whatever stands beside it.
pub fn a_half_merged_standby_is_not_opened()
    ensures { (files : Files) (standby name bytes half : List ℕ) (c : Contents) (delta : File) → IsMergeable files standby name bytes c → IsHalf bytes c half → owner standby (Some half) delta ≡ Err Unfinished }
{}

/// Nor may a restore take its place, where the level file has a GUID.
pub fn a_half_merged_standby_is_not_free()
    ensures { (files : Files) (standby name bytes half : List ℕ) (c : Contents) → IsMergeable files standby name bytes c → IsHalf bytes c half → c.head.guid ≢ nil → is_free_file (Some half) ≡ false }
{}

/// Where the level file is that of a kept backup, its own or a level since one of its ancestors, the merge gives the image that the begin of
/// that backup kept, in the normal state, read-only and with nothing pending. So does one that goes on from a half merged standby.
pub fn a_kept_merge_gives_the_kept_image()
    ensures { (files : Files) (account : Account) (standby name bytes : List ℕ) (c : Contents) (r : Kept) → Stands files account → MergesBackup files standby name bytes c → IsKeptAs account.kept c.head.guid r
        → merged c.pages (image_in bytes) ≡ as_standby r.image }
{}

/// What is half merged of it can be gone on with to that image, whatever becomes of the files meanwhile.
pub fn a_kept_merge_can_be_gone_on_with()
    ensures { (files : Files) (account : Account) (standby name bytes half : List ℕ) (c : Contents) (r : Kept) → Stands files account → MergesBackup files standby name bytes c → IsKeptAs account.kept c.head.guid r
        → IsHalf bytes c half → IsStopped account.kept half r }
{}

/// What is merged of a kept backup is well: it is sound and goes on from each backup that it names.
pub fn what_is_merged_is_well()
    ensures { (files : Files) (account : Account) (r : Kept) → Stands files account → Contains account.kept r → IsWellBaseIn account.kept (base_of (as_standby r.image)) }
{}

/// Files that stand for an account still do where one of them is a standby that is half merged, with it as a plain file. What stands beside it,
/// and under the other names, may have changed since the merge began, as a crash may leave it, if it stands for the same records of backups.
pub fn half_merged_files_stand()
    ensures { (old mid files : Files) (account then : Account) (standby name bytes half : List ℕ) (c : Contents) → Stands old account → MergesBackup old standby name bytes c → IsHalf bytes c half
        → Stands mid then → then.kept ≡ account.kept → ((m : List ℕ) → m ≢ standby → m ≢ delta_name standby → files m ≡ mid m) → files standby ≡ Some half
        → Stands files (with_entry standby (Plain half (files (delta_name standby))) then) }
{}
