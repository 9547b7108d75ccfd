// Laws, in the form of those in `laws`: on statements that only read, on the history of backups, and on pages in danger.
ghost use Rattle.nb_model.specs.Account.{Account, Ask, Base, Missing, with_entry};
ghost use Rattle.nb_model.specs.Backups.{room_in};
ghost use Rattle.nb_model.specs.Chains.{backup_slot, put_slot};
ghost use Rattle.nb_model.specs.Danger.{HasItsPlace, StaysApart, in_danger, is_in_danger};
ghost use Rattle.nb_model.specs.Forms.{drafted, is_free_page};
ghost use Rattle.nb_model.specs.Going.{AreNamed, IsGoing, IsNamed};
ghost use Rattle.nb_model.specs.HistoryRows.{HasFreeRow, KeepsBackups, names_backup};
ghost use Rattle.nb_model.specs.Image.{Image, image_scn, image_state};
ghost use Rattle.nb_model.specs.Leaks.{is_among};
ghost use Rattle.nb_model.specs.Outcomes.{ClosesCopy, Seen, Turn, next_guid};
ghost use Rattle.nb_model.specs.Owner.{delta_name};
ghost use Rattle.nb_model.specs.RowChanges.{KeepsRows};
ghost use Rattle.nb_model.specs.Rows.{AreDistinct, IsNeat, chains, pages_of_all};
ghost use Rattle.nb_model.specs.Run.{Now, base_now, play, strokes_of};
ghost use Rattle.nb_model.specs.Sound.{HasHeader, IsSoundImage};
ghost use Rattle.nb_model.specs.Stands.{Stands};
ghost use Rattle.nb_model.specs.Strokes.{base_after, begin, ends as ends_stroke, finish};
ghost use Rattle.nb_model.specs.Turns.{turn};
ghost use Rattle.nb_model.specs.Writes.{turn_writes};
ghost use Rattle.nb_fields.specs.States.{stalled_state};
ghost use Rattle.nb_host.specs.Files.{Files};
ghost use Rattle.nb_host.specs.Names.{is_delta, is_name};
ghost use Rattle.std.specs.Prelude.{List, None, Option, Some, [], false, length, true, ℕ, ◌++◌, ◌<◌, ◌∷◌, ◌≡◌, ◌≢◌, ◌≤◌, ◌⊎◌};
ghost use Rattle.std.specs.List.{AllByRecursion, slice_index_or};

/// What only reads writes nothing: a turn of it makes no stroke, and no file but the copy that was asked for, and leaves only such turns to do.
/// So no stroke comes of a run in which all that each session has to do only reads.
pub fn statements_that_only_read_write_nothing()
    ensures strokes { (s : Seen) (session : ℕ) (t : Turn) → turn_writes t ≡ false → (turn s session t).strokes ≡ [] }
    ensures next { (s : Seen) (session : ℕ) (t : Turn) → turn_writes t ≡ false → AllByRecursion (λ u. turn_writes u ≡ false) (turn s session t).next }
    ensures file { (s : Seen) (session : ℕ) (t : Turn) → turn_writes t ≡ false → ((turn s session t).made ≡ None) ⊎ ((name : List ℕ) × (t ≡ ClosesCopy name)) }
    ensures run { (order : List ℕ) (now : Now) → ((place : ℕ) → AllByRecursion (λ t. turn_writes t ≡ false) (slice_index_or now.todo place [])) → strokes_of (play order now).0 ≡ [] }
{}

/// The strokes of a backup change no row of a table, leave the image neat, and each backup that the history names stays named, at each front of
/// them: the room for its row and the begin, after which a slot of the history is free for that row; the row, after which the history names the
/// backup; the end, and the finish of the merge.
pub fn backups_keep_rows_and_names()
    ensures starts { (b : Base) (guid : List ℕ) (ask : Ask) → HasHeader b.image → IsSoundImage b.image → IsNeat b.image → (room_in b.image).draft.full ≡ false → image_scn b.image ≤ 4294967293 → length guid ≡ 16
        → KeepsRows b ((room_in b.image).draft.strokes ++ begin guid (Some ask) ∷ []) × KeepsBackups b ((room_in b.image).draft.strokes ++ begin guid (Some ask) ∷ []) }
    ensures place { (b : Base) (guid : List ℕ) (ask : Ask) → HasHeader b.image → IsSoundImage b.image → IsNeat b.image → (room_in b.image).draft.full ≡ false → image_scn b.image ≤ 4294967293 → length guid ≡ 16
        → HasFreeRow (base_after b ((room_in b.image).draft.strokes ++ begin guid (Some ask) ∷ [])).image (room_in b.image).page (room_in b.image).slot }
    ensures row { (b : Base) (page slot level scn time : ℕ) (guid name : List ℕ) → HasHeader b.image → IsSoundImage b.image → IsNeat b.image → HasFreeRow b.image page slot → length guid ≡ 16 → is_name name ≡ true
        → KeepsRows b (put_slot page slot (backup_slot level scn time guid name) (drafted b.image)).strokes × KeepsBackups b (put_slot page slot (backup_slot level scn time guid name) (drafted b.image)).strokes }
    ensures named { (b : Base) (page slot level scn time : ℕ) (guid name : List ℕ) → HasHeader b.image → IsSoundImage b.image → IsNeat b.image → HasFreeRow b.image page slot → length guid ≡ 16 → is_name name ≡ true
        → names_backup (base_after b (put_slot page slot (backup_slot level scn time guid name) (drafted b.image)).strokes).image guid ≡ true }
    ensures begins { (b : Base) (guid : List ℕ) (ask : Option Ask) → HasHeader b.image → IsSoundImage b.image → IsNeat b.image → image_scn b.image ≤ 4294967293 → length guid ≡ 16 → KeepsBackups b (begin guid ask ∷ []) }
    ensures ends { (b : Base) → HasHeader b.image → IsSoundImage b.image → IsNeat b.image → image_state b.image ≡ stalled_state → KeepsBackups b (ends_stroke ∷ []) }
    ensures finishes { (b : Base) → HasHeader b.image → IsSoundImage b.image → IsNeat b.image → KeepsBackups b (finish ∷ []) }
{}

/// The list of pages in danger has just those, rising. There is none exactly where chains share no page and all their pages are taken; in a neat
/// image there is none.
pub fn pages_in_danger_are_shared_or_free()
    ensures each { (image : Image) (p : ℕ) → p < length image → is_among p (in_danger image) ≡ is_in_danger image p }
    ensures neat { (image : Image) → IsNeat image → in_danger image ≡ [] }
    ensures apart { (image : Image) → in_danger image ≡ [] → AreDistinct (pages_of_all image (chains image)) }
    ensures taken { (image : Image) → in_danger image ≡ [] → AllByRecursion (λ p. is_free_page image p ≡ false) (pages_of_all image (chains image)) }
{}

/// No turn leaves a page in danger, of whatever statement, backup or merge: from a neat image each front of its strokes leads to a neat one, in
/// which no page is. With forced writes on a crash leaves such a front.
pub fn no_turn_leaves_a_page_in_danger()
    ensures { (s : Seen) (session : ℕ) (t : Turn) → HasHeader s.base.image → IsSoundImage s.base.image → IsNeat s.base.image → IsNamed t → HasItsPlace s.base.image t → length (next_guid s.given) ≡ 16
        → StaysApart s.base (turn s session t).strokes }
{}

/// So it is with a whole run, in which sessions take turns in any order: it leaves no page in danger at any front of its strokes. A backup finds
/// the slot that it kept for its row, whatever others do in between.
pub fn no_run_leaves_a_page_in_danger()
    ensures { (now : Now) (order : List ℕ) → IsGoing true now → AreNamed now → IsNeat (base_now now).image → ((place : ℕ) → AllByRecursion (HasItsPlace (base_now now).image) (slice_index_or now.todo place []))
        → StaysApart (base_now now) (strokes_of (play order now).0) }
{}

/// A backup that the history names as a run begins is named after it still, whatever statements were done, and after each turn of it.
pub fn a_named_backup_stays_named()
    ensures { (now : Now) (order : List ℕ) (guid : List ℕ) → IsGoing true now → AreNamed now → IsNeat (base_now now).image → ((place : ℕ) → AllByRecursion (HasItsPlace (base_now now).image) (slice_index_or now.todo place []))
        → names_backup (base_now now).image guid ≡ true → names_backup (base_now (play order now).1).image guid ≡ true }
{}

/// Where a file is removed beside which no difference file stands, the files go on to stand: nothing is under the name then, and all else is as it
/// was, the records of backups too.
pub fn a_removed_file_is_missing()
    ensures { (old new : Files) (account : Account) (name : List ℕ) → Stands old account → is_delta name ≡ false → old (delta_name name) ≡ None → ((m : List ℕ) → m ≢ name → new m ≡ old m) → new name ≡ None
        → Stands new (with_entry name (Missing None) account) }
{}
