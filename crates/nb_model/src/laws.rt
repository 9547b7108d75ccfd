// Laws: each is a public function with an empty body, whose contract is the law. They show that the definitions mean what
// they say.
ghost use Rattle.nb_model.specs.Account.{Account, Ask, Base, IsBase, Kept, Plain, base_of, with_entry};
ghost use Rattle.nb_model.specs.Earlier.{IsCovered, IsEarlier, LowersNone};
ghost use Rattle.nb_model.specs.Follows.{Follows, IsMixed};
ghost use Rattle.nb_model.specs.Forms.{drafted, give_page, has_entry, new_page, put, scn_entry, take_page};
ghost use Rattle.nb_model.specs.Going.{AreBeginnings, AreNamed, IsGoing, IsNamed};
ghost use Rattle.nb_model.specs.Image.{Image, Numbered, Page, first_page, image_guid, image_scn, image_size, image_state, is_forced, is_read_only, overwritten, page_at, trimmed, with_page, written_at};
ghost use Rattle.nb_model.specs.Levels.{Contents, Head, IsLevel, changed, read_level, taken};
ghost use Rattle.nb_model.specs.Line.{AreZeroPages, HoldLine, HoldsFirst, IsLine, first_file, last_in, next_files};
ghost use Rattle.nb_model.specs.Making.{IsNoBackup, IsOfKept, MadeFile};
ghost use Rattle.nb_model.specs.Outcomes.{Begins, DoesNothing, Seen};
ghost use Rattle.nb_model.specs.Output.{acked};
ghost use Rattle.nb_model.specs.Owner.{delta_name, entry_for, entry_in, owned, owner, slot_page};
ghost use Rattle.nb_model.specs.Pagewise.{AgreesWith, IsPagewise};
ghost use Rattle.nb_model.specs.Restoring.{applied, verdict};
ghost use Rattle.nb_model.specs.Run.{Event, IsPlayed, Now, base_now, files_made, play, rounds, strokes_of};
ghost use Rattle.nb_model.specs.Sound.{HasHeader, HasNoZeros, IsSoundImage, SoundInventory};
ghost use Rattle.nb_model.specs.Stands.{GoesOn, IsRaised, Stands};
ghost use Rattle.nb_model.specs.Steps.{AreForced, Step, acked_steps, after_steps, steps_of, strokes_in};
ghost use Rattle.nb_model.specs.Strokes.{Stroke, after, base_after, begin, ends, finish, fixed, merged_page, on_base, page as page_stroke, records_after, records_of, with_control};
ghost use Rattle.nb_model.specs.Trail.{AreSynced, IsBehindFirst, IsFirm, IsLeft, IsMixture, ShowsIn, StandsIn, StandsOn, Trail, after_stroke, after_strokes, images, settled};
ghost use Rattle.nb_model.specs.Turns.{first_turn};
ghost use Rattle.nb_model.specs.Well.{IsWellBaseIn, is_on_pages};
ghost use Rattle.nb_model.specs.WellTrail.{IsSoundTrail, IsWellTrail};
ghost use Rattle.nb_model.specs.declared.reply.Reply.TheVariants.{Refused};
ghost use Rattle.nb_model.specs.declared.statement.Statement.{Statement};
ghost use Rattle.nb_fields.specs.Fresh.{fresh};
ghost use Rattle.nb_fields.specs.Page.{stamp_of};
ghost use Rattle.nb_fields.specs.Places.{is_page_size};
ghost use Rattle.nb_fields.specs.States.{normal_state, stalled_state, merge_state};
ghost use Rattle.nb_host.specs.Files.{File, Files};
ghost use Rattle.nb_host.specs.Names.{is_delta};
ghost use Rattle.nb_host.specs.declared.refusals.Refusal.{Refusal};
ghost use Rattle.std.specs.Prelude.{Contains, IsTrue, List, None, Ok, Option, Some, [], ◌++◌, ◌+◌, ◌<◌, ◌∷◌, ◌≡◌, ◌≢◌, ◌≤◌, drop, false, length, replicate, slice_set, take, true, ℕ};
ghost use Rattle.std.specs.List.{AllByRecursion, slice_index_or};

/// Lineage goes on: an image follows each one that it followed step by step, at the lowest SCN.
pub fn lineage_goes_on()
    ensures { (a b c : Image) (s t : ℕ) → Follows a s b → Follows b t c → s ≤ t → Follows a s c }
{}

/// A page that is stamped above the SCN changes nothing of lineage, whether it is written over one or added at the end.
pub fn lineage_stays()
    ensures over { (a b : Image) (s p : ℕ) (page : Page) → Follows a s b → p < length b → s < stamp_of page → image_size (slice_set b p page) ≡ image_size b → Follows a s (slice_set b p page) }
    ensures added { (a b : Image) (s : ℕ) (page : Page) → Follows a s b → 1 ≤ length b → s < stamp_of page → Follows a s (b ++ page ∷ []) }
{}

/// An image whose pages are those of images that follow, each page by itself, follows too.
pub fn lineage_mixes()
    ensures { (a : Image) (s : ℕ) (images : List Image) (c : Image) → ((m : Image) → Contains images m → Follows a s m) → image_size c ≡ image_size a → IsMixed images s c → Follows a s c }
{}

/// The pages stamped above the SCN, written over, give the image that follows.
pub fn lineage_restores()
    ensures { (size s : ℕ) (a b : Image) → Follows a s b → overwritten size (taken s b) a ≡ b }
{}

/// A level has each page that was stamped since its SCN, where no SCN entry is below the stamp of its page.
pub fn a_level_has_what_was_stamped()
    ensures { (image : Image) (s : ℕ) → ((p : ℕ) → p < length image → has_entry image p ≡ true → stamp_of (page_at image p) ≤ scn_entry image p) → changed s image ≡ taken s image }
{}

/// The files of a line of backups give the image of its last, whatever pages of zeros stood after the first.
pub fn a_line_gives_its_last()
    ensures { (r : Kept) (qs : List Kept) (zeros : Image) → IsLine r qs → AreZeroPages zeros → HasNoZeros (last_in r qs).image → applied (first_file r zeros ∷ next_files r qs) ≡ (last_in r qs).image }
{}

/// The files of kept backups that go on from one another are a chain, in either version, and give the image of the last.
pub fn a_kept_chain_is_accepted()
    ensures accepted { (files : Files) (r : Kept) (zeros : Image) (qs : List Kept) (name : List ℕ) (names : List (List ℕ)) → HoldsFirst files r zeros name → HoldLine files 1 r names qs → verdict files (name ∷ names) ≡ Ok (first_file r zeros ∷ next_files r qs) }
    ensures gives { (files : Files) (r : Kept) (zeros : Image) (qs : List Kept) (name : List ℕ) (names : List (List ℕ)) → HoldsFirst files r zeros name → HoldLine files 1 r names qs → HasNoZeros (last_in r qs).image → applied (first_file r zeros ∷ next_files r qs) ≡ (last_in r qs).image }
{}

/// What the grammar of level files spells is read back, in both versions.
pub fn a_level_is_read_back()
    ensures { (bytes : List ℕ) (version : ℕ) (h : Head) (r : Numbered) (rs : List Numbered) → IsLevel bytes version h r rs → read_level bytes ≡ Ok (record { version = version; head = h; pages = r ∷ rs }) }
{}

/// Bytes spell one level file at most.
pub fn bytes_spell_one_level()
    ensures { (bytes : List ℕ) (v w : ℕ) (h k : Head) (r q : Numbered) (rs qs : List Numbered) → IsLevel bytes v h r rs → IsLevel bytes w k q qs → (v ≡ w) × (h ≡ k) × (r ∷ rs ≡ q ∷ qs) }
{}

/// What is read as a level file, of bytes, is in the grammar: the bytes spell the version, the head and the pages that were read, of
/// which there is one at least.
pub fn what_is_read_is_spelled()
    ensures spelled { (bytes : List ℕ) (version : ℕ) (h : Head) (r : Numbered) (rs : List Numbered) → AllByRecursion (λ b. b < 256) bytes → read_level bytes ≡ Ok (record { version = version; head = h; pages = r ∷ rs }) → IsLevel bytes version h r rs }
    ensures some { (bytes : List ℕ) (c : Contents) → AllByRecursion (λ b. b < 256) bytes → read_level bytes ≡ Ok c → 1 ≤ length c.pages }
{}

/// Strokes after strokes.
pub fn strokes_join()
    ensures base { (b : Base) (xs ys : List Stroke) → base_after b (xs ++ ys) ≡ base_after (base_after b xs) ys }
    ensures records { (b : Base) (xs ys : List Stroke) → records_after b (xs ++ ys) ≡ records_after b xs ++ records_after (base_after b xs) ys }
{}

/// The account after two lists of strokes is the one after their join.
pub fn accounts_join()
    ensures entry { (name : List ℕ) (account : Account) (xs ys : List Stroke) (n : List ℕ) → (after name account (xs ++ ys)).entry n ≡ (after name (after name account xs) ys).entry n }
    ensures kept { (name : List ℕ) (account : Account) (xs ys : List Stroke) → (after name account (xs ++ ys)).kept ≡ (after name (after name account xs) ys).kept }
{}

/// A page stroke changes its page and no other.
pub fn a_page_stroke_changes_one_page()
    ensures page { (b : Base) (p : ℕ) (bytes : Page) → p ≤ length b.image → page_at (on_base (page_stroke p bytes) b).image p ≡ merged_page p bytes b.image }
    ensures others { (b : Base) (p q : ℕ) (bytes : Page) → p ≤ length b.image → q ≢ p → page_at (on_base (page_stroke p bytes) b).image q ≡ page_at b.image q }
{}

/// A fixup changes the two state bytes and nothing else.
pub fn a_fixup_changes_the_state()
    ensures { (page : Page) (pages : Image) → fixed (page ∷ pages) ≡ (take 22 page ++ 0 ∷ 0 ∷ drop 24 page) ∷ pages }
{}

/// Where the page in the slot of an entry is written into the main file, the image stays.
pub fn a_merge_changes_no_image()
    ensures { (size k n : ℕ) (main : Image) (delta table : List ℕ) → entry_for n table ≡ Some k → 1 ≤ length main → 64 ≤ length (page_at main 0) → owned size (written_at size (n, slot_page size main delta n k) main) delta table ≡ owned size main delta table }
{}

/// The end of a merge drops the pages of zeros at the image's end, so that the image is one that a main file alone may have. Of an image that has
/// no page of zeros it changes page 0 alone.
pub fn a_merge_ends_without_zeros_behind()
    ensures whole { (b : Base) → HasHeader b.image → trimmed (on_base finish b).image ≡ (on_base finish b).image }
    ensures full { (b : Base) → HasNoZeros b.image → on_base finish b ≡ record b { image = with_control normal_state (image_scn b.image) (image_guid b.image) b.image; diverted = [] } }
{}

/// The strokes that a short form drafts lead to the image that it drafts.
pub fn forms_are_their_strokes()
    ensures put { (b : Base) (p kind : ℕ) (payload : List ℕ) → (base_after b (put p kind payload (drafted b.image)).strokes).image ≡ (put p kind payload (drafted b.image)).image }
    ensures take { (b : Base) (p : ℕ) → (base_after b (take_page p (drafted b.image)).strokes).image ≡ (take_page p (drafted b.image)).image }
    ensures give { (b : Base) (p : ℕ) → (base_after b (give_page p (drafted b.image)).strokes).image ≡ (give_page p (drafted b.image)).image }
    ensures new { (b : Base) (kind : ℕ) (payload : ℕ → List ℕ) → (base_after b (new_page kind payload (drafted b.image)).0.strokes).image ≡ (new_page kind payload (drafted b.image)).0.image }
{}

/// A refused statement makes no stroke and no file, takes nothing of what is given, and leaves nothing to do.
pub fn a_refused_statement_does_nothing()
    ensures { (s : Seen) (session : ℕ) (statement : Statement) (r : Refusal) → (first_turn s session statement).reply ≡ Some (Refused r) → DoesNothing s (first_turn s session statement) }
{}

/// Turns after turns are one run.
pub fn turns_join()
    ensures { (xs ys : List ℕ) (now : Now) → play (xs ++ ys) now ≡ ((play xs now).0 ++ (play ys (play xs now).1).0, (play ys (play xs now).1).1) }
{}

/// What stands after turns is the database after their strokes.
pub fn turns_are_their_strokes()
    ensures { (xs : List ℕ) (now : Now) → base_now (play xs now).1 ≡ base_after (base_now now) (strokes_of (play xs now).0) }
{}

/// A script has one run.
pub fn a_script_has_one_run()
    ensures { (schedule : List ℕ) (first : Now) (es fs : List Event) (x y : Now) → IsPlayed schedule first es x → IsPlayed schedule first fs y → (es ≡ fs) × (x ≡ y) }
{}

/// A session that is alone takes its turns one after the other: its statements are done in order.
pub fn a_session_alone_goes_in_order()
    ensures { (n : ℕ) (now : Now) → ((i : ℕ) → 1 ≤ i → slice_index_or now.todo i [] ≡ []) → play (rounds n) now ≡ play (replicate n 1) now }
{}

/// What is acknowledged never falls as more is said.
pub fn acknowledged_never_falls()
    ensures { (events : List Event) (said later : ℕ) → said ≤ later → acked events said ≤ acked events later }
{}

/// At a settled point a crash leaves the database and nothing else. Of each trail it may leave what was seen last.
pub fn a_settled_trail_is_its_database()
    ensures shows { (name : List ℕ) (b : Base) (m d : File) → StandsOn name (settled b) m d → owner name m d ≡ Ok b }
    ensures stands { (name : List ℕ) (b : Base) (m d : File) → owner name m d ≡ Ok b → StandsOn name (settled b) m d }
    ensures last { (name : List ℕ) (t : Trail) (files : Files) → ShowsIn name t.base files → StandsIn name t files }
{}

/// Of strokes that never wait a crash leaves a front, and nothing in between: so it is with forced writes on, and of a write of page 0
/// in any case.
pub fn synced_strokes_leave_a_front()
    ensures settled { (b : Base) (strokes : List Stroke) (k : ℕ) → AreSynced (settled b) strokes → after_strokes (take k strokes) (settled b) ≡ settled (base_after b (take k strokes)) }
    ensures shows { (name : List ℕ) (b : Base) (strokes : List Stroke) (k : ℕ) (files : Files) → AreSynced (settled b) strokes → StandsIn name (after_strokes (take k strokes) (settled b)) files
        → ShowsIn name (base_after b (take k strokes)) files }
    ensures forced { (b : Base) (strokes : List Stroke) → is_forced b.image ≡ true → AllByRecursion IsBehindFirst strokes → AreSynced (settled b) strokes }
    ensures one { (b : Base) (p : ℕ) (bytes : Page) → is_forced b.image ≡ true → AreSynced (settled b) (page_stroke p bytes ∷ []) }
    ensures first { (b : Base) (bytes : Page) → AreSynced (settled b) (page_stroke 0 bytes ∷ []) }
{}

/// Where pages are written with forced writes on, what a crash leaves after steps is the database after their strokes, and nothing in
/// between. These strokes are a front of all, and hold those that are acknowledged where the steps do.
pub fn forced_writes_leave_a_front()
    ensures settled { (b : Base) (steps : List Step) (count : ℕ) → AreForced b (strokes_in steps) → after_steps (settled b) (take count steps) ≡ settled (base_after b (strokes_in (take count steps))) }
    ensures shows { (name : List ℕ) (b : Base) (steps : List Step) (count : ℕ) (files : Files) → AreForced b (strokes_in steps) → StandsIn name (after_steps (settled b) (take count steps)) files
        → ShowsIn name (base_after b (strokes_in (take count steps))) files }
    ensures stands { (name : List ℕ) (b : Base) (steps : List Step) (count : ℕ) (files : Files) → AreForced b (strokes_in steps) → ShowsIn name (base_after b (strokes_in (take count steps))) files
        → StandsIn name (after_steps (settled b) (take count steps)) files }
    ensures front { (events : List Event) (count : ℕ) → strokes_in (take count (steps_of events)) ≡ take (length (strokes_in (take count (steps_of events)))) (strokes_of events) }
    ensures acknowledged { (events : List Event) (said count : ℕ) → acked_steps events said ≤ count → acked events said ≤ length (strokes_in (take count (steps_of events))) }
{}

/// Whatever a crash leaves of a trail has the header's fields of what was seen last.
pub fn mixtures_keep_the_header()
    ensures size { (t : Trail) (b : Base) → IsLeft t b → image_size b.image ≡ image_size t.base.image }
    ensures state { (t : Trail) (b : Base) → IsLeft t b → image_state b.image ≡ image_state t.base.image }
    ensures scn { (t : Trail) (b : Base) → IsLeft t b → image_scn b.image ≡ image_scn t.base.image }
    ensures guid { (t : Trail) (b : Base) → IsLeft t b → image_guid b.image ≡ image_guid t.base.image }
    ensures forced { (t : Trail) (b : Base) → IsLeft t b → is_forced b.image ≡ is_forced t.base.image }
    ensures read_only { (t : Trail) (b : Base) → IsLeft t b → is_read_only b.image ≡ is_read_only t.base.image }
{}

/// Whatever a crash leaves of a sound trail is sound.
pub fn mixtures_are_sound()
    ensures { (t : Trail) (b : Base) → IsSoundTrail t → IsLeft t b → IsSoundImage b.image }
{}

/// A trail of a sound database is sound, and stays so where a page is written that lowers no entry and the entries still cover the pages.
pub fn trails_stay_sound()
    ensures settled { (b : Base) → IsCovered b → IsSoundImage b.image → IsSoundTrail (settled b) }
    ensures write { (p : ℕ) (page : Page) (image : Image) → p ≤ length image → (p ≡ 0 → take 64 page ≡ take 64 (first_page image)) → LowersNone p page image → IsEarlier image (with_page p page image) }
    ensures stroke { (s : Stroke) (t : Trail) → IsSoundTrail t → IsEarlier t.base.image (on_base s t.base).image → IsCovered (on_base s t.base) → IsSoundImage (on_base s t.base).image → IsSoundTrail (after_stroke s t) }
    ensures itself { (a : Image) → IsEarlier a a }
    ensures joins { (a b c : Image) → IsEarlier a b → IsEarlier b c → IsEarlier a c }
{}

/// A mixture is pagewise of the images that were seen, and goes on from what all of them go on from. Where no SCN page waits it agrees with
/// what was seen last.
pub fn mixtures_are_pagewise()
    ensures pagewise { (bases : List Base) (now : Base) (image : Image) (diverted : List ℕ) → IsMixture bases now.image image → Contains bases now → SoundInventory image
        → (image_state image ≡ stalled_state → IsRaised image diverted) → IsPagewise (images bases) image diverted }
    ensures agrees { (t : Trail) (b : Base) → IsFirm t b → AgreesWith b.image t.base.image }
    ensures lineage { (bases : List Base) (s : ℕ) (now : Base) (image : Image) → IsMixture bases now.image image → Contains bases now → s < stamp_of (first_page now.image) → IsMixed (images bases) s image }
{}

/// Whether a page write is kept or lost, a mixture of the databases before is one with the database after it. A write may be lost
/// where it makes the database no longer and isn't of page 0.
pub fn mixtures_go_on()
    ensures put { (bases : List Base) (now image : Image) (new : Base) (p : ℕ) (page : Page) → IsMixture bases now image → p ≤ length now → new.image ≡ with_page p page now
        → IsMixture (bases ++ new ∷ []) new.image (with_page p page image) }
    ensures lost { (bases : List Base) (now image : Image) (new : Base) (p : ℕ) (page : Page) → IsMixture bases now image → p < length now → p ≢ 0 → new.image ≡ with_page p page now
        → IsMixture (bases ++ new ∷ []) new.image image }
{}

/// A mixture goes on from each backup from which all that was seen goes on.
pub fn mixtures_keep_lineage()
    ensures { (bases : List Base) (now : Base) (image : Image) (r : Kept) → IsMixture bases now.image image → Contains bases now → IsSoundImage now.image
        → ((m : Base) → Contains bases m → GoesOn r m.image) → GoesOn r image }
{}

/// Whatever a crash leaves of a well trail is well in its state, whether it is normal, stalled or merge, and a well trail begins
/// with what can be opened of it.
pub fn well_trails_leave_well_databases()
    ensures left { (kept : List Kept) (t : Trail) (b : Base) → IsWellTrail kept t → IsLeft t b → IsWellBaseIn kept b }
    ensures again { (kept : List Kept) (name : List ℕ) (t : Trail) (m d : File) → IsWellTrail kept t → (s : StandsOn name t m d) → IsWellTrail kept (settled s.base) }
{}

/// A well trail begins with each new database, and with each that files stand for.
pub fn well_trails_begin()
    ensures fresh { (kept : List Kept) (size raw : ℕ) → IsTrue (is_page_size size) → raw ≤ 65535 → IsWellTrail kept (settled (base_of (fresh size raw))) }
    ensures opened { (files : Files) (account : Account) (name : List ℕ) (b : Base) → Stands files account → is_delta name ≡ false → account.entry name ≡ IsBase b → image_scn b.image < 4294967296
        → IsWellTrail account.kept (settled b) }
{}

/// A trail stays well at each point of a statement on pages or on tables, in whatever state, and where all is kept for good.
pub fn well_trails_stay_well()
    ensures pages { (kept : List Kept) (statement : Statement) (s : Seen) (session : ℕ) (t : Trail) (k : ℕ) → is_on_pages statement ≡ true → IsNamed (Begins statement) → s.base ≡ t.base → IsWellTrail kept t
        → IsWellTrail kept (after_strokes (take k (first_turn s session statement).strokes) t) }
    ensures settled { (kept : List Kept) (t : Trail) → IsWellTrail kept t → IsWellTrail kept (settled t.base) }
{}

/// A well trail begins after each control stroke of a backup. A begin keeps the record of its backup.
pub fn control_strokes_keep_well()
    ensures begin { (kept : List Kept) (b : Base) (guid : List ℕ) (ask : Option Ask) → IsWellBaseIn kept b → image_state b.image ≡ normal_state → length guid ≡ 16 → image_scn b.image ≤ 4294967293
        → IsWellTrail (kept ++ records_of (begin guid ask) b) (settled (on_base (begin guid ask) b)) }
    ensures ends { (kept : List Kept) (b : Base) → IsWellBaseIn kept b → image_state b.image ≡ stalled_state → IsWellTrail kept (settled (on_base ends b)) }
    ensures finish { (kept : List Kept) (b : Base) → IsWellBaseIn kept b → image_state b.image ≡ merge_state → IsWellTrail kept (settled (on_base finish b)) }
{}

/// What turns have seen of their database is well after each of their steps, whatever backups and copies are under way, with the records of
/// the backups that have begun by then. The files that they make are those of kept records.
pub fn turns_keep_well()
    ensures well { (kept : List Kept) (now : Now) (order : List ℕ) (k : ℕ) → IsGoing true now → AreNamed now → ((place : ℕ) → AreBeginnings (slice_index_or now.todo place [])) → IsWellTrail kept (settled (base_now now))
        → IsWellTrail (kept ++ records_after (base_now now) (strokes_in (take k (steps_of (play order now).0)))) (after_steps (settled (base_now now)) (take k (steps_of (play order now).0))) }
    ensures files { (kept : List Kept) (now : Now) (order : List ℕ) (f : MadeFile) → IsGoing true now → AreNamed now → ((place : ℕ) → AreBeginnings (slice_index_or now.todo place [])) → IsWellTrail kept (settled (base_now now))
        → Contains (files_made (play order now).0) f → IsOfKept (kept ++ records_after (base_now now) (strokes_of (play order now).0)) f.1 }
{}

/// The files stand for the account with a file that a backup or a copy has made, and with one that it left unfinished, where no difference
/// file stands beside it.
pub fn made_files_stand()
    ensures whole { (old new : Files) (account : Account) (name bytes : List ℕ) → Stands old account → is_delta name ≡ false → ((m : List ℕ) → m ≢ name → m ≢ delta_name name → new m ≡ old m) → new (delta_name name) ≡ None
        → new name ≡ Some bytes → IsOfKept account.kept bytes → Stands new (with_entry name (Plain bytes None) account) }
    ensures unfinished { (old new : Files) (account : Account) (name : List ℕ) → Stands old account → is_delta name ≡ false → ((m : List ℕ) → m ≢ name → m ≢ delta_name name → new m ≡ old m) → new (delta_name name) ≡ None
        → ((bytes : List ℕ) → new name ≡ Some bytes → IsNoBackup bytes) → Stands new (with_entry name (entry_in new name) account) }
{}
