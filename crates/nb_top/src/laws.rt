// Laws of the whole program: each is a public function with an empty body, whose contract is the law. They show that what a run is
// promised on holds where a first run begins and where the next one begins after a crash, and that a job is what it asks for.
ghost use Rattle.std.specs.Prelude.{◌≡◌, ◌⊎◌, ℕ, ◌+◌, ◌^◌, ◌<◌, List, [], ◌∷◌, ◌++◌, length, Option, None, Some, Result, Ok, Contains, IsTrue, false, ◌≢◌, true};
ghost use Rattle.std.specs.List.{AllByRecursion};
ghost use Rattle.nb_fields.specs.Fresh.{fresh};
ghost use Rattle.nb_host.specs.Files.{Files, with_file};
ghost use Rattle.nb_host.specs.Crash.{IsDurable, LeavesAll};
ghost use Rattle.nb_host.specs.Names.{is_delta};
ghost use Rattle.nb_host.specs.Moments.{AtEachMoment};
ghost use Rattle.nb_host.specs.declared.refusals.Refusal.{Refusal};
ghost use Rattle.nb_mem.specs.declared.entry.Entry.{Entry};
ghost use Rattle.nb_mem.specs.Histories.{files_of, guids_behind, world_of};
ghost use Rattle.nb_mem.specs.Outcomes.{IsLeft, placed};
ghost use Rattle.nb_model.specs.Account.{Account, Base, Kept};
ghost use Rattle.nb_model.specs.Image.{Image, page_at, is_forced, is_read_only};
ghost use Rattle.nb_model.specs.Steps.{AreForced, after_steps, steps_of};
ghost use Rattle.nb_model.specs.Strokes.{Stroke, make};
ghost use Rattle.nb_model.specs.Trail.{IsBehindFirst, Trail};
ghost use Rattle.nb_model.specs.Jobs.{IsAttaching, turn_of};
ghost use Rattle.nb_model.specs.InPlace.{in_place, not_standby};
ghost use Rattle.nb_model.specs.Levels.{Contents};
ghost use Rattle.nb_model.specs.NewGuids.{AreNew, guids_in};
ghost use Rattle.nb_model.specs.Outcomes.{Given};
ghost use Rattle.nb_model.specs.Owner.{delta_name};
ghost use Rattle.nb_model.specs.Restoring.{Link, verdict};
ghost use Rattle.nb_model.specs.Run.{Event, Now, play, strokes_of};
ghost use Rattle.nb_model.specs.Stands.{Stands};
ghost use Rattle.nb_model.specs.Trail.{ShowsIn};
ghost use Rattle.nb_model.specs.declared.job.Ask.{Ask};
ghost use Rattle.nb_model.specs.declared.job.Deed.{Deed};
ghost use Rattle.nb_model.specs.declared.job.Deed.TheVariants.{Apply, Restore};
ghost use Rattle.nb_model.specs.declared.job.Job.TheVariants.{Attach, Turn};
ghost use Rattle.nb_inplace.specs.Verdict.{IsMergeable};
ghost use Rattle.nb_model.specs.Words.{is_database};
ghost use Rattle.nb_page.specs.Free.{is_free_name};
ghost use Rattle.nb_restore.specs.Kept.{AreKept, last_guid};
ghost use Rattle.nb_script.specs.Scripts.{Plan};
ghost use Rattle.nb_session.specs.ByTurns.{ByTurns};
ghost use Rattle.nb_ended.specs.declared.status.Status.{Status};
ghost use Rattle.nb_top.specs.Among.{AreClosed, FollowOn, GoOnAlone, HoldTheirs, RestoresKept, StandAlone, among, is_among, only_of, with_deltas};
ghost use Rattle.nb_top.specs.Forced.{AreForcedIn, PrefixLeft, StandsWhole};
ghost use Rattle.nb_top.specs.Frozen.{AreDuring, StaysWithin};
ghost use Rattle.nb_top.specs.Goes.{IsRun};
ghost use Rattle.nb_top.specs.OneTurn.{DoesTurn, leaves_all, one_turn};
ghost use Rattle.nb_top.specs.Performed.{IsPerformed, IsSure, KnowsAsked, PerformsRun, RunLeft, StandsWithin, Target, Finished, HasSmallScn, MayBeGiven, target_of};
ghost use Rattle.nb_top.specs.Requests.{Does, Request, Runs, Ships, attached, request_asked, request_of, ToRun};
ghost use Rattle.nb_top.specs.Rows.{IsNewPage};
ghost use Rattle.nb_top.specs.ShipDone.{BacksUp, GivesNew, HasStandby, IsShipped};
ghost use Rattle.nb_top.specs.Done.{GoesOn};
ghost use Rattle.nb_top.specs.ShipOnward.{BeginsWell, CanShip, HasRoomFor, RestsOn, WaitsForMore};
ghost use Rattle.nb_top.specs.Shipped.{copying};
ghost use Rattle.nb_model.specs.Rows.{IsNeat};
ghost use Rattle.nb_top.specs.Shipping.{names_backup, not_normal};
ghost use Rattle.nb_ship.specs.Looks.{look_at};
ghost use Rattle.nb_ship.specs.Names.{ship_of};
ghost use Rattle.nb_ship.specs.declared.found.Look.{Look};
ghost use Rattle.nb_fields.specs.Header.{guid_of};
ghost use Rattle.nb_inplace.specs.Half.{IsHalf};
ghost use Rattle.nb_top.specs.ShipStops.{GivesFirstNew, IsStopped};
ghost use Rattle.nb_top.specs.Standing.{HoldsKept, NextMayBegin, StandsFor};
ghost use Rattle.nb_top.specs.Stopped.{FinishesMerge, IsOnWay, KeepsMerged};
ghost use Rattle.nb_top.specs.declared.telling.Telling.{Telling};
ghost use Rattle.nb_top.specs.Touched.{MayTouch, OfAsked, TouchesOnly};
ghost use Rattle.nb_top.specs.Worlds.{AreCopies, ArePlain, HaveNames, LeaveNames, NameNone, StartsFrom, account_of, empty, no_files};

use nb_host::Host;

/// A first run may begin. Where there is no file, and a crash leaves none, the files stand for the account without entries and records.
/// Where plain files were placed for good, such as scripts, they stand for the account that has them, without records.
pub fn a_first_run_may_begin<H: Host>(_host: &H)
    ensures none { StartsFrom (H.world _host.now) no_files → StandsFor (H.world _host.now) empty }
    ensures plain { (files : Files) → ArePlain files → StartsFrom (H.world _host.now) files → StandsFor (H.world _host.now) (account_of files []) }
{}

/// The next run may begin after a crash: a host that starts again from files that stand for an account with these records of backups
/// stands for one with the same.
pub fn a_next_run_may_begin<H: Host>(_host: &H)
    ensures { (files : Files) (kept : List Kept) → HoldsKept files kept → StartsFrom (H.world _host.now) files
        → (account : Account) × StandsFor (H.world _host.now) account × (account.kept ≡ kept) }
{}

/// The next run may begin after a run with no crash between, whatever its status: where the files stood for the account and the GUIDs were new, they
/// stand for one that has all records of before; and so after a job of one turn, where the files that it takes are of kept backups. So what is
/// promised of restoring kept backups is promised over any list of runs.
pub fn a_next_run_may_begin_at_once<H: Host>(_before: &H, _behind: &H)
    ensures runs { (status : Status) (asked : Result Request Refusal) (account : Account) (given : Given) (performs : PerformsRun status (H.world _before.now) (H.world _behind.now) asked account given)
        → IsSure (H.world _before.now) account performs.events → NextMayBegin (H.world _behind.now) account }
    ensures turns { (status : Status) (deed : Deed) (account : Account) → DoesTurn status (H.world _before.now) (H.world _behind.now) (one_turn (H.world _before.now).files deed) account → StandsFor (H.world _before.now) account
        → (leaves_all ((one_turn (H.world _before.now).files deed).turn account) ≡ false → (one_turn (H.world _before.now).files deed).takes account.kept) → NextMayBegin (H.world _behind.now) account }
{}

/// A run leaves other files alone, whatever stands in the files, and however it ends: at each moment of it and after it, a crash leaves of every file
/// what it would have left before, and it reads as it did, but for the two of the database that the words ask for and those that the job is to make, which
/// are the files of the backups and copies that its statements name, and that of a script which it writes; or but for the one file of a job of one turn.
/// Its status is Refused or Usage only where the line of a refusal was said.
pub fn other_files_stay<H: Host>(_before: &H, _behind: &H)
    ensures { (status : Status) (words : List (List ℕ)) → IsTrue H.tells → IsRun H.world H.tells status _before.now _behind.now (request_asked (H.world _before.now).files words)
        → TouchesOnly status (H.world _before.now) (H.world _behind.now) (OfAsked (H.world _before.now).files (request_asked (H.world _before.now).files words)) }
{}

/// Files keep names that a host may give them: where all that a crash may leave has such names as a run begins, it has at each moment of the run and
/// after it, whatever its words ask for and whatever stands in the files. A host that starts from such files leaves such names.
pub fn names_stay_names<H: Host>(_before: &H, _behind: &H)
    ensures moments { (status : Status) (words : List (List ℕ)) → IsTrue H.tells → IsRun H.world H.tells status _before.now _behind.now (request_asked (H.world _before.now).files words) → LeaveNames (H.world _before.now)
        → AtEachMoment (H.world _before.now) (H.world _behind.now) (λ files said. HaveNames files) }
    ensures behind { (status : Status) (words : List (List ℕ)) → IsTrue H.tells → IsRun H.world H.tells status _before.now _behind.now (request_asked (H.world _before.now).files words) → LeaveNames (H.world _before.now)
        → LeaveNames (H.world _behind.now) }
    ensures starts { (files : Files) → HaveNames files → StartsFrom (H.world _behind.now) files → LeaveNames (H.world _behind.now) }
{}

/// The file of a backup stands before its row. A turn that makes a file whole, as the close of a backup does before it writes the row of its level,
/// has that file first: at each moment of a run what a crash leaves has that file whole, or its database has no stroke of that turn, and so no row
/// that it writes. So where the database has a page that it has only since that turn, such as the page of the history with that row, the file is
/// whole, and no later level goes on from a backup without a file.
pub fn a_row_stands_with_its_file<H: Host>(_before: &H)
    ensures file { (account : Account) (target : Option Target) (before behind : List Event) (closing : Event) (name bytes : List ℕ) (files : Files) (said : List ℕ) → closing.made ≡ Some (name, bytes)
        → (left : RunLeft (H.world _before.now) account target (before ++ closing ∷ behind) files said) → (files name ≡ Some bytes) ⊎ StandsWithin (H.world _before.now) account target before (length left.out.part) files }
    ensures row { (account : Account) (t : Target) (before behind : List Event) (closing : Event) (name bytes : List ℕ) (files : Files) (said : List ℕ) → closing.made ≡ Some (name, bytes)
        → RunLeft (H.world _before.now) account (Some t) (before ++ closing ∷ behind) files said → (b : Base) (p : ℕ) → ShowsIn t.name b files → p < length b.image
        → IsNewPage (H.world _before.now) account t.name before p (page_at b.image p) → files name ≡ Some bytes }
{}

/// A run may begin where files were copied to, as backups to another machine. Copies of files that stand for an account, under whatever
/// names and without a difference file, stand for one with the same records. So what is promised of restoring kept backups is promised there.
pub fn a_run_may_begin_on_copies<H: Host>(_host: &H)
    ensures { (files copies : Files) (account : Account) → Stands files account → AreCopies files copies → StartsFrom (H.world _host.now) copies
        → StandsFor (H.world _host.now) (account_of copies account.kept) }
{}

/// There are such hosts, in memory: a new one has no file, each file that is placed is one more, and one that a crash left starts from what
/// the crash left.
pub fn hosts_in_memory_begin_so()
    ensures none { StartsFrom (world_of []) no_files }
    ensures placed { (es : List Entry) (files : Files) (name bytes : List ℕ) → StartsFrom (world_of es) files → StartsFrom (world_of (placed name (Some bytes) es)) (with_file files name (Some bytes)) }
    ensures left { (stopped left : List Entry) → IsLeft stopped left → LeavesAll (world_of stopped) (files_of left) × StartsFrom (world_of left) (files_of left) }
{}

/// On a host in memory the GUIDs of a next run are new. After a crash the host counts on from those that were given before, as
/// `nb_mem::MemHost::behind_guids` lets it, so it gives none that a kept record has, and no GUID twice; where no file names one, they are new.
pub fn counted_guids_are_new<H: Host>(_host: &H)
    ensures { (files : Files) (kept : List Kept) (count more : ℕ) → count + more < 2 ^ 64 → StartsFrom (H.world _host.now) files → ((r : Kept) → Contains kept r → Contains (guids_behind 0 count) r.guid)
        → NameNone files (guids_behind count more) → AreNew (H.world _host.now) kept (guids_behind count more) }
{}

/// An account for which the files stand knows what any words ask of it: of each name that a file may have it knows whether it is free, and of
/// each database it has what the files tell. The files have names that a host may give them. Whatever else stands in them, as a difference file
/// without its database or inventories that don't agree with the pages, the account that has under each name what they hold knows it too.
pub fn what_stands_is_known()
    ensures stands { (files : Files) (account : Account) (words : List (List ℕ)) → HaveNames files → Stands files account → KnowsAsked files account (request_asked files words) }
    ensures whatever { (files : Files) (kept : List Kept) (words : List (List ℕ)) → HaveNames files → KnowsAsked files (account_of files kept) (request_asked files words) }
{}

/// A job that attaches is exactly the run of the script that opens its database and asks what the job asks. It says nothing of the opening
/// but why it is refused.
pub fn a_job_attaches()
    ensures asks { (files : Files) (db : List ℕ) (ask : Ask) → request_of files (Attach db ask) ≡ Runs (Ok (attached db ask)) }
    ensures attaches { (files : Files) (db : List ℕ) (ask : Ask) (before last : Account) (given left : Given) (events : List Event)
        → IsPerformed files (Ok (attached db ask)) before given events last left → IsAttaching before given db ask events last }
    ensures performs { (files : Files) (db : List ℕ) (ask : Ask) (before last : Account) (given : Given) (events : List Event)
        → (attaching : IsAttaching before given db ask events last) → IsPerformed files (Ok (attached db ask)) before given events last attaching.left }
{}

/// A job that neither attaches nor runs a script is a job of one turn, on its database.
pub fn a_job_takes_its_turn()
    ensures { (files : Files) (deed : Deed) (name : List ℕ) (turn : Event) (account : Account) → turn_of files account deed ≡ Some (name, turn)
        → (request_of files (Turn deed) ≡ Does deed) × ((one_turn files deed).name ≡ Some name) × ((one_turn files deed).turn account ≡ turn) }
{}

/// With forced writes on a crash leaves a prefix. Where a run writes each page with forced writes on, in a run that creates its database from the
/// creation on, then at each moment of it a crash leaves the database as it is after a prefix of the run's operations, each acknowledged one among
/// them, and nothing in between; or the run hasn't begun to change it. At the run's end all its operations are there, whatever a crash leaves.
/// So it is where forced writes were on as the run began, or it creates its database, and it writes no page 0.
pub fn forced_writes_leave_a_prefix<H: Host>(_before: &H, _behind: &H)
    ensures moment { (account : Account) (target : Target) (events : List Event) (files : Files) (said : List ℕ) → RunLeft (H.world _before.now) account (Some target) events files said → AreForcedIn account target events
        → PrefixLeft (H.world _before.now) account target events files said }
    ensures moments { (status : Status) (asked : Result Request Refusal) (account : Account) (given : Given) (target : Target) (performs : PerformsRun status (H.world _before.now) (H.world _behind.now) asked account given)
        → target_of asked performs.events ≡ Some target → AreForcedIn account target performs.events → AtEachMoment (H.world _before.now) (H.world _behind.now) (PrefixLeft (H.world _before.now) account target performs.events) }
    ensures ended { IsTrue H.tells → (status : Status) (asked : Result Request Refusal) (account : Account) (given : Given) (target : Target) (performs : PerformsRun status (H.world _before.now) (H.world _behind.now) asked account given)
        → target_of asked performs.events ≡ Some target → AreForcedIn account target performs.events
        → Finished status (H.world _before.now) (H.world _behind.now) account (target_of asked performs.events) performs.events given performs.left → StandsWhole (H.world _behind.now) account target performs.events }
    ensures opened { (b : Base) (strokes : List Stroke) → is_forced b.image ≡ true → AllByRecursion IsBehindFirst strokes → AreForced b strokes }
    ensures created { (b : Base) (size raw : ℕ) (strokes : List Stroke) → AllByRecursion IsBehindFirst strokes → AreForced b (make (fresh size raw) ∷ strokes) }
{}

/// A merge in place that was stopped is finished by the same file in the next run. Where the standby and the level file were kept for good as the first run
/// began, and it was stopped at any moment, then a run of the same job on what the crash left that comes to its end says its reply and leaves the
/// standby merged, for good; or the standby was merged already, and is so still. The level file reads the same, since the first run touches the
/// standby alone. So it is over any list of runs that are stopped: the merge is on its way at each moment of each, and one that comes to its end has
/// done it.
pub fn a_stopped_merge_is_finished<H: Host>(_before: &H, _stopped: &H, _again: &H, _behind: &H)
    ensures runs { IsTrue H.tells → (db name bytes : List ℕ) (c : Contents) (first second : Status) → IsMergeable (H.world _before.now).files db name bytes c
        → IsDurable (H.world _before.now) db ((H.world _before.now).files db) → IsDurable (H.world _before.now) (delta_name db) ((H.world _before.now).files (delta_name db)) → IsDurable (H.world _before.now) name ((H.world _before.now).files name)
        → IsRun H.world H.tells first _before.now _stopped.now (Does (Apply db name))
        → (left : Files) (said : List ℕ) → (H.world _stopped.now).left_since (H.world _before.now).moment left said → StartsFrom (H.world _again.now) left
        → IsRun H.world H.tells second _again.now _behind.now (Does (Apply db name)) → second ≢ Status.Device → second ≢ Status.Memory
        → FinishesMerge second (H.world _again.now) (H.world _behind.now) db bytes c ⊎ KeepsMerged (H.world _again.now) (H.world _behind.now) db bytes c }
    ensures begins { (files : Files) (db name bytes : List ℕ) (c : Contents) → IsMergeable files db name bytes c → IsOnWay files db name bytes c files }
    ensures stopped { IsTrue H.tells → (start : Files) (db name bytes : List ℕ) (c : Contents) (status : Status) → IsMergeable start db name bytes c → IsOnWay start db name bytes c (H.world _again.now).files
        → IsDurable (H.world _again.now) db ((H.world _again.now).files db) → IsDurable (H.world _again.now) (delta_name db) ((H.world _again.now).files (delta_name db)) → IsDurable (H.world _again.now) name ((H.world _again.now).files name)
        → IsRun H.world H.tells status _again.now _behind.now (Does (Apply db name)) → AtEachMoment (H.world _again.now) (H.world _behind.now) (λ files said. IsOnWay start db name bytes c files) }
    ensures reads { IsTrue H.tells → (start : Files) (db name bytes : List ℕ) (c : Contents) (status : Status) → IsMergeable start db name bytes c → IsOnWay start db name bytes c (H.world _again.now).files
        → IsRun H.world H.tells status _again.now _behind.now (Does (Apply db name)) → IsOnWay start db name bytes c (H.world _behind.now).files }
    ensures finishes { IsTrue H.tells → (start : Files) (db name bytes : List ℕ) (c : Contents) (status : Status) → IsMergeable start db name bytes c → IsOnWay start db name bytes c (H.world _again.now).files
        → IsDurable (H.world _again.now) db ((H.world _again.now).files db) → IsDurable (H.world _again.now) (delta_name db) ((H.world _again.now).files (delta_name db)) → IsDurable (H.world _again.now) name ((H.world _again.now).files name)
        → IsRun H.world H.tells status _again.now _behind.now (Does (Apply db name)) → status ≢ Status.Device → status ≢ Status.Memory
        → FinishesMerge status (H.world _again.now) (H.world _behind.now) db bytes c ⊎ KeepsMerged (H.world _again.now) (H.world _behind.now) db bytes c }
    ensures starts { (files : Files) (name : List ℕ) → StartsFrom (H.world _again.now) files → IsDurable (H.world _again.now) name ((H.world _again.now).files name) }
{}

/// A chain that is named restores to the kept image, whatever stands under other names, as a damaged database or a foreign chain. Where the files of the
/// chain hold kept records, those follow on records, and the name is free, then a run that restores them leaves at each moment the name as it was,
/// or free, or with the image that the begin of the last backup kept, in the normal state; and with that for good, where it came to its end. Then the
/// database and the files of the chain stand, alone, where those were kept for good, so that the next run may begin. Files that stand for an abstract
/// state hold its records so, and those follow on records.
pub fn a_named_chain_restores<H: Host>(_before: &H, _behind: &H)
    ensures restores { IsTrue H.tells → (status : Status) (db : List ℕ) (names : List (List ℕ)) (kept : List Kept) (links : List Link) (words : List (List ℕ)) → request_asked (H.world _before.now).files words ≡ Does (Restore db names)
        → IsRun H.world H.tells status _before.now _behind.now (Does (Restore db names)) → FollowOn kept → HoldTheirs kept names (H.world _before.now).files → verdict (H.world _before.now).files names ≡ Ok links
        → AreKept kept links → is_free_name (H.world _before.now).files db ≡ true → RestoresKept status (H.world _before.now) (H.world _behind.now) kept (last_guid links) db }
    ensures alone { IsTrue H.tells → (status : Status) (db : List ℕ) (names : List (List ℕ)) (kept : List Kept) (links : List Link) (words : List (List ℕ)) → request_asked (H.world _before.now).files words ≡ Does (Restore db names)
        → IsRun H.world H.tells status _before.now _behind.now (Does (Restore db names)) → FollowOn kept → HoldTheirs kept names (H.world _before.now).files → verdict (H.world _before.now).files names ≡ Ok links
        → AreKept kept links → is_free_name (H.world _before.now).files db ≡ true → status ≢ Status.Device → status ≢ Status.Memory
        → ((n : List ℕ) → Contains (delta_name db ∷ names) n → IsDurable (H.world _before.now) n ((H.world _before.now).files n)) → (H.world _before.now).files (delta_name db) ≡ None
        → (account : Account) × StandAlone (db ∷ (delta_name db ∷ names)) (H.world _behind.now) account × (account.kept ≡ kept) }
    ensures follow { (files : Files) (account : Account) → Stands files account → FollowOn account.kept }
    ensures hold { (files : Files) (account : Account) (names : List (List ℕ)) → Stands files account → AllByRecursion (λ (name : List ℕ). is_delta name ≡ false) names → HoldTheirs account.kept names files }
{}

/// The next run may begin for the database that it names, under the files that it names, whatever stands under other names. Where the files of certain names,
/// taken alone, stand for an abstract state, and they have all files that the run of a script may touch, then at each moment what a crash leaves of them
/// stands, alone, with the records of the backups that have begun by then; and so do they after the run, however it ended, so that a further one may
/// begin. So they do in a host that starts again from what a crash left, or from files with whatever else under other names, and where all files stand,
/// for names that have a difference file exactly where they have its database.
pub fn the_next_run_may_begin_alone<H: Host>(_before: &H, _behind: &H)
    ensures runs { IsTrue H.tells → (names : List (List ℕ)) (plan : Plan) (telling : Telling) (alone : Account) (given : Given) (status : Status) (target : Target)
        (performs : PerformsRun status (H.world _before.now) (H.world _behind.now) (Ok (ToRun plan telling)) (account_of (H.world _before.now).files alone.kept) given) (words : List (List ℕ))
        → request_asked (H.world _before.now).files words ≡ Runs (Ok (ToRun plan telling)) → MayBeGiven given
        → target_of (Ok (ToRun plan telling)) performs.events ≡ Some target → ((m : List ℕ) → MayTouch (Ok (ToRun plan telling)) m → is_among names m ≡ true) → StandAlone names (H.world _before.now) alone
        → AreNew (H.world _before.now) alone.kept (guids_in (strokes_of performs.events)) → HasSmallScn (account_of (H.world _before.now).files alone.kept) (Some target)
        → GoOnAlone names (H.world _before.now) (H.world _behind.now) (account_of (H.world _before.now).files alone.kept) target performs.events }
    ensures starts { (names : List (List ℕ)) (files : Files) (kept : List Kept) → HoldsKept (among names files) kept → StartsFrom (H.world _before.now) files
        → (account : Account) × StandAlone names (H.world _before.now) account × (account.kept ≡ kept) }
    ensures beside { (names : List (List ℕ)) (files others : Files) (kept : List Kept) → HoldsKept (among names files) kept → ((m : List ℕ) → is_among names m ≡ true → others m ≡ files m) → HoldsKept (among names others) kept }
    ensures closed { (names : List (List ℕ)) → AllByRecursion (λ (name : List ℕ). is_delta name ≡ false) names → AreClosed (with_deltas names) }
    ensures part { IsTrue H.tells → (names : List (List ℕ)) (account : Account) → AreClosed names → StandsFor (H.world _before.now) account → StandAlone names (H.world _before.now) (only_of names account) }
{}

/// While a backup is under way the main file stays as it is. Among turns that were taken one after another, a stretch of them, each taken in the stalled
/// state and none ending it, leaves the database's file as it reads, byte for byte, and at each moment of the stretch a crash leaves of it what it would
/// have left before.
pub fn a_frozen_file_stays<H: Host>(_before: &H, _behind: &H)
    ensures { (told : List Event → List Event) (front stretch rest : List ℕ) (t : Trail) (now : Now) → ByTurns H.world told (front ++ (stretch ++ rest)) _before.now _behind.now t now
        → AreDuring stretch (after_steps t (steps_of (play front now).0)) (play front now).1 → StaysWithin H.world told front stretch rest _before.now _behind.now t now }
{}

/// A ship that is done leaves the standby as the image that the begin of its own backup kept, in the normal state, read-only and with nothing pending, for
/// good. The primary is as the run of that backup leaves it, for good; one GUID and one time were given; the ship file is gone for good; and the reply tells
/// the SCN of that backup and the pages of the standby. So it is where the files stood for an account and the GUID that was given is new, where the standby
/// names the backup that it was restored from, and a merge into it that was begun is of a kept backup. The files go on to stand, with one record more.
pub fn a_ship_gives_the_kept_image<H: Host>(_before: &H, _behind: &H)
    ensures { IsTrue H.tells → (primary standby : List ℕ) (account : Account) → is_database primary ≡ true → is_database standby ≡ true → primary ≢ standby
        → HaveNames (H.world _before.now).files → StandsFor (H.world _before.now) account → HasStandby (H.world _before.now).files account.kept standby → GivesNew (H.world _before.now) (H.world _behind.now) account.kept
        → IsRun H.world H.tells Status.Done _before.now _behind.now (Ships primary standby) → IsShipped H.world _before.now _behind.now account primary standby }
{}

/// A ship that is stopped, or that fails or is refused: at each moment of it, and after it, a crash leaves the primary as it was, or as the run of its copy
/// leaves it after some of its steps; and the standby as it was, or half way, with the GUID of the whole ship file pending, or merged with it. That file is
/// one whose merge was begun as the ship began, or one whose backup the primary's history named then, or that of the ship's own copy. The files stand for an
/// account with the records of before and of the backups that have begun.
pub fn a_stopped_ship_leaves_them_so<H: Host>(_before: &H, _behind: &H)
    ensures { IsTrue H.tells → (primary standby : List ℕ) (status : Status) (account : Account) (further : List ℕ) → is_database primary ≡ true → is_database standby ≡ true → primary ≢ standby
        → HaveNames (H.world _before.now).files → StandsFor (H.world _before.now) account → HasStandby (H.world _before.now).files account.kept standby
        → GivesFirstNew (H.world _before.now) (H.world _behind.now) account.kept further → IsRun H.world H.tells status _before.now _behind.now (Ships primary standby)
        → AtEachMoment (H.world _before.now) (H.world _behind.now) (λ files said. IsStopped H.world _before.now account primary standby files) }
{}

/// The copy of a ship is refused nothing: where the primary is in the normal state, read-write and neat, its history names the backup, the ship file's name is
/// free, and SCNs and pages aren't used up, it is done, or it ends early.
pub fn a_copy_is_refused_nothing<H: Host>(_before: &H, _behind: &H)
    ensures { IsTrue H.tells → (primary standby since : List ℕ) (status : Status) (account : Account) (b : Base) → is_database primary ≡ true → is_database standby ≡ true
        → HaveNames (H.world _before.now).files → StandsFor (H.world _before.now) account → ShowsIn primary b (H.world _before.now).files → not_normal b.image ≡ None → is_read_only b.image ≡ false → IsNeat b.image → HasRoomFor b.image
        → names_backup b.image since ≡ true → is_free_name (H.world _before.now).files (ship_of standby) ≡ true → GoesOn H.world H.tells (Ok status) _before.now _behind.now (copying primary since (ship_of standby))
        → status ≢ Status.Device → status ≢ Status.Memory → status ≡ Status.Done }
{}

/// What the copy of a ship has made is accepted: where the standby rests on the backup since which it was made, the ship file is merged into it.
pub fn a_copied_file_is_accepted<H: Host>(_before: &H, _behind: &H)
    ensures { (account : Account) (primary standby since bytes : List ℕ) (r : Kept) → is_database standby ≡ true → (copy : BacksUp (H.world _before.now) (H.world _behind.now) account primary since (ship_of standby))
        → RestsOn (H.world _behind.now).files copy.after.kept standby bytes r → guid_of bytes ≡ since → not_standby standby ((H.world _behind.now).files standby) ≡ None
        → (c : Contents) × (in_place (H.world _behind.now).files standby (ship_of standby) ≡ Ok c) }
{}

/// What a further ship begins with. Where the primary is read-write with forced writes on and neat, and the standby rests on a kept backup that the history
/// of the primary names, and a look refuses nothing, or a merge of the ship file into the standby was begun and the history names its backup, then the plan of a
/// ship refuses nothing once the primary is in the normal state. Its copy goes on from a backup that the history names, and a merge that comes first is
/// accepted. So it is where such a merge was stopped half way.
pub fn a_further_ship_begins_well()
    ensures begins { (files : Files) (account : Account) (primary standby : List ℕ) → (can : CanShip files account primary standby) → is_database primary ≡ true → is_database standby ≡ true → not_normal can.base.image ≡ None
        → BeginsWell files primary standby can.base.image }
    ensures rests { (files : Files) (kept : List Kept) (image : Image) (standby bytes : List ℕ) (r : Kept) (look : Look) → RestsOn files kept standby bytes r → names_backup image (guid_of bytes) ≡ true → look_at files standby ≡ Ok look
        → WaitsForMore files kept image standby }
    ensures half { (old files : Files) (standby bytes half : List ℕ) (c : Contents) (kept : List Kept) (image : Image) → IsMergeable old standby (ship_of standby) bytes c → IsHalf bytes c half → files standby ≡ Some half
        → files (ship_of standby) ≡ old (ship_of standby) → names_backup image c.head.guid ≡ true → WaitsForMore files kept image standby }
{}
