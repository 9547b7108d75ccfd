ghost use Rattle.std.specs.Prelude.{◌≡◌, ◌⊎◌, ◌+◌, ◌-◌, ◌<◌, ◌≤◌, ℕ, length, [], ◌∷◌, Option, Some, List, true, IsTrue, IfOk, OnOk};
ghost use Rattle.nb_fields.specs.Places.{is_page_size};
ghost use Rattle.nb_fields.specs.States.{normal_state, stalled_state, merge_state};
ghost use Rattle.nb_host.specs.Causes.{CountsDevice};
ghost use Rattle.nb_change.specs.Gave.{GaveNothing};
ghost use Rattle.nb_page.specs.Free.{is_free_name};
ghost use Rattle.nb_page.specs.Quiet.{Quiet};
ghost use Rattle.nb_model.specs.Account.{Ask};
ghost use Rattle.nb_model.specs.Backups.{backup_turn, since_turn, close_backup};
ghost use Rattle.nb_model.specs.Causes.{Tested, first_cause};
ghost use Rattle.nb_model.specs.Forms.{HasItsEntry};
ghost use Rattle.nb_model.specs.Outcomes.{Seen, next_guid, next_time};
ghost use Rattle.nb_model.specs.Owner.{delta_name};
ghost use Rattle.nb_model.specs.Trail.{Trail};
ghost use Rattle.nb_base.specs.Open.{OfFiles};
ghost use Rattle.nb_state.specs.Open.{IsOpen};
ghost use Rattle.nb_state.specs.Looks.{Looks};
ghost use Rattle.nb_state.specs.Does.{Goes};
ghost use Rattle.nb_state.specs.Turns.{GaveAtMost};
ghost use Rattle.nb_copy.specs.FileCopying.{file_count, file_next, file_written};
ghost use Rattle.nb_gather.specs.Making.{IsMade};
ghost use Rattle.nb_copy.specs.Reading.{asked_scn, page_reads};
ghost use Rattle.nb_copy.specs.Starting.{StartsBackup, BeginsFor, IsBackingUp, IsNotMemory, KnowsFree, IsNineAtMost, IsItsLevel, ask_by, ask_in, earlier_cause, file_cause, turn_since};
ghost use Rattle.nb_copy.specs.Closing.{BackupTurn, BackupCounts, Closes, GaveTimeAtMost, ReadsTwo};

use crate::file_copy::FileCopy;
use crate::since::Since;
use nb_cases::{Case, Event, case_of};
use nb_engine::{Engine, HistoryRow, Room};
use nb_host::{Fault, Host, Name, Refusal};
use nb_level::LevelHead;
use nb_page::is_free;
use nb_state::Progress;
use std::alloc::Global;
use std::marker::Model;

/// A backup of a live database, from its begin to the row that the history gets of it. The merge follows.
#[derive(Drop)]
pub struct Copier {
    /// The name of its file.
    name: Name,
    /// What the head of its file says. The file of level 0 has no head.
    head: LevelHead,
    /// The slot of the history that is kept for its row.
    room: Room,
    file: FileCopy,
}

impl Model for Copier {
    ghost use Rattle.std.specs.Prelude.{◌≡◌, ◌≤◌};
    ghost use Rattle.nb_engine.specs.History.{IsPlaced};
    ghost use Rattle.nb_copy.specs.FileCopying.{file_name, file_page_size};
    ghost use Rattle.nb_copy.specs.Reading.{asked_scn, earlier_scn};
    ghost use Rattle.nb_copy.specs.Starting.{Backed, ask_by};

    ghost Value = { Backed };

    ghost view = { λ c. record { backing = record { name = c.name; ask = ask_by c.head; scn = c.head.scn; guid = c.head.guid; page = c.room.page; slot = c.room.slot }; page_size = c.head.page_size; file = c.file } };

    ghost invariant = { λ c. (c.head.level ≤ 9) × IsPlaced c.head.page_size c.room × (file_page_size c.file ≡ c.head.page_size) × (file_name c.file ≡ c.name) × (earlier_scn c.file ≡ asked_scn (ask_by c.head)) };
}

/// Tests whether a backup into a file of that name may begin. The refusals are `Access`, `WrongState` and `FileExists`, in this order.
fn check_file<H: Host>(host: &mut H, engine: &Engine, name: &Name) -> Result<(), Fault>
    ensures test { (s : Seen) (t : Trail) → IsTrue H.tells → t.base ≡ s.base → IsOpen (H.world host.old) engine.now t → KnowsFree 0 (H.world host.old).files s name.now
        → Tested result (file_cause s name.now) }
    ensures normal { OnOk result (engine.now.files.state ≡ normal_state) }
    ensures free { IsTrue H.tells → OnOk result (is_free_name (H.world host.old).files name.now ≡ true) }
    ensures quiet { Quiet (H.world host.old) (H.world host.new) }
    ensures cause { CountsDevice result (H.faults host.old) (H.faults host.new) }
{
    let store = engine.store();
    if store.is_read_only() {
        return Err(Fault::Refused(Refusal::Access { found: 1 }));
    }
    let state = store.state();
    if case_of(state, Event::Begin) == Case::WrongState {
        return Err(Fault::Refused(Refusal::WrongState {
            found: u32::from(state),
        }));
    }
    if !is_free(host, name)? {
        return Err(Fault::Refused(Refusal::FileExists {
            name: name.copied(),
        }));
    }
    Ok(())
}

/// Tests all that is tested before memory is taken, and answers the head of the backup without its GUID and SCN.
fn check_start<H: Host>(
    host: &mut H,
    engine: &mut Engine,
    since: &Since,
    name: &Name,
) -> Result<LevelHead, Fault>
    requires { IsNineAtMost since.now }
    ensures test { (s : Seen) (t : Trail) → IsTrue H.tells → t.base ≡ s.base → IsOpen (H.world host.old) engine.old t → KnowsFree 0 (H.world host.old).files s name.now
        → Tested result (first_cause (file_cause s name.now ∷ earlier_cause since.now t.base.image ∷ [])) }
    ensures normal { OnOk result (engine.old.files.state ≡ normal_state) }
    ensures free { IsTrue H.tells → OnOk result (is_free_name (H.world host.old).files name.now ≡ true) }
    ensures head { (t : Trail) → IsTrue H.tells → IsOpen (H.world host.old) engine.old t → IfOk result (λ head. ask_by head ≡ ask_in since.now t.base.image) }
    ensures its_level { IfOk result (λ head. IsItsLevel since.now head.level) }
    ensures level { IfOk result (λ head. head.level ≤ 9) }
    ensures previous { IfOk result (λ head. length head.previous ≡ 16) }
    ensures size { IfOk result (λ head. head.page_size ≡ engine.old.files.page_size) }
    ensures sized { IfOk result (λ head. IsTrue (is_page_size head.page_size)) }
    ensures looks { Looks H.tells (H.world host.old) (H.world host.new) engine.old engine.new }
    ensures stays { engine.old.files.state ≡ merge_state → engine.new ≡ engine.old }
    ensures cause { CountsDevice result (H.faults host.old) (H.faults host.new) }
{
    check_file(host, engine, name)?;
    since.find(host, engine)
}

/// The backup with that head begins for a session, whose copy runs then. It answers the head with the GUID and the SCN.
fn begin<H: Host>(
    host: &mut H,
    engine: &mut Engine,
    session: u32,
    head: &LevelHead,
) -> Result<LevelHead, Fault>
    ensures begins { (t : Trail) (guid : List ℕ) (ask : Option Ask) → IsTrue H.tells → IsOpen (H.world host.old) engine.old t → GaveAtMost (H.world host.old) (H.world host.new) guid
        → BeginsFor result (H.world host.old) (H.world host.new) engine.old engine.new t guid ask session head.now }
    ensures asks { IsTrue H.tells → (guid : List ℕ) × (length guid ≡ 16) × GaveAtMost (H.world host.old) (H.world host.new) guid }
    ensures takes_none { IsNotMemory result }
    ensures level { IfOk result (λ begun. begun.level ≡ head.now.level) }
    ensures previous_scn { IfOk result (λ begun. begun.previous_scn ≡ head.now.previous_scn) }
    ensures size { IfOk result (λ begun. begun.page_size ≡ head.now.page_size) }
    ensures page_size { engine.new.files.page_size ≡ engine.old.files.page_size }
    ensures cap { engine.new.cap ≡ engine.old.cap }
    ensures running { OnOk result (engine.new.running ≡ Some session) }
    ensures cause { CountsDevice result (H.faults host.old) (H.faults host.new) }
{
    let scn = engine.store().scn();
    engine.begin(host)?;
    engine.set_running(Some(session));
    Ok(LevelHead {
        guid: engine.store().guid(),
        scn,
        ..*head
    })
}

/// Begins a backup that goes on from an earlier one into a file of that name, for a session, whose copy runs then. All is tested before the
/// first write, and the memory is taken before it. Room for the row is made in the history, and then the file, before it begins: where the
/// file can't be made the database isn't locked.
fn start_from<H: Host>(
    alloc: Global,
    host: &mut H,
    engine: &mut Engine,
    session: u32,
    since: Since,
    name: &Name,
) -> Result<Copier, Fault>
    requires level { IsNineAtMost since }
    ensures turn { (s : Seen) (t : Trail) → IsTrue H.tells → t.base ≡ s.base → engine.old.running ≡ s.running → IsOpen (H.world host.old) engine.old t
        → KnowsFree 0 (H.world host.old).files s name.now → (name.now ≡ delta_name engine.old.files.name → ⊥) → GaveAtMost (H.world host.old) (H.world host.new) (next_guid s.given)
        → StartsBackup result (H.world host.old) (H.world host.new) engine.old engine.new t name.now (next_guid s.given) (turn_since s session since name.now) }
    ensures asks { (t : Trail) → IsTrue H.tells → IsOpen (H.world host.old) engine.old t → (guid : List ℕ) × (length guid ≡ 16) × GaveAtMost (H.world host.old) (H.world host.new) guid }
    ensures stays { engine.old.files.state ≡ merge_state → engine.new ≡ engine.old }
    ensures made_first { (t : Trail) → IsTrue H.tells → IsOpen (H.world host.old) engine.old t → (name.now ≡ delta_name engine.old.files.name → ⊥)
        → (GaveNothing (H.world host.old) (H.world host.new) × Goes engine.old engine.new) ⊎ (IsMade (H.world host.new) name.now × IsNotMemory result) }
    ensures free { IsTrue H.tells → OnOk result (is_free_name (H.world host.old).files name.now ≡ true) }
    ensures named { IfOk result (λ copier. copier.backing.name ≡ name.now) }
    ensures its_level { IfOk result (λ copier. IsItsLevel since copier.backing.ask.level) }
    ensures size { IfOk result (λ copier. copier.page_size ≡ engine.old.files.page_size) }
    ensures page_size { engine.new.files.page_size ≡ engine.old.files.page_size }
    ensures cap { engine.new.cap ≡ engine.old.cap }
    ensures running { OnOk result (engine.new.running ≡ Some session) }
    ensures cause { CountsDevice result (H.faults host.old) (H.faults host.new) }
{
    let head = check_start(host, engine, &since, name)?;
    let mut file = FileCopy::new(alloc, name, &head)?;
    let room = engine.history_room(host)?;
    host.make(name)?;
    let head = begin(host, engine, session, &head)?;
    file.start(&head, engine.count());
    Ok(Copier {
        name: name.copied(),
        head,
        room,
        file,
    })
}

impl Copier {
    /// Begins a backup of that level, 0 to 9, into a file of that name, for a session, whose copy runs then. A level of 1 to 9 goes on
    /// from the latest backup of the level below. Room for the row is made in the history, and then the file, empty, before it begins: where
    /// the file can't be made, the answer is `Device` and the database is in the normal state.
    ///
    /// The refusals are `Access`, `WrongState`, `FileExists`, `NotDatabase` of the first page of the history that breaks the form,
    /// `NoHistory`, `NotDatabase` of a database of fewer than five pages, by its length, where the history has no free slot, `NotDatabase` of
    /// an inventory page that isn't of its kind or of a page of the history whose bit is free, `Full` and `ScnExhausted`, in this order. All
    /// is tested before the first write, and the memory is taken before it: a refused call changes nothing. What else fails leaves the file
    /// as it was, or empty, so that its name is free. Where memory is short nothing has begun.
    pub fn start<H: Host>(
        alloc: Global,
        host: &mut H,
        engine: &mut Engine,
        session: u32,
        level: u8,
        name: &Name,
    ) -> Result<Copier, Fault>
        requires level { level ≤ 9 }
        ensures turn { (s : Seen) (t : Trail) → IsTrue H.tells → t.base ≡ s.base → engine.old.running ≡ s.running → IsOpen (H.world host.old) engine.old t
            → KnowsFree 0 (H.world host.old).files s name.now → (name.now ≡ delta_name engine.old.files.name → ⊥) → GaveAtMost (H.world host.old) (H.world host.new) (next_guid s.given)
            → StartsBackup result (H.world host.old) (H.world host.new) engine.old engine.new t name.now (next_guid s.given) (backup_turn s session level name.now) }
        ensures asks { (t : Trail) → IsTrue H.tells → IsOpen (H.world host.old) engine.old t → (guid : List ℕ) × (length guid ≡ 16) × GaveAtMost (H.world host.old) (H.world host.new) guid }
        ensures stays { engine.old.files.state ≡ merge_state → engine.new ≡ engine.old }

        // However it ends, no GUID was taken and the state stays, or the file was made; the former where memory is short.
        ensures made_first { (t : Trail) → IsTrue H.tells → IsOpen (H.world host.old) engine.old t → (name.now ≡ delta_name engine.old.files.name → ⊥)
            → (GaveNothing (H.world host.old) (H.world host.new) × Goes engine.old engine.new) ⊎ (IsMade (H.world host.new) name.now × IsNotMemory result) }
        ensures free { IsTrue H.tells → OnOk result (is_free_name (H.world host.old).files name.now ≡ true) }
        ensures named { IfOk result (λ copier. copier.backing.name ≡ name.now) }
        ensures level { IfOk result (λ copier. copier.backing.ask.level ≡ level) }
        ensures size { IfOk result (λ copier. copier.page_size ≡ engine.old.files.page_size) }
        ensures page_size { engine.new.files.page_size ≡ engine.old.files.page_size }
        ensures cap { engine.new.cap ≡ engine.old.cap }
        ensures running { OnOk result (engine.new.running ≡ Some session) }
        ensures cause { CountsDevice result (H.faults host.old) (H.faults host.new) }
    {
        start_from(alloc, host, engine, session, Since::Level(level), name)
    }

    /// Begins a backup since the latest one of that GUID in the history. Its level is one more than that one's, and 9 at most. All else is
    /// as `start` does it; `NoGuid`, where no row of the history has the GUID, stands in the place of `NoHistory`.
    pub fn start_since<H: Host>(
        alloc: Global,
        host: &mut H,
        engine: &mut Engine,
        session: u32,
        guid: &[u8; 16],
        name: &Name,
    ) -> Result<Copier, Fault>
        ensures turn { (s : Seen) (t : Trail) → IsTrue H.tells → t.base ≡ s.base → engine.old.running ≡ s.running → IsOpen (H.world host.old) engine.old t
            → KnowsFree 0 (H.world host.old).files s name.now → (name.now ≡ delta_name engine.old.files.name → ⊥) → GaveAtMost (H.world host.old) (H.world host.new) (next_guid s.given)
            → StartsBackup result (H.world host.old) (H.world host.new) engine.old engine.new t name.now (next_guid s.given) (since_turn s session guid.now name.now) }
        ensures asks { (t : Trail) → IsTrue H.tells → IsOpen (H.world host.old) engine.old t → (guid : List ℕ) × (length guid ≡ 16) × GaveAtMost (H.world host.old) (H.world host.new) guid }
        ensures stays { engine.old.files.state ≡ merge_state → engine.new ≡ engine.old }

        // However it ends, no GUID was taken and the state stays, or the file was made; the former where memory is short.
        ensures made_first { (t : Trail) → IsTrue H.tells → IsOpen (H.world host.old) engine.old t → (name.now ≡ delta_name engine.old.files.name → ⊥)
            → (GaveNothing (H.world host.old) (H.world host.new) × Goes engine.old engine.new) ⊎ (IsMade (H.world host.new) name.now × IsNotMemory result) }
        ensures free { IsTrue H.tells → OnOk result (is_free_name (H.world host.old).files name.now ≡ true) }
        ensures named { IfOk result (λ copier. copier.backing.name ≡ name.now) }
        ensures size { IfOk result (λ copier. copier.page_size ≡ engine.old.files.page_size) }
        ensures page_size { engine.new.files.page_size ≡ engine.old.files.page_size }
        ensures cap { engine.new.cap ≡ engine.old.cap }
        ensures running { OnOk result (engine.new.running ≡ Some session) }
        ensures cause { CountsDevice result (H.faults host.old) (H.faults host.new) }
    {
        start_from(alloc, host, engine, session, Since::Guid(*guid), name)
    }

    /// How many pages of the frozen image are left to deal with.
    pub fn left(&self) -> u32
        ensures { result ≡ file_count self.now.file - file_next self.now.file }
    {
        self.file.left()
    }

    /// How many pages of the frozen image were taken.
    pub fn written(&self) -> u32
        ensures { result ≡ file_written self.now.file }
    {
        self.file.written()
    }

    /// The GUID of the backup.
    pub fn guid(&self) -> [u8; 16]
        ensures { result ≡ self.now.backing.guid }
    {
        self.head.guid
    }

    /// The SCN of the backup: what is stamped above it was changed since.
    pub fn scn(&self) -> u32
        ensures { result ≡ self.now.backing.scn }
    {
        self.head.scn
    }

    /// Its level, 0 to 9.
    pub fn level(&self) -> u8
        ensures value { result ≡ self.now.backing.ask.level }
        ensures most { result ≤ 9 }
    {
        self.head.level as u8
    }

    /// Asks the clock, and writes the row of the history.
    fn close<H: Host>(&self, host: &mut H, engine: &mut Engine) -> Result<(), Fault>
        requires size { self.now.page_size ≡ engine.old.files.page_size }
        ensures closes { (s : Seen) (t : Trail) → IsTrue H.tells → t.base ≡ s.base → IsOpen (H.world host.old) engine.old t → HasItsEntry t.base.image self.now.backing.page → self.now.backing.page < length t.base.image
            → GaveTimeAtMost (H.world host.old) (H.world host.new) (next_time s.given)
            → Closes result (H.world host.old) (H.world host.new) engine.old engine.new t (next_time s.given) (close_backup s self.now.backing).strokes }
        ensures asks { (t : Trail) → IsTrue H.tells → IsOpen (H.world host.old) engine.old t → (time : ℕ) × GaveTimeAtMost (H.world host.old) (H.world host.new) time }
        ensures goes { Goes engine.old engine.new }
        ensures cause { CountsDevice result (H.faults host.old) (H.faults host.new) }
    {
        let time = host.seconds()?;
        let guid = self.head.guid;
        let row = HistoryRow {
            time,
            level: self.head.level as u8,
            guid,
            scn: self.head.scn,
            name: self.name.copied(),
        };
        engine.history_add(host, &self.room, &row)
    }

    /// Deals with one page of the frozen image, and answers `More`; or, where all were dealt with before, makes the file whole and keeps it
    /// for good, asks the clock, writes the row of the history, and answers `Finished`.
    ///
    /// A crash leaves the file as it was before the backup, or unfinished, or whole; the row stands only where the file is whole.
    /// A copier that has answered `Finished` or a fault isn't used again.
    pub fn turn<H: Host>(&mut self, host: &mut H, engine: &mut Engine) -> Result<Progress, Fault>
        requires size { self.old.page_size ≡ engine.old.files.page_size }
        ensures turn { (s : Seen) (t : Trail) → IsTrue H.tells → t.base ≡ s.base → IsOpen (H.world host.old) engine.old t → engine.old.files.state ≡ stalled_state → HasItsEntry t.base.image self.old.backing.page
            → IsBackingUp (H.world host.old) self.old t.base.frozen → self.old.backing.page < length t.base.image → (OfFiles engine.old.files.name self.old.backing.name → ⊥)
            → GaveTimeAtMost (H.world host.old) (H.world host.new) (next_time s.given)
            → BackupTurn result (H.world host.old) (H.world host.new) engine.old engine.new self.old self.new t (next_time s.given) (close_backup s self.old.backing).strokes }
        ensures asks { (t : Trail) → IsTrue H.tells → IsOpen (H.world host.old) engine.old t → engine.old.files.state ≡ stalled_state → IsBackingUp (H.world host.old) self.old t.base.frozen
            → (OfFiles engine.old.files.name self.old.backing.name → ⊥) → (time : ℕ) × GaveTimeAtMost (H.world host.old) (H.world host.new) time }

        // While pages are left a turn of level 0 reads its page, and one of a level of 1 to 9 page 0, an SCN page, or what has changed since the
        // earlier backup by its SCN entry. `laws` has the sum of all turns.
        ensures reads { (t : Trail) → IsTrue H.tells → IsOpen (H.world host.old) engine.old t → engine.old.files.state ≡ stalled_state → IsBackingUp (H.world host.old) self.old t.base.frozen → file_next self.old.file < file_count self.old.file
            → (H.world host.new).reads ≤ (H.world host.old).reads + page_reads (asked_scn self.old.backing.ask) t.base.frozen (file_next self.old.file) }
        ensures same { self.new ≡ record self.old { file = self.new.file } }
        ensures counts { BackupCounts result self.old self.new }
        ensures twice { IsTrue H.tells → ReadsTwo result (H.world host.old) (H.world host.new) }
        ensures goes { Goes engine.old engine.new }
        ensures cause { CountsDevice result (H.faults host.old) (H.faults host.new) }
    {
        match self.file.turn(host, engine)? {
            Progress::More => Ok(Progress::More),
            Progress::Finished => {
                self.close(host, engine)?;
                Ok(Progress::Finished)
            }
        }
    }
}
