// The turns of a backup: begin, end, and the merge.
ghost use Rattle.std.specs.Prelude.{◌≡◌, ◌≢◌, ◌<◌, ◌≤◌, ◌+◌, ℕ, List, [], ◌∷◌, length, IsTrue, IfErr, IfOk, OnOk, Option, Some};
ghost use Rattle.nb_fields.specs.States.{normal_state, stalled_state, merge_state};
ghost use Rattle.nb_host.specs.Causes.{CountsDevice, CountsFault, FaultCount};
ghost use Rattle.nb_host.specs.declared.faults.Fault.TheVariants.{Memory};
ghost use Rattle.nb_change.specs.Gave.{GaveNothing};
ghost use Rattle.nb_model.specs.Account.{Ask};
ghost use Rattle.nb_model.specs.Image.{Image, image_state, image_scn};
ghost use Rattle.nb_model.specs.Strokes.{begin as begin_stroke, ends as ends_stroke};
ghost use Rattle.nb_model.specs.Trail.{Trail};
ghost use Rattle.nb_base.specs.Stays.{FileIs, KeepsFile, HasAfterFirst, GrowsWithin};
ghost use Rattle.nb_base.specs.Takes.{Takes};
ghost use Rattle.nb_state.specs.Open.{IsOpen, name_of};
ghost use Rattle.nb_model.specs.Causes.{Tested};
ghost use Rattle.nb_state.specs.Turns.{Begins, Ends, Merges, GaveAtMost, GoesOn, PutsOn, begin_cause, end_cause};

use crate::Store;
use nb_cases::{Case, Event, case_of};
use nb_fields::states::STALLED;
use nb_host::{Fault, Host, HostFault, Refusal};

/// A backup and its end need two SCNs more.
const LAST_SCN: u32 = u32::MAX - 2;

/// What a turn of a merge did.
#[derive(Clone, Copy, Debug, PartialEq, Eq)]
pub enum Progress {
    /// One entry was merged.
    More,
    /// All entries were merged before, and the database is in the normal state again.
    Finished,
}

/// The SCN after this one. The last one stays.
fn next_scn(scn: u32) -> u32
    ensures { scn < 4294967295 → result ≡ scn + 1 }
{
    scn.saturating_add(1)
}

impl Store {
    /// Tests whether a backup may begin. The refusals are `WrongState` and `ScnExhausted`, in this order.
    fn check_begin(&self) -> Result<(), Fault>
        ensures test { (image : Image) → self.now.files.state ≡ image_state image → self.now.scn ≡ image_scn image → Tested result (begin_cause image) }
        ensures normal { OnOk result (self.now.files.state ≡ normal_state) }
        ensures scn { OnOk result (self.now.scn < 4294967294) }
        ensures cause { (faults : FaultCount) → CountsDevice result faults faults }
        ensures takes_none { IfErr result (λ fault. fault ≢ Memory) }
    {
        let state = self.pair.state();
        if case_of(state, Event::Begin) == Case::WrongState {
            let found = u32::from(state);
            return Err(Fault::Refused(Refusal::WrongState { found }));
        }
        if self.scn > LAST_SCN {
            return Err(Fault::Refused(Refusal::ScnExhausted { scn: self.scn }));
        }
        Ok(())
    }

    /// Tests whether a merge may begin for that session. The refusals are `WrongState` and `BackupRunning`, in this order.
    fn check_end(&self, session: u32) -> Result<(), Fault>
        ensures test { (image : Image) → self.now.files.state ≡ image_state image → Tested result (end_cause image self.now.running session) }
        ensures some { OnOk result (1 ≤ self.now.files.state) }
        ensures own { (other : ℕ) → self.now.running ≡ Some other → OnOk result (other ≡ session) }
        ensures cause { (faults : FaultCount) → CountsDevice result faults faults }
        ensures takes_none { IfErr result (λ fault. fault ≢ Memory) }
    {
        let state = self.pair.state();
        if case_of(state, Event::End) == Case::WrongState {
            let found = u32::from(state);
            return Err(Fault::Refused(Refusal::WrongState { found }));
        }
        match self.running {
            Some(other) => {
                if other != session {
                    return Err(Fault::Refused(Refusal::BackupRunning { session: other }));
                }
                Ok(())
            }
            None => Ok(()),
        }
    }

    /// Begins a backup: the main file is frozen, and pages that are changed go to the difference file. It answers the new SCN.
    ///
    /// The refusals are `WrongState` and `ScnExhausted`, in this order; a refused call changes nothing.
    pub fn begin<H: Host>(&mut self, host: &mut H) -> Result<u32, Fault>
        ensures begins { (t : Trail) (guid : List ℕ) (ask : Option Ask) → IsTrue H.tells → IsOpen (H.world host.old) self.old t → GaveAtMost (H.world host.old) (H.world host.new) guid
            → Begins result (H.world host.old) (H.world host.new) self.old self.new t guid ask }
        ensures asks { IsTrue H.tells → (guid : List ℕ) × (length guid ≡ 16) × GaveAtMost (H.world host.old) (H.world host.new) guid }
        ensures stays { self.old.files.state ≡ merge_state → self.new ≡ self.old }
        ensures page_size { self.new.files.page_size ≡ self.old.files.page_size }
        ensures cap { self.new.cap ≡ self.old.cap }
        ensures cause { CountsDevice result (H.faults host.old) (H.faults host.new) }
        ensures takes_none { IfErr result (λ fault. fault ≢ Memory) }
    {
        self.check_begin()?;
        let guid = host.guid()?;
        let scn = self.begin_with(host, &guid)?;
        Ok(scn)
    }

    /// Begins a backup with that GUID, in the normal state. It answers the new SCN.
    fn begin_with<H: Host>(&mut self, host: &mut H, guid: &[u8; 16]) -> Result<u32, HostFault>
        requires normal { self.old.files.state ≡ normal_state }
        requires scn { self.old.scn < 4294967294 }
        ensures takes { (t : Trail) (ask : Option Ask) → IsTrue H.tells → IsOpen (H.world host.old) self.old t
            → Takes result (H.world host.old) (H.world host.new) (name_of self.old) (IsOpen (H.world host.new) self.new) t (begin_stroke guid.now ask ∷ []) }
        ensures long { (t : Trail) → IsTrue H.tells → IsOpen (H.world host.old) self.old t → GrowsWithin (H.world host.old) (H.world host.new) (name_of self.old) self.old.files.page_size t [] }
        ensures frozen { IsTrue H.tells → OnOk result (FileIs (H.world host.new) (name_of self.old) (λ file. file ≡ (H.world host.new).files (name_of self.old))) }
        ensures answer { IfOk result (λ scn. scn ≡ self.old.scn + 1) }
        ensures gave { GaveNothing (H.world host.old) (H.world host.new) }
        ensures running { self.new.running ≡ self.old.running }
        ensures name { name_of self.new ≡ name_of self.old }
        ensures page_size { self.new.files.page_size ≡ self.old.files.page_size }
        ensures cap { self.new.cap ≡ self.old.cap }
        ensures cause { CountsFault result (H.faults host.old) (H.faults host.new) }
    {
        self.pair.begin(host, guid)?;
        self.scn += 1;
        self.guid = *guid;
        Ok(self.scn)
    }

    /// Ends the stalled state, for the session that asks for it, or begins anew a merge that was stopped. It answers the SCN.
    ///
    /// The refusals are `WrongState` and `BackupRunning`, in this order; a refused call changes nothing.
    pub fn end<H: Host>(&mut self, host: &mut H, session: u32) -> Result<u32, Fault>
        ensures ends { (t : Trail) → IsTrue H.tells → IsOpen (H.world host.old) self.old t → Ends result (H.world host.old) (H.world host.new) self.old self.new t session }
        ensures stays { (other : ℕ) → self.old.running ≡ Some other → other ≢ session → self.new ≡ self.old }
        ensures merge { OnOk result ((self.new.files.state ≡ merge_state) × (self.new.running ≡ Some session) × (self.new.merged ≡ 0)) }
        ensures page_size { self.new.files.page_size ≡ self.old.files.page_size }
        ensures cap { self.new.cap ≡ self.old.cap }
        ensures cause { CountsDevice result (H.faults host.old) (H.faults host.new) }
        ensures takes_none { IfErr result (λ fault. fault ≢ Memory) }
    {
        self.check_end(session)?;
        if self.pair.state() == STALLED {
            let scn = self.end_stalled(host, session)?;
            return Ok(scn);
        }
        self.running = Some(session);
        self.merged = 0;
        Ok(self.scn)
    }

    /// Ends the stalled state for that session. It answers the new SCN.
    fn end_stalled<H: Host>(&mut self, host: &mut H, session: u32) -> Result<u32, HostFault>
        requires stalled { self.old.files.state ≡ stalled_state }
        ensures takes { (t : Trail) → IsTrue H.tells → IsOpen (H.world host.old) self.old t
            → Takes result (H.world host.old) (H.world host.new) (name_of self.old) (IsOpen (H.world host.new) self.new) t (ends_stroke ∷ []) }
        ensures long { (t : Trail) → IsTrue H.tells → IsOpen (H.world host.old) self.old t → GrowsWithin (H.world host.old) (H.world host.new) (name_of self.old) self.old.files.page_size t [] }
        ensures rest { (t : Trail) (bytes : List ℕ) → IsTrue H.tells → IsOpen (H.world host.old) self.old t → KeepsFile (H.world host.old) (H.world host.new) (name_of self.old) (HasAfterFirst self.old.files.page_size bytes) }
        ensures answer { self.old.scn < 4294967295 → IfOk result (λ scn. scn ≡ self.old.scn + 1) }
        ensures begins { OnOk result ((self.new.running ≡ Some session) × (self.new.merged ≡ 0)) }
        ensures state { OnOk result (self.new.files.state ≡ merge_state) }
        ensures gave { GaveNothing (H.world host.old) (H.world host.new) }
        ensures name { name_of self.new ≡ name_of self.old }
        ensures page_size { self.new.files.page_size ≡ self.old.files.page_size }
        ensures cap { self.new.cap ≡ self.old.cap }
        ensures cause { CountsFault result (H.faults host.old) (H.faults host.new) }
    {
        self.pair.end(host)?;
        let scn = next_scn(self.scn);
        self.scn = scn;
        self.running = Some(session);
        self.merged = 0;
        Ok(scn)
    }

    /// Merges the next entry, which changes one page of the main file and nothing else, or finishes the merge, which removes the difference
    /// file. Whatever the files hold.
    pub fn merge_turn<H: Host>(&mut self, host: &mut H) -> Result<Progress, HostFault>
        requires merge { self.old.files.state ≡ merge_state }
        ensures merges { (t : Trail) → IsTrue H.tells → IsOpen (H.world host.old) self.old t → Merges result (H.world host.old) (H.world host.new) self.old self.new t }
        ensures goes { IfOk result (λ progress. GoesOn progress self.old self.new) }
        ensures puts { IsTrue H.tells → IfOk result (λ progress. PutsOn progress (H.world host.old).files (H.world host.new).files self.old) }
        ensures page_size { self.new.files.page_size ≡ self.old.files.page_size }
        ensures cap { self.new.cap ≡ self.old.cap }
        ensures cause { CountsFault result (H.faults host.old) (H.faults host.new) }
    {
        if self.merged < self.pair.delta_count() {
            self.pair.merge_entry(host, self.merged)?;
            self.merged += 1;
            return Ok(Progress::More);
        }
        self.pair.finish(host)?;
        self.running = None;
        Ok(Progress::Finished)
    }
}
