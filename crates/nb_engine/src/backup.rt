// A backup begins and ends, and what was changed meanwhile is merged.
ghost use Rattle.std.specs.Prelude.{◌≡◌, ◌≢◌, ℕ, List, length, IsTrue, IfErr, IfOk, OnOk, Option, Some};
ghost use Rattle.nb_fields.specs.States.{merge_state};
ghost use Rattle.nb_host.specs.declared.faults.Fault.TheVariants.{Memory};
ghost use Rattle.nb_host.specs.Causes.{CountsDevice, CountsFault};
ghost use Rattle.nb_model.specs.Account.{Ask};
ghost use Rattle.nb_model.specs.Outcomes.{Seen, next_guid};
ghost use Rattle.nb_model.specs.Pages.{begin_turn, end_turn, end_scn};
ghost use Rattle.nb_model.specs.Trail.{Trail};
ghost use Rattle.nb_state.specs.Open.{IsOpen};
ghost use Rattle.nb_state.specs.Turns.{GaveAtMost, GoesOn, PutsOn, Merges};
ghost use Rattle.nb_engine.specs.Turns.{DoesBegin, DoesEnd, Starts};

use crate::Engine;
use nb_host::{Fault, Host, HostFault, Refusal};
use nb_state::Progress;

impl Engine {
    /// Begins a backup: what the database holds now is frozen for a copy, and statements go on changing it. It answers the new SCN, and
    /// is kept for good.
    ///
    /// The refusals are `Access`, `WrongState` and `ScnExhausted`, in this order; a refused call changes nothing.
    pub fn begin<H: Host>(&mut self, host: &mut H) -> Result<u32, Fault>
        ensures turn { (s : Seen) (t : Trail) → IsTrue H.tells → t.base ≡ s.base → IsOpen (H.world host.old) self.old t
            → GaveAtMost (H.world host.old) (H.world host.new) (next_guid s.given)
            → DoesBegin result (H.world host.old) (H.world host.new) self.old self.new t (next_guid s.given) (begin_turn s) }
        ensures starts { (t : Trail) (guid : List ℕ) (ask : Option Ask) → IsTrue H.tells → IsOpen (H.world host.old) self.old t → GaveAtMost (H.world host.old) (H.world host.new) guid
            → Starts result (H.world host.old) (H.world host.new) self.old self.new t guid ask }
        ensures asks { IsTrue H.tells → (guid : List ℕ) × (length guid ≡ 16) × GaveAtMost (H.world host.old) (H.world host.new) guid }
        ensures stays { self.old.files.state ≡ merge_state → self.new ≡ self.old }
        ensures page_size { self.new.files.page_size ≡ self.old.files.page_size }
        ensures cap { self.new.cap ≡ self.old.cap }
        ensures cause { CountsDevice result (H.faults host.old) (H.faults host.new) }
        ensures takes_none { IfErr result (λ fault. fault ≢ Memory) }
    {
        if self.store.is_read_only() {
            return Err(Fault::Refused(Refusal::Access { found: 1 }));
        }
        self.store.begin(host)
    }

    /// Ends the stalled state, for the session that asks for it, or begins anew a merge that was stopped. It answers the SCN, and is
    /// kept for good. What was frozen is gone then, and merge turns are left to take.
    ///
    /// The refusals are `WrongState` and `BackupRunning`, in this order; a refused call changes nothing.
    pub fn end<H: Host>(&mut self, host: &mut H, session: u32) -> Result<u32, Fault>
        ensures turn { (s : Seen) (t : Trail) → IsTrue H.tells → t.base ≡ s.base → self.old.running ≡ s.running → IsOpen (H.world host.old) self.old t
            → DoesEnd result (H.world host.old) (H.world host.new) self.old self.new t (end_scn t.base.image) (end_turn s session) }
        ensures stays { (other : ℕ) → self.old.running ≡ Some other → other ≢ session → self.new ≡ self.old }
        ensures merge { OnOk result ((self.new.files.state ≡ merge_state) × (self.new.running ≡ Some session) × (self.new.merged ≡ 0)) }
        ensures page_size { self.new.files.page_size ≡ self.old.files.page_size }
        ensures cap { self.new.cap ≡ self.old.cap }
        ensures cause { CountsDevice result (H.faults host.old) (H.faults host.new) }
        ensures takes_none { IfErr result (λ fault. fault ≢ Memory) }
    {
        self.store.end(host, session)
    }

    /// Merges one page that was changed in the stalled state, which changes that page of the main file and nothing else, or finishes the merge once
    /// all are, which removes the difference file. Whatever the files hold.
    pub fn merge_turn<H: Host>(&mut self, host: &mut H) -> Result<Progress, HostFault>
        requires merge { self.old.files.state ≡ merge_state }
        ensures merges { (t : Trail) → IsTrue H.tells → IsOpen (H.world host.old) self.old t → Merges result (H.world host.old) (H.world host.new) self.old self.new t }
        ensures goes { IfOk result (λ progress. GoesOn progress self.old self.new) }
        ensures puts { IsTrue H.tells → IfOk result (λ progress. PutsOn progress (H.world host.old).files (H.world host.new).files self.old) }
        ensures page_size { self.new.files.page_size ≡ self.old.files.page_size }
        ensures cap { self.new.cap ≡ self.old.cap }
        ensures cause { CountsFault result (H.faults host.old) (H.faults host.new) }
    {
        self.store.merge_turn(host)
    }
}
