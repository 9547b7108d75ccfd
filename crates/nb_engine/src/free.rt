// A raw page is given back.
ghost use Rattle.std.specs.Prelude.{◌≡◌, ◌≢◌, ◌+◌, ◌≤◌, IsTrue, IfErr};
ghost use Rattle.nb_fields.specs.States.{stalled_state};
ghost use Rattle.nb_host.specs.declared.faults.Fault.TheVariants.{Memory};
ghost use Rattle.nb_host.specs.Causes.{CountsDevice};
ghost use Rattle.nb_model.specs.Trail.{Trail};
ghost use Rattle.nb_model.specs.Outcomes.{Seen};
ghost use Rattle.nb_model.specs.Pages.{free_turn};
ghost use Rattle.nb_state.specs.Open.{IsOpen};
ghost use Rattle.nb_state.specs.Does.{Goes, Does};
ghost use Rattle.nb_alloc.specs.Tries.{StopsShort, WhereMemory};
ghost use Rattle.nb_engine.specs.Replies.{done};

use crate::Engine;
use nb_alloc::{mark, read_raw};
use nb_host::{Fault, Host, Refusal};

impl Engine {
    /// Gives page `number`, a taken raw page, back: its inventory page says from then on that it is free. The page itself stays as it
    /// is. The SCN entry of the inventory page is raised before, where that is below the current SCN. It takes four reads at most, and wants
    /// memory in the stalled state alone, and has written no bit then.
    ///
    /// The refusals are `PageRange`, `NotDatabase` of its inventory page, `NotAllocated`, `SystemPage`, `Access` and `NotDatabase` of the
    /// SCN page of the inventory page, in this order. A refused call changes nothing.
    pub fn page_free<H: Host>(&mut self, host: &mut H, number: u32) -> Result<(), Fault>
        ensures turn { (s : Seen) (t : Trail) → IsTrue H.tells → t.base ≡ s.base → IsOpen (H.world host.old) self.old t
            → Does done result (H.world host.old) (H.world host.new) self.old self.new t (free_turn s number) }
        ensures goes { Goes self.old self.new }
        ensures once { IsTrue H.tells → (H.world host.new).reads ≤ (H.world host.old).reads + 4 }
        ensures cause { CountsDevice result (H.faults host.old) (H.faults host.new) }
        ensures takes_none { self.old.files.state ≢ stalled_state → IfErr result (λ fault. fault ≢ Memory) }
        ensures on_memory { (s : Seen) (t : Trail) → IsTrue H.tells → t.base ≡ s.base → IsOpen (H.world host.old) self.old t
            → WhereMemory result (StopsShort (H.world host.old) (H.world host.new) self.old self.new t (free_turn s number).strokes) }
    {
        read_raw(&mut self.store, host, number, &mut self.page, &mut self.map)?;
        // Page 0 is the header, whatever the host gave for it.
        if number == 0 {
            return Err(Fault::Refused(Refusal::SystemPage { page: number }));
        }
        if self.store.is_read_only() {
            return Err(Fault::Refused(Refusal::Access { found: 1 }));
        }
        mark(
            &mut self.store,
            host,
            number,
            true,
            &mut self.map,
            &mut self.scn_page,
        )
    }
}
