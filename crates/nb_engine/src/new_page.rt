// A new page.
ghost use Rattle.std.specs.Prelude.{◌≡◌, ◌≢◌, ◌+◌, ◌≤◌, IsTrue, IfErr, IfOk};
ghost use Rattle.nb_fields.specs.States.{stalled_state};
ghost use Rattle.nb_host.specs.declared.faults.Fault.TheVariants.{Memory};
ghost use Rattle.nb_host.specs.Causes.{CountsDevice};
ghost use Rattle.nb_model.specs.Trail.{Trail};
ghost use Rattle.nb_model.specs.Outcomes.{Seen};
ghost use Rattle.nb_model.specs.Pages.{new_turn};
ghost use Rattle.nb_state.specs.Open.{IsOpen};
ghost use Rattle.nb_state.specs.Does.{Goes, Does};
ghost use Rattle.nb_engine.specs.Replies.{page_made};
ghost use Rattle.nb_alloc.specs.Make.{new_reads};
ghost use Rattle.nb_alloc.specs.Tries.{StopsShort, WhereMemory};

use crate::Engine;
use nb_alloc::{FIRST_TO_GIVE, check_new, make_new};
use nb_fields::PageKind;
use nb_host::{Fault, Host, Refusal};

/// What stands after the head of a raw page with the empty text.
const EMPTY_TEXT: [u8; 2] = [0; 2];

impl Engine {
    /// Makes a raw page with the empty text, and answers its number: the lowest free page, or a page at the end where none is free. Where
    /// the search for it comes to the place of a system page, that page is made, is taken, and the search goes on after it. Each page is
    /// written before it is taken, and its SCN entry is raised before, where that is below the current SCN. It reads each inventory page up
    /// to that of the lowest free page once, and few pages more for each page that the search went on. It wants memory in the stalled state
    /// alone, and has not made its last write then.
    ///
    /// The refusals are `Access`, `NotDatabase` of a database of fewer than five pages, by its length, or of the lowest page that the new page
    /// needs and that isn't of its kind, and `Full`, where no page is left, in this order. All that the new page changes is tested before the
    /// first write: a refused call changes nothing.
    pub fn page_new<H: Host>(&mut self, host: &mut H) -> Result<u32, Fault>
        ensures turn { (s : Seen) (t : Trail) → IsTrue H.tells → t.base ≡ s.base → IsOpen (H.world host.old) self.old t
            → Does page_made result (H.world host.old) (H.world host.new) self.old self.new t (new_turn s) }
        ensures goes { Goes self.old self.new }
        ensures once { (t : Trail) → IsTrue H.tells → IsOpen (H.world host.old) self.old t
            → IfOk result (λ page. (H.world host.new).reads ≤ (H.world host.old).reads + new_reads t.base.image page) }
        ensures cause { CountsDevice result (H.faults host.old) (H.faults host.new) }
        ensures takes_none { self.old.files.state ≢ stalled_state → IfErr result (λ fault. fault ≢ Memory) }
        ensures on_memory { (s : Seen) (t : Trail) → IsTrue H.tells → t.base ≡ s.base → IsOpen (H.world host.old) self.old t
            → WhereMemory result (StopsShort (H.world host.old) (H.world host.new) self.old self.new t (new_turn s).strokes) }
    {
        // Contracts ask for its range, which is known of what was read.
        let _scn = self.store.scn();
        if self.store.is_read_only() {
            return Err(Fault::Refused(Refusal::Access { found: 1 }));
        }
        // A database that ends before the first page that may be given is none.
        let count = self.store.count();
        if count < FIRST_TO_GIVE {
            return Err(Fault::Refused(Refusal::NotDatabase { page: count }));
        }
        let first = check_new(&mut self.store, host, &mut self.map, &mut self.scn_page)?;
        make_new(
            &mut self.store,
            host,
            first,
            PageKind::Raw,
            &EMPTY_TEXT,
            false,
            &mut self.page,
            &mut self.map,
            &mut self.scn_page,
        )
    }
}
