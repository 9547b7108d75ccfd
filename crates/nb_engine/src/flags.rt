// The flags in page 0: whether writes are forced, and whether the database may be changed.
ghost use Rattle.std.specs.Prelude.{◌≡◌, ◌≢◌, ◌<◌, ◌≤◌, IsTrue, IfErr, Err, None, OnOk, true, length};
ghost use Rattle.nb_fields.specs.Header.{is_header};
ghost use Rattle.nb_fields.specs.Places.{is_page_size};
ghost use Rattle.nb_fields.specs.States.{stalled_state};
ghost use Rattle.nb_host.specs.declared.faults.Fault.TheVariants.{Memory};
ghost use Rattle.nb_host.specs.Causes.{CountsDevice};
ghost use Rattle.nb_page.specs.Quiet.{Quiet};
ghost use Rattle.nb_model.specs.Lines.{flag};
ghost use Rattle.nb_model.specs.Trail.{Trail};
ghost use Rattle.nb_model.specs.Outcomes.{Seen};
ghost use Rattle.nb_model.specs.Pages.{byte_strokes, forced_turn, access_turn};
ghost use Rattle.nb_state.specs.Open.{IsOpen, HasBlock, NoPageWaits, but_pages};
ghost use Rattle.nb_state.specs.Looks.{Looks};
ghost use Rattle.nb_state.specs.Does.{Goes, Does};
ghost use Rattle.nb_alloc.specs.Tries.{StopsShort, Tries, WhereMemory};
ghost use Rattle.nb_alloc.specs.Put.{Reads};
ghost use Rattle.nb_engine.specs.Replies.{done};

use crate::Engine;
use nb_cases::{Case, Event, case_of};
use nb_fields::layouts::header;
use nb_fields::put_number;
use nb_host::{Fault, Host, Refusal};
use nb_page::read_header;
use nb_state::Store;

/// Reads page 0. The refusal is `NotDatabase`, where it isn't the header that it was.
fn read_first<H: Host>(store: &mut Store, host: &mut H, page: &mut [u8]) -> Result<(), Fault>
    requires size { IsTrue (is_page_size (length page.old)) }
    requires room { length page.old ≡ store.old.files.page_size }
    ensures reads { (t : Trail) → IsTrue H.tells → IsOpen (H.world host.old) store.old t → Reads result t.base.image None 0 page.new }
    ensures header { OnOk result (is_header page.new ≡ true) }
    ensures control_block { IsTrue H.tells → OnOk result (HasBlock (H.world host.new) store.new page.new) }
    ensures looks { Looks H.tells (H.world host.old) (H.world host.new) store.old store.new }
    ensures none_waits { NoPageWaits store.old → NoPageWaits store.new }
    ensures cause { CountsDevice result (H.faults host.old) (H.faults host.new) }
    ensures takes_none { IfErr result (λ fault. fault ≢ Memory) }
{
    store.read(host, 0, page)?;
    if read_header(page).is_none() {
        return Err(Fault::Refused(Refusal::NotDatabase { page: 0 }));
    }
    Ok(())
}

/// Writes a flag into page 0, at a place after the control block.
fn put_flag<H: Host>(
    store: &mut Store,
    host: &mut H,
    at: usize,
    on: bool,
    page: &mut [u8],
) -> Result<(), Fault>
    requires size { IsTrue (is_page_size (length page.old)) }
    requires room { length page.old ≡ store.old.files.page_size }
    requires behind { 64 ≤ at }
    requires inside { at ≤ 65 }
    ensures tries { (t : Trail) → IsTrue H.tells → IsOpen (H.world host.old) store.old t
        → Tries result (H.world host.old) (H.world host.new) store.old store.new t None (byte_strokes at (flag on) t.base.image) }
    ensures goes { Goes store.old store.new }
    ensures cause { CountsDevice result (H.faults host.old) (H.faults host.new) }
    ensures takes_none { store.old.files.state ≢ stalled_state → IfErr result (λ fault. fault ≢ Memory) }
    ensures idle { NoPageWaits store.old → result ≡ Err Memory → (but_pages store.new ≡ but_pages store.old) × Quiet (H.world host.old) (H.world host.new) }
    ensures forced { (t : Trail) → IsTrue H.tells → IsOpen (H.world host.old) store.old t → store.old.files.forced ≡ true → result ≡ Err Memory
        → (but_pages store.new ≡ but_pages store.old) × Quiet (H.world host.old) (H.world host.new) }
{
    read_first(store, host, page)?;
    put_number(page, at, 1, u64::from(on));
    store.write(host, 0, page)?;
    Ok(())
}

impl Engine {
    /// Forces writes from now on, or lets them wait for a sync. It is kept for good. It wants memory in the stalled state alone, and has
    /// changed no page then; where no page waits, as where writes are forced, it has made no call then but to read.
    ///
    /// The refusals are `Access`, where no statement may change a page, and `NotDatabase` of page 0, where the host gives another
    /// page for it than the header that it was. A refused call changes nothing.
    pub fn set_forced<H: Host>(&mut self, host: &mut H, on: bool) -> Result<(), Fault>
        ensures turn { (s : Seen) (t : Trail) → IsTrue H.tells → t.base ≡ s.base → IsOpen (H.world host.old) self.old t
            → Does done result (H.world host.old) (H.world host.new) self.old self.new t (forced_turn s on) }
        ensures goes { Goes self.old self.new }
        ensures cause { CountsDevice result (H.faults host.old) (H.faults host.new) }
        ensures takes_none { self.old.files.state ≢ stalled_state → IfErr result (λ fault. fault ≢ Memory) }
        ensures on_memory { (s : Seen) (t : Trail) → IsTrue H.tells → t.base ≡ s.base → IsOpen (H.world host.old) self.old t
            → WhereMemory result (StopsShort (H.world host.old) (H.world host.new) self.old self.new t (forced_turn s on).strokes) }
        ensures idle { NoPageWaits self.old → result ≡ Err Memory → (but_pages self.new ≡ but_pages self.old) × Quiet (H.world host.old) (H.world host.new) }
        ensures forced { (t : Trail) → IsTrue H.tells → IsOpen (H.world host.old) self.old t → self.old.files.forced ≡ true → result ≡ Err Memory
            → (but_pages self.new ≡ but_pages self.old) × Quiet (H.world host.old) (H.world host.new) }
    {
        if self.store.is_read_only() {
            return Err(Fault::Refused(Refusal::Access { found: 1 }));
        }
        let (at, _) = header::Forced::place();
        put_flag(&mut self.store, host, at, on, &mut self.page)
    }

    /// Lets no statement change a page from now on, or lets statements change pages again. It is kept for good, and wants no memory.
    ///
    /// The refusals are `WrongState`, where the backup state isn't 0, and `NotDatabase` of page 0, where the host gives another page
    /// for it than the header that it was. A refused call changes nothing.
    pub fn set_access<H: Host>(&mut self, host: &mut H, closed: bool) -> Result<(), Fault>
        ensures turn { (s : Seen) (t : Trail) → IsTrue H.tells → t.base ≡ s.base → IsOpen (H.world host.old) self.old t
            → Does done result (H.world host.old) (H.world host.new) self.old self.new t (access_turn s closed) }
        ensures goes { Goes self.old self.new }
        ensures cause { CountsDevice result (H.faults host.old) (H.faults host.new) }
        ensures takes_none { IfErr result (λ fault. fault ≢ Memory) }
    {
        let state = self.store.state();
        if case_of(state, Event::Access) == Case::WrongState {
            return Err(Fault::Refused(Refusal::WrongState {
                found: u32::from(state),
            }));
        }
        let (at, _) = header::Access::place();
        put_flag(&mut self.store, host, at, closed, &mut self.page)
    }
}
