// A chain of data pages grows by a page, which is made after its last one and then linked.
ghost use Rattle.std.specs.Prelude.{◌≡◌, ◌≢◌, ◌<◌, ◌≤◌, ℕ, List, None, IsTrue, IfErr, IfOk, length};
ghost use Rattle.nb_fields.specs.Places.{is_page_size, most_pages};
ghost use Rattle.nb_fields.specs.States.{stalled_state};
ghost use Rattle.nb_host.specs.declared.faults.Fault.TheVariants.{Memory};
ghost use Rattle.nb_host.specs.Causes.{CountsDevice};
ghost use Rattle.nb_model.specs.Chains.{Chain, last_of, grown};
ghost use Rattle.nb_model.specs.Forms.{drafted};
ghost use Rattle.nb_model.specs.Trail.{Trail};
ghost use Rattle.nb_state.specs.Open.{IsOpen};
ghost use Rattle.nb_state.specs.Does.{Goes};
ghost use Rattle.nb_alloc.specs.Make.{page_strokes};
ghost use Rattle.nb_engine.specs.Room.{linked_payload, write_cause, IsGrowable, IsGrown};
ghost use Rattle.nb_alloc.specs.Tries.{Tries};

use nb_alloc::{InventoryPage, ScnPage, make_new, put_page};
use nb_fields::PageKind;
use nb_fields::layouts::data;
use nb_host::{Fault, Host, Refusal};
use nb_state::Store;

/// Links page `last`, a data page, to page `next`. The refusals are `NotDatabase` of the page, where it is past the end, and of its SCN page.
fn link<H: Host>(
    store: &mut Store,
    host: &mut H,
    last: u32,
    next: u32,
    page: &mut [u8],
    scn_page: &mut ScnPage,
) -> Result<(), Fault>
    requires size { IsTrue (is_page_size (length page.old)) }
    requires room { length page.old ≡ store.old.files.page_size }
    requires scn_room { length scn_page.old ≡ store.old.files.page_size }
    requires low { 0 < last }
    requires high { last < most_pages }
    ensures tries { (t : Trail) → IsTrue H.tells → IsOpen (H.world host.old) store.old t
        → Tries result (H.world host.old) (H.world host.new) store.old store.new t (write_cause t.base.image last) (page_strokes t.base.image last 5 (linked_payload t.base.image last next)) }
    ensures goes { Goes store.old store.new }
    ensures scn_room { length scn_page.new ≡ length scn_page.old }
    ensures cause { CountsDevice result (H.faults host.old) (H.faults host.new) }
    ensures takes_none { store.old.files.state ≢ stalled_state → IfErr result (λ fault. fault ≢ Memory) }
{
    if last >= store.count() {
        return Err(Fault::Refused(Refusal::NotDatabase { page: last }));
    }
    store.read(host, last, page)?;
    data::Next::put(page, u64::from(next));
    put_page(store, host, last, PageKind::Data, page, scn_page)
}

/// Makes a new data page with these bytes after its head, and links page `last` to it once it stands. It answers its number. The search
/// for its place comes to `first` at first, as `check_rooms` has found.
pub(crate) fn grow_from<H: Host>(
    store: &mut Store,
    host: &mut H,
    first: u32,
    last: u32,
    payload: &[u8],
    page: &mut [u8],
    map: &mut InventoryPage,
    scn_page: &mut ScnPage,
) -> Result<u32, Fault>
    requires size { IsTrue (is_page_size (length page.old)) }
    requires room { length page.old ≡ store.old.files.page_size }
    requires map_room { length map.old ≡ store.old.files.page_size }
    requires scn_room { length scn_page.old ≡ store.old.files.page_size }
    requires first_low { 5 ≤ first }
    requires first_high { first < most_pages }
    requires inside { first ≤ store.old.files.count }
    requires low { 0 < last }
    requires high { last < most_pages }
    requires short { length payload.now ≤ 1008 }
    ensures tries { (t : Trail) (chain : Chain) (pages slots : List ℕ) → IsTrue H.tells → IsOpen (H.world host.old) store.old t → IsGrowable t.base.image chain slots first last map.old payload.now → last ≡ last_of pages
        → Tries result (H.world host.old) (H.world host.new) store.old store.new t None (grown chain pages slots (drafted t.base.image)).0.strokes }
    ensures grown { (t : Trail) (chain : Chain) (pages slots : List ℕ) → IsTrue H.tells → IsOpen (H.world host.old) store.old t → IsGrowable t.base.image chain slots first last map.old payload.now
        → IfOk result (IsGrown t.base.image chain pages slots) }
    ensures least { IfOk result (λ number. 5 ≤ number) }
    ensures most { IfOk result (λ number. number < most_pages) }
    ensures goes { Goes store.old store.new }
    ensures map_room { length map.new ≡ length map.old }
    ensures scn_room { length scn_page.new ≡ length scn_page.old }
    ensures cause { CountsDevice result (H.faults host.old) (H.faults host.new) }
    ensures takes_none { store.old.files.state ≢ stalled_state → IfErr result (λ fault. fault ≢ Memory) }
{
    let number = make_new(
        store,
        host,
        first,
        PageKind::Data,
        payload,
        false,
        page,
        map,
        scn_page,
    )?;
    link(store, host, last, number, page, scn_page)?;
    Ok(number)
}
