// A new page is made, and the system pages that the search for it comes to.
ghost use Rattle.std.specs.Prelude.{◌≡◌, ◌≢◌, ℕ, ◌+◌, ◌-◌, ◌*◌, ◌<◌, ◌≤◌, List, true, false, None, IsTrue, IfErr, IfOk, OnOk, length};
ghost use Rattle.nb_fields.specs.Kinds.{code_of};
ghost use Rattle.nb_fields.specs.Page.{with_payload};
ghost use Rattle.nb_fields.specs.Places.{is_page_size, is_system_place, most_pages};
ghost use Rattle.nb_fields.specs.States.{stalled_state};
ghost use Rattle.nb_host.specs.Causes.{CountsDevice, CountsFault};
ghost use Rattle.nb_host.specs.declared.faults.Fault.TheVariants.{Memory};
ghost use Rattle.nb_model.specs.Image.{Image, image_size, image_scn};
ghost use Rattle.nb_model.specs.Trail.{Trail};
ghost use Rattle.nb_model.specs.Forms.{drafted, old_page, put, is_kind, system_kind, system_payload, take_page, lowest_free};
ghost use Rattle.nb_model.proofs.SearchLaws.{draft_cause};
ghost use Rattle.nb_state.specs.Open.{IsOpen};
ghost use Rattle.nb_state.specs.Looks.{Looks};
ghost use Rattle.nb_state.specs.Does.{Goes};
ghost use Rattle.nb_alloc.specs.Tries.{Tries};
ghost use Rattle.nb_alloc.specs.Put.{entry_cause};
ghost use Rattle.nb_alloc.specs.Find.{HoldsMap};
ghost use Rattle.nb_alloc.specs.Make.{IsSupplied, GoesOn, IsOnward, page_strokes, system_strokes, system_cause, content, new_of, round};
ghost use Rattle.nb_alloc.specs.Search.{IsSearchable};

use crate::bit::{mark, put_map};
use crate::find::{hold_map, is_system_place, next_free};
use crate::pages::{InventoryPage, ScnPage};
use crate::put::raise_entry;
use nb_fields::layouts::{data, head};
use nb_fields::{MOST_PAGES, PageKind};
use nb_host::{Fault, Host, HostFault, Refusal};
use nb_page::{read_head, stamp};
use nb_state::Store;

/// What stands at a system place.
fn system_kind(page_size: u32, place: u32) -> PageKind
    requires size { IsTrue (is_page_size page_size) }
    requires place { place < most_pages }
    ensures { (image : Image) → page_size ≡ image_size image → code_of result ≡ system_kind image place }
{
    if nb_pip::is_place(page_size, place) {
        PageKind::Inventory
    } else {
        PageKind::ScnInventory
    }
}

/// Fills a page, but for its head, as that of a system place: all bits free, or each entry the current SCN.
fn fill_system(page: &mut [u8], place: u32, scn: u32)
    requires size { IsTrue (is_page_size (length page.old)) }
    requires place { place < most_pages }
    ensures { (image : Image) → length page.old ≡ image_size image → scn ≡ image_scn image → page.new ≡ with_payload page.old (system_payload image place) }
{
    let size = page.len() as u32;
    if nb_pip::is_place(size, place) {
        let k = nb_pip::index_of(size, place);
        nb_pip::fill(page, k);
    } else {
        let (k, _) = nb_scn::covers(size, place);
        nb_scn::fill(page, k, scn);
    }
}

/// Reads page `number`, or zeros where it is about to be added.
fn take_old<H: Host>(
    store: &mut Store,
    host: &mut H,
    number: u32,
    into: &mut [u8],
) -> Result<(), HostFault>
    requires room { length into.old ≡ store.old.files.page_size }
    ensures page { (t : Trail) → IsTrue H.tells → IsOpen (H.world host.old) store.old t → OnOk result (into.new ≡ old_page number t.base.image) }
    ensures looks { Looks H.tells (H.world host.old) (H.world host.new) store.old store.new }
    ensures once { IsTrue H.tells → 0 < number → (H.world host.new).reads ≤ (H.world host.old).reads + 1 }
    ensures cause { CountsFault result (H.faults host.old) (H.faults host.new) }
{
    if number < store.count() {
        store.read(host, number, into)?;
    } else {
        into.fill(0);
    }
    Ok(())
}

/// Whether page `number` is of that kind. It then is in `into`, and otherwise what it is about to be written over.
fn has_page<H: Host>(
    store: &mut Store,
    host: &mut H,
    number: u32,
    kind: PageKind,
    into: &mut [u8],
) -> Result<bool, HostFault>
    requires size { IsTrue (is_page_size (length into.old)) }
    requires room { length into.old ≡ store.old.files.page_size }
    ensures value { (t : Trail) → IsTrue H.tells → IsOpen (H.world host.old) store.old t → IfOk result (λ has. has ≡ is_kind t.base.image (code_of kind) number) }
    ensures below { IfOk result (λ has. has ≡ true → number < store.old.files.count) }
    ensures page { (t : Trail) → IsTrue H.tells → IsOpen (H.world host.old) store.old t → OnOk result (into.new ≡ old_page number t.base.image) }
    ensures looks { Looks H.tells (H.world host.old) (H.world host.new) store.old store.new }
    ensures once { IsTrue H.tells → 0 < number → (H.world host.new).reads ≤ (H.world host.old).reads + 1 }
    ensures cause { CountsFault result (H.faults host.old) (H.faults host.new) }
{
    take_old(store, host, number, into)?;
    Ok(number < store.count() && read_head(into).kind == kind.code())
}

/// Writes page `number`, below the length or at it, as a page of that kind, its SCN entry first. `page` has the head of the page as it stands, or
/// zeros where it is added, and after the head what shall stand there; the head is written with the generation raised and the current SCN. It
/// takes one read at most, and wants memory in the stalled state alone, where it has raised the entry at most then.
///
/// The refusal is `NotDatabase` of its SCN page; nothing has changed then.
pub fn put_page<H: Host>(
    store: &mut Store,
    host: &mut H,
    number: u32,
    kind: PageKind,
    page: &mut [u8],
    scn_page: &mut ScnPage,
) -> Result<(), Fault>
    requires size { IsTrue (is_page_size (length page.old)) }
    requires room { length page.old ≡ store.old.files.page_size }
    requires scn_room { length scn_page.old ≡ store.old.files.page_size }
    requires low { 0 < number }
    requires high { number < most_pages }
    requires inside { number ≤ store.old.files.count }
    ensures tries { (t : Trail) (payload : List ℕ) → IsTrue H.tells → IsOpen (H.world host.old) store.old t
        → 16 + length payload ≤ length (old_page number t.base.image) → page.old ≡ with_payload (old_page number t.base.image) payload
        → Tries result (H.world host.old) (H.world host.new) store.old store.new t (entry_cause t.base.image number) (page_strokes t.base.image number (code_of kind) payload) }
    ensures added { OnOk result (number < store.new.files.count) }
    ensures goes { Goes store.old store.new }
    ensures scn_room { length scn_page.new ≡ length scn_page.old }
    ensures once { IsTrue H.tells → (H.world host.new).reads ≤ (H.world host.old).reads + 1 }
    ensures cause { CountsDevice result (H.faults host.old) (H.faults host.new) }
    ensures takes_none { store.old.files.state ≢ stalled_state → IfErr result (λ fault. fault ≢ Memory) }
{
    stamp(page, kind.code(), store.scn(), number);
    raise_entry(store, host, number, scn_page)?;
    store.write(host, number, page)?;
    Ok(())
}

/// Makes the system page of that place, unless a page of its kind stands there. The refusal is `NotDatabase` of its SCN page.
fn make_system<H: Host>(
    store: &mut Store,
    host: &mut H,
    place: u32,
    page: &mut [u8],
    scn_page: &mut ScnPage,
) -> Result<(), Fault>
    requires size { IsTrue (is_page_size (length page.old)) }
    requires room { length page.old ≡ store.old.files.page_size }
    requires scn_room { length scn_page.old ≡ store.old.files.page_size }
    requires low { 0 < place }
    requires high { place < most_pages }
    requires inside { place ≤ store.old.files.count }
    ensures tries { (t : Trail) → IsTrue H.tells → IsOpen (H.world host.old) store.old t
        → Tries result (H.world host.old) (H.world host.new) store.old store.new t (system_cause t.base.image place) (system_strokes t.base.image place) }
    ensures added { OnOk result (place < store.new.files.count) }
    ensures goes { Goes store.old store.new }
    ensures scn_room { length scn_page.new ≡ length scn_page.old }
    ensures once { IsTrue H.tells → (H.world host.new).reads ≤ (H.world host.old).reads + 2 }
    ensures cause { CountsDevice result (H.faults host.old) (H.faults host.new) }
    ensures takes_none { store.old.files.state ≢ stalled_state → IfErr result (λ fault. fault ≢ Memory) }
{
    let kind = system_kind(store.page_size(), place);
    if has_page(store, host, place, kind, page)? {
        return Ok(());
    }
    fill_system(page, place, store.scn());
    put_page(store, host, place, kind, page, scn_page)
}

/// Makes these bytes what stands after the head of a page, and zeros after them.
fn put_payload(page: &mut [u8], payload: &[u8])
    requires size { IsTrue (is_page_size (length page.old)) }
    requires short { length payload.now ≤ 1008 }
    ensures { page.new ≡ with_payload page.old payload.now }
{
    let end = head::LENGTH + payload.len();
    page[head::LENGTH..end].copy_from_slice(payload);
    page[end..].fill(0);
}

/// Makes these bytes what stands after the head of page `number`, and zeros after them. Where it owns itself, its number is its owner.
fn put_content(page: &mut [u8], payload: &[u8], own: bool, number: u32)
    requires size { IsTrue (is_page_size (length page.old)) }
    requires short { length payload.now ≤ 1008 }
    requires owner { own ≡ true → 8 ≤ length payload.now }
    ensures { page.new ≡ with_payload page.old (content own payload.now number) }
{
    put_payload(page, payload);
    if !own {
        return;
    }
    data::Owner::put(page, u64::from(number));
}

/// Makes page `number` one of that kind with that payload. The refusal is `NotDatabase` of its SCN page.
fn make_page<H: Host>(
    store: &mut Store,
    host: &mut H,
    number: u32,
    kind: PageKind,
    payload: &[u8],
    own: bool,
    page: &mut [u8],
    scn_page: &mut ScnPage,
) -> Result<(), Fault>
    requires size { IsTrue (is_page_size (length page.old)) }
    requires room { length page.old ≡ store.old.files.page_size }
    requires scn_room { length scn_page.old ≡ store.old.files.page_size }
    requires low { 0 < number }
    requires high { number < most_pages }
    requires inside { number ≤ store.old.files.count }
    requires short { length payload.now ≤ 1008 }
    requires owner { own ≡ true → 8 ≤ length payload.now }
    ensures tries { (t : Trail) → IsTrue H.tells → IsOpen (H.world host.old) store.old t
        → Tries result (H.world host.old) (H.world host.new) store.old store.new t (entry_cause t.base.image number) (page_strokes t.base.image number (code_of kind) (content own payload.now number)) }
    ensures added { OnOk result (number < store.new.files.count) }
    ensures goes { Goes store.old store.new }
    ensures scn_room { length scn_page.new ≡ length scn_page.old }
    ensures once { IsTrue H.tells → (H.world host.new).reads ≤ (H.world host.old).reads + 2 }
    ensures cause { CountsDevice result (H.faults host.old) (H.faults host.new) }
    ensures takes_none { store.old.files.state ≢ stalled_state → IfErr result (λ fault. fault ≢ Memory) }
{
    take_old(store, host, number, page)?;
    put_content(page, payload, own, number);
    put_page(store, host, number, kind, page, scn_page)
}

/// Makes the system page of that place, unless a page of its kind stands there, and takes it. The refusals are `NotDatabase` of its SCN
/// page, of its inventory page, and of the SCN page of that.
fn take_place<H: Host>(
    store: &mut Store,
    host: &mut H,
    place: u32,
    page: &mut [u8],
    map: &mut InventoryPage,
    scn_page: &mut ScnPage,
) -> Result<(), Fault>
    requires size { IsTrue (is_page_size (length page.old)) }
    requires room { length page.old ≡ store.old.files.page_size }
    requires map_room { length map.old ≡ store.old.files.page_size }
    requires scn_room { length scn_page.old ≡ store.old.files.page_size }
    requires low { 5 ≤ place }
    requires high { place < most_pages }
    requires inside { place ≤ store.old.files.count }
    ensures makes { (t : Trail) → IsTrue H.tells → IsOpen (H.world host.old) store.old t → IsSupplied t.base.image place → is_system_place (image_size t.base.image) place ≡ true
        → Tries result (H.world host.old) (H.world host.new) store.old store.new t None (round t.base.image place).strokes }
    ensures added { OnOk result (place < store.new.files.count) }
    ensures goes { Goes store.old store.new }
    ensures map_room { length map.new ≡ length map.old }
    ensures scn_room { length scn_page.new ≡ length scn_page.old }
    ensures once { IsTrue H.tells → (H.world host.new).reads ≤ (H.world host.old).reads + 4 }
    ensures cause { CountsDevice result (H.faults host.old) (H.faults host.new) }
    ensures takes_none { store.old.files.state ≢ stalled_state → IfErr result (λ fault. fault ≢ Memory) }
{
    make_system(store, host, place, page, scn_page)?;
    mark(store, host, place, false, map, scn_page)
}

/// Makes page `number` one of that kind with that payload, and takes it. Its inventory page is in `map`. The refusals are `NotDatabase` of
/// its SCN page, and of that of its inventory page.
fn take_new<H: Host>(
    store: &mut Store,
    host: &mut H,
    number: u32,
    kind: PageKind,
    payload: &[u8],
    own: bool,
    page: &mut [u8],
    map: &mut InventoryPage,
    scn_page: &mut ScnPage,
) -> Result<(), Fault>
    requires size { IsTrue (is_page_size (length page.old)) }
    requires room { length page.old ≡ store.old.files.page_size }
    requires map_room { length map.old ≡ store.old.files.page_size }
    requires scn_room { length scn_page.old ≡ store.old.files.page_size }
    requires low { 5 ≤ number }
    requires high { number < most_pages }
    requires inside { number ≤ store.old.files.count }
    requires short { length payload.now ≤ 1008 }
    requires owner { own ≡ true → 8 ≤ length payload.now }
    ensures makes { (t : Trail) → IsTrue H.tells → IsOpen (H.world host.old) store.old t → IsSupplied t.base.image number → is_system_place (image_size t.base.image) number ≡ false → HoldsMap t.base.image number map.old
        → Tries result (H.world host.old) (H.world host.new) store.old store.new t None (take_page number (put number (code_of kind) (content own payload.now number) (drafted t.base.image))).strokes }
    ensures added { OnOk result (number < store.new.files.count) }
    ensures goes { Goes store.old store.new }
    ensures map_room { length map.new ≡ length map.old }
    ensures scn_room { length scn_page.new ≡ length scn_page.old }
    ensures once { IsTrue H.tells → (H.world host.new).reads ≤ (H.world host.old).reads + 3 }
    ensures cause { CountsDevice result (H.faults host.old) (H.faults host.new) }
    ensures takes_none { store.old.files.state ≢ stalled_state → IfErr result (λ fault. fault ≢ Memory) }
{
    make_page(store, host, number, kind, payload, own, page, scn_page)?;
    put_map(store, host, number, false, map, scn_page)
}

/// Makes the system page of that place, takes it, and answers where the search for a free page goes on. The inventory page of that is
/// then in `map`.
///
/// The refusals are `Full`, where that is nowhere, and `NotDatabase` of a page that isn't of its kind.
fn pass_place<H: Host>(
    store: &mut Store,
    host: &mut H,
    place: u32,
    page: &mut [u8],
    map: &mut InventoryPage,
    scn_page: &mut ScnPage,
) -> Result<u32, Fault>
    requires size { IsTrue (is_page_size (length page.old)) }
    requires room { length page.old ≡ store.old.files.page_size }
    requires map_room { length map.old ≡ store.old.files.page_size }
    requires scn_room { length scn_page.old ≡ store.old.files.page_size }
    requires low { 5 ≤ place }
    requires high { place < most_pages }
    requires inside { place ≤ store.old.files.count }
    ensures makes { (t : Trail) → IsTrue H.tells → IsOpen (H.world host.old) store.old t → IsSupplied t.base.image place → GoesOn t.base.image place → is_system_place (image_size t.base.image) place ≡ true
        → Tries result (H.world host.old) (H.world host.new) store.old store.new t None (round t.base.image place).strokes }
    ensures onward { (t : Trail) → IsTrue H.tells → IsOpen (H.world host.old) store.old t → IsSupplied t.base.image place → is_system_place (image_size t.base.image) place ≡ true
        → IfOk result (λ next. IsOnward (round t.base.image place).image place next map.new) }
    ensures later { IfOk result (λ next. place < next) }
    ensures most { IfOk result (λ next. next < most_pages) }
    ensures within { IfOk result (λ next. next ≤ store.new.files.count) }
    ensures goes { Goes store.old store.new }
    ensures map_room { length map.new ≡ length map.old }
    ensures scn_room { length scn_page.new ≡ length scn_page.old }
    ensures once { IsTrue H.tells → IfOk result (λ next. (H.world host.new).reads ≤ (H.world host.old).reads + 5 + (next - place)) }
    ensures cause { CountsDevice result (H.faults host.old) (H.faults host.new) }
    ensures takes_none { store.old.files.state ≢ stalled_state → IfErr result (λ fault. fault ≢ Memory) }
{
    take_place(store, host, place, page, map, scn_page)?;
    let next = next_free(store, host, place + 1, map)?;
    if next >= MOST_PAGES {
        return Err(Fault::Refused(Refusal::Full { count: MOST_PAGES }));
    }
    hold_map(store, host, place + 1, next, map)?;
    Ok(next)
}

/// Makes a new page of that kind with that payload and answers its number, which is also its owner in the payload where it owns itself. The
/// search for its place comes to `first` at first, and the system places on its way get their pages and are taken. Where no system page stands
/// at `first`, its inventory page is in `map`, and isn't read again. It takes three reads at most for the page, and six for each page between
/// that the search went past; it wants memory in the stalled state alone, where it has not made its last write then.
///
/// It is for a database on which `check_new`, or `check_rooms` for one page, has answered `first` and to which nothing was written since: then it
/// isn't refused, and contracts say what it makes of such a database alone. Else the refusals are `NotDatabase` of a page that isn't of its kind,
/// and `Full`, and what was written before them stands.
pub fn make_new<H: Host>(
    store: &mut Store,
    host: &mut H,
    first: u32,
    kind: PageKind,
    payload: &[u8],
    own: bool,
    page: &mut [u8],
    map: &mut InventoryPage,
    scn_page: &mut ScnPage,
) -> Result<u32, Fault>
    requires size { IsTrue (is_page_size (length page.old)) }
    requires room { length page.old ≡ store.old.files.page_size }
    requires map_room { length map.old ≡ store.old.files.page_size }
    requires scn_room { length scn_page.old ≡ store.old.files.page_size }
    requires low { 5 ≤ first }
    requires high { first < most_pages }
    requires inside { first ≤ store.old.files.count }
    requires short { length payload.now ≤ 1008 }
    requires owner { own ≡ true → 8 ≤ length payload.now }
    ensures makes { (t : Trail) → IsTrue H.tells → IsOpen (H.world host.old) store.old t → first ≡ lowest_free t.base.image → HoldsMap t.base.image first map.old
        → IsSearchable t.base.image → draft_cause (new_of (code_of kind) (content own payload.now) t.base.image).0 ≡ None
        → Tries result (H.world host.old) (H.world host.new) store.old store.new t None (new_of (code_of kind) (content own payload.now) t.base.image).0.strokes }
    ensures value { (t : Trail) → IsTrue H.tells → IsOpen (H.world host.old) store.old t → first ≡ lowest_free t.base.image → HoldsMap t.base.image first map.old
        → IsSearchable t.base.image → draft_cause (new_of (code_of kind) (content own payload.now) t.base.image).0 ≡ None → IfOk result (λ number. number ≡ (new_of (code_of kind) (content own payload.now) t.base.image).1) }
    ensures least { IfOk result (λ number. 5 ≤ number) }
    ensures most { IfOk result (λ number. number < most_pages) }
    ensures added { IfOk result (λ number. number < store.new.files.count) }
    ensures goes { Goes store.old store.new }
    ensures map_room { length map.new ≡ length map.old }
    ensures scn_room { length scn_page.new ≡ length scn_page.old }
    ensures once { IsTrue H.tells → IfOk result (λ number. (H.world host.new).reads ≤ (H.world host.old).reads + 3 + 6 * (number - first)) }
    ensures cause { CountsDevice result (H.faults host.old) (H.faults host.new) }
    ensures takes_none { store.old.files.state ≢ stalled_state → IfErr result (λ fault. fault ≢ Memory) }
{
    let page_size = store.page_size();
    // Contracts ask for its range.
    let _count = store.count();
    let mut place = first;
    while is_system_place(page_size, place) {
        place = pass_place(store, host, place, page, map, scn_page)?;
    }
    take_new(store, host, place, kind, payload, own, page, map, scn_page)?;
    Ok(place)
}
