// Room for a row of the history: a free slot whose page is taken, or a new page after the last.
ghost use Rattle.std.specs.Prelude.{◌≡◌, ◌≢◌, ◌<◌, ◌≤◌, ℕ, List, [], ◌∷◌, true, IsTrue, IfErr, IfOk, length};
ghost use Rattle.nb_fields.specs.Places.{is_page_size, most_pages};
ghost use Rattle.nb_host.specs.declared.faults.Fault.TheVariants.{Memory};
ghost use Rattle.nb_host.specs.Causes.{CountsDevice, FaultCount};
ghost use Rattle.nb_fields.specs.Page.{kind_of};
ghost use Rattle.nb_fields.specs.States.{stalled_state};
ghost use Rattle.nb_fields.specs.Kinds.{data_kind, scn_kind};
ghost use Rattle.nb_model.specs.Image.{Image, image_scn, page_at};
ghost use Rattle.nb_model.specs.Causes.{Tested, first_cause, not_kind, not_of_form, no_scn};
ghost use Rattle.nb_model.specs.Chains.{History, last_of, put_slot, backup_slot, grown};
ghost use Rattle.nb_model.specs.Forms.{drafted, is_kind, scn_page_of};
ghost use Rattle.nb_model.specs.Trail.{Trail};
ghost use Rattle.nb_state.specs.Open.{IsOpen};
ghost use Rattle.nb_state.specs.Looks.{Looks};
ghost use Rattle.nb_state.specs.Does.{Goes};
ghost use Rattle.nb_engine.specs.History.{IsPlaced};
ghost use Rattle.nb_alloc.specs.Put.{entry_cause};
ghost use Rattle.nb_engine.specs.Room.{taken_draft, grow_cause, IsGrown};
ghost use Rattle.nb_alloc.specs.Search.{IsSearchable};
ghost use Rattle.nb_alloc.specs.Tries.{Tries};

use crate::grow::grow_from;
use crate::rows::{HistoryRow, put_slot};
use crate::walk::Room;
use nb_alloc::{InventoryPage, ScnPage, check_rooms, is_page_free, put_page};
use nb_fields::PageKind;
use nb_host::{Fault, Host, Refusal};
use nb_state::Store;

/// A backup and its end need two SCNs more.
const LAST_SCN: u32 = u32::MAX - 2;

/// What stands after the head of a page of the history without a row: no next page, and the history as its owner.
const NO_ROWS: [u8; 16] = [0, 0, 0, 0, 1, 0, 0, 0, 0, 0, 0, 0, 0, 0, 0, 0];

/// Tests that a backup that begins at this SCN may end. The refusal is `ScnExhausted`.
fn check_scn(scn: u32) -> Result<(), Fault>
    ensures test { (image : Image) → scn ≡ image_scn image → Tested result (no_scn image) }
    ensures cause { (faults : FaultCount) → CountsDevice result faults faults }
    ensures takes_none { IfErr result (λ fault. fault ≢ Memory) }
{
    if scn > LAST_SCN {
        return Err(Fault::Refused(Refusal::ScnExhausted { scn }));
    }
    Ok(())
}

/// Tests the SCN page that has page `number`. The refusal is `NotDatabase` of it.
fn check_scn_page<H: Host>(
    store: &mut Store,
    host: &mut H,
    number: u32,
    scn_page: &mut ScnPage,
) -> Result<(), Fault>
    requires room { length scn_page.old ≡ store.old.files.page_size }
    requires number { number < most_pages }
    ensures test { (t : Trail) → IsTrue H.tells → IsOpen (H.world host.old) store.old t → Tested result (not_kind t.base.image scn_kind (scn_page_of t.base.image number)) }
    ensures room { length scn_page.new ≡ length scn_page.old }
    ensures looks { Looks H.tells (H.world host.old) (H.world host.new) store.old store.new }
    ensures cause { CountsDevice result (H.faults host.old) (H.faults host.new) }
    ensures takes_none { IfErr result (λ fault. fault ≢ Memory) }
{
    let page_size = store.page_size();
    let (k, _) = nb_scn::covers(page_size, number);
    scn_page.read(store, host, nb_scn::place_of(page_size, k))
}

/// Tests that the inventory pages are of their kind that have page `number`, a page of the history with a free slot, and that it is taken:
/// then no other statement takes it before the row is written.
///
/// The refusals are `NotDatabase` of the inventory page, of the SCN page and of the page itself, and `ScnExhausted`, in this order.
pub(crate) fn check_room<H: Host>(
    store: &mut Store,
    host: &mut H,
    number: u32,
    map: &mut InventoryPage,
    scn_page: &mut ScnPage,
) -> Result<(), Fault>
    requires size { IsTrue (is_page_size store.old.files.page_size) }
    requires map_room { length map.old ≡ store.old.files.page_size }
    requires scn_room { length scn_page.old ≡ store.old.files.page_size }
    requires low { 0 < number }
    requires high { number < most_pages }
    ensures test { (t : Trail) → IsTrue H.tells → IsOpen (H.world host.old) store.old t → kind_of (page_at t.base.image number) ≡ data_kind
        → Tested result (first_cause (not_of_form (taken_draft t.base.image number) ∷ no_scn t.base.image ∷ [])) }
    ensures map_room { length map.new ≡ length map.old }
    ensures scn_room { length scn_page.new ≡ length scn_page.old }
    ensures looks { Looks H.tells (H.world host.old) (H.world host.new) store.old store.new }
    ensures cause { CountsDevice result (H.faults host.old) (H.faults host.new) }
    ensures takes_none { IfErr result (λ fault. fault ≢ Memory) }
{
    let scn = store.scn();
    let free = is_page_free(store, host, number, map)?;
    check_scn_page(store, host, number, scn_page)?;
    if free {
        return Err(Fault::Refused(Refusal::NotDatabase { page: number }));
    }
    check_scn(scn)
}

/// Makes a new page after `last`, the last page of the history, which is linked to it once it stands. It answers its number.
///
/// The refusals are `NotDatabase` of the lowest page that isn't of its kind, `Full` and `ScnExhausted`, in this order, before the first
/// write.
pub(crate) fn grow<H: Host>(
    store: &mut Store,
    host: &mut H,
    last: u32,
    page: &mut [u8],
    map: &mut InventoryPage,
    scn_page: &mut ScnPage,
) -> Result<u32, Fault>
    requires size { IsTrue (is_page_size (length page.old)) }
    requires room { length page.old ≡ store.old.files.page_size }
    requires map_room { length map.old ≡ store.old.files.page_size }
    requires scn_room { length scn_page.old ≡ store.old.files.page_size }
    requires low { 0 < last }
    requires high { last < most_pages }
    requires least { 5 ≤ store.old.files.count }
    ensures makes { (t : Trail) (pages : List ℕ) → IsTrue H.tells → IsOpen (H.world host.old) store.old t → IsSearchable t.base.image → last ≡ last_of pages → is_kind t.base.image data_kind last ≡ true
        → Tries result (H.world host.old) (H.world host.new) store.old store.new t (grow_cause t.base.image pages) (grown History pages [] (drafted t.base.image)).0.strokes }
    ensures grown { (t : Trail) (pages : List ℕ) → IsTrue H.tells → IsOpen (H.world host.old) store.old t → IsSearchable t.base.image → is_kind t.base.image data_kind last ≡ true → IfOk result (IsGrown t.base.image History pages []) }
    ensures least { IfOk result (λ number. 5 ≤ number) }
    ensures most { IfOk result (λ number. number < most_pages) }
    ensures goes { Goes store.old store.new }
    ensures map_room { length map.new ≡ length map.old }
    ensures scn_room { length scn_page.new ≡ length scn_page.old }
    ensures cause { CountsDevice result (H.faults host.old) (H.faults host.new) }
    ensures takes_none { store.old.files.state ≢ stalled_state → IfErr result (λ fault. fault ≢ Memory) }
{
    let scn = store.scn();
    let first = check_rooms(store, host, 1, last, map, scn_page)?;
    check_scn(scn)?;
    grow_from(store, host, first, last, &NO_ROWS, page, map, scn_page)
}

/// Writes a row into a slot. The refusal is `NotDatabase` of the SCN page of its page.
pub(crate) fn add_row<H: Host>(
    store: &mut Store,
    host: &mut H,
    room: &Room,
    row: &HistoryRow,
    page: &mut [u8],
    scn_page: &mut ScnPage,
) -> Result<(), Fault>
    requires size { IsTrue (is_page_size (length page.old)) }
    requires page_room { length page.old ≡ store.old.files.page_size }
    requires scn_room { length scn_page.old ≡ store.old.files.page_size }
    requires placed { IsPlaced store.old.files.page_size room.now }
    requires inside { room.now.page < store.old.files.count }
    ensures tries { (t : Trail) → IsTrue H.tells → IsOpen (H.world host.old) store.old t
        → Tries result (H.world host.old) (H.world host.new) store.old store.new t (entry_cause t.base.image room.now.page)
        (put_slot room.now.page room.now.slot (backup_slot row.now.level row.now.scn row.now.time row.now.guid row.now.name) (drafted t.base.image)).strokes }
    ensures goes { Goes store.old store.new }
    ensures scn_room { length scn_page.new ≡ length scn_page.old }
    ensures cause { CountsDevice result (H.faults host.old) (H.faults host.new) }
    ensures takes_none { store.old.files.state ≢ stalled_state → IfErr result (λ fault. fault ≢ Memory) }
{
    store.read(host, room.page, page)?;
    put_slot(page, room.slot, row);
    put_page(store, host, room.page, PageKind::Data, page, scn_page)
}
