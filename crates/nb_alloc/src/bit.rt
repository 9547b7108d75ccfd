// The bit of a page is written into its inventory page, whose SCN entry is raised first where that is below the current SCN.
ghost use Rattle.std.specs.Prelude.{◌≡◌, ◌≢◌, ◌+◌, ◌/◌, ◌<◌, ◌≤◌, [], ◌∷◌, IsTrue, IfErr, Err, None, length};
ghost use Rattle.nb_fields.specs.Places.{bits_in, inventory_place, most_pages};
ghost use Rattle.nb_fields.specs.States.{stalled_state};
ghost use Rattle.nb_fields.specs.Kinds.{inventory_kind};
ghost use Rattle.nb_host.specs.declared.faults.Fault.TheVariants.{Memory};
ghost use Rattle.nb_host.specs.Causes.{CountsDevice, CountsRun};
ghost use Rattle.nb_host.specs.Faults.{as_answer};
ghost use Rattle.nb_model.specs.Image.{page_at};
ghost use Rattle.nb_model.specs.Forms.{inventory_of};
ghost use Rattle.nb_model.specs.Causes.{not_kind};
ghost use Rattle.nb_model.specs.Trail.{Trail};
ghost use Rattle.nb_base.specs.Takes.{StrikesIn};
ghost use Rattle.nb_state.specs.Open.{IsOpen, name_of};
ghost use Rattle.nb_state.specs.Does.{Goes, Makes};
ghost use Rattle.nb_alloc.specs.Tries.{Tries};
ghost use Rattle.nb_alloc.specs.Mark.{bit_for, bit_stroke, mark_cause, mark_strokes};

use crate::pages::{InventoryPage, ScnPage};
use crate::put::raise_entry;
use nb_host::{Fault, Host, RunError};
use nb_pip::{covers, place_of};
use nb_state::Store;

/// Sets bit `index` of the inventory page `place`, which is in `map`.
fn write_bit<H: Host>(
    store: &mut Store,
    host: &mut H,
    place: u32,
    index: u32,
    free: bool,
    map: &mut InventoryPage,
) -> Result<(), RunError>
    requires room { length map.old ≡ store.old.files.page_size }
    requires low { 0 < place }
    requires high { place < most_pages }
    requires inside { place < store.old.files.count }
    requires index { index < bits_in store.old.files.page_size }
    ensures makes { (t : Trail) → IsTrue H.tells → IsOpen (H.world host.old) store.old t → map.old ≡ page_at t.base.image place
        → Makes (as_answer result) (H.world host.old) (H.world host.new) store.old store.new t (bit_stroke t.base.image place index (bit_for free) ∷ []) }
    ensures goes { Goes store.old store.new }
    ensures room { length map.new ≡ length map.old }
    ensures reads { (H.world host.new).reads ≡ (H.world host.old).reads }
    ensures cause { CountsRun result (H.faults host.old) (H.faults host.new) }
    ensures takes_none { store.old.files.state ≢ stalled_state → IfErr result (λ error. error ≢ RunError.Memory) }
    ensures on_memory { (t : Trail) → IsTrue H.tells → IsOpen (H.world host.old) store.old t → result ≡ Err RunError.Memory
        → StrikesIn (H.world host.old) (H.world host.new) store.old.files.state (name_of store.old) t [] × IsOpen (H.world host.new) store.new t }
{
    map.set(index, free, store.scn(), place);
    store.write(host, place, map.as_slice())
}

/// Writes that page `number` is free, or taken, into its inventory page, which is in `map`. The refusal is `NotDatabase` of the
/// SCN page of that inventory page.
pub(crate) fn put_map<H: Host>(
    store: &mut Store,
    host: &mut H,
    number: u32,
    free: bool,
    map: &mut InventoryPage,
    scn_page: &mut ScnPage,
) -> Result<(), Fault>
    requires map_room { length map.old ≡ store.old.files.page_size }
    requires scn_room { length scn_page.old ≡ store.old.files.page_size }
    requires number { number < most_pages }
    requires inside { inventory_place store.old.files.page_size (number / bits_in store.old.files.page_size) < store.old.files.count }
    ensures tries { (t : Trail) → IsTrue H.tells → IsOpen (H.world host.old) store.old t
        → not_kind t.base.image inventory_kind (inventory_of t.base.image number) ≡ None → map.old ≡ page_at t.base.image (inventory_of t.base.image number)
        → Tries result (H.world host.old) (H.world host.new) store.old store.new t (mark_cause t.base.image number) (mark_strokes t.base.image number (bit_for free)) }
    ensures goes { Goes store.old store.new }
    ensures map_room { length map.new ≡ length map.old }
    ensures scn_room { length scn_page.new ≡ length scn_page.old }
    ensures once { IsTrue H.tells → (H.world host.new).reads ≤ (H.world host.old).reads + 1 }
    ensures cause { CountsDevice result (H.faults host.old) (H.faults host.new) }
    ensures takes_none { store.old.files.state ≢ stalled_state → IfErr result (λ fault. fault ≢ Memory) }
{
    let page_size = store.page_size();
    let (k, index) = covers(page_size, number);
    let place = place_of(page_size, k);
    raise_entry(store, host, place, scn_page)?;
    write_bit(store, host, place, index, free, map)?;
    Ok(())
}

/// Writes into its inventory page that page `number` is free, or taken; the SCN entry of the inventory page is raised before. It takes two reads
/// at most, and wants memory in the stalled state alone, where it has raised the entry at most then.
///
/// The refusals are `NotDatabase` of the inventory page, and `NotDatabase` of the SCN page of that inventory page, in this order; nothing has
/// changed then.
pub fn mark<H: Host>(
    store: &mut Store,
    host: &mut H,
    number: u32,
    free: bool,
    map: &mut InventoryPage,
    scn_page: &mut ScnPage,
) -> Result<(), Fault>
    requires map_room { length map.old ≡ store.old.files.page_size }
    requires scn_room { length scn_page.old ≡ store.old.files.page_size }
    requires number { number < most_pages }
    ensures tries { (t : Trail) → IsTrue H.tells → IsOpen (H.world host.old) store.old t
        → Tries result (H.world host.old) (H.world host.new) store.old store.new t (mark_cause t.base.image number) (mark_strokes t.base.image number (bit_for free)) }
    ensures goes { Goes store.old store.new }
    ensures map_room { length map.new ≡ length map.old }
    ensures scn_room { length scn_page.new ≡ length scn_page.old }
    ensures once { IsTrue H.tells → (H.world host.new).reads ≤ (H.world host.old).reads + 2 }
    ensures cause { CountsDevice result (H.faults host.old) (H.faults host.new) }
    ensures takes_none { store.old.files.state ≢ stalled_state → IfErr result (λ fault. fault ≢ Memory) }
{
    let page_size = store.page_size();
    let (k, _) = covers(page_size, number);
    map.read(store, host, place_of(page_size, k))?;
    put_map(store, host, number, free, map, scn_page)
}
