// The search for a free page, which reads inventory pages one after the other. Nothing changes.
ghost use Rattle.std.specs.Prelude.{◌≡◌, ◌≢◌, ◌+◌, ◌-◌, ◌*◌, ◌/◌, ◌<◌, ◌≤◌, true, IsTrue, IfErr, IfOk, OnOk, IfSome, MatchOption, length};
ghost use Rattle.nb_fields.specs.Places.{is_page_size, bits_in, is_system_place, most_pages};
ghost use Rattle.nb_fields.specs.Kinds.{inventory_kind};
ghost use Rattle.nb_host.specs.declared.faults.Fault.TheVariants.{Memory};
ghost use Rattle.nb_host.specs.Causes.{CountsDevice};
ghost use Rattle.nb_model.specs.Image.{Page, Image, image_size};
ghost use Rattle.nb_model.specs.Causes.{Tested, not_kind};
ghost use Rattle.nb_model.specs.Way.{maps_up_to};
ghost use Rattle.nb_model.specs.Forms.{inventory_of, free_from, first_not};
ghost use Rattle.nb_model.specs.Trail.{Trail};
ghost use Rattle.nb_state.specs.Open.{IsOpen};
ghost use Rattle.nb_state.specs.Looks.{Looks};
ghost use Rattle.nb_alloc.specs.Put.{Reads};
ghost use Rattle.nb_alloc.specs.Find.{AreTaken, IsFreeNear, IsMap, EndsAt, RefusedFor, need_cause, AreMaps};

use crate::pages::InventoryPage;
use nb_fields::layouts::inventory::BITS_AT;
use nb_host::{Fault, Host};
use nb_pip::{covers, place_of};
use nb_state::Store;

/// The pages before it hold the header, the first inventories, the catalogue and the history: none of them is given out.
pub const FIRST_TO_GIVE: u32 = 5;

/// The first page after those that have their bits in one inventory page with page `number`.
fn behind_bits(page_size: u32, number: u32) -> u32
    requires size { IsTrue (is_page_size page_size) }
    requires number { number < most_pages }
    ensures { result ≡ (number / bits_in page_size + 1) * bits_in page_size }
{
    let (_, bit) = covers(page_size, number);
    // Each byte after the place of the bits has eight of them.
    number - bit + 8 * (page_size - BITS_AT as u32)
}

/// Whether a system page stands at page `number`.
pub(crate) fn is_system_place(page_size: u32, number: u32) -> bool
    requires size { IsTrue (is_page_size page_size) }
    requires number { number < most_pages }
    ensures { result ≡ is_system_place page_size number }
{
    nb_pip::is_place(page_size, number) || nb_scn::is_place(page_size, number)
}

/// Whether a search from page `from` on that ended at page `number` has read the inventory page of that. Where it ended at the length,
/// the inventory page of the page before is the last that it read.
fn was_read(page_size: u32, from: u32, number: u32, count: u32) -> bool
    requires size { IsTrue (is_page_size page_size) }
    requires number { number < most_pages }
    ensures { (image : Image) (map : Page) → page_size ≡ image_size image → count ≡ length image → EndsAt image from number map → result ≡ true → IsMap image number map }
{
    let (_, bit) = covers(page_size, number);
    from < count && (number < count || bit > 0)
}

/// The lowest free page from `from` on, among those below the length that have their bits in one inventory page with page `from`.
/// That inventory page is then in `map`. The refusal is `NotDatabase` of it.
fn free_near<H: Host>(
    store: &mut Store,
    host: &mut H,
    from: u32,
    map: &mut InventoryPage,
) -> Result<Option<u32>, Fault>
    requires room { length map.old ≡ store.old.files.page_size }
    requires from { from < store.old.files.count }
    requires most { from < most_pages }
    ensures reads { (t : Trail) → IsTrue H.tells → IsOpen (H.world host.old) store.old t → Reads result t.base.image (not_kind t.base.image inventory_kind (inventory_of t.base.image from)) (inventory_of t.base.image from) map.new }
    ensures found { (t : Trail) → IsTrue H.tells → IsOpen (H.world host.old) store.old t
        → IfOk result (λ found. MatchOption found (AreTaken t.base.image from ((from / bits_in store.old.files.page_size + 1) * bits_in store.old.files.page_size)) (IsFreeNear t.base.image from)) }
    ensures not_before { IfOk result (λ found. IfSome found (λ page. from ≤ page)) }
    ensures below { IfOk result (λ found. IfSome found (λ page. page < store.old.files.count)) }
    ensures room { length map.new ≡ length map.old }
    ensures looks { Looks H.tells (H.world host.old) (H.world host.new) store.old store.new }
    ensures once { IsTrue H.tells → (H.world host.new).reads ≤ (H.world host.old).reads + 1 }
    ensures cause { CountsDevice result (H.faults host.old) (H.faults host.new) }
    ensures takes_none { IfErr result (λ fault. fault ≢ Memory) }
{
    let page_size = store.page_size();
    let count = store.count();
    let (k, bit) = covers(page_size, from);
    map.read(store, host, place_of(page_size, k))?;
    let first = from - bit;
    let end = behind_bits(page_size, from).min(count);
    match map.lowest_free(bit, end - first) {
        Some(free) => Ok(Some(first + free)),
        None => Ok(None),
    }
}

/// The lowest free page from `from` on that is below the length, or the first page from `from` on that isn't below it. The inventory
/// page that it read last is then in `map`: that of the page, or of the last page of the database.
///
/// The refusal is `NotDatabase` of an inventory page that it had to read. It reads each at most once, none before that of `from`, and none
/// after that of the page.
pub(crate) fn next_free<H: Host>(
    store: &mut Store,
    host: &mut H,
    from: u32,
    map: &mut InventoryPage,
) -> Result<u32, Fault>
    requires room { length map.old ≡ store.old.files.page_size }
    requires from { from ≤ most_pages }
    ensures value { (t : Trail) → IsTrue H.tells → IsOpen (H.world host.old) store.old t → IfOk result (λ page. page ≡ free_from (length t.base.image - from) from t.base.image) }
    ensures map { (t : Trail) → IsTrue H.tells → IsOpen (H.world host.old) store.old t → IfOk result (λ page. EndsAt t.base.image from page map.new) }
    ensures refused { (t : Trail) → IsTrue H.tells → IsOpen (H.world host.old) store.old t → RefusedFor result (need_cause (first_not t.base.image (maps_up_to t.base.image from (free_from (length t.base.image - from) from t.base.image)))) }
    ensures maps { (t : Trail) → IsTrue H.tells → IsOpen (H.world host.old) store.old t → IfOk result (λ page. AreMaps t.base.image from page) }
    ensures not_before { IfOk result (λ page. from ≤ page) }
    ensures most { IfOk result (λ page. page ≤ most_pages) }
    ensures within { from ≤ store.old.files.count → IfOk result (λ page. page ≤ store.old.files.count) }
    ensures room { length map.new ≡ length map.old }
    ensures looks { Looks H.tells (H.world host.old) (H.world host.new) store.old store.new }
    ensures once { IsTrue H.tells → (H.world host.new).reads ≤ (H.world host.old).reads + (store.old.files.count / bits_in store.old.files.page_size + 1 - from / bits_in store.old.files.page_size) }
    ensures up_to { IsTrue H.tells → IfOk result (λ page. (H.world host.new).reads ≤ (H.world host.old).reads + (page / bits_in store.old.files.page_size + 1 - from / bits_in store.old.files.page_size)) }
    ensures cause { CountsDevice result (H.faults host.old) (H.faults host.new) }
    ensures takes_none { IfErr result (λ fault. fault ≢ Memory) }
{
    let page_size = store.page_size();
    let count = store.count();
    let mut page = from;
    while page < count {
        if let Some(free) = free_near(store, host, page, map)? {
            return Ok(free);
        }
        page = behind_bits(page_size, page);
    }
    Ok(from.max(count))
}

/// Has the inventory page of page `number` in `map`. A search from page `from` on ended at `number`, so it is read and tested only where
/// that search has not read it. The refusal is `NotDatabase` of it.
pub(crate) fn hold_map<H: Host>(
    store: &mut Store,
    host: &mut H,
    from: u32,
    number: u32,
    map: &mut InventoryPage,
) -> Result<(), Fault>
    requires room { length map.old ≡ store.old.files.page_size }
    requires number { number < most_pages }
    ensures test { (t : Trail) → IsTrue H.tells → IsOpen (H.world host.old) store.old t → EndsAt t.base.image from number map.old → Tested result (not_kind t.base.image inventory_kind (inventory_of t.base.image number)) }
    ensures map { (t : Trail) → IsTrue H.tells → IsOpen (H.world host.old) store.old t → EndsAt t.base.image from number map.old → OnOk result (IsMap t.base.image number map.new) }
    ensures room { length map.new ≡ length map.old }
    ensures looks { Looks H.tells (H.world host.old) (H.world host.new) store.old store.new }
    ensures once { IsTrue H.tells → (H.world host.new).reads ≤ (H.world host.old).reads + 1 }
    ensures cause { CountsDevice result (H.faults host.old) (H.faults host.new) }
    ensures takes_none { IfErr result (λ fault. fault ≢ Memory) }
{
    let page_size = store.page_size();
    let count = store.count();
    if was_read(page_size, from, number, count) {
        return Ok(());
    }
    let (k, _) = covers(page_size, number);
    map.read(store, host, place_of(page_size, k))
}
