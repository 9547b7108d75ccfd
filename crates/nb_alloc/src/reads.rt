// Pages of an open database are read, and tested as far as a statement needs it. Nothing changes.
ghost use Rattle.std.specs.Prelude.{◌≡◌, ◌≢◌, ◌+◌, ◌<◌, ◌≤◌, IsTrue, IfErr, IfOk, OnOk, length};
ghost use Rattle.nb_fields.specs.Kinds.{code_of, inventory_kind};
ghost use Rattle.nb_fields.specs.Places.{is_page_size, most_pages};
ghost use Rattle.nb_host.specs.declared.faults.Fault.TheVariants.{Memory};
ghost use Rattle.nb_host.specs.Causes.{CountsDevice};
ghost use Rattle.nb_model.specs.Causes.{Tested, not_kind, not_raw};
ghost use Rattle.nb_model.specs.Forms.{inventory_of, is_free_page};
ghost use Rattle.nb_model.specs.Trail.{Trail};
ghost use Rattle.nb_state.specs.Open.{IsOpen};
ghost use Rattle.nb_state.specs.Looks.{Looks};
ghost use Rattle.nb_alloc.specs.Data.{not_data};
ghost use Rattle.nb_alloc.specs.Put.{Reads, not_taken};

use crate::pages::InventoryPage;
use nb_fields::PageKind;
use nb_fields::layouts::data;
use nb_host::{Fault, Host, Refusal};
use nb_page::read_head;
use nb_pip::{covers, place_of};
use nb_state::Store;

/// Reads page `place`, which has to be of that kind, into `into`, which has the size of a page. It takes one read at most, and of page 0 two; it
/// changes nothing but which pages are in memory, and wants no memory.
///
/// The refusal is `NotDatabase` of the page, where it is past the end or of another kind. What `into` holds after an error isn't said.
pub fn read_system<H: Host>(
    store: &mut Store,
    host: &mut H,
    place: u32,
    kind: PageKind,
    into: &mut [u8],
) -> Result<(), Fault>
    requires size { IsTrue (is_page_size (length into.old)) }
    requires room { length into.old ≡ store.old.files.page_size }
    ensures reads { (t : Trail) → IsTrue H.tells → IsOpen (H.world host.old) store.old t → Reads result t.base.image (not_kind t.base.image (code_of kind) place) place into.new }
    ensures below { OnOk result (place < store.old.files.count) }
    ensures looks { Looks H.tells (H.world host.old) (H.world host.new) store.old store.new }
    ensures once { IsTrue H.tells → 0 < place → (H.world host.new).reads ≤ (H.world host.old).reads + 1 }
    ensures cause { CountsDevice result (H.faults host.old) (H.faults host.new) }
    ensures takes_none { IfErr result (λ fault. fault ≢ Memory) }
{
    if place >= store.count() {
        return Err(Fault::Refused(Refusal::NotDatabase { page: place }));
    }
    store.read(host, place, into)?;
    if read_head(into).kind != kind.code() {
        return Err(Fault::Refused(Refusal::NotDatabase { page: place }));
    }
    Ok(())
}

/// Reads page `number`, which has to be a data page of that owner, into `into`, which has the size of a page. It takes one read at most; it
/// changes nothing but which pages are in memory, and wants no memory.
///
/// The refusal is `NotDatabase` of the page, where it is past the end, of another kind, or of another owner. What `into` holds after an error
/// isn't said.
pub fn read_data<H: Host>(
    store: &mut Store,
    host: &mut H,
    number: u32,
    owner: u32,
    into: &mut [u8],
) -> Result<(), Fault>
    requires size { IsTrue (is_page_size (length into.old)) }
    requires room { length into.old ≡ store.old.files.page_size }
    ensures reads { (t : Trail) → IsTrue H.tells → IsOpen (H.world host.old) store.old t → Reads result t.base.image (not_data t.base.image owner number) number into.new }
    ensures low { OnOk result (0 < number) }
    ensures high { OnOk result (number < most_pages) }
    ensures below { OnOk result (number < store.old.files.count) }
    ensures looks { Looks H.tells (H.world host.old) (H.world host.new) store.old store.new }
    ensures once { IsTrue H.tells → (H.world host.new).reads ≤ (H.world host.old).reads + 1 }
    ensures cause { CountsDevice result (H.faults host.old) (H.faults host.new) }
    ensures takes_none { IfErr result (λ fault. fault ≢ Memory) }
{
    // A page that is read is below the length, and so below the most pages that there may be.
    let _count = store.count();
    // Page 0 is the header, whatever the host gives for it.
    if number == 0 {
        return Err(Fault::Refused(Refusal::NotDatabase { page: number }));
    }
    read_system(store, host, number, PageKind::Data, into)?;
    if data::Owner::get(into) != u64::from(owner) {
        return Err(Fault::Refused(Refusal::NotDatabase { page: number }));
    }
    Ok(())
}

/// Whether the inventory page of page `number` says that it is free. It takes one read at most, changes nothing but which pages are in memory,
/// and wants no memory. The refusal is `NotDatabase` of the inventory page.
pub fn is_page_free<H: Host>(
    store: &mut Store,
    host: &mut H,
    number: u32,
    map: &mut InventoryPage,
) -> Result<bool, Fault>
    requires room { length map.old ≡ store.old.files.page_size }
    requires number { number < most_pages }
    ensures test { (t : Trail) → IsTrue H.tells → IsOpen (H.world host.old) store.old t → Tested result (not_kind t.base.image inventory_kind (inventory_of t.base.image number)) }
    ensures value { (t : Trail) → IsTrue H.tells → IsOpen (H.world host.old) store.old t → IfOk result (λ free. free ≡ is_free_page t.base.image number) }
    ensures room { length map.new ≡ length map.old }
    ensures looks { Looks H.tells (H.world host.old) (H.world host.new) store.old store.new }
    ensures once { IsTrue H.tells → (H.world host.new).reads ≤ (H.world host.old).reads + 1 }
    ensures cause { CountsDevice result (H.faults host.old) (H.faults host.new) }
    ensures takes_none { IfErr result (λ fault. fault ≢ Memory) }
{
    let page_size = store.page_size();
    let (k, bit) = covers(page_size, number);
    map.read(store, host, place_of(page_size, k))?;
    Ok(!map.is_used(bit))
}

/// Tests that page `number` is taken. The refusals are `NotDatabase` of its inventory page, and `NotAllocated`.
fn check_taken<H: Host>(
    store: &mut Store,
    host: &mut H,
    number: u32,
    map: &mut InventoryPage,
) -> Result<(), Fault>
    requires room { length map.old ≡ store.old.files.page_size }
    requires number { number < most_pages }
    ensures test { (t : Trail) → IsTrue H.tells → IsOpen (H.world host.old) store.old t → Tested result (not_taken t.base.image number) }
    ensures room { length map.new ≡ length map.old }
    ensures looks { Looks H.tells (H.world host.old) (H.world host.new) store.old store.new }
    ensures once { IsTrue H.tells → (H.world host.new).reads ≤ (H.world host.old).reads + 1 }
    ensures cause { CountsDevice result (H.faults host.old) (H.faults host.new) }
    ensures takes_none { IfErr result (λ fault. fault ≢ Memory) }
{
    let free = is_page_free(store, host, number, map)?;
    if free {
        return Err(Fault::Refused(Refusal::NotAllocated { page: number }));
    }
    Ok(())
}

/// Reads page `number`, which has to be a taken raw page, into `page`, which has the size of a page; `map` is room for its inventory page. It
/// takes two reads at most, and of page 0 three; it changes nothing but which pages are in memory, and wants no memory.
///
/// The refusals are `PageRange`, `NotDatabase` of its inventory page, `NotAllocated` and `SystemPage`, in this order. What `page` holds after
/// an error isn't said.
pub fn read_raw<H: Host>(
    store: &mut Store,
    host: &mut H,
    number: u32,
    page: &mut [u8],
    map: &mut InventoryPage,
) -> Result<(), Fault>
    requires size { IsTrue (is_page_size (length page.old)) }
    requires page_room { length page.old ≡ store.old.files.page_size }
    requires map_room { length map.old ≡ store.old.files.page_size }
    ensures reads { (t : Trail) → IsTrue H.tells → IsOpen (H.world host.old) store.old t → Reads result t.base.image (not_raw t.base.image number) number page.new }
    ensures below { OnOk result (number < most_pages) }
    ensures inside { OnOk result (number < store.old.files.count) }
    ensures room { length map.new ≡ length map.old }
    ensures looks { Looks H.tells (H.world host.old) (H.world host.new) store.old store.new }
    ensures twice { IsTrue H.tells → 0 < number → (H.world host.new).reads ≤ (H.world host.old).reads + 2 }
    ensures thrice { IsTrue H.tells → (H.world host.new).reads ≤ (H.world host.old).reads + 3 }
    ensures cause { CountsDevice result (H.faults host.old) (H.faults host.new) }
    ensures takes_none { IfErr result (λ fault. fault ≢ Memory) }
{
    let count = store.count();
    if number >= count {
        return Err(Fault::Refused(Refusal::PageRange {
            page: number,
            count,
        }));
    }
    check_taken(store, host, number, map)?;
    store.read(host, number, page)?;
    if read_head(page).kind != PageKind::Raw.code() {
        return Err(Fault::Refused(Refusal::SystemPage { page: number }));
    }
    Ok(())
}
