// A pass over all pages, in rising order. Nothing changes.
ghost use Rattle.std.specs.Prelude.{◌≡◌, ◌+◌, ◌-◌, ◌*◌, ◌/◌, ◌<◌, ◌≤◌, true, false, IsTrue, OnOk, length};
ghost use Rattle.nb_fields.specs.Places.{is_page_size, bits_in, most_pages};
ghost use Rattle.nb_host.specs.Causes.{CountsFault};
ghost use Rattle.nb_model.specs.Image.{Image, page_at};
ghost use Rattle.nb_model.specs.Trail.{Trail};
ghost use Rattle.nb_state.specs.Open.{IsOpen};
ghost use Rattle.nb_state.specs.Looks.{Looks};
ghost use Rattle.nb_model.specs.Facts.{covered};
ghost use Rattle.nb_check.specs.Passes.{IsOf, IsFirstBelow, HoldsTaken, AreSized, IsMapOf, HasEntryOf};
ghost use Rattle.nb_check.specs.Sets.{room_of};

use crate::facts::{Broken, Extent, fact_at, fact_past, first_of};
use crate::set::PageSet;
use nb_engine::Engine;
use nb_fields::{PageKind, bits_in, is_inventory_place, is_scn_place};
use nb_host::{Host, HostFault};
use nb_page::read_head;
use nb_pip::is_used;

/// What a pass has found so far.
#[derive(Drop)]
pub(crate) struct Found {
    /// The first fact that is broken, and the lowest page that breaks it.
    pub(crate) broken: Option<Broken>,
    /// The data pages that are taken.
    pub(crate) taken: PageSet,
}

/// Looks at page `number`, one below the length, with its inventory pages of both kinds.
fn look_at(found: &mut Found, extent: Extent, number: u32, page: &[u8], map: &[u8], entries: &[u8])
    requires size { IsTrue (is_page_size (length page.now)) }
    requires map { length map.now ≡ length page.now }
    requires entries { length entries.now ≡ length page.now }
    requires below { number < extent.count }
    requires most { extent.count ≤ most_pages }
    requires room { extent.count ≤ room_of found.old.taken }
    ensures broken { (image : Image) → IsOf image (length page.now) extent → page.now ≡ page_at image number → HasEntryOf image number entries.now
        → IsFirstBelow image number found.old.broken → IsFirstBelow image (number + 1) found.new.broken }
    ensures taken { (image : Image) → IsOf image (length page.now) extent → page.now ≡ page_at image number → IsMapOf image number map.now → 1 < length image
        → HoldsTaken image number found.old.taken → HoldsTaken image (number + 1) found.new.taken }
    ensures room { length found.new.taken ≡ length found.old.taken }
{
    let fact = fact_at(extent, number, page, entries);
    found.broken = first_of(found.broken, fact, number);
    let bit = number % bits_in(page.len() as u32);
    if read_head(page).kind != PageKind::Data.code() {
        return;
    }
    if !is_used(map, bit) {
        return;
    }
    found.taken.insert(number);
}

/// Reads page `number`, one after page 0, where the database has it.
fn read_there<H: Host>(
    host: &mut H,
    engine: &mut Engine,
    number: u32,
    into: &mut [u8],
) -> Result<(), HostFault>
    requires room { length into.old ≡ engine.old.files.page_size }
    requires low { 0 < number }
    ensures page { (t : Trail) → IsTrue H.tells → IsOpen (H.world host.old) engine.old t → number < length t.base.image → OnOk result (into.new ≡ page_at t.base.image number) }
    ensures looks { Looks H.tells (H.world host.old) (H.world host.new) engine.old engine.new }
    ensures once { IsTrue H.tells → (H.world host.new).reads ≤ (H.world host.old).reads + 1 }
    ensures cause { CountsFault result (H.faults host.old) (H.faults host.new) }
{
    if number >= engine.count() {
        return Ok(());
    }
    engine.read(host, number, into)
}

/// Reads the first inventory pages of both kinds, where the database has them.
fn read_first<H: Host>(
    host: &mut H,
    engine: &mut Engine,
    map: &mut [u8],
    entries: &mut [u8],
) -> Result<(), HostFault>
    requires map { length map.old ≡ engine.old.files.page_size }
    requires entries { length entries.old ≡ engine.old.files.page_size }
    ensures map { (t : Trail) → IsTrue H.tells → IsOpen (H.world host.old) engine.old t → OnOk result (IsMapOf t.base.image 0 map.new) }
    ensures entries { (t : Trail) → IsTrue H.tells → IsOpen (H.world host.old) engine.old t → OnOk result (HasEntryOf t.base.image 0 entries.new) }
    ensures looks { Looks H.tells (H.world host.old) (H.world host.new) engine.old engine.new }
    ensures once { IsTrue H.tells → (H.world host.new).reads ≤ (H.world host.old).reads + 2 }
    ensures cause { CountsFault result (H.faults host.old) (H.faults host.new) }
{
    // Inventory pages are counted by the size of a page, which is one of six.
    let _size = engine.page_size();
    read_there(host, engine, 1, map)?;
    read_there(host, engine, 2, entries)?;
    Ok(())
}

/// Keeps a page where it is wanted.
fn keep_wanted(wanted: bool, page: &[u8], kept: &mut [u8])
    requires { length kept.old ≡ length page.now }
    ensures new { wanted ≡ true → kept.new ≡ page.now }
    ensures old { wanted ≡ false → kept.new ≡ kept.old }
{
    if wanted {
        kept.copy_from_slice(page);
    }
}

/// Reads and looks at page `number`. `map` is the page inventory page with its bit, and after the call with that of the next page.
/// `entries` is the SCN page with the entry of the page before, and after the call with that of this one: a system page comes before
/// the pages that it speaks of, or is the first of them.
fn pass_page<H: Host>(
    host: &mut H,
    engine: &mut Engine,
    number: u32,
    page: &mut [u8],
    map: &mut [u8],
    entries: &mut [u8],
    found: &mut Found,
) -> Result<(), HostFault>
    requires size { IsTrue (is_page_size (length page.old)) }
    requires room { length page.old ≡ engine.old.files.page_size }
    requires map { length map.old ≡ length page.old }
    requires entries { length entries.old ≡ length page.old }
    requires below { number < engine.old.files.count }
    requires most { engine.old.files.count ≤ most_pages }
    requires fits { engine.old.files.count ≤ room_of found.old.taken }
    ensures broken { (t : Trail) → IsTrue H.tells → IsOpen (H.world host.old) engine.old t → HasEntryOf t.base.image (number - 1) entries.old
        → IsFirstBelow t.base.image number found.old.broken → OnOk result (IsFirstBelow t.base.image (number + 1) found.new.broken) }
    ensures taken { (t : Trail) → IsTrue H.tells → IsOpen (H.world host.old) engine.old t → IsMapOf t.base.image number map.old → 1 < length t.base.image
        → HoldsTaken t.base.image number found.old.taken → OnOk result (HoldsTaken t.base.image (number + 1) found.new.taken) }
    ensures map { (t : Trail) → IsTrue H.tells → IsOpen (H.world host.old) engine.old t → IsMapOf t.base.image number map.old → OnOk result (IsMapOf t.base.image (number + 1) map.new) }
    ensures entries { (t : Trail) → IsTrue H.tells → IsOpen (H.world host.old) engine.old t → HasEntryOf t.base.image (number - 1) entries.old → OnOk result (HasEntryOf t.base.image number entries.new) }
    ensures sized { (t : Trail) → IsTrue H.tells → IsOpen (H.world host.old) engine.old t → OnOk result (length (page_at t.base.image number) ≡ length page.old) }
    ensures taken_room { length found.new.taken ≡ length found.old.taken }
    ensures looks { Looks H.tells (H.world host.old) (H.world host.new) engine.old engine.new }
    ensures once { IsTrue H.tells → 0 < number → (H.world host.new).reads ≤ (H.world host.old).reads + 1 }
    ensures twice { IsTrue H.tells → (H.world host.new).reads ≤ (H.world host.old).reads + 2 }
    ensures cause { CountsFault result (H.faults host.old) (H.faults host.new) }
{
    let size = engine.page_size();
    let extent = Extent {
        count: engine.count(),
        scn: engine.store().scn(),
    };
    engine.read(host, number, page)?;
    keep_wanted(is_scn_place(size, number), page, entries);
    look_at(found, extent, number, page, map, entries);
    keep_wanted(is_inventory_place(size, number), page, map);
    Ok(())
}

/// Looks at the bits and the entries of pages past the end, of which `map` and `entries` are the inventory pages.
fn look_past(found: &mut Found, extent: Extent, map: &[u8], entries: &[u8])
    requires size { IsTrue (is_page_size (length map.now)) }
    requires entries { length entries.now ≡ length map.now }
    requires some { 1 < extent.count }
    requires most { extent.count ≤ most_pages }
    ensures broken { (image : Image) → IsOf image (length map.now) extent → IsMapOf image extent.count map.now → HasEntryOf image (extent.count - 1) entries.now
        → IsFirstBelow image extent.count found.old.broken → IsFirstBelow image ((extent.count / bits_in (length map.now) + 1) * bits_in (length map.now)) found.new.broken }
    ensures taken { found.new.taken ≡ found.old.taken }
{
    let bits = bits_in(map.len() as u32);
    let end = (extent.count / bits + 1) * bits;
    for number in extent.count..end {
        let fact = fact_past(extent, number, map, entries);
        found.broken = first_of(found.broken, fact, number);
    }
}

/// Passes over the pages below the length.
fn pass_pages<H: Host>(
    host: &mut H,
    engine: &mut Engine,
    page: &mut [u8],
    map: &mut [u8],
    entries: &mut [u8],
    found: &mut Found,
) -> Result<(), HostFault>
    requires size { IsTrue (is_page_size (length page.old)) }
    requires room { length page.old ≡ engine.old.files.page_size }
    requires map { length map.old ≡ length page.old }
    requires entries { length entries.old ≡ length page.old }
    requires fits { engine.old.files.count ≤ room_of found.old.taken }
    ensures broken { (t : Trail) → IsTrue H.tells → IsOpen (H.world host.old) engine.old t → HasEntryOf t.base.image 0 entries.old → IsFirstBelow t.base.image 0 found.old.broken
        → OnOk result (IsFirstBelow t.base.image engine.old.files.count found.new.broken) }
    ensures taken { (t : Trail) → IsTrue H.tells → IsOpen (H.world host.old) engine.old t → IsMapOf t.base.image 0 map.old → 1 < length t.base.image → HoldsTaken t.base.image 0 found.old.taken
        → OnOk result (HoldsTaken t.base.image engine.old.files.count found.new.taken) }
    ensures map { (t : Trail) → IsTrue H.tells → IsOpen (H.world host.old) engine.old t → IsMapOf t.base.image 0 map.old → OnOk result (IsMapOf t.base.image engine.old.files.count map.new) }
    ensures entries { (t : Trail) → IsTrue H.tells → IsOpen (H.world host.old) engine.old t → HasEntryOf t.base.image 0 entries.old → OnOk result (HasEntryOf t.base.image (engine.old.files.count - 1) entries.new) }
    ensures sizes { (t : Trail) → IsTrue H.tells → IsOpen (H.world host.old) engine.old t → OnOk result (AreSized t.base.image engine.old.files.count (length page.old)) }
    ensures taken_room { length found.new.taken ≡ length found.old.taken }
    ensures looks { Looks H.tells (H.world host.old) (H.world host.new) engine.old engine.new }
    ensures once { IsTrue H.tells → (H.world host.new).reads ≤ (H.world host.old).reads + engine.old.files.count + 1 }
    ensures cause { CountsFault result (H.faults host.old) (H.faults host.new) }
{
    let count = engine.count();
    for number in 0..count {
        pass_page(host, engine, number, page, map, entries, found)?;
    }
    Ok(())
}

/// Passes over all pages, and then over the bits and the entries of pages past the end. Each page takes one read at most, page 0 two, and
/// the first two inventory pages one more.
pub(crate) fn pass<H: Host>(
    host: &mut H,
    engine: &mut Engine,
    page: &mut [u8],
    map: &mut [u8],
    entries: &mut [u8],
    found: &mut Found,
) -> Result<(), HostFault>
    requires size { IsTrue (is_page_size (length page.old)) }
    requires room { length page.old ≡ engine.old.files.page_size }
    requires map { length map.old ≡ length page.old }
    requires entries { length entries.old ≡ length page.old }
    requires fits { engine.old.files.count ≤ room_of found.old.taken }
    ensures broken { (t : Trail) → IsTrue H.tells → IsOpen (H.world host.old) engine.old t → IsFirstBelow t.base.image 0 found.old.broken
        → OnOk result (IsFirstBelow t.base.image (covered t.base.image) found.new.broken) }
    ensures taken { (t : Trail) → IsTrue H.tells → IsOpen (H.world host.old) engine.old t → 1 < length t.base.image → HoldsTaken t.base.image 0 found.old.taken
        → OnOk result (HoldsTaken t.base.image (length t.base.image) found.new.taken) }
    ensures sizes { (t : Trail) → IsTrue H.tells → IsOpen (H.world host.old) engine.old t → OnOk result (AreSized t.base.image engine.old.files.count (length page.old)) }
    ensures taken_room { length found.new.taken ≡ length found.old.taken }
    ensures looks { Looks H.tells (H.world host.old) (H.world host.new) engine.old engine.new }
    ensures once { IsTrue H.tells → (H.world host.new).reads ≤ (H.world host.old).reads + engine.old.files.count + 3 }
    ensures cause { CountsFault result (H.faults host.old) (H.faults host.new) }
{
    let extent = Extent {
        count: engine.count(),
        scn: engine.store().scn(),
    };
    read_first(host, engine, map, entries)?;
    pass_pages(host, engine, page, map, entries, found)?;
    if extent.count <= 1 {
        return Ok(());
    }
    look_past(found, extent, map, entries);
    Ok(())
}
