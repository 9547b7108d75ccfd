// The facts that sound inventories have, tested of one page.
ghost use Rattle.std.specs.Prelude.{◌≡◌, ◌+◌, ◌-◌, ◌*◌, ◌/◌, ◌<◌, ◌≤◌, ◌&&◌, ◌||◌, ◌==◌, not, IsTrue, Some, length};
ghost use Rattle.nb_fields.specs.Page.{stamp_of};
ghost use Rattle.nb_fields.specs.Places.{is_page_size, is_inventory_place, is_scn_place, bits_in, most_pages};
ghost use Rattle.nb_model.specs.Image.{Image, page_at};
ghost use Rattle.nb_model.specs.Facts.{breaks};
ghost use Rattle.nb_check.specs.Passes.{IsOf, IsLowestAt, IsFirstBelow, IsMapOf, HasEntryOf};
ghost use Rattle.nb_model.specs.declared.fact.Fact.TheVariants.{WrongEntry};

use nb_fields::{PageKind, are_zeros, bits_in, entries_in, is_inventory_place, is_scn_place};
use nb_model::Fact;
use nb_page::read_head;
use nb_pip::is_used;

/// A fact that is broken, and a page that breaks it.
#[derive(Clone, Copy, Debug, PartialEq, Eq)]
pub(crate) struct Broken {
    pub(crate) fact: Fact,
    pub(crate) page: u32,
}

/// How many pages a database has, and its current SCN.
#[derive(Clone, Copy, Debug, PartialEq, Eq)]
pub(crate) struct Extent {
    pub(crate) count: u32,
    pub(crate) scn: u32,
}

/// The first that is broken, where page `page`, which is behind all those of `broken`, breaks `fact`.
pub(crate) fn first_of(broken: Option<Broken>, fact: Option<Fact>, page: u32) -> Option<Broken>
    ensures { (image : Image) → IsFirstBelow image page broken → IsLowestAt image page fact → IsFirstBelow image (page + 1) result }
{
    match fact {
        None => broken,
        Some(fact) => Some(first_with(broken, Broken { fact, page })),
    }
}

/// The first that is broken, where one more is, at a page after all those of `broken`.
fn first_with(broken: Option<Broken>, here: Broken) -> Broken
    ensures { (image : Image) → IsFirstBelow image here.page broken → IsLowestAt image here.page (Some here.fact) → IsFirstBelow image (here.page + 1) (Some result) }
{
    match broken {
        None => here,
        Some(first) => {
            if first.fact.number() <= here.fact.number() {
                first
            } else {
                here
            }
        }
    }
}

/// Whether a page at a place of its own has another kind than is wanted there.
fn is_other(place: bool, kind: u8, wanted: u8) -> bool
    ensures { result ≡ (place && not (kind == wanted)) }
{
    place && kind != wanted
}

/// Whether a system page has to stand at page `number` and that kind is another.
fn lacks_system(size: u32, number: u32, kind: u8) -> bool
    requires size { IsTrue (is_page_size size) }
    requires number { number < most_pages }
    ensures { result ≡ ((is_inventory_place size number && not (kind == 2)) || (is_scn_place size number && not (kind == 10))) }
{
    let map = is_other(
        is_inventory_place(size, number),
        kind,
        PageKind::Inventory.code(),
    );
    let entries = is_other(
        is_scn_place(size, number),
        kind,
        PageKind::ScnInventory.code(),
    );
    map || entries
}

/// Whether page `number`, one below the length with that stamp, has an SCN entry that is below it or above the current SCN, or that
/// isn't there. The entry is looked for in `entries`, its SCN page.
fn has_wrong_entry(extent: Extent, number: u32, stamp: u32, entries: &[u8]) -> bool
    requires size { IsTrue (is_page_size (length entries.now)) }
    requires below { number < extent.count }
    requires most { extent.count ≤ most_pages }
    ensures { (image : Image) → IsOf image (length entries.now) extent → stamp ≡ stamp_of (page_at image number) → HasEntryOf image number entries.now → result ≡ breaks image WrongEntry number }
{
    let size = entries.len() as u32;
    if number == 0 {
        return false;
    }
    if is_scn_place(size, number) {
        return false;
    }
    // A database of two pages has no SCN page.
    if extent.count <= 2 {
        return true;
    }
    let (_k, index) = nb_scn::covers(size, number);
    let entry = nb_scn::entry(entries, index);
    if entry < stamp {
        return true;
    }
    entry > extent.scn
}

/// The lowest fact that page `number`, one below the length, breaks. Its SCN entry is looked for in `entries`, its SCN page.
pub(crate) fn fact_at(extent: Extent, number: u32, page: &[u8], entries: &[u8]) -> Option<Fact>
    requires size { IsTrue (is_page_size (length page.now)) }
    requires entries { length entries.now ≡ length page.now }
    requires below { number < extent.count }
    requires most { extent.count ≤ most_pages }
    ensures { (image : Image) → IsOf image (length page.now) extent → page.now ≡ page_at image number → HasEntryOf image number entries.now → IsLowestAt image number result }
{
    let head = read_head(page);
    if are_zeros(page) {
        return Some(Fact::BlankPage);
    }
    if lacks_system(page.len() as u32, number, head.kind) {
        return Some(Fact::SystemPlace);
    }
    if head.scn > extent.scn {
        return Some(Fact::LateStamp);
    }
    if has_wrong_entry(extent, number, head.scn, entries) {
        return Some(Fact::WrongEntry);
    }
    if number > 0 {
        return None;
    }
    if head.scn != extent.scn {
        return Some(Fact::HeaderStamp);
    }
    None
}

/// Whether page `number`, one at or past the end, has an SCN entry above the current SCN. `entries` is the last SCN page below the
/// length.
fn has_late_entry(extent: Extent, number: u32, entries: &[u8]) -> bool
    requires size { IsTrue (is_page_size (length entries.now)) }
    requires some { 0 < extent.count }
    requires past { extent.count ≤ number }
    ensures { (image : Image) → IsOf image (length entries.now) extent → HasEntryOf image (extent.count - 1) entries.now → result ≡ breaks image WrongEntry number }
{
    let each = entries_in(entries.len() as u32);
    // A database of two pages has no SCN page.
    if extent.count <= 2 {
        return false;
    }
    if number / each != (extent.count - 1) / each {
        return false;
    }
    nb_scn::entry(entries, number % each) > extent.scn
}

/// The lowest fact that page `number`, one at or past the end, breaks. `map` is the page inventory page with its bit, and `entries` the
/// last SCN page below the length.
pub(crate) fn fact_past(extent: Extent, number: u32, map: &[u8], entries: &[u8]) -> Option<Fact>
    requires size { IsTrue (is_page_size (length map.now)) }
    requires entries { length entries.now ≡ length map.now }
    requires some { 1 < extent.count }
    requires past { extent.count ≤ number }
    requires covered { number < (extent.count / bits_in (length map.now) + 1) * bits_in (length map.now) }
    ensures { (image : Image) → IsOf image (length map.now) extent → IsMapOf image number map.now → HasEntryOf image (extent.count - 1) entries.now → IsLowestAt image number result }
{
    if is_used(map, number % bits_in(map.len() as u32)) {
        return Some(Fact::TakenPast);
    }
    if has_late_entry(extent, number, entries) {
        return Some(Fact::WrongEntry);
    }
    None
}
