// The pages of a database are counted, by their bits and their kinds.
ghost use Rattle.std.specs.Prelude.{◌≡◌, ◌≢◌, ◌+◌, ◌-◌, ◌*◌, ◌<◌, ◌≤◌, ℕ, IsTrue, IfErr, IfOk, OnOk, length, min, not};
ghost use Rattle.nb_fields.specs.Places.{is_page_size, bits_in, inventory_place, most_pages};
ghost use Rattle.nb_fields.specs.Kinds.{inventory_kind};
ghost use Rattle.nb_host.specs.Causes.{CountsDevice, CountsFault};
ghost use Rattle.nb_host.specs.declared.faults.Fault.TheVariants.{Memory};
ghost use Rattle.nb_model.specs.Backups.{all_needed, pages_turn};
ghost use Rattle.nb_model.specs.Causes.{Tested, not_kind, not_of_form};
ghost use Rattle.nb_model.specs.Forms.{is_free_page};
ghost use Rattle.nb_model.specs.Image.{page_at};
ghost use Rattle.nb_model.specs.Outcomes.{Seen};
ghost use Rattle.nb_model.specs.Trail.{Trail};
ghost use Rattle.nb_state.specs.Open.{IsOpen};
ghost use Rattle.nb_state.specs.Looks.{Looks};
ghost use Rattle.nb_state.specs.Does.{Does, Goes};
ghost use Rattle.nb_engine.specs.Put.{Reads};
ghost use Rattle.nb_shown.specs.Counts.{counts_below, inventories_below, sum_of};
ghost use Rattle.nb_shown.specs.Replies.{pages_shown};

use crate::{LARGEST_PAGE, PageCounts};
use nb_engine::Engine;
use nb_fields::{PageKind, bits_in};
use nb_host::{Fault, Host, HostFault, Refusal};
use nb_page::read_head;
use nb_pip::{is_used, place_of};

/// Reads the page inventory page at `place`. The refusal is `NotDatabase`, where there is none.
fn read_map<H: Host>(
    host: &mut H,
    engine: &mut Engine,
    place: u32,
    map: &mut [u8],
) -> Result<(), Fault>
    requires size { IsTrue (is_page_size (length map.old)) }
    requires room { length map.old ≡ engine.old.files.page_size }
    requires low { 0 < place }
    ensures reads { (t : Trail) → IsTrue H.tells → IsOpen (H.world host.old) engine.old t → Reads result t.base.image (not_kind t.base.image inventory_kind place) place map.new }
    ensures looks { Looks H.tells (H.world host.old) (H.world host.new) engine.old engine.new }
    ensures once { IsTrue H.tells → (H.world host.new).reads ≤ (H.world host.old).reads + 1 }
    ensures cause { CountsDevice result (H.faults host.old) (H.faults host.new) }
    ensures takes_none { IfErr result (λ fault. fault ≢ Memory) }
{
    if place >= engine.count() {
        return Err(Fault::Refused(Refusal::NotDatabase { page: place }));
    }
    engine.read(host, place, map)?;
    if read_head(map).kind != PageKind::Inventory.code() {
        return Err(Fault::Refused(Refusal::NotDatabase { page: place }));
    }
    Ok(())
}

/// Counts page `number`. A free page isn't read.
fn count_page<H: Host>(
    host: &mut H,
    engine: &mut Engine,
    number: u32,
    used: bool,
    page: &mut [u8],
    counts: &mut PageCounts,
) -> Result<(), HostFault>
    requires size { IsTrue (is_page_size (length page.old)) }
    requires room { length page.old ≡ engine.old.files.page_size }
    requires few { sum_of counts.old < most_pages }
    ensures counts { (t : Trail) → IsTrue H.tells → IsOpen (H.world host.old) engine.old t → number < length t.base.image → used ≡ not (is_free_page t.base.image number)
        → counts.old ≡ counts_below t.base.image number → OnOk result (counts.new ≡ counts_below t.base.image (number + 1)) }
    ensures sum { OnOk result (sum_of counts.new ≡ sum_of counts.old + 1) }
    ensures looks { Looks H.tells (H.world host.old) (H.world host.new) engine.old engine.new }
    ensures once { IsTrue H.tells → 0 < number → (H.world host.new).reads ≤ (H.world host.old).reads + 1 }
    ensures twice { IsTrue H.tells → (H.world host.new).reads ≤ (H.world host.old).reads + 2 }
    ensures cause { CountsFault result (H.faults host.old) (H.faults host.new) }
{
    if !used {
        counts.add_free();
        return Ok(());
    }
    engine.read(host, number, page)?;
    counts.add_taken(read_head(page).kind);
    Ok(())
}

/// Counts `len` pages from page `first` on, whose bits are the first ones of the inventory page `map`.
fn count_covered<H: Host>(
    host: &mut H,
    engine: &mut Engine,
    first: u32,
    len: u32,
    map: &[u8],
    page: &mut [u8],
    counts: &mut PageCounts,
) -> Result<(), HostFault>
    requires size { IsTrue (is_page_size (length page.old)) }
    requires room { length page.old ≡ engine.old.files.page_size }
    requires map { length map.now ≡ length page.old }
    requires covered { len ≤ bits_in (length page.old) }
    requires most { first + len ≤ most_pages }
    requires sum { sum_of counts.old ≡ first }
    ensures counts { (k : ℕ) (t : Trail) → IsTrue H.tells → IsOpen (H.world host.old) engine.old t → first ≡ k * bits_in (length page.old)
        → map.now ≡ page_at t.base.image (inventory_place (length page.old) k) → first + len ≤ length t.base.image
        → counts.old ≡ counts_below t.base.image first → OnOk result (counts.new ≡ counts_below t.base.image (first + len)) }
    ensures sum { OnOk result (sum_of counts.new ≡ first + len) }
    ensures looks { Looks H.tells (H.world host.old) (H.world host.new) engine.old engine.new }
    ensures once { IsTrue H.tells → 0 < first → (H.world host.new).reads ≤ (H.world host.old).reads + len }
    ensures front { IsTrue H.tells → (H.world host.new).reads ≤ (H.world host.old).reads + len + 1 }
    ensures cause { CountsFault result (H.faults host.old) (H.faults host.new) }
{
    for bit in 0..len {
        count_page(host, engine, first + bit, is_used(map, bit), page, counts)?;
    }
    Ok(())
}

/// Counts the pages from page `first` on that have their bits in inventory page `k`, and answers the first page after them, at most
/// the length. The refusal is `NotDatabase` of the inventory page.
fn count_next<H: Host>(
    host: &mut H,
    engine: &mut Engine,
    k: u32,
    first: u32,
    map: &mut [u8],
    page: &mut [u8],
    counts: &mut PageCounts,
) -> Result<u32, Fault>
    requires size { IsTrue (is_page_size (length page.old)) }
    requires room { length page.old ≡ engine.old.files.page_size }
    requires map { length map.old ≡ length page.old }
    requires first { first ≡ k * bits_in (length page.old) }
    requires below { first < engine.old.files.count }
    requires sum { sum_of counts.old ≡ first }
    ensures test { (t : Trail) → IsTrue H.tells → IsOpen (H.world host.old) engine.old t → Tested result (not_kind t.base.image inventory_kind (inventory_place (length page.old) k)) }
    ensures counts { (t : Trail) → IsTrue H.tells → IsOpen (H.world host.old) engine.old t → counts.old ≡ counts_below t.base.image first → IfOk result (λ end. counts.new ≡ counts_below t.base.image end) }
    ensures end { IfOk result (λ end. end ≡ min engine.old.files.count (first + bits_in (length page.old))) }
    ensures sum { IfOk result (λ end. sum_of counts.new ≡ end) }
    ensures looks { Looks H.tells (H.world host.old) (H.world host.new) engine.old engine.new }
    ensures once { IsTrue H.tells → 0 < first → (H.world host.new).reads ≤ (H.world host.old).reads + 1 + (min engine.old.files.count (first + bits_in (length page.old)) - first) }
    ensures front { IsTrue H.tells → (H.world host.new).reads ≤ (H.world host.old).reads + 2 + (min engine.old.files.count (first + bits_in (length page.old)) - first) }
    ensures cause { CountsDevice result (H.faults host.old) (H.faults host.new) }
    ensures takes_none { IfErr result (λ fault. fault ≢ Memory) }
{
    let size = engine.page_size();
    let end = engine.count().min(first + bits_in(size));
    read_map(host, engine, place_of(size, k), map)?;
    count_covered(host, engine, first, end - first, map, page, counts)?;
    Ok(end)
}

/// Counts all pages, one inventory page after the other.
fn count_all<H: Host>(
    host: &mut H,
    engine: &mut Engine,
    map: &mut [u8],
    page: &mut [u8],
) -> Result<PageCounts, Fault>
    requires size { IsTrue (is_page_size (length page.old)) }
    requires room { length page.old ≡ engine.old.files.page_size }
    requires map { length map.old ≡ length page.old }
    ensures test { (t : Trail) → IsTrue H.tells → IsOpen (H.world host.old) engine.old t → Tested result (not_of_form (all_needed t.base.image)) }
    ensures counts { (t : Trail) → IsTrue H.tells → IsOpen (H.world host.old) engine.old t → IfOk result (λ counts. counts ≡ counts_below t.base.image (length t.base.image)) }
    ensures all { IfOk result (λ counts. sum_of counts ≡ engine.old.files.count) }
    ensures looks { Looks H.tells (H.world host.old) (H.world host.new) engine.old engine.new }
    ensures once { IsTrue H.tells → (H.world host.new).reads ≤ (H.world host.old).reads + engine.old.files.count + inventories_below engine.old.files.page_size engine.old.files.count + 1 }
    ensures cause { CountsDevice result (H.faults host.old) (H.faults host.new) }
    ensures takes_none { IfErr result (λ fault. fault ≢ Memory) }
{
    let count = engine.count();
    let mut counts = PageCounts::none();
    let mut k = 0;
    let mut first = 0;
    while first < count {
        first = count_next(host, engine, k, first, map, page, &mut counts)?;
        k += 1;
    }
    Ok(counts)
}

/// How many pages of the database as it is seen are taken, by their kinds, and how many are free. Each taken page takes one read at
/// most, page 0 two, and each inventory page one more for its bits. It changes nothing but which pages are in memory.
///
/// The refusal is `NotDatabase` of the first inventory page that isn't one.
pub fn count_pages<H: Host>(host: &mut H, engine: &mut Engine) -> Result<PageCounts, Fault>
    ensures turn { (s : Seen) (t : Trail) → IsTrue H.tells → t.base ≡ s.base → IsOpen (H.world host.old) engine.old t
        → Does pages_shown result (H.world host.old) (H.world host.new) engine.old engine.new t (pages_turn s) }
    ensures all { IfOk result (λ counts. sum_of counts ≡ engine.old.files.count) }
    ensures looks { Looks H.tells (H.world host.old) (H.world host.new) engine.old engine.new }
    ensures goes { Goes engine.old engine.new }
    ensures once { IsTrue H.tells → (H.world host.new).reads ≤ (H.world host.old).reads + engine.old.files.count + inventories_below engine.old.files.page_size engine.old.files.count + 1 }
    ensures cause { CountsDevice result (H.faults host.old) (H.faults host.new) }
    ensures takes_none { IfErr result (λ fault. fault ≢ Memory) }
{
    let mut map = [0u8; LARGEST_PAGE];
    let mut page = [0u8; LARGEST_PAGE];
    let size = engine.page_size() as usize;
    let counts = count_all(host, engine, &mut map[..size], &mut page[..size])?;
    Ok(counts)
}
