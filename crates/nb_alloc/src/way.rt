// The search for new pages, told before the first of them is made. Nothing changes.
ghost use Rattle.std.specs.Prelude.{◌≡◌, ◌≢◌, ℕ, ◌+◌, ◌-◌, ◌*◌, ◌/◌, ◌<◌, ◌≤◌, ◌==◌, ◌&&◌, nat_lt, true, false, IsTrue, IfErr, IfOk, OnOk, length};
ghost use Rattle.nb_fields.specs.Places.{is_page_size, bits_in, inventory_place, is_system_place, most_pages};
ghost use Rattle.nb_host.specs.declared.faults.Fault.TheVariants.{Memory};
ghost use Rattle.nb_host.specs.Causes.{CountsDevice, CountsFault, FaultCount};
ghost use Rattle.nb_model.specs.Image.{Image};
ghost use Rattle.nb_model.specs.Forms.{inventory_of, is_kind, system_kind, first_not};
ghost use Rattle.nb_model.proofs.OnwardLaws.{IsOnTheWay};
ghost use Rattle.nb_model.specs.Causes.{Tested, not_kind};
ghost use Rattle.nb_model.specs.Trail.{Trail};
ghost use Rattle.nb_model.specs.Way.{next_place, maps_on, entry_on, map_entry_on, own_entry_on, IsMadeBehind, IsFreshBehind};
ghost use Rattle.nb_state.specs.Open.{IsOpen};
ghost use Rattle.nb_state.specs.Looks.{Looks};
ghost use Rattle.nb_alloc.specs.Find.{IsMap, HoldsMap, need_cause};
ghost use Rattle.nb_alloc.specs.Way.{way_cause};
ghost use Rattle.nb_alloc.specs.Search.{AtKnown, EndsBy};

use crate::behind::Behind;
use crate::find::{FIRST_TO_GIVE, hold_map, is_system_place, next_free};
use crate::pages::{InventoryPage, ScnPage};
use nb_fields::MOST_PAGES;
use nb_host::{Fault, Host, HostFault, Refusal};
use nb_pip::{covers, place_of};
use nb_state::Store;

/// How far a search for new pages has come, on a database to which nothing was written since it began. Places that it went past without their
/// system pages will have them: of those only the last of each kind are asked for again.
#[derive(Drop)]
pub(crate) struct Way {
    /// The page at which it goes on.
    pub(crate) from: u32,
    /// The last place of an SCN page that it went past without the page, or 0.
    pub(crate) made: u32,
    /// The last place of an inventory page that it went past without the page, or 0.
    pub(crate) fresh: u32,
}

impl Way {
    /// The search begins at the first page that may be given.
    pub(crate) fn begin() -> Way
        ensures from { result.from ≡ 5 }
        ensures made { result.made ≡ 0 }
        ensures fresh { result.fresh ≡ 0 }
    {
        Way {
            from: FIRST_TO_GIVE,
            made: 0,
            fresh: 0,
        }
    }
}

/// Where the search comes to next: the lowest free page, or the length. Its inventory page is in `map` then, unless that is about to be
/// made.
///
/// The refusal is `NotDatabase` of the first inventory page up to that of the page which isn't of its kind.
fn find_place<H: Host>(
    store: &mut Store,
    host: &mut H,
    way: &Way,
    map: &mut InventoryPage,
) -> Result<u32, Fault>
    requires room { length map.old ≡ store.old.files.page_size }
    requires from { way.now.from < most_pages }
    ensures test { (t : Trail) → IsTrue H.tells → IsOpen (H.world host.old) store.old t → Tested result (need_cause (first_not t.base.image (maps_on t.base.image way.now.from way.now.fresh (next_place t.base.image way.now.from way.now.fresh)))) }
    ensures value { (t : Trail) → IsTrue H.tells → IsOpen (H.world host.old) store.old t → IfOk result (λ page. page ≡ next_place t.base.image way.now.from way.now.fresh) }
    ensures map { (t : Trail) → IsTrue H.tells → IsOpen (H.world host.old) store.old t → inventory_of t.base.image way.now.from ≢ way.now.fresh → IfOk result (λ page. page < most_pages → IsMap t.base.image page map.new) }
    ensures later { IfOk result (λ page. way.now.from ≤ page) }
    ensures most { IfOk result (λ page. page ≤ most_pages) }
    ensures within { way.now.from ≤ store.old.files.count → IfOk result (λ page. page ≤ store.old.files.count) }
    ensures room { length map.new ≡ length map.old }
    ensures looks { Looks H.tells (H.world host.old) (H.world host.new) store.old store.new }
    ensures once { IsTrue H.tells → IfOk result (λ page. (H.world host.new).reads ≤ (H.world host.old).reads + (page / bits_in store.old.files.page_size + 1 - way.now.from / bits_in store.old.files.page_size) + 1) }
    ensures cause { CountsDevice result (H.faults host.old) (H.faults host.new) }
    ensures takes_none { IfErr result (λ fault. fault ≢ Memory) }
{
    let page_size = store.page_size();
    let from = way.from;
    let fresh = way.fresh;
    let (k, _) = covers(page_size, from);
    let own = place_of(page_size, k);
    if own == fresh {
        return Ok(from);
    }
    let place = next_free(store, host, from, map)?;
    if place >= MOST_PAGES {
        return Ok(place);
    }
    hold_map(store, host, from, place, map)?;
    Ok(place)
}

/// Tests the SCN page that has the entry of page `number`, unless it is the one that is made on the way. The refusal is `NotDatabase` of it.
fn check_unless<H: Host>(
    store: &mut Store,
    host: &mut H,
    number: u32,
    made: u32,
    scn_page: &mut ScnPage,
) -> Result<(), Fault>
    requires room { length scn_page.old ≡ store.old.files.page_size }
    requires low { 0 < number }
    requires number { number < most_pages }
    ensures test { (t : Trail) → IsTrue H.tells → IsOpen (H.world host.old) store.old t → Tested result (need_cause (first_not t.base.image (entry_on t.base.image made number))) }
    ensures room { length scn_page.new ≡ length scn_page.old }
    ensures looks { Looks H.tells (H.world host.old) (H.world host.new) store.old store.new }
    ensures once { IsTrue H.tells → (H.world host.new).reads ≤ (H.world host.old).reads + 1 }
    ensures cause { CountsDevice result (H.faults host.old) (H.faults host.new) }
    ensures takes_none { IfErr result (λ fault. fault ≢ Memory) }
{
    let page_size = store.page_size();
    let (k, _) = nb_scn::covers(page_size, number);
    let place = nb_scn::place_of(page_size, k);
    if place == made {
        return Ok(());
    }
    if nb_scn::is_place(page_size, number) {
        return Ok(());
    }
    scn_page.read(store, host, place)
}

/// Whether a search that goes on at page `from` was at a page before whose bit is in the inventory page `place`.
fn was_asked(page_size: u32, from: u32, place: u32) -> bool
    requires size { IsTrue (is_page_size page_size) }
    requires from { from ≤ most_pages }
    ensures { result ≡ (nat_lt 5 from && place == inventory_place page_size ((from - 1) / bits_in page_size)) }
{
    if from <= FIRST_TO_GIVE {
        return false;
    }
    let (k, _) = covers(page_size, from - 1);
    let before = place_of(page_size, k);
    place == before
}

/// Tests the SCN page that has the entry of the inventory page of page `number`, unless it is made on the way, or the search was at a page of
/// that inventory page before. The refusal is `NotDatabase` of it.
fn check_map_entry<H: Host>(
    store: &mut Store,
    host: &mut H,
    way: &Way,
    number: u32,
    scn_page: &mut ScnPage,
) -> Result<(), Fault>
    requires room { length scn_page.old ≡ store.old.files.page_size }
    requires low { 5 ≤ number }
    requires number { number < most_pages }
    requires from { way.now.from < most_pages }
    ensures test { (t : Trail) → IsTrue H.tells → IsOpen (H.world host.old) store.old t → Tested result (need_cause (first_not t.base.image (map_entry_on t.base.image way.now.from way.now.made number))) }
    ensures room { length scn_page.new ≡ length scn_page.old }
    ensures looks { Looks H.tells (H.world host.old) (H.world host.new) store.old store.new }
    ensures once { IsTrue H.tells → (H.world host.new).reads ≤ (H.world host.old).reads + 1 }
    ensures cause { CountsDevice result (H.faults host.old) (H.faults host.new) }
    ensures takes_none { IfErr result (λ fault. fault ≢ Memory) }
{
    let page_size = store.page_size();
    let (k, _) = covers(page_size, number);
    let place = place_of(page_size, k);
    if was_asked(page_size, way.from, place) {
        return Ok(());
    }
    check_unless(store, host, place, way.made, scn_page)
}

/// Whether a page is of its kind, by how its read ended: it was refused where the page isn't. No read wants memory.
fn was_there(read: Result<(), Fault>) -> Result<bool, HostFault>
    requires { IfErr read (λ fault. fault ≢ Memory) }
    ensures value { (image : Image) (kind place : ℕ) → Tested read (not_kind image kind place) → IfOk result (λ there. there ≡ is_kind image kind place) }
    ensures cause { (old new : FaultCount) → CountsDevice read old new → CountsFault result old new }
{
    match read {
        Ok(()) => Ok(true),
        Err(fault) => match fault {
            Fault::Refused(_) => Ok(false),
            Fault::Device => Err(HostFault),
            Fault::Memory => unreachable!(),
        },
    }
}

/// Whether the system page of that place, of a page inventory or of an SCN inventory, stands there; `map` and `scn_page` are room for it. It
/// takes one read at most where that isn't page 0.
pub fn is_there<H: Host>(
    store: &mut Store,
    host: &mut H,
    place: u32,
    map: &mut InventoryPage,
    scn_page: &mut ScnPage,
) -> Result<bool, HostFault>
    requires map_room { length map.old ≡ store.old.files.page_size }
    requires scn_room { length scn_page.old ≡ store.old.files.page_size }
    requires place { place < most_pages }
    ensures value { (t : Trail) → IsTrue H.tells → IsOpen (H.world host.old) store.old t → IfOk result (λ there. there ≡ is_kind t.base.image (system_kind t.base.image place) place) }
    ensures map_room { length map.new ≡ length map.old }
    ensures scn_room { length scn_page.new ≡ length scn_page.old }
    ensures looks { Looks H.tells (H.world host.old) (H.world host.new) store.old store.new }
    ensures once { IsTrue H.tells → 0 < place → (H.world host.new).reads ≤ (H.world host.old).reads + 1 }
    ensures cause { CountsFault result (H.faults host.old) (H.faults host.new) }
{
    let page_size = store.page_size();
    if nb_pip::is_place(page_size, place) {
        let map_read = map.read(store, host, place);
        return was_there(map_read);
    }
    let scn_read = scn_page.read(store, host, place);
    was_there(scn_read)
}

/// Goes past a place of a system page: where the page doesn't stand there, it will be made, and the SCN page with its entry is tested. The
/// refusal is `NotDatabase` of that.
fn pass<H: Host>(
    store: &mut Store,
    host: &mut H,
    way: &mut Way,
    place: u32,
    map: &mut InventoryPage,
    scn_page: &mut ScnPage,
) -> Result<(), Fault>
    requires map_room { length map.old ≡ store.old.files.page_size }
    requires scn_room { length scn_page.old ≡ store.old.files.page_size }
    requires low { 0 < place }
    requires place { place < most_pages }
    requires system { is_system_place store.old.files.page_size place ≡ true }
    ensures test { (t : Trail) → IsTrue H.tells → IsOpen (H.world host.old) store.old t → Tested result (need_cause (first_not t.base.image (own_entry_on t.base.image way.old.made place))) }
    ensures made { (t : Trail) → IsTrue H.tells → IsOpen (H.world host.old) store.old t → OnOk result (IsMadeBehind t.base.image place way.old.made way.new.made) }
    ensures fresh { (t : Trail) → IsTrue H.tells → IsOpen (H.world host.old) store.old t → OnOk result (IsFreshBehind t.base.image place way.old.fresh way.new.fresh) }
    ensures from { way.new.from ≡ way.old.from }
    ensures map_room { length map.new ≡ length map.old }
    ensures scn_room { length scn_page.new ≡ length scn_page.old }
    ensures looks { Looks H.tells (H.world host.old) (H.world host.new) store.old store.new }
    ensures once { IsTrue H.tells → (H.world host.new).reads ≤ (H.world host.old).reads + 2 }
    ensures cause { CountsDevice result (H.faults host.old) (H.faults host.new) }
    ensures takes_none { IfErr result (λ fault. fault ≢ Memory) }
{
    let page_size = store.page_size();
    let there = is_there(store, host, place, map, scn_page)?;
    if there {
        return Ok(());
    }
    check_unless(store, host, place, way.made, scn_page)?;
    if nb_pip::is_place(page_size, place) {
        way.fresh = place;
        return Ok(());
    }
    way.made = place;
    Ok(())
}

/// Comes to the next page, the lowest free page or the length, and goes past it. It has read and tested all that a new page there changes, and
/// of a system place all that its page changes. Where no system page stands there, its inventory page is in `map` then, unless it is about to
/// be made.
///
/// The refusals are `NotDatabase` of the first page that isn't of its kind, and `Full`, where no page is left.
fn visit<H: Host>(
    store: &mut Store,
    host: &mut H,
    way: &mut Way,
    map: &mut InventoryPage,
    scn_page: &mut ScnPage,
) -> Result<u32, Fault>
    requires map_room { length map.old ≡ store.old.files.page_size }
    requires scn_room { length scn_page.old ≡ store.old.files.page_size }
    requires low { 5 ≤ way.old.from }
    requires from { way.old.from < most_pages }
    ensures test { (t : Trail) → IsTrue H.tells → IsOpen (H.world host.old) store.old t → Tested result (way_cause t.base.image way.old.from way.old.made way.old.fresh) }
    ensures value { (t : Trail) → IsTrue H.tells → IsOpen (H.world host.old) store.old t → IfOk result (λ page. page ≡ next_place t.base.image way.old.from way.old.fresh) }
    ensures made { (t : Trail) → IsTrue H.tells → IsOpen (H.world host.old) store.old t → IfOk result (λ page. IsMadeBehind t.base.image page way.old.made way.new.made) }
    ensures fresh { (t : Trail) → IsTrue H.tells → IsOpen (H.world host.old) store.old t → IfOk result (λ page. IsFreshBehind t.base.image page way.old.fresh way.new.fresh) }
    ensures map { (t : Trail) → IsTrue H.tells → IsOpen (H.world host.old) store.old t → inventory_of t.base.image way.old.from ≢ way.old.fresh → IfOk result (λ page. HoldsMap t.base.image page map.new) }
    ensures from { IfOk result (λ page. way.new.from ≡ page + 1) }
    ensures later { IfOk result (λ page. way.old.from ≤ page) }
    ensures below { IfOk result (λ page. page < most_pages) }
    ensures within { way.old.from ≤ store.old.files.count → IfOk result (λ page. page ≤ store.old.files.count) }
    ensures map_room { length map.new ≡ length map.old }
    ensures scn_room { length scn_page.new ≡ length scn_page.old }
    ensures looks { Looks H.tells (H.world host.old) (H.world host.new) store.old store.new }
    ensures once { IsTrue H.tells → IfOk result (λ page. (H.world host.new).reads ≤ (H.world host.old).reads + (page / bits_in store.old.files.page_size + 1 - way.old.from / bits_in store.old.files.page_size) + 4) }
    ensures fewer { IsTrue H.tells → IfOk result (λ page. is_system_place store.old.files.page_size page ≡ false → (H.world host.new).reads ≤ (H.world host.old).reads + (page / bits_in store.old.files.page_size + 1 - way.old.from / bits_in store.old.files.page_size) + 3) }
    ensures cause { CountsDevice result (H.faults host.old) (H.faults host.new) }
    ensures takes_none { IfErr result (λ fault. fault ≢ Memory) }
{
    let page_size = store.page_size();
    let place = find_place(store, host, way, map)?;
    if place >= MOST_PAGES {
        return Err(Fault::Refused(Refusal::Full { count: MOST_PAGES }));
    }
    check_map_entry(store, host, way, place, scn_page)?;
    if is_system_place(page_size, place) {
        pass(store, host, way, place, map, scn_page)?;
        way.from = place + 1;
        return Ok(place);
    }
    check_unless(store, host, place, way.made, scn_page)?;
    way.from = place + 1;
    Ok(place)
}

/// Goes on after `first`, a page that the search has come to, where a system page stands there: up to the page that the new one will be. What
/// it goes past it tells the page that is written after the search.
///
/// The refusals are `NotDatabase` of the first page that isn't of its kind, and `Full`, where no page is left.
fn go_on<H: Host>(
    store: &mut Store,
    host: &mut H,
    way: &mut Way,
    behind: &mut Behind,
    first: u32,
    map: &mut InventoryPage,
    scn_page: &mut ScnPage,
) -> Result<(), Fault>
    requires map_room { length map.old ≡ store.old.files.page_size }
    requires scn_room { length scn_page.old ≡ store.old.files.page_size }
    requires least { 5 ≤ first }
    requires below { first < most_pages }
    requires from { way.old.from ≡ first + 1 }
    ensures ends { (t : Trail) (start : Image) (begun : ℕ) (before : Behind) → IsTrue H.tells → IsOpen (H.world host.old) store.old t → AtKnown t.base.image start begun first way.old.made way.old.fresh before behind.old
        → EndsBy result t.base.image start way.new.from way.new.made way.new.fresh before behind.new }
    ensures map { (t : Trail) → IsTrue H.tells → IsOpen (H.world host.old) store.old t → HoldsMap t.base.image first map.old → OnOk result (HoldsMap t.base.image first map.new) }
    ensures further { OnOk result (5 ≤ way.new.from) }
    ensures most { OnOk result (way.new.from ≤ most_pages) }
    ensures page { behind.new.page ≡ behind.old.page }
    ensures lost { behind.old.lost ≡ true → behind.new.lost ≡ true }
    ensures map_room { length map.new ≡ length map.old }
    ensures scn_room { length scn_page.new ≡ length scn_page.old }
    ensures looks { Looks H.tells (H.world host.old) (H.world host.new) store.old store.new }
    ensures once { IsTrue H.tells → OnOk result (is_system_place store.old.files.page_size first ≡ true → (H.world host.new).reads + 1 ≤ (H.world host.old).reads + 5 * (way.new.from - way.old.from)) }
    ensures none { IsTrue H.tells → OnOk result (is_system_place store.old.files.page_size first ≡ false → ((H.world host.new).reads ≡ (H.world host.old).reads) × (way.new.from ≡ way.old.from)) }
    ensures cause { CountsDevice result (H.faults host.old) (H.faults host.new) }
    ensures takes_none { IfErr result (λ fault. fault ≢ Memory) }
{
    let page_size = store.page_size();
    // Contracts ask for its range.
    let _count = store.count();
    let mut place = first;
    while is_system_place(page_size, place) {
        behind.pass(way, place);
        let next = place + 1;
        if next >= MOST_PAGES {
            return Err(Fault::Refused(Refusal::Full { count: MOST_PAGES }));
        }
        place = visit(store, host, way, map, scn_page)?;
    }
    Ok(())
}

/// Tests that one new page more may be made, and all that is written for it, after those that were tested before. It answers the page that
/// the search for it comes to first, and goes past the page that it will be. What it goes past it tells the page that is written after the
/// search.
///
/// The refusals are those of the new page: `NotDatabase` of the lowest page that it needs and that isn't of its kind, and `Full`, where no
/// page is left.
pub(crate) fn find_room<H: Host>(
    store: &mut Store,
    host: &mut H,
    way: &mut Way,
    behind: &mut Behind,
    map: &mut InventoryPage,
    scn_page: &mut ScnPage,
) -> Result<u32, Fault>
    requires map_room { length map.old ≡ store.old.files.page_size }
    requires scn_room { length scn_page.old ≡ store.old.files.page_size }
    requires low { 5 ≤ way.old.from }
    requires most { way.old.from ≤ most_pages }
    ensures ends { (t : Trail) (start : Image) → IsTrue H.tells → IsOpen (H.world host.old) store.old t → IsOnTheWay t.base.image start way.old.from way.old.made way.old.fresh
        → EndsBy result t.base.image start way.new.from way.new.made way.new.fresh behind.old behind.new }
    ensures value { (t : Trail) → IsTrue H.tells → IsOpen (H.world host.old) store.old t → IfOk result (λ first. first ≡ next_place t.base.image way.old.from way.old.fresh) }
    ensures map { (t : Trail) → IsTrue H.tells → IsOpen (H.world host.old) store.old t → inventory_of t.base.image way.old.from ≢ way.old.fresh → IfOk result (λ first. HoldsMap t.base.image first map.new) }
    ensures least { IfOk result (λ first. 5 ≤ first) }
    ensures below { IfOk result (λ first. first < most_pages) }
    ensures within { way.old.from ≤ store.old.files.count → IfOk result (λ first. first ≤ store.old.files.count) }
    ensures further { OnOk result (5 ≤ way.new.from) }
    ensures most { OnOk result (way.new.from ≤ most_pages) }
    ensures page { behind.new.page ≡ behind.old.page }
    ensures lost { behind.old.lost ≡ true → behind.new.lost ≡ true }
    ensures map_room { length map.new ≡ length map.old }
    ensures scn_room { length scn_page.new ≡ length scn_page.old }
    ensures looks { Looks H.tells (H.world host.old) (H.world host.new) store.old store.new }
    ensures once { IsTrue H.tells → IfOk result (λ first. (H.world host.new).reads ≤ (H.world host.old).reads + (first / bits_in store.old.files.page_size + 1 - way.old.from / bits_in store.old.files.page_size) + 3 + 5 * (way.new.from - (first + 1))) }
    ensures cause { CountsDevice result (H.faults host.old) (H.faults host.new) }
    ensures takes_none { IfErr result (λ fault. fault ≢ Memory) }
{
    // Contracts ask for its range.
    let _count = store.count();
    let from = way.from;
    if from >= MOST_PAGES {
        return Err(Fault::Refused(Refusal::Full { count: MOST_PAGES }));
    }
    let first = visit(store, host, way, map, scn_page)?;
    go_on(store, host, way, behind, first, map, scn_page)?;
    Ok(first)
}
