// The tests before new pages, on a database to which nothing was written yet. Nothing changes.
ghost use Rattle.std.specs.Prelude.{◌≡◌, ◌≢◌, ◌+◌, ◌-◌, ◌*◌, ◌/◌, ◌<◌, ◌≤◌, ℕ, List, true, false, IsTrue, IfErr, IfOk, OnOk, length};
ghost use Rattle.nb_fields.specs.Places.{bits_in, most_pages};
ghost use Rattle.nb_fields.specs.Kinds.{data_kind};
ghost use Rattle.nb_host.specs.declared.faults.Fault.TheVariants.{Memory};
ghost use Rattle.nb_host.specs.Causes.{CountsDevice};
ghost use Rattle.nb_model.specs.Image.{image_size};
ghost use Rattle.nb_model.specs.Forms.{is_kind, lowest_free};
ghost use Rattle.nb_model.specs.Trail.{Trail};
ghost use Rattle.nb_model.proofs.SearchLaws.{draft_cause};
ghost use Rattle.nb_state.specs.Open.{IsOpen};
ghost use Rattle.nb_state.specs.Looks.{Looks};
ghost use Rattle.nb_model.specs.Causes.{Tested};
ghost use Rattle.nb_alloc.specs.Behind.{IsKnown, Judges, behind_cause};
ghost use Rattle.nb_alloc.specs.Data.{second_data};
ghost use Rattle.nb_alloc.specs.Find.{HoldsMap};
ghost use Rattle.nb_alloc.specs.Make.{new_of};
ghost use Rattle.nb_alloc.specs.Search.{IsSearchable, IsShort};

use crate::behind::Behind;
use crate::pages::{InventoryPage, ScnPage};
use crate::way::{Way, find_room};
use nb_host::{Fault, Host};
use nb_state::Store;

/// Tests all that a new page changes, and answers the page at which it is made at first: the lowest free page, or the page at the length where
/// none is free. Where no system page stands there, the inventory page of that page is then in `map`. It changes nothing but which pages are in
/// memory, and wants no memory.
///
/// The refusals are `NotDatabase` of the lowest page that it needs and that isn't of its kind, and `Full`, where no page is left.
pub fn check_new<H: Host>(
    store: &mut Store,
    host: &mut H,
    map: &mut InventoryPage,
    scn_page: &mut ScnPage,
) -> Result<u32, Fault>
    requires map_room { length map.old ≡ store.old.files.page_size }
    requires scn_room { length scn_page.old ≡ store.old.files.page_size }
    ensures test { (t : Trail) (kind : ℕ) (payload : ℕ → List ℕ) → IsTrue H.tells → IsOpen (H.world host.old) store.old t → IsSearchable t.base.image → IsShort payload → Tested result (draft_cause (new_of kind payload t.base.image).0) }
    ensures value { (t : Trail) → IsTrue H.tells → IsOpen (H.world host.old) store.old t → IfOk result (λ page. page ≡ lowest_free t.base.image) }
    ensures map { (t : Trail) → IsTrue H.tells → IsOpen (H.world host.old) store.old t → IfOk result (λ page. HoldsMap t.base.image page map.new) }
    ensures least { IfOk result (λ page. 5 ≤ page) }
    ensures below { IfOk result (λ page. page < most_pages) }
    ensures within { 5 ≤ store.old.files.count → IfOk result (λ page. page ≤ store.old.files.count) }
    ensures map_room { length map.new ≡ length map.old }
    ensures scn_room { length scn_page.new ≡ length scn_page.old }
    ensures looks { Looks H.tells (H.world host.old) (H.world host.new) store.old store.new }
    ensures once { (t : Trail) (kind : ℕ) (payload : ℕ → List ℕ) → IsTrue H.tells → IsOpen (H.world host.old) store.old t → IsSearchable t.base.image → IsShort payload
        → IfOk result (λ page. (H.world host.new).reads ≤ (H.world host.old).reads + page / bits_in (image_size t.base.image) + 4 + 5 * ((new_of kind payload t.base.image).1 - page)) }
    ensures cause { CountsDevice result (H.faults host.old) (H.faults host.new) }
    ensures takes_none { IfErr result (λ fault. fault ≢ Memory) }
{
    // Contracts ask for it.
    let _page_size = store.page_size();
    let mut way = Way::begin();
    let mut behind = Behind::none();
    find_room(store, host, &mut way, &mut behind, map, scn_page)
}

/// Tests all that so many new pages change, one or two, one right after the other. It answers the page at which the first is made at first.
fn find_rooms<H: Host>(
    store: &mut Store,
    host: &mut H,
    pages: u32,
    behind: &mut Behind,
    map: &mut InventoryPage,
    scn_page: &mut ScnPage,
) -> Result<u32, Fault>
    requires map_room { length map.old ≡ store.old.files.page_size }
    requires scn_room { length scn_page.old ≡ store.old.files.page_size }
    requires some { 1 ≤ pages }
    requires few { pages ≤ 2 }
    ensures one { (t : Trail) (first : ℕ → List ℕ) → IsTrue H.tells → IsOpen (H.world host.old) store.old t → IsSearchable t.base.image → IsShort first → IsKnown t.base.image t.base.image behind.old → pages ≡ 1
        → Judges result (new_of 5 first t.base.image).0 t.base.image behind.new }
    ensures two { (t : Trail) (first second : ℕ → List ℕ) → IsTrue H.tells → IsOpen (H.world host.old) store.old t → IsSearchable t.base.image → IsShort first → IsShort second → IsKnown t.base.image t.base.image behind.old → pages ≡ 2
        → Judges result (second_data first second t.base.image).0 t.base.image behind.new }
    ensures still { (t : Trail) (first : ℕ → List ℕ) → IsTrue H.tells → IsOpen (H.world host.old) store.old t → IsSearchable t.base.image → IsShort first → IsKnown t.base.image t.base.image behind.old → pages ≡ 2
        → OnOk result (behind.new.lost ≡ false → is_kind (new_of 5 first t.base.image).0.image 5 behind.old.page ≡ true) }
    ensures value { (t : Trail) → IsTrue H.tells → IsOpen (H.world host.old) store.old t → IfOk result (λ page. page ≡ lowest_free t.base.image) }
    ensures map { (t : Trail) → IsTrue H.tells → IsOpen (H.world host.old) store.old t → pages ≡ 1 → IfOk result (λ page. HoldsMap t.base.image page map.new) }
    ensures least { IfOk result (λ page. 5 ≤ page) }
    ensures below { IfOk result (λ page. page < most_pages) }
    ensures within { 5 ≤ store.old.files.count → IfOk result (λ page. page ≤ store.old.files.count) }
    ensures page { behind.new.page ≡ behind.old.page }
    ensures map_room { length map.new ≡ length map.old }
    ensures scn_room { length scn_page.new ≡ length scn_page.old }
    ensures looks { Looks H.tells (H.world host.old) (H.world host.new) store.old store.new }
    ensures cause { CountsDevice result (H.faults host.old) (H.faults host.new) }
    ensures takes_none { IfErr result (λ fault. fault ≢ Memory) }
{
    // Contracts ask for it.
    let _page_size = store.page_size();
    let mut way = Way::begin();
    let first = find_room(store, host, &mut way, behind, map, scn_page)?;
    let second = pages > 1;
    if !second {
        return Ok(first);
    }
    find_room(store, host, &mut way, behind, map, scn_page)?;
    Ok(first)
}

/// Tests all that so many new pages change, one or two, one right after the other, and that page `number`, a data page, may be written
/// after them. It answers the page at which the first is made at first. Where no system page stands there, and one page is made, the
/// inventory page of that page is then in `map`. It changes nothing but which pages are in memory, and wants no memory.
///
/// The refusals are `NotDatabase` of the lowest page that isn't of its kind: one that the new pages need, the SCN page with the entry of page
/// `number`, or page `number`, where a system page is made on the way; and `Full`, where fewer pages are left.
pub fn check_rooms<H: Host>(
    store: &mut Store,
    host: &mut H,
    pages: u32,
    number: u32,
    map: &mut InventoryPage,
    scn_page: &mut ScnPage,
) -> Result<u32, Fault>
    requires map_room { length map.old ≡ store.old.files.page_size }
    requires scn_room { length scn_page.old ≡ store.old.files.page_size }
    requires some { 1 ≤ pages }
    requires few { pages ≤ 2 }
    requires low { 0 < number }
    requires high { number < most_pages }
    ensures one { (t : Trail) (first : ℕ → List ℕ) → IsTrue H.tells → IsOpen (H.world host.old) store.old t → IsSearchable t.base.image → IsShort first → is_kind t.base.image data_kind number ≡ true → pages ≡ 1
        → Tested result (behind_cause (new_of 5 first t.base.image).0 number) }
    ensures two { (t : Trail) (first second : ℕ → List ℕ) → IsTrue H.tells → IsOpen (H.world host.old) store.old t → IsSearchable t.base.image → IsShort first → IsShort second → is_kind t.base.image data_kind number ≡ true → pages ≡ 2
        → Tested result (behind_cause (second_data first second t.base.image).0 number) }
    ensures still { (t : Trail) (first : ℕ → List ℕ) → IsTrue H.tells → IsOpen (H.world host.old) store.old t → IsSearchable t.base.image → IsShort first → is_kind t.base.image data_kind number ≡ true → pages ≡ 2
        → OnOk result (is_kind (new_of 5 first t.base.image).0.image 5 number ≡ true) }
    ensures value { (t : Trail) → IsTrue H.tells → IsOpen (H.world host.old) store.old t → IfOk result (λ page. page ≡ lowest_free t.base.image) }
    ensures map { (t : Trail) → IsTrue H.tells → IsOpen (H.world host.old) store.old t → pages ≡ 1 → IfOk result (λ page. HoldsMap t.base.image page map.new) }
    ensures least { IfOk result (λ page. 5 ≤ page) }
    ensures below { IfOk result (λ page. page < most_pages) }
    ensures within { 5 ≤ store.old.files.count → IfOk result (λ page. page ≤ store.old.files.count) }
    ensures map_room { length map.new ≡ length map.old }
    ensures scn_room { length scn_page.new ≡ length scn_page.old }
    ensures looks { Looks H.tells (H.world host.old) (H.world host.new) store.old store.new }
    ensures cause { CountsDevice result (H.faults host.old) (H.faults host.new) }
    ensures takes_none { IfErr result (λ fault. fault ≢ Memory) }
{
    let mut behind = Behind::at(store, host, number, map, scn_page)?;
    let found = find_rooms(store, host, pages, &mut behind, map, scn_page);
    behind.judge(found)
}
