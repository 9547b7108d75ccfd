// A page that is written after a search for new pages: the page of a slot, or the last of a chain. The search may make a system page where it
// stands, or the SCN page with its entry, so whether it may be written is known once the search has ended.
ghost use Rattle.std.specs.Prelude.{◌≡◌, ◌≢◌, ◌<◌, ◌++◌, ◌∷◌, ◌==◌, ◌||◌, ℕ, List, [], Bool, true, false, Some, None, IsTrue, IfErr, IfOk, OnOk, IfSome, Ok, length, nat_lt};
ghost use Rattle.nb_fields.specs.Places.{most_pages};
ghost use Rattle.nb_fields.specs.Kinds.{data_kind};
ghost use Rattle.nb_host.specs.declared.faults.Fault.TheVariants.{Memory};
ghost use Rattle.nb_host.specs.Causes.{CountsDevice, CountsFault, FaultCount};
ghost use Rattle.nb_host.specs.declared.refusals.Refusal.TheVariants.{NotDatabase};
ghost use Rattle.nb_model.specs.Causes.{Tested, lowest_broken};
ghost use Rattle.nb_model.specs.Forms.{is_kind, scn_page_of};
ghost use Rattle.nb_model.specs.Trail.{Trail};
ghost use Rattle.nb_state.specs.Open.{IsOpen};
ghost use Rattle.nb_state.specs.Looks.{Looks};
ghost use Rattle.nb_alloc.specs.Behind.{judged, entry_broken, page_in, page_if, IsKnown, EndsAlike, entry_left, gone};

use crate::pages::{InventoryPage, ScnPage};
use crate::way::{Way, is_there};
use nb_host::{Fault, Host, HostFault, Refusal};
use nb_state::Store;

/// A page that is written after a search for new pages, and what the search leaves of it.
#[derive(Drop)]
pub(crate) struct Behind {
    /// The page, or 0 for none.
    pub(crate) page: u32,
    /// The SCN page with its entry, where that isn't of its kind and isn't made on the way, and 0 otherwise.
    pub(crate) entry: u32,
    /// Whether a system page is made where it stands.
    pub(crate) lost: bool,
}

impl Behind {
    /// No page is written after the search.
    pub(crate) fn none() -> Behind
        ensures { result.page ≡ 0 }
    {
        Behind {
            page: 0,
            entry: 0,
            lost: false,
        }
    }

    /// Page `number`, a data page, before the search begins. The SCN page with its entry is read.
    pub(crate) fn at<H: Host>(
        store: &mut Store,
        host: &mut H,
        number: u32,
        map: &mut InventoryPage,
        scn_page: &mut ScnPage,
    ) -> Result<Behind, HostFault>
        requires map_room { length map.old ≡ store.old.files.page_size }
        requires scn_room { length scn_page.old ≡ store.old.files.page_size }
        requires low { 0 < number }
        requires number { number < most_pages }
        ensures known { (t : Trail) → IsTrue H.tells → IsOpen (H.world host.old) store.old t → is_kind t.base.image data_kind number ≡ true → IfOk result (IsKnown t.base.image t.base.image) }
        ensures page { IfOk result (λ b. b.page ≡ number) }
        ensures map_room { length map.new ≡ length map.old }
        ensures scn_room { length scn_page.new ≡ length scn_page.old }
        ensures looks { Looks H.tells (H.world host.old) (H.world host.new) store.old store.new }
        ensures cause { CountsFault result (H.faults host.old) (H.faults host.new) }
    {
        // Contracts ask for it.
        let _page_size = store.page_size();
        let lacking = find_lacking(store, host, number, map, scn_page)?;
        Ok(Behind {
            page: number,
            entry: lacking.unwrap_or(0),
            lost: false,
        })
    }

    /// The search has gone past that place of a system page.
    pub(crate) fn pass(&mut self, way: &Way, place: u32)
        ensures { self.new ≡ gone place way.now.made way.now.fresh self.old }
    {
        if !is_made(way.made, way.fresh, place) {
            return;
        }
        *self = Behind {
            page: self.page,
            entry: entry_left(self.entry, place),
            lost: is_lost(self.lost, self.page, place),
        };
    }

    /// What the search found, where the page may be written after it. Else the refusal is `NotDatabase` of the lowest page that isn't of its
    /// kind: one that the search ended at, the page itself, or the SCN page with its entry.
    pub(crate) fn judge(&self, found: Result<u32, Fault>) -> Result<u32, Fault>
        ensures test { (pages : List ℕ) (full : Bool) → Tested found (judged pages full) → Tested result (judged (page_if self.now.lost self.now.page ++ (page_if (nat_lt 0 self.now.entry) self.now.entry ++ pages)) full) }
        ensures value { IfOk result (λ first. found ≡ Ok first) }
        ensures kept { OnOk result (self.now.lost ≡ false) }
        ensures ended { EndsAlike found result }
        ensures cause { (old new : FaultCount) → CountsDevice found old new → CountsDevice result old new }
        ensures takes_none { IfErr found (λ fault. fault ≢ Memory) → IfErr result (λ fault. fault ≢ Memory) }
    {
        let of_entry = with_page(found, self.entry > 0, self.entry);
        with_page(of_entry, self.lost, self.page)
    }
}

/// The SCN page with the entry of page `number`, if it has one and that isn't of its kind: the page for which writing page `number` would be
/// refused. `map` and `scn_page` are room to look at it.
pub fn find_lacking<H: Host>(
    store: &mut Store,
    host: &mut H,
    number: u32,
    map: &mut InventoryPage,
    scn_page: &mut ScnPage,
) -> Result<Option<u32>, HostFault>
    requires map_room { length map.old ≡ store.old.files.page_size }
    requires scn_room { length scn_page.old ≡ store.old.files.page_size }
    requires low { 0 < number }
    requires number { number < most_pages }
    ensures value { (t : Trail) → IsTrue H.tells → IsOpen (H.world host.old) store.old t → IfOk result (λ lacking. page_in lacking ≡ entry_broken t.base.image number) }
    ensures place { (t : Trail) → IsTrue H.tells → IsOpen (H.world host.old) store.old t → IfOk result (λ lacking. IfSome lacking (λ p. p ≡ scn_page_of t.base.image number)) }
    ensures map_room { length map.new ≡ length map.old }
    ensures scn_room { length scn_page.new ≡ length scn_page.old }
    ensures looks { Looks H.tells (H.world host.old) (H.world host.new) store.old store.new }
    ensures cause { CountsFault result (H.faults host.old) (H.faults host.new) }
{
    let page_size = store.page_size();
    if nb_scn::is_place(page_size, number) {
        return Ok(None);
    }
    let (k, _) = nb_scn::covers(page_size, number);
    let place = nb_scn::place_of(page_size, k);
    let there = is_there(store, host, place, map, scn_page)?;
    if there {
        return Ok(None);
    }
    Ok(Some(place))
}

/// Of two pages, if there are any, the lower.
pub fn lower_page(first: Option<u32>, page: u32) -> u32
    ensures { lowest_broken (page_in first ++ page ∷ []) ≡ Some (NotDatabase result) }
{
    match first {
        Some(other) => other.min(page),
        None => page,
    }
}

/// Whether a system page will be made at that place, which a search came to last: it is one of the last that it went past without their pages.
fn is_made(made: u32, fresh: u32, place: u32) -> bool
    ensures { result ≡ (made == place || fresh == place) }
{
    if made == place {
        return true;
    }
    fresh == place
}

/// The SCN page that isn't of its kind, or 0 where it is made at that place.
fn entry_left(entry: u32, place: u32) -> u32
    ensures { result ≡ entry_left entry place }
{
    if place == entry {
        return 0;
    }
    entry
}

/// Whether a system page will stand where the page does, or is made there now.
fn is_lost(lost: bool, page: u32, place: u32) -> bool
    ensures { result ≡ (lost || place == page) }
{
    if lost {
        return true;
    }
    place == page
}

/// What a search found, or where that page counts `NotDatabase` of it, or of a lower page that the search ended at.
fn with_page(found: Result<u32, Fault>, counts: bool, page: u32) -> Result<u32, Fault>
    ensures test { (pages : List ℕ) (full : Bool) → Tested found (judged pages full) → Tested result (judged (page_if counts page ++ pages) full) }
    ensures value { IfOk result (λ first. found ≡ Ok first) }
    ensures none { OnOk result (counts ≡ false) }
    ensures ended { EndsAlike found result }
    ensures cause { (old new : FaultCount) → CountsDevice found old new → CountsDevice result old new }
    ensures takes_none { IfErr found (λ fault. fault ≢ Memory) → IfErr result (λ fault. fault ≢ Memory) }
{
    if !counts {
        return found;
    }
    match found {
        Ok(_) => Err(Fault::Refused(Refusal::NotDatabase { page })),
        Err(Fault::Refused(refusal)) => Err(Fault::Refused(lower(refusal, page))),
        Err(Fault::Device) => Err(Fault::Device),
        Err(Fault::Memory) => Err(Fault::Memory),
    }
}

/// The refusal for a page that isn't of its kind, where a search has ended with another: it is for the lower page.
fn lower(refusal: Refusal, page: u32) -> Refusal
    ensures { (pages : List ℕ) (full : Bool) → judged pages full ≡ Some refusal → judged (page ∷ pages) full ≡ Some result }
{
    match refusal {
        Refusal::NotDatabase { page: other } => Refusal::NotDatabase {
            page: page.min(other),
        },
        _ => Refusal::NotDatabase { page },
    }
}
