// New data pages: the first of a chain, and one after its last.
ghost use Rattle.std.specs.Prelude.{◌≡◌, ◌≢◌, ◌+◌, ◌<◌, ◌≤◌, ℕ, List, true, IsTrue, IfErr, IfOk, OnOk, length};
ghost use Rattle.nb_fields.specs.Payloads.{data_payload};
ghost use Rattle.nb_fields.specs.Places.{most_pages};
ghost use Rattle.nb_fields.specs.States.{stalled_state};
ghost use Rattle.nb_fields.specs.Kinds.{data_kind};
ghost use Rattle.nb_host.specs.declared.faults.Fault.TheVariants.{Memory};
ghost use Rattle.nb_host.specs.Causes.{CountsDevice};
ghost use Rattle.nb_model.specs.Chains.{Chain, owner_of, last_of, grown};
ghost use Rattle.nb_model.specs.Forms.{drafted, is_kind};
ghost use Rattle.nb_model.specs.Trail.{Trail};
ghost use Rattle.nb_state.specs.Open.{IsOpen};
ghost use Rattle.nb_state.specs.Looks.{Looks};
ghost use Rattle.nb_model.specs.Causes.{Tested};
ghost use Rattle.nb_state.specs.Does.{Goes};
ghost use Rattle.nb_alloc.specs.Data.{new_data, second_data, unmade, unmade_behind};
ghost use Rattle.nb_alloc.specs.Make.{new_of};
ghost use Rattle.nb_alloc.specs.Search.{IsShort};
ghost use Rattle.nb_alloc.specs.Tries.{Tries};

use crate::Engine;
use crate::grow::grow_from;
use nb_alloc::{FIRST_TO_GIVE, check_new, check_rooms, make_new};
use nb_fields::{Field, PageKind};
use nb_host::{Fault, Host, Refusal};

/// Where the slots begin after the head of a page.
const SLOTS: usize = 16;

/// As many bytes as any page has after its head.
const MOST_PAYLOAD: usize = 1008;

/// The owner after the head of a page.
type Owner = Field<4, 4>;

/// Makes of these bytes what a data page has after its head: no next page, the owner and the slots.
fn fill_payload(into: &mut [u8], owner: u32, slots: &[u8])
    requires room { length into.old ≡ 16 + length slots.now }
    ensures { into.new ≡ data_payload 0 owner slots.now }
{
    into.fill(0);
    Owner::put(into, u64::from(owner));
    into[SLOTS..].copy_from_slice(slots);
}

impl Engine {
    /// Makes a data page with these slots, and answers its number, which is found as that of a new raw page. It leads to no other page. Its
    /// owner is the one that is named, or, where none is, the page itself: so begins the chain of a table. It wants memory in the stalled
    /// state alone, and has not made its last write then: no bit says that the page is taken.
    ///
    /// The refusals are `NotDatabase` of a database of fewer than five pages, by its length, or of the lowest page that the new page needs and
    /// that isn't of its kind, and `Full`, where no page is left, in this order. All that the new page changes is tested before the first
    /// write: a refused call changes nothing.
    pub fn data_new<H: Host>(
        &mut self,
        host: &mut H,
        owner: Option<u32>,
        slots: &[u8],
    ) -> Result<u32, Fault>
        requires short { length slots.now ≤ 992 }
        ensures makes { (t : Trail) → IsTrue H.tells → IsOpen (H.world host.old) self.old t
            → Tries result (H.world host.old) (H.world host.new) self.old self.new t (unmade t.base.image (new_data owner slots.now t.base.image).0) (new_data owner slots.now t.base.image).0.strokes }
        ensures value { (t : Trail) → IsTrue H.tells → IsOpen (H.world host.old) self.old t → IfOk result (λ number. number ≡ (new_data owner slots.now t.base.image).1) }
        ensures least { IfOk result (λ number. 5 ≤ number) }
        ensures most { IfOk result (λ number. number < most_pages) }
        ensures goes { Goes self.old self.new }
        ensures cause { CountsDevice result (H.faults host.old) (H.faults host.new) }
        ensures takes_none { self.old.files.state ≢ stalled_state → IfErr result (λ fault. fault ≢ Memory) }
    {
        let count = self.store.count();
        if count < FIRST_TO_GIVE {
            return Err(Fault::Refused(Refusal::NotDatabase { page: count }));
        }
        let first = check_new(&mut self.store, host, &mut self.map, &mut self.scn_page)?;
        let mut room = [0; MOST_PAYLOAD];
        let payload = &mut room[..SLOTS + slots.len()];
        fill_payload(payload, owner.unwrap_or(0), slots);
        make_new(
            &mut self.store,
            host,
            first,
            PageKind::Data,
            payload,
            owner.is_none(),
            &mut self.page,
            &mut self.map,
            &mut self.scn_page,
        )
    }

    /// Makes a data page with these slots after `last`, the last page of a chain of that owner, which is linked to it once it stands. It
    /// answers the number of the new page. It wants memory in the stalled state alone, and has not made its last write then: the chain ends
    /// where it did.
    ///
    /// The refusals are `NotDatabase` of a database of fewer than five pages, by its length, or of the lowest page that isn't of its kind: one
    /// that the new page needs, the SCN page of the last page, or the last page itself, where the search for the new page makes a system page
    /// of it; and `Full`, where no page is left, in this order. All is tested before the first write: a refused call changes nothing.
    pub fn data_grow<H: Host>(
        &mut self,
        host: &mut H,
        last: u32,
        owner: u32,
        slots: &[u8],
    ) -> Result<u32, Fault>
        requires low { 0 < last }
        requires high { last < most_pages }
        requires short { length slots.now ≤ 992 }
        ensures makes { (t : Trail) (chain : Chain) (pages : List ℕ) → IsTrue H.tells → IsOpen (H.world host.old) self.old t → owner ≡ owner_of chain → last ≡ last_of pages → is_kind t.base.image data_kind last ≡ true
            → Tries result (H.world host.old) (H.world host.new) self.old self.new t (unmade t.base.image (grown chain pages slots.now (drafted t.base.image)).0) (grown chain pages slots.now (drafted t.base.image)).0.strokes }
        ensures value { (t : Trail) (chain : Chain) (pages : List ℕ) → IsTrue H.tells → IsOpen (H.world host.old) self.old t → owner ≡ owner_of chain → is_kind t.base.image data_kind last ≡ true
            → IfOk result (λ number. number ≡ (grown chain pages slots.now (drafted t.base.image)).1) }
        ensures least { IfOk result (λ number. 5 ≤ number) }
        ensures most { IfOk result (λ number. number < most_pages) }
        ensures goes { Goes self.old self.new }
        ensures cause { CountsDevice result (H.faults host.old) (H.faults host.new) }
        ensures takes_none { self.old.files.state ≢ stalled_state → IfErr result (λ fault. fault ≢ Memory) }
    {
        let count = self.store.count();
        if count < FIRST_TO_GIVE {
            return Err(Fault::Refused(Refusal::NotDatabase { page: count }));
        }
        let first = check_rooms(
            &mut self.store,
            host,
            1,
            last,
            &mut self.map,
            &mut self.scn_page,
        )?;
        let mut room = [0; MOST_PAYLOAD];
        let payload = &mut room[..SLOTS + slots.len()];
        fill_payload(payload, owner, slots);
        grow_from(
            &mut self.store,
            host,
            first,
            last,
            payload,
            &mut self.page,
            &mut self.map,
            &mut self.scn_page,
        )
    }

    /// Tests that `pages` new data pages, one or two, may be made, one right after the other, and that page `behind`, a data page, may be
    /// written after them. It changes nothing but which pages are in memory, and wants no memory.
    ///
    /// The refusals are `NotDatabase` of a database of fewer than five pages, by its length, or of the lowest page that isn't of its kind: one
    /// that the new pages need, the SCN page of page `behind`, or that page itself, where the search for the new pages makes a system page of
    /// it; and `Full`, where fewer pages are left, in this order.
    pub fn room_for<H: Host>(&mut self, host: &mut H, pages: u32, behind: u32) -> Result<(), Fault>
        requires some { 1 ≤ pages }
        requires few { pages ≤ 2 }
        requires low { 0 < behind }
        requires high { behind < most_pages }
        ensures one { (t : Trail) (first : ℕ → List ℕ) → IsTrue H.tells → IsOpen (H.world host.old) self.old t → IsShort first → is_kind t.base.image data_kind behind ≡ true → pages ≡ 1
            → Tested result (unmade_behind t.base.image (new_of 5 first t.base.image).0 behind) }
        ensures two { (t : Trail) (first second : ℕ → List ℕ) → IsTrue H.tells → IsOpen (H.world host.old) self.old t → IsShort first → IsShort second → is_kind t.base.image data_kind behind ≡ true → pages ≡ 2
            → Tested result (unmade_behind t.base.image (second_data first second t.base.image).0 behind) }
        ensures still { (t : Trail) (first : ℕ → List ℕ) → IsTrue H.tells → IsOpen (H.world host.old) self.old t → IsShort first → is_kind t.base.image data_kind behind ≡ true → pages ≡ 2
            → OnOk result (is_kind (new_of 5 first t.base.image).0.image 5 behind ≡ true) }
        ensures looks { Looks H.tells (H.world host.old) (H.world host.new) self.old self.new }
        ensures cause { CountsDevice result (H.faults host.old) (H.faults host.new) }
        ensures takes_none { IfErr result (λ fault. fault ≢ Memory) }
    {
        let count = self.store.count();
        if count < FIRST_TO_GIVE {
            return Err(Fault::Refused(Refusal::NotDatabase { page: count }));
        }
        check_rooms(
            &mut self.store,
            host,
            pages,
            behind,
            &mut self.map,
            &mut self.scn_page,
        )?;
        Ok(())
    }
}
