// A walk over the backup history, page by page along its links. Nothing changes.
ghost use Rattle.std.specs.Prelude.{◌≡◌, ◌≢◌, ◌+◌, ◌<◌, ◌≤◌, ℕ, List, [], ◌∷◌, ◌++◌, true, IsTrue, IfErr, IfOk, IfSome, OnOk, length};
ghost use Rattle.std.specs.List.{list_all};
ghost use Rattle.nb_fields.specs.Places.{is_page_size, most_pages};
ghost use Rattle.nb_host.specs.declared.faults.Fault.TheVariants.{Memory};
ghost use Rattle.nb_host.specs.Causes.{CountsDevice};
ghost use Rattle.nb_model.specs.Image.{page_at};
ghost use Rattle.nb_model.specs.Causes.{Tested, broken_at};
ghost use Rattle.nb_model.specs.Chains.{History, Spot, is_slot, slots_in, spots_on, spots_of, next_in, pages_of, found_pages, spots, last_of};
ghost use Rattle.nb_model.specs.Trail.{Trail};
ghost use Rattle.nb_state.specs.Open.{IsOpen};
ghost use Rattle.nb_state.specs.Looks.{Looks};
ghost use Rattle.nb_walk.specs.Walks.{not_linked};
ghost use Rattle.nb_engine.specs.History.{gathered, IsPlaced};

use crate::rows::{HistoryRow, Wanted, read_row};
use nb_fields::layouts::header;
use nb_host::{Fault, Host, Refusal};
use nb_state::Store;
use nb_walk::{Chain, read_page, slot_at, slot_count, use_of};

/// A slot of the history that is kept for a row.
#[derive(Clone, Copy, Debug, PartialEq, Eq)]
pub struct Room {
    /// The page that has it.
    pub page: u32,
    /// Its number there, from 0.
    pub slot: u32,
}

/// What a walk has come by.
#[derive(Drop)]
pub(crate) struct Walked {
    /// The last row that is looked for.
    pub(crate) row: Option<HistoryRow>,
    /// The first free slot.
    pub(crate) room: Option<Room>,
}

/// Comes by one slot, which is of the form.
fn add_slot(walked: &mut Walked, wanted: &Wanted, slot: &[u8], place: Room)
    requires size { length slot.now ≡ 256 }
    requires form { is_slot History slot.now ≡ true }
    ensures walked { (ss : List Spot) → walked.old ≡ gathered wanted.now ss
        → walked.new ≡ gathered wanted.now (ss ++ record { page = place.page; slot = place.slot; bytes = slot.now } ∷ []) }
    ensures placed { (size : ℕ) → IsPlaced size place → IfSome walked.old.room (IsPlaced size) → IfSome walked.new.room (IsPlaced size) }
{
    if use_of(slot) == 0 {
        if walked.room.is_none() {
            walked.room = Some(place);
        }
        return;
    }
    // A used slot of the form holds a row.
    let Some(row) = read_row(slot) else {
        return;
    };
    if wanted.is_met_by(&row) {
        walked.row = Some(row);
    }
}

/// Comes by the slots of page `number`, which are of the form.
fn add_slots(walked: &mut Walked, wanted: &Wanted, page: &[u8], number: u32)
    requires size { IsTrue (is_page_size (length page.now)) }
    requires form { list_all (is_slot History) (slots_in page.now) ≡ true }
    requires low { 0 < number }
    requires high { number < most_pages }
    ensures walked { (ss : List Spot) → walked.old ≡ gathered wanted.now ss → walked.new ≡ gathered wanted.now (ss ++ spots_on number 0 (slots_in page.now)) }
    ensures placed { IfSome walked.old.room (IsPlaced (length page.now)) → IfSome walked.new.room (IsPlaced (length page.now)) }
{
    let count = slot_count(page);
    let mut slot = 0;
    while slot < count {
        let place = Room { page: number, slot };
        add_slot(walked, wanted, slot_at(page, slot), place);
        slot += 1;
    }
}

/// Comes by page `number`, and answers the page that it is linked to, or 0. The refusal is `NotDatabase` of the page, where it isn't one of
/// the history.
fn read_link<H: Host>(
    store: &mut Store,
    host: &mut H,
    number: u32,
    page: &mut [u8],
    wanted: &Wanted,
    walked: &mut Walked,
) -> Result<u32, Fault>
    requires size { IsTrue (is_page_size (length page.old)) }
    requires room { length page.old ≡ store.old.files.page_size }
    ensures test { (t : Trail) → IsTrue H.tells → IsOpen (H.world host.old) store.old t → Tested result (not_linked History t.base.image number) }
    ensures next { (t : Trail) → IsTrue H.tells → IsOpen (H.world host.old) store.old t → IfOk result (λ next. next ≡ next_in (page_at t.base.image number)) }
    ensures walked { (t : Trail) (ps : List ℕ) → IsTrue H.tells → IsOpen (H.world host.old) store.old t → walked.old ≡ gathered wanted.now (spots_of t.base.image ps)
        → OnOk result (walked.new ≡ gathered wanted.now (spots_of t.base.image (ps ++ number ∷ []))) }
    ensures placed { IfSome walked.old.room (IsPlaced store.old.files.page_size) → OnOk result (IfSome walked.new.room (IsPlaced store.old.files.page_size)) }
    ensures low { OnOk result (0 < number) }
    ensures high { OnOk result (number < most_pages) }
    ensures below { OnOk result (number < store.old.files.count) }
    ensures looks { Looks H.tells (H.world host.old) (H.world host.new) store.old store.new }
    ensures once { IsTrue H.tells → (H.world host.new).reads ≤ (H.world host.old).reads + 1 }
    ensures cause { CountsDevice result (H.faults host.old) (H.faults host.new) }
    ensures takes_none { IfErr result (λ fault. fault ≢ Memory) }
{
    let next = read_page(store, host, Chain::Backups, number, page)?;
    add_slots(walked, wanted, page, number);
    Ok(next)
}

/// Comes by all slots of the history, and answers its last page too. The refusal is `NotDatabase` of the first page that breaks the form:
/// a history that leads back into itself has more pages than the database.
pub(crate) fn walk<H: Host>(
    store: &mut Store,
    host: &mut H,
    page: &mut [u8],
    wanted: &Wanted,
) -> Result<(Walked, u32), Fault>
    requires size { IsTrue (is_page_size (length page.old)) }
    requires room { length page.old ≡ store.old.files.page_size }
    ensures test { (t : Trail) → IsTrue H.tells → IsOpen (H.world host.old) store.old t → Tested result (broken_at (pages_of History t.base.image)) }
    ensures walked { (t : Trail) → IsTrue H.tells → IsOpen (H.world host.old) store.old t → IfOk result (λ (walked, last). walked ≡ gathered wanted.now (spots History t.base.image)) }
    ensures last { (t : Trail) → IsTrue H.tells → IsOpen (H.world host.old) store.old t → IfOk result (λ (walked, last). last ≡ last_of (found_pages History t.base.image)) }
    ensures placed { IfOk result (λ (walked, last). IfSome walked.room (IsPlaced store.old.files.page_size)) }
    ensures low { IfOk result (λ (walked, last). 0 < last) }
    ensures high { IfOk result (λ (walked, last). last < most_pages) }
    ensures least { OnOk result (5 ≤ store.old.files.count) }
    ensures looks { Looks H.tells (H.world host.old) (H.world host.new) store.old store.new }
    ensures once { (t : Trail) → IsTrue H.tells → IsOpen (H.world host.old) store.old t → OnOk result ((H.world host.new).reads ≤ (H.world host.old).reads + length (found_pages History t.base.image)) }
    ensures most { IsTrue H.tells → (H.world host.new).reads ≤ (H.world host.old).reads + store.old.files.count }
    ensures cause { CountsDevice result (H.faults host.old) (H.faults host.new) }
    ensures takes_none { IfErr result (λ fault. fault ≢ Memory) }
{
    let mut walked = Walked {
        row: None,
        room: None,
    };
    let mut number = header::HISTORY_PAGE;
    let mut left = store.count();
    while left > 0 {
        let next = read_link(store, host, number, page, wanted, &mut walked)?;
        if next == 0 {
            return Ok((walked, number));
        }
        number = next;
        left -= 1;
    }
    Err(Fault::Refused(Refusal::NotDatabase { page: number }))
}
