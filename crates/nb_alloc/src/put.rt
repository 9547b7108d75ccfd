// A raw page is written, its SCN entry first where that is below the current SCN.
ghost use Rattle.std.specs.Prelude.{◌≡◌, ◌≢◌, ◌+◌, ◌/◌, ◌<◌, ◌≤◌, [], ◌∷◌, true, IsTrue, IfOk, IfErr, Err, None, length};
ghost use Rattle.nb_fields.specs.Places.{is_page_size, entries_in, scn_place, most_pages};
ghost use Rattle.nb_fields.specs.States.{stalled_state};
ghost use Rattle.nb_host.specs.declared.faults.Fault.TheVariants.{Memory};
ghost use Rattle.nb_host.specs.Causes.{CountsDevice, CountsRun};
ghost use Rattle.nb_host.specs.Faults.{as_answer};
ghost use Rattle.nb_model.specs.Image.{page_at};
ghost use Rattle.nb_model.specs.Forms.{scn_page_of};
ghost use Rattle.nb_model.specs.Trail.{Trail};
ghost use Rattle.nb_base.specs.Takes.{StrikesIn};
ghost use Rattle.nb_state.specs.Open.{IsOpen, name_of};
ghost use Rattle.nb_state.specs.Looks.{Looks};
ghost use Rattle.nb_state.specs.Does.{Goes, Makes};
ghost use Rattle.nb_alloc.specs.Tries.{Tries};
ghost use Rattle.nb_alloc.specs.Put.{TellsRaise, entry_cause, must_raise, raise_stroke, raise_strokes, raw_stroke};

use crate::pages::ScnPage;
use nb_fields::PageKind;
use nb_host::{Fault, Host, RunError};
use nb_page::{put_text, stamp};
use nb_state::Store;

/// Whether the SCN entry of page `number` is below the current SCN. Its SCN page is then in `scn_page`.
///
/// The refusal is `NotDatabase` of the SCN page, where the page has an entry.
pub(crate) fn must_raise<H: Host>(
    store: &mut Store,
    host: &mut H,
    number: u32,
    scn_page: &mut ScnPage,
) -> Result<bool, Fault>
    requires room { length scn_page.old ≡ store.old.files.page_size }
    requires number { number < most_pages }
    ensures tells { (t : Trail) → IsTrue H.tells → IsOpen (H.world host.old) store.old t → TellsRaise result t.base.image number scn_page.new }
    ensures below { IfOk result (λ must. must ≡ true → scn_place store.old.files.page_size (number / entries_in store.old.files.page_size) < store.old.files.count) }
    ensures room { length scn_page.new ≡ length scn_page.old }
    ensures looks { Looks H.tells (H.world host.old) (H.world host.new) store.old store.new }
    ensures once { IsTrue H.tells → (H.world host.new).reads ≤ (H.world host.old).reads + 1 }
    ensures cause { CountsDevice result (H.faults host.old) (H.faults host.new) }
    ensures takes_none { IfErr result (λ fault. fault ≢ Memory) }
{
    let page_size = store.page_size();
    if number == 0 || nb_scn::is_place(page_size, number) {
        return Ok(false);
    }
    let (k, index) = nb_scn::covers(page_size, number);
    scn_page.read(store, host, nb_scn::place_of(page_size, k))?;
    Ok(scn_page.entry(index) < store.scn())
}

/// Raises the SCN entry of page `number`, where it is below the current SCN. Its SCN page is in `scn_page`.
fn raise<H: Host>(
    store: &mut Store,
    host: &mut H,
    number: u32,
    scn_page: &mut ScnPage,
) -> Result<(), RunError>
    requires room { length scn_page.old ≡ store.old.files.page_size }
    requires number { number < most_pages }
    requires inside { scn_place store.old.files.page_size (number / entries_in store.old.files.page_size) < store.old.files.count }
    ensures makes { (t : Trail) → IsTrue H.tells → IsOpen (H.world host.old) store.old t → entry_cause t.base.image number ≡ None → must_raise t.base.image number ≡ true
        → scn_page.old ≡ page_at t.base.image (scn_page_of t.base.image number)
        → Makes (as_answer result) (H.world host.old) (H.world host.new) store.old store.new t (raise_stroke t.base.image number ∷ []) }
    ensures goes { Goes store.old store.new }
    ensures room { length scn_page.new ≡ length scn_page.old }
    ensures reads { (H.world host.new).reads ≡ (H.world host.old).reads }
    ensures cause { CountsRun result (H.faults host.old) (H.faults host.new) }
    ensures takes_none { store.old.files.state ≢ stalled_state → IfErr result (λ error. error ≢ RunError.Memory) }
    ensures on_memory { (t : Trail) → IsTrue H.tells → IsOpen (H.world host.old) store.old t → result ≡ Err RunError.Memory
        → StrikesIn (H.world host.old) (H.world host.new) store.old.files.state (name_of store.old) t [] × IsOpen (H.world host.new) store.new t }
{
    let page_size = store.page_size();
    let (k, index) = nb_scn::covers(page_size, number);
    let place = nb_scn::place_of(page_size, k);
    scn_page.raise(index, store.scn(), place);
    store.write(host, place, scn_page.as_slice())
}

/// Raises the SCN entry of page `number` to the current SCN, where it is below: its SCN page is written. It takes one read at most, and wants
/// memory in the stalled state alone, where it has written nothing then.
///
/// The refusal is `NotDatabase` of its SCN page, where the page has an entry; nothing has changed then.
pub fn raise_entry<H: Host>(
    store: &mut Store,
    host: &mut H,
    number: u32,
    scn_page: &mut ScnPage,
) -> Result<(), Fault>
    requires room { length scn_page.old ≡ store.old.files.page_size }
    requires number { number < most_pages }
    ensures tries { (t : Trail) → IsTrue H.tells → IsOpen (H.world host.old) store.old t
        → Tries result (H.world host.old) (H.world host.new) store.old store.new t (entry_cause t.base.image number) (raise_strokes t.base.image number) }
    ensures goes { Goes store.old store.new }
    ensures room { length scn_page.new ≡ length scn_page.old }
    ensures once { IsTrue H.tells → (H.world host.new).reads ≤ (H.world host.old).reads + 1 }
    ensures cause { CountsDevice result (H.faults host.old) (H.faults host.new) }
    ensures takes_none { store.old.files.state ≢ stalled_state → IfErr result (λ fault. fault ≢ Memory) }
{
    if must_raise(store, host, number, scn_page)? {
        raise(store, host, number, scn_page)?;
    }
    Ok(())
}

/// Gives raw page `number`, which is in `page` as it stands, a text of at most 200 bytes, and writes it: its generation is raised, and it is
/// stamped with the current SCN. Its SCN entry has to be raised before (`raise_entry`). It wants memory in the stalled state alone, and has
/// written nothing then.
pub fn write_raw<H: Host>(
    store: &mut Store,
    host: &mut H,
    number: u32,
    text: &[u8],
    page: &mut [u8],
) -> Result<(), RunError>
    requires size { IsTrue (is_page_size (length page.old)) }
    requires room { length page.old ≡ store.old.files.page_size }
    requires low { 0 < number }
    requires high { number < most_pages }
    requires inside { number < store.old.files.count }
    requires short { length text.now ≤ 200 }
    ensures makes { (t : Trail) → IsTrue H.tells → IsOpen (H.world host.old) store.old t → page.old ≡ page_at t.base.image number
        → Makes (as_answer result) (H.world host.old) (H.world host.new) store.old store.new t (raw_stroke t.base.image number text.now ∷ []) }
    ensures goes { Goes store.old store.new }
    ensures reads { (H.world host.new).reads ≡ (H.world host.old).reads }
    ensures cause { CountsRun result (H.faults host.old) (H.faults host.new) }
    ensures takes_none { store.old.files.state ≢ stalled_state → IfErr result (λ error. error ≢ RunError.Memory) }
    ensures on_memory { (t : Trail) → IsTrue H.tells → IsOpen (H.world host.old) store.old t → result ≡ Err RunError.Memory
        → StrikesIn (H.world host.old) (H.world host.new) store.old.files.state (name_of store.old) t [] × IsOpen (H.world host.new) store.new t }
{
    put_text(page, text);
    stamp(page, PageKind::Raw.code(), store.scn(), number);
    store.write(host, number, page)
}
