// A table is dropped.
ghost use Rattle.std.specs.Prelude.{◌≡◌, ◌++◌, ℕ, List, IsTrue, IfOk, Ok, Some, None, length, ◌≢◌, IfErr};
ghost use Rattle.std.specs.List.{AllByRecursion};
ghost use Rattle.nb_fields.specs.Places.{is_page_size};
ghost use Rattle.nb_host.specs.Causes.{CountsDevice, FaultCount};
ghost use Rattle.nb_host.specs.declared.refusals.Refusal.TheVariants.{NotDatabase};
ghost use Rattle.nb_model.specs.Chains.{RowsFrom, first_in, next_in, pages_of};
ghost use Rattle.nb_model.specs.Forms.{drafted, give_page};
ghost use Rattle.nb_model.specs.Image.{page_at};
ghost use Rattle.nb_model.specs.Causes.{Tested, lowest_broken, not_of_form};
ghost use Rattle.nb_model.specs.Outcomes.{Seen};
ghost use Rattle.nb_model.specs.Tables.{all_given, drop_turn};
ghost use Rattle.nb_model.specs.Trail.{Trail};
ghost use Rattle.nb_model.proofs.StepLaws.{IsShaped};
ghost use Rattle.nb_engine.specs.Behind.{entry_broken, give_broken};
ghost use Rattle.nb_engine.specs.Data.{not_data};
ghost use Rattle.nb_engine.specs.Find.{need_cause};
ghost use Rattle.nb_engine.specs.Mark.{mark_cause};
ghost use Rattle.nb_engine.specs.Replies.{done};
ghost use Rattle.nb_engine.specs.Tries.{StopsShort, Tries, WhereMemory};
ghost use Rattle.nb_state.specs.Open.{IsOpen};
ghost use Rattle.nb_state.specs.Looks.{Looks};
ghost use Rattle.nb_state.specs.Does.{Does, Goes};
ghost use Rattle.nb_table.specs.Drops.{IsWholeTable, IsGivable, dropped, drop_broken};
ghost use Rattle.nb_table.specs.Walks.{spot_of, IsPlaced};
ghost use Rattle.nb_fields.specs.States.{stalled_state};
ghost use Rattle.nb_host.specs.declared.faults.Fault.TheVariants.{Memory};

use crate::LARGEST_PAGE;
use crate::change::FREE;
use crate::put::put_slot;
use crate::rows::{Rows, find_rows};
use nb_engine::Engine;
use nb_fields::layouts::data;
use nb_host::{Fault, Host, Refusal};
use nb_model::TableName;

/// Of a page and another, if there is one, the lower.
fn lower_of(page: u32, second: Option<u32>) -> u32
    ensures { (pages more : List ℕ) → Some (NotDatabase page) ≡ lowest_broken pages → need_cause second ≡ lowest_broken more → Some (NotDatabase result) ≡ lowest_broken (more ++ pages) }
{
    match second {
        Some(other) => page.min(other),
        None => page,
    }
}

/// Of two pages the lower, if there are any.
fn lower(first: Option<u32>, second: Option<u32>) -> Option<u32>
    ensures { (pages more : List ℕ) → need_cause first ≡ lowest_broken pages → need_cause second ≡ lowest_broken more → need_cause result ≡ lowest_broken (more ++ pages) }
{
    match first {
        Some(page) => Some(lower_of(page, second)),
        None => second,
    }
}

/// Tests that there is no such page. The refusal is `NotDatabase` of it.
fn check_none(lacking: Option<u32>) -> Result<(), Fault>
    ensures test { (pages : List ℕ) → need_cause lacking ≡ lowest_broken pages → Tested result (lowest_broken pages) }
    ensures cause { (faults : FaultCount) → CountsDevice result faults faults }
    ensures takes_none { IfErr result (λ fault. fault ≢ Memory) }
{
    match lacking {
        Some(page) => Err(Fault::Refused(Refusal::NotDatabase { page })),
        None => Ok(()),
    }
}

/// The lowest page that isn't of its kind, of `lacking`, if there is one, and of those that giving back page `number` changes, one of the chain
/// of that owner. It answers the page that page `number` leads to, or 0, with it.
fn look_further<H: Host>(
    host: &mut H,
    engine: &mut Engine,
    number: u32,
    owner: u32,
    lacking: Option<u32>,
    page: &mut [u8],
) -> Result<(Option<u32>, u32), Fault>
    requires size { IsTrue (is_page_size (length page.old)) }
    requires room { length page.old ≡ engine.old.files.page_size }
    ensures test { (t : Trail) → IsTrue H.tells → IsOpen (H.world host.old) engine.old t → Tested result (not_data t.base.image owner number) }
    ensures lacking { (t : Trail) (pages : List ℕ) → IsTrue H.tells → IsOpen (H.world host.old) engine.old t → need_cause lacking ≡ lowest_broken pages → IfOk result (λ (found, next). need_cause found ≡ lowest_broken (give_broken t.base.image number ++ pages)) }
    ensures next { (t : Trail) → IsTrue H.tells → IsOpen (H.world host.old) engine.old t → IfOk result (λ (found, next). next ≡ next_in (page_at t.base.image number)) }
    ensures looks { Looks H.tells (H.world host.old) (H.world host.new) engine.old engine.new }
    ensures cause { CountsDevice result (H.faults host.old) (H.faults host.new) }
    ensures takes_none { IfErr result (λ fault. fault ≢ Memory) }
{
    engine.data_read(host, number, owner, page)?;
    let next = data::Next::get(page) as u32;
    let here = engine.free_ready(host, number)?;
    Ok((lower(lacking, here), next))
}

/// Tests that the pages of a table's chain may be given back, after a page that isn't of its kind, if there is one. The refusal is
/// `NotDatabase` of the lowest.
fn check_chain<H: Host>(
    host: &mut H,
    engine: &mut Engine,
    first: u32,
    before: Option<u32>,
    page: &mut [u8],
) -> Result<(), Fault>
    requires size { IsTrue (is_page_size (length page.old)) }
    requires room { length page.old ≡ engine.old.files.page_size }
    ensures test { (t : Trail) (pages noted : List ℕ) → IsTrue H.tells → IsOpen (H.world host.old) engine.old t → pages_of (RowsFrom first) t.base.image ≡ Ok pages → need_cause before ≡ lowest_broken noted
        → Tested result (lowest_broken (drop_broken t.base.image pages noted)) }
    ensures looks { Looks H.tells (H.world host.old) (H.world host.new) engine.old engine.new }
    ensures cause { CountsDevice result (H.faults host.old) (H.faults host.new) }
    ensures takes_none { IfErr result (λ fault. fault ≢ Memory) }
{
    let mut lacking = before;
    let mut number = first;
    let mut left = engine.count();
    while left > 0 {
        let (found, next) = look_further(host, engine, number, first, lacking, page)?;
        if next == 0 {
            return check_none(found);
        }
        lacking = found;
        number = next;
        left -= 1;
    }
    Ok(())
}

/// Tests all that is written where a table is dropped: the SCN page of its slot's page, and of each page of its chain the inventory page and
/// the SCN page of that. The refusal is `NotDatabase` of the lowest that isn't of its kind.
fn check_drop<H: Host>(
    host: &mut H,
    engine: &mut Engine,
    rows: &Rows,
    page: &mut [u8],
) -> Result<(), Fault>
    requires size { IsTrue (is_page_size (length page.old)) }
    requires room { length page.old ≡ engine.old.files.page_size }
    requires placed { IsPlaced engine.old.files.page_size rows.now.table.place }
    ensures test { (t : Trail) (pages : List ℕ) → IsTrue H.tells → IsOpen (H.world host.old) engine.old t → pages_of (RowsFrom rows.now.first) t.base.image ≡ Ok pages
        → Tested result (lowest_broken (drop_broken t.base.image pages (entry_broken t.base.image rows.now.table.place.page))) }
    ensures looks { Looks H.tells (H.world host.old) (H.world host.new) engine.old engine.new }
    ensures cause { CountsDevice result (H.faults host.old) (H.faults host.new) }
    ensures takes_none { IfErr result (λ fault. fault ≢ Memory) }
{
    let lacking = engine.data_ready(host, rows.table.place.page)?;
    check_chain(host, engine, rows.first, lacking, page)
}

/// Gives page `number` back, one of the chain of that owner, and answers the page that it leads to, or 0.
fn give_back<H: Host>(
    host: &mut H,
    engine: &mut Engine,
    number: u32,
    owner: u32,
    page: &mut [u8],
) -> Result<u32, Fault>
    requires size { IsTrue (is_page_size (length page.old)) }
    requires room { length page.old ≡ engine.old.files.page_size }
    ensures tries { (t : Trail) → IsTrue H.tells → IsOpen (H.world host.old) engine.old t → not_data t.base.image owner number ≡ None
        → Tries result (H.world host.old) (H.world host.new) engine.old engine.new t (mark_cause t.base.image number) (give_page number (drafted t.base.image)).strokes }
    ensures next { (t : Trail) → IsTrue H.tells → IsOpen (H.world host.old) engine.old t → IfOk result (λ next. next ≡ next_in (page_at t.base.image number)) }
    ensures goes { Goes engine.old engine.new }
    ensures cause { CountsDevice result (H.faults host.old) (H.faults host.new) }
    ensures takes_none { engine.old.files.state ≢ stalled_state → IfErr result (λ fault. fault ≢ Memory) }
{
    engine.data_read(host, number, owner, page)?;
    let next = data::Next::get(page) as u32;
    engine.data_free(host, number)?;
    Ok(next)
}

/// Gives the pages of a table's chain back, in its order. Of a page that is given back the bytes stay, and so its link.
fn give_all_back<H: Host>(
    host: &mut H,
    engine: &mut Engine,
    first: u32,
    page: &mut [u8],
) -> Result<(), Fault>
    requires size { IsTrue (is_page_size (length page.old)) }
    requires room { length page.old ≡ engine.old.files.page_size }
    ensures tries { (t : Trail) (pages : List ℕ) → IsTrue H.tells → IsOpen (H.world host.old) engine.old t → IsShaped t.base.image → pages_of (RowsFrom first) t.base.image ≡ Ok pages → AllByRecursion (IsGivable t.base.image) pages
        → Tries result (H.world host.old) (H.world host.new) engine.old engine.new t None (all_given pages (drafted t.base.image)).strokes }
    ensures goes { Goes engine.old engine.new }
    ensures cause { CountsDevice result (H.faults host.old) (H.faults host.new) }
    ensures takes_none { engine.old.files.state ≢ stalled_state → IfErr result (λ fault. fault ≢ Memory) }
{
    let mut number = first;
    let mut left = engine.count();
    while left > 0 {
        let next = give_back(host, engine, number, first, page)?;
        if next == 0 {
            return Ok(());
        }
        number = next;
        left -= 1;
    }
    Ok(())
}

/// Takes the table whose rows were come by out of the catalogue, and then gives its pages back. All is tested before the first write.
///
/// The refusal is `NotDatabase` of the lowest page that is written and isn't of its kind.
fn drop_rows<H: Host>(
    host: &mut H,
    engine: &mut Engine,
    rows: &Rows,
    page: &mut [u8],
) -> Result<(), Fault>
    requires size { IsTrue (is_page_size (length page.old)) }
    requires room { length page.old ≡ engine.old.files.page_size }
    requires placed { IsPlaced engine.old.files.page_size rows.now.table.place }
    requires first { rows.now.first ≡ first_in rows.now.table.bytes }
    ensures tries { (t : Trail) (table : List ℕ) → IsTrue H.tells → IsOpen (H.world host.old) engine.old t → IsWholeTable t.base.image table (spot_of rows.now.table)
        → Tries result (H.world host.old) (H.world host.new) engine.old engine.new t (not_of_form (dropped t.base.image (spot_of rows.now.table))) (dropped t.base.image (spot_of rows.now.table)).strokes }
    ensures goes { Goes engine.old engine.new }
    ensures cause { CountsDevice result (H.faults host.old) (H.faults host.new) }
    ensures takes_none { engine.old.files.state ≢ stalled_state → IfErr result (λ fault. fault ≢ Memory) }
{
    check_drop(host, engine, rows, page)?;
    put_slot(host, engine, rows.table.place, &FREE)?;
    give_all_back(host, engine, rows.first, page)
}

/// Takes a table out of the catalogue, which is the moment at which it is gone, and then gives its pages back, in the order of the chain. It
/// wants memory in the stalled state alone, and has not made its last write then: the last page isn't given back.
///
/// The refusals are `Access`, `NotDatabase` of the catalogue, `NoTable`, `NotDatabase` of the table's chain, and `NotDatabase` of the lowest
/// page that is written and isn't of its kind, in this order. A refused call changes nothing.
pub fn drop_table<H: Host>(
    host: &mut H,
    engine: &mut Engine,
    table: &TableName,
) -> Result<(), Fault>
    ensures turn { (s : Seen) (t : Trail) → IsTrue H.tells → t.base ≡ s.base → IsOpen (H.world host.old) engine.old t
        → Does done result (H.world host.old) (H.world host.new) engine.old engine.new t (drop_turn s table.now) }
    ensures goes { Goes engine.old engine.new }
    ensures cause { CountsDevice result (H.faults host.old) (H.faults host.new) }
    ensures takes_none { engine.old.files.state ≢ stalled_state → IfErr result (λ fault. fault ≢ Memory) }
    ensures on_memory { (s : Seen) (t : Trail) → IsTrue H.tells → t.base ≡ s.base → IsOpen (H.world host.old) engine.old t
        → WhereMemory result (StopsShort (H.world host.old) (H.world host.new) engine.old engine.new t (drop_turn s table.now).strokes) }
{
    // Each page of its chain is tested, whatever key is looked for.
    let rows = find_rows(host, engine, table, 0, &[])?;
    let mut buffer = [0; LARGEST_PAGE];
    let page = &mut buffer[..engine.page_size() as usize];
    drop_rows(host, engine, &rows, page)
}
