// A table is made.
ghost use Rattle.std.specs.Prelude.{◌≡◌, ◌<◌, ◌≤◌, true, IsTrue, IfOk, IfSome, length, ◌≢◌, IfErr};
ghost use Rattle.nb_fields.specs.Places.{most_pages};
ghost use Rattle.nb_fields.specs.Kinds.{data_kind};
ghost use Rattle.nb_host.specs.Causes.{CountsDevice};
ghost use Rattle.nb_model.specs.Chains.{Catalogue, found_pages, free_spot, last_of, spots};
ghost use Rattle.nb_model.specs.Outcomes.{Seen};
ghost use Rattle.nb_model.specs.Forms.{is_kind};
ghost use Rattle.nb_model.specs.Tables.{create_turn};
ghost use Rattle.nb_model.specs.Trail.{Trail};
ghost use Rattle.nb_engine.specs.Data.{unmade};
ghost use Rattle.nb_engine.specs.Replies.{done};
ghost use Rattle.nb_engine.specs.Tries.{StopsShort, Tries, WhereMemory};
ghost use Rattle.nb_state.specs.Open.{IsOpen};
ghost use Rattle.nb_state.specs.Looks.{Looks};
ghost use Rattle.nb_model.specs.Causes.{Tested};
ghost use Rattle.nb_state.specs.Does.{Does, Goes};
ghost use Rattle.nb_table.specs.Creates.{IsLastOf, created_in, created_behind, new_cause};
ghost use Rattle.nb_table.specs.Walks.{IsPlaced, place_at};
ghost use Rattle.nb_fields.specs.States.{stalled_state};
ghost use Rattle.nb_host.specs.declared.faults.Fault.TheVariants.{Memory};

use crate::LARGEST_PAGE;
use crate::look::{MOST_TABLES, Place, Sought};
use crate::put::put_slot;
use crate::rows::check_access;
use crate::slots::table_bytes;
use crate::walk::walk;
use nb_engine::Engine;
use nb_host::{Fault, Host, Refusal};
use nb_model::TableName;

/// What stands in the owner field of each page of the catalogue.
const CATALOGUE: u32 = 0;

/// Tests that a table of that name may be made, and answers the first free slot of the catalogue, and its last page. The refusals are
/// `NotDatabase` of the catalogue, `TableExists` and `TooManyTables`, in this order.
fn check_table<H: Host>(
    host: &mut H,
    engine: &mut Engine,
    table: &TableName,
    page: &mut [u8],
) -> Result<(Option<Place>, u32), Fault>
    requires size { length page.old ≡ engine.old.files.page_size }
    ensures test { (t : Trail) → IsTrue H.tells → IsOpen (H.world host.old) engine.old t → Tested result (new_cause t.base.image table.now) }
    ensures room { (t : Trail) → IsTrue H.tells → IsOpen (H.world host.old) engine.old t → IfOk result (λ (room, last). room ≡ place_at (free_spot (spots Catalogue t.base.image))) }
    ensures last { (t : Trail) → IsTrue H.tells → IsOpen (H.world host.old) engine.old t → IfOk result (λ (room, last). last ≡ last_of (found_pages Catalogue t.base.image)) }
    ensures placed { IfOk result (λ (room, last). IfSome room (IsPlaced engine.old.files.page_size)) }
    ensures low { IfOk result (λ (room, last). 0 < last) }
    ensures high { IfOk result (λ (room, last). last < most_pages) }
    ensures looks { Looks H.tells (H.world host.old) (H.world host.new) engine.old engine.new }
    ensures cause { CountsDevice result (H.faults host.old) (H.faults host.new) }
    ensures takes_none { IfErr result (λ fault. fault ≢ Memory) }
{
    let (walked, last) = walk(host, engine, &Sought::Table(table.copied()), page)?;
    if walked.found.is_some() {
        return Err(Fault::Refused(Refusal::TableExists));
    }
    if walked.used >= MOST_TABLES {
        return Err(Fault::Refused(Refusal::TooManyTables));
    }
    Ok((walked.room, last))
}

/// Makes the first page of a table, and then its slot in the catalogue at that place. All is tested before the first write.
///
/// The refusals are `NotDatabase` of a database of fewer than five pages, by its length, or of the lowest page that isn't of its kind, and
/// `Full`.
fn create_in<H: Host>(
    host: &mut H,
    engine: &mut Engine,
    table: &TableName,
    place: Place,
) -> Result<(), Fault>
    requires placed { IsPlaced engine.old.files.page_size place }
    ensures tries { (t : Trail) → IsTrue H.tells → IsOpen (H.world host.old) engine.old t → is_kind t.base.image data_kind place.page ≡ true
        → Tries result (H.world host.old) (H.world host.new) engine.old engine.new t (unmade t.base.image (created_in t.base.image table.now place)) (created_in t.base.image table.now place).strokes }
    ensures goes { Goes engine.old engine.new }
    ensures cause { CountsDevice result (H.faults host.old) (H.faults host.new) }
    ensures takes_none { engine.old.files.state ≢ stalled_state → IfErr result (λ fault. fault ≢ Memory) }
{
    // Nothing is made where the slot isn't to be written after it.
    engine.room_for(host, 1, place.page)?;
    let first = engine.data_new(host, None, &[])?;
    put_slot(host, engine, place, &table_bytes(table, first))
}

/// Makes the first page of a table, and then one after the last of the catalogue, in which its slot stands. All is tested before the first
/// write.
///
/// The refusals are `NotDatabase` of a database of fewer than five pages, by its length, or of the lowest page that isn't of its kind, and
/// `Full`, where not both pages are left.
fn create_behind<H: Host>(
    host: &mut H,
    engine: &mut Engine,
    table: &TableName,
    last: u32,
) -> Result<(), Fault>
    requires name { length table.now ≤ 240 }
    requires low { 0 < last }
    requires high { last < most_pages }
    ensures tries { (t : Trail) → IsTrue H.tells → IsOpen (H.world host.old) engine.old t → IsLastOf t.base.image last
        → Tries result (H.world host.old) (H.world host.new) engine.old engine.new t (unmade t.base.image (created_behind t.base.image table.now)) (created_behind t.base.image table.now).strokes }
    ensures goes { Goes engine.old engine.new }
    ensures cause { CountsDevice result (H.faults host.old) (H.faults host.new) }
    ensures takes_none { engine.old.files.state ≢ stalled_state → IfErr result (λ fault. fault ≢ Memory) }
{
    // Nothing is made where the second page isn't to be had, or the last one of the catalogue isn't to be linked to it.
    engine.room_for(host, 2, last)?;
    let first = engine.data_new(host, None, &[])?;
    engine.data_grow(host, last, CATALOGUE, &table_bytes(table, first))?;
    Ok(())
}

/// Makes a table without rows: its first page, and then its slot in the catalogue, which is the moment at which it is there. It wants memory
/// in the stalled state alone, and has not made its last write then: the table isn't there.
///
/// The refusals are `Access`, `NotDatabase` of the catalogue, `TableExists`, `TooManyTables` where there are 12, `NotDatabase` of a database
/// of fewer than five pages, by its length, or of the lowest page that is written and isn't of its kind, and `Full`, in this order. A refused
/// call changes nothing.
pub fn create<H: Host>(host: &mut H, engine: &mut Engine, table: &TableName) -> Result<(), Fault>
    ensures turn { (s : Seen) (t : Trail) → IsTrue H.tells → t.base ≡ s.base → IsOpen (H.world host.old) engine.old t
        → Does done result (H.world host.old) (H.world host.new) engine.old engine.new t (create_turn s table.now) }
    ensures goes { Goes engine.old engine.new }
    ensures cause { CountsDevice result (H.faults host.old) (H.faults host.new) }
    ensures takes_none { engine.old.files.state ≢ stalled_state → IfErr result (λ fault. fault ≢ Memory) }
    ensures on_memory { (s : Seen) (t : Trail) → IsTrue H.tells → t.base ≡ s.base → IsOpen (H.world host.old) engine.old t
        → WhereMemory result (StopsShort (H.world host.old) (H.world host.new) engine.old engine.new t (create_turn s table.now).strokes) }
{
    // Contracts ask for its length, which is known of a name.
    let _name = table.as_str();
    check_access(engine.store().is_read_only())?;
    let mut buffer = [0; LARGEST_PAGE];
    let page = &mut buffer[..engine.page_size() as usize];
    let (free, last) = check_table(host, engine, table, page)?;
    match free {
        Some(place) => create_in(host, engine, table, place),
        None => create_behind(host, engine, table, last),
    }
}
