// Pages are written in an order that a crash can't harm: a slot is kept for good before the table names it.
ghost use Rattle.std.specs.Prelude.{◌≡◌, ℕ, ◌+◌, ◌*◌, ◌-◌, ◌<◌, ◌≤◌, IsTrue, List, [], length, replicate, min, Some, None, OnOk};
ghost use Rattle.nb_host.specs.Crash.{LeavesAll, IsDurable};
ghost use Rattle.nb_host.specs.Calls.{IsStill, IsSilent};
ghost use Rattle.nb_host.specs.Causes.{CountsFault};
ghost use Rattle.nb_fields.specs.Places.{is_page_size, slots_in, most_pages};
ghost use Rattle.nb_fields.specs.Table.{slot_place};
ghost use Rattle.nb_change.specs.Changes.{Only, NoNames, Changes, Moved, Remade};
ghost use Rattle.nb_delta.specs.Slots.{HasTable, Keeps, SlotStep, SlotPut, Adds, AddStep, IsBlank};
ghost use Rattle.nb_delta.specs.Noting.{IsAllocation, MakesRoom, Prepared, IsReady, IsNewest, Notes, NoteStep};

use crate::entries::Entries;
use crate::places::{alloc_page_of, slot_of, slots_in};
use nb_fields::put_number;
use nb_host::{Host, HostFault, Name};

/// Writes the page of an entry into its slot.
pub fn write_slot<H: Host>(
    host: &mut H,
    name: &Name,
    slot: u32,
    bytes: &[u8],
) -> Result<(), HostFault>
    requires { IsTrue (is_page_size (length bytes.now)) }
    ensures put { IsTrue H.tells → (k : ℕ) → slot ≡ slot_place (length bytes.now) k
        → OnOk result (SlotPut (length bytes.now) k bytes.now ((H.world host.old).files name.now) ((H.world host.new).files name.now)) }
    ensures changes { IsTrue H.tells → (k : ℕ) → slot ≡ slot_place (length bytes.now) k
        → Changes (H.world host.old) (H.world host.new) (Only name.now) (Moved (H.world host.old) name.now (SlotStep (length bytes.now) k bytes.now)) }
    ensures log { IsSilent (H.world host.old) (H.world host.new) }
    ensures cause { CountsFault result (H.faults host.old) (H.faults host.new) }
{
    host.write_page(name, slot, bytes)
}

/// Keeps the file for good, where that is wanted.
pub fn sync_if<H: Host>(host: &mut H, name: &Name, wanted: bool) -> Result<(), HostFault>
    ensures still { IsStill (H.world host.old) (H.world host.new) }
    ensures durable { IsTrue H.tells → IsTrue wanted → OnOk result (IsDurable (H.world host.new) name.now ((H.world host.new).files name.now)) }
    ensures changes { Changes (H.world host.old) (H.world host.new) NoNames (LeavesAll (H.world host.old)) }
    ensures log { IsSilent (H.world host.old) (H.world host.new) }
    ensures cause { CountsFault result (H.faults host.old) (H.faults host.new) }
{
    if wanted { host.sync(name) } else { Ok(()) }
}

/// Where the entry after `place` others is the last of its group, empties the next allocation page.
fn make_room<H: Host>(
    host: &mut H,
    name: &Name,
    place: u32,
    page: &mut [u8],
) -> Result<(), HostFault>
    requires size { IsTrue (is_page_size (length page.old)) }
    requires place { place < most_pages }
    ensures room { IsTrue H.tells → OnOk result (MakesRoom (length page.old) place ((H.world host.old).files name.now) ((H.world host.new).files name.now)) }
    ensures changes { IsTrue H.tells
        → Changes (H.world host.old) (H.world host.new) (Only name.now) (Moved (H.world host.old) name.now (Keeps (length page.old) place)) }
    ensures log { IsSilent (H.world host.old) (H.world host.new) }
    ensures cause { CountsFault result (H.faults host.old) (H.faults host.new) }
{
    let size = page.len() as u32;
    let room = slots_in(size);
    let next = (place + 1) / room;
    if next * room != place + 1 {
        return Ok(());
    }
    page.fill(0);
    host.write_page(name, alloc_page_of(size, next), page)
}

/// Writes the page of the entry after `place` others into its slot, and keeps it for good.
fn put_slot<H: Host>(
    host: &mut H,
    name: &Name,
    place: u32,
    bytes: &[u8],
    page: &mut [u8],
) -> Result<(), HostFault>
    requires size { IsTrue (is_page_size (length bytes.now)) }
    requires room { length page.old ≡ length bytes.now }
    requires place { place < most_pages }
    ensures prepared { IsTrue H.tells → OnOk result (Prepared (length bytes.now) place bytes.now ((H.world host.old).files name.now) ((H.world host.new).files name.now)) }
    ensures durable { IsTrue H.tells → OnOk result (IsDurable (H.world host.new) name.now ((H.world host.new).files name.now)) }
    ensures changes { IsTrue H.tells
        → Changes (H.world host.old) (H.world host.new) (Only name.now) (Moved (H.world host.old) name.now (Keeps (length bytes.now) place)) }
    ensures log { IsSilent (H.world host.old) (H.world host.new) }
    ensures cause { CountsFault result (H.faults host.old) (H.faults host.new) }
{
    write_slot(host, name, slot_of(bytes.len() as u32, place), bytes)?;
    make_room(host, name, place, page)?;
    sync_if(host, name, true)
}

/// Fills in the allocation page of a group.
pub fn fill_group(page: &mut [u8], entries: &Entries, group: u32)
    requires size { IsTrue (is_page_size (length page.old)) }
    requires group { group * slots_in (length page.old) < length entries.now }
    ensures { IsAllocation (length page.old) page.new entries.now group (min (slots_in (length page.old)) (length entries.now - group * slots_in (length page.old))) }
{
    let room = slots_in(page.len() as u32);
    let len = entries.len();
    let first = group * room;
    let count = (len - first).min(room);
    page.fill(0);
    put_number(page, 0, 4, count as u64);
    for i in 0..count {
        put_number(
            page,
            4 + 4 * i as usize,
            4,
            entries.page_at(first + i) as u64,
        );
    }
}

/// Writes the allocation page of a group.
fn note<H: Host>(
    host: &mut H,
    name: &Name,
    group: u32,
    page: &[u8],
    forced: bool,
) -> Result<(), HostFault>
    requires size { IsTrue (is_page_size (length page.now)) }
    requires group { group ≤ 4113 }
    ensures noted { IsTrue H.tells → (entries : List ℕ) → (number : ℕ) → IsReady (length page.now) entries number group page.now ((H.world host.old).files name.now)
        → OnOk result (Notes (length page.now) entries number ((H.world host.old).files name.now) ((H.world host.new).files name.now)) }
    ensures changes { IsTrue H.tells → (entries : List ℕ) → (number : ℕ) → IsReady (length page.now) entries number group page.now ((H.world host.old).files name.now)
        → IsDurable (H.world host.old) name.now ((H.world host.old).files name.now)
        → Changes (H.world host.old) (H.world host.new) (Only name.now) (Moved (H.world host.old) name.now (NoteStep (length page.now) entries number)) }
    ensures durable { IsTrue H.tells → IsTrue forced → OnOk result (IsDurable (H.world host.new) name.now ((H.world host.new).files name.now)) }
    ensures log { IsSilent (H.world host.old) (H.world host.new) }
    ensures cause { CountsFault result (H.faults host.old) (H.faults host.new) }
{
    host.write_page(name, alloc_page_of(page.len() as u32, group), page)?;
    sync_if(host, name, forced)
}

/// Adds the last of these entries to the file, with its page. The page is kept for good in its slot before the table
/// names it.
pub fn put_entry<H: Host>(
    host: &mut H,
    name: &Name,
    entries: &Entries,
    bytes: &[u8],
    page: &mut [u8],
    forced: bool,
) -> Result<(), HostFault>
    requires size { IsTrue (is_page_size (length bytes.now)) }
    requires room { length page.old ≡ length bytes.now }
    requires some { 0 < length entries.now }
    ensures added { IsTrue H.tells → (before : List ℕ) → (number : ℕ) → IsNewest entries.now before number → HasTable (length bytes.now) ((H.world host.old).files name.now) before
        → OnOk result (Adds (length bytes.now) before number bytes.now ((H.world host.old).files name.now) ((H.world host.new).files name.now)) }
    ensures changes { IsTrue H.tells → (before : List ℕ) → (number : ℕ) → IsNewest entries.now before number → HasTable (length bytes.now) ((H.world host.old).files name.now) before
        → Changes (H.world host.old) (H.world host.new) (Only name.now) (Moved (H.world host.old) name.now (AddStep (length bytes.now) before number bytes.now ((H.world host.old).files name.now))) }
    ensures durable { IsTrue H.tells → IsTrue forced → OnOk result (IsDurable (H.world host.new) name.now ((H.world host.new).files name.now)) }
    ensures log { IsSilent (H.world host.old) (H.world host.new) }
    ensures cause { CountsFault result (H.faults host.old) (H.faults host.new) }
{
    let place = entries.len() - 1;
    put_slot(host, name, place, bytes, page)?;
    let group = place / slots_in(bytes.len() as u32);
    fill_group(page, entries, group);
    note(host, name, group, page, forced)
}

/// Writes the page of an entry into its slot, and keeps it for good where that is wanted.
pub fn rewrite_slot<H: Host>(
    host: &mut H,
    name: &Name,
    slot: u32,
    bytes: &[u8],
    forced: bool,
) -> Result<(), HostFault>
    requires { IsTrue (is_page_size (length bytes.now)) }
    ensures put { IsTrue H.tells → (k : ℕ) → slot ≡ slot_place (length bytes.now) k
        → OnOk result (SlotPut (length bytes.now) k bytes.now ((H.world host.old).files name.now) ((H.world host.new).files name.now)) }
    ensures changes { IsTrue H.tells → (k : ℕ) → slot ≡ slot_place (length bytes.now) k
        → Changes (H.world host.old) (H.world host.new) (Only name.now) (Moved (H.world host.old) name.now (SlotStep (length bytes.now) k bytes.now)) }
    ensures durable { IsTrue H.tells → IsTrue forced → OnOk result (IsDurable (H.world host.new) name.now ((H.world host.new).files name.now)) }
    ensures log { IsSilent (H.world host.old) (H.world host.new) }
    ensures cause { CountsFault result (H.faults host.old) (H.faults host.new) }
{
    write_slot(host, name, slot, bytes)?;
    sync_if(host, name, forced)
}

/// Makes the file of one page of zeros, and keeps it for good.
pub fn make_file<H: Host>(host: &mut H, name: &Name, page: &mut [u8]) -> Result<(), HostFault>
    requires { IsTrue (is_page_size (length page.old)) }
    ensures made { IsTrue H.tells → OnOk result ((H.world host.new).files name.now ≡ Some (replicate (length page.old) 0)) }
    ensures table { IsTrue H.tells → OnOk result (HasTable (length page.old) ((H.world host.new).files name.now) []) }
    ensures durable { IsTrue H.tells → OnOk result (IsDurable (H.world host.new) name.now ((H.world host.new).files name.now)) }
    ensures changes { IsTrue H.tells
        → Changes (H.world host.old) (H.world host.new) (Only name.now) (Remade (H.world host.old) name.now (IsBlank (length page.old))) }
    ensures log { IsSilent (H.world host.old) (H.world host.new) }
    ensures cause { CountsFault result (H.faults host.old) (H.faults host.new) }
{
    host.make(name)?;
    page.fill(0);
    host.write_page(name, 0, page)?;
    host.sync(name)
}

/// Takes the file away.
pub fn remove_file<H: Host>(host: &mut H, name: &Name) -> Result<(), HostFault>
    ensures gone { IsTrue H.tells → OnOk result ((H.world host.new).files name.now ≡ None) }
    ensures changes { IsTrue H.tells
        → Changes (H.world host.old) (H.world host.new) (Only name.now) (Remade (H.world host.old) name.now (λ file. file ≡ None)) }
    ensures log { IsSilent (H.world host.old) (H.world host.new) }
    ensures cause { CountsFault result (H.faults host.old) (H.faults host.new) }
{
    host.remove(name)
}
