// The entries that wait come into the table together. First there is room after all of their groups, and what stands in
// their slots is kept for good. Only then the allocation pages name them.
ghost use Rattle.std.specs.Prelude.{◌≡◌, ℕ, ◌+◌, ◌-◌, ◌*◌, ◌/◌, ◌<◌, ◌≤◌, IsTrue, List, length, replicate, OnOk};
ghost use Rattle.nb_host.specs.Crash.{IsDurable};
ghost use Rattle.nb_host.specs.Calls.{IsSilent};
ghost use Rattle.nb_host.specs.Causes.{CountsFault};
ghost use Rattle.nb_fields.specs.Places.{is_page_size, slots_in};
ghost use Rattle.nb_change.specs.Changes.{Only, Changes, Moved};
ghost use Rattle.nb_delta.specs.Slots.{HasZeros};
ghost use Rattle.nb_delta.specs.Waiting.{Waits, Stays, FrontStep, HasAll};
ghost use Rattle.nb_delta.specs.Groups.{GroupStep, GroupPut, Empties, NotesSome, NotesAll};

use crate::entries::Entries;
use crate::places::{alloc_page_of, slots_in};
use crate::writing::{fill_group, sync_if};
use nb_host::{Host, HostFault, Name};

/// Writes the allocation page of a group.
fn write_group<H: Host>(host: &mut H, name: &Name, group: u32, page: &[u8]) -> Result<(), HostFault>
    requires size { IsTrue (is_page_size (length page.now)) }
    requires group { group ≤ 4113 }
    ensures put { IsTrue H.tells → OnOk result (GroupPut (length page.now) group page.now ((H.world host.old).files name.now) ((H.world host.new).files name.now)) }
    ensures changes { IsTrue H.tells
        → Changes (H.world host.old) (H.world host.new) (Only name.now) (Moved (H.world host.old) name.now (GroupStep (length page.now) group page.now)) }
    ensures log { IsSilent (H.world host.old) (H.world host.new) }
    ensures cause { CountsFault result (H.faults host.old) (H.faults host.new) }
{
    host.write_page(name, alloc_page_of(page.len() as u32, group), page)
}

/// Writes pages of zeros in the places of the allocation pages after group `first`, up to that of group `last`.
fn empty_groups<H: Host>(
    host: &mut H,
    name: &Name,
    first: u32,
    last: u32,
    zeros: &[u8],
) -> Result<(), HostFault>
    requires size { IsTrue (is_page_size (length zeros.now)) }
    requires zeros { zeros.now ≡ replicate (length zeros.now) 0 }
    requires order { first ≤ last }
    requires last { last ≤ 4113 }
    ensures emptied { IsTrue H.tells → OnOk result (Empties (length zeros.now) first last ((H.world host.old).files name.now) ((H.world host.new).files name.now)) }
    ensures changes { IsTrue H.tells → (n : ℕ) → n < (first + 1) * slots_in (length zeros.now)
        → Changes (H.world host.old) (H.world host.new) (Only name.now) (Moved (H.world host.old) name.now (Stays (length zeros.now) n)) }
    ensures log { IsSilent (H.world host.old) (H.world host.new) }
    ensures cause { CountsFault result (H.faults host.old) (H.faults host.new) }
{
    for group in first..last {
        write_group(host, name, group + 1, zeros)?;
    }
    Ok(())
}

/// Makes room after group `first` and those after it, up to the allocation page of group `last`, and keeps the file for
/// good, with what stands in its slots.
fn make_ready<H: Host>(
    host: &mut H,
    name: &Name,
    first: u32,
    last: u32,
    page: &mut [u8],
) -> Result<(), HostFault>
    requires size { IsTrue (is_page_size (length page.old)) }
    requires order { first ≤ last }
    requires last { last ≤ 4113 }
    ensures emptied { IsTrue H.tells → OnOk result (Empties (length page.old) first last ((H.world host.old).files name.now) ((H.world host.new).files name.now)) }
    ensures durable { IsTrue H.tells → OnOk result (IsDurable (H.world host.new) name.now ((H.world host.new).files name.now)) }
    ensures changes { IsTrue H.tells → (n : ℕ) → n < (first + 1) * slots_in (length page.old)
        → Changes (H.world host.old) (H.world host.new) (Only name.now) (Moved (H.world host.old) name.now (Stays (length page.old) n)) }
    ensures log { IsSilent (H.world host.old) (H.world host.new) }
    ensures cause { CountsFault result (H.faults host.old) (H.faults host.new) }
{
    page.fill(0);
    empty_groups(host, name, first, last, page)?;
    sync_if(host, name, true)
}

/// Fills in and writes the allocation page of a group of these entries.
fn note_group<H: Host>(
    host: &mut H,
    name: &Name,
    entries: &Entries,
    group: u32,
    page: &mut [u8],
) -> Result<(), HostFault>
    requires size { IsTrue (is_page_size (length page.old)) }
    requires few { group ≤ 4113 }
    requires group { group * slots_in (length page.old) < length entries.now }
    ensures noted { IsTrue H.tells → OnOk result (NotesAll (length page.old) entries.now group (group + 1) ((H.world host.old).files name.now) ((H.world host.new).files name.now)) }
    ensures changes { IsTrue H.tells
        → Changes (H.world host.old) (H.world host.new) (Only name.now) (Moved (H.world host.old) name.now (NotesSome (length page.old) entries.now group (group + 1))) }
    ensures log { IsSilent (H.world host.old) (H.world host.new) }
    ensures cause { CountsFault result (H.faults host.old) (H.faults host.new) }
{
    fill_group(page, entries, group);
    write_group(host, name, group, page)
}

/// Writes the allocation pages of the groups from `first` on and before `end`, in rising order.
fn note_groups<H: Host>(
    host: &mut H,
    name: &Name,
    entries: &Entries,
    first: u32,
    end: u32,
    page: &mut [u8],
) -> Result<(), HostFault>
    requires size { IsTrue (is_page_size (length page.old)) }
    requires order { first ≤ end }
    requires few { end ≤ 4113 }
    requires inside { (g : ℕ) → g < end → g * slots_in (length page.old) < length entries.now }
    ensures noted { IsTrue H.tells → OnOk result (NotesAll (length page.old) entries.now first end ((H.world host.old).files name.now) ((H.world host.new).files name.now)) }
    ensures changes { IsTrue H.tells
        → Changes (H.world host.old) (H.world host.new) (Only name.now) (Moved (H.world host.old) name.now (NotesSome (length page.old) entries.now first end)) }
    ensures log { IsSilent (H.world host.old) (H.world host.new) }
    ensures cause { CountsFault result (H.faults host.old) (H.faults host.new) }
{
    for group in first..end {
        note_group(host, name, entries, group, page)?;
    }
    Ok(())
}

/// Writes the allocation pages of these groups, and keeps the file for good.
fn note_all<H: Host>(
    host: &mut H,
    name: &Name,
    entries: &Entries,
    first: u32,
    end: u32,
    page: &mut [u8],
) -> Result<(), HostFault>
    requires size { IsTrue (is_page_size (length page.old)) }
    requires order { first ≤ end }
    requires few { end ≤ 4113 }
    requires inside { (g : ℕ) → g < end → g * slots_in (length page.old) < length entries.now }
    ensures noted { IsTrue H.tells → OnOk result (NotesAll (length page.old) entries.now first end ((H.world host.old).files name.now) ((H.world host.new).files name.now)) }
    ensures changes { IsTrue H.tells
        → Changes (H.world host.old) (H.world host.new) (Only name.now) (Moved (H.world host.old) name.now (NotesSome (length page.old) entries.now first end)) }
    ensures durable { IsTrue H.tells → OnOk result (IsDurable (H.world host.new) name.now ((H.world host.new).files name.now)) }
    ensures log { IsSilent (H.world host.old) (H.world host.new) }
    ensures cause { CountsFault result (H.faults host.old) (H.faults host.new) }
{
    note_groups(host, name, entries, first, end, page)?;
    sync_if(host, name, true)
}

/// Brings the last of these entries, `drafted` of them, into the file's table. Their slots are written.
pub fn put_waiting<H: Host>(
    host: &mut H,
    name: &Name,
    entries: &Entries,
    drafted: u32,
    page: &mut [u8],
) -> Result<(), HostFault>
    requires size { IsTrue (is_page_size (length page.old)) }
    requires some { 0 < drafted }
    requires few { drafted ≤ length entries.now }
    ensures written { IsTrue H.tells → (table : List ℕ) → (waiting : List ℕ) → Waits (length page.old) entries.now drafted table waiting ((H.world host.old).files name.now)
        → OnOk result (HasAll (length page.old) entries.now ((H.world host.old).files name.now) ((H.world host.new).files name.now)) }
    ensures zeros { IsTrue H.tells → (table : List ℕ) → (waiting : List ℕ) → Waits (length page.old) entries.now drafted table waiting ((H.world host.old).files name.now)
        → OnOk result (HasZeros (length page.old) ((H.world host.new).files name.now) (length entries.now)) }
    ensures changes { IsTrue H.tells → (table : List ℕ) → (waiting : List ℕ) → Waits (length page.old) entries.now drafted table waiting ((H.world host.old).files name.now)
        → Changes (H.world host.old) (H.world host.new) (Only name.now) (Moved (H.world host.old) name.now (FrontStep (length page.old) table waiting ((H.world host.old).files name.now))) }
    ensures durable { IsTrue H.tells → OnOk result (IsDurable (H.world host.new) name.now ((H.world host.new).files name.now)) }
    ensures log { IsSilent (H.world host.old) (H.world host.new) }
    ensures cause { CountsFault result (H.faults host.old) (H.faults host.new) }
{
    let room = slots_in(page.len() as u32);
    let count = entries.len();
    let first = (count - drafted) / room;
    make_ready(host, name, first, count / room, page)?;
    note_all(host, name, entries, first, (count - 1) / room + 1, page)
}
