// Attaching reads the allocation pages of a difference file, group by group, until one isn't full.
ghost use Rattle.std.specs.Prelude.{◌≡◌, ◌≢◌, ℕ, suc, ◌+◌, ◌*◌, ◌/◌, ◌<◌, ◌≤◌, IsTrue, true, false, List, [], length, Some, Result, IfOk, IfErr, OnOk};
ghost use Rattle.nb_host.specs.declared.faults.Fault.TheVariants.{Device};
ghost use Rattle.nb_host.specs.Causes.{CountsDevice};
ghost use Rattle.nb_fields.specs.Places.{is_page_size, slots_in, most_pages};
ghost use Rattle.nb_fields.specs.Table.{page_in, entries_from, groups_from, table_of};
ghost use Rattle.nb_page.specs.Quiet.{Quiet};
ghost use Rattle.nb_delta.specs.Reading.{is_unfit, Counts, Reads, ReadsOn, ReadsGroup};

use crate::entries::Entries;
use crate::places::{alloc_page_of, slots_in};
use nb_fields::{MOST_PAGES, number_at};
use nb_host::{Fault, Host, Name, Refusal};

fn broken(page: u32) -> Fault
    ensures { result ≡ Fault.Refused (Refusal.BadDelta page) }
{
    Fault::Refused(Refusal::BadDelta { page })
}

/// Whether a number can't be that of the next entry: it is no page's, or there is an entry of that page.
fn is_unfit(number: u32, entries: &Entries) -> bool
    ensures { result ≡ is_unfit number entries.now }
{
    number >= MOST_PAGES || entries.place_of(number).is_some()
}

/// Reads entry `i` of the group whose allocation page, at `at`, is `page`. The file has `len` bytes.
fn read_entry(page: &[u8], at: u32, i: u32, len: u64, entries: &mut Entries) -> Result<(), Fault>
    requires size { IsTrue (is_page_size (length page.now)) }
    requires at { at ≤ 33693696 }
    requires inside { i < slots_in (length page.now) }
    ensures answer { (bytes : List ℕ) → (left : ℕ) → length bytes ≡ len → page_in (length page.now) bytes at ≡ page.now
        → ReadsOn (entries_from (length page.now) at i (suc left) bytes entries.old) result (entries_from (length page.now) at (i + 1) left bytes entries.new) }
    ensures more { OnOk result (length entries.new ≡ length entries.old + 1) }
    ensures few { OnOk result (length entries.new ≤ most_pages) }
    ensures whole { OnOk result ((at + 2 + i) * length page.now ≤ len) }
    ensures cause { IfErr result (λ fault. fault ≢ Device) }
{
    let number = number_at(page, 4 + 4 * i as usize, 4) as u32;
    if is_unfit(number, entries) {
        return Err(broken(at));
    }
    if len < (at as u64 + 2 + i as u64) * page.len() as u64 {
        return Err(broken(at + 1 + i));
    }
    entries.add(number)?;
    Ok(())
}

/// Reads the entries of a group, `count` of them.
fn read_entries(
    page: &[u8],
    at: u32,
    count: u32,
    len: u64,
    entries: &mut Entries,
) -> Result<(), Fault>
    requires size { IsTrue (is_page_size (length page.now)) }
    requires at { at ≤ 33693696 }
    requires inside { count ≤ slots_in (length page.now) }
    ensures answer { (bytes : List ℕ) → length bytes ≡ len → page_in (length page.now) bytes at ≡ page.now
        → Reads (entries_from (length page.now) at 0 count bytes entries.old) result entries.new }
    ensures more { OnOk result (length entries.new ≡ length entries.old + count) }
    ensures few { OnOk result (0 < count → length entries.new ≤ most_pages) }
    ensures whole { OnOk result (0 < count → (at + 1 + count) * length page.now ≤ len) }
    ensures cause { IfErr result (λ fault. fault ≢ Device) }
{
    for i in 0..count {
        read_entry(page, at, i, len, entries)?;
    }
    Ok(())
}

/// Reads the group whose allocation page, at `at`, is `page`, and answers whether it is full.
#[tactic(auto, using(nb_fields::proofs::SizeLaws::size_facts))]
fn take_group(page: &[u8], at: u32, len: u64, entries: &mut Entries) -> Result<bool, Fault>
    requires size { IsTrue (is_page_size (length page.now)) }
    requires at { at ≤ 33693696 }
    ensures answer { (bytes : List ℕ) → (most : ℕ) → length bytes ≡ len → page_in (length page.now) bytes at ≡ page.now → (at + 1) * length page.now ≤ length bytes
        → ReadsGroup (groups_from (suc most) (length page.now) at bytes entries.old) result (groups_from most (length page.now) (at + slots_in (length page.now) + 1) bytes entries.new) entries.new }
    ensures more { IfOk result (λ full. Counts full (slots_in (length page.now)) (length entries.old) (length entries.new)) }
    ensures whole { IfOk result (λ full. full ≡ true → (at + slots_in (length page.now) + 1) * length page.now ≤ len) }
    ensures cause { IfErr result (λ fault. fault ≢ Device) }
{
    let room = slots_in(page.len() as u32);
    let count = number_at(page, 0, 4) as u32;
    if count > room {
        return Err(broken(at));
    }
    read_entries(page, at, count, len, entries)?;
    Ok(count == room)
}

/// What there is of an allocation page that the file, of `len` bytes, doesn't hold whole: nothing, or a part.
fn read_end(size: u32, at: u32, len: u64) -> Result<bool, Fault>
    requires size { IsTrue (is_page_size size) }
    requires at { at ≤ 33693696 }
    ensures answer { (bytes : List ℕ) → (found : List ℕ) → (most : ℕ) → (rest : Result (List ℕ) ℕ) → length bytes ≡ len → length bytes < (at + 1) * size
        → ReadsGroup (groups_from (suc most) size at bytes found) result rest found }
    ensures last { IfOk result (λ full. full ≡ false) }
    ensures cause { IfErr result (λ fault. fault ≢ Device) }
{
    if len > at as u64 * size as u64 {
        return Err(broken(at));
    }
    Ok(false)
}

/// Reads the group whose allocation page stands at `at`, and answers whether it is full.
fn read_group<H: Host>(
    host: &mut H,
    name: &Name,
    at: u32,
    len: u64,
    page: &mut [u8],
    entries: &mut Entries,
) -> Result<bool, Fault>
    requires size { IsTrue (is_page_size (length page.old)) }
    requires at { at ≤ 33693696 }
    ensures answer { IsTrue H.tells → (bytes : List ℕ) → (most : ℕ) → (H.world host.old).files name.now ≡ Some bytes → length bytes ≡ len
        → ReadsGroup (groups_from (suc most) (length page.old) at bytes entries.old) result (groups_from most (length page.old) (at + slots_in (length page.old) + 1) bytes entries.new) entries.new }
    ensures more { IfOk result (λ full. Counts full (slots_in (length page.old)) (length entries.old) (length entries.new)) }
    ensures whole { IfOk result (λ full. full ≡ true → (at + slots_in (length page.old) + 1) * length page.old ≤ len) }
    ensures quiet { Quiet (H.world host.old) (H.world host.new) }
    ensures reads { IsTrue H.tells → OnOk result ((H.world host.new).reads ≡ (H.world host.old).reads + 1) }
    ensures cause { CountsDevice result (H.faults host.old) (H.faults host.new) }
{
    let is_whole = host.read_page(name, at, page)?;
    if is_whole {
        take_group(page, at, len, entries)
    } else {
        read_end(page.len() as u32, at, len)
    }
}

/// More groups than the pages of a database fill.
const MOST_GROUPS: u32 = 4113;

/// Reads the entries of a file that has `len` bytes, through `page`.
pub fn read_table<H: Host>(
    host: &mut H,
    name: &Name,
    len: u64,
    page: &mut [u8],
    entries: &mut Entries,
) -> Result<(), Fault>
    requires size { IsTrue (is_page_size (length page.old)) }
    requires none { entries.old ≡ [] }
    ensures answer { IsTrue H.tells → (bytes : List ℕ) → (H.world host.old).files name.now ≡ Some bytes → length bytes ≡ len
        → Reads (table_of (length page.old) bytes) result entries.new }
    ensures quiet { Quiet (H.world host.old) (H.world host.new) }
    ensures reads { IsTrue H.tells → OnOk result ((H.world host.new).reads ≡ (H.world host.old).reads + length entries.new / slots_in (length page.old) + 1) }
    ensures cause { CountsDevice result (H.faults host.old) (H.faults host.new) }
{
    let size = page.len() as u32;
    for group in 0..MOST_GROUPS {
        let is_full = read_group(host, name, alloc_page_of(size, group), len, page, entries)?;
        if !is_full {
            return Ok(());
        }
    }
    Ok(())
}
