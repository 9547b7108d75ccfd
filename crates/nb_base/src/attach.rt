// A database is opened: its files are tested and kept for good, and change in nothing.
ghost use Rattle.std.specs.Prelude.{◌≡◌, ◌+◌, ◌*◌, ◌<◌, ◌≤◌, ℕ, List, IsTrue, Some, None, IfOk, OnOk, length, take, drop, max};
ghost use Rattle.nb_fields.specs.Bytes.{is_zeros};
ghost use Rattle.nb_fields.specs.Header.{size_of};
ghost use Rattle.nb_fields.specs.Places.{is_page_size, most_pages};
ghost use Rattle.nb_host.specs.Causes.{CountsDevice, CountsFault, FaultCount};
ghost use Rattle.nb_host.specs.Crash.{IsDurable};
ghost use Rattle.nb_delta.specs.Attaching.{IsFor};
ghost use Rattle.nb_page.specs.Quiet.{Quiet};
ghost use Rattle.nb_model.specs.Causes.{Tested, not_database};
ghost use Rattle.nb_model.specs.Image.{image_in};
ghost use Rattle.nb_model.specs.Owner.{behind_entries};
ghost use Rattle.nb_base.specs.Attach.{length_cause, start_cause, main_cause, IsStart, AttachesFor};
ghost use Rattle.nb_base.specs.Reads.{table_reads};

use nb_cases::{Case, Event, case_of};
use nb_delta::Delta;
use nb_fields::are_zeros;
use nb_fields::layouts::header;
use nb_host::{Fault, Host, HostFault, Name, Refusal};
use nb_page::read_header;
use std::alloc::Global;

/// How many pages a database has at least and at most.
const LEAST_PAGES: u64 = 5;

const MOST_PAGES: u64 = nb_fields::MOST_PAGES as u64;

/// What the start of a main file says of a database.
#[derive(Clone, Copy)]
pub(crate) struct Start {
    /// In bytes.
    pub(crate) page_size: u32,
    /// How many pages the file has, pages of zeros at its end among them.
    pub(crate) pages: u32,
    /// The backup state: 0 normal, 1 stalled, 2 merge.
    pub(crate) state: u16,
}

/// How many pages a file of `len` bytes has. The refusal is `NotDatabase`, where they aren't whole, too few or too many.
fn count_pages(len: u64, page_size: u32) -> Result<u32, Fault>
    requires { IsTrue (is_page_size page_size) }
    ensures test { Tested result (length_cause len page_size) }
    ensures whole { IfOk result (λ pages. len ≡ pages * page_size) }
    ensures least { IfOk result (λ pages. 5 ≤ pages) }
    ensures most { IfOk result (λ pages. pages ≤ most_pages) }
    ensures cause { (faults : FaultCount) → CountsDevice result faults faults }
{
    let size = u64::from(page_size);
    let pages = len / size;
    if len % size != 0 || pages < LEAST_PAGES {
        let page = pages.min(MOST_PAGES) as u32;
        return Err(Fault::Refused(Refusal::NotDatabase { page }));
    }
    if pages > MOST_PAGES {
        let page = MOST_PAGES as u32;
        return Err(Fault::Refused(Refusal::NotDatabase { page }));
    }
    Ok(pages as u32)
}

/// What a main file of `len` bytes says that begins so. The refusals are `NotDatabase` and `Unfinished`.
fn start_of(first: &[u8], len: u64) -> Result<Start, Fault>
    ensures test { (bytes : List ℕ) → length bytes ≡ len → first.now ≡ take 64 bytes → Tested result (start_cause bytes) }
    ensures start { (bytes : List ℕ) → length bytes ≡ len → first.now ≡ take 64 bytes → IfOk result (λ start. IsStart bytes start) }
    ensures size { IfOk result (λ start. IsTrue (is_page_size start.page_size)) }
    ensures opened { IfOk result (λ start. start.state ≤ 2) }
    ensures least { IfOk result (λ start. 5 ≤ start.pages) }
    ensures most { IfOk result (λ start. start.pages ≤ most_pages) }
    ensures cause { (faults : FaultCount) → CountsDevice result faults faults }
{
    if first.len() < header::LENGTH {
        return Err(Fault::Refused(Refusal::NotDatabase { page: 0 }));
    }
    let Some(block) = read_header(first) else {
        return Err(Fault::Refused(Refusal::NotDatabase { page: 0 }));
    };
    let pages = count_pages(len, block.page_size)?;
    if case_of(block.state, Event::Attach) == Case::Unfinished {
        return Err(Fault::Refused(Refusal::Unfinished));
    }
    Ok(Start {
        page_size: block.page_size,
        pages,
        state: block.state,
    })
}

/// Reads the start of a main file. The refusals are `NoFile`, `NotDatabase` and `Unfinished`, in this order.
pub(crate) fn read_start<H: Host>(host: &mut H, name: &Name) -> Result<Start, Fault>
    ensures test { IsTrue H.tells → Tested result (main_cause name.now ((H.world host.old).files name.now)) }
    ensures start { IsTrue H.tells → (bytes : List ℕ) → (H.world host.old).files name.now ≡ Some bytes → IfOk result (λ start. IsStart bytes start) }
    ensures size { IfOk result (λ start. IsTrue (is_page_size start.page_size)) }
    ensures opened { IfOk result (λ start. start.state ≤ 2) }
    ensures least { IfOk result (λ start. 5 ≤ start.pages) }
    ensures most { IfOk result (λ start. start.pages ≤ most_pages) }
    ensures quiet { Quiet (H.world host.old) (H.world host.new) }
    ensures reads { IsTrue H.tells → (H.world host.new).reads ≤ (H.world host.old).reads + 1 }
    ensures cause { CountsDevice result (H.faults host.old) (H.faults host.new) }
{
    let Some(len) = host.size(name)? else {
        return Err(Fault::Refused(Refusal::NoFile {
            name: name.copied(),
        }));
    };
    let mut first = [0; header::LENGTH];
    let count = host.read_at(name, 0, &mut first)?;
    start_of(&first[..count], len)
}

/// Whether page `number` of a file is all zeros, or isn't there.
fn is_blank<H: Host>(
    host: &mut H,
    name: &Name,
    number: u32,
    page: &mut [u8],
) -> Result<bool, HostFault>
    requires { IsTrue (is_page_size (length page.old)) }
    ensures answer { IsTrue H.tells → (bytes : List ℕ) → (H.world host.old).files name.now ≡ Some bytes → number * length page.old + length page.old ≤ length bytes
        → IfOk result (λ blank. blank ≡ is_zeros (take (length page.old) (drop (number * length page.old) bytes))) }
    ensures quiet { Quiet (H.world host.old) (H.world host.new) }
    ensures reads { IsTrue H.tells → OnOk result ((H.world host.new).reads ≡ (H.world host.old).reads + 1) }
    ensures cause { CountsFault result (H.faults host.old) (H.faults host.new) }
{
    let is_whole = host.read_page(name, number, page)?;
    Ok(!is_whole || are_zeros(page))
}

/// How many pages the image of a main file has: the file's pages without those of zeros at its end. Page 0 is one of them.
pub(crate) fn find_length<H: Host>(
    host: &mut H,
    name: &Name,
    pages: u32,
    page: &mut [u8],
) -> Result<u32, HostFault>
    requires size { IsTrue (is_page_size (length page.old)) }
    requires some { 1 ≤ pages }
    ensures length { IsTrue H.tells → (bytes : List ℕ) → (H.world host.old).files name.now ≡ Some bytes → not_database bytes ≡ None → size_of bytes ≡ length page.old → length bytes ≡ pages * length page.old
        → IfOk result (λ count. count ≡ length (image_in bytes)) }
    ensures most { IfOk result (λ count. count ≤ pages) }
    ensures quiet { Quiet (H.world host.old) (H.world host.new) }
    ensures reads { IsTrue H.tells → IfOk result (λ count. (H.world host.new).reads + count ≤ (H.world host.old).reads + pages + 1) }
    ensures cause { CountsFault result (H.faults host.old) (H.faults host.new) }
{
    let mut count = pages;
    while count > 1 {
        if !is_blank(host, name, count - 1, page)? {
            return Ok(count);
        }
        count -= 1;
    }
    Ok(count)
}

/// The difference file of that name. In the normal state none is looked at.
///
/// The refusals are `NoFile` and `BadDelta`.
pub(crate) fn attach_delta<H: Host>(
    alloc: Global,
    host: &mut H,
    name: &Name,
    start: Start,
) -> Result<Delta, Fault>
    requires size { IsTrue (is_page_size start.page_size) }
    ensures answer { IsTrue H.tells → AttachesFor start.state start.page_size name.now ((H.world host.old).files name.now) result }
    ensures known { IfOk result (λ delta. IsFor delta name.now start.page_size) }
    ensures quiet { Quiet (H.world host.old) (H.world host.new) }
    ensures reads { IsTrue H.tells → IfOk result (λ delta. (H.world host.new).reads ≤ (H.world host.old).reads + table_reads start.state start.page_size delta.entries) }
    ensures cause { CountsDevice result (H.faults host.old) (H.faults host.new) }
{
    if start.state == 0 {
        return Delta::blank(alloc, name, start.page_size);
    }
    Delta::attach(alloc, host, name, start.page_size)
}

/// How many pages the database has: those of the main file's image, and those before the number after the greatest entry.
pub(crate) fn count_with<H: Host>(
    host: &mut H,
    delta: &mut Delta,
    main_count: u32,
) -> Result<u32, HostFault>
    requires { main_count ≤ most_pages }
    ensures count { IfOk result (λ count. count ≡ max main_count (behind_entries delta.old.entries)) }
    ensures most { IfOk result (λ count. count ≤ most_pages) }
    ensures same { delta.new ≡ delta.old }
    ensures no_call { host.new ≡ host.old }
    ensures cause { CountsFault result (H.faults host.old) (H.faults host.new) }
{
    let mut count = main_count;
    for k in 0..delta.count() {
        let page = delta.entry(host, k)?;
        count = count.max(page + 1);
    }
    Ok(count)
}

/// Keeps the files for good: the main file, and then the difference file where the state isn't normal.
pub(crate) fn keep_files<H: Host>(
    host: &mut H,
    name: &Name,
    delta: &Name,
    state: u16,
) -> Result<(), HostFault>
    ensures main { IsTrue H.tells → OnOk result (IsDurable (H.world host.new) name.now ((H.world host.old).files name.now)) }
    ensures delta { IsTrue H.tells → 0 < state → OnOk result (IsDurable (H.world host.new) delta.now ((H.world host.old).files delta.now)) }
    ensures quiet { Quiet (H.world host.old) (H.world host.new) }
    ensures reads { (H.world host.new).reads ≡ (H.world host.old).reads }
    ensures cause { CountsFault result (H.faults host.old) (H.faults host.new) }
{
    host.sync(name)?;
    if state == 0 {
        return Ok(());
    }
    host.sync(delta)
}
