// A copy that is to be fixed is tested, and its page 0 is read.
ghost use Rattle.std.specs.Prelude.{◌≡◌, ◌≢◌, ◌≤◌, ◌+◌, ℕ, List, true, None, Some, IfErr, IfOk, IsTrue, MatchOption, length, take};
ghost use Rattle.nb_host.specs.Causes.{CountsDevice, FaultCount};
ghost use Rattle.nb_fields.specs.Header.{is_header, size_of};
ghost use Rattle.nb_fields.specs.Places.{is_page_size};
ghost use Rattle.nb_host.specs.declared.faults.Fault.TheVariants.{Memory as MemoryFault};
ghost use Rattle.nb_host.specs.declared.refusals.Refusal.TheVariants.{NotDatabase};
ghost use Rattle.nb_model.specs.Causes.{TestedByReads, not_database};
ghost use Rattle.nb_page.specs.Quiet.{Quiet};
ghost use Rattle.nb_fixup.specs.Fixup.{fixup_cause};
ghost use Rattle.nb_fixup.specs.Tests.{IsPageOf, copy_cause, file_cause};

use nb_cases::{Case, Event, case_of};
use nb_fields::MOST_PAGES;
use nb_fields::layouts::header;
use nb_host::{Fault, Host, Name, Refusal};
use nb_page::read_header;

/// How many pages a database has at least.
const LEAST_PAGES: u64 = 5;

/// The refusal of a file that is no database, by that page.
fn no_database(page: u32) -> Fault
    ensures { result ≡ Fault.Refused (NotDatabase page) }
{
    Fault::Refused(Refusal::NotDatabase { page })
}

/// The page that a file of `len` bytes after a header is refused by, where they aren't 5 to 1,048,576 whole pages.
fn broken_page(len: u64, page_size: u32) -> Option<u32>
    requires { IsTrue (is_page_size page_size) }
    ensures { (bytes : List ℕ) → is_header bytes ≡ true → size_of bytes ≡ page_size → length bytes ≡ len → MatchOption result (not_database bytes ≡ None) (λ page. not_database bytes ≡ Some (NotDatabase page)) }
{
    let size = u64::from(page_size);
    let most = u64::from(MOST_PAGES);
    let pages = len / size;
    if len % size != 0 || pages < LEAST_PAGES || pages > most {
        return Some(pages.min(most) as u32);
    }
    None
}

/// The page size of a copy of `len` bytes that begins so, as far as the largest page goes. The refusals are `NotDatabase` and
/// `WrongState`.
fn page_size_of(first: &[u8], len: u64) -> Result<u32, Fault>
    ensures test { (bytes : List ℕ) → length bytes ≡ len → first.now ≡ take 32768 bytes → TestedByReads result (copy_cause bytes) }
    ensures size { (bytes : List ℕ) → first.now ≡ take 32768 bytes → IfOk result (λ size. size ≡ size_of bytes) }
    ensures one_of { IfOk result (λ size. IsTrue (is_page_size size)) }
    ensures whole { IfOk result (λ size. size ≤ length first.now) }
    ensures no_memory { IfErr result (λ fault. fault ≢ MemoryFault) }
    ensures cause { (faults : FaultCount) → CountsDevice result faults faults }
{
    if first.len() < header::LENGTH {
        return Err(no_database(0));
    }
    let Some(header) = read_header(first) else {
        return Err(no_database(0));
    };
    if first.len() < header.page_size as usize {
        return Err(no_database(0));
    }
    if let Some(page) = broken_page(len, header.page_size) {
        return Err(no_database(page));
    }
    if case_of(header.state, Event::Fixup) == Case::WrongState {
        let found = u32::from(header.state);
        return Err(Fault::Refused(Refusal::WrongState { found }));
    }
    Ok(header.page_size)
}

/// Reads the first bytes of a file, as far as the largest page goes, and answers the page size. It changes nothing.
///
/// The refusals are `NoFile`, `NotDatabase` and `WrongState`, in this order.
fn read_first<H: Host>(host: &mut H, name: &Name, first: &mut [u8]) -> Result<u32, Fault>
    requires { length first.old ≡ 32768 }
    ensures test { IsTrue H.tells → TestedByReads result (file_cause name.now ((H.world host.old).files name.now)) }
    ensures page { IsTrue H.tells → (bytes : List ℕ) → (H.world host.old).files name.now ≡ Some bytes → IfOk result (IsPageOf bytes first.new) }
    ensures one_of { IfOk result (λ size. IsTrue (is_page_size size)) }
    ensures no_memory { IfErr result (λ fault. fault ≢ MemoryFault) }
    ensures quiet { Quiet (H.world host.old) (H.world host.new) }
    ensures reads { IsTrue H.tells → (H.world host.new).reads ≤ (H.world host.old).reads + 1 }
    ensures cause { CountsDevice result (H.faults host.old) (H.faults host.new) }
{
    let Some(len) = host.size(name)? else {
        return Err(Fault::Refused(Refusal::NoFile {
            name: name.copied(),
        }));
    };
    let got = host.read_at(name, 0, first)?;
    page_size_of(&first[..got], len)
}

/// Reads page 0 of a copy that can be fixed into the front of `first`, and answers how long that is. It changes nothing.
///
/// The refusals are `NoFile`, `NotDatabase`, `WrongState` and `DeltaPresent`, in this order.
pub(crate) fn read_copy<H: Host>(host: &mut H, name: &Name, first: &mut [u8]) -> Result<u32, Fault>
    requires name { length name.now ≤ 94 }
    requires room { length first.old ≡ 32768 }
    ensures test { IsTrue H.tells → TestedByReads result (fixup_cause (H.world host.old).files name.now) }
    ensures page { IsTrue H.tells → (bytes : List ℕ) → (H.world host.old).files name.now ≡ Some bytes → IfOk result (IsPageOf bytes first.new) }
    ensures one_of { IfOk result (λ size. IsTrue (is_page_size size)) }
    ensures no_memory { IfErr result (λ fault. fault ≢ MemoryFault) }
    ensures quiet { Quiet (H.world host.old) (H.world host.new) }
    ensures reads { IsTrue H.tells → (H.world host.new).reads ≤ (H.world host.old).reads + 1 }
    ensures cause { CountsDevice result (H.faults host.old) (H.faults host.new) }
{
    let size = read_first(host, name, first)?;
    let delta = name.delta();
    if host.size(&delta)?.is_some() {
        return Err(Fault::Refused(Refusal::DeltaPresent { name: delta }));
    }
    Ok(size)
}
