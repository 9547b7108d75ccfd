// What a standby is, by its first bytes and its length.
ghost use Rattle.std.specs.Prelude.{◌≡◌, ◌+◌, ◌*◌, ◌≤◌, ℕ, List, true, Some, IfOk, IsTrue, length, take};
ghost use Rattle.nb_host.specs.Causes.{CountsDevice, FaultCount};
ghost use Rattle.nb_fields.specs.Header.{is_header, size_of};
ghost use Rattle.nb_fields.specs.Places.{is_page_size, most_pages};
ghost use Rattle.nb_host.specs.declared.refusals.Refusal.TheVariants.{NotDatabase};
ghost use Rattle.nb_model.specs.Causes.{TestedByReads, not_database};
ghost use Rattle.nb_model.specs.InPlace.{not_standby};
ghost use Rattle.nb_page.specs.Quiet.{Quiet};
ghost use Rattle.nb_inplace.specs.Standby.{IsStandby, IsWholeStandby};

use nb_cases::{Case, Event, case_of};
use nb_fields::MOST_PAGES;
use nb_fields::layouts::header;
use nb_host::{Fault, Host, Name, Refusal};
use nb_page::{Header, read_header};

/// How many bytes say what a standby is: its header, and after it the access.
const START: usize = 66;

/// How many pages a database has at least.
const LEAST_PAGES: u64 = 5;

/// A standby, as a merge finds it.
#[derive(Clone, Copy)]
pub struct Standby {
    pub header: Header,
    /// No statement may change a page of it.
    pub is_read_only: bool,
    /// A merge into it was stopped.
    pub is_begun: bool,
    /// How many pages its file has, pages of zeros at the end among them.
    pub pages: u32,
}

/// The refusal of a file that is no database, by that page.
pub(crate) fn no_database(page: u32) -> Fault
    ensures { result ≡ Fault.Refused (NotDatabase page) }
{
    Fault::Refused(Refusal::NotDatabase { page })
}

/// How many pages a file of `len` bytes after a header has. The refusal is `NotDatabase`, where they aren't 5 to 1,048,576 whole pages.
fn pages_in(len: u64, page_size: u32) -> Result<u32, Fault>
    requires { IsTrue (is_page_size page_size) }
    ensures test { (bytes : List ℕ) → is_header bytes ≡ true → size_of bytes ≡ page_size → length bytes ≡ len → TestedByReads result (not_database bytes) }
    ensures pages { IfOk result (λ pages. len ≡ pages * page_size) }
    ensures least { IfOk result (λ pages. 5 ≤ pages) }
    ensures most { IfOk result (λ pages. pages ≤ most_pages) }
    ensures cause { (faults : FaultCount) → CountsDevice result faults faults }
{
    let size = u64::from(page_size);
    let most = u64::from(MOST_PAGES);
    let pages = len / size;
    if len % size != 0 || pages < LEAST_PAGES || pages > most {
        return Err(no_database(pages.min(most) as u32));
    }
    Ok(pages as u32)
}

/// The standby of `len` bytes that begins so. The refusals are `NotDatabase` and `WrongState`.
fn standby_in(first: &[u8], len: u64) -> Result<Standby, Fault>
    ensures test { (name bytes : List ℕ) → length bytes ≡ len → first.now ≡ take 66 bytes → TestedByReads result (not_standby name (Some bytes)) }
    ensures value { (bytes : List ℕ) → length bytes ≡ len → first.now ≡ take 66 bytes → IfOk result (IsStandby bytes) }
    ensures whole { IfOk result IsWholeStandby }
    ensures cause { (faults : FaultCount) → CountsDevice result faults faults }
{
    if first.len() < START {
        return Err(no_database(0));
    }
    let Some(header) = read_header(first) else {
        return Err(no_database(0));
    };
    let pages = pages_in(len, header.page_size)?;
    let case = case_of(header.state, Event::Apply);
    if case == Case::WrongState {
        let found = u32::from(header.state);
        return Err(Fault::Refused(Refusal::WrongState { found }));
    }
    Ok(Standby {
        header,
        is_read_only: header::Access::get(first) != 0,
        is_begun: case == Case::GoOrUnfinished,
        pages,
    })
}

/// Reads what a standby is. It changes nothing, and takes no memory.
///
/// The refusals are `NoFile`, `NotDatabase` and `WrongState`, in this order.
pub fn read_standby<H: Host>(host: &mut H, name: &Name) -> Result<Standby, Fault>
    ensures test { IsTrue H.tells → TestedByReads result (not_standby name.now ((H.world host.old).files name.now)) }
    ensures value { IsTrue H.tells → (bytes : List ℕ) → (H.world host.old).files name.now ≡ Some bytes → IfOk result (IsStandby bytes) }
    ensures whole { IfOk result IsWholeStandby }
    ensures quiet { Quiet (H.world host.old) (H.world host.new) }
    ensures reads { IsTrue H.tells → (H.world host.new).reads ≤ (H.world host.old).reads + 1 }
    ensures cause { CountsDevice result (H.faults host.old) (H.faults host.new) }
{
    let Some(len) = host.size(name)? else {
        return Err(Fault::Refused(Refusal::NoFile {
            name: name.copied(),
        }));
    };
    let mut first = [0; START];
    let got = host.read_at(name, 0, &mut first)?;
    standby_in(&first[..got], len)
}
