ghost use Rattle.std.specs.Prelude.{◌≡◌, ℕ, ◌+◌, ◌*◌, ◌/◌, ◌≤◌, List, true, false, Some, length, take, IsTrue, IfOk, MatchOption};
ghost use Rattle.nb_fields.specs.Places.{is_page_size, most_pages};
ghost use Rattle.nb_page.specs.Header.{header_in, HasForm};
ghost use Rattle.nb_page.specs.Quiet.{Quiet};
ghost use Rattle.nb_model.specs.Levels.{begins_level};
ghost use Rattle.nb_model.specs.Restoring.{not_whole};
ghost use Rattle.nb_host.specs.Causes.{CountsDevice, FaultCount};
ghost use Rattle.nb_model.specs.Causes.{TestedAlone};
ghost use Rattle.nb_chain.specs.First.{FirstSays, IsRefused, is_bad_count};
ghost use Rattle.nb_chain.specs.Most.{first_most, level_most};

use crate::start::read_start;
use crate::whole;
use nb_fields::MOST_PAGES;
use nb_fields::layouts::header;
use nb_host::{Fault, Host, Name, Refusal};
use nb_level::begins_level;
use nb_page::{Header, read_header};
use std::alloc::Global;

/// How many pages a database has at least.
const LEAST_PAGES: u64 = 5;

/// The first file of a chain: a database as its backup began.
#[derive(Clone, Copy, Debug, PartialEq, Eq)]
pub struct First {
    /// Its header, in state 1.
    pub header: Header,
    /// How many pages the file has, pages of zeros at its end among them.
    pub pages: u32,
}

/// The refusal of a file that is broken there.
fn broken(name: &Name, at: u64) -> Fault
    ensures { result ≡ Fault.Refused (Refusal.BadLevel name.now at) }
{
    Fault::Refused(Refusal::BadLevel {
        name: name.copied(),
        at,
    })
}

/// How many pages so many bytes are, and none where a database can't have them.
fn pages_in(length: u64, page_size: u32) -> Option<u32>
    requires { IsTrue (is_page_size page_size) }
    ensures { MatchOption result (is_bad_count length page_size ≡ true)
        (λ pages. (is_bad_count length page_size ≡ false) × (5 ≤ pages) × (pages ≤ 1048576) × (length ≡ pages * page_size)) }
{
    let size = u64::from(page_size);
    let pages = length / size;
    if length % size != 0 || pages < LEAST_PAGES || pages > u64::from(MOST_PAGES) {
        return None;
    }
    Some(pages as u32)
}

/// What whole pages are that begin so and are so many bytes. The refusal is `BadLevel`.
fn whole_pages(name: &Name, first: &[u8], len: u64) -> Result<First, Fault>
    ensures test { (bytes : List ℕ) → length bytes ≡ len → first.now ≡ take 64 bytes → TestedAlone result (not_whole name.now bytes) }
    ensures value { (bytes : List ℕ) → first.now ≡ take 64 bytes → IfOk result (λ file. file.header ≡ header_in bytes) }
    ensures form { IfOk result (λ file. HasForm file.header) }
    ensures least { IfOk result (λ file. 5 ≤ file.pages) }
    ensures most { IfOk result (λ file. file.pages ≤ most_pages) }
    ensures pages { IfOk result (λ file. len ≡ file.pages * file.header.page_size) }
    ensures cause { (faults : FaultCount) → CountsDevice result faults faults }
{
    if first.len() < header::LENGTH {
        return Err(broken(name, 0));
    }
    let Some(header) = read_header(first) else {
        return Err(broken(name, 0));
    };
    if header.state != 1 {
        return Err(broken(name, header::State::place().0 as u64));
    }
    match pages_in(len, header.page_size) {
        Some(pages) => Ok(First { header, pages }),
        None => Err(broken(name, len)),
    }
}

/// Refuses a level file in the place of the first file of a chain: `BadLevel`, or `ChainLevel` where it is whole.
fn refuse_level<H: Host>(alloc: Global, host: &mut H, name: &Name) -> Result<First, Fault>
    ensures answer { IsTrue H.tells → (bytes : List ℕ) → (H.world host.old).files name.now ≡ Some bytes → begins_level bytes ≡ true → IsRefused name.now bytes result }
    ensures within { IsTrue H.tells → (H.world host.new).reads ≤ (H.world host.old).reads + level_most ((H.world host.old).files name.now) }
    ensures quiet { Quiet (H.world host.old) (H.world host.new) }
    ensures cause { CountsDevice result (H.faults host.old) (H.faults host.new) }
    ensures none { IfOk result (λ file. ⊥) }
{
    let head = whole(alloc, host, name)?;
    Err(Fault::Refused(Refusal::ChainLevel {
        name: name.copied(),
        found: u32::from(head.level),
        wanted: 0,
    }))
}

/// Reads the first file of a chain: its header, and how many pages it has. It changes nothing.
///
/// The refusals are `NoFile`; for a file that begins as a level file `BadLevel`, with its first broken place, or
/// `ChainLevel`; and for any other `BadLevel`, at 0 where it doesn't begin with a header, at 22 where its state isn't 1, and
/// at its length where that isn't 5 to 1,048,576 whole pages. Of whole pages it reads the first 64 bytes alone, whatever
/// it answers, and a level file once.
pub fn read_first<H: Host>(alloc: Global, host: &mut H, name: &Name) -> Result<First, Fault>
    ensures answer { IsTrue H.tells → FirstSays ((H.world host.old).files name.now) name.now result }
    ensures form { IfOk result (λ file. HasForm file.header) }
    ensures least { IfOk result (λ file. 5 ≤ file.pages) }
    ensures most { IfOk result (λ file. file.pages ≤ most_pages) }
    ensures quiet { Quiet (H.world host.old) (H.world host.new) }
    ensures reads { IsTrue H.tells → IfOk result (λ file. (H.world host.new).reads ≤ (H.world host.old).reads + 1) }
    ensures within { IsTrue H.tells → (H.world host.new).reads ≤ (H.world host.old).reads + first_most ((H.world host.old).files name.now) }
    ensures cause { CountsDevice result (H.faults host.old) (H.faults host.new) }
{
    let mut first = [0; header::LENGTH];
    let start = read_start(host, name, &mut first)?;
    let first = &first[..start.got];
    if begins_level(first) {
        return refuse_level(alloc, host, name);
    }
    whole_pages(name, first, start.length)
}
