// Pages that a check has found.
ghost use Rattle.std.specs.Prelude.{◌≡◌, ◌<◌, IfErr, IfOk, length, slice_index, nat_le};
ghost use Rattle.nb_host.specs.declared.faults.Fault.TheVariants.{Memory};
ghost use Rattle.nb_check.specs.Sets.{has, pages_in};
ghost use Rattle.nb_model.specs.Leaks.{is_among};

use crate::set::PageSet;
use nb_host::Fault;
use nb_model::PageList;
use std::alloc::Global;
use std::marker::Model;

/// Pages that a check has found, in rising order. Contracts see it as the list of their numbers.
#[derive(Drop)]
pub struct Report {
    pages: PageSet,
    len: u32,
}

impl Model for Report {
    ghost use Rattle.std.specs.Prelude.{◌≡◌, ℕ, List, length};
    ghost use Rattle.nb_check.specs.Sets.{pages_in};

    ghost Value = { List ℕ };

    ghost view = { λ r. pages_in r.pages };

    ghost invariant = { λ r. r.len ≡ length (pages_in r.pages) };
}

/// How many pages a set has.
fn count_of(pages: &PageSet) -> u32
    ensures { result ≡ length (pages_in pages.now) }
{
    let mut count = 0;
    for page in 0..pages.room() {
        if !pages.has(page) {
            continue;
        }
        count += 1;
    }
    count
}

/// The page of a set at place `i`, from 0.
fn page_of(pages: &PageSet, i: usize) -> u32
    requires { i < length (pages_in pages.now) }
    ensures { result ≡ slice_index (pages_in pages.now) i }
{
    let mut left = i;
    for page in 0..pages.room() {
        if !pages.has(page) {
            continue;
        }
        if left == 0 {
            return page;
        }
        left -= 1;
    }
    0
}

/// The pages of a set, as a list of numbers.
fn list_of(alloc: Global, pages: &PageSet) -> Result<PageList, Fault>
    ensures ok { IfOk result (λ list. list ≡ pages_in pages.now) }
    ensures only_memory { IfErr result (λ fault. fault ≡ Memory) }
{
    let mut list = PageList::new(alloc);
    for page in 0..pages.room() {
        if !pages.has(page) {
            continue;
        }
        list.push(page)?;
    }
    Ok(list)
}

impl Report {
    /// The report of these pages.
    pub(crate) fn of(pages: PageSet) -> Report
        ensures { result ≡ pages_in pages }
    {
        let len = count_of(&pages);
        Report { pages, len }
    }

    /// How many there are, as a number of 32 bits.
    pub(crate) fn count(&self) -> u32
        ensures { result ≡ length self.now }
    {
        self.len
    }

    /// How many there are.
    pub fn len(&self) -> usize
        ensures { result ≡ length self.now }
    {
        self.len as usize
    }

    /// Whether there is none.
    pub fn is_empty(&self) -> bool
        ensures { result ≡ nat_le (length self.now) 0 }
    {
        self.len == 0
    }

    /// The page at place `i`, from 0. It walks over the pages before it.
    pub fn page(&self, i: usize) -> u32
        requires { i < length self.now }
        ensures { result ≡ slice_index self.now i }
    {
        page_of(&self.pages, i)
    }

    /// All of them, as a list of numbers.
    pub fn pages(&self, alloc: Global) -> Result<PageList, Fault>
        ensures ok { IfOk result (λ pages. pages ≡ self.now) }
        ensures only_memory { IfErr result (λ fault. fault ≡ Memory) }
    {
        list_of(alloc, &self.pages)
    }

    /// Whether it has page `number`.
    pub(crate) fn has(&self, number: u32) -> bool
        ensures { result ≡ is_among number self.now }
    {
        self.pages.has(number)
    }
}
