// A set of pages of a database.
ghost use Rattle.std.specs.Prelude.{◌≡◌, ℕ, ◌+◌, ◌*◌, ◌<◌, ◌≤◌, ◌||◌, [], ◌∷◌, IfErr, IfOk, false, length, nat_eq};
ghost use Rattle.nb_fields.specs.Places.{most_pages};
ghost use Rattle.nb_host.specs.declared.faults.Fault.TheVariants.{Memory};
ghost use Rattle.nb_check.specs.Sets.{has, room_of, IsWithout};
ghost use Rattle.nb_check.specs.Marks.{IsReached};

use nb_host::Fault;
use std::alloc::Global;
use std::marker::Model;

/// Whether the bit of a page is 1. After the last byte none is.
fn has_bit(bytes: &[u8], page: u32) -> bool
    ensures { result ≡ has bytes.now page }
{
    let at = (page / 8) as usize;
    if at >= bytes.len() {
        return false;
    }
    (bytes[at] >> (page % 8)) & 1 == 1
}

/// The bit of a page becomes 1.
fn set_bit(bytes: &mut [u8], page: u32)
    requires { page < room_of bytes.old }
    ensures { (p : ℕ) → has bytes.new p ≡ (nat_eq p page || has bytes.old p) }
{
    bytes[(page / 8) as usize] |= 1 << (page % 8);
}

/// The bit of a page becomes 0, where there is one.
fn clear_bit(bytes: &mut [u8], page: u32)
    ensures { IsWithout bytes.old (page ∷ []) bytes.new }
{
    let at = (page / 8) as usize;
    if at >= bytes.len() {
        return;
    }
    bytes[at] &= !(1 << (page % 8));
}

/// A set of pages, one bit for each page. Contracts see its bytes, and by `has` which pages it has.
#[derive(Drop)]
pub(crate) struct PageSet {
    bytes: Vec<u8>,
}

impl Model for PageSet {
    ghost use Rattle.std.specs.Prelude.{ℕ, List, ◌≤◌, length};

    ghost Value = { List ℕ };

    ghost view = { λ s. s.bytes.items };

    // As many as the most pages of a database need.
    ghost invariant = { λ s. length s.bytes.items ≤ 131072 };
}

impl PageSet {
    /// An empty set, with room for the pages below `count`.
    pub(crate) fn new(alloc: Global, count: u32) -> Result<PageSet, Fault>
        requires { count ≤ most_pages }
        ensures empty { IfOk result (λ set. (p : ℕ) → has set p ≡ false) }
        ensures room { IfOk result (λ set. count ≤ room_of set) }
        ensures only_memory { IfErr result (λ fault. fault ≡ Memory) }
    {
        let bytes = vec![in alloc; 0; ((count + 7) / 8) as usize]?;
        Ok(PageSet { bytes })
    }

    /// How many pages it has room for.
    pub(crate) fn room(&self) -> u32
        ensures value { result ≡ room_of self.now }
        ensures most { result ≤ most_pages }
    {
        8 * self.bytes.len() as u32
    }

    /// Whether it has that page. It has none that it has no room for.
    pub(crate) fn has(&self, page: u32) -> bool
        ensures { result ≡ has self.now page }
    {
        has_bit(self.bytes.as_slice(), page)
    }

    /// Puts that page into the set.
    pub(crate) fn insert(&mut self, page: u32)
        requires { page < room_of self.old }
        ensures pages { (p : ℕ) → has self.new p ≡ (nat_eq p page || has self.old p) }
        ensures room { length self.new ≡ length self.old }
    {
        set_bit(self.bytes.as_mut_slice(), page);
    }

    /// Puts that page into the set, where it has room for it.
    pub(crate) fn put(&mut self, page: u32)
        ensures pages { (p : ℕ) → p < room_of self.old → has self.new p ≡ (nat_eq p page || has self.old p) }
        ensures room { length self.new ≡ length self.old }
    {
        if page < self.room() {
            self.insert(page);
        }
    }

    /// Takes that page out of the set.
    pub(crate) fn remove(&mut self, page: u32)
        ensures pages { IsWithout self.old (page ∷ []) self.new }
        ensures room { length self.new ≡ length self.old }
    {
        clear_bit(self.bytes.as_mut_slice(), page);
    }
}

/// What is marked of pages while chains are walked over.
#[derive(Drop)]
pub(crate) struct Marks {
    /// The data pages that are taken and that no chain has reached yet.
    pub(crate) left: PageSet,
    /// The pages in danger: when a chain reached them they weren't left.
    pub(crate) danger: PageSet,
}

impl Marks {
    /// A chain has reached that page.
    pub(crate) fn reach(&mut self, page: u32)
        ensures { IsReached self.old (page ∷ []) self.new }
    {
        if self.left.has(page) {
            self.left.remove(page);
        } else {
            self.danger.put(page);
        }
    }
}
