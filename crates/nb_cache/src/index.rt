ghost use Rattle.std.specs.Prelude.{◌≡◌, ◌<◌, ◌≤◌, ◌+◌, ◌*◌, ℕ, nat_eq, is_some, false, IfOk, IsTrue, ◌↔◌, if◌then◌else◌};
ghost use Rattle.std.specs.HashMap.{get};
ghost use Rattle.nb_cache.specs.Index.{holder, left_in, room_of};

use std::alloc::{AllocError, Global};
use std::collections::HashMap;

/// Which frame holds a page.
///
/// A page that is held no longer keeps its entry, without a frame: so no call after `new` takes memory.
#[derive(Drop)]
pub(crate) struct Index {
    keys: HashMap<u32, Option<u32>>,
}

impl Index {
    /// An empty index, with room for that many pages.
    pub(crate) fn new(alloc: Global, pages: u32) -> Result<Index, AllocError>
        ensures empty { IfOk result (λ index. (page : ℕ) → holder index page ≡ None) }
        ensures room { IfOk result (λ index. pages ≤ room_of index) }
    {
        Ok(Index {
            keys: HashMap::with_capacity(alloc, pages as usize)?,
        })
    }

    /// The frame that holds a page.
    pub(crate) fn find(&self, page: u32) -> Option<u32>
        ensures { result ≡ holder self.now page }
    {
        match self.keys.get(&page) {
            Some(key) => *key,
            None => None,
        }
    }

    /// Whether no page more may be entered before the index is cleared.
    pub(crate) fn is_full(&self) -> bool
        ensures { IsTrue result ↔ (left_in self.now ≡ 0) }
    {
        self.keys.capacity() == self.keys.len()
    }

    // Changes the entry of a page that has one.
    fn change(&mut self, page: u32, key: Option<u32>) -> bool
        ensures found { result ≡ is_some (get nat_eq self.old.keys page) }
        ensures holders { IsTrue result → (q : ℕ) → holder self.new q ≡ (if nat_eq page q then key else holder self.old q) }
        ensures kept { (result ≡ false) → self.new ≡ self.old }
        ensures left { left_in self.new ≡ left_in self.old }
        ensures room { room_of self.new ≡ room_of self.old }
    {
        let Some(entry) = self.keys.get_mut(&page) else {
            return false;
        };
        *entry = key;
        true
    }

    /// From now on that frame holds the page.
    pub(crate) fn enter(&mut self, page: u32, key: u32)
        requires { 0 < left_in self.old }
        ensures holders { (q : ℕ) → holder self.new q ≡ (if nat_eq page q then Some key else holder self.old q) }
        ensures left { left_in self.old ≤ left_in self.new + 1 }
        ensures room { room_of self.old ≤ room_of self.new }
    {
        if self.change(page, Some(key)) {
            return;
        }
        match self.keys.insert(page, Some(key)) {
            Ok(_) => {}
            Err(_) => unreachable!(),
        }
    }

    /// From now on no frame holds the page.
    pub(crate) fn leave(&mut self, page: u32)
        ensures holders { (q : ℕ) → holder self.new q ≡ (if nat_eq page q then None else holder self.old q) }
        ensures left { left_in self.new ≡ left_in self.old }
        ensures room { room_of self.new ≡ room_of self.old }
    {
        self.change(page, None);
    }

    /// Forgets all pages, and makes room for as many again.
    pub(crate) fn clear(&mut self)
        ensures empty { (page : ℕ) → holder self.new page ≡ None }
        ensures left { room_of self.old ≤ left_in self.new }
    {
        self.keys.clear();
    }
}
