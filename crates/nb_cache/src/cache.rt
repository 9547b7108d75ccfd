ghost use Rattle.std.specs.Prelude.{◌≡◌, ◌<◌, ◌≤◌, [], nat_eq, length, is_some, IsSome, IfOk, IfErr, MatchOption};
ghost use Rattle.std.specs.Map.{remove_entry};
ghost use Rattle.nb_host.specs.declared.faults.Fault.TheVariants.{Memory};
ghost use Rattle.lru.specs.LruCache.{lru_cache, promoted, put_entries};
ghost use Rattle.nb_cache.specs.Held.{slot_of, rank_of, with_rank, dropped, IsNext};

use crate::frames::Frame;
use crate::index::Index;
use crate::next::next_waiting;
use crate::places::{frame_of, make_room, vacate};
use crate::search::{copy_out, mark, put_in, rank_at, waiting_last};
use lru::LruCache;
use nb_host::Fault;
use std::alloc::Global;
use std::marker::Model;
use std::num::NonZeroUsize;

/// The pages that were used last. Contracts see them in the order of their last use.
#[derive(Drop)]
pub struct Cache {
    frames: LruCache<u32, Frame>,
    index: Index,
    cap: u32,
    held: u32,
    page_size: u32,
}

impl Model for Cache {
    ghost use Rattle.nb_cache.specs.Held.{Held};
    ghost use Rattle.nb_cache.specs.Frames.{shown, IsCache};
    ghost use Rattle.nb_cache.specs.Index.{IsIndexed};

    ghost Value = { Held };

    ghost view = { λ c. record { pages = shown c.held c.frames.entries; cap = c.cap; page_size = c.page_size } };

    ghost invariant = { λ c. IsCache c.frames.entries c.cap c.held c.page_size × IsIndexed c.index c.frames.entries c.held };
}

impl Cache {
    /// A cache of at most that many pages of that size, which holds none yet. It takes all its memory here.
    pub fn new(alloc: Global, pages: u32, page_size: u32) -> Result<Cache, Fault>
        requires some { 0 < pages }
        requires few { pages ≤ 4096 }
        ensures ok { IfOk result (λ cache. cache ≡ record { pages = []; cap = pages; page_size = page_size }) }
        ensures only_memory { IfErr result (λ fault. fault ≡ Memory) }
    {
        let cap = NonZeroUsize::new(pages as usize).unwrap();
        let mut frames = LruCache::new(alloc, cap)?;
        for key in 0..pages {
            frames.put(key, Frame::new(alloc, page_size)?)?;
        }
        let index = Index::new(alloc, 2 * pages)?;
        Ok(Cache {
            frames,
            index,
            cap: pages,
            held: 0,
            page_size,
        })
    }

    /// How many pages may be held.
    pub fn capacity(&self) -> u32
        ensures { result ≡ self.now.cap }
    {
        self.cap
    }

    /// How many pages are held.
    pub fn held(&self) -> u32
        ensures { result ≡ length self.now.pages }
    {
        self.held
    }

    /// Fills in a page that is held, and makes it the most recently used. False where it isn't held.
    pub fn look(&mut self, page: u32, into: &mut [u8]) -> bool
        requires { length into.old ≡ self.old.page_size }
        ensures found { result ≡ is_some (slot_of self.old.pages page) }
        ensures filled { MatchOption (slot_of self.old.pages page) (into.new ≡ into.old) (λ slot. into.new ≡ slot.bytes) }
        ensures moved { self.new ≡ record self.old { pages = promoted (nat_eq page) self.old.pages } }
    {
        let Some(key) = frame_of(&self.frames, &self.index, page) else {
            return false;
        };
        copy_out(&self.frames, key, into);
        self.frames.promote(&key);
        true
    }

    /// As `look`, but the order of the pages stays.
    pub fn peek(&self, page: u32, into: &mut [u8]) -> bool
        requires { length into.old ≡ self.now.page_size }
        ensures found { result ≡ is_some (slot_of self.now.pages page) }
        ensures filled { MatchOption (slot_of self.now.pages page) (into.new ≡ into.old) (λ slot. into.new ≡ slot.bytes) }
    {
        let Some(key) = frame_of(&self.frames, &self.index, page) else {
            return false;
        };
        copy_out(&self.frames, key, into);
        true
    }

    /// Holds a page with these bytes as the most recently used. A page that waits goes on waiting.
    ///
    /// Where the cache is full and lacks the page, the least recently used one is dropped.
    pub fn keep(&mut self, page: u32, bytes: &[u8])
        requires size { length bytes.now ≡ self.old.page_size }
        requires drops_none { dropped self.old page ≡ None }
        ensures { self.new ≡ record self.old { pages = put_entries nat_eq (lru_cache self.old.pages self.old.cap) page (record { bytes = bytes.now; rank = rank_of self.old.pages page }) } }
    {
        if let Some(key) = frame_of(&self.frames, &self.index, page) {
            let rank = rank_at(&self.frames, key);
            put_in(&mut self.frames, key, page, rank, bytes);
        } else {
            make_room(&mut self.index, &self.frames, self.held);
            let key = vacate(&mut self.index, &self.frames, self.held);
            put_in(&mut self.frames, key, page, None, bytes);
            self.index.enter(page, key);
            self.held = (self.held + 1).min(self.cap);
        }
    }

    /// Holds the page no longer.
    pub fn drop_page(&mut self, page: u32)
        requires { rank_of self.old.pages page ≡ None }
        ensures { self.new ≡ record self.old { pages = remove_entry (nat_eq page) self.old.pages } }
    {
        if let Some(key) = frame_of(&self.frames, &self.index, page) {
            // No two keys are equal.
            let _count = self.frames.len();
            self.frames.demote(&key);
            self.index.leave(page);
            self.held -= 1;
        }
    }

    /// Lets a page wait with that rank. False where it isn't held.
    pub fn dirty(&mut self, page: u32, rank: u8) -> bool
        ensures found { result ≡ is_some (slot_of self.old.pages page) }
        ensures ranked { self.new ≡ record self.old { pages = with_rank page (Some rank) self.old.pages } }
    {
        self.set_rank(page, Some(rank))
    }

    /// Lets a page that is held wait no longer.
    pub fn clean(&mut self, page: u32)
        requires { IsSome (slot_of self.old.pages page) }
        ensures { self.new ≡ record self.old { pages = with_rank page None self.old.pages } }
    {
        self.set_rank(page, None);
    }

    /// Says of a page whether it waits, and with which rank. False where it isn't held.
    fn set_rank(&mut self, page: u32, rank: Option<u8>) -> bool
        ensures found { result ≡ is_some (slot_of self.old.pages page) }
        ensures ranked { self.new ≡ record self.old { pages = with_rank page rank self.old.pages } }
    {
        let Some(key) = frame_of(&self.frames, &self.index, page) else {
            return false;
        };
        mark(&mut self.frames, key, rank);
        true
    }

    /// The waiting page that a keep of this page would drop.
    pub fn would_drop(&self, page: u32) -> Option<u32>
        ensures { result ≡ dropped self.now page }
    {
        if self.held < self.cap {
            return None;
        }
        match frame_of(&self.frames, &self.index, page) {
            Some(_) => None,
            None => waiting_last(&self.frames),
        }
    }

    /// The waiting page that goes out first, with its rank: the lowest rank, then the lowest page.
    pub fn next_dirty(&self) -> Option<(u32, u8)>
        ensures { IsNext self.now.pages result }
    {
        next_waiting(&self.frames, self.held)
    }
}
