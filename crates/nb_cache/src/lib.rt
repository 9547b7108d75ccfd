//! Pages held in memory, the least recently used out first, and which of them wait to be written.
//!
//! It rests on `lru`, and on `nb_host` for its one error. Contracts see a cache as the list of the pages that it holds,
//! the most recently used first, each with its bytes and, while it waits, its rank (`specs/Held`). A layer above may
//! rely on it that this list changes as the clauses say and not otherwise, and that no call but `Cache::new` takes
//! memory. Each call takes the same time however many pages are held, but for `next_dirty`, which looks at each. Of
//! many calls of `keep` one in as many as the cache has pages enters them all anew (`places`).
#![tactic(auto)]

mod cache;
mod frames;
mod index;
mod next;
mod places;
mod search;

pub use cache::Cache;
