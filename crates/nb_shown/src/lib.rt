//! What is shown of the pages of an open database: how many there are of each kind, and the digest of all.
//!
//! It rests on the engine, of which it knows two things: how many pages the database has, and that a read gives the page and changes
//! nothing but which pages are in memory. A layer above may rely on this: the counts and the digest are those of the database as it is
//! seen, in every backup state; each page is read once for them at most, and each inventory page once more for its bits; nothing changes
//! but which pages are in memory, and no memory is taken.
#![tactic(auto)]

mod counts;
mod digest;
mod pages;

pub use counts::PageCounts;
pub use digest::image_digest;
pub use pages::count_pages;

/// The most bytes that a page has.
pub(crate) const LARGEST_PAGE: usize = 32768;
