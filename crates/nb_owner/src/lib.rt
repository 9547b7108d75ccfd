//! The two files of one database and the pages of it that were used last, which are in memory.
//!
//! It rests on `nb_base` for the two files and on `nb_cache` for the pages. Where writes aren't forced, a page may wait in memory before it
//! goes into its file; it is seen at once. A layer above may rely on this: a page that is in memory is that page of the image as it was
//! seen last, reading it asks nothing of the host, and what a crash leaves is what may be left of what was seen, whatever waits. No call
//! but those that open a database takes memory for pages.
#![tactic(auto)]

mod beginnings;
pub mod laws;
mod merging;
mod pair;
mod states;
mod waiting;

pub use pair::Pair;
