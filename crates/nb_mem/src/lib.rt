//! A host in memory, which tells everything: its files, what a crash at any moment leaves of them, what was
//! said, and how many reads, GUIDs and clock values it gave.
//!
//! It rests on `nb_host` alone. It keeps the history of its calls, of which its world is a function
//! (`specs/Histories`), and beside it the files as they read now, so that no call goes through the history
//! again. A test may place synced files, let chosen calls fail, and go on with what a crash leaves (`left`).
#![tactic(auto)]

mod bytes;
mod choices;
mod counts;
mod entry;
mod history;
mod host;
pub mod laws;
mod left;
mod outcome;
mod reads;
mod slots;

pub use host::MemHost;
