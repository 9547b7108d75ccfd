//! Restoring a chain of backup files into a new database.
//!
//! It rests on `nb_chain`, which accepts the chain and refuses what is none, and on `nb_level`, which reads level files. A
//! layer above may rely on this: nothing is made before the whole chain is accepted and all memory is taken; from then on
//! a crash leaves the target as it was, or with its name free, or with the database that the chain gives; and no other file
//! is touched. `laws` says what a chain of kept backups gives. `write_first` is how page 0 of a file is written, when all else is kept.
#![tactic(auto)]

mod first;
pub mod laws;
mod plan;
mod readers;
mod records;
mod restoring;
mod target;

pub use first::write_first;
pub use restoring::restore;
