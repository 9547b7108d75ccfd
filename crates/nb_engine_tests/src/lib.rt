//! The tests of `nb_base`, `nb_owner` and `nb_engine` that no run of the program can say: what an object answers after a call that failed, which
//! pages it has in memory, and calls that no statement makes so.
//!
//! They stand in a crate of their own, over what they test, since a crate with tests is proved twice. All other tests of these crates, of `nb_state`,
//! of tables, of copies and of what is shown are trials of whole runs, in `nb_trials`.
#![tactic(auto)]

#[cfg(test)]
mod memory_tests;
#[cfg(test)]
mod page_tests;
#[cfg(test)]
mod sample;
#[cfg(test)]
mod write_tests;
