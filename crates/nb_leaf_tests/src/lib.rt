//! The tests of the crates below the store that no whole run can say: of the hosts, of fields and pages, of pages in memory, of single calls
//! of a difference file and of the reader of a level, of lists, of scripts and words as values, and of turns. What whole runs say of these
//! crates is in `nb_trials`.
//!
//! They stand in a crate of their own, over the crates that they test, since a crate with tests is proved twice.
#![tactic(auto)]

#[cfg(test)]
mod cache_tests;
#[cfg(test)]
mod cases_tests;
#[cfg(test)]
mod delta_tests;
#[cfg(test)]
mod fields_tests;
#[cfg(test)]
mod file_tests;
#[cfg(test)]
mod level_tests;
#[cfg(test)]
mod mem_tests;
#[cfg(test)]
mod model_tests;
#[cfg(test)]
mod page_tests;
#[cfg(test)]
mod pip_tests;
#[cfg(test)]
mod sample;
#[cfg(test)]
mod sched_tests;
#[cfg(test)]
mod scn_tests;
#[cfg(test)]
mod script_tests;
#[cfg(test)]
mod shadow_tests;
#[cfg(test)]
mod ship_tests;
#[cfg(test)]
mod words_tests;
