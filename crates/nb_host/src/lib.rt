//! The outside, as everything above sees it: named files of pages, an output, GUIDs and a clock.
//!
//! It rests on nothing of the project. A layer above may rely on the clauses of `Host` alone: what each
//! call does to the files, what a crash at any moment leaves of them, what was said, read and given, and
//! that a call fails only where the host's count of faults rises. The definitions are in `specs/World`
//! (what a host tells), `specs/Crash` (what a crash leaves) and `specs/Calls` (what one call does).
#![tactic(auto)]

mod faults;
mod host;
mod name;
mod refusals;
mod text;

pub use faults::{Fault, HostFault, RunError};
pub use host::Host;
pub use name::{DELTA_SUFFIX, MOST_BASE_NAME, MOST_NAME, Name};
pub use refusals::Refusal;
pub use text::as_text;
