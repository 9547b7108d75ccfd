//! What is shipped to a standby next: what stands of it and of its ship file, and the first step by that.
//!
//! It rests on `nb_inplace`, which says what a standby is, on `nb_chain`, which reads a level file to its end, and on `nb_page` for names
//! that are free. A layer above may rely on this: a look is refused exactly where `specs/Looks` says so, with the first refusal, and
//! otherwise finds what stands there, and either way nothing has changed; and the first step is the one of `specs/Steps`, whose meaning
//! `laws` says by the files.
#![tactic(auto)]

mod found;
pub mod laws;
mod looking;
mod names;
mod steps;

pub use found::{Found, Look};
pub use looking::look;
pub use names::ship_name;
pub use steps::{Step, decide};
