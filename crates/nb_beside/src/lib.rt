//! What the program does beside a run: before it, which database the run changes, how long locks are waited for and how progress is shown; after it,
//! what still waits to be written, and what the standard error says.
//!
//! It rests on `nb_file` for the outside, on `nb_advice` for the texts and on `nb_ended` for how a run ended, and not on what a run does. For what
//! it says it looks at files by itself (`look`), without a lock, through a trait that only reads (`reading`), so that no look can change a file. A layer above may rely on this: beside a run nothing
//! changes of what the host tells of its files, and after it no bytes wait.
#![tactic(auto)]

mod after;
mod beside;
mod changed;
mod done;
mod look;
mod progress;
mod reading;
mod seeing;
mod settings;

pub use beside::{Before, Beside, End};
