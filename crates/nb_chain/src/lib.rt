//! The check of a chain of backup files: a level 0 and the levels after it, each of which goes on from the one before.
//!
//! It rests on `nb_level`, which reads level files, on `nb_page` for the header of level 0, and on the verdict of
//! `nb_model` (`specs/Restoring`), which its contracts cite. A layer above may rely on this: files are accepted exactly
//! where that verdict accepts them, and refused with its first refusal; and whatever is answered, no file has changed.
//! What it needs to read the files of a chain again, `read_first` and `whole` give it; `goes_on` is the test of one file after another.
#![tactic(auto)]

mod checking;
mod first_file;
mod last_page;
mod level_file;
mod next_file;
mod overlay;
mod start;
mod tip;

pub use checking::{Chain, check};
pub use first_file::{First, read_first};
pub use level_file::whole;
pub use next_file::goes_on;
pub use tip::Tip;
