//! A level file that is written page by page.
//!
//! It rests on `nb_level`, which writes the pieces of a level file. A layer above may rely on this: pages of rising numbers go into a file
//! that was made, in runs of at most 16, and into no other; until it is closed a crash leaves of it what was there before it was made, or
//! a file that nothing takes for a backup; while it is closed that or the whole, and once it is closed the whole, kept for good. What a
//! stop leaves of a file that is made, and what of it is a backup, is said here for every layer that makes one (`specs/Making`).
#![tactic(auto)]

mod level_file;
mod run;

pub use level_file::LevelFile;
