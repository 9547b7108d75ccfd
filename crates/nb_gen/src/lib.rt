//! The script that a number means: a database with raw pages and a table, a thousand statements of three sessions on both, and three backups
//! between them.
//!
//! It rests on `nb_model`, which says which script each number has, on `nb_script` for what a script is, and on `nb_gather` for what a crash
//! leaves of a file in the making. A layer above may rely on this: `generate` gives exactly that script, or memory ran out. `write_script`
//! makes its file, of which a crash leaves what was there, a file that nothing takes for a backup, or the whole, and the whole once it has
//! answered. `laws` has what is known of every such script.
#![tactic(auto)]

pub mod laws;
mod script;
mod writing;

pub use script::generate;
pub use writing::write_script;
