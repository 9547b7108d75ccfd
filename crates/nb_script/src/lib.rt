//! Scripts: what bytes spell one, and how one is printed.
//!
//! It rests on `nb_model`, whose statements it reads and writes, and on the names and refusals of
//! `nb_host`. A layer above may rely on this: `parse` answers the script that the bytes spell, by
//! `specs/Scripts`, or the refusal with the first line that breaks the form, and nothing else but want
//! of memory; what a script asks, the program can do (`specs/Asked`); and the text that `print` writes
//! of such a script is read as that script again, where it has at most 1,048,576 bytes. `Lines` gives the
//! lines of other texts that are read by the same rules (`specs/Lines`).
#![tactic(auto)]

mod first_line;
mod lines;
mod order;
mod printing;
mod reading;
mod script;
mod statements;
mod words;

pub use lines::Lines;
pub use printing::print;
pub use reading::{MOST_BYTES, MOST_STATEMENTS, parse};
pub use script::Script;
