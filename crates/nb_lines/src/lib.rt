//! The lines of replies.
//!
//! It rests on `nb_model`, which says what the line of each reply is. A layer above may rely on this: `render` gives exactly
//! that line, or memory ran out; and `render_in` gives it in memory that was taken before, which is enough for a reply that says what was done.
#![tactic(auto)]

mod brief;
mod line;
mod word;

pub use line::{render, render_in, room};
