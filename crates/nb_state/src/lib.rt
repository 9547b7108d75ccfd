//! A database that is open: its backup state, what its header says, and the events that lead from one state to the next.
//!
//! It rests on `nb_owner` for the two files and the pages in memory. A layer above may rely on this: `read` gives a page of the image and
//! changes nothing but which pages are in memory, and `write`, `begin`, `end` and `merge_turn` make one stroke each or none; at each
//! moment a crash leaves what may be left of what was seen before the stroke or after it. What is open is one relation, and no clause
//! above names a file.
#![tactic(auto)]

mod beginnings;
mod front;
mod store;
mod turns;

pub use store::Store;
pub use turns::Progress;
