//! Merging a level file into a read-only standby, in place.
//!
//! It rests on `nb_chain`, which reads a level file to its end, on `nb_level`, which gives its pages, and on the laws of `nb_restore` and
//! `nb_fixup` on images and answers. A layer above may rely on this: a merge is refused exactly where the model says so, and then nothing has
//! changed, nor where memory runs out; otherwise the standby is its image with the pages of the file written over, in the normal state,
//! read-only and with nothing pending, for good before the call answers; a crash leaves it as it was, or half merged, or merged, and so it
//! reads, whatever is answered; and no other file is touched. What is half merged can't be opened, and is finished by the same file and by
//! none of another GUID. `laws` says that, and what a merge of a kept backup gives.
#![tactic(auto)]

mod accepting;
mod counting;
pub mod laws;
mod merging;
mod ready;
mod records;
mod stamps;
mod standby;

pub use merging::apply;
pub use standby::{Standby, read_standby};
