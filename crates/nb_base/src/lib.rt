//! The main file and the difference file of one database as one image, written through: who owns a page, and what a crash leaves.
//!
//! It rests on `nb_delta` for the difference file, on `nb_cases` for what the state says of opening and of a write, and on the trails
//! of `nb_model` for what a crash may leave. A layer above may rely on this: in every backup state a read gives the page of the image
//! and a write replaces it, whichever file holds it; at each moment a crash leaves what may be left of what was seen, before the call's
//! stroke or after it. Nothing above asks which file holds a page. A layer above that lets pages wait has them written here too, by the
//! state, and their entries after them.
#![tactic(auto)]

mod attach;
mod beginnings;
mod control;
mod files;
mod filled;
mod out;
mod reads;
mod slots;
mod sync;
mod writes;

pub use files::TwoFiles;
