//! Tables: rows under keys, in chains of data pages, and the catalogue that names the tables.
//!
//! It rests on the engine, of which it knows that a page of a chain is taken as `nb_walk` says, that a data page is read as it stands, and that
//! a page is made, changed and given back by the short form of that name; and on the table of turns of `nb_model`. A layer above may rely on
//! this: each call answers what its turn says and makes the turn's strokes in order, in every backup state and whatever stands in the database;
//! at each moment a crash leaves what may be left of what was seen after a front of them; and a refused call changes nothing. That the turns
//! are those of finite maps is a law of `nb_model`.
#![tactic(auto)]

mod change;
mod creating;
mod dropping;
mod look;
mod put;
mod read;
mod rows;
mod slots;
mod table;
mod walk;

pub use change::{delete, insert, update};
pub use creating::create;
pub use dropping::drop_table;
pub use read::{get, scan};

/// The most bytes that a page has.
const LARGEST_PAGE: usize = 32768;
