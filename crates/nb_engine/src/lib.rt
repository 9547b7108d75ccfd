//! Statements on the pages of one database, and the events of its backups.
//!
//! It rests on page allocation (`nb_alloc`) for what statements share, of which it knows why each call is refused and which strokes it makes;
//! on `nb_walk`, which takes the pages of chains; on the store (`nb_state`), of which it knows three things: what is open, that a read gives
//! the page and changes nothing, and that each call that writes makes its one stroke; on `nb_page` for the bytes of pages, and on the table of
//! turns of `nb_model`. A layer above may rely on this: each call answers what its turn says and makes the turn's strokes in order, in every
//! backup state; at each moment a crash leaves what may be left of what was seen after a front of them, and once the call has answered a value
//! or a refusal the database is open after all of them. That holds of every database that opens, whatever its pages are: a call tests all that
//! it changes before its first write, on the database as it stands, and a refused call changes nothing. The history of the backups is read page
//! by page; a row takes two calls, one that keeps a slot for it and one that writes it, so that a backup that has begun finds its slot. Data
//! pages, of which tables are made, are read, made, changed and given back one by one, as the short forms of their turns say; what several such
//! calls will need can be tested before the first.
#![tactic(auto)]

mod backup;
mod data;
mod data_new;
mod engine;
mod flags;
mod free;
mod grow;
mod history;
mod new_page;
mod room;
mod rows;
mod walk;
mod write;

pub use engine::Engine;
pub use rows::HistoryRow;
pub use walk::Room;
