//! Page allocation: where new pages of a database go, and the writes that every change of a page makes.
//!
//! It rests on the store (`nb_state`), of which it knows what is open, that a read gives the page and changes nothing, and that a write makes
//! its one stroke; and on `nb_page` and the inventories for the bytes of pages. Each call takes the store, the host, and room for the pages
//! that it reads: bytes of the size of a page, a `ScnPage` for the SCN inventory page that has an entry, an `InventoryPage` for the page
//! inventory page that has a bit. Page numbers, SCNs and places of system pages are those of the image.
//!
//! A layer above may rely on this, on every database that opens, whatever its pages are. A call that tests or reads (`read_system`, `read_data`,
//! `read_raw`, `is_page_free`, `is_there`, `find_lacking`, `check_new`, `check_rooms`) changes nothing but which pages are in memory, wants no memory, and
//! is refused exactly where its cause holds. A call that writes makes its strokes in order, in every backup state: the SCN entry of a page before the
//! page (`raise_entry`, `put_page`), the page before its bit (`make_new`); at each moment a crash leaves what may be left after a front of them, and
//! the database is open after all of them once the call has answered a value or a refusal. It wants memory in the stalled state alone. The search for
//! a new page is told before the first write: where `check_new` or `check_rooms` has answered, `make_new` isn't refused, and it is for such a
//! database alone.
#![tactic(auto)]

mod behind;
mod bit;
mod find;
mod make;
mod pages;
mod put;
mod reads;
mod rooms;
mod way;

pub use behind::{find_lacking, lower_page};
pub use bit::mark;
pub use find::FIRST_TO_GIVE;
pub use make::{make_new, put_page};
pub use pages::{InventoryPage, ScnPage};
pub use put::{raise_entry, write_raw};
pub use reads::{is_page_free, read_data, read_raw, read_system};
pub use rooms::{check_new, check_rooms};
pub use way::is_there;
