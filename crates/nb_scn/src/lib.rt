//! SCN inventory pages: at which SCN each page of a database was last changed, or may have been.
//!
//! It rests on the fields and definitions of `nb_fields`. Contracts see an SCN inventory page as its list of entries
//! (`specs/Entries`). A layer above may rely on it that `raise` changes one entry and never lowers it, that `fill`
//! makes a whole new page but for its head, and that `is_place` holds of exactly the pages that `place_of` gives.
#![tactic(auto)]

mod entries;
mod places;

pub use entries::{entry, fill, raise};
pub use places::{covers, is_place, place_of};
