//! Page inventory pages: which pages of a database are free.
//!
//! It rests on the definitions of `nb_fields`. Contracts see an inventory page as its list of bits (`specs/Bits`), of
//! which 1 means free. A layer above may rely on it that `take` and `give` change one bit and no other byte, that
//! `lowest_free` names the lowest free bit or says that there is none, that `fill` makes a whole new page but for its
//! head, and that `is_place` holds of exactly the pages
//! that `place_of` gives.
#![tactic(auto)]

mod bits;
mod fresh;
mod places;

pub use bits::{give, is_used, lowest_free, take};
pub use fresh::fill;
pub use places::{covers, index_of, is_place, place_of};
