//! The layouts of pages, of difference files and of level files, as named fields, and their readers.
//!
//! It rests on nothing. A layer above reads and writes a page by `Field`, `Bytes16`, `number_at` and `put_number`
//! alone: a write changes the bytes of its field, and every other place keeps its number. The definitions that the
//! contracts above cite stand in `specs/`: `Bytes` (numbers in a page), `Layouts` (places and widths), `Page` and
//! `Header` (one page), `Places` (system pages), `Fresh` (a new database), `Free` (names that are free) and `Table`
//! (the entries of a difference file). They compute.
#![tactic(auto)]

mod bytes;
mod cases;
mod field;
mod kinds;
pub mod layouts;
mod places;
pub mod states;

pub use bytes::{are_zeros, number_at, put_number};
pub use cases::CaseTable;
pub use field::{Bytes16, Field};
pub use kinds::PageKind;
pub use places::{
    MOST_PAGES, bits_in, entries_in, is_inventory_place, is_page_size, is_scn_place,
    is_system_place, most_pages,
};
