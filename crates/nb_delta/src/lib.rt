//! The difference file of a database: the pages that are changed while a backup runs.
//!
//! It rests on the host's pages and on the layouts of `nb_fields`. Contracts see a `Delta` as its file's name, the page
//! size and the entries in order (`specs/Known`). A layer above may rely on it that the entries are the file's table,
//! that an entry's slot holds its page, and that a crash at any moment of a call leaves the table and the slots as
//! before or as after it (`specs/Slots`). Drafted entries wait and come into the table together: a crash leaves it with
//! none of them, with all, or with the first ones (`specs/Waiting`). Looking up an entry makes no call of the host.
#![tactic(auto)]

mod delta;
mod entries;
mod places;
mod reading;
mod waiting;
mod writing;

pub use delta::Delta;
