//! Chains of data pages: the catalogue, the history, and the rows of each table. Pages of a chain are taken one by one, and slots of a page.
//!
//! It rests on page allocation (`nb_alloc`), of which it knows that a data page of an owner is read as it stands, and that a read changes nothing
//! but which pages are in memory. So the engine, which stands above, goes over the history by it, and lends its call to the layers that go over
//! tables. A layer above may rely on this: a page is taken exactly where it is one of the chain, a data page of its owner whose slots are all of
//! the form, and then the page that it is linked to is answered; otherwise it is refused by its number. Pages that are taken along the links from
//! the first one on are those of the chain, in their order; where the last link leads to no page of the chain, or there were as many as the
//! database has, that link is the first page that breaks the form. This is a law (`proofs/WalkLaws`), whatever is done with each page.
#![tactic(auto)]

mod chain;
mod page;
mod slots;

pub use chain::Chain;
pub use page::read_page;
pub use slots::{backup_file, first_page, slot_at, slot_count, table_name, use_of};
