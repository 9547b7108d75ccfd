//! Whether the inventories, the chains and the pages of an open database agree, which of its pages are taken and reached by nothing, which are
//! in danger, and giving back those that nothing reaches.
//!
//! It rests on the engine, of which it knows three things: that a page of a chain is taken as `nb_walk` says, that a read gives the page and
//! changes nothing but which pages are in memory, and that a data page is given back by the short form of that name. A layer above may rely
//! on this: a check is refused exactly where the inventories aren't sound, by the lowest fact that fails and the lowest page at which it
//! does, or where a chain isn't of the form; otherwise it answers the leaked pages of the database as it is seen, and those in danger, in
//! every backup state. A reclaim gives the leaked ones back, one after the other, and at each moment a crash leaves the last of them leaked and everything else as it was.
//! The memory for both, two bits a page, is taken before the first page is read.
//!
//! Pages are leaked where the program was stopped: in an insert or a create, between the new page and the link to it, and in a drop,
//! between the slot in the catalogue and the last page of the chain.
#![tactic(auto)]

mod checking;
mod facts;
mod laws;
mod pass;
mod report;
mod set;
mod walk;

pub use checking::{Findings, check, reclaim};
pub use laws::{a_sound_image_breaks_no_fact, leaked_pages_are_given_back};
pub use report::Report;

/// The most bytes that a page has.
const LARGEST_PAGE: usize = 32768;
