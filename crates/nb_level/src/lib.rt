//! Level files: writing one, and reading one from front to back.
//!
//! It rests on `nb_model`, whose grammar its contracts cite (`nb_model/specs/Levels`), on `nb_page` and `nb_fields` for
//! the pages and fields, and on `nb_host` for the files. A layer above may rely on this: what is written is the bytes of
//! a level file, piece by piece, in either version; and what is read is what the grammar reads, one page a call, or its
//! first broken place.
#![tactic(auto)]

mod adding;
mod head;
mod item;
mod place;
mod reader;
mod start;
mod steps;
mod writing;

pub use head::LevelHead;
pub use item::Item;
pub use reader::LevelReader;
pub use start::begins_level;
pub use writing::{write_end, write_head, write_page_at, write_run};
