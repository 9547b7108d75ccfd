//! One page and the header: reading and writing them, the pages of a new database, and which names are free.
//!
//! It rests on `nb_fields`, whose definitions its contracts cite, and on `nb_host`, which it asks for the start of a
//! file. A layer above may rely on this: a header is read exactly where the bytes have its form; a page that is stamped
//! or gets a text is the page that `nb_fields` defines; `fresh` gives the pages of a new database one by one; and
//! `is_free` answers truly, changes nothing, and says so in one word, `Quiet`, which runs of such calls compose.
#![tactic(auto)]

mod count;
mod fill;
mod free;
mod fresh_page;
mod header;
mod page;
mod text;

pub use count::fresh_count;
pub use free::is_free;
pub use fresh_page::fresh;
pub use header::{Header, read_header, write_header};
pub use page::{PageHead, read_head, stamp};
pub use text::{put_text, raw_text};
