//! Folding consecutive level files into one.
//!
//! It rests on `nb_level`, which reads level files, and on `nb_gather`, which writes one page by page. A layer above may rely on this: a fold
//! is refused exactly where the definitions say so, and then nothing has changed, nor where memory runs out; otherwise the file that is made is
//! exactly the one that tells what the files tell, for good before the call answers; a crash leaves it as it was, or unfinished, or whole, and so
//! it reads, whatever is answered; and no other file is touched. `laws` says what a restore gives with that file.
#![tactic(auto)]

mod folded;
mod folding;
pub mod laws;
mod merging;
mod opening;
mod source;
mod writing;

pub use folded::Folded;
pub use folding::fold;
