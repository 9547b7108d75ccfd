//! How a run ended: its status, and the line of a script, or of a list of names, that breaks its form.
//!
//! It rests on `nb_host`, for refusals. A layer above may rely on this: `broken_by` finds a line exactly where the refusal names one, gives it that number, and shows the line of that number in printable characters.
#![tactic(auto)]

mod broken;
mod status;

pub use broken::{Broken, broken_by};
pub use status::Status;
