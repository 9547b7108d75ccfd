//! A copy of a stalled database becomes a database in the normal state, in place.
//!
//! It rests on the laws of `nb_restore` on images in the normal state, and on `nb_page` for headers. A layer above may rely on
//! this: a file is refused exactly where the model says so, and then nothing has changed; otherwise its two bytes of the state
//! become zero and no other byte changes, for good before the call answers; a crash leaves the file as it was, or fixed; and no
//! other file is touched. It takes no memory. `laws` says what a copy of a kept backup has.
#![tactic(auto)]

mod copy;
mod fixing;
pub mod laws;

pub use fixing::fix_up;
