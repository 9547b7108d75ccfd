//! Sessions: the statements of a script on one database, taken in turns, and the line of each reply.
//!
//! It rests on the engine, and on `nb_table`, `nb_shown` and `nb_check` beside it, for what a statement does, on `nb_sched` for the order of turns, and
//! on `nb_lines` for the text of a reply. A layer above may rely on this: `take_turns` plays a script as the model does, turn by turn. At
//! each moment a front of the lines was said, and a crash leaves what may be left of the database after some of the steps, each
//! acknowledged one among them.
#![tactic(auto)]

mod answer;
mod copies;
mod merges;
mod replies;
mod session;
mod sessions;
mod statement;
mod tables;
mod task;
mod told;

pub use answer::say;
pub use sessions::take_turns;
pub use told::Told;
