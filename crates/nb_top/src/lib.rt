//! The program over any host: the words of the command line name a job, and the job is done.
//!
//! It rests on all crates below it. `run` is the whole program but for the real files: it says one line
//! for each reply, and what it promises of the replies, the files and a crash stands in its contract. `laws` shows from which hosts a run begins
//! with all that is promised of it.
#![tactic(auto)]

mod generating;
pub mod laws;
mod program;
mod reading;
mod request;
mod script;
mod ship;
mod ship_plan;
mod telling;
mod turn;

pub use nb_ended::{Broken, Status};
pub use nb_gen::generate;
pub use nb_lines::render;
pub use nb_shown::image_digest;
pub use program::{run, run_read};
pub use reading::read_file;
