//! The words of the command line, read to the job that they name.
//!
//! It rests on `clap` for what is a flag and what is a plain word, on `nb_fields` for the table that chooses the job, and
//! on the definition of `nb_model` (`specs/Words`). A layer above may rely on it that, for every list of words, `read_job`
//! gives the job that the definition gives, refuses as `Usage` where it gives none, and answers nothing else but `Memory`.
#![tactic(auto)]

mod choice;
mod jobs;
mod line;
mod reading;
mod word;

pub use reading::read_job;
