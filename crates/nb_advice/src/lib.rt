//! What the standard error says to an administrator: which word is wrong, what to do about a refusal, what stands after a run that
//! failed, and what is to be known of a job that was done.
//!
//! Texts alone: each is made of a job, of the reply that refused it and of what a look at the files told, and no file is asked here. It
//! rests on `nb_model` for jobs, on `nb_page` for headers, on `jiff_core` for the calendar, on `uuid` for GUIDs and on `itoa` for numbers. The layer
//! above looks, and says the texts.
#![tactic(auto)]

mod backup;
mod chain;
mod check;
mod cut;
mod danger;
mod deeds;
mod done;
mod failure;
mod fixup;
mod history;
mod levels;
mod memory;
mod moment;
mod opening;
mod refusal;
mod refused;
mod seen;
mod ship;
mod spelling;
mod standby;
mod usage;
mod word;

pub use cut::{Cut, cut_off};
pub use danger::in_danger;
pub use done::{emptied, goes_on, locked, named_as_output, past_nine};
pub use failure::standing;
pub use history::{History, Row};
pub use levels::Levels;
pub use memory::shortage;
pub use refusal::advice;
pub use refused::Refused;
pub use seen::{Origin, Seen, There, is_level_of};
pub use spelling::{wrong_bytes, wrong_statement};
pub use usage::complaint;
