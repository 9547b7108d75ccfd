//! What the backup state says, as two tables: of each event, and of the syncs of a page write.
//!
//! It rests on `nb_fields` for tables of cases, and on the definitions of `nb_model`. A layer above may rely on this: in each state
//! `case_of` lets an event go, or names its refusal, exactly where the model does; and `syncs_of` names the syncs that keep a written
//! page in the file that it belongs to.
#![tactic(auto)]

mod events;
mod syncs;

pub use events::{Case, Event, case_of};
pub use syncs::{Syncs, syncs_of};
