//! Sessions take turns: the trait `Agent`, and the order of turns.
//!
//! It rests on `nb_host` for errors and on `nb_model` for the order alone; it knows neither an engine nor a statement. A layer above
//! may rely on this: `take_turns` makes exactly the turns that the order asks for, each where the one before it ended, to the end of
//! every agent, or up to the first that answers an error (`TakesTurns` in `specs/Turns`). What each turn keeps holds at each moment
//! (`turns_hold` in `proofs/TurnLaws`).
#![tactic(auto)]

mod agent;
mod turns;

pub use agent::Agent;
pub use turns::take_turns;
