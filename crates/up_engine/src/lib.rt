//! The engine: the strands of a graph, joined by lanes, from the first open of a path to the last
//! close.
#![tactic(auto)]

mod ahead;
mod carrying;
mod closing;
mod engine;
mod finishing;
mod laws;
mod making;
mod moving;
mod net;
mod object;
mod opening;
mod parts;
mod results;
mod rooms;
mod run_outcome;
mod tables;

pub use engine::run_one_thread;
pub use laws::{heads_are_given_all, heads_are_given_first_parts, sinks_are_due_first_parts};
pub use run_outcome::RunOutcome;
