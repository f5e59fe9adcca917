//! The top call: runs the graph of a file over a depot, and answers the status.
#![tactic(auto)]

mod drain;
mod ending;
mod fill;
mod graph_text;
mod laws;
mod program;
mod tell;

pub use ending::Ending;
pub use laws::{
    closed_sinks_hold_first_parts, first_causes_are_answered, runs_ask_all, runs_complete,
    runs_have_statuses, runs_tell_of_bytes, whole_runs_are_clean,
};
pub use program::{run, run_single};

#[cfg(test)]
mod fault_tests;
#[cfg(test)]
mod frame_tests;
#[cfg(test)]
mod frame_write_tests;
#[cfg(test)]
mod great_frame_tests;
#[cfg(test)]
mod kind_tests;
#[cfg(test)]
mod tell_tests;
#[cfg(test)]
mod tests;
#[cfg(test)]
mod told_tests;
#[cfg(test)]
mod tree_fault_tests;
#[cfg(test)]
mod tree_tests;
