//! What the program tells: the faults, their statuses, and the lines of text.
#![tactic(auto)]

mod fault;
mod line;
#[cfg(test)]
mod tests;

pub use fault::Fault;
pub use line::{OUT_OF_MEMORY, fault_line};
