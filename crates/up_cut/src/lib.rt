//! Kinds of pipe that cut packets.
#![tactic(auto)]

mod skip;

pub use skip::Skip;

#[cfg(test)]
mod skip_tests;
