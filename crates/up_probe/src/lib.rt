//! Probes: who catches what a pipe tells of its flow, and what was caught.
#![tactic(auto)]

mod catching;
mod caught;
mod event;
mod laws;
mod probe_chain;
mod sums;
#[cfg(test)]
mod tests;

pub use caught::Caught;
pub use event::Event;
pub use laws::a_probe_passes_what_it_does_not_catch;
pub use probe_chain::ProbeChain;
