//! Pumps in a circle: which of those that are ready and have no blockers has its turn next.
#![tactic(auto)]

mod circle;
mod laws;
mod pump;
mod pump_loop;
#[cfg(test)]
mod tests;
mod too_many_blockers;

pub use laws::due_pump_is_given;
pub use pump::Pump;
pub use pump_loop::Loop;
pub use too_many_blockers::TooManyBlockers;
