//! Lanes between strands: what goes through a lane, and the lane whose two ends are used on one thread.
#![tactic(auto)]

mod end_kind;
mod full;
mod item;
mod local_lane;
#[cfg(test)]
mod tests;

pub use end_kind::EndKind;
pub use full::Full;
pub use item::Item;
pub use local_lane::LocalLane;
