//! Kinds of pipe that take each packet as a whole.
#![tactic(auto)]

mod delattr;
mod delay;
mod match_attr;
mod null_pipe;
mod number;
mod pass_on;
mod setattr;

pub use delattr::DelAttr;
pub use delay::Delay;
pub use match_attr::MatchAttr;
pub use null_pipe::NullPipe;
pub use pass_on::{DupPipe, Idem};
pub use setattr::SetAttr;

#[cfg(test)]
mod attr_packets;
#[cfg(test)]
mod delattr_tests;
#[cfg(test)]
mod delay_tests;
#[cfg(test)]
mod match_attr_tests;
#[cfg(test)]
mod setattr_tests;
#[cfg(test)]
mod tests;
