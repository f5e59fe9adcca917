//! Packets written as frames, and frames read of bytes, whole or in pieces.
#![tactic(auto)]

mod frame_parts;
mod frame_reader;
mod judged;
mod judging;
mod making;
mod reading;
mod refusals;
mod writing;

pub use frame_reader::FrameReader;
pub use reading::behind_frame;
pub use refusals::{BadFrame, FeedRefused};
pub use writing::write_frame;

#[cfg(test)]
mod answer_tests;
#[cfg(test)]
mod field_tests;
#[cfg(test)]
mod reader_tests;
#[cfg(test)]
mod tests;
