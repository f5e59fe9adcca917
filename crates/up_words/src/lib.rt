//! The words of the command line, read as a job.
#![tactic(auto)]

mod job;
mod read;
#[cfg(test)]
mod tests;

pub use job::Job;
pub use read::{WordsRefused, read_words};
