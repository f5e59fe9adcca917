//! The outside: sources, sinks and depots that open them, each with its faults counted.
#![tactic(auto)]

mod asked;
mod depot;
mod memory;
mod sink;
mod source;
mod system;
#[cfg(test)]
mod test_calls;

pub use asked::{Entry, Mark, Side};
pub use depot::Depot;
pub use memory::{DepotCall, MemDepot, MemSink, MemSource};
pub use sink::Sink;
pub use source::Source;
pub use system::{FileDepot, ReaderSource, StdErr, StdOut, WriterSink};
