//! The outside of a system: its files and streams.

mod file_depot;
mod reader_source;
#[cfg(test)]
mod tests;
mod writer_sink;

pub use file_depot::FileDepot;
pub use reader_source::ReaderSource;
pub use writer_sink::{StdErr, StdOut, WriterSink};
