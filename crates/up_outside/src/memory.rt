//! The outside that serves tests: a depot in memory, and its sources and sinks.

mod depot_call;
mod entries;
#[cfg(test)]
mod failure_tests;
mod failures;
mod held_files;
mod mem_depot;
mod mem_sink;
mod mem_source;
mod object_calls;
#[cfg(test)]
mod tests;

pub use depot_call::DepotCall;
pub use mem_depot::MemDepot;
pub use mem_sink::MemSink;
pub use mem_source::MemSource;
