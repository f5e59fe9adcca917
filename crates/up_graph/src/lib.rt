//! Reads a graph of pipes from the TOML text of a graph file.
#![tactic(auto)]

mod attr_value;
mod document;
mod faults;
mod field;
mod form;
mod graph_refused;
mod kinds;
mod laws;
mod pipes;
mod read;
mod top;
mod values;

pub use graph_refused::GraphRefused;
pub use laws::the_least_wrong_field_is_told;
pub use read::read_graph;

#[cfg(test)]
mod tests;
