//! A strand: a source, or a pipe behind a lane, and the tree of pipes behind it that one worker
//! runs, a packet at a time.
#![tactic(auto)]

mod any_module;
mod closing;
mod ending;
mod fill;
mod frame_source;
mod giving;
mod intake;
mod laws;
mod making;
mod node;
mod outcomes;
mod outputs;
mod reached;
mod shape;
mod sink_packet;
mod source_packet;
mod spelling;
mod strand;
mod strand_end;
mod sweep;
mod tree;
mod values;
mod want;

pub use laws::{
    a_head_is_fed_what_it_has, a_source_ends_by_its_bytes, a_strand_asks_by_what_it_did,
    a_strand_is_fed_at_its_head, lanes_are_given_the_flow,
};
pub use reached::{nodes_come_to_a_first_part, nodes_come_to_the_meaning};
pub use strand::Strand;
pub use strand_end::{SinkList, StrandEnd, StrandParts};
pub use want::Want;

#[cfg(test)]
mod giving_tests;
#[cfg(test)]
mod read_tests;
#[cfg(test)]
mod shape_tests;
#[cfg(test)]
mod sweep_tests;
#[cfg(test)]
mod write_tests;
