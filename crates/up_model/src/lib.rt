//! The meaning of a graph: its pipes, packets and kinds, and what each pipe makes of what it takes.
#![tactic(auto)]

#[cfg(test)]
mod attr_kind_tests;
#[cfg(test)]
mod attr_tests;
mod catch_set;
mod date_kind;
mod event_kind;
mod fan_out;
mod faults;
mod form;
mod frame_laws;
mod frame_layout;
mod graph;
mod graph_fault;
mod graph_laws;
#[cfg(test)]
mod graph_tests;
mod inputs;
mod kind;
mod laws;
mod limits;
mod lists;
mod opt;
mod outcome;
mod packet_laws;
mod pipe;
mod plain;
mod plain_attrs;
mod plain_ends;
mod plain_fields;
mod plain_flow;
#[cfg(test)]
mod plain_frame_tests;
mod plain_frames;
mod plain_kinds;
mod plain_packet;
#[cfg(test)]
mod plain_packet_tests;
mod plain_spelling;
mod plain_step;
#[cfg(test)]
mod plain_tests;
mod tally;
#[cfg(test)]
mod tests;
mod value;
mod value_type;
mod verdict;
mod well_formed;

pub use catch_set::CatchSet;
pub use date_kind::DateKind;
pub use event_kind::EventKind;
pub use fan_out::FanOut;
pub use form::{SinkForm, SourceForm};
pub use frame_laws::{
    frames_are_read_back, no_frame_begins_another, what_was_judged_stays, whole_frames_are_all,
    whole_frames_come_one_by_one,
};
pub use frame_layout::{MARK, NotWhole, VERSION};
pub use graph::Graph;
pub use graph_fault::GraphFault;
pub use graph_laws::{
    a_cut_changes_nothing, a_source_feeds_its_own_pipes, carried_bytes_come_first,
    carried_comes_first, flows_stay_legal, flows_unroll, more_steps_reach_no_other, rules_are_kept,
    settled_bytes_grow, settled_flows_grow, sources_are_fed, the_first_fault_is_told,
};
pub use kind::Kind;
pub use laws::{
    blocks_rejoin, carried_is_legal, chain_copies, cut_is_the_rest, dates_are_moved,
    kept_sums_stop, nothing_is_cut, options_are_set, outputs_are_legal, packets_are_put_or_dropped,
    settled_is_prefix, settled_sums_grow, shares_are_lawful, starts_with_nothing, sums_add_up,
    sums_count_packets, what_is_shown_stays,
};
pub use limits::{
    DEFAULT_BLOCK, DEFAULT_QUEUE, MAX_ATTRS, MAX_BLOCK, MAX_GRAPH, MAX_LIMIT, MAX_PACKET, MAX_PATH,
    MAX_PID, MAX_PIPES, MAX_QUEUE, MAX_VALUE, MAX_WORKERS,
};
pub use lists::{GivenBytes, OutcomeList, PacketList, PipeList, PlaceList, TallyList};
pub use opt::Opt;
pub use outcome::{Outcome, deciding};
pub use packet_laws::packets_stay_legal;
pub use pipe::{Pipe, default_worker};
pub use plain::{plain_out, plain_output, plain_sink, plain_source};
pub use plain_attrs::PlainAttrs;
pub use plain_packet::PlainPacket;
pub use tally::Tally;
pub use value::{Value, ValueView};
pub use value_type::ValueType;
pub use verdict::Verdict;
