// The slow meaning: what sources, pipes and sinks do, as programs over whole lists of packets. Other layers are compared with it.
ghost use Rattle.std.specs.Prelude.{◌≡◌, true, false, length, slice_get, All, IfOk, IfSome};
ghost use Rattle.up_model.specs.Ends.{is_source, is_sink, is_between};
ghost use Rattle.up_model.specs.Inputs.{IsPlaceOf};
ghost use Rattle.up_model.specs.Kinds.{output_of, settled_output, written_of, module_kind};
ghost use Rattle.up_model.specs.Meaning.{selected, sink_bytes};
ghost use Rattle.up_model.specs.Outcomes.{source_flow, settled_source_flow, source_flows, bytes_at};
ghost use Rattle.up_model.specs.Packet.{IsLegal};
ghost use Rattle.up_model.specs.WellFormed.{IsWellFormed};

use crate::plain_ends::{form_bytes, form_packets};
use crate::plain_flow::flow_within;
use crate::plain_kinds::{Delays, DropsAll, Matches, PassesOn, Sets, Skips, TakesAway};
use crate::plain_step::passed;
use crate::{GivenBytes, Graph, Kind, PacketList};
use std::alloc::Global;
use up_base::{Bytes, NoMemory};

/// The packets that the source at a place puts out, where these are all of its bytes or where more may come.
pub fn plain_source(
    alloc: Global,
    graph: &Graph,
    pipe: usize,
    bytes: &[u8],
    whole: bool,
) -> Result<PacketList, NoMemory>
    requires well_formed { IsWellFormed graph.now.pipes }
    requires source { IsPlaceOf is_source graph.now.pipes pipe }
    ensures whole { whole ≡ true → IfOk result (λ packets.
        IfSome (slice_get graph.now.pipes pipe) (λ own. packets ≡ source_flow own.kind bytes.now)) }
    ensures settled { whole ≡ false → IfOk result (λ packets.
        IfSome (slice_get graph.now.pipes pipe)
        (λ own. packets ≡ settled_source_flow own.kind bytes.now)) }
    ensures legal { IfOk result (All IsLegal) }
{
    match &graph.pipes.at(pipe).kind {
        Kind::Source { form, .. } => form_packets(alloc, *form, bytes, whole),
        Kind::Sink { .. }
        | Kind::Idem
        | Kind::Null
        | Kind::Dup
        | Kind::Skip { .. }
        | Kind::SetAttr { .. }
        | Kind::DelAttr { .. }
        | Kind::MatchAttr { .. }
        | Kind::Delay { .. } => Ok(PacketList::new(alloc)),
    }
}

/// What the pipe at a place puts out for a flow, where this is all of it or where more may come.
pub fn plain_out(
    alloc: Global,
    graph: &Graph,
    pipe: usize,
    flow: &PacketList,
    whole: bool,
) -> Result<PacketList, NoMemory>
    requires well_formed { IsWellFormed graph.now.pipes }
    requires between { IsPlaceOf is_between graph.now.pipes pipe }
    requires legal { All IsLegal flow.now }
    ensures whole { whole ≡ true → IfOk result (λ put.
        IfSome (slice_get graph.now.pipes pipe) (λ own.
        put ≡ output_of (module_kind (selected graph.now.pipes pipe) own.kind) flow.now)) }
    ensures settled { whole ≡ false → IfOk result (λ put.
        IfSome (slice_get graph.now.pipes pipe) (λ own.
        put ≡ settled_output (module_kind (selected graph.now.pipes pipe) own.kind) flow.now)) }
    ensures legal { IfOk result (All IsLegal) }
{
    match &graph.pipes.at(pipe).kind {
        Kind::Source { .. } | Kind::Sink { .. } => Ok(PacketList::new(alloc)),
        Kind::Idem => passed(alloc, &PassesOn, flow),
        Kind::Null => passed(alloc, &DropsAll, flow),
        Kind::Dup => passed(alloc, &PassesOn, flow),
        Kind::Skip { bytes } => passed(alloc, &Skips { count: *bytes }, flow),
        Kind::SetAttr { attr, value } => {
            let sets = Sets {
                attr: *attr,
                value: value.copy(alloc)?,
            };
            passed(alloc, &sets, flow)
        }
        Kind::DelAttr { attr } => passed(alloc, &TakesAway { attr: *attr }, flow),
        Kind::MatchAttr { attr, low, high } => {
            let matches = Matches {
                attr: *attr,
                low: *low,
                high: *high,
            };
            passed(alloc, &matches, flow)
        }
        Kind::Delay { by } => passed(alloc, &Delays { by: *by }, flow),
    }
}

/// The bytes that the sink at a place writes of a flow.
pub fn plain_sink(
    alloc: Global,
    graph: &Graph,
    sink: usize,
    flow: &PacketList,
) -> Result<Bytes, NoMemory>
    requires well_formed { IsWellFormed graph.now.pipes }
    requires sink { IsPlaceOf is_sink graph.now.pipes sink }
    requires legal { All IsLegal flow.now }
    ensures { IfOk result (λ bytes.
        IfSome (slice_get graph.now.pipes sink) (λ own. bytes ≡ written_of own.kind flow.now)) }
{
    match &graph.pipes.at(sink).kind {
        Kind::Sink { form, .. } => form_bytes(alloc, *form, flow),
        Kind::Source { .. }
        | Kind::Idem
        | Kind::Null
        | Kind::Dup
        | Kind::Skip { .. }
        | Kind::SetAttr { .. }
        | Kind::DelAttr { .. }
        | Kind::MatchAttr { .. }
        | Kind::Delay { .. } => Ok(Bytes::new(alloc)),
    }
}

/// The bytes that the sink at a place is to hold, by the bytes of each source.
pub fn plain_output(
    alloc: Global,
    graph: &Graph,
    given: &GivenBytes,
    sink: usize,
) -> Result<Bytes, NoMemory>
    requires well_formed { IsWellFormed graph.now.pipes }
    requires each { length given.now ≡ length graph.now.pipes }
    requires sink { IsPlaceOf is_sink graph.now.pipes sink }
    ensures { let flows = source_flows graph.now.pipes (bytes_at given.now) in
        IfOk result (λ bytes. IfSome (slice_get graph.now.pipes sink) (λ own.
        bytes ≡ sink_bytes graph.now.pipes flows own)) }
{
    match graph.pipes.at(sink).input {
        None => plain_sink(alloc, graph, sink, &PacketList::new(alloc)),
        Some(input) => {
            let input = usize::from(input);
            let taken = flow_within(alloc, graph, given, graph.pipes.len(), input)?;
            plain_sink(alloc, graph, sink, &taken)
        }
    }
}
