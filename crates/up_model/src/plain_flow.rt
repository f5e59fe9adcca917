ghost use Rattle.std.specs.Prelude.{◌≡◌, length, All, IfOk};
ghost use Rattle.up_model.specs.Meaning.{wholly, to_sources, flow_within};
ghost use Rattle.up_model.specs.Outcomes.{source_flows, bytes_at};
ghost use Rattle.up_model.specs.Packet.{IsLegal};
ghost use Rattle.up_model.specs.WellFormed.{IsWellFormed};

use crate::{GivenBytes, Graph, PacketList, plain_out, plain_source};
use std::alloc::Global;
use up_base::NoMemory;

/// What the pipe at a place puts out, where its source is reached in fewer steps than these.
pub(crate) fn flow_within(
    alloc: Global,
    graph: &Graph,
    given: &GivenBytes,
    steps: usize,
    place: usize,
) -> Result<PacketList, NoMemory>
    requires well_formed { IsWellFormed graph.now.pipes }
    requires each { length given.now ≡ length graph.now.pipes }
    ensures flow { let pipes = graph.now.pipes in
        let fed = to_sources pipes (source_flows pipes (bytes_at given.now)) in
        IfOk result (λ put. put ≡ flow_within wholly pipes fed steps place) }
    ensures legal { IfOk result (All IsLegal) }
{
    if steps == 0 || graph.pipes.len() <= place {
        return Ok(PacketList::new(alloc));
    }
    let own = graph.pipes.at(place);
    if own.kind.is_source() {
        return plain_source(alloc, graph, place, given.at(place).as_slice(), true);
    }
    if own.kind.is_sink() {
        return Ok(PacketList::new(alloc));
    }
    match own.input {
        None => plain_out(alloc, graph, place, &PacketList::new(alloc), true),
        Some(input) => {
            let taken = flow_within(alloc, graph, given, steps - 1, usize::from(input))?;
            plain_out(alloc, graph, place, &taken, true)
        }
    }
}
