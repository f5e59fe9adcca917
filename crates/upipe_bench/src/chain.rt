ghost use Rattle.std.specs.Prelude.{◌≡◌, ◌+◌, ◌++◌, [], ◌∷◌, length, IfOk, OnOk, is_some};
ghost use Rattle.std.specs.List.{filter};
ghost use Rattle.up_model.specs.Inputs.{ends_at_source, passes_at};
ghost use Rattle.up_model.specs.Plans.{ends_at_sink};
ghost use Rattle.up_model.specs.WellFormed.{IsWellFormed};
ghost use Rattle.up_outside.specs.Memory.MemSink.{sink_state};
ghost use Rattle.up_outside.specs.Memory.MemSource.{source_state};
ghost use Rattle.up_shape.specs.VecPackets.{plain_of};
ghost use Rattle.up_strand.specs.Strands.{StandsForSome};
ghost use Rattle.upipe_bench.specs.Chains.{are_idems, chain, is_idem, is_inner};

use crate::not_measured::NotMeasured;
use std::alloc::Global;
use up_base::{NoMemory, NoRoom, PipeName, Text};
use up_model::{
    CatchSet, DEFAULT_QUEUE, Graph, Kind, MAX_LIMIT, Pipe, PipeList, PlaceList, SinkForm,
    SourceForm, default_worker,
};
use up_outside::{Depot, MemDepot, MemSink, MemSource};
use up_plan::make_plan;
use up_shape::VecPacket;
use up_strand::{SinkList, Strand, StrandParts};

/// The bytes of each packet: those of a transport stream packet.
pub(crate) const BLOCK: u32 = 188;

pub(crate) type Chain = Strand<VecPacket, MemSource, MemSink>;

/// What the pipe at a place of a chain of so many `idem`s does.
fn kind_of(alloc: Global, place: u16, idems: u16, path: &str) -> Result<Kind, NoMemory>
    ensures { IfOk result (λ kind. is_idem kind ≡ is_inner idems place) }
{
    if place == 0 {
        return Ok(Kind::Source {
            path: Text::from_str(alloc, path)?,
            form: SourceForm::Raw { block: BLOCK },
            limit: MAX_LIMIT,
        });
    }
    if place <= idems {
        return Ok(Kind::Idem);
    }
    Ok(Kind::Sink {
        path: Text::from_str(alloc, path)?,
        form: SinkForm::Raw,
    })
}

/// Adds the pipe at a place, which takes from the one before it. Its name, and its path where it has one, is `pipe`
/// with its place.
fn add_pipe(alloc: Global, pipes: &mut PipeList, place: u16, idems: u16) -> Result<(), NotMeasured>
    ensures { OnOk result (are_idems pipes.new ≡ are_idems pipes.old ++ is_inner idems place ∷ []) }
{
    let Ok(name) = format!(in alloc; "pipe{place}") else {
        return Err(NotMeasured::NoMemory);
    };
    let Ok(pipe_name) = PipeName::read(name.as_bytes()) else {
        return Err(NotMeasured::NoChain { idems });
    };
    let pipe = Pipe {
        name: pipe_name,
        worker: default_worker(),
        input: place.checked_sub(1),
        select: None,
        queue: DEFAULT_QUEUE,
        caught: CatchSet::default(),
        kind: kind_of(alloc, place, idems, &name)?,
    };
    match pipes.push(pipe) {
        Ok(()) => Ok(()),
        Err(_) => Err(NotMeasured::NoMemory),
    }
}

/// A source, so many `idem`s, and a sink.
pub(crate) fn chain_of(alloc: Global, idems: u16) -> Result<Graph, NotMeasured>
    ensures well_formed { IfOk result (λ graph. IsWellFormed graph.pipes) }
    ensures idems { IfOk result (λ graph. are_idems graph.pipes ≡ chain idems) }
{
    let Some(count) = idems.checked_add(2) else {
        return Err(NotMeasured::NoChain { idems });
    };
    let mut pipes = PipeList::new(alloc);
    for place in 0..count {
        add_pipe(alloc, &mut pipes, place, idems)?;
    }
    let graph = Graph { pipes };
    if graph.is_well_formed() {
        Ok(graph)
    } else {
        Err(NotMeasured::NoChain { idems })
    }
}

/// The source of a head, where it is one.
fn source_at(
    pipes: &PipeList,
    head: u16,
    depot: &mut MemDepot,
) -> Result<Option<MemSource>, NotMeasured>
    ensures { IfOk result
        (λ source. is_some source ≡ passes_at ends_at_source pipes.now head) }
{
    let place = usize::from(head);
    if pipes.len() <= place {
        return Ok(None);
    }
    match &pipes.at(place).kind {
        Kind::Source { path, .. } => Ok(Some(depot.open_source(path.as_str())?)),
        _ => Ok(None),
    }
}

/// Adds the sink at a place, where it is one.
fn add_sink(
    pipes: &PipeList,
    own: u16,
    depot: &mut MemDepot,
    sinks: &mut SinkList<MemSink>,
) -> Result<(), NotMeasured>
    ensures { OnOk result (length sinks.new ≡ length sinks.old
        + length (filter (passes_at ends_at_sink pipes.now) (own ∷ []))) }
{
    let place = usize::from(own);
    if pipes.len() <= place {
        return Ok(());
    }
    let Kind::Sink { path, .. } = &pipes.at(place).kind else {
        return Ok(());
    };
    let sink = depot.open_sink(path.as_str())?;
    match sinks.push(sink) {
        Ok(()) => Ok(()),
        Err(_) => Err(NotMeasured::NoMemory),
    }
}

/// The sinks among these places.
fn sinks_at(
    alloc: Global,
    pipes: &PipeList,
    places: &PlaceList,
    depot: &mut MemDepot,
) -> Result<SinkList<MemSink>, NotMeasured>
    ensures { IfOk result (λ sinks. length sinks
        ≡ length (filter (passes_at ends_at_sink pipes.now) places.now)) }
{
    let mut sinks = SinkList::new(alloc);
    for k in 0..places.len() {
        add_sink(pipes, *places.at(k), depot, &mut sinks)?;
    }
    Ok(sinks)
}

/// The strand of a graph's first head, over a depot.
pub(crate) fn strand_of(
    alloc: Global,
    graph: &Graph,
    depot: &mut MemDepot,
) -> Result<Chain, NotMeasured>
    requires { IsWellFormed graph.now.pipes }
    ensures { IfOk result (StandsForSome plain_of source_state sink_state) }
{
    let plan = make_plan(alloc, graph)?;
    if plan.strands.len() == 0 {
        return Err(NotMeasured::NotCarried);
    }
    let planned = plan.strands.at(0);
    let source = source_at(&graph.pipes, planned.head, depot)?;
    let sinks = sinks_at(alloc, &graph.pipes, &planned.pipes, depot)?;
    match Strand::new(alloc, graph, &plan, planned.head, source, sinks) {
        Ok(strand) => Ok(strand),
        Err(NoRoom { back }) => {
            let StrandParts {
                source: _,
                sinks: _,
            } = back;
            Err(NotMeasured::NoMemory)
        }
    }
}
