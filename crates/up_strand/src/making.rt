// A strand that is made: all room first, then the nodes.
ghost use Rattle.std.specs.Prelude.{◌≡◌, ℕ, Bool, ◌<◌, ◌≤◌, [], map, replicate, true, false, length, drop, IfOk, IfErr, is_some, slice_index_or, nat_le, Some, if◌then◌else◌};
ghost use Rattle.std.specs.List.{Contains, filter};
ghost use Rattle.std.specs.Option.{option_map};
ghost use Rattle.std.specs.Vec.{vec_capacity};
ghost use Rattle.up_model.specs.Ends.{is_sink, is_source};
ghost use Rattle.up_model.specs.Inputs.{ends_at_source, passes_at};
ghost use Rattle.up_model.specs.Kinds.{IsWithinBounds};
ghost use Rattle.up_model.specs.Plans.{ends_at_sink, heads, sinks_of};
ghost use Rattle.up_model.specs.WellFormed.{IsWellFormed};
ghost use Rattle.up_plan.specs.Plan.{plan_of};
ghost use Rattle.up_outside.specs.States.{SinkState};
ghost use Rattle.up_strand.specs.Making.{CanBegin, HasBegun, HasRoomFor, caught_at, is_sink_in, own_in, seat_in, sink_places, value_in};
ghost use Rattle.up_strand.specs.Nodes.{PartStands, Seat, has_ended, has_failed, is_outlet};
ghost use Rattle.up_strand.specs.StrandCalls.{begun, sinks_told, told_of};
ghost use Rattle.up_strand.specs.Strands.{IntakeStands, StandsFor, StrandFits};
ghost use Rattle.up_strand.specs.Values.{value_at, value_of_kind};
ghost use Rattle.up_strand.specs.declared.node.Part.TheVariants as parts;
ghost use Rattle.up_strand.specs.declared.spelling.Spelling.{Spelling as TheSpelling};

use crate::any_module::AnyModule;
use crate::closing::Told;
use crate::frame_source::FrameSource;
use crate::intake::Intake;
use crate::node::{Node, Part};
use crate::shape::Shape;
use crate::spelling::Spelling;
use crate::strand::Strand;
use crate::strand_end::{SinkList, StrandParts};
use crate::tree::Tree;
use crate::values::{ValueList, next_value, values_of};
use std::alloc::Global;
use up_base::{NoMemory, NoRoom};
use up_model::{CatchSet, Graph, Kind, PipeList, SourceForm, Value};
use up_outside::{Sink, Source};
use up_plan::Plan;
use up_shape::LocalPacket;

impl<P: LocalPacket, S: Source, K: Sink> Strand<P, S, K> {
    /// The strand of a head, with its source, where the head is one, and its sinks, in the order of
    /// the file. The room that its end needs, and copies of the values that its pipes set, are taken
    /// here; where there is none, its parts come back.
    pub fn new(
        alloc: Global,
        graph: &Graph,
        plan: &Plan,
        head: u16,
        source: Option<S>,
        sinks: SinkList<K>,
    ) -> Result<Strand<P, S, K>, NoRoom<StrandParts<S, K>>>
        requires well_formed { IsWellFormed graph.now.pipes }
        requires plan { plan.now ≡ plan_of graph.now.pipes }
        requires head { Contains (heads graph.now.pipes) head }
        requires source { is_some source ≡ passes_at ends_at_source graph.now.pipes head }
        requires sinks { length sinks ≡ length (sinks_of graph.now.pipes head) }
        ensures stands { IfOk result (λ strand. StandsFor P.plain S.state K.state strand
            (begun graph.now.pipes head (option_map S.state source)
            (sinks_told K.state graph.now.pipes head sinks))) }
        ensures family { IfOk result
            (λ strand. (f : P.Store.Family) → StrandFits strand P.fits f) }
        ensures back { IfErr result
            (λ refused. refused.back ≡ record { source = source; sinks = sinks }) }
    {
        match Rooms::of(alloc, graph, plan, head) {
            Ok(rooms) => Ok(rooms.fill(alloc, graph, head, source, sinks)),
            Err(NoMemory) => Err(NoRoom {
                back: StrandParts { source, sinks },
            }),
        }
    }
}

/// All that a strand takes memory for.
struct Rooms<P, K> {
    shape: Shape,
    nodes: Vec<Node<P, K>>,
    values: ValueList,
    caught: Vec<CatchSet>,
    closed: Vec<bool>,
    told: Told<K>,
}

/// Whether a sink stands at a place.
fn is_sink_at(pipes: &PipeList, place: u16) -> bool
    ensures { result ≡ passes_at ends_at_sink pipes.now place }
{
    usize::from(place) < pipes.len() && pipes.at(usize::from(place)).kind.is_sink()
}

/// How many of the pipes at these places are sinks.
fn sink_count(pipes: &PipeList, places: &[u16]) -> usize
    ensures { result ≡ length (filter (passes_at ends_at_sink pipes.now) places.now) }
{
    places
        .iter()
        .filter(|place| is_sink_at(pipes, **place))
        .count()
}

/// What the probe of the pipe at a place catches.
fn caught_at(pipes: &PipeList, place: u16) -> CatchSet
    ensures { result ≡ caught_at pipes.now place }
{
    if usize::from(place) < pipes.len() {
        pipes.at(usize::from(place)).caught
    } else {
        CatchSet::default()
    }
}

/// What the probes of the pipes at these places catch.
fn catches_of(alloc: Global, pipes: &PipeList, places: &[u16]) -> Result<Vec<CatchSet>, NoMemory>
    ensures { IfOk result (λ caught. caught.items ≡ map (caught_at pipes.now) places.now) }
{
    Ok(
        places
            .iter()
            .map(|place| caught_at(pipes, *place))
            .collect(alloc)?,
    )
}

/// At none of so many nodes the end was taken out.
fn none_closed(alloc: Global, count: usize) -> Result<Vec<bool>, NoMemory>
    ensures { IfOk result (λ closed. closed.items ≡ replicate count false) }
{
    Ok(vec![in alloc; false; count]?)
}

impl<P: LocalPacket, K: Sink> Rooms<P, K> {
    /// The room for the strand of a head.
    fn of(alloc: Global, graph: &Graph, plan: &Plan, head: u16) -> Result<Rooms<P, K>, NoMemory>
        requires well_formed { IsWellFormed graph.now.pipes }
        requires plan { plan.now ≡ plan_of graph.now.pipes }
        requires head { Contains (heads graph.now.pipes) head }
        ensures { IfOk result (HasRoomFor graph.now.pipes head) }
    {
        let shape = Shape::of(alloc, graph, plan, head)?;
        let pipes = &graph.pipes;
        let own = &shape.places[..shape.pipes];
        let values = values_of(alloc, pipes, own)?;
        let caught = catches_of(alloc, pipes, own)?;
        let closed = none_closed(alloc, shape.places.len())?;
        let sinks = sink_count(pipes, own);
        let nodes = Vec::with_capacity(alloc, shape.places.len())?;
        match Told::with_room(alloc, shape.pipes, sinks) {
            Ok(told) => Ok(Rooms {
                shape,
                nodes,
                values,
                caught,
                closed,
                told,
            }),
            Err(NoMemory) => {
                nodes.destroy_empty();
                Err(NoMemory)
            }
        }
    }

    /// The strand of this room, which did nothing yet.
    fn fill<S: Source>(
        self,
        alloc: Global,
        graph: &Graph,
        head: u16,
        source: Option<S>,
        sinks: SinkList<K>,
    ) -> Strand<P, S, K>
        requires well_formed { IsWellFormed graph.now.pipes }
        requires head { Contains (heads graph.now.pipes) head }
        requires rooms { HasRoomFor graph.now.pipes head self }
        requires source { is_some source ≡ passes_at ends_at_source graph.now.pipes head }
        requires sinks { length sinks ≡ length (sinks_of graph.now.pipes head) }
        ensures stands { StandsFor P.plain S.state K.state result
            (begun graph.now.pipes head (option_map S.state source)
            (sinks_told K.state graph.now.pipes head sinks)) }
        ensures family { (f : P.Store.Family) → StrandFits result P.fits f }
    {
        let Rooms {
            shape,
            nodes,
            values,
            caught,
            closed,
            told,
        } = self;
        let nodes = nodes_of(alloc, &graph.pipes, &shape, nodes, values, sinks);
        let Shape {
            places,
            pipes: _,
            inputs: _,
            takers: _,
            order,
        } = shape;
        Strand {
            ready: places.len(),
            tree: Tree {
                nodes,
                order,
                short: false,
            },
            places,
            caught,
            closed,
            intake: intake_of(alloc, &graph.pipes, head, source),
            ended: None,
            kept: None,
            last: None,
            told,
        }
    }
}

/// What the pipe of a kind does, whose module owns this value; a sink is the next of the strand's.
fn part_of<P: LocalPacket, K: Sink>(
    alloc: Global,
    kind: &Kind,
    value: Option<Value>,
    sinks: &mut SinkList<K>,
) -> Part<K>
    requires within { IsWithinBounds kind.now }
    requires value { value ≡ value_of_kind kind.now }
    requires sinks { is_sink kind.now ≡ true → 0 < length sinks.old }
    ensures rest { sinks.new ≡ drop (if is_sink kind.now then 1 else 0) sinks.old }
    ensures stands { (seat : Seat) → seat.kind ≡ Some kind.now
        → (is_sink kind.now ≡ true
        → (d : K) → seat.start ≡ K.state (slice_index_or sinks.old 0 d))
        → PartStands P.plain K.state seat false result [] }
    ensures sink { (sink : K) (spelling : TheSpelling) (failed : Bool)
        → result ≡ parts.Sink sink spelling failed → (is_sink kind.now ≡ true)
        × ((d : K) → slice_index_or sinks.old 0 d ≡ sink) }
    ensures inner { is_outlet result ≡ false }
    ensures going { has_ended result ≡ false }
    ensures works { has_failed result ≡ false }
{
    if kind.is_source() {
        return Part::Head;
    }
    if let Kind::Sink { path: _, form } = kind {
        return match sinks.next() {
            Some(sink) => Part::Sink {
                sink,
                spelling: Spelling::of(alloc, *form),
                failed: false,
            },
            None => unreachable!(),
        };
    }
    match AnyModule::of::<P>(kind, value) {
        Some(module) => Part::Pipe(module),
        None => unreachable!(),
    }
}

/// What the node at a place does, whose module owns this value; a sink is the next of the strand's.
fn part_at<P: LocalPacket, K: Sink>(
    alloc: Global,
    pipes: &PipeList,
    shape: &Shape,
    i: usize,
    value: Option<Value>,
    sinks: &mut SinkList<K>,
) -> Part<K>
    requires well_formed { IsWellFormed pipes.now }
    requires shape { CanBegin pipes.now shape.now }
    requires within { i < length shape.now.places.items }
    requires value { value ≡ value_in pipes.now shape.now i }
    requires sinks { is_sink_in pipes.now shape.now i ≡ true → 0 < length sinks.old }
    ensures rest { sinks.new
        ≡ drop (if is_sink_in pipes.now shape.now i then 1 else 0) sinks.old }
    ensures stands { (told : ℕ → SinkState)
        → (is_sink_in pipes.now shape.now i ≡ true → (d : K)
        → (seat_in pipes.now shape.now told i).start ≡ K.state (slice_index_or sinks.old 0 d))
        → PartStands P.plain K.state (seat_in pipes.now shape.now told i) false result [] }
    ensures sink { (sink : K) (spelling : TheSpelling) (failed : Bool)
        → result ≡ parts.Sink sink spelling failed → (is_sink_in pipes.now shape.now i ≡ true)
        × ((d : K) → slice_index_or sinks.old 0 d ≡ sink) }
    ensures outlet { is_outlet result ≡ nat_le shape.now.pipes i }
    ensures going { has_ended result ≡ false }
    ensures works { has_failed result ≡ false }
{
    if i < shape.pipes {
        let kind = &pipes.at(usize::from(shape.places[i])).kind;
        part_of::<P, K>(alloc, kind, value, sinks)
    } else {
        Part::Outlet
    }
}

/// The nodes of this shape, which took nothing.
fn nodes_of<P: LocalPacket, K: Sink>(
    alloc: Global,
    pipes: &PipeList,
    shape: &Shape,
    mut nodes: Vec<Node<P, K>>,
    mut values: ValueList,
    mut sinks: SinkList<K>,
) -> Vec<Node<P, K>>
    requires well_formed { IsWellFormed pipes.now }
    requires shape { CanBegin pipes.now shape.now }
    requires empty { nodes.items ≡ [] }
    requires room { length shape.now.places.items ≤ vec_capacity nodes }
    requires values { values ≡ map (value_at pipes.now) (own_in shape.now) }
    requires sinks { length sinks ≡ length (sink_places pipes.now shape.now) }
    ensures count { length result.items ≡ length shape.now.places.items }
    ensures begun { (i : ℕ) (d : Node P K) → i < length result.items
        → HasBegun pipes.now shape.now P.plain K.state
        (told_of K.state (sink_places pipes.now shape.now) sinks) i (slice_index_or result.items i d) }
{
    for i in 0..shape.places.len() {
        let value = next_value(&mut values);
        let part = part_at::<P, K>(alloc, pipes, shape, i, value, &mut sinks);
        nodes.push_reserved(Node::new(alloc, shape.inputs[i], shape.takers[i], part));
    }
    sinks.end();
    nodes
}

/// Where the packets of the head come from.
fn intake_of<S: Source>(alloc: Global, pipes: &PipeList, head: u16, source: Option<S>) -> Intake<S>
    requires well_formed { IsWellFormed pipes.now }
    requires head { head < length pipes.now }
    requires source { is_some source ≡ passes_at ends_at_source pipes.now head }
    ensures { (told : ℕ → SinkState) → IntakeStands S.state result
        (begun pipes.now head (option_map S.state source) told) }
{
    match (source, &pipes.at(usize::from(head)).kind) {
        (
            Some(source),
            Kind::Source {
                form: SourceForm::Raw { block },
                limit,
                ..
            },
        ) => Intake::FromSource {
            source,
            block: *block,
            limit: *limit,
            left: *limit,
        },
        (
            Some(source),
            Kind::Source {
                form: SourceForm::Framed,
                limit,
                ..
            },
        ) => Intake::FromFrames(FrameSource::of(alloc, source, *limit)),
        (Some(_), _) => unreachable!(),
        (None, _) => Intake::FromLane,
    }
}
