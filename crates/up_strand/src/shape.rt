// The tree of a strand before it has nodes: which pipes it has, what each takes from, and in which
// order they are swept.
ghost use Rattle.std.specs.Prelude.{◌≡◌, ◌==◌, ◌≤◌, ◌<◌, ◌++◌, ℕ, List, None, length, map, position, slice_index_or, IfOk};
ghost use Rattle.std.specs.List.{Contains, filter, range_with_len};
ghost use Rattle.std.specs.Option.{is_some};
ghost use Rattle.up_model.specs.Inputs.{input_at};
ghost use Rattle.up_model.specs.Plans.{heads, strand_of};
ghost use Rattle.up_model.specs.WellFormed.{IsWellFormed};
ghost use Rattle.up_model.specs.declared.limits.TheConstants.{MAX_PIPES};
ghost use Rattle.up_model.specs.declared.pipe.Pipe.{Pipe as ThePipe};
ghost use Rattle.up_plan.specs.Plan.{plan_of};
ghost use Rattle.up_strand.specs.Shapes as shapes;
ghost use Rattle.up_strand.specs.Shapes.{AreTakersIn, IsShapeOf, depth_of, node_depth, node_input};
ghost use Rattle.up_strand.specs.Tree.{IsOrder};

use crate::node::Takers;
use std::alloc::Global;
use up_base::NoMemory;
use up_model::{Graph, PipeList, PlaceList};
use up_plan::Plan;

/// The tree of a strand, by the places of its nodes: its pipes in the order of the file, then the
/// ends of the lanes that it fills, in the order of their heads.
#[derive(Debug, Drop)]
pub(crate) struct Shape {
    /// The place of each node's pipe; of the end of a lane, that of its head.
    pub places: Vec<u16>,
    /// How many of the nodes are pipes.
    pub pipes: usize,
    /// The node that each takes from. The head has none.
    pub inputs: Vec<Option<usize>>,
    /// The first and last node that take from each.
    pub takers: Vec<Option<Takers>>,
    /// All nodes, each behind the one that it takes from.
    pub order: Vec<usize>,
}

impl Shape {
    /// The tree of the strand of a head.
    pub fn of(alloc: Global, graph: &Graph, plan: &Plan, head: u16) -> Result<Shape, NoMemory>
        requires well_formed { IsWellFormed graph.now.pipes }
        requires plan { plan.now ≡ plan_of graph.now.pipes }
        requires head { Contains (heads graph.now.pipes) head }
        ensures { IfOk result (IsShapeOf graph.now.pipes head) }
    {
        let pipes = &graph.pipes;
        let own = own_places(alloc, plan, head)?;
        let heads = all_heads(alloc, plan)?;
        let places = with_lanes(alloc, pipes, &heads, &own)?;
        let inputs = inputs_of(alloc, pipes, &places, &own, head)?;
        Ok(Shape {
            pipes: own.len(),
            takers: takers_of(alloc, &inputs)?,
            order: order_of(alloc, pipes, &places, head)?,
            inputs,
            places,
        })
    }
}

/// These places.
fn copied(alloc: Global, places: &PlaceList) -> Result<Vec<u16>, NoMemory>
    ensures { IfOk result (λ copy. copy.items ≡ places.now) }
{
    let mut copy = Vec::new(alloc);
    for i in 0..places.len() {
        copy.push(*places.at(i))?;
    }
    Ok(copy)
}

/// The places of the pipes of the strand of a head.
fn own_places(alloc: Global, plan: &Plan, head: u16) -> Result<Vec<u16>, NoMemory>
    ensures { IfOk result (λ own. (pipes : List ThePipe) → plan.now ≡ plan_of pipes
        → Contains (heads pipes) head → own.items ≡ strand_of pipes head) }
{
    for i in 0..plan.strands.len() {
        let strand = plan.strands.at(i);
        if strand.head == head {
            return copied(alloc, &strand.pipes);
        }
    }
    Ok(Vec::new(alloc))
}

/// The heads of all strands.
fn all_heads(alloc: Global, plan: &Plan) -> Result<Vec<u16>, NoMemory>
    ensures { IfOk result (λ all. all.items ≡ map (λ strand. strand.head) plan.now.strands) }
{
    let mut all = Vec::new(alloc);
    for i in 0..plan.strands.len() {
        all.push(plan.strands.at(i).head)?;
    }
    Ok(all)
}

/// The place that the pipe at a place takes from.
fn input_at(pipes: &PipeList, place: u16) -> Option<u16>
    ensures { result ≡ input_at pipes.now place }
{
    if usize::from(place) < pipes.len() {
        pipes.at(usize::from(place)).input
    } else {
        None
    }
}

/// Which of these places it is.
fn node_at(own: &[u16], place: u16) -> Option<usize>
    ensures { result ≡ position (λ other. other == place) own.now }
{
    own.iter().position(|other| *other == place)
}

/// The node of the pipe from which the pipe at a place takes, where these are the places of the
/// nodes of pipes.
fn input_among(pipes: &PipeList, own: &[u16], place: u16) -> Option<usize>
    ensures { result ≡ shapes.input_among pipes.now own.now place }
{
    match input_at(pipes, place) {
        Some(input) => node_at(own, input),
        None => None,
    }
}

/// Whether the lane of a head is filled by one of these pipes.
fn is_filled(pipes: &PipeList, own: &[u16], head: u16) -> bool
    ensures { result ≡ is_some (shapes.input_among pipes.now own.now head) }
{
    input_among(pipes, own, head).is_some()
}

/// These places, and then those of these heads whose lanes their pipes fill.
fn with_lanes(
    alloc: Global,
    pipes: &PipeList,
    heads: &[u16],
    own: &[u16],
) -> Result<Vec<u16>, NoMemory>
    ensures { IfOk result (λ places. places.items ≡ own.now
        ++ filter (λ head. is_some (shapes.input_among pipes.now own.now head)) heads.now) }
{
    let lanes: Vec<u16> = heads
        .iter()
        .copied()
        .filter(|head| is_filled(pipes, own, *head))
        .collect(alloc)?;
    let mut places = Vec::from_slice(alloc, own)?;
    places.extend_from_slice(&lanes)?;
    Ok(places)
}

/// What the node of a place takes from.
fn node_input(pipes: &PipeList, own: &[u16], head: u16, place: u16) -> Option<usize>
    ensures { result ≡ node_input pipes.now own.now head place }
{
    if place == head {
        None
    } else {
        input_among(pipes, own, place)
    }
}

/// What the node of each place takes from.
fn inputs_of(
    alloc: Global,
    pipes: &PipeList,
    places: &[u16],
    own: &[u16],
    head: u16,
) -> Result<Vec<Option<usize>>, NoMemory>
    ensures { IfOk result (λ inputs. inputs.items
        ≡ map (node_input pipes.now own.now head) places.now) }
{
    Ok(
        places
            .iter()
            .map(|place| node_input(pipes, own, head, *place))
            .collect(alloc)?,
    )
}

/// The first and the last that take from a node.
fn takers_from(inputs: &[Option<usize>], place: usize) -> Option<Takers>
    ensures { AreTakersIn inputs.now place result }
{
    let first = inputs.iter().position(|input| *input == Some(place))?;
    let last = inputs.iter().rposition(|input| *input == Some(place))?;
    Some(Takers { first, last })
}

/// The first and last that take from each node.
fn takers_of(alloc: Global, inputs: &[Option<usize>]) -> Result<Vec<Option<Takers>>, NoMemory>
    ensures { IfOk result (λ takers. (length takers.items ≡ length inputs.now)
        × ((k : ℕ) → k < length inputs.now
        → AreTakersIn inputs.now k (slice_index_or takers.items k None))) }
{
    Ok(
        (0..inputs.len())
            .map(|place| takers_from(inputs, place))
            .collect(alloc)?,
    )
}

/// How many steps along inputs it is from a place to the head.
fn depth(pipes: &PipeList, head: u16, place: u16) -> usize
    requires { length pipes.now ≤ MAX_PIPES }
    ensures { result ≡ depth_of pipes.now head place }
{
    let limit = pipes.len() + 1;
    let mut at = place;
    for steps in 0..limit {
        if at == head {
            return steps;
        }
        match input_at(pipes, at) {
            Some(input) => at = input,
            None => return steps,
        }
    }
    limit
}

/// How many steps along inputs it is from a node to the head.
fn node_depth(pipes: &PipeList, head: u16, places: &[u16], node: usize) -> usize
    requires { length pipes.now ≤ MAX_PIPES }
    ensures { result ≡ node_depth pipes.now head places.now node }
{
    match places.get(node) {
        Some(place) => depth(pipes, head, *place),
        None => 0,
    }
}

/// The numbers below this one.
fn numbers(alloc: Global, count: usize) -> Result<Vec<usize>, NoMemory>
    ensures { IfOk result (λ all. all.items ≡ range_with_len 0 count) }
{
    Ok((0..count).collect(alloc)?)
}

/// All nodes, by how many steps along inputs they are from the head.
fn order_of(
    alloc: Global,
    pipes: &PipeList,
    places: &[u16],
    head: u16,
) -> Result<Vec<usize>, NoMemory>
    requires { length pipes.now ≤ MAX_PIPES }
    ensures { IfOk result (λ order. IsOrder (node_depth pipes.now head places.now)
        (length places.now) order.items) }
{
    let mut order = numbers(alloc, places.len())?;
    order.sort_by_key(|node| node_depth(pipes, head, places, *node))?;
    Ok(order)
}
