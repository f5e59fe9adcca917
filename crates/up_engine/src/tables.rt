// The tables of a net: which strand stands where, what fills its lane, and its empty lane.
ghost use Rattle.std.specs.Prelude.{◌≡◌, ◌<◌, ◌↔◌, ℕ, length, map, false, true, Option, None, Some, IfOk, IsTrue, slice_get, slice_index_or};
ghost use Rattle.std.specs.List.{Contains};
ghost use Rattle.up_engine.specs.Joins.{filler_of};
ghost use Rattle.up_engine.specs.Parts.{AreApart};
ghost use Rattle.up_engine.specs.Tables.{AreEmptyLanes, IsEmptyLane};
ghost use Rattle.up_model.specs.Plans as plans;
ghost use Rattle.up_model.specs.WellFormed.{IsWellFormed};
ghost use Rattle.up_plan.specs.Plan.{plan_of};
ghost use Rattle.up_pump.specs.Pumps.{pump_at};

use crate::finishing::end_lanes;
use std::alloc::Global;
use up_base::NoMemory;
use up_model::{Graph, PlaceList};
use up_plan::Plan;
use up_pump::Loop;
use up_queue::LocalLane;

pub(crate) fn heads_of(alloc: Global, plan: &Plan) -> Result<Vec<u16>, NoMemory>
    ensures { IfOk result (λ heads. heads.items ≡ map (λ strand. strand.head) plan.now.strands) }
{
    let mut heads = Vec::new(alloc);
    for i in 0..plan.strands.len() {
        heads.push(plan.strands.at(i).head)?;
    }
    Ok(heads)
}

/// By places: the strand whose head stands there, else 0.
pub(crate) fn numbers_of(alloc: Global, count: usize, heads: &[u16]) -> Result<Vec<usize>, NoMemory>
    requires within { (i : ℕ) → i < length heads.now → slice_index_or heads.now i 0 < count }
    requires apart { AreApart heads.now }
    ensures count { IfOk result (λ numbers. length numbers.items ≡ count) }
    ensures numbers { IfOk result (λ numbers. (i : ℕ) → i < length heads.now
        → slice_index_or numbers.items (slice_index_or heads.now i 0) 0 ≡ i) }
{
    let mut numbers = vec![in alloc; 0usize; count]?;
    for i in 0..heads.len() {
        numbers[usize::from(heads[i])] = i;
    }
    Ok(numbers)
}

/// By strands: the strand that fills the lane of its head, else 0.
pub(crate) fn fillers_of(
    alloc: Global,
    graph: &Graph,
    plan: &Plan,
    heads: &[u16],
) -> Result<Vec<usize>, NoMemory>
    requires plan { plan.now ≡ plan_of graph.now.pipes }
    requires places { (i : ℕ) → i < length heads.now
        → slice_index_or heads.now i 0 < length graph.now.pipes }
    ensures count { IfOk result (λ fillers. length fillers.items ≡ length heads.now) }
    ensures fillers { IfOk result (λ fillers. (i filler : ℕ) → i < length heads.now
        → filler_of graph.now.pipes (slice_index_or heads.now i 0) ≡ Some filler
        → slice_get (plans.heads graph.now.pipes) (slice_index_or fillers.items i 0)
        ≡ Some filler) }
{
    let mut fillers = Vec::new(alloc);
    for i in 0..heads.len() {
        fillers.push(filler_of(graph, plan, heads[i]))?;
    }
    Ok(fillers)
}

/// The strand that fills the lane of a head, else 0.
fn filler_of(graph: &Graph, plan: &Plan, head: u16) -> usize
    requires plan { plan.now ≡ plan_of graph.now.pipes }
    requires place { head < length graph.now.pipes }
    ensures { (filler : ℕ) → filler_of graph.now.pipes head ≡ Some filler
        → slice_get (plans.heads graph.now.pipes) result ≡ Some filler }
{
    let Some(input) = graph.pipes.at(usize::from(head)).input else {
        return 0;
    };
    for i in 0..plan.strands.len() {
        if has_place(&plan.strands.at(i).pipes, input) {
            return i;
        }
    }
    0
}

fn has_place(places: &PlaceList, place: u16) -> bool
    ensures { IsTrue result ↔ Contains places.now place }
{
    for i in 0..places.len() {
        if *places.at(i) == place {
            return true;
        }
    }
    false
}

/// So many pumps, which are all ready.
pub(crate) fn ready_pumps(alloc: Global, count: usize) -> Result<Loop, NoMemory>
    ensures count { IfOk result (λ pumps. length pumps.pumps ≡ count) }
    ensures ready { IfOk result (λ pumps. (i : ℕ) → i < count
        → pump_at pumps i ≡ record { ready = true; blockers = 0 }) }
{
    let mut pumps = Loop::new(alloc, count)?;
    for i in 0..count {
        pumps.ready(i);
    }
    Ok(pumps)
}

/// By strands: an empty lane for the head, where that is no source.
pub(crate) fn lanes_of<P>(
    alloc: Global,
    graph: &Graph,
    heads: &[u16],
) -> Result<Vec<Option<LocalLane<P>>>, NoMemory>
    requires well_formed { IsWellFormed graph.now.pipes }
    requires places { (i : ℕ) → i < length heads.now
        → slice_index_or heads.now i 0 < length graph.now.pipes }
    ensures { IfOk result (λ lanes. AreEmptyLanes graph.now.pipes heads.now (length heads.now)
        lanes.items) }
{
    let mut lanes = Vec::with_capacity(alloc, heads.len())?;
    for i in 0..heads.len() {
        match lane_of(alloc, graph, heads[i]) {
            Ok(lane) => lanes.push_reserved(lane),
            Err(NoMemory) => {
                end_lanes(lanes);
                return Err(NoMemory);
            }
        }
    }
    Ok(lanes)
}

/// An empty lane for a head that is no source.
fn lane_of<P>(alloc: Global, graph: &Graph, head: u16) -> Result<Option<LocalLane<P>>, NoMemory>
    requires well_formed { IsWellFormed graph.now.pipes }
    requires place { head < length graph.now.pipes }
    ensures { IfOk result (IsEmptyLane graph.now.pipes head) }
{
    let pipe = graph.pipes.at(usize::from(head));
    if pipe.kind.is_source() {
        return Ok(None);
    }
    Ok(Some(LocalLane::new(alloc, pipe.queue)?))
}
