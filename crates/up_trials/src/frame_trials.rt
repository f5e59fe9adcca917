// Runs of graphs behind a source of frames, and what they are to leave by where its frames end.
ghost use Rattle.up_model.specs.WellFormed.{IsWellFormed};

use crate::before_faults::read_before;
use crate::graph_runs::{Ran, run_graph};
use crate::same::assert_same_at;
use crate::slow_strands::{Carried, output_at, wanted_at};
use crate::split::Split;
use std::alloc::Global;
use std::process::Abort;
use std::test::Fail;
use up_model::{Outcome, Tally};
use up_outside::{DepotCall, MemDepot};

/// The most bytes that a read gives and a write takes.
pub(crate) const CUTS: [usize; 3] = [1, 3, 1_000];

/// A frame that is broken.
#[derive(Clone, Copy, Debug)]
pub(crate) struct Broken {
    /// Where it begins.
    pub offset: usize,
    /// How many bytes of the whole there are at the end of its broken field.
    pub shown: usize,
}

/// Bytes, of which it is known where whole frames end, in order, and which frame is broken.
#[derive(Clone, Copy, Debug)]
pub(crate) struct Frames<'a> {
    pub bytes: &'a [u8],
    pub ends: &'a [usize],
    pub broken: Option<Broken>,
}

/// How a graph is run: with the most bytes that a read gives and a write takes, and the number of a read that fails.
#[derive(Clone, Copy, Debug)]
pub(crate) struct Calls {
    pub cut: usize,
    pub failing: Option<u32>,
}

/// Where the last whole frame ends within so many bytes.
fn front_within(ends: &[usize], count: usize) -> usize {
    let mut front: usize = 0;
    for end in ends {
        if *end <= count {
            front = *end;
        }
    }
    front
}

impl Frames<'_> {
    /// Where the broken frame begins, if so many bytes show it.
    fn broken_within(&self, count: usize) -> Option<usize> {
        match self.broken {
            Some(Broken { offset, shown }) if shown <= count => Some(offset),
            _ => None,
        }
    }

    /// How a source that may give so many bytes is to end, where a read fails behind so many, and how many bytes there are
    /// of the frames that it carries.
    pub fn ending(&self, limit: u64, failed: Option<usize>) -> (usize, Outcome) {
        let count = failed.unwrap_or(self.bytes.len());
        let within = count.min(limit as usize);
        let front = front_within(self.ends, within);
        if let Some(offset) = self.broken_within(within) {
            let offset = offset as u64;
            return (front, Outcome::BadFrame { offset });
        }
        if limit < count as u64 {
            return (front, Outcome::TooLong { limit });
        }
        if failed.is_some() {
            return (front, Outcome::ReadFault);
        }
        if front < count {
            let offset = front as u64;
            return (front, Outcome::BadFrame { offset });
        }
        (front, Outcome::Whole)
    }
}

/// How many of the bytes there are before the read that fails, if the end doesn't come before.
fn read_before_fault(bytes: &[u8], calls: Calls) -> Option<usize> {
    match calls.failing {
        Some(nth) => read_before(bytes.len(), usize::MAX, calls.cut, nth),
        None => None,
    }
}

/// How the pipe at a place ended, and what it counted.
fn told_at(rt: &impl Abort, ran: &Ran, place: usize) -> (Outcome, Tally) {
    assert!(rt; place < ran.outcomes.len());
    assert!(rt; place < ran.tallies.len());
    (*ran.outcomes.at(place), *ran.tallies.at(place))
}

/// The sink at a place holds what the slow meaning writes there of these bytes.
fn assert_sink(
    rt: &impl Abort,
    alloc: Global,
    split: &Split,
    bytes: &[u8],
    depot: &MemDepot,
    place: usize,
)
    requires well_formed { IsWellFormed split.now.graph.pipes }
{
    let due = output_at(rt, alloc, split, bytes, place);
    let held = depot.bytes(split.path_at(rt, place));
    assert_same_at(rt, held, Some(due.as_slice()), place);
}

/// What is told of the pipe at a place, and what it holds where it is a sink, is what is due.
fn assert_pipe(
    rt: &impl Abort,
    alloc: Global,
    split: &Split,
    carried: &Carried<'_>,
    ran: &Ran,
    depot: &MemDepot,
    place: usize,
)
    requires well_formed { IsWellFormed split.now.graph.pipes }
{
    let wanted = wanted_at(rt, alloc, split, carried, place);
    let due = (wanted.outcome, wanted.sums);
    assert_same_at(rt, told_at(rt, ran, place), due, place);
    if split.is_sink(place) {
        assert_sink(rt, alloc, split, carried.bytes, depot, place);
    }
}

/// A depot that holds the bytes for the source, which is the first pipe.
fn depot_of(alloc: Global, bytes: &[u8], calls: Calls) -> Result<MemDepot, Fail> {
    let mut depot = MemDepot::new(alloc);
    depot.cut(calls.cut.max(1));
    depot.hold("pipe0", bytes)?;
    if let Some(nth) = calls.failing {
        depot.fail(DepotCall::Read, "pipe0", nth.max(1))?;
    }
    Ok(depot)
}

/// Runs a graph whose first pipe is a source of frames that may give so many bytes, and compares what is left of each pipe.
pub(crate) fn run_frames(
    rt: &impl Abort,
    alloc: Global,
    split: &Split,
    limit: u64,
    frames: &Frames<'_>,
    calls: Calls,
) -> Result<MemDepot, Fail>
    requires well_formed { IsWellFormed split.now.graph.pipes }
{
    let mut depot = depot_of(alloc, frames.bytes, calls)?;
    let ran = run_graph(rt, alloc, split, &mut depot);
    let (front, ended) = frames.ending(limit, read_before_fault(frames.bytes, calls));
    let carried = Carried {
        bytes: &frames.bytes[..front.min(frames.bytes.len())],
        ended,
        flags: false,
    };
    for place in 0..split.graph.pipes.len() {
        assert_pipe(rt, alloc, split, &carried, &ran, &depot, place);
    }
    Ok(depot)
}
