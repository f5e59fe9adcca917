// Graphs that are run on this thread over memory, and what is left of a run.
ghost use Rattle.up_model.specs.WellFormed.{IsWellFormed};

use crate::left::{assert_outcomes, assert_tallies};
use crate::row::Row;
use crate::split::Split;
use std::alloc::Global;
use std::process::Abort;
use std::test::Fail;
use up_engine::{RunOutcome, run_one_thread};
use up_model::{Outcome, OutcomeList, Tally, TallyList};
use up_outside::{Mark, MemDepot, Side};
use up_shape::{VecPacket, VecStore};

/// What is told of a run that ended.
#[derive(Drop)]
pub(crate) struct Ran {
    pub outcomes: OutcomeList,
    pub tallies: TallyList,
}

/// Runs a graph over a depot, for which there is memory.
pub(crate) fn run_graph(rt: &impl Abort, alloc: Global, split: &Split, depot: &mut MemDepot) -> Ran
    requires well_formed { IsWellFormed split.now.graph.pipes }
{
    let s = &mut VecStore::new(alloc);
    match run_one_thread::<VecPacket, MemDepot>(alloc, &split.graph, depot, s) {
        RunOutcome::Ended { outcomes, tallies } => Ran { outcomes, tallies },
        RunOutcome::NoMemory => panic!(rt; "no memory"),
    }
}

/// Runs the graph of these pipes.
pub(crate) fn run_pipes(
    rt: &impl Abort,
    alloc: Global,
    rows: &[Row],
    depot: &mut MemDepot,
) -> Result<Ran, Fail> {
    let split = Split::of(rt, alloc, rows)?;
    Ok(run_graph(rt, alloc, &split, depot))
}

impl Ran {
    /// The pipes ended so.
    pub fn assert_ends(&self, rt: &impl Abort, outcomes: &[Outcome]) {
        assert_outcomes(rt, &self.outcomes, outcomes);
    }

    /// The pipes counted this.
    pub fn assert_sums(&self, rt: &impl Abort, tallies: &[Tally]) {
        assert_tallies(rt, &self.tallies, tallies);
    }
}

/// The mark of an object that moved so many bytes and was closed, and of which no call failed.
pub(crate) fn closed(moved: u64) -> Mark {
    Mark::Closed {
        moved,
        failed: false,
        shut: true,
    }
}

/// The mark of an object that moved so many bytes and was closed, and of which a call failed.
pub(crate) fn closed_after_fault(moved: u64) -> Mark {
    Mark::Closed {
        moved,
        failed: true,
        shut: true,
    }
}

/// The mark of a sink that took so many bytes and whose close was refused.
pub(crate) fn not_shut(moved: u64) -> Mark {
    Mark::Closed {
        moved,
        failed: true,
        shut: false,
    }
}

/// These opens were asked of the depot, in this order, and came to this.
pub(crate) fn assert_asked(rt: &impl Abort, depot: &MemDepot, wanted: &[(&str, Side, Mark)]) {
    let asked = depot.asked();
    assert_eq!(rt; asked.len(), wanted.len());
    for (k, (path, side, mark)) in wanted.iter().enumerate() {
        assert!(rt; k < asked.len());
        assert_eq!(rt; asked[k].path.as_str(), *path, "{k}");
        assert_eq!(rt; asked[k].side, *side, "{k}");
        assert_eq!(rt; asked[k].mark, *mark, "{k}");
    }
}

/// These bytes lie at these paths.
pub(crate) fn assert_held(rt: &impl Abort, depot: &MemDepot, wanted: &[(&str, &[u8])]) {
    for (path, bytes) in wanted {
        assert_eq!(rt; depot.bytes(path), Some(*bytes), "{path}");
    }
}
