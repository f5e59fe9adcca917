ghost use Rattle.std.specs.Prelude.{◌≡◌};
ghost use Rattle.up_trials.specs.Standing.{IsAtWork};

use crate::row::Row;
use crate::run::{Tried, run_source};
use crate::sent::Sent;
use crate::split::Split;
use std::alloc::Global;
use std::process::Abort;
use std::test::Fail;
use up_model::{Outcome, OutcomeList, Tally, TallyList};
use up_outside::{MemDepot, MemSink, MemSource};
use up_shape::LocalPacket;
use up_strand::{SinkList, StrandEnd, StrandParts};

/// What is left of a strand.
#[derive(Drop)]
pub(crate) struct Left {
    pub source: Option<MemSource>,
    pub sinks: SinkList<MemSink>,
    pub outcomes: OutcomeList,
    pub tallies: TallyList,
}

/// Gives the strand up.
pub(crate) fn finish<P: LocalPacket>(strand: Tried<P>, s: &mut P::Store) -> Left
    requires { IsAtWork P.plain P.fits (P.Store.state s.old).family strand }
    ensures { (P.Store.state s.new).family ≡ (P.Store.state s.old).family }
{
    let StrandEnd {
        parts: StrandParts { source, sinks },
        outcomes,
        tallies,
    } = strand.finish(s);
    Left {
        source,
        sinks,
        outcomes,
        tallies,
    }
}

/// Runs the strand of the first pipe, a source, to its end.
pub(crate) fn run_rows<P: LocalPacket>(
    rt: &impl Abort,
    alloc: Global,
    rows: &[Row],
    depot: &mut MemDepot,
    sent: &mut Vec<Sent>,
    s: &mut P::Store,
) -> Result<Left, Fail> {
    let split = Split::of(rt, alloc, rows)?;
    let mut strand: Tried<P> = split.strand(rt, alloc, 0, depot);
    run_source(rt, alloc, &mut strand, sent, s);
    Ok(finish(strand, s))
}

impl Left {
    /// Its sinks hold these bytes, and its pipes ended so.
    pub fn assert_ends(&self, rt: &impl Abort, sinks: &[&[u8]], outcomes: &[Outcome]) {
        assert_eq!(rt; self.sinks.len(), sinks.len());
        for (k, bytes) in sinks.iter().enumerate() {
            assert!(rt; k < self.sinks.len());
            assert_eq!(rt; self.sinks.at(k).bytes(), *bytes);
        }
        assert_outcomes(rt, &self.outcomes, outcomes);
    }

    /// Its pipes counted this.
    pub fn assert_sums(&self, rt: &impl Abort, tallies: &[Tally]) {
        assert_tallies(rt, &self.tallies, tallies);
    }
}

/// Pipes ended so.
pub(crate) fn assert_outcomes(rt: &impl Abort, outcomes: &OutcomeList, wanted: &[Outcome]) {
    assert_eq!(rt; outcomes.len(), wanted.len());
    for (k, outcome) in wanted.iter().enumerate() {
        assert!(rt; k < outcomes.len());
        assert_eq!(rt; *outcomes.at(k), *outcome, "{k}");
    }
}

/// Pipes counted this.
pub(crate) fn assert_tallies(rt: &impl Abort, tallies: &TallyList, wanted: &[Tally]) {
    assert_eq!(rt; tallies.len(), wanted.len());
    for (k, tally) in wanted.iter().enumerate() {
        assert!(rt; k < tallies.len());
        assert_eq!(rt; *tallies.at(k), *tally, "{k}");
    }
}

/// So many packets were taken and put, and so many packets dropped with all bytes that were cut.
pub(crate) fn sums(taken: u64, put: u64, dropped: u64, cut: u64) -> Tally {
    Tally {
        taken,
        put,
        dropped,
        cut,
        ..Tally::default()
    }
}
