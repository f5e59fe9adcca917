// What a run of a made graph is to leave, by the slow meaning and by the call that fails.
ghost use Rattle.up_model.specs.WellFormed.{IsWellFormed};

use crate::before_faults::{read_before, written_before};
use crate::frame_trials::Frames;
use crate::graph_runs::{Ran, run_graph};
use crate::made_groves::Tree;
use crate::slow_strands::{Carried, wanted_at};
use crate::split::Split;
use std::alloc::Global;
use std::process::Abort;
use std::test::Fail;
use up_base::Bytes;
use up_model::{Outcome, Tally};
use up_outside::{DepotCall, Mark, MemDepot, Side};

/// A call that fails: the nth such call of the pipe at a place.
#[derive(Clone, Copy, Debug)]
pub(crate) struct Fault {
    pub call: DepotCall,
    pub place: usize,
    pub nth: u32,
}

/// How a graph is run: with the most bytes that a read gives and a write takes, and a call that fails.
#[derive(Clone, Copy, Debug)]
pub(crate) struct Manner {
    pub cut: usize,
    pub fault: Option<Fault>,
}

impl Manner {
    /// Which of these calls of the pipe at the place fails.
    fn nth(&self, call: DepotCall, place: usize) -> Option<u32> {
        match self.fault {
            Some(fault) if fault.call == call && fault.place == place => Some(fault.nth),
            _ => None,
        }
    }
}

/// The places of the sources, or of the sinks, in the order of the file.
pub(crate) fn places_on(alloc: Global, split: &Split, side: Side) -> Result<Vec<usize>, Fail> {
    let mut places = Vec::new(alloc);
    for place in 0..split.graph.pipes.len() {
        let is_there = match side {
            Side::Source => split.is_source(place),
            Side::Sink => split.is_sink(place),
        };
        if is_there {
            places.push(place)?;
        }
    }
    Ok(places)
}

/// What a source carries, and how many bytes its reads give.
#[derive(Clone, Copy)]
struct Given<'a> {
    carried: Carried<'a>,
    moved: u64,
}

/// How many bytes of its tree a source reads before a read that fails, if the end doesn't come before.
fn read_of(
    rt: &impl Abort,
    split: &Split,
    tree: &Tree,
    manner: Manner,
    source: usize,
) -> Option<usize> {
    let nth = manner.nth(DepotCall::Read, source)?;
    let block = match tree.ends {
        Some(_) => usize::MAX,
        None => split.block_at(rt, source),
    };
    read_before(tree.bytes.as_slice().len(), block, manner.cut, nth)
}

/// How many of the bytes of its tree a source carries, and how it ends, where a read fails behind so many.
fn ending_of(tree: &Tree, read: Option<usize>) -> (usize, Outcome) {
    let (bytes, limit) = (tree.bytes.as_slice(), tree.limit);
    if let Some(ends) = &tree.ends {
        let broken = None;
        return Frames {
            bytes,
            ends,
            broken,
        }
        .ending(limit, read);
    }
    match read {
        Some(count) => (count, Outcome::ReadFault),
        None if limit < bytes.len() as u64 => (limit as usize, Outcome::TooLong { limit }),
        None => (bytes.len(), Outcome::Whole),
    }
}

/// What the source at a place gives of its tree: of a tree that is past its limit one byte more than that is read.
fn given_of<'a>(
    rt: &impl Abort,
    split: &Split,
    tree: &'a Tree,
    manner: Manner,
    source: usize,
) -> Given<'a> {
    let bytes = tree.bytes.as_slice();
    let read = read_of(rt, split, tree, manner, source);
    let (count, ended) = ending_of(tree, read);
    let moved = match ended {
        Outcome::TooLong { limit } => limit.saturating_add(1),
        _ => read.unwrap_or(bytes.len()) as u64,
    };
    let carried = Carried {
        bytes: &bytes[..count.min(bytes.len())],
        ended,
        flags: false,
    };
    Given { carried, moved }
}

/// What a run is to leave of a pipe: of a sink what lies at its path, and of all that have a path how many bytes moved and
/// whether a call failed.
#[derive(Drop)]
struct Due {
    outcome: Outcome,
    sums: Tally,
    written: Bytes,
    moved: u64,
    failed: bool,
}

/// What is due of the pipe at a place behind a source that gives this.
fn due_of(
    rt: &impl Abort,
    alloc: Global,
    split: &Split,
    manner: Manner,
    given: &Given<'_>,
    place: usize,
) -> Result<Due, Fail>
    requires well_formed { IsWellFormed split.now.graph.pipes }
{
    let wanted = wanted_at(rt, alloc, split, &given.carried, place);
    let all = wanted.written.as_slice();
    let before = match manner.nth(DepotCall::Write, place) {
        Some(nth) => {
            let form = split.sink_form_at(rt, place);
            written_before(form, &wanted.sent, manner.cut, nth)
        }
        None => None,
    };
    let count = before.unwrap_or(all.len()).min(all.len());
    let is_source = split.is_source(place);
    Ok(Due {
        outcome: if before.is_some() {
            Outcome::WriteFault
        } else {
            wanted.outcome
        },
        sums: wanted.sums,
        written: Bytes::from_slice(alloc, &all[..count])?,
        moved: if is_source { given.moved } else { count as u64 },
        failed: before.is_some() || is_source && given.carried.ended == Outcome::ReadFault,
    })
}

/// What is due of each pipe, in the order of the file.
fn dues_of(
    rt: &impl Abort,
    alloc: Global,
    split: &Split,
    trees: &[Tree],
    manner: Manner,
) -> Result<Vec<Due>, Fail>
    requires well_formed { IsWellFormed split.now.graph.pipes }
{
    let sources = places_on(alloc, split, Side::Source)?;
    assert_eq!(rt; sources.len(), trees.len());
    let mut dues = Vec::new(alloc);
    for place in 0..split.graph.pipes.len() {
        let source = split.graph.source_of(place).expect(rt, "no source");
        let k = sources.iter().position(|other| *other == source);
        let k = k.expect(rt, "no tree");
        assert!(rt; k < trees.len());
        let given = given_of(rt, split, &trees[k], manner, source);
        dues.push(due_of(rt, alloc, split, manner, &given, place)?)?;
    }
    Ok(dues)
}

/// A depot that holds the bytes of the trees, and lets a call fail.
fn depot_of(
    rt: &impl Abort,
    alloc: Global,
    split: &Split,
    trees: &[Tree],
    manner: Manner,
) -> Result<MemDepot, Fail> {
    let mut depot = MemDepot::new(alloc);
    depot.cut(manner.cut.max(1));
    let sources = places_on(alloc, split, Side::Source)?;
    for (place, tree) in sources.iter().zip(trees) {
        depot.hold(split.path_at(rt, *place), tree.bytes.as_slice())?;
    }
    if let Some(Fault { call, place, nth }) = manner.fault {
        depot.fail(call, split.path_at(rt, place), nth.max(1))?;
    }
    Ok(depot)
}

/// What is told of the pipes, and what the sinks hold, is what is due.
fn assert_pipes(rt: &impl Abort, split: &Split, dues: &[Due], ran: &Ran, depot: &MemDepot) {
    assert_eq!(rt; ran.outcomes.len(), dues.len());
    assert_eq!(rt; ran.tallies.len(), dues.len());
    for (place, due) in dues.iter().enumerate() {
        assert!(rt; place < ran.outcomes.len() && place < ran.tallies.len());
        assert_eq!(rt; *ran.outcomes.at(place), due.outcome, "{place}");
        assert_eq!(rt; *ran.tallies.at(place), due.sums, "{place}");
        if split.is_sink(place) {
            let held = depot.bytes(split.path_at(rt, place));
            assert_eq!(rt; held, Some(due.written.as_slice()), "{place}");
        }
    }
}

/// From the entry with this number on, the depot was asked for the paths of these places.
fn assert_entries(
    rt: &impl Abort,
    split: &Split,
    dues: &[Due],
    depot: &MemDepot,
    first: usize,
    side: Side,
    places: &[usize],
) {
    let asked = depot.asked();
    for (k, place) in places.iter().enumerate() {
        let number = first.saturating_add(k);
        assert!(rt; number < asked.len() && *place < dues.len());
        let due = &dues[*place];
        let mark = Mark::Closed {
            moved: due.moved,
            failed: due.failed,
            shut: true,
        };
        assert_eq!(rt; asked[number].path.as_str(), split.path_at(rt, *place));
        assert_eq!(rt; (asked[number].side, asked[number].mark), (side, mark));
    }
}

/// Runs the graph of these trees, and compares all that is left of it: whether a call failed.
pub(crate) fn run_grove(
    rt: &impl Abort,
    alloc: Global,
    split: &Split,
    trees: &[Tree],
    manner: Manner,
) -> Result<bool, Fail>
    requires well_formed { IsWellFormed split.now.graph.pipes }
{
    let dues = dues_of(rt, alloc, split, trees, manner)?;
    let mut depot = depot_of(rt, alloc, split, trees, manner)?;
    let ran = run_graph(rt, alloc, split, &mut depot);
    assert_pipes(rt, split, &dues, &ran, &depot);
    let sources = places_on(alloc, split, Side::Source)?;
    let sinks = places_on(alloc, split, Side::Sink)?;
    let (depot, count) = (&depot, sources.len());
    assert_entries(rt, split, &dues, depot, 0, Side::Source, &sources);
    assert_entries(rt, split, &dues, depot, count, Side::Sink, &sinks);
    assert_eq!(rt; depot.asked().len(), count.saturating_add(sinks.len()));
    let failed = dues.iter().filter(|due| due.failed).count() as u64;
    let counted = depot.source_faults().saturating_add(depot.sink_faults());
    assert_eq!(rt; counted, failed);
    Ok(failed > 0)
}
