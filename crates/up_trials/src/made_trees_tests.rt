// Made graphs, cut and ended at each point: all strands come to the slow meaning.
ghost use Rattle.std.specs.Prelude.{◌<◌, IfOk};
ghost use Rattle.up_model.specs.WellFormed.{IsWellFormed};

use crate::before_faults::read_before;
use crate::lane_flags::flagged;
use crate::left::finish;
use crate::made_trees::{Dice, made_bytes, made_rows};
use crate::run::{MANY, Tried, run_out};
use crate::sent::Sent;
use crate::slow_strands::{Carried, WantedList, assert_lane, assert_left, wanted_of};
use crate::split::Split;
use std::alloc::Global;
use std::process::Abort;
use std::test::Fail;
use up_model::{MAX_LIMIT, Outcome, PlainPacket};
use up_outside::{DepotCall, MemDepot};
use up_queue::{EndKind, Item};
use up_shape::{VecPacket, VecStore};
use up_strand::Want;

/// How many graphs are made.
const GRAPHS: u32 = 200;

/// The most bytes that a read gives.
const CUTS: [usize; 4] = [1, 3, 7, 1_000];

/// The same, where reads are short and where they are long.
const SHORT_CUTS: [usize; 2] = [1, 3];

const LONG_CUTS: [usize; 2] = [7, 1_000];

/// More reads than any made graph takes.
const READS: u32 = 100;

/// What comes through a lane, of which some packets have flags.
fn items_of(rt: &impl Abort, alloc: Global, sent: &[Sent], lane: u16) -> Vec<Item<PlainPacket>> {
    let mut items = Vec::new(alloc);
    for one in sent {
        if one.lane == lane {
            let item = match &one.item {
                Item::Packet(packet) => { Item::Packet(flagged(rt, alloc, packet, items.len())) }
                Item::End(kind) => Item::End(*kind),
            };
            assert!(rt; items.push(item).is_ok());
        }
    }
    items
}

/// The head of the lane whose end is the item at this place of what went out.
fn ended_at(sent: &[Sent], k: usize) -> Option<u16> {
    match sent.get(k) {
        Some(
            Sent {
                lane,
                item: Item::End(_),
            },
        ) => Some(*lane),
        _ => None,
    }
}

/// Runs the strand of a head to its end, and compares what is left of it.
fn run_strand(
    rt: &impl Abort,
    alloc: Global,
    split: &Split,
    wanted: &WantedList,
    head: u16,
    depot: &mut MemDepot,
    sent: &mut Vec<Sent>,
)
    requires well_formed { IsWellFormed split.now.graph.pipes }
{
    let s = &mut VecStore::new(alloc);
    let items = items_of(rt, alloc, sent, head);
    let mut strand: Tried<VecPacket> = split.strand(rt, alloc, head, depot);
    let source = split.is_source(usize::from(head));
    run_out(rt, alloc, &mut strand, source, &items, sent, s);
    assert_eq!(rt; strand.wants(), Want::Done);
    let left = finish(strand, s);
    assert_left(rt, split, wanted, split.own_pipes(rt, head), &left);
}

/// Runs all strands, each behind the one that fills its lane, and compares what is left of them: what went out.
fn run_strands(
    rt: &impl Abort,
    alloc: Global,
    split: &Split,
    wanted: &WantedList,
    depot: &mut MemDepot,
) -> Vec<Sent>
    requires well_formed { IsWellFormed split.now.graph.pipes }
{
    let mut sent = Vec::new(alloc);
    let mut count: usize = 1;
    run_strand(
        rt,
        alloc,
        split,
        wanted,
        split.first_head(rt),
        depot,
        &mut sent,
    );
    for k in 0..MANY {
        if let Some(head) = ended_at(&sent, k) {
            run_strand(rt, alloc, split, wanted, head, depot, &mut sent);
            count = count.saturating_add(1);
        }
        if sent.len() <= k {
            break;
        }
    }
    assert_eq!(rt; split.plan.strands.len(), count);
    sent
}

/// Compares what went out for each lane, of which each ended so.
fn assert_lanes(rt: &impl Abort, split: &Split, wanted: &WantedList, end: EndKind, sent: &[Sent]) {
    for i in 0..split.plan.strands.len() {
        let head = split.plan.strands.at(i).head;
        if !split.is_source(usize::from(head)) {
            assert_lane(rt, wanted, end, head, sent);
        }
    }
}

/// The split of the graph of a number, whose source has this limit.
fn made(rt: &impl Abort, alloc: Global, seed: u32, limit: u64) -> Result<Split, Fail>
    ensures { IfOk result (λ split. IsWellFormed split.graph.pipes) }
{
    let rows = made_rows(alloc, seed, limit)?;
    Split::of(rt, alloc, &rows)
}

/// A depot that holds these bytes for the first source. Each read gives at most so many, and one may fail.
fn depot_of(
    rt: &impl Abort,
    alloc: Global,
    split: &Split,
    cut: usize,
    fails: Option<u32>,
    bytes: &[u8],
) -> Result<MemDepot, Fail> {
    let mut depot = MemDepot::new(alloc);
    depot.cut(cut.max(1));
    let path = format!(in alloc; "pipe{}", split.first_head(rt))?;
    depot.hold(&path, bytes)?;
    if let Some(nth) = fails {
        depot.fail(DepotCall::Read, &path, nth.max(1))?;
    }
    Ok(depot)
}

/// Runs a graph over a depot, of which it is to come to this.
fn run_made(
    rt: &impl Abort,
    alloc: Global,
    split: &Split,
    wanted: &WantedList,
    end: EndKind,
    depot: &mut MemDepot,
)
    requires well_formed { IsWellFormed split.now.graph.pipes }
{
    let sent = run_strands(rt, alloc, split, wanted, depot);
    assert_lanes(rt, split, wanted, end, &sent);
}

/// Runs a graph over an input of these bytes alone, at each cut.
fn run_end(rt: &impl Abort, alloc: Global, split: &Split, bytes: &[u8]) -> Result<(), Fail>
    requires well_formed { IsWellFormed split.now.graph.pipes }
{
    let carried = Carried {
        bytes,
        ended: Outcome::Whole,
        flags: true,
    };
    let wanted = wanted_of(rt, alloc, split, &carried);
    for cut in CUTS {
        let mut depot = depot_of(rt, alloc, split, cut, None, bytes)?;
        run_made(rt, alloc, split, &wanted, EndKind::Whole, &mut depot);
    }
    Ok(())
}

/// Runs the graph of a number over each first part of its input, and over all of it.
fn run_ends(rt: &impl Abort, alloc: Global, seed: u32) -> Result<(), Fail> {
    let split = made(rt, alloc, seed, MAX_LIMIT)?;
    let bytes = made_bytes(alloc, &mut Dice::new(seed))?;
    let bytes = bytes.as_slice();
    for count in 0..=bytes.len() {
        run_end(rt, alloc, &split, &bytes[..count])?;
    }
    Ok(())
}

#[test]
fn made_graphs_come_to_the_slow_meaning_however_reads_are_cut(rt: HostRuntime) -> Result<(), Fail> {
    for half in 0..GRAPHS / 2 {
        run_ends(&rt, rt.alloc(), half * 2)?;
    }
    Ok(())
}

/// The pipes of a graph of an odd number are turned.
#[test]
fn turned_graphs_come_to_the_slow_meaning_however_reads_are_cut(
    rt: HostRuntime,
) -> Result<(), Fail> {
    for half in 0..GRAPHS / 2 {
        run_ends(&rt, rt.alloc(), half * 2 + 1)?;
    }
    Ok(())
}

/// Runs a graph where a read fails. Says whether it comes to that read.
fn run_fault(
    rt: &impl Abort,
    alloc: Global,
    split: &Split,
    cut: usize,
    nth: u32,
    bytes: &[u8],
) -> Result<bool, Fail>
    requires well_formed { IsWellFormed split.now.graph.pipes }
{
    let block = split.block_at(rt, usize::from(split.first_head(rt)));
    let read = read_before(bytes.len(), block, cut, nth);
    let ended = if read.is_some() {
        Outcome::ReadFault
    } else {
        Outcome::Whole
    };
    let count = read.unwrap_or(bytes.len()).min(bytes.len());
    let carried = Carried {
        bytes: &bytes[..count],
        ended,
        flags: true,
    };
    let wanted = wanted_of(rt, alloc, split, &carried);
    let mut depot = depot_of(rt, alloc, split, cut, Some(nth), bytes)?;
    run_made(rt, alloc, split, &wanted, carried.end(), &mut depot);
    Ok(read.is_some())
}

/// Runs a graph so often that each of its reads fails once: how many there are.
fn run_faults(
    rt: &impl Abort,
    alloc: Global,
    split: &Split,
    cut: usize,
    bytes: &[u8],
) -> Result<u32, Fail>
    requires well_formed { IsWellFormed split.now.graph.pipes }
{
    for nth in 1..READS {
        if !run_fault(rt, alloc, split, cut, nth, bytes)? {
            return Ok(nth - 1);
        }
    }
    panic!(rt; "there is no end of the reads")
}

/// Lets each read of all graphs fail, which give at most so many bytes: how many there are.
fn run_all_faults(rt: &impl Abort, alloc: Global, cut: usize) -> Result<u32, Fail> {
    let mut count: u32 = 0;
    for seed in 0..GRAPHS {
        let split = made(rt, alloc, seed, MAX_LIMIT)?;
        let bytes = made_bytes(alloc, &mut Dice::new(seed))?;
        let more = run_faults(rt, alloc, &split, cut, bytes.as_slice())?;
        count = count.saturating_add(more);
    }
    Ok(count)
}

#[test]
fn made_graphs_come_to_what_is_settled_where_a_read_fails(rt: HostRuntime) -> Result<(), Fail> {
    for cut in LONG_CUTS {
        let count = run_all_faults(&rt, rt.alloc(), cut)?;
        assert!(rt; count > 1_000, "only {count} reads");
    }
    Ok(())
}

#[test]
fn made_graphs_come_to_what_is_settled_where_a_read_of_a_byte_fails(
    rt: HostRuntime,
) -> Result<(), Fail> {
    let count = run_all_faults(&rt, rt.alloc(), 1)?;
    assert!(rt; count > 5_000, "only {count} reads");
    Ok(())
}

#[test]
fn made_graphs_come_to_what_is_settled_where_a_read_of_three_bytes_fails(
    rt: HostRuntime,
) -> Result<(), Fail> {
    let count = run_all_faults(&rt, rt.alloc(), 3)?;
    assert!(rt; count > 2_000, "only {count} reads");
    Ok(())
}

/// Runs the graph of a number whose source has this limit, with each of these cuts.
fn run_limit(
    rt: &impl Abort,
    alloc: Global,
    seed: u32,
    limit: u64,
    cuts: &[usize],
    bytes: &[u8],
) -> Result<(), Fail> {
    let ended = if limit < bytes.len() as u64 {
        Outcome::TooLong { limit }
    } else {
        Outcome::Whole
    };
    let carried = Carried {
        bytes: &bytes[..bytes.len().min(limit as usize)],
        ended,
        flags: true,
    };
    let split = made(rt, alloc, seed, limit)?;
    let wanted = wanted_of(rt, alloc, &split, &carried);
    for cut in cuts {
        let mut depot = depot_of(rt, alloc, &split, *cut, None, bytes)?;
        run_made(rt, alloc, &split, &wanted, carried.end(), &mut depot);
    }
    Ok(())
}

/// Runs the graph of a number with each limit up to the length of its input, with each of these cuts.
fn run_limits(rt: &impl Abort, alloc: Global, seed: u32, cuts: &[usize]) -> Result<(), Fail> {
    let bytes = made_bytes(alloc, &mut Dice::new(seed))?;
    let bytes = bytes.as_slice();
    for limit in 0..=bytes.len() as u64 {
        run_limit(rt, alloc, seed, limit, cuts, bytes)?;
    }
    Ok(())
}

/// Runs the graphs whose numbers leave this rest by two, with each limit and each of these cuts.
fn run_all_limits(rt: &impl Abort, alloc: Global, rest: u32, cuts: &[usize]) -> Result<(), Fail>
    requires { rest < 2 }
{
    for half in 0..GRAPHS / 2 {
        run_limits(rt, alloc, half * 2 + rest, cuts)?;
    }
    Ok(())
}

#[test]
fn made_graphs_come_to_what_is_settled_at_every_limit(rt: HostRuntime) -> Result<(), Fail> {
    run_all_limits(&rt, rt.alloc(), 0, &LONG_CUTS)
}

/// The pipes of a graph of an odd number are turned.
#[test]
fn turned_graphs_come_to_what_is_settled_at_every_limit(rt: HostRuntime) -> Result<(), Fail> {
    run_all_limits(&rt, rt.alloc(), 1, &LONG_CUTS)
}

#[test]
fn made_graphs_come_to_what_is_settled_at_every_limit_by_small_reads(
    rt: HostRuntime,
) -> Result<(), Fail> {
    run_all_limits(&rt, rt.alloc(), 0, &SHORT_CUTS)
}

#[test]
fn turned_graphs_come_to_what_is_settled_at_every_limit_by_small_reads(
    rt: HostRuntime,
) -> Result<(), Fail> {
    run_all_limits(&rt, rt.alloc(), 1, &SHORT_CUTS)
}
