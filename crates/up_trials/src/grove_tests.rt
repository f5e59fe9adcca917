// Made graphs, run on one thread: all that a run leaves is what the slow meaning says of what its sources gave.
ghost use Rattle.std.specs.Prelude.{IfOk};
ghost use Rattle.up_model.specs.WellFormed.{IsWellFormed};

use crate::grove_runs::{Fault, Manner, places_on, run_grove};
use crate::made_groves::{Tree, grove_rows, trees_of};
use crate::made_trees::Dice;
use crate::split::Split;
use std::alloc::Global;
use std::process::Abort;
use std::test::Fail;
use up_model::MAX_LIMIT;
use up_outside::{DepotCall, Side};

/// How many graphs are made.
const GRAPHS: u32 = 100;

/// The most bytes that a read gives and a write takes.
const CUTS: [usize; 4] = [1, 3, 7, 1_000];

/// The same, and the most reads up to one that fails.
const READS: [(usize, u32); 4] = [(1, 70), (3, 24), (7, 12), (1_000, 6)];

/// The same, and the most writes up to one that fails.
const WRITES: [(usize, u32); 4] = [(1, 30), (3, 12), (7, 6), (1_000, 4)];

/// The same, and a number above the limit.
const LIMITS: [(usize, u32); 3] = [(1, 62), (7, 8), (1_000, 30)];

/// The graph of these trees.
fn grove(rt: &impl Abort, alloc: Global, seed: u32, trees: &[Tree]) -> Result<Split, Fail>
    ensures { IfOk result (λ split. IsWellFormed split.graph.pipes) }
{
    let rows = grove_rows(alloc, seed, trees)?;
    Split::of(rt, alloc, &rows)
}

#[test]
fn made_graphs_leave_the_slow_meaning_however_calls_are_cut(rt: HostRuntime) -> Result<(), Fail> {
    let alloc = rt.alloc();
    for seed in 0..GRAPHS {
        let trees = trees_of(alloc, seed, MAX_LIMIT)?;
        let split = grove(&rt, alloc, seed, &trees)?;
        for cut in CUTS {
            let manner = Manner { cut, fault: None };
            let failed = run_grove(&rt, alloc, &split, &trees, manner)?;
            assert!(rt; !failed);
        }
    }
    Ok(())
}

/// One of the first such calls of one of the pipes on that side, if there is one.
fn made_fault(
    alloc: Global,
    split: &Split,
    dice: &mut Dice,
    call: DepotCall,
    most: u32,
) -> Result<Option<Fault>, Fail> {
    let side = match call {
        DepotCall::Read => Side::Source,
        _ => Side::Sink,
    };
    let places = places_on(alloc, split, side)?;
    let k = dice.roll(places.len().max(1).min(1_000) as u32) as usize;
    let nth = 1 + dice.roll(most.max(1));
    Ok(
        places.get(k).map(|place| Fault {
            call,
            place: *place,
            nth,
        }),
    )
}

/// Runs the graph of a number, in which one of the first such calls fails: how often one did.
fn run_faults(
    rt: &impl Abort,
    alloc: Global,
    seed: u32,
    call: DepotCall,
    faults: &[(usize, u32)],
) -> Result<usize, Fail> {
    let dice = &mut Dice::new(seed);
    let trees = trees_of(alloc, seed, MAX_LIMIT)?;
    let split = grove(rt, alloc, seed, &trees)?;
    let mut count: usize = 0;
    for (cut, most) in faults {
        let fault = made_fault(alloc, &split, dice, call, *most)?;
        let manner = Manner { cut: *cut, fault };
        let failed = run_grove(rt, alloc, &split, &trees, manner)?;
        count = count.saturating_add(usize::from(failed));
    }
    Ok(count)
}

#[test]
fn made_graphs_leave_what_is_settled_where_a_read_fails(rt: HostRuntime) -> Result<(), Fail> {
    let mut count: usize = 0;
    for seed in 0..GRAPHS {
        let more = run_faults(&rt, rt.alloc(), seed, DepotCall::Read, &READS)?;
        count = count.saturating_add(more);
    }
    assert!(rt; count > 100, "only {count} faults");
    Ok(())
}

#[test]
fn made_graphs_leave_the_first_of_what_is_due_where_a_write_fails(
    rt: HostRuntime,
) -> Result<(), Fail> {
    let mut count: usize = 0;
    for seed in 0..GRAPHS {
        let more = run_faults(&rt, rt.alloc(), seed, DepotCall::Write, &WRITES)?;
        count = count.saturating_add(more);
    }
    assert!(rt; count > 100, "only {count} faults");
    Ok(())
}

/// Gives each tree a limit: one below this, or the number of its bytes or one less.
fn limit_trees(dice: &mut Dice, most: u32, trees: &mut [Tree]) {
    for tree in trees.iter_mut() {
        let count = tree.bytes.as_slice().len() as u64;
        tree.limit = match dice.roll(4) {
            0 => count,
            1 => count.saturating_sub(1),
            _ => u64::from(dice.roll(most.max(1))),
        };
    }
}

/// How many of the trees have more bytes than their limit.
fn too_long(trees: &[Tree]) -> usize {
    let is_beyond = |tree: &&Tree| tree.limit < tree.bytes.as_slice().len() as u64;
    trees.iter().filter(is_beyond).count()
}

/// Runs the graph of a number with limits: how many of its sources have more bytes.
fn run_limits(rt: &impl Abort, alloc: Global, seed: u32) -> Result<usize, Fail> {
    let dice = &mut Dice::new(seed);
    let mut count: usize = 0;
    for (cut, most) in LIMITS {
        let mut trees = trees_of(alloc, seed, MAX_LIMIT)?;
        limit_trees(dice, most, &mut trees);
        let split = grove(rt, alloc, seed, &trees)?;
        run_grove(rt, alloc, &split, &trees, Manner { cut, fault: None })?;
        count = count.saturating_add(too_long(&trees));
    }
    Ok(count)
}

#[test]
fn made_graphs_leave_what_is_settled_at_their_limits(rt: HostRuntime) -> Result<(), Fail> {
    let mut count: usize = 0;
    for seed in 0..GRAPHS {
        let more = run_limits(&rt, rt.alloc(), seed)?;
        count = count.saturating_add(more);
    }
    assert!(rt; count > 100, "only {count} sources too long");
    Ok(())
}
