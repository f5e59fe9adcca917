// Graphs of one or two made trees, spread over up to four workers. Of four trees two have a source of frames, and so has
// one of each two that make a graph; of two sinks one is of frames.
use crate::made_frames::{MadeFrames, made_frames};
use crate::made_trees::{Dice, made_bytes, made_rows};
use crate::row::{Does, Row};
use std::alloc::Global;
use std::test::Fail;
use up_base::Bytes;

const WORKERS: [&str; 4] = ["w1", "w2", "w3", "w4"];

/// A tree of a grove: its number, the bytes that its source may read, where frames end in them if it is one of frames, and
/// the limit of its source.
#[derive(Drop)]
pub(crate) struct Tree {
    number: u32,
    pub bytes: Bytes,
    pub ends: Option<Vec<usize>>,
    pub limit: u64,
}

/// The tree of a number.
fn tree_of(alloc: Global, number: u32, limit: u64) -> Result<Tree, Fail> {
    let dice = &mut Dice::new(number);
    if number / 2 % 2 == 0 {
        return Ok(Tree {
            number,
            bytes: made_bytes(alloc, dice)?,
            ends: None,
            limit,
        });
    }
    let MadeFrames { bytes, ends } = made_frames(alloc, dice)?;
    Ok(Tree {
        number,
        bytes,
        ends: Some(ends),
        limit,
    })
}

/// The trees of a number, whose sources have this limit.
pub(crate) fn trees_of(alloc: Global, seed: u32, limit: u64) -> Result<Vec<Tree>, Fail> {
    let mut trees = Vec::new(alloc);
    for k in 0..1 + seed / 4 % 2 {
        let number = seed.wrapping_add(k.wrapping_mul(1_002));
        trees.push(tree_of(alloc, number, limit)?)?;
    }
    Ok(trees)
}

/// What a pipe of a tree does, where it may be of frames.
fn does_with_frames(dice: &mut Dice, does: Does, framed: bool) -> Does {
    match does {
        Does::Source { limit, .. } if framed => Does::Frames { limit },
        Does::Sink if dice.roll(2) == 0 => Does::FrameSink,
        other => other,
    }
}

/// Adds a tree, whose pipes have lanes of one item, on any of so many workers.
fn add_tree(
    alloc: Global,
    dice: &mut Dice,
    workers: u32,
    tree: &Tree,
    rows: &mut Vec<Row>,
) -> Result<(), Fail> {
    let first = rows.len().min(1_000) as u16;
    for row in made_rows(alloc, tree.number, tree.limit)?.iter() {
        rows.push(Row {
            does: does_with_frames(dice, row.does, tree.ends.is_some()),
            worker: WORKERS[dice.roll(workers.max(1).min(4)) as usize],
            input: row.input.map(|input| first.saturating_add(input)),
            queue: 1,
            ..*row
        })?;
    }
    Ok(())
}

/// The graph of these trees, one after the other. By the number it has one to four workers.
pub(crate) fn grove_rows(alloc: Global, seed: u32, trees: &[Tree]) -> Result<Vec<Row>, Fail> {
    let dice = &mut Dice::new(seed);
    let mut rows = Vec::new(alloc);
    for tree in trees {
        add_tree(alloc, dice, 1 + seed / 8 % 4, tree, &mut rows)?;
    }
    Ok(rows)
}
