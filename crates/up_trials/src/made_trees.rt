// Graphs and bytes that are made of a number, for tests.
ghost use Rattle.std.specs.Prelude.{◌<◌};

use crate::row::{Does, Row};
use std::alloc::Global;
use std::test::Fail;
use up_base::Bytes;
use up_model::{CatchSet, DEFAULT_QUEUE};

/// The most pipes of a made graph.
const MOST: u16 = 12;

const WORKERS: [&str; 3] = ["one", "two", "three"];

/// Numbers that follow from a first one.
#[derive(Clone, Copy, Debug)]
pub(crate) struct Dice {
    state: u32,
}

impl Dice {
    pub fn new(seed: u32) -> Dice {
        let mut dice = Dice {
            state: seed.wrapping_mul(2_654_435_761),
        };
        let _ = dice.roll(2);
        dice
    }

    /// A number below this.
    pub fn roll(&mut self, sides: u32) -> u32
        requires { 0 < sides }
        ensures { result < sides }
    {
        self.state = self
            .state
            .wrapping_mul(1_664_525)
            .wrapping_add(1_013_904_223);
        (self.state >> 16) % sides
    }

    fn is_one_of(&mut self, sides: u32) -> bool
        requires { 0 < sides }
    {
        self.roll(sides) == 0
    }
}

/// A pipe at which flows end.
fn made_end(dice: &mut Dice) -> Does {
    if dice.is_one_of(5) {
        Does::Null
    } else {
        Does::Sink
    }
}

/// The attributes that made pipes work on. Packets are given none of them in lanes.
const ATTRS: [&str; 4] = ["date.sys", "date.sys", "date.orig", "rank"];

/// A pipe that lets some of the packets pass that have such a number, or none of them.
fn made_match(dice: &mut Dice, attr: &'static str, number: u64) -> Does {
    let low = number.saturating_sub(u64::from(dice.roll(3)));
    Does::MatchAttr {
        attr,
        low,
        high: low.saturating_add(u64::from(dice.roll(6))),
    }
}

/// A pipe that works on attributes, behind a pipe that does this.
fn made_on_attrs(dice: &mut Dice, before: Does) -> Does {
    let number = u64::from(dice.roll(4));
    match (before, dice.roll(4)) {
        (Does::SetAttr { attr, value }, 0 | 1) => made_match(dice, attr, value),
        (Does::Delay(_) | Does::Dup, 0) => made_match(dice, ATTRS[0], number),
        (_, 2) => Does::Delay(i64::from(dice.roll(5)) - 2),
        _ => Does::SetAttr {
            attr: ATTRS[dice.roll(4) as usize],
            value: number,
        },
    }
}

/// A pipe that takes an attribute away, behind a pipe that does this: one that the pipe gives or moves, else `key`, which
/// packets are given in lanes.
fn made_del(before: Does) -> Does {
    match before {
        Does::SetAttr { attr, .. } => Does::DelAttr(attr),
        Does::Delay(_) => Does::DelAttr(ATTRS[0]),
        _ => Does::DelAttr("key"),
    }
}

/// A pipe between others, behind a pipe that does this.
fn made_between(dice: &mut Dice, before: Does) -> Does {
    match dice.roll(12) {
        0 | 1 | 2 => Does::Dup,
        3 | 4 => Does::Skip(dice.roll(5)),
        5 => made_del(before),
        6 => Does::Idem,
        _ => made_on_attrs(dice, before),
    }
}

/// Whether so many takers fit behind a pipe, where so many pipes are still to be made and so many of them have an input
/// already.
fn has_room(takers: u16, rest: u16, open: usize) -> bool {
    usize::from(takers).saturating_add(open) <= usize::from(rest)
}

/// A pipe behind a pipe that does this, and how many take from it, where so many pipes are still to be made behind it and
/// so many of them have an input already.
fn made_pipe(dice: &mut Dice, before: Does, rest: u16, open: usize) -> (Does, u16) {
    let does = made_between(dice, before);
    let takers = match does {
        Does::Dup => (1 + dice.roll(3)) as u16,
        _ => 1,
    };
    if has_room(takers, rest, open) && !dice.is_one_of(5) {
        (does, takers)
    } else {
        (made_end(dice), 0)
    }
}

/// The worker of a pipe behind a pipe of this worker.
fn made_worker(dice: &mut Dice, before: &'static str) -> &'static str {
    if dice.is_one_of(4) {
        WORKERS[dice.roll(3) as usize]
    } else {
        before
    }
}

fn made_caught(dice: &mut Dice) -> CatchSet {
    CatchSet {
        drop: dice.is_one_of(6),
        cut: dice.is_one_of(6),
        ..CatchSet::default()
    }
}

/// Adds a place so often, at the end or at the front.
fn add_open(dice: &mut Dice, open: &mut Vec<u16>, place: u16, times: u16) -> Result<(), Fail> {
    for _ in 0..times {
        if dice.is_one_of(2) {
            open.push(place)?;
        } else {
            open.insert(0, place)?;
        }
    }
    Ok(())
}

/// A source and up to eleven pipes behind it, each behind its input.
fn made_tree(alloc: Global, dice: &mut Dice, limit: u64) -> Result<Vec<Row>, Fail> {
    let mut rows = Vec::new(alloc);
    let block = 1 + dice.roll(10);
    rows.push(Row {
        does: Does::Source { block, limit },
        worker: WORKERS[0],
        input: None,
        queue: DEFAULT_QUEUE,
        caught: CatchSet::default(),
    })?;
    let mut open = vec![in alloc; 0; 1]?;
    for place in 1..MOST {
        let Some(input) = open.pop() else {
            return Ok(rows);
        };
        let before = rows
            .get(usize::from(input))
            .map_or((Does::Idem, WORKERS[0]), |row| (row.does, row.worker));
        let (does, takers) = made_pipe(dice, before.0, MOST - 1 - place, open.len());
        rows.push(Row {
            does,
            worker: made_worker(dice, before.1),
            input: Some(input),
            queue: DEFAULT_QUEUE,
            caught: made_caught(dice),
        })?;
        add_open(dice, &mut open, place, takers)?;
    }
    Ok(rows)
}

/// The same pipes, of which the last comes first.
fn turned(alloc: Global, rows: &[Row]) -> Result<Vec<Row>, Fail> {
    let mut other = Vec::new(alloc);
    let last = rows.len().min(usize::from(MOST)).saturating_sub(1) as u16;
    for row in rows.iter().rev() {
        other.push(Row {
            input: row.input.map(|input| last.saturating_sub(input)),
            ..*row
        })?;
    }
    Ok(other)
}

/// The graph of a number, whose source has this limit.
pub(crate) fn made_rows(alloc: Global, seed: u32, limit: u64) -> Result<Vec<Row>, Fail> {
    let rows = made_tree(alloc, &mut Dice::new(seed), limit)?;
    if seed % 2 == 1 {
        return turned(alloc, &rows);
    }
    Ok(rows)
}

/// Up to sixty bytes.
pub(crate) fn made_bytes(alloc: Global, dice: &mut Dice) -> Result<Bytes, Fail> {
    let mut bytes = Bytes::new(alloc);
    for _ in 0..dice.roll(61) {
        bytes.push(dice.roll(256) as u8)?;
    }
    Ok(bytes)
}
