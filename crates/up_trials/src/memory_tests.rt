// A strand for which any call may find no memory: `rt try --test --fail-alloc N` lets the Nth fail.

ghost use Rattle.up_trials.specs.Standing.{IsVecStrand};

use crate::left::{Left, finish};
use crate::row::{CAPTURE, Does, Row, pipe_row};
use crate::run::{Tried, run_source};
use crate::split::Split;
use std::alloc::Global;
use std::process::Abort;
use std::test::Fail;
use up_base::NoRoom;
use up_model::Outcome;
use up_outside::{MemDepot, MemSink, MemSource};
use up_shape::{VecPacket, VecStore};
use up_strand::StrandParts;

/// A source, a `dup` behind it, and behind that a sink, and pipes that give packets a text and a
/// number, move and match the number, and take two bytes off, to a sink.
fn fan() -> [Row; 9] {
    let attr = "date.sys";
    let (low, high) = (3, 3);
    [
        pipe_row(CAPTURE, "one", None),
        pipe_row(Does::Dup, "one", Some(0)),
        pipe_row(Does::Sink, "one", Some(1)),
        pipe_row(Does::Titles("film"), "one", Some(1)),
        pipe_row(Does::SetAttr { attr, value: 5 }, "one", Some(3)),
        pipe_row(Does::Delay(-2), "one", Some(4)),
        pipe_row(Does::MatchAttr { attr, low, high }, "one", Some(5)),
        pipe_row(Does::Skip(2), "one", Some(6)),
        pipe_row(Does::Sink, "one", Some(7)),
    ]
}

/// Where all is whole the sinks hold these bytes. Else memory ran out, at least for a write, and they hold the first of them.
fn assert_first_parts(rt: &impl Abort, left: &Left, wanted: &[&[u8]]) {
    let whole = (0..left.outcomes.len()).all(|k| *left.outcomes.at(k) == Outcome::Whole);
    for k in 0..left.outcomes.len() {
        let outcome = *left.outcomes.at(k);
        let short = matches!(outcome, Outcome::NoMemory | Outcome::WriteFault);
        assert!(rt; short || outcome == Outcome::Whole, "{k}: {outcome:?}");
    }
    assert_eq!(rt; left.sinks.len(), wanted.len());
    for (k, bytes) in wanted.iter().enumerate() {
        assert!(rt; k < left.sinks.len());
        let held = left.sinks.at(k).bytes();
        assert!(rt; bytes.starts_with(held), "{k}: {held:?}");
        assert!(rt; !whole || held.len() == bytes.len(), "{k}: {held:?}");
    }
}

/// The parts are those of a strand with a source and two sinks, which did nothing.
fn assert_parts(rt: &impl Abort, parts: StrandParts<MemSource, MemSink>) {
    let StrandParts { source, sinks } = parts;
    assert!(rt; source.is_some());
    assert_eq!(rt; sinks.len(), 2);
}

/// Runs the strand to its end.
fn run_to_end(rt: &impl Abort, alloc: Global, mut strand: Tried<VecPacket>)
    requires { IsVecStrand strand }
{
    let s = &mut VecStore::new(alloc);
    run_source(rt, alloc, &mut strand, &mut Vec::new(alloc), s);
    assert_first_parts(rt, &finish(strand, s), &[b"abcdefghi", b"cfi"]);
}

#[test]
fn a_strand_gives_its_parts_back_or_writes_all_or_tells_what_was_short(
    rt: HostRuntime,
) -> Result<(), Fail> {
    let alloc = rt.alloc();
    let mut depot = MemDepot::new(alloc);
    depot.hold("pipe0", b"abcdefghi")?;
    let split = Split::of(&rt, alloc, &fan())?;
    match split.begun::<VecPacket>(&rt, alloc, 0, &mut depot) {
        Ok(strand) => run_to_end(&rt, alloc, strand),
        Err(NoRoom { back }) => assert_parts(&rt, back),
    }
    Ok(())
}
