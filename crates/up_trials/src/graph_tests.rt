// Graphs of a few pipes, run on one thread, with what they come to by hand.
use crate::graph_runs::{assert_asked, assert_held, closed, closed_after_fault, run_pipes};
use crate::left::sums;
use crate::row::{CAPTURE, Does, Row, pipe_row};
use std::alloc::Global;
use std::process::Abort;
use std::test::Fail;
use up_model::{CatchSet, MAX_LIMIT, Outcome};
use up_outside::{DepotCall, MemDepot, Side};

/// A source of packets of two bytes.
const PAIRS: Does = Does::Source {
    block: 2,
    limit: MAX_LIMIT,
};

/// A pipe whose lane, where it has one, has room for one item.
fn short_row(does: Does, worker: &'static str, input: Option<u16>) -> Row {
    Row {
        queue: 1,
        ..pipe_row(does, worker, input)
    }
}

/// A source, this pipe, and a sink, each on a worker of its own.
fn through(does: Does) -> [Row; 3] {
    [
        short_row(PAIRS, "one", None),
        short_row(does, "two", Some(0)),
        short_row(Does::Sink, "three", Some(1)),
    ]
}

/// A depot that holds these bytes for the first pipe.
fn depot_of(alloc: Global, bytes: &[u8]) -> Result<MemDepot, Fail> {
    let mut depot = MemDepot::new(alloc);
    depot.hold("pipe0", bytes)?;
    Ok(depot)
}

#[test]
fn a_skip_takes_a_byte_off_each_packet_of_its_lane(rt: HostRuntime) -> Result<(), Fail> {
    let alloc = rt.alloc();
    let mut depot = depot_of(alloc, b"abcdef")?;
    let ran = run_pipes(&rt, alloc, &through(Does::Skip(1)), &mut depot)?;
    ran.assert_ends(&rt, &[Outcome::Whole; 3]);
    ran.assert_sums(&rt, &[sums(0, 3, 0, 0), sums(3, 3, 0, 3), sums(3, 0, 0, 0)]);
    assert_held(&rt, &depot, &[("pipe0", b"abcdef"), ("pipe2", b"bdf")]);
    let asked = [
        ("pipe0", Side::Source, closed(6)),
        ("pipe2", Side::Sink, closed(3)),
    ];
    assert_asked(&rt, &depot, &asked);
    Ok(())
}

#[test]
fn a_skip_of_two_bytes_drops_the_last_block_of_one(rt: HostRuntime) -> Result<(), Fail> {
    let alloc = rt.alloc();
    let mut depot = depot_of(alloc, b"abcdefg")?;
    let mut rows = through(Does::Skip(2));
    rows[0].does = CAPTURE;
    let ran = run_pipes(&rt, alloc, &rows, &mut depot)?;
    ran.assert_ends(&rt, &[Outcome::Whole; 3]);
    ran.assert_sums(&rt, &[sums(0, 3, 0, 0), sums(3, 2, 1, 5), sums(2, 0, 0, 0)]);
    assert_held(&rt, &depot, &[("pipe2", b"cf")]);
    Ok(())
}

#[test]
fn a_delattr_passes_packets_on_that_have_no_attribute(rt: HostRuntime) -> Result<(), Fail> {
    let alloc = rt.alloc();
    let mut depot = depot_of(alloc, b"abcde")?;
    let ran = run_pipes(&rt, alloc, &through(Does::DelAttr("key")), &mut depot)?;
    ran.assert_ends(&rt, &[Outcome::Whole; 3]);
    ran.assert_sums(&rt, &[sums(0, 3, 0, 0), sums(3, 3, 0, 0), sums(3, 0, 0, 0)]);
    assert_held(&rt, &depot, &[("pipe2", b"abcde")]);
    Ok(())
}

/// A source, a `dup`, and two sinks on workers of their own, whose lanes have room for one item.
fn fan() -> [Row; 4] {
    [
        short_row(PAIRS, "one", None),
        short_row(Does::Dup, "one", Some(0)),
        short_row(Does::Sink, "two", Some(1)),
        short_row(Does::Sink, "three", Some(1)),
    ]
}

#[test]
fn two_sinks_behind_short_lanes_hold_all_of_it(rt: HostRuntime) -> Result<(), Fail> {
    let alloc = rt.alloc();
    let mut depot = depot_of(alloc, b"abcdefg")?;
    let ran = run_pipes(&rt, alloc, &fan(), &mut depot)?;
    ran.assert_ends(&rt, &[Outcome::Whole; 4]);
    let taken = sums(4, 0, 0, 0);
    ran.assert_sums(&rt, &[sums(0, 4, 0, 0), sums(4, 4, 0, 0), taken, taken]);
    assert_held(&rt, &depot, &[("pipe2", b"abcdefg"), ("pipe3", b"abcdefg")]);
    Ok(())
}

#[test]
fn a_null_drops_all_that_comes_through_its_lane(rt: HostRuntime) -> Result<(), Fail> {
    let alloc = rt.alloc();
    let mut depot = depot_of(alloc, b"abcdef")?;
    let rows = [
        short_row(PAIRS, "one", None),
        short_row(Does::Null, "two", Some(0)),
    ];
    let ran = run_pipes(&rt, alloc, &rows, &mut depot)?;
    ran.assert_ends(&rt, &[Outcome::Whole; 2]);
    ran.assert_sums(&rt, &[sums(0, 3, 0, 0), sums(3, 0, 3, 6)]);
    assert_asked(&rt, &depot, &[("pipe0", Side::Source, closed(6))]);
    Ok(())
}

#[test]
fn what_a_probe_catches_is_counted_nowhere(rt: HostRuntime) -> Result<(), Fail> {
    let alloc = rt.alloc();
    for (drop, cut, counted) in [
        (false, false, sums(4, 3, 1, 7)),
        (true, false, sums(4, 3, 0, 7)),
        (false, true, sums(4, 3, 1, 0)),
        (true, true, sums(4, 3, 0, 0)),
    ] {
        let mut depot = depot_of(alloc, b"abcdefg")?;
        let mut rows = through(Does::Skip(2));
        rows[1].caught = CatchSet {
            drop,
            cut,
            ..CatchSet::default()
        };
        let ran = run_pipes(&rt, alloc, &rows, &mut depot)?;
        ran.assert_sums(&rt, &[sums(0, 4, 0, 0), counted, sums(3, 0, 0, 0)]);
        assert_held(&rt, &depot, &[("pipe2", b"")]);
    }
    Ok(())
}

#[test]
fn pipes_are_told_in_the_order_of_the_file(rt: HostRuntime) -> Result<(), Fail> {
    let alloc = rt.alloc();
    let mut depot = MemDepot::new(alloc);
    depot.hold("pipe4", b"abcdef")?;
    depot.fail(DepotCall::Write, "pipe2", 2)?;
    let rows = [
        short_row(Does::Sink, "one", Some(3)),
        short_row(Does::Skip(1), "two", Some(3)),
        short_row(Does::Sink, "two", Some(1)),
        short_row(Does::Dup, "one", Some(4)),
        short_row(PAIRS, "one", None),
    ];
    let ran = run_pipes(&rt, alloc, &rows, &mut depot)?;
    let mut outcomes = [Outcome::Whole; 5];
    outcomes[2] = Outcome::WriteFault;
    ran.assert_ends(&rt, &outcomes);
    let taken = sums(3, 0, 0, 0);
    let (cut, passed) = (sums(3, 3, 0, 3), sums(3, 3, 0, 0));
    ran.assert_sums(&rt, &[taken, cut, taken, passed, sums(0, 3, 0, 0)]);
    let asked = [
        ("pipe4", Side::Source, closed(6)),
        ("pipe0", Side::Sink, closed(6)),
        ("pipe2", Side::Sink, closed_after_fault(1)),
    ];
    assert_asked(&rt, &depot, &asked);
    assert_held(&rt, &depot, &[("pipe0", b"abcdef"), ("pipe2", b"b")]);
    Ok(())
}

/// A source of packets of two bytes with a limit, and what comes of it: how it and the sink
/// behind it end, how many bytes are read, and which are written.
#[derive(Clone, Copy)]
struct LimitCase<'a> {
    limit: u64,
    bytes: &'a [u8],
    source: Outcome,
    sink: Outcome,
    moved: u64,
    written: &'a [u8],
}

/// All of the input is read and written.
fn within(limit: u64, bytes: &[u8]) -> LimitCase<'_> {
    LimitCase {
        limit,
        bytes,
        source: Outcome::Whole,
        sink: Outcome::Whole,
        moved: bytes.len() as u64,
        written: bytes,
    }
}

/// One byte more than the limit is read, and this is written.
fn past<'a>(limit: u64, bytes: &'a [u8], written: &'a [u8]) -> LimitCase<'a> {
    LimitCase {
        limit,
        bytes,
        source: Outcome::TooLong { limit },
        sink: Outcome::Broken,
        moved: limit.saturating_add(1),
        written,
    }
}

/// Runs such a source and a sink behind its lane.
fn run_case(rt: &impl Abort, alloc: Global, case: &LimitCase<'_>) -> Result<(), Fail> {
    let mut depot = depot_of(alloc, case.bytes)?;
    let source = Does::Source {
        block: 2,
        limit: case.limit,
    };
    let rows = [
        short_row(source, "one", None),
        short_row(Does::Sink, "two", Some(0)),
    ];
    let ran = run_pipes(rt, alloc, &rows, &mut depot)?;
    ran.assert_ends(rt, &[case.source, case.sink]);
    let asked = [
        ("pipe0", Side::Source, closed(case.moved)),
        ("pipe1", Side::Sink, closed(case.written.len() as u64)),
    ];
    assert_asked(rt, &depot, &asked);
    assert_held(rt, &depot, &[("pipe1", case.written)]);
    Ok(())
}

#[test]
fn a_source_within_its_limit_is_whole_and_past_it_too_long(rt: HostRuntime) -> Result<(), Fail> {
    let cases = [
        within(0, b""),
        past(0, b"a", b""),
        within(1, b"a"),
        past(1, b"ab", b""),
        past(3, b"abcde", b"ab"),
        within(4, b"abcd"),
    ];
    for case in &cases {
        run_case(&rt, rt.alloc(), case)?;
    }
    Ok(())
}
