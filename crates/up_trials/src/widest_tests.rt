// The greatest graphs, on as many workers as there may be.
use crate::graph_runs::{assert_held, run_pipes};
use crate::left::sums;
use crate::row::{CAPTURE, Does, Row, pipe_row};
use std::alloc::Global;
use std::test::Fail;
use up_model::{MAX_BLOCK, MAX_LIMIT, MAX_PACKET, MAX_QUEUE, Outcome};
use up_outside::MemDepot;

const WORKERS: [&str; 16] = [
    "w1", "w2", "w3", "w4", "w5", "w6", "w7", "w8", "w9", "w10", "w11", "w12", "w13", "w14", "w15",
    "w16",
];

/// The pipe at a place, on the next worker after that of the place before it, with a lane of one item.
fn next_row(does: Does, place: u16, input: Option<u16>) -> Row {
    Row {
        queue: 1,
        ..pipe_row(does, WORKERS[usize::from(place % 16)], input)
    }
}

/// A source and a sink with 254 pipes between them, each on another worker than its input.
fn chain(alloc: Global) -> Result<Vec<Row>, Fail> {
    let mut rows = Vec::new(alloc);
    rows.push(next_row(CAPTURE, 0, None))?;
    for place in 1..255 {
        rows.push(next_row(Does::Idem, place, Some(place - 1)))?;
    }
    rows.push(next_row(Does::Sink, 255, Some(254)))?;
    Ok(rows)
}

#[test]
fn a_chain_of_256_pipes_runs_as_256_strands_of_16_workers(rt: HostRuntime) -> Result<(), Fail> {
    let alloc = rt.alloc();
    let mut depot = MemDepot::new(alloc);
    depot.hold("pipe0", b"abcdefg")?;
    let ran = run_pipes(&rt, alloc, &chain(alloc)?, &mut depot)?;
    ran.assert_ends(&rt, &[Outcome::Whole; 256]);
    let mut counted = [sums(3, 3, 0, 0); 256];
    counted[0] = sums(0, 3, 0, 0);
    counted[255] = sums(3, 0, 0, 0);
    ran.assert_sums(&rt, &counted);
    assert_held(&rt, &depot, &[("pipe255", b"abcdefg")]);
    Ok(())
}

/// A source, a `dup`, and 254 sinks behind it, on all workers.
fn wide(alloc: Global) -> Result<Vec<Row>, Fail> {
    let mut rows = Vec::new(alloc);
    rows.push(next_row(CAPTURE, 0, None))?;
    rows.push(next_row(Does::Dup, 1, Some(0)))?;
    for place in 2..256 {
        rows.push(next_row(Does::Sink, place, Some(1)))?;
    }
    Ok(rows)
}

#[test]
fn a_dup_feeds_254_sinks_of_16_workers(rt: HostRuntime) -> Result<(), Fail> {
    let alloc = rt.alloc();
    let mut depot = MemDepot::new(alloc);
    depot.hold("pipe0", b"abcdefg")?;
    let ran = run_pipes(&rt, alloc, &wide(alloc)?, &mut depot)?;
    ran.assert_ends(&rt, &[Outcome::Whole; 256]);
    let mut counted = [sums(3, 0, 0, 0); 256];
    counted[0] = sums(0, 3, 0, 0);
    counted[1] = sums(3, 3, 0, 0);
    ran.assert_sums(&rt, &counted);
    for place in 2..256 {
        let path = format!(in alloc; "pipe{}", place)?;
        assert_held(&rt, &depot, &[(&path, b"abcdefg")]);
    }
    Ok(())
}

/// A pipe with the longest lane, where it has one.
fn long_row(does: Does, worker: &'static str, input: Option<u16>) -> Row {
    Row {
        queue: MAX_QUEUE,
        ..pipe_row(does, worker, input)
    }
}

/// A source, a `skip`, and a sink, on workers of their own.
fn through(block: u32, skipped: u32) -> [Row; 3] {
    let capture = Does::Source {
        block,
        limit: MAX_LIMIT,
    };
    [
        long_row(capture, "w1", None),
        long_row(Does::Skip(skipped), "w2", Some(0)),
        long_row(Does::Sink, "w3", Some(1)),
    ]
}

#[test]
fn the_greatest_packets_go_through_the_longest_lanes(rt: HostRuntime) -> Result<(), Fail> {
    let alloc = rt.alloc();
    let mut bytes = vec![in alloc; 7; 1_048_579]?;
    bytes[1_048_575] = 2;
    let mut depot = MemDepot::new(alloc);
    depot.hold("pipe0", &bytes)?;
    let rows = through(MAX_BLOCK, MAX_PACKET - 1);
    let ran = run_pipes(&rt, alloc, &rows, &mut depot)?;
    ran.assert_ends(&rt, &[Outcome::Whole; 3]);
    let cut = sums(2, 1, 1, 1_048_578);
    ran.assert_sums(&rt, &[sums(0, 2, 0, 0), cut, sums(1, 0, 0, 0)]);
    assert_held(&rt, &depot, &[("pipe2", &[2])]);
    Ok(())
}

#[test]
fn five_thousand_packets_go_through_lanes_of_4096_items(rt: HostRuntime) -> Result<(), Fail> {
    let alloc = rt.alloc();
    let bytes = vec![in alloc; 7; 5_000]?;
    let mut depot = MemDepot::new(alloc);
    depot.hold("pipe0", &bytes)?;
    let ran = run_pipes(&rt, alloc, &through(1, 0), &mut depot)?;
    ran.assert_ends(&rt, &[Outcome::Whole; 3]);
    let passed = sums(5_000, 5_000, 0, 0);
    ran.assert_sums(&rt, &[sums(0, 5_000, 0, 0), passed, sums(5_000, 0, 0, 0)]);
    assert_held(&rt, &depot, &[("pipe2", &bytes)]);
    Ok(())
}
