// Graphs whose memory runs out, at a `dup` of a packet that is refused.
use crate::graph_runs::{assert_asked, assert_held, closed};
use crate::row::{CAPTURE, Does, Row, pipe_row};
use crate::split::Split;
use std::test::Fail;
use up_engine::{RunOutcome, run_one_thread};
use up_outside::{MemDepot, Side};
use up_shape::{TrialPacket, TrialStore};

/// A source, a `dup`, and behind it a sink, a sink of another worker, and a third sink. Of each packet two second ones are
/// made, for the first sink and for the third.
fn fan() -> [Row; 5] {
    [
        pipe_row(CAPTURE, "one", None),
        pipe_row(Does::Dup, "one", Some(0)),
        pipe_row(Does::Sink, "one", Some(1)),
        pipe_row(Does::Sink, "two", Some(1)),
        pipe_row(Does::Sink, "one", Some(1)),
    ]
}

/// With so many second packets, the sinks hold this.
const SHORT: [(usize, &[u8], &[u8], &[u8]); 7] = [
    (0, b"", b"abc", b""),
    (1, b"abc", b"abc", b""),
    (2, b"abc", b"abcdef", b"abc"),
    (3, b"abcdef", b"abcdef", b"abc"),
    (4, b"abcdef", b"abcdefghi", b"abcdef"),
    (5, b"abcdefghi", b"abcdefghi", b"abcdef"),
    (6, b"abcdefghi", b"abcdefghi", b"abcdefghi"),
];

#[test]
fn a_run_without_memory_closes_all_and_tells_nothing_else(rt: HostRuntime) -> Result<(), Fail> {
    let alloc = rt.alloc();
    let split = Split::of(&rt, alloc, &fan())?;
    for (dups, first, second, third) in SHORT {
        let s = &mut TrialStore::new(alloc, dups);
        let mut depot = MemDepot::new(alloc);
        depot.hold("pipe0", b"abcdefghi")?;
        match run_one_thread::<TrialPacket, MemDepot>(alloc, &split.graph, &mut depot, s) {
            RunOutcome::Ended { .. } => assert_eq!(rt; dups, 6),
            RunOutcome::NoMemory => assert!(rt; dups < 6),
        }
        assert_held(
            &rt,
            &depot,
            &[("pipe2", first), ("pipe3", second), ("pipe4", third)],
        );
        let asked = [
            ("pipe0", Side::Source, closed(second.len() as u64)),
            ("pipe2", Side::Sink, closed(first.len() as u64)),
            ("pipe3", Side::Sink, closed(second.len() as u64)),
            ("pipe4", Side::Sink, closed(third.len() as u64)),
        ];
        assert_asked(&rt, &depot, &asked);
    }
    Ok(())
}
