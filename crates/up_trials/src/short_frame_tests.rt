// Graphs with a source of frames whose memory runs out: at a packet, or at a `dup` of one, that is refused.
ghost use Rattle.up_model.specs.WellFormed.{IsWellFormed};

use crate::graph_runs::{assert_asked, assert_held, closed};
use crate::lent_packet::{LentPacket, LentStore};
use crate::row::{Does, Row, pipe_row};
use crate::same::assert_same_at;
use crate::split::Split;
use std::alloc::Global;
use std::process::Abort;
use std::test::Fail;
use up_engine::{RunOutcome, run_one_thread};
use up_model::MAX_LIMIT;
use up_outside::{MemDepot, Side};
use up_shape::{LocalPacket, TrialPacket, TrialStore};

/// The packets `abc`, one without bytes but with the number 7 as `c`, and `de`.
const STREAM: [u8; 44] = [
    0x46, 1, 0, 0, 0, 0, 0, 3, 0x61, 0x62, 0x63, 0x46, 1, 0, 1, 0, 0, 0, 0, 1, 0x63, 3, 0, 0, 0, 8,
    0, 0, 0, 0, 0, 0, 0, 7, 0x46, 1, 0, 0, 0, 0, 0, 2, 0x64, 0x65,
];

/// The first so many of its frames.
fn frames(count: usize) -> &'static [u8] {
    match count {
        0 => &[],
        1 => &STREAM[..11],
        2 => &STREAM[..34],
        _ => &STREAM,
    }
}

/// A source of frames, a `dup`, and behind it a sink of frames, a sink of bytes of another worker, and a second sink of
/// frames. Of each packet two second ones are made, for the first sink and for the third.
fn fan() -> [Row; 5] {
    let limit = MAX_LIMIT;
    [
        pipe_row(Does::Frames { limit }, "one", None),
        pipe_row(Does::Dup, "one", Some(0)),
        pipe_row(Does::FrameSink, "one", Some(1)),
        pipe_row(Does::Sink, "two", Some(1)),
        pipe_row(Does::FrameSink, "one", Some(1)),
    ]
}

/// Runs the graph over the stream with packets of this store: whether memory runs out.
fn runs_short<P: LocalPacket>(
    alloc: Global,
    split: &Split,
    depot: &mut MemDepot,
    store: &mut P::Store,
) -> Result<bool, Fail>
    requires { IsWellFormed split.now.graph.pipes }
{
    depot.hold("pipe0", &STREAM)?;
    match run_one_thread::<P, MemDepot>(alloc, &split.graph, depot, store) {
        RunOutcome::Ended { .. } => Ok(false),
        RunOutcome::NoMemory => Ok(true),
    }
}

/// The sinks hold what is made of the first so many packets, and all that was asked for is closed.
fn assert_first(rt: &impl Abort, depot: &MemDepot, first: usize, second: &[u8], third: usize) {
    let (first, third) = (frames(first), frames(third));
    assert_held(
        rt,
        depot,
        &[("pipe2", first), ("pipe3", second), ("pipe4", third)],
    );
    let asked = [
        ("pipe0", Side::Source, closed(44)),
        ("pipe2", Side::Sink, closed(first.len() as u64)),
        ("pipe3", Side::Sink, closed(second.len() as u64)),
        ("pipe4", Side::Sink, closed(third.len() as u64)),
    ];
    assert_asked(rt, depot, &asked);
}

/// With so many second packets, the sinks hold what is made of so many packets.
const DUPS: [(usize, usize, &[u8], usize); 7] = [
    (0, 0, b"abc", 0),
    (1, 1, b"abc", 0),
    (2, 1, b"abc", 1),
    (3, 2, b"abc", 1),
    (4, 2, b"abcde", 2),
    (5, 3, b"abcde", 2),
    (6, 3, b"abcde", 3),
];

#[test]
fn sinks_hold_first_frames_where_a_second_packet_is_refused(rt: HostRuntime) -> Result<(), Fail> {
    let alloc = rt.alloc();
    let split = Split::of(&rt, alloc, &fan())?;
    for (dups, first, second, third) in DUPS {
        let s = &mut TrialStore::new(alloc, dups);
        let mut depot = MemDepot::new(alloc);
        let is_short = runs_short::<TrialPacket>(alloc, &split, &mut depot, s)?;
        assert_same_at(&rt, is_short, dups < 6, dups);
        assert_first(&rt, &depot, first, second, third);
    }
    Ok(())
}

/// What a sink of bytes holds of the first so many packets.
const FIRST: [&[u8]; 4] = [b"", b"abc", b"abc", b"abcde"];

#[test]
fn sinks_hold_first_frames_where_a_packet_of_a_frame_is_refused(
    rt: HostRuntime,
) -> Result<(), Fail> {
    let alloc = rt.alloc();
    let owner = String::from_str(alloc, "owner")?;
    let split = Split::of(&rt, alloc, &fan())?;
    for (count, second) in FIRST.iter().enumerate() {
        let s = &mut LentStore::with_rooms(alloc, &owner, count);
        let mut depot = MemDepot::new(alloc);
        let is_short = runs_short::<LentPacket<'_>>(alloc, &split, &mut depot, s)?;
        assert_same_at(&rt, is_short, count < 3, count);
        assert_first(&rt, &depot, count, second, count);
    }
    Ok(())
}
