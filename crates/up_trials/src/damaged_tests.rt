// Damaged frames through a graph: what is told and held is by the whole frames, which the slow meaning finds.
ghost use Rattle.up_model.specs.WellFormed.{IsWellFormed};

use crate::frame_trials::{CUTS, Calls, Frames, run_frames};
use crate::graph_runs::assert_held;
use crate::row::{Does, Row, pipe_row};
use crate::slow_strands::output_at;
use crate::split::Split;
use std::alloc::Global;
use std::process::Abort;
use std::test::Fail;
use up_base::Bytes;
use up_model::MAX_LIMIT;

/// The packet `ab`.
const BEFORE: [u8; 10] = [0x46, 1, 0, 0, 0, 0, 0, 2, 0x61, 0x62];

/// The packet `hi` with a flag, a number and a text.
const FRAME: [u8; 40] = [
    0x46, 1, 0, 3, 0, 0, 0, 2, 1, 0x62, 2, 0, 0, 0, 1, 1, 1, 0x63, 3, 0, 0, 0, 8, 1, 2, 3, 4, 5, 6,
    7, 8, 1, 0x64, 4, 0, 0, 0, 0, 0x68, 0x69,
];

/// A source of frames, and behind it a sink of bytes and a sink of frames.
fn both_forms() -> [Row; 4] {
    let limit = MAX_LIMIT;
    [
        pipe_row(Does::Frames { limit }, "one", None),
        pipe_row(Does::Dup, "one", Some(0)),
        pipe_row(Does::Sink, "one", Some(1)),
        pipe_row(Does::FrameSink, "one", Some(1)),
    ]
}

/// The first frame with these bytes behind it.
fn behind_first(alloc: Global, bytes: &[u8]) -> Result<Bytes, Fail> {
    let mut stream = Bytes::from_slice(alloc, &BEFORE)?;
    stream.append(bytes)?;
    Ok(stream)
}

/// Both frames, with another byte at a place of the second.
fn damaged(rt: &impl Abort, alloc: Global, place: usize, byte: u8) -> Result<Bytes, Fail> {
    assert!(rt; place < 40);
    let mut stream = behind_first(alloc, &FRAME[..place])?;
    stream.push(byte)?;
    stream.append(&FRAME[place + 1..])?;
    Ok(stream)
}

/// Runs the graph at each cut on bytes whose whole frames have so many bytes, which the sink of frames holds.
fn run_front(
    rt: &impl Abort,
    alloc: Global,
    split: &Split,
    bytes: &[u8],
    front: usize,
) -> Result<(), Fail>
    requires well_formed { IsWellFormed split.now.graph.pipes }
{
    let ends = [10, front];
    let frames = Frames {
        bytes,
        ends: &ends,
        broken: None,
    };
    for cut in CUTS {
        let failing = None;
        let calls = Calls { cut, failing };
        let depot = run_frames(rt, alloc, split, MAX_LIMIT, &frames, calls)?;
        let held: [(&str, &[u8]); 1] = [("pipe3", &bytes[..front.min(bytes.len())])];
        assert_held(rt, &depot, &held);
    }
    Ok(())
}

/// Runs the graph on both frames, with another byte at a place of the second: whether this is broken or unfinished.
fn run_damaged(
    rt: &impl Abort,
    alloc: Global,
    split: &Split,
    place: usize,
    byte: u8,
) -> Result<bool, Fail>
    requires well_formed { IsWellFormed split.now.graph.pipes }
{
    let stream = damaged(rt, alloc, place, byte)?;
    let bytes = stream.as_slice();
    let whole = output_at(rt, alloc, split, bytes, 3);
    let front = whole.as_slice().len();
    run_front(rt, alloc, split, bytes, front)?;
    Ok(front == 10)
}

#[test]
fn each_byte_of_a_frame_changed_is_told_as_it_is_found(rt: HostRuntime) -> Result<(), Fail> {
    let alloc = rt.alloc();
    let split = Split::of(&rt, alloc, &both_forms())?;
    let mut count: usize = 0;
    for (place, byte) in FRAME.iter().enumerate() {
        for changed in [byte.wrapping_add(1), byte.wrapping_sub(1), 0, 255] {
            let is_bad = run_damaged(&rt, alloc, &split, place, changed)?;
            count = count.saturating_add(usize::from(is_bad));
        }
    }
    assert_eq!(rt; count, 96);
    Ok(())
}

#[test]
fn each_front_of_a_frame_behind_another_is_told_at_the_end(rt: HostRuntime) -> Result<(), Fail> {
    let alloc = rt.alloc();
    let split = Split::of(&rt, alloc, &both_forms())?;
    for size in 0..40 {
        let stream = behind_first(alloc, &FRAME[..size])?;
        run_front(&rt, alloc, &split, stream.as_slice(), 10)?;
    }
    Ok(())
}
