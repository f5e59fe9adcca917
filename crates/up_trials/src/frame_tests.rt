// Sources and sinks of frames in a graph, ended in each way.
ghost use Rattle.up_model.specs.WellFormed.{IsWellFormed};

use crate::frame_trials::{Broken, CUTS, Calls, Frames, run_frames};
use crate::graph_runs::assert_held;
use crate::row::{Does, Row, pipe_row};
use crate::split::Split;
use std::alloc::Global;
use std::process::Abort;
use std::test::Fail;
use up_base::Bytes;
use up_model::MAX_LIMIT;

/// The packet `hi` with an attribute of each type, `ab` without one, `hi` with the number 7 as `c`, and one without bytes.
const STREAM: [u8; 101] = [
    0x46, 1, 0, 5, 0, 0, 0, 2, 1, 0x61, 1, 0, 0, 0, 0, 1, 0x62, 2, 0, 0, 0, 1, 1, 1, 0x63, 3, 0, 0,
    0, 8, 1, 2, 3, 4, 5, 6, 7, 8, 1, 0x64, 4, 0, 0, 0, 2, 0xc3, 0xa9, 2, 0x64, 0x64, 5, 0, 0, 0, 1,
    255, 0x68, 0x69, 0x46, 1, 0, 0, 0, 0, 0, 2, 0x61, 0x62, 0x46, 1, 0, 1, 0, 0, 0, 2, 1, 0x63, 3,
    0, 0, 0, 8, 0, 0, 0, 0, 0, 0, 0, 7, 0x68, 0x69, 0x46, 1, 0, 0, 0, 0, 0, 0,
];

/// Where its frames end.
const ENDS: [usize; 4] = [58, 68, 93, 101];

/// The first and the third packet, without `b`, with the number 7 as `rank`.
const RANKED: [u8; 111] = [
    0x46, 1, 0, 5, 0, 0, 0, 2, 1, 0x61, 1, 0, 0, 0, 0, 1, 0x63, 3, 0, 0, 0, 8, 1, 2, 3, 4, 5, 6, 7,
    8, 1, 0x64, 4, 0, 0, 0, 2, 0xc3, 0xa9, 2, 0x64, 0x64, 5, 0, 0, 0, 1, 255, 4, 0x72, 0x61, 0x6e,
    0x6b, 3, 0, 0, 0, 8, 0, 0, 0, 0, 0, 0, 0, 7, 0x68, 0x69, 0x46, 1, 0, 2, 0, 0, 0, 2, 1, 0x63, 3,
    0, 0, 0, 8, 0, 0, 0, 0, 0, 0, 0, 7, 4, 0x72, 0x61, 0x6e, 0x6b, 3, 0, 0, 0, 8, 0, 0, 0, 0, 0, 0,
    0, 7, 0x68, 0x69,
];

/// The number of the first packet under `c`.
const MOST: u64 = 0x0102_0304_0506_0708;

/// A source of frames that may give so many bytes, and behind it a sink of bytes, a sink of frames, a sink of frames behind
/// pipes that set, take away and match attributes, and on another worker a sink of frames that have a title.
fn fan(limit: u64) -> [Row; 10] {
    let (attr, value) = ("rank", 7);
    let only = Does::MatchAttr {
        attr: "c",
        low: 7,
        high: MOST,
    };
    [
        pipe_row(Does::Frames { limit }, "one", None),
        pipe_row(Does::Dup, "one", Some(0)),
        pipe_row(Does::Sink, "one", Some(1)),
        pipe_row(Does::FrameSink, "one", Some(1)),
        pipe_row(Does::SetAttr { attr, value }, "one", Some(1)),
        pipe_row(Does::DelAttr("b"), "one", Some(4)),
        pipe_row(only, "one", Some(5)),
        pipe_row(Does::FrameSink, "one", Some(6)),
        pipe_row(Does::Titles("news"), "two", Some(1)),
        pipe_row(Does::FrameSink, "two", Some(8)),
    ]
}

/// The stream as it is.
const WHOLE: Frames<'static> = Frames {
    bytes: &STREAM,
    ends: &ENDS,
    broken: None,
};

/// Runs the graph on these bytes at one cut, with each read up to this one failing.
fn run_faults(
    rt: &impl Abort,
    alloc: Global,
    split: &Split,
    frames: &Frames<'_>,
    cut: usize,
    most: u32,
) -> Result<(), Fail>
    requires well_formed { IsWellFormed split.now.graph.pipes }
{
    for nth in 1..most {
        let failing = Some(nth);
        run_frames(rt, alloc, split, MAX_LIMIT, frames, Calls { cut, failing })?;
    }
    Ok(())
}

/// Runs the graph whose source may give so many of these bytes, at each cut.
fn run_limit(rt: &impl Abort, alloc: Global, limit: u64, frames: &Frames<'_>) -> Result<(), Fail> {
    let split = Split::of(rt, alloc, &fan(limit))?;
    for cut in CUTS {
        let failing = None;
        run_frames(rt, alloc, &split, limit, frames, Calls { cut, failing })?;
    }
    Ok(())
}

#[test]
fn packets_of_frames_go_to_sinks_of_bytes_and_of_frames(rt: HostRuntime) -> Result<(), Fail> {
    let alloc = rt.alloc();
    let split = Split::of(&rt, alloc, &fan(MAX_LIMIT))?;
    let failing = None;
    for cut in CUTS {
        let calls = Calls { cut, failing };
        let depot = run_frames(&rt, alloc, &split, MAX_LIMIT, &WHOLE, calls)?;
        let held: [(&str, &[u8]); 3] = [
            ("pipe2", b"hiabhi"),
            ("pipe3", &STREAM),
            ("pipe7", &RANKED),
        ];
        assert_held(&rt, &depot, &held);
    }
    Ok(())
}

#[test]
fn whole_frames_before_a_read_that_fails_go_through(rt: HostRuntime) -> Result<(), Fail> {
    let split = Split::of(&rt, rt.alloc(), &fan(MAX_LIMIT))?;
    run_faults(&rt, rt.alloc(), &split, &WHOLE, 1, 105)?;
    run_faults(&rt, rt.alloc(), &split, &WHOLE, 3, 38)?;
    run_faults(&rt, rt.alloc(), &split, &WHOLE, 1_000, 4)
}

#[test]
fn whole_frames_within_a_limit_go_through(rt: HostRuntime) -> Result<(), Fail> {
    for limit in 0..103 {
        run_limit(&rt, rt.alloc(), limit, &WHOLE)?;
    }
    Ok(())
}

#[test]
fn of_a_limit_and_a_read_that_fails_the_first_is_told(rt: HostRuntime) -> Result<(), Fail> {
    let limit = 68;
    let split = Split::of(&rt, rt.alloc(), &fan(limit))?;
    for nth in 66..73 {
        let calls = Calls {
            cut: 1,
            failing: Some(nth),
        };
        run_frames(&rt, rt.alloc(), &split, limit, &WHOLE, calls)?;
    }
    Ok(())
}

/// A byte of the stream that is another, and what it breaks.
#[derive(Clone, Copy, Debug)]
struct Damage {
    place: usize,
    byte: u8,
    broken: Broken,
}

/// The byte at the place breaks the frame that begins at the offset, once so many bytes are there.
fn damaged_at(place: usize, byte: u8, offset: usize, shown: usize) -> Damage {
    Damage {
        place,
        byte,
        broken: Broken { offset, shown },
    }
}

/// Of the first frame a mark, a name that isn't greater than the one before, a flag and a text; of the second a mark, a
/// version, a count of attributes and one of bytes; of the third the length of a name, a byte of a name, a type and the
/// length of a value; of the last a mark and a count of bytes.
fn damages() -> [Damage; 14] {
    [
        damaged_at(0, 0x47, 0, 1),
        damaged_at(16, 0x61, 0, 17),
        damaged_at(22, 2, 0, 23),
        damaged_at(46, 0x41, 0, 47),
        damaged_at(58, 0, 58, 59),
        damaged_at(59, 2, 58, 60),
        damaged_at(61, 65, 58, 62),
        damaged_at(63, 0x10, 58, 66),
        damaged_at(76, 0, 68, 77),
        damaged_at(77, 0x20, 68, 78),
        damaged_at(78, 6, 68, 79),
        damaged_at(82, 9, 68, 83),
        damaged_at(93, 0x45, 93, 94),
        damaged_at(98, 0x11, 93, 101),
    ]
}

/// The stream with this damage.
fn damaged_stream(rt: &impl Abort, alloc: Global, damage: Damage) -> Result<Bytes, Fail> {
    let Damage { place, byte, .. } = damage;
    assert!(rt; place < 101);
    let mut bytes = Bytes::from_slice(alloc, &STREAM[..place])?;
    bytes.push(byte)?;
    bytes.append(&STREAM[place + 1..])?;
    Ok(bytes)
}

/// Runs the graph on a stream with a broken frame: with limits and failing reads around the end of its broken field.
fn run_broken(rt: &impl Abort, alloc: Global, frames: &Frames<'_>, shown: u64) -> Result<(), Fail> {
    run_limit(rt, alloc, MAX_LIMIT, frames)?;
    run_limit(rt, alloc, shown.saturating_sub(1), frames)?;
    run_limit(rt, alloc, shown, frames)?;
    run_limit(rt, alloc, shown.saturating_add(1), frames)?;
    let split = Split::of(rt, alloc, &fan(MAX_LIMIT))?;
    let most = (shown.min(1_000) as u32).saturating_add(3);
    run_faults(rt, alloc, &split, frames, 1, most)?;
    run_faults(rt, alloc, &split, frames, 3, most / 3 + 2)?;
    run_faults(rt, alloc, &split, frames, 1_000, 4)
}

/// Those of the frames that end before the broken one.
fn ends_before(offset: usize) -> &'static [usize] {
    let count = ENDS.iter().filter(|end| **end <= offset).count();
    &ENDS[..count.min(4)]
}

#[test]
fn a_broken_frame_is_told_where_its_field_is_within_the_limit(rt: HostRuntime) -> Result<(), Fail> {
    for damage in damages() {
        let bytes = damaged_stream(&rt, rt.alloc(), damage)?;
        let broken = damage.broken;
        let frames = Frames {
            bytes: bytes.as_slice(),
            ends: ends_before(broken.offset),
            broken: Some(broken),
        };
        run_broken(&rt, rt.alloc(), &frames, broken.shown as u64)?;
    }
    Ok(())
}

#[test]
fn an_unfinished_frame_is_told_at_the_end(rt: HostRuntime) -> Result<(), Fail> {
    for count in 0..101 {
        let frames = Frames {
            bytes: &STREAM[..count],
            ..WHOLE
        };
        run_limit(&rt, rt.alloc(), MAX_LIMIT, &frames)?;
    }
    Ok(())
}
