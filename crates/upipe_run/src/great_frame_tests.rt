// Runs at the limits of frames: of the greatest frame that there may be, and of streams longer than a read.
use crate::frame_tests::AB;
use crate::tests::{RUN, depot_of, status_of};
use crate::tree_tests::pipes_text;
use std::alloc::Global;
use std::process::Abort;
use std::sync::Wait;
use std::test::Fail;
use std::thread::Threads;
use up_outside::{DepotCall, MemDepot};

/// Frames that are written as frames.
const THROUGH: [&str; 2] = [
    "name = 'in', kind = 'source', path = 'i', form = 'framed'",
    "name = 'out', kind = 'sink', input = 'in', path = 'o', form = 'framed'",
];

/// The most bytes that a read gives and a write takes: around the 65,536 bytes that are read at once, and more.
const CUTS: [usize; 4] = [65_535, 65_536, 65_537, 1_048_576];

/// Adds the attribute with this number of those with the longest names. Its value is the longest, a text or any bytes.
fn add_attr(bytes: &mut Vec<u8>, number: u8) -> Result<(), Fail> {
    bytes.push(64)?;
    bytes.extend_from_slice(&[b'n'; 62])?;
    bytes.extend_from_slice(&[b'0' + number / 10 % 10, b'0' + number % 10])?;
    bytes.extend_from_slice(&[4 + number % 2, 0, 0, 0x10, 0])?;
    bytes.extend_from_slice(&[number; 4_096])?;
    Ok(())
}

/// The greatest frame: 64 attributes of 4,166 bytes each, and a packet of 1,048,576 bytes.
fn greatest_frame(alloc: Global) -> Result<Vec<u8>, Fail> {
    let mut bytes = Vec::from_slice(alloc, &[0x46, 1, 0, 64, 0, 0x10, 0, 0])?;
    for number in 0..64 {
        add_attr(&mut bytes, number)?;
    }
    bytes.resize(1_315_207, 0xa5)?;
    bytes.push(0x5a)?;
    Ok(bytes)
}

/// These bytes, of which there are too many to be printed, lie at `o` in the case of this number.
fn assert_left(rt: &impl Abort, depot: &MemDepot, wanted: Option<&[u8]>, case: usize) {
    assert!(rt; depot.bytes("o") == wanted, "{case}");
}

/// Runs frames through to a sink of frames at each cut, which then holds the same bytes.
fn assert_through<R: Abort + Threads + Wait + Sync>(
    rt: &R,
    alloc: Global,
    stream: &[u8],
) -> Result<(), Fail> {
    let text = pipes_text(alloc, &THROUGH, 0, 1)?;
    for cut in CUTS {
        let mut depot = depot_of(alloc, text.as_bytes())?;
        depot.hold("i", stream)?;
        depot.cut(cut);
        assert_eq!(rt; status_of(rt, alloc, &RUN, &mut depot)?, 0);
        assert_left(rt, &depot, Some(stream), cut);
    }
    Ok(())
}

/// The greatest frame between those of `ab` and `c`.
fn great_stream(alloc: Global) -> Result<Vec<u8>, Fail> {
    let mut stream = Vec::from_slice(alloc, &AB)?;
    let great = greatest_frame(alloc)?;
    stream.extend_from_slice(&great)?;
    stream.extend_from_slice(&[0x46, 1, 0, 0, 0, 0, 0, 1, 0x63])?;
    Ok(stream)
}

#[test]
fn the_greatest_frame_between_two_small_ones_is_written_as_it_was_read(
    rt: HostRuntime,
) -> Result<(), Fail> {
    let alloc = rt.alloc();
    let stream = great_stream(alloc)?;
    assert_through(&rt, alloc, &stream)
}

/// A call that fails in a run of frames through to a sink, what the run answers, and how many of the bytes are then there.
const FAILS: [(DepotCall, &str, u32, u8, usize); 5] = [
    (DepotCall::Read, "i", 1, 4, 0),
    (DepotCall::Read, "i", 12, 4, 10),
    (DepotCall::Write, "o", 2, 5, 10),
    (DepotCall::Write, "o", 3, 5, 65_546),
    (DepotCall::Write, "o", 22, 5, 1_310_730),
];

/// The frame of `ab` is written by one call, and the greatest by 21 of at most 65,536 bytes.
#[test]
fn a_call_that_fails_inside_the_greatest_frame_leaves_what_was_written_before_it(
    rt: HostRuntime,
) -> Result<(), Fail> {
    let alloc = rt.alloc();
    let stream = great_stream(alloc)?;
    let text = pipes_text(alloc, &THROUGH, 0, 1)?;
    for (call, path, nth, status, left) in FAILS {
        let mut depot = depot_of(alloc, text.as_bytes())?;
        depot.hold("i", &stream)?;
        depot.cut(65_536);
        depot.fail(call, path, nth)?;
        assert_eq!(rt; status_of(&rt, alloc, &RUN, &mut depot)?, status);
        assert_left(&rt, &depot, stream.get(..left), nth as usize);
    }
    Ok(())
}

/// Adds the frame of a packet of so many bytes, which are this number.
fn add_frame(bytes: &mut Vec<u8>, size: u16, number: u8) -> Result<(), Fail> {
    let count = size.to_be_bytes();
    bytes.extend_from_slice(&[0x46, 1, 0, 0, 0, 0, count[0], count[1]])?;
    let end = bytes.len().saturating_add(usize::from(size));
    bytes.resize(end, number)?;
    Ok(())
}

#[test]
fn many_frames_are_more_than_a_read(rt: HostRuntime) -> Result<(), Fail> {
    let alloc = rt.alloc();
    let mut stream = Vec::new(alloc);
    for size in 0..400 {
        add_frame(&mut stream, size, (size % 251) as u8)?;
    }
    assert_through(&rt, alloc, &stream)
}

/// The first frame ends so many bytes before the 65,536th: there the next two are cut in each part.
#[test]
fn a_frame_is_cut_by_the_end_of_a_read(rt: HostRuntime) -> Result<(), Fail> {
    let alloc = rt.alloc();
    for before in [0, 1, 7, 8, 10] {
        let mut stream = Vec::new(alloc);
        add_frame(&mut stream, 65_528 - before, 1)?;
        add_frame(&mut stream, 2, 2)?;
        add_frame(&mut stream, 3, 3)?;
        assert_through(&rt, alloc, &stream)?;
    }
    Ok(())
}
