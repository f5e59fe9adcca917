// Runs in which a write of a frame fails.
use crate::frame_tests::{AB_AND_C, assert_bytes, assert_holds, pipes_depot};
use crate::tests::{RUN, told_status_of};
use std::alloc::Global;
use std::process::Abort;
use std::sync::Wait;
use std::test::Fail;
use std::thread::Threads;
use up_outside::{DepotCall, MemSink};

/// Blocks of two bytes that become frames at two sinks.
const TWICE: [&str; 4] = [
    "name = 'in', kind = 'source', path = 'i', block = 2",
    "name = 'both', kind = 'dup', input = 'in'",
    "name = 'out', kind = 'sink', input = 'both', path = 'o', form = 'framed'",
    "name = 'out2', kind = 'sink', input = 'both', path = 'p', form = 'framed'",
];

/// Writes the frames of `ab` and `c` where a write takes so many bytes and the nth to `o` fails: so many of them are then
/// there, and all are at `p`.
fn assert_fails<R: Abort + Threads + Wait + Sync>(
    rt: &R,
    alloc: Global,
    cut: usize,
    nth: u32,
    left: usize,
) -> Result<(), Fail> {
    let mut depot = pipes_depot(alloc, &TWICE, b"abc")?;
    depot.cut(cut.max(1));
    depot.fail(DepotCall::Write, "o", nth.max(1))?;
    let mut err = MemSink::new(alloc);
    let status = told_status_of(rt, alloc, &RUN, &mut depot, &mut err)?;
    assert_eq!(rt; status, 5, "{cut} {nth}");
    assert_bytes(rt, err.bytes(), b"upipe: write fault: pipe out\n");
    assert_holds(rt, &depot, "o", &AB_AND_C[..left.min(19)]);
    assert_holds(rt, &depot, "p", &AB_AND_C);
    assert_eq!(rt; (depot.source_faults(), depot.sink_faults()), (0, 1));
    Ok(())
}

#[test]
fn a_write_that_fails_in_a_frame_leaves_the_bytes_before_it(rt: HostRuntime) -> Result<(), Fail> {
    for left in 0..19 {
        assert_fails(&rt, rt.alloc(), 1, left + 1, left as usize)?;
    }
    Ok(())
}

/// The most bytes of a write, and how many are there before each write: of the frame of ten bytes, and then of that of nine.
#[test]
fn a_write_of_more_bytes_that_fails_leaves_those_of_the_writes_before_it(
    rt: HostRuntime,
) -> Result<(), Fail> {
    let cases: [(usize, &[usize]); 3] = [
        (3, &[0, 3, 6, 9, 10, 13, 16]),
        (8, &[0, 8, 10, 18]),
        (100, &[0, 10]),
    ];
    for (cut, lefts) in cases {
        let mut nth: u32 = 1;
        for left in lefts {
            assert_fails(&rt, rt.alloc(), cut, nth, *left)?;
            nth = nth.saturating_add(1);
        }
    }
    Ok(())
}
