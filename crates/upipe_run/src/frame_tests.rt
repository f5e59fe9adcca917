// Runs of graphs whose sources and sinks have frames.
use crate::tests::{RUN, depot_of, status_of, told_status_of};
use crate::tree_tests::pipes_text;
use std::alloc::Global;
use std::process::Abort;
use std::sync::Wait;
use std::test::Fail;
use std::thread::Threads;
use up_outside::{DepotCall, Mark, MemDepot, MemSink};

/// The frames of the packets `ab` and `c`.
pub(crate) const AB_AND_C: [u8; 19] = [
    0x46, 1, 0, 0, 0, 0, 0, 2, 0x61, 0x62, 0x46, 1, 0, 0, 0, 0, 0, 1, 0x63,
];

/// The frame of `ab`.
pub(crate) const AB: [u8; 10] = [0x46, 1, 0, 0, 0, 0, 0, 2, 0x61, 0x62];

/// The frame of `ab`, and the first three bytes of one.
const AB_AND_A_REST: [u8; 13] = [0x46, 1, 0, 0, 0, 0, 0, 2, 0x61, 0x62, 0x46, 1, 0];

/// The frame of `ab`, one of another version, which is broken by its second byte, and that of `c`.
const AB_AND_BROKEN: [u8; 21] = [
    0x46, 1, 0, 0, 0, 0, 0, 2, 0x61, 0x62, 0x46, 2, 0x46, 1, 0, 0, 0, 0, 0, 1, 0x63,
];

/// What a run answers and tells, and what is then left at `o`.
#[derive(Clone, Copy, Drop)]
struct Ran {
    status: u8,
    line: &'static str,
    left: &'static [u8],
}

/// A run that is whole and leaves these bytes.
fn whole(left: &'static [u8]) -> Ran {
    Ran {
        status: 0,
        line: "",
        left,
    }
}

/// A depot with the graph of these pipes, and these bytes at `i`.
pub(crate) fn pipes_depot(
    alloc: Global,
    pipes: &[&'static str],
    given: &[u8],
) -> Result<MemDepot, Fail> {
    let text = pipes_text(alloc, pipes, 0, 1)?;
    let mut depot = depot_of(alloc, text.as_bytes())?;
    depot.hold("i", given)?;
    Ok(depot)
}

/// These bytes are the others.
pub(crate) fn assert_bytes(rt: &impl Abort, bytes: &[u8], wanted: &[u8]) {
    assert_eq!(rt; bytes, wanted);
}

/// These bytes lie at the path.
pub(crate) fn assert_holds(rt: &impl Abort, depot: &MemDepot, path: &str, wanted: &[u8]) {
    assert_eq!(rt; depot.bytes(path), Some(wanted), "{path}");
}

/// Runs the graph at `g.toml`.
fn assert_ran<R: Abort + Threads + Wait + Sync>(
    rt: &R,
    alloc: Global,
    depot: &mut MemDepot,
    wanted: Ran,
) -> Result<(), Fail> {
    let mut err = MemSink::new(alloc);
    let status = told_status_of(rt, alloc, &RUN, depot, &mut err)?;
    assert_eq!(rt; status, wanted.status);
    assert_bytes(rt, err.bytes(), wanted.line.as_bytes());
    assert_holds(rt, depot, "o", wanted.left);
    Ok(())
}

/// Runs the graph of these pipes on these bytes.
fn assert_pipes<R: Abort + Threads + Wait + Sync>(
    rt: &R,
    alloc: Global,
    pipes: &[&'static str],
    given: &[u8],
    wanted: Ran,
) -> Result<(), Fail> {
    let mut depot = pipes_depot(alloc, pipes, given)?;
    assert_ran(rt, alloc, &mut depot, wanted)
}

/// Blocks of two bytes that become frames.
const INTO_FRAMES: [&str; 2] = [
    "name = 'in', kind = 'source', path = 'i', block = 2",
    "name = 'out', kind = 'sink', input = 'in', path = 'o', form = 'framed'",
];

/// Frames whose bytes are written.
const OUT_OF_FRAMES: [&str; 2] = [
    "name = 'in', kind = 'source', path = 'i', form = 'framed'",
    "name = 'out', kind = 'sink', input = 'in', path = 'o'",
];

#[test]
fn blocks_are_written_as_frames_however_reads_and_writes_are_cut(
    rt: HostRuntime,
) -> Result<(), Fail> {
    let alloc = rt.alloc();
    assert_pipes(&rt, alloc, &INTO_FRAMES, b"abc", whole(&AB_AND_C))?;
    let mut depot = pipes_depot(alloc, &INTO_FRAMES, b"abc")?;
    depot.cut(1);
    assert_ran(&rt, alloc, &mut depot, whole(&AB_AND_C))
}

#[test]
fn packets_of_frames_are_written_however_reads_and_writes_are_cut(
    rt: HostRuntime,
) -> Result<(), Fail> {
    let alloc = rt.alloc();
    assert_pipes(&rt, alloc, &OUT_OF_FRAMES, &AB_AND_C, whole(b"abc"))?;
    let mut depot = pipes_depot(alloc, &OUT_OF_FRAMES, &AB_AND_C)?;
    depot.cut(1);
    assert_ran(&rt, alloc, &mut depot, whole(b"abc"))
}

#[test]
fn of_no_bytes_no_frame_is_written(rt: HostRuntime) -> Result<(), Fail> {
    let alloc = rt.alloc();
    let pipes = [
        "name = 'in', kind = 'source', path = 'i'",
        "name = 'both', kind = 'dup', input = 'in'",
        "name = 'out', kind = 'sink', input = 'both', path = 'o'",
        "name = 'out2', kind = 'sink', input = 'both', path = 'p', form = 'framed'",
    ];
    let mut depot = pipes_depot(alloc, &pipes, b"")?;
    assert_ran(&rt, alloc, &mut depot, whole(b""))?;
    assert_holds(&rt, &depot, "p", b"");
    Ok(())
}

/// The frames of packets of two, three and four bytes.
const TWO_THREE_AND_FOUR: [u8; 33] = [
    0x46, 1, 0, 0, 0, 0, 0, 2, 0x61, 0x62, 0x46, 1, 0, 0, 0, 0, 0, 3, 0x61, 0x62, 0x63, 0x46, 1, 0,
    0, 0, 0, 0, 4, 0x61, 0x62, 0x63, 0x64,
];

/// The frames of a packet without bytes, and of one of the byte `d`.
const NONE_AND_ONE: [u8; 17] = [0x46, 1, 0, 0, 0, 0, 0, 0, 0x46, 1, 0, 0, 0, 0, 0, 1, 0x64];

#[test]
fn a_packet_without_bytes_has_a_frame_and_a_dropped_one_has_none(
    rt: HostRuntime,
) -> Result<(), Fail> {
    let pipes = [
        "name = 'in', kind = 'source', path = 'i', form = 'framed'",
        "name = 'mid', kind = 'skip', bytes = 3, input = 'in'",
        "name = 'out', kind = 'sink', input = 'mid', path = 'o', form = 'framed'",
    ];
    assert_pipes(
        &rt,
        rt.alloc(),
        &pipes,
        &TWO_THREE_AND_FOUR,
        whole(&NONE_AND_ONE),
    )
}

/// The frame of `hi`, whose attribute `x` is the number 7.
const HI_WITH_SEVEN: [u8; 25] = [
    0x46, 1, 0, 1, 0, 0, 0, 2, 1, 0x78, 3, 0, 0, 0, 8, 0, 0, 0, 0, 0, 0, 0, 7, 0x68, 0x69,
];

#[test]
fn an_attribute_that_is_set_stands_in_the_frame(rt: HostRuntime) -> Result<(), Fail> {
    let pipes = [
        "name = 'in', kind = 'source', path = 'i'",
        "name = 'mid', kind = 'setattr', attr = 'x', value = 7, input = 'in'",
        "name = 'out', kind = 'sink', input = 'mid', path = 'o', form = 'framed'",
    ];
    assert_pipes(&rt, rt.alloc(), &pipes, b"hi", whole(&HI_WITH_SEVEN))
}

/// The frame of `ab`, whose attribute `date.sys` is the number 0.
const AB_AT_ZERO: [u8; 32] = [
    0x46, 1, 0, 1, 0, 0, 0, 2, 8, 0x64, 0x61, 0x74, 0x65, 46, 0x73, 0x79, 0x73, 3, 0, 0, 0, 8, 0,
    0, 0, 0, 0, 0, 0, 0, 0x61, 0x62,
];

#[test]
fn a_date_below_zero_is_gone(rt: HostRuntime) -> Result<(), Fail> {
    let pipes = [
        "name = 'in', kind = 'source', path = 'i', form = 'framed'",
        "name = 'mid', kind = 'delay', by = -1, input = 'in'",
        "name = 'out', kind = 'sink', input = 'mid', path = 'o', form = 'framed'",
    ];
    assert_pipes(&rt, rt.alloc(), &pipes, &AB_AT_ZERO, whole(&AB))
}

/// The frame of the packet `z` with 64 attributes: those of the first so many names from `n10` on, which are void, and then
/// the name `x` with these bytes for its type and its value.
fn crowded(alloc: Global, names: u8, x: &[u8]) -> Result<Vec<u8>, Fail> {
    let mut bytes = Vec::new(alloc);
    bytes.extend_from_slice(&[0x46, 1, 0, 64, 0, 0, 0, 1])?;
    for number in 0..names {
        let tens = b'1'.saturating_add(number / 10);
        bytes.extend_from_slice(&[3, b'n', tens, b'0' + number % 10, 1, 0, 0, 0, 0])?;
    }
    bytes.extend_from_slice(x)?;
    bytes.push(b'z')?;
    Ok(bytes)
}

#[test]
fn a_65th_attribute_drops_its_packet_and_one_of_64_is_replaced(
    rt: HostRuntime,
) -> Result<(), Fail> {
    let alloc = rt.alloc();
    let pipes = [
        "name = 'in', kind = 'source', path = 'i', form = 'framed'",
        "name = 'mid', kind = 'setattr', attr = 'x', value = 7, input = 'in'",
        "name = 'out', kind = 'sink', input = 'mid', path = 'o', form = 'framed'",
    ];
    let full = crowded(alloc, 64, &[])?;
    assert_pipes(&rt, alloc, &pipes, &full, whole(b""))?;
    let flag = crowded(alloc, 63, &[1, b'x', 2, 0, 0, 0, 1, 1])?;
    let seven = crowded(alloc, 63, &[1, b'x', 3, 0, 0, 0, 8, 0, 0, 0, 0, 0, 0, 0, 7])?;
    let mut depot = pipes_depot(alloc, &pipes, &flag)?;
    assert_eq!(rt; status_of(&rt, alloc, &RUN, &mut depot)?, 0);
    assert_holds(&rt, &depot, "o", &seven);
    Ok(())
}

#[test]
fn a_bad_frame_is_told_with_its_offset_behind_the_whole_ones(rt: HostRuntime) -> Result<(), Fail> {
    let alloc = rt.alloc();
    let wanted = Ran {
        status: 6,
        line: "upipe: bad frame: pipe in offset 10\n",
        left: b"ab",
    };
    for given in [AB_AND_A_REST.as_slice(), AB_AND_BROKEN.as_slice()] {
        assert_pipes(&rt, alloc, &OUT_OF_FRAMES, given, wanted)?;
        let mut depot = pipes_depot(alloc, &OUT_OF_FRAMES, given)?;
        depot.cut(1);
        assert_ran(&rt, alloc, &mut depot, wanted)?;
        assert_eq!(rt; (depot.source_faults(), depot.sink_faults()), (0, 0));
    }
    Ok(())
}

/// Runs frames through to the sink where the source has this limit.
fn assert_limited<R: Abort + Threads + Wait + Sync>(
    rt: &R,
    alloc: Global,
    limit: u8,
    given: &[u8],
    wanted: Ran,
) -> Result<(), Fail> {
    let text = format!(in alloc;
        "version = 1\npipe = [{{name = 'in', kind = 'source', path = 'i', form = 'framed', limit = {limit}}},\n\
         {{name = 'out', kind = 'sink', input = 'in', path = 'o'}}]\n"
    )?;
    let mut depot = depot_of(alloc, text.as_bytes())?;
    depot.hold("i", given)?;
    assert_ran(rt, alloc, &mut depot, wanted)
}

#[test]
fn a_frame_that_is_broken_within_the_limit_is_told_before_it(rt: HostRuntime) -> Result<(), Fail> {
    let alloc = rt.alloc();
    let broken = Ran {
        status: 6,
        line: "upipe: bad frame: pipe in offset 10\n",
        left: b"ab",
    };
    assert_limited(&rt, alloc, 12, &AB_AND_BROKEN, broken)?;
    let long = Ran {
        status: 8,
        line: "upipe: too long: pipe in limit 11\n",
        left: b"ab",
    };
    assert_limited(&rt, alloc, 11, &AB_AND_BROKEN, long)
}

#[test]
fn a_limit_that_cuts_a_frame_leaves_those_before_it(rt: HostRuntime) -> Result<(), Fail> {
    let alloc = rt.alloc();
    let cases = [
        (9, "upipe: too long: pipe in limit 9\n", b"".as_slice()),
        (10, "upipe: too long: pipe in limit 10\n", b"ab".as_slice()),
        (18, "upipe: too long: pipe in limit 18\n", b"ab".as_slice()),
    ];
    for (limit, line, left) in cases {
        let long = Ran {
            status: 8,
            line,
            left,
        };
        assert_limited(&rt, alloc, limit, &AB_AND_C, long)?;
    }
    assert_limited(&rt, alloc, 19, &AB_AND_C, whole(b"abc"))
}

#[test]
fn of_frames_past_their_limit_one_byte_more_is_read(rt: HostRuntime) -> Result<(), Fail> {
    let alloc = rt.alloc();
    let pipes = [
        "name = 'in', kind = 'source', path = 'i', form = 'framed', limit = 12",
        "name = 'out', kind = 'sink', input = 'in', path = 'o'",
    ];
    let mut depot = pipes_depot(alloc, &pipes, &AB_AND_C)?;
    let long = Ran {
        status: 8,
        line: "upipe: too long: pipe in limit 12\n",
        left: b"ab",
    };
    assert_ran(&rt, alloc, &mut depot, long)?;
    let closed = Mark::Closed {
        moved: 13,
        failed: false,
        shut: true,
    };
    let read = depot.asked().get(1).map(|entry| entry.mark);
    assert_eq!(rt; read, Some(closed));
    Ok(())
}

#[test]
fn a_read_that_fails_leaves_the_frames_before_it(rt: HostRuntime) -> Result<(), Fail> {
    let alloc = rt.alloc();
    for (nth, left) in [(10, b"".as_slice()), (11, b"ab"), (19, b"ab"), (20, b"abc")] {
        let mut depot = pipes_depot(alloc, &OUT_OF_FRAMES, &AB_AND_C)?;
        depot.cut(1);
        depot.fail(DepotCall::Read, "i", nth)?;
        let wanted = Ran {
            status: 4,
            line: "upipe: read fault: pipe in\n",
            left,
        };
        assert_ran(&rt, alloc, &mut depot, wanted)?;
        assert_eq!(rt; (depot.source_faults(), depot.sink_faults()), (1, 0));
    }
    Ok(())
}

/// Two sources, each with a sink of its own. Frames are read by the first.
const TWO: [&str; 4] = [
    "name = 'in', kind = 'source', path = 'i', form = 'framed'",
    "name = 'out', kind = 'sink', input = 'in', path = 'o'",
    "name = 'in2', kind = 'source', path = 'j', limit = 3",
    "name = 'out2', kind = 'sink', input = 'in2', path = 'p', form = 'framed'",
];

/// The frame of `xyz`.
const XYZ: [u8; 11] = [0x46, 1, 0, 0, 0, 0, 0, 3, 0x78, 0x79, 0x7a];

#[test]
fn a_branch_with_a_bad_frame_leaves_the_other_whole(rt: HostRuntime) -> Result<(), Fail> {
    let alloc = rt.alloc();
    let wanted = Ran {
        status: 6,
        line: "upipe: bad frame: pipe in offset 10\n",
        left: b"ab",
    };
    for first in 0..4 {
        let text = pipes_text(alloc, &TWO, first, 1)?;
        let mut depot = depot_of(alloc, text.as_bytes())?;
        depot.hold("i", &AB_AND_A_REST)?;
        depot.hold("j", b"xyz")?;
        assert_ran(&rt, alloc, &mut depot, wanted)?;
        assert_holds(&rt, &depot, "p", &XYZ);
    }
    Ok(())
}

#[test]
fn of_a_bad_frame_and_a_source_past_its_limit_the_first_in_the_file_is_told(
    rt: HostRuntime,
) -> Result<(), Fail> {
    let alloc = rt.alloc();
    let bad = Ran {
        status: 6,
        line: "upipe: bad frame: pipe in offset 10\n",
        left: b"ab",
    };
    let long = Ran {
        status: 8,
        line: "upipe: too long: pipe in2 limit 3\n",
        left: b"ab",
    };
    for (first, wanted) in [(0, bad), (1, long), (2, long), (3, bad)] {
        let text = pipes_text(alloc, &TWO, first, 1)?;
        let mut depot = depot_of(alloc, text.as_bytes())?;
        depot.hold("i", &AB_AND_BROKEN)?;
        depot.hold("j", b"wxyz")?;
        assert_ran(&rt, alloc, &mut depot, wanted)?;
        assert_holds(&rt, &depot, "p", b"");
    }
    Ok(())
}
