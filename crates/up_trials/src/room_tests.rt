// Sources for whose packets there is no room: the room is taken before the first byte is read.
use crate::graph_runs::{assert_asked, assert_held, closed};
use crate::left::run_rows;
use crate::lent_packet::{LentPacket, LentStore};
use crate::row::{CAPTURE, Does, Row, pipe_row};
use crate::split::Split;
use std::process::Abort;
use std::test::Fail;
use up_engine::{RunOutcome, run_one_thread};
use up_model::Outcome;
use up_outside::{MemDepot, MemSource, Side, Source};

fn source_and_sink() -> [Row; 2] {
    [
        pipe_row(CAPTURE, "one", None),
        pipe_row(Does::Sink, "one", Some(0)),
    ]
}

/// With so many rooms this is written, and this is left. The read of the end takes the fourth.
const ROOMS: [(usize, &[u8], &[u8]); 5] = [
    (0, b"", b"abcdefghi"),
    (1, b"abc", b"defghi"),
    (2, b"abcdef", b"ghi"),
    (3, b"abcdefghi", b""),
    (4, b"abcdefghi", b""),
];

/// These bytes are left to be read.
fn assert_rest(rt: &impl Abort, source: &mut MemSource, rest: &[u8]) {
    let mut room = [0; 16];
    let count = source.read(&mut room).expect(rt, "a read fails");
    assert_eq!(rt; room[..count.min(16)], *rest);
}

#[test]
fn nothing_is_read_where_a_room_is_refused(rt: HostRuntime) -> Result<(), Fail> {
    let alloc = rt.alloc();
    let owner = String::from_str(alloc, "owner")?;
    for (rooms, written, rest) in ROOMS {
        let s = &mut LentStore::with_rooms(alloc, &owner, rooms);
        let (mut depot, mut sent) = (MemDepot::new(alloc), Vec::new(alloc));
        depot.hold("pipe0", b"abcdefghi")?;
        let rows = source_and_sink();
        let left = run_rows::<LentPacket<'_>>(&rt, alloc, &rows, &mut depot, &mut sent, s)?;
        let outcome = if rooms < 4 {
            Outcome::NoMemory
        } else {
            Outcome::Whole
        };
        left.assert_ends(&rt, &[written], &[outcome; 2]);
        let mut source = left.source.expect(&rt, "no source");
        assert_rest(&rt, &mut source, rest);
    }
    Ok(())
}

#[test]
fn a_run_that_is_refused_a_room_reads_nothing_more(rt: HostRuntime) -> Result<(), Fail> {
    let alloc = rt.alloc();
    let owner = String::from_str(alloc, "owner")?;
    let split = Split::of(&rt, alloc, &source_and_sink())?;
    for (rooms, written, _) in ROOMS {
        let s = &mut LentStore::with_rooms(alloc, &owner, rooms);
        let mut depot = MemDepot::new(alloc);
        depot.hold("pipe0", b"abcdefghi")?;
        match run_one_thread::<LentPacket<'_>, MemDepot>(alloc, &split.graph, &mut depot, s) {
            RunOutcome::Ended { .. } => assert!(rt; rooms >= 4),
            RunOutcome::NoMemory => assert!(rt; rooms < 4),
        }
        let moved = written.len() as u64;
        let asked = [
            ("pipe0", Side::Source, closed(moved)),
            ("pipe1", Side::Sink, closed(moved)),
        ];
        assert_asked(&rt, &depot, &asked);
        assert_held(&rt, &depot, &[("pipe1", written)]);
    }
    Ok(())
}
