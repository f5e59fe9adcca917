ghost use Rattle.std.specs.Prelude.{◌<◌, length};

use crate::test_calls::{
    assert_same, assert_that, many, opens_sink, opens_source, read_once, refuses_source, write_once,
};
use crate::{Depot, DepotCall, Entry, Mark, MemDepot, MemSink, Side, Source};
use std::process::Abort;
use up_base::Refusal;

/// The entry is the wanted one.
fn assert_entry(rt: &impl Abort, entry: &Entry, wanted: &(&str, Side, Mark)) {
    assert_same(rt, entry.path.as_str(), wanted.0);
    assert_same(rt, (entry.side, entry.mark), (wanted.1, wanted.2));
}

/// These opens were asked of the depot, in this order.
fn assert_asked(rt: &impl Abort, depot: &MemDepot, wanted: &[(&str, Side, Mark)]) {
    assert_same(rt, depot.asked().len(), wanted.len());
    for (entry, wanted) in depot.asked().iter().zip(wanted) {
        assert_entry(rt, entry, wanted);
    }
}

#[test]
fn a_path_is_a_counted_fault_until_it_is_held(rt: HostRuntime) {
    let mut depot = MemDepot::new(rt.alloc());
    assert_same(&rt, depot.bytes("q"), None);
    assert_that(&rt, refuses_source(&mut depot, "q"));
    depot.hold("q", b"abc").expect(&rt, "no memory");
    assert_that(&rt, opens_source(&mut depot, "q"));
    assert_that(&rt, opens_sink(&mut depot, "r"));
    assert_same(&rt, (depot.source_faults(), depot.sink_faults()), (1, 0));
    let asked = [
        ("q", Side::Source, Mark::Refused),
        ("q", Side::Source, Mark::Open),
        ("r", Side::Sink, Mark::Open),
    ];
    assert_asked(&rt, &depot, &asked);
}

#[test]
fn a_source_gives_the_bytes_that_were_held_last(rt: HostRuntime) {
    let mut depot = MemDepot::new(rt.alloc());
    depot.hold("q", b"old").expect(&rt, "no memory");
    depot.hold("q", b"abcdef").expect(&rt, "no memory");
    assert_same(&rt, depot.bytes("q"), Some(b"abcdef".as_slice()));
    let mut source = depot.open_source("q").expect(&rt, "no source");
    let mut room = [0; 4];
    for (count, after) in [(4, b"abcd"), (2, b"efcd"), (0, b"efcd")] {
        assert_same(&rt, source.read(&mut room), Ok(count));
        assert_same(&rt, &room, after);
    }
}

#[test]
fn a_close_marks_the_entry_with_what_was_moved(rt: HostRuntime) {
    let mut depot = MemDepot::new(rt.alloc());
    depot.hold("q", b"abc").expect(&rt, "no memory");
    let mut source = depot.open_source("q").expect(&rt, "no source");
    assert_same(&rt, read_once(&mut source, &mut [0; 4]), Ok(3));
    depot.close_source(source);
    let closed = Mark::Closed {
        moved: 3,
        failed: false,
        shut: true,
    };
    assert_same(
        &rt,
        depot.asked().first().map(|entry| entry.mark),
        Some(closed),
    );
    assert_same(&rt, depot.source_faults(), 0);
}

/// Writes once to the sink at the path, which is opened for it and closed.
fn written(
    rt: &impl Abort,
    depot: &mut MemDepot,
    path: &str,
    piece: &[u8],
) -> Result<usize, Refusal>
    requires { 0 < length piece.now }
{
    let mut sink = depot.open_sink(path).expect(rt, "no sink");
    let count = write_once(&mut sink, piece);
    depot.close_sink(path, sink).expect(rt, "no memory");
    count
}

/// A write to the sink at `s` fails, which is counted at its close.
fn assert_told_at_close(rt: &impl Abort, depot: &mut MemDepot) {
    let mut sink = depot.open_sink("s").expect(rt, "no sink");
    assert_same(rt, write_once(&mut sink, b"ab"), Err(Refusal::Failed));
    assert_same(rt, (depot.source_faults(), depot.sink_faults()), (1, 0));
    depot.close_sink("s", sink).expect(rt, "no memory");
    assert_same(rt, (depot.source_faults(), depot.sink_faults()), (1, 1));
}

#[test]
fn a_depot_keeps_what_is_written_and_fails_what_it_is_told(rt: HostRuntime) {
    let mut depot = MemDepot::new(rt.alloc());
    assert_that(&rt, refuses_source(&mut depot, "q"));
    assert_same(&rt, depot.source_faults(), 1);
    depot.hold("q", b"abc").expect(&rt, "no memory");
    assert_that(&rt, opens_source(&mut depot, "q"));
    assert_same(&rt, written(&rt, &mut depot, "r", b"ab"), Ok(2));
    assert_same(&rt, depot.bytes("r"), Some(b"ab".as_slice()));
    depot
        .fail(DepotCall::Write, "s", 1)
        .expect(&rt, "no memory");
    assert_told_at_close(&rt, &mut depot);
}

/// Of each of two writes to the sink at `r` one byte is taken.
fn assert_cut_writes(rt: &impl Abort, depot: &mut MemDepot) {
    let mut sink = depot.open_sink("r").expect(rt, "no sink");
    assert_same(rt, write_once(&mut sink, b"ab"), Ok(1));
    assert_same(rt, write_once(&mut sink, b"cd"), Ok(1));
    depot.close_sink("r", sink).expect(rt, "no memory");
}

#[test]
fn a_depot_that_is_cut_moves_a_byte_at_a_time(rt: HostRuntime) {
    let mut depot = MemDepot::new(rt.alloc());
    depot.hold("q", b"xy").expect(&rt, "no memory");
    depot.cut(1);
    let mut source = depot.open_source("q").expect(&rt, "no source");
    let mut room = [0; 4];
    for (count, front) in [(1, b'x'), (1, b'y'), (0, b'y')] {
        assert_same(&rt, source.read(&mut room), Ok(count));
        assert_same(&rt, room[0], front);
    }
    assert_cut_writes(&rt, &mut depot);
    assert_same(&rt, depot.bytes("r"), Some(b"ac".as_slice()));
}

#[test]
fn long_paths_and_long_files_are_moved_whole(rt: HostRuntime) {
    let alloc = rt.alloc();
    let from = "a path of more than 64 bytes, from which seventy thousand bytes are read";
    let to = "a path of more than 64 bytes, to which seventy thousand bytes are written";
    let bytes = many(alloc, 7).expect(&rt, "no memory");
    let mut room = many(alloc, 0).expect(&rt, "no memory");
    let mut depot = MemDepot::new(alloc);
    depot.hold(from, &bytes).expect(&rt, "no memory");
    let mut source = depot.open_source(from).expect(&rt, "no source");
    assert_same(&rt, read_once(&mut source, &mut room), Ok(70_000));
    assert_same(&rt, room.as_slice(), bytes.as_slice());
    assert_same(&rt, written(&rt, &mut depot, to, &bytes), Ok(70_000));
    assert_same(&rt, depot.bytes(to), Some(bytes.as_slice()));
}

#[test]
fn a_sink_that_no_depot_made_keeps_what_it_is_given(rt: HostRuntime) {
    let mut sink = MemSink::new(rt.alloc());
    assert_same(&rt, write_once(&mut sink, b"ab"), Ok(2));
    assert_same(&rt, write_once(&mut sink, b"cd"), Ok(2));
    assert_same(&rt, sink.bytes(), b"abcd".as_slice());
}
