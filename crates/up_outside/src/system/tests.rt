ghost use Rattle.std.specs.Prelude.{◌<◌, length};

use crate::test_calls::{assert_same, assert_that, many, read_once, write_once};
use crate::{Depot, FileDepot, ReaderSource, StdErr, StdOut, WriterSink};
use std::fs::{self, File};
use std::io::{self, ErrorKind, Read, Write};
use std::process::Abort;
use std::rt::Files;
use up_base::{Failed, Refusal};

/// A stream of which the first call fails, and each other one does all that it is asked for.
#[derive(Drop)]
struct FailsOnce {
    kind: ErrorKind,
    called: bool,
}

impl FailsOnce {
    fn new(kind: ErrorKind) -> FailsOnce {
        FailsOnce {
            kind,
            called: false,
        }
    }

    fn call(&mut self) -> io::Result<()> {
        if self.called {
            return Ok(());
        }
        self.called = true;
        Err(self.kind.into())
    }
}

impl Read for FailsOnce {
    fn read(&mut self, buf: &mut [u8]) -> io::Result<usize> {
        self.call()?;
        buf.fill(b'x');
        Ok(buf.len())
    }
}

impl Write for FailsOnce {
    fn write(&mut self, buf: &[u8]) -> io::Result<usize> {
        self.call()?;
        Ok(buf.len())
    }

    fn flush(&mut self) -> io::Result<()> {
        Ok(())
    }
}

#[test]
fn a_read_that_fails_once_is_not_tried_again(rt: HostRuntime) {
    for kind in [ErrorKind::Interrupted, ErrorKind::Other] {
        let mut source = ReaderSource::new(FailsOnce::new(kind));
        let mut room = [0; 4];
        assert_same(&rt, read_once(&mut source, &mut room), Err(Failed));
        assert_same(&rt, source.faults(), 1);
        assert_same(&rt, read_once(&mut source, &mut room), Ok(4));
        assert_same(&rt, &room, b"xxxx");
        assert_same(&rt, source.faults(), 1);
    }
}

#[test]
fn a_write_that_fails_once_is_not_tried_again(rt: HostRuntime) {
    for kind in [ErrorKind::Interrupted, ErrorKind::Other] {
        let mut sink = WriterSink::new(FailsOnce::new(kind));
        assert_same(&rt, write_once(&mut sink, b"abcd"), Err(Refusal::Failed));
        assert_same(&rt, sink.faults(), 1);
        assert_same(&rt, write_once(&mut sink, b"abcd"), Ok(4));
        assert_same(&rt, sink.faults(), 1);
    }
}

#[test]
fn a_fault_of_a_stream_is_counted_at_its_close(rt: HostRuntime) {
    let mut depot = FileDepot::new(&rt);
    let mut folder = depot.open_source(".").expect(&rt, "no source");
    assert_same(&rt, read_once(&mut folder, &mut [0; 4]), Err(Failed));
    assert_same(&rt, depot.source_faults(), 0);
    depot.close_source(folder);
    assert_same(&rt, (depot.source_faults(), depot.sink_faults()), (1, 0));
    let mut full = depot.open_sink("/dev/full").expect(&rt, "no sink");
    assert_same(&rt, write_once(&mut full, b"ab"), Err(Refusal::Failed));
    assert_same(&rt, depot.sink_faults(), 0);
    depot.close_sink("/dev/full", full).expect(&rt, "no memory");
    assert_same(&rt, (depot.source_faults(), depot.sink_faults()), (1, 1));
}

/// Writes once to the file at the path, which is opened for it and closed.
fn write_file<R: Files<File = File>>(
    rt: &impl Abort,
    depot: &mut FileDepot<'_, R>,
    path: &str,
    piece: &[u8],
) -> Result<usize, Refusal>
    requires { 0 < length piece.now }
{
    let mut sink = depot.open_sink(path).expect(rt, "no sink");
    let count = write_once(&mut sink, piece);
    depot.close_sink(path, sink).expect(rt, "no memory");
    count
}

/// Reads once from the file at the path, which is opened for it and closed.
fn read_file<R: Files<File = File>>(
    rt: &impl Abort,
    depot: &mut FileDepot<'_, R>,
    path: &str,
    room: &mut [u8],
) -> Result<usize, Failed>
    requires { 0 < length room.old }
{
    let mut source = depot.open_source(path).expect(rt, "no source");
    let count = read_once(&mut source, room);
    depot.close_source(source);
    count
}

#[test]
fn an_old_file_is_gone_under_a_shorter_one(rt: HostRuntime) {
    let mut depot = FileDepot::new(&rt);
    for piece in [b"a long file".as_slice(), b"ab"] {
        let count = write_file(&rt, &mut depot, "written", piece);
        assert_same(&rt, count, Ok(piece.len()));
    }
    let mut source = depot.open_source("written").expect(&rt, "no source");
    let mut room = [0; 16];
    assert_same(&rt, read_once(&mut source, &mut room), Ok(2));
    assert_same(&rt, &room[..3], b"ab\0".as_slice());
    assert_same(&rt, read_once(&mut source, &mut room), Ok(0));
    depot.close_source(source);
    assert_same(&rt, (depot.source_faults(), depot.sink_faults()), (0, 0));
    fs::remove_file(&rt, "written").expect(&rt, "it is there");
}

#[test]
fn files_are_written_and_read_back(rt: HostRuntime) {
    let alloc = rt.alloc();
    let path = "a_file_of_seventy_thousand_bytes_with_a_name_of_more_than_sixty_four_bytes";
    let bytes = many(alloc, 7).expect(&rt, "no memory");
    let mut room = many(alloc, 0).expect(&rt, "no memory");
    let mut depot = FileDepot::new(&rt);
    let count = write_file(&rt, &mut depot, path, &bytes);
    assert_same(&rt, count, Ok(70_000));
    let count = read_file(&rt, &mut depot, path, &mut room);
    assert_same(&rt, count, Ok(70_000));
    assert_same(&rt, room.as_slice(), bytes.as_slice());
    fs::remove_file(&rt, path).expect(&rt, "it is there");
}

#[test]
fn what_a_system_refuses_is_a_counted_fault(rt: HostRuntime) {
    let mut depot = FileDepot::new(&rt);
    assert_that(
        &rt,
        matches!(depot.open_source("missing"), Err(Refusal::Failed)),
    );
    assert_same(&rt, (depot.source_faults(), depot.sink_faults()), (1, 0));
    assert_that(
        &rt,
        matches!(depot.open_sink("missing/written"), Err(Refusal::Failed)),
    );
    assert_same(&rt, (depot.source_faults(), depot.sink_faults()), (1, 1));
}

#[test]
fn the_standard_streams_take_what_their_writers_take(rt: HostRuntime) {
    let mut out = StdOut::new(rt.stdout());
    assert_same(&rt, write_once(&mut out, b"o\n"), Ok(2));
    let mut err = StdErr::new(rt.stderr());
    assert_same(&rt, write_once(&mut err, b"e\n"), Ok(2));
    assert_same(&rt, (out.faults(), err.faults()), (0, 0));
    let mut room = [0; 3];
    let mut full = StdOut::new(room.as_mut_slice());
    assert_same(&rt, write_once(&mut full, b"ab"), Ok(2));
    assert_same(&rt, write_once(&mut full, b"cd"), Ok(1));
    assert_same(&rt, write_once(&mut full, b"ef"), Err(Refusal::Failed));
    assert_same(&rt, full.faults(), 1);
}
