ghost use Rattle.std.specs.Prelude.{◌≡◌};

use crate::test_calls::{
    assert_same, assert_that, opens_sink, opens_source, read_once, refuses_sink, refuses_source,
    write_once,
};
use crate::{Depot, DepotCall, Mark, MemDepot, Source};
use std::alloc::Global;
use std::process::Abort;
use up_base::{Failed, Refusal};

/// Reads three times: which of the reads failed.
fn three_reads<S: Source>(source: &mut S) -> [bool; 3]
    ensures { (S.state source.new).place ≡ (S.state source.old).place }
{
    let mut room = [0; 1];
    let first = read_once(source, &mut room) == Err(Failed);
    let second = read_once(source, &mut room) == Err(Failed);
    let third = read_once(source, &mut room) == Err(Failed);
    [first, second, third]
}

/// Opens the source at the path, reads three times and closes it: which of the reads failed.
fn failing_reads(depot: &mut MemDepot, path: &str) -> Result<[bool; 3], Refusal> {
    let mut source = depot.open_source(path)?;
    let failed = three_reads(&mut source);
    depot.close_source(source);
    Ok(failed)
}

/// Opens the sink at the path, writes three times and closes it: which of the writes failed, and whether the close did.
fn failing_writes(depot: &mut MemDepot, path: &str) -> Result<([bool; 3], bool), Refusal> {
    let mut sink = depot.open_sink(path)?;
    let first = write_once(&mut sink, b"ab") == Err(Refusal::Failed);
    let second = write_once(&mut sink, b"ab") == Err(Refusal::Failed);
    let third = write_once(&mut sink, b"ab") == Err(Refusal::Failed);
    let closed = depot.close_sink(path, sink);
    Ok(([first, second, third], closed.is_err()))
}

/// A depot that holds `xyz` at the path `q`.
fn depot_of(rt: &impl Abort, alloc: Global) -> MemDepot {
    let mut depot = MemDepot::new(alloc);
    depot.hold("q", b"xyz").expect(rt, "no memory");
    depot
}

/// Whether an open of the source `q` and one of the sink `r` are refused.
fn refused_opens(depot: &mut MemDepot) -> (bool, bool) {
    let source = refuses_source(depot, "q");
    let sink = refuses_sink(depot, "r");
    (source, sink)
}

#[test]
fn the_nth_open_from_then_on_fails(rt: HostRuntime) {
    let mut depot = depot_of(&rt, rt.alloc());
    assert_that(&rt, opens_source(&mut depot, "q"));
    assert_that(&rt, opens_sink(&mut depot, "r"));
    depot
        .fail(DepotCall::OpenSource, "q", 2)
        .expect(&rt, "no memory");
    depot
        .fail(DepotCall::OpenSink, "r", 2)
        .expect(&rt, "no memory");
    assert_same(&rt, refused_opens(&mut depot), (false, false));
    assert_same(&rt, refused_opens(&mut depot), (true, true));
    assert_same(&rt, refused_opens(&mut depot), (false, false));
    assert_same(&rt, (depot.source_faults(), depot.sink_faults()), (1, 1));
    let refused = depot
        .asked()
        .iter()
        .filter(|entry| entry.mark == Mark::Refused);
    assert_same(&rt, refused.count(), 2);
}

#[test]
fn a_refused_open_leaves_what_was_held(rt: HostRuntime) {
    let mut depot = depot_of(&rt, rt.alloc());
    depot
        .fail(DepotCall::OpenSink, "q", 1)
        .expect(&rt, "no memory");
    assert_that(&rt, refuses_sink(&mut depot, "q"));
    assert_same(&rt, depot.bytes("q"), Some(b"xyz".as_slice()));
}

#[test]
fn reads_are_counted_on_each_object(rt: HostRuntime) {
    let mut depot = depot_of(&rt, rt.alloc());
    depot.hold("p", b"xyz").expect(&rt, "no memory");
    assert_same(&rt, failing_reads(&mut depot, "q"), Ok([false; 3]));
    depot.fail(DepotCall::Read, "q", 2).expect(&rt, "no memory");
    depot
        .fail(DepotCall::Write, "q", 1)
        .expect(&rt, "no memory");
    assert_same(
        &rt,
        failing_reads(&mut depot, "q"),
        Ok([false, true, false]),
    );
    assert_same(&rt, failing_reads(&mut depot, "p"), Ok([false; 3]));
    depot.fail(DepotCall::Read, "q", 3).expect(&rt, "no memory");
    assert_same(&rt, failing_reads(&mut depot, "q"), Ok([false, true, true]));
    assert_same(&rt, (depot.source_faults(), depot.sink_faults()), (2, 0));
    let closed = Mark::Closed {
        moved: 1,
        failed: true,
        shut: true,
    };
    assert_same(
        &rt,
        depot.asked().last().map(|entry| entry.mark),
        Some(closed),
    );
}

#[test]
fn what_a_sink_took_beside_a_failing_write_is_kept(rt: HostRuntime) {
    let mut depot = depot_of(&rt, rt.alloc());
    assert_same(
        &rt,
        failing_writes(&mut depot, "r"),
        Ok(([false; 3], false)),
    );
    assert_same(&rt, depot.bytes("r"), Some(b"ababab".as_slice()));
    depot
        .fail(DepotCall::Write, "s", 1)
        .expect(&rt, "no memory");
    assert_same(
        &rt,
        failing_writes(&mut depot, "s"),
        Ok(([true, false, false], false)),
    );
    assert_same(&rt, depot.bytes("s"), Some(b"abab".as_slice()));
    assert_same(
        &rt,
        failing_writes(&mut depot, "r"),
        Ok(([false; 3], false)),
    );
    assert_same(&rt, (depot.source_faults(), depot.sink_faults()), (0, 1));
}

#[test]
fn a_refused_close_leaves_the_path_empty(rt: HostRuntime) {
    let mut depot = depot_of(&rt, rt.alloc());
    depot
        .fail(DepotCall::CloseSink, "q", 2)
        .expect(&rt, "no memory");
    let closes = [
        (false, b"ababab".as_slice(), 0),
        (true, b"", 1),
        (false, b"ababab", 1),
    ];
    for (refused, left, faults) in closes {
        assert_same(
            &rt,
            failing_writes(&mut depot, "q"),
            Ok(([false; 3], refused)),
        );
        assert_same(&rt, depot.bytes("q"), Some(left));
        assert_same(&rt, depot.sink_faults(), faults);
        let closed = Mark::Closed {
            moved: 6,
            failed: refused,
            shut: !refused,
        };
        assert_same(
            &rt,
            depot.asked().last().map(|entry| entry.mark),
            Some(closed),
        );
    }
}
