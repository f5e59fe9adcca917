// Runs in which one call on the outside fails.
ghost use Rattle.std.specs.Prelude.{◌<◌};

use crate::tests::{RUN, chain_text, depot_of, numbered_bytes, told_status_of};
use std::alloc::Global;
use std::process::Abort;
use std::sync::Wait;
use std::test::Fail;
use std::thread::Threads;
use up_outside::{DepotCall, Mark, MemDepot, MemSink};

/// What a run tells where a call on the path fails.
struct Case {
    call: DepotCall,
    path: &'static str,
    /// How many such calls a run makes in which none fails.
    count: u32,
    status: u8,
    line: &'static str,
}

/// The calls of a run of two idle pipes over 10,000 bytes of which each call moves at most 3,000. The source is read as
/// 3,000, 1,096, 3,000, 1,096, 1,808 and no bytes, and the sink is written in the same pieces.
const CASES: [Case; 7] = [
    Case {
        call: DepotCall::OpenSource,
        path: "g.toml",
        count: 1,
        status: 4,
        line: "upipe: read fault: graph\n",
    },
    Case {
        call: DepotCall::Read,
        path: "g.toml",
        count: 2,
        status: 4,
        line: "upipe: read fault: graph\n",
    },
    Case {
        call: DepotCall::OpenSource,
        path: "i",
        count: 1,
        status: 4,
        line: "upipe: read fault: pipe in\n",
    },
    Case {
        call: DepotCall::Read,
        path: "i",
        count: 6,
        status: 4,
        line: "upipe: read fault: pipe in\n",
    },
    Case {
        call: DepotCall::OpenSink,
        path: "o",
        count: 1,
        status: 5,
        line: "upipe: write fault: pipe out\n",
    },
    Case {
        call: DepotCall::Write,
        path: "o",
        count: 5,
        status: 5,
        line: "upipe: write fault: pipe out\n",
    },
    Case {
        call: DepotCall::CloseSink,
        path: "o",
        count: 1,
        status: 5,
        line: "upipe: write fault: pipe out\n",
    },
];

/// How many bytes of the source the sink then holds, where it was opened and the close wasn't refused: the whole blocks
/// of 4,096 bytes that were read before the nth read, or the pieces that were written before the nth write.
fn kept_bytes(call: DepotCall, path: &str, nth: u32) -> Option<usize> {
    match (call, path, nth) {
        (DepotCall::Read, "i", 1 | 2) => Some(0),
        (DepotCall::Read, "i", 3 | 4) => Some(4_096),
        (DepotCall::Read, "i", _) => Some(8_192),
        (DepotCall::Write, _, 1) => Some(0),
        (DepotCall::Write, _, 2) => Some(3_000),
        (DepotCall::Write, _, 3) => Some(4_096),
        (DepotCall::Write, _, 4) => Some(7_096),
        (DepotCall::Write, _, _) => Some(8_192),
        _ => None,
    }
}

/// A depot for the cases. The sink's path holds `old`.
fn case_depot(alloc: Global, bytes: &[u8]) -> Result<MemDepot, Fail> {
    let text = chain_text(alloc, &["first", "second"], "")?;
    let mut depot = depot_of(alloc, text.as_bytes())?;
    depot.hold("i", bytes)?;
    depot.hold("o", b"old")?;
    depot.cut(3_000);
    Ok(depot)
}

/// What a run of the graph at `g.toml` answers and tells, and the counts of the depot's sources and sinks.
fn told_run<R: Abort + Threads + Wait + Sync>(
    rt: &R,
    alloc: Global,
    depot: &mut MemDepot,
) -> Result<(u8, MemSink, (u64, u64)), Fail> {
    let mut err = MemSink::new(alloc);
    let status = told_status_of(rt, alloc, &RUN, depot, &mut err)?;
    Ok((status, err, (depot.source_faults(), depot.sink_faults())))
}

/// Runs a case at its nth call, which is one that a run makes.
fn assert_told<R: Abort + Threads + Wait + Sync>(
    rt: &R,
    alloc: Global,
    bytes: &[u8],
    case: &Case,
    nth: u32,
) -> Result<(), Fail>
    requires { 0 < nth }
{
    let Case { call, path, .. } = *case;
    let mut depot = case_depot(alloc, bytes)?;
    depot.fail(call, path, nth)?;
    let (status, err, faults) = told_run(rt, alloc, &mut depot)?;
    assert_eq!(rt; status, case.status, "{call:?} {path} {nth}");
    assert_eq!(rt; err.bytes(), case.line.as_bytes(), "{call:?} {path} {nth}");
    let counted = if status == 4 { (1, 0) } else { (0, 1) };
    assert_eq!(rt; faults, counted, "{call:?} {path} {nth}");
    assert_eq!(rt; depot.bytes("i"), Some(bytes), "{call:?} {path} {nth}");
    if call != DepotCall::CloseSink {
        let kept = match kept_bytes(call, path, nth) {
            Some(count) => bytes.get(..count),
            None => Some(b"old".as_slice()),
        };
        assert_eq!(rt; depot.bytes("o"), kept, "{call:?} {path} {nth}");
    }
    Ok(())
}

/// Runs a case at a call that no run makes.
fn assert_whole<R: Abort + Threads + Wait + Sync>(
    rt: &R,
    alloc: Global,
    bytes: &[u8],
    case: &Case,
) -> Result<(), Fail> {
    let Case { call, path, .. } = *case;
    let mut depot = case_depot(alloc, bytes)?;
    depot.fail(call, path, case.count.saturating_add(1))?;
    let (status, err, faults) = told_run(rt, alloc, &mut depot)?;
    assert_eq!(rt; (status, faults), (0, (0, 0)), "{call:?} {path}");
    assert!(rt; err.bytes().is_empty(), "{call:?} {path}");
    assert_eq!(rt; depot.bytes("o"), Some(bytes), "{call:?} {path}");
    Ok(())
}

#[test]
fn each_call_that_fails_is_told_with_what_was_whole_before_it(rt: HostRuntime) -> Result<(), Fail> {
    let alloc = rt.alloc();
    let bytes = numbered_bytes(alloc, 10_000)?;
    for case in &CASES {
        for nth in 1..=case.count {
            assert_told(&rt, alloc, &bytes, case, nth)?;
        }
        assert_whole(&rt, alloc, &bytes, case)?;
    }
    Ok(())
}

#[test]
fn after_a_refused_open_nothing_is_left_open(rt: HostRuntime) -> Result<(), Fail> {
    let alloc = rt.alloc();
    let opens = [
        (DepotCall::OpenSource, "g.toml", 4, 1),
        (DepotCall::OpenSource, "i", 4, 2),
        (DepotCall::OpenSink, "o", 5, 3),
    ];
    for (call, path, answered, count) in opens {
        let mut depot = case_depot(alloc, b"abc")?;
        depot.fail(call, path, 1)?;
        let (status, _, _) = told_run(&rt, alloc, &mut depot)?;
        assert_eq!(rt; status, answered, "{path}");
        let asked = depot.asked();
        assert_eq!(rt; asked.len(), count, "{path}");
        assert!(rt;
            asked.iter().all(|entry| entry.mark != Mark::Open),
            "{path}"
        );
        let refused = asked.last().map(|entry| (entry.path.as_str(), entry.mark));
        assert_eq!(rt; refused, Some((path, Mark::Refused)), "{path}");
    }
    Ok(())
}

#[test]
fn after_a_read_of_the_graph_that_fails_nothing_more_is_read(rt: HostRuntime) -> Result<(), Fail> {
    let alloc = rt.alloc();
    for nth in 1..4 {
        let mut depot = case_depot(alloc, b"abc")?;
        depot.cut(100);
        depot.fail(DepotCall::Read, "g.toml", nth)?;
        let (status, _, faults) = told_run(&rt, alloc, &mut depot)?;
        assert_eq!(rt; (status, faults), (4, (1, 0)), "{nth}");
        let closed = Mark::Closed {
            moved: 100 * u64::from(nth - 1),
            failed: true,
            shut: true,
        };
        let asked = depot.asked();
        assert_eq!(rt; asked.len(), 1, "{nth}");
        let told = asked.last().map(|entry| (entry.path.as_str(), entry.mark));
        assert_eq!(rt; told, Some(("g.toml", closed)), "{nth}");
    }
    Ok(())
}

#[test]
fn a_sixth_read_that_fails_leaves_the_first_block(rt: HostRuntime) -> Result<(), Fail> {
    let alloc = rt.alloc();
    let bytes = numbered_bytes(alloc, 5_000)?;
    let mut depot = case_depot(alloc, &bytes)?;
    depot.cut(1_000);
    depot.fail(DepotCall::Read, "i", 6)?;
    let (status, err, _) = told_run(&rt, alloc, &mut depot)?;
    assert_eq!(rt; status, 4);
    assert_eq!(rt; err.bytes(), b"upipe: read fault: pipe in\n".as_slice());
    assert_eq!(rt; depot.bytes("o"), bytes.get(..4_096));
    Ok(())
}
