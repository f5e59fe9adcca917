// Runs of a graph with several branches in which calls on the outside fail.
ghost use Rattle.std.specs.Prelude.{All, IfOk};
ghost use Rattle.up_model.specs.Packet.{IsLegal};
ghost use Rattle.up_model.specs.WellFormed.{IsWellFormed};

use crate::tests::{RUN, told_status_of};
use crate::tree_tests::{TREE, pipes_text, tree_depot};
use std::alloc::Global;
use std::process::Abort;
use std::sync::Wait;
use std::test::Fail;
use std::thread::Threads;
use up_base::{Bytes, NoMemory};
use up_graph::read_graph;
use up_model::{GivenBytes, Graph, PacketList, plain_out, plain_output, plain_sink, plain_source};
use up_outside::{DepotCall, Mark, MemDepot, MemSink};

/// The bytes at `a` and at `b`.
const GIVEN: [&str; 2] = ["abcdefghijklm", "0123456789ABCDEF"];

/// The paths that are read, and what is told where a call on one fails.
const SOURCES: [(&str, &str); 3] = [
    ("g.toml", "upipe: read fault: graph\n"),
    ("a", "upipe: read fault: pipe one\n"),
    ("b", "upipe: read fault: pipe two\n"),
];

/// The paths that are written.
const SINKS: [(&str, &str); 3] = [
    ("t", "upipe: write fault: pipe tail\n"),
    ("w", "upipe: write fault: pipe all\n"),
    ("c", "upipe: write fault: pipe copy\n"),
];

/// The bytes that the sinks `t`, `w` and `c` are to hold, by the slow meaning.
fn meant_bytes(rt: &impl Abort, alloc: Global) -> Result<Vec<Bytes>, Fail> {
    let text = pipes_text(alloc, &TREE, 0, 1)?;
    let graph = read_graph(alloc, text.as_bytes())?;
    let mut given = GivenBytes::new(alloc);
    for place in 0..graph.pipes.len() {
        let bytes = match place {
            2 => GIVEN[0],
            8 => GIVEN[1],
            _ => "",
        };
        given.push(Bytes::from_slice(alloc, bytes.as_bytes())?)?;
    }
    let mut meant = Vec::new(alloc);
    for sink in [0, 4, 7] {
        assert!(rt; graph.is_well_formed());
        assert_eq!(rt; given.len(), graph.pipes.len());
        assert!(rt; sink < graph.pipes.len() && graph.pipes.at(sink).kind.is_sink());
        meant.push(plain_output(alloc, &graph, &given, sink)?)?;
    }
    Ok(meant)
}

/// What a sink then has.
#[derive(Clone, Copy, Debug, PartialEq, Eq)]
enum Left {
    /// What it had.
    Old,
    /// Nothing.
    Empty,
    /// All of its bytes.
    Whole,
    /// The first of them: of a failed read what is settled, as `assert_settled` has it.
    First,
    /// Anything: the close of the sink itself was refused.
    Any,
}

/// What a sink has where such a call on a path failed.
fn left_of(call: DepotCall, path: &str, sink: &str) -> Left {
    match call {
        DepotCall::OpenSource => Left::Old,
        DepotCall::Read => match (path, sink) {
            ("g.toml", _) => Left::Old,
            ("a", "t" | "w") | ("b", "c") => Left::First,
            _ => Left::Whole,
        },
        DepotCall::OpenSink => match (path, sink) {
            ("w" | "c", "t") | ("c", "w") => Left::Empty,
            _ => Left::Old,
        },
        DepotCall::Write if path == sink => Left::First,
        DepotCall::CloseSink if path == sink => Left::Any,
        DepotCall::Write | DepotCall::CloseSink => Left::Whole,
    }
}

/// The bytes are what is left of these.
fn is_left(left: Left, bytes: &[u8], meant: &[u8]) -> bool {
    match left {
        Left::Old => bytes == b"old".as_slice(),
        Left::Empty => bytes.is_empty(),
        Left::Whole => bytes == meant,
        Left::First => meant.get(..bytes.len()) == Some(bytes),
        Left::Any => true,
    }
}

/// What the pipe at a place puts out of the first bytes of its source, where more may come and the source is reached in
/// fewer steps than these.
fn settled_within(
    alloc: Global,
    graph: &Graph,
    bytes: &[u8],
    steps: usize,
    place: usize,
) -> Result<PacketList, NoMemory>
    requires well_formed { IsWellFormed graph.now.pipes }
    ensures legal { IfOk result (All IsLegal) }
{
    if steps == 0 || graph.pipes.len() <= place || graph.pipes.at(place).kind.is_sink() {
        return Ok(PacketList::new(alloc));
    }
    if graph.pipes.at(place).kind.is_source() {
        return plain_source(alloc, graph, place, bytes, false);
    }
    match graph.pipes.at(place).input {
        None => plain_out(alloc, graph, place, &PacketList::new(alloc), false),
        Some(input) => {
            let taken = settled_within(alloc, graph, bytes, steps - 1, usize::from(input))?;
            plain_out(alloc, graph, place, &taken, false)
        }
    }
}

/// The bytes of the sink at a place that are settled by the first bytes of its source.
fn settled_bytes(
    rt: &impl Abort,
    alloc: Global,
    graph: &Graph,
    bytes: &[u8],
    sink: usize,
) -> Result<Bytes, Fail> {
    assert!(rt; graph.is_well_formed());
    assert!(rt; sink < graph.pipes.len() && graph.pipes.at(sink).kind.is_sink());
    let taken = match graph.pipes.at(sink).input {
        None => PacketList::new(alloc),
        Some(input) => {
            settled_within(alloc, graph, bytes, graph.pipes.len(), usize::from(input))?
        }
    };
    Ok(plain_sink(alloc, graph, sink, &taken)?)
}

/// How many bytes were moved at a path, by its entry.
fn moved_at(depot: &MemDepot, path: &str) -> Option<u64> {
    let entry = depot
        .asked()
        .iter()
        .find(|entry| entry.path.as_str() == path)?;
    match entry.mark {
        Mark::Closed { moved, .. } => Some(moved),
        Mark::Open | Mark::Refused => None,
    }
}

/// Each sink behind a source has what is settled by the bytes that the source's entry says it moved.
fn assert_settled(
    rt: &impl Abort,
    alloc: Global,
    depot: &MemDepot,
    source: &str,
) -> Result<(), Fail> {
    let (given, sinks): (&str, &[(&str, usize)]) = match source {
        "a" => (GIVEN[0], &[("t", 0), ("w", 4)]),
        "b" => (GIVEN[1], &[("c", 7)]),
        _ => return Ok(()),
    };
    let moved = moved_at(depot, source).ok_or("the source has no entry")?;
    let count = usize::try_from(moved)
        .ok()
        .ok_or("too many bytes were moved")?;
    let first = given
        .as_bytes()
        .get(..count)
        .ok_or("more was moved than lay there")?;
    let text = pipes_text(alloc, &TREE, 0, 1)?;
    let graph = read_graph(alloc, text.as_bytes())?;
    for (sink, place) in sinks {
        let settled = settled_bytes(rt, alloc, &graph, first, *place)?;
        assert_eq!(rt;
            depot.bytes(sink),
            Some(settled.as_slice()),
            "{source} {count}: {sink}"
        );
    }
    Ok(())
}

/// Lets each call of one sort on a path fail, one in each run, until a run makes no such call.
fn assert_each_told<R: Abort + Threads + Wait + Sync>(
    rt: &R,
    alloc: Global,
    meant: &[Bytes],
    call: DepotCall,
    path: &'static str,
    wanted: (u8, &str),
) -> Result<(), Fail> {
    for nth in 1..64 {
        let mut depot = tree_depot(alloc, GIVEN[0].as_bytes(), GIVEN[1].as_bytes())?;
        depot.cut(if path == "g.toml" { 100 } else { 1 });
        depot.fail(call, path, nth)?;
        let mut err = MemSink::new(alloc);
        let status = told_status_of(rt, alloc, &RUN, &mut depot, &mut err)?;
        let made = depot.source_faults() > 0 || depot.sink_faults() > 0;
        let (told, line) = if made { wanted } else { (0, "") };
        assert_eq!(rt; status, told, "{call:?} {path} {nth}");
        assert_eq!(rt; err.bytes(), line.as_bytes(), "{call:?} {path} {nth}");
        for (sink, bytes) in ["t", "w", "c"].iter().zip(meant) {
            let left = if made {
                left_of(call, path, sink)
            } else {
                Left::Whole
            };
            let found = depot.bytes(sink).ok_or("a sink is gone")?;
            assert!(rt;
                is_left(left, found, bytes.as_slice()),
                "{call:?} {path} {nth}: {sink}"
            );
        }
        if made && call == DepotCall::Read {
            assert_settled(rt, alloc, &depot, path)?;
        }
        if !made {
            assert!(rt; nth > 1, "{call:?} {path} never failed");
            return Ok(());
        }
    }
    Err("a run makes too many calls".into())
}

#[test]
fn each_call_that_fails_is_told_and_stops_its_own_branch(rt: HostRuntime) -> Result<(), Fail> {
    let alloc = rt.alloc();
    let meant = meant_bytes(&rt, alloc)?;
    for (path, line) in SOURCES {
        for call in [DepotCall::OpenSource, DepotCall::Read] {
            assert_each_told(&rt, alloc, &meant, call, path, (4, line))?;
        }
    }
    for (path, line) in SINKS {
        for call in [DepotCall::OpenSink, DepotCall::Write, DepotCall::CloseSink] {
            assert_each_told(&rt, alloc, &meant, call, path, (5, line))?;
        }
    }
    Ok(())
}

/// Two calls that fail in one run, and the lines that are told where the file is in its order and where it is turned round.
const PAIRS: [(DepotCall, &str, DepotCall, &str, &str, &str); 9] = [
    (
        DepotCall::Read,
        "a",
        DepotCall::Read,
        "b",
        "upipe: read fault: pipe one\n",
        "upipe: read fault: pipe two\n",
    ),
    (
        DepotCall::Read,
        "b",
        DepotCall::Write,
        "t",
        "upipe: write fault: pipe tail\n",
        "upipe: read fault: pipe two\n",
    ),
    (
        DepotCall::Write,
        "c",
        DepotCall::Read,
        "a",
        "upipe: read fault: pipe one\n",
        "upipe: write fault: pipe copy\n",
    ),
    (
        DepotCall::Write,
        "c",
        DepotCall::Write,
        "t",
        "upipe: write fault: pipe tail\n",
        "upipe: write fault: pipe copy\n",
    ),
    (
        DepotCall::CloseSink,
        "w",
        DepotCall::Write,
        "c",
        "upipe: write fault: pipe all\n",
        "upipe: write fault: pipe copy\n",
    ),
    (
        DepotCall::OpenSource,
        "b",
        DepotCall::Read,
        "a",
        "upipe: read fault: pipe two\n",
        "upipe: read fault: pipe two\n",
    ),
    (
        DepotCall::OpenSource,
        "a",
        DepotCall::OpenSource,
        "b",
        "upipe: read fault: pipe one\n",
        "upipe: read fault: pipe two\n",
    ),
    (
        DepotCall::OpenSink,
        "w",
        DepotCall::CloseSink,
        "t",
        "upipe: write fault: pipe tail\n",
        "upipe: write fault: pipe all\n",
    ),
    (
        DepotCall::OpenSink,
        "w",
        DepotCall::CloseSink,
        "c",
        "upipe: write fault: pipe all\n",
        "upipe: write fault: pipe copy\n",
    ),
];

/// The line of a run of the graph from the place `first` on, in which two calls fail.
fn pair_told<R: Abort + Threads + Wait + Sync>(
    rt: &R,
    alloc: Global,
    one: (DepotCall, &str),
    other: (DepotCall, &str),
    (first, step): (usize, usize),
) -> Result<MemSink, Fail> {
    let text = pipes_text(alloc, &TREE, first, step)?;
    let mut depot = tree_depot(alloc, GIVEN[0].as_bytes(), GIVEN[1].as_bytes())?;
    depot.hold("g.toml", text.as_bytes())?;
    depot.fail(one.0, one.1, 1)?;
    depot.fail(other.0, other.1, 1)?;
    let mut err = MemSink::new(alloc);
    told_status_of(rt, alloc, &RUN, &mut depot, &mut err)?;
    Ok(err)
}

#[test]
fn of_two_causes_the_first_in_the_file_is_told(rt: HostRuntime) -> Result<(), Fail> {
    let alloc = rt.alloc();
    for (call, path, other_call, other_path, line, turned_line) in PAIRS {
        let one = (call, path);
        let other = (other_call, other_path);
        let err = pair_told(&rt, alloc, one, other, (0, 1))?;
        assert_eq!(rt; err.bytes(), line.as_bytes(), "{one:?} {other:?}");
        let err = pair_told(&rt, alloc, one, other, (8, 8))?;
        assert_eq!(rt; err.bytes(), turned_line.as_bytes(), "{one:?} {other:?}");
    }
    Ok(())
}
