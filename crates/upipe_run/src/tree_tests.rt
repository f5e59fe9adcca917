// Runs of graphs with several branches.
use crate::tests::{RUN, depot_of, told_status_of};
use std::alloc::Global;
use std::process::Abort;
use std::string::String;
use std::sync::Wait;
use std::test::Fail;
use std::thread::Threads;
use up_outside::{DepotCall, Mark, MemDepot, MemSink};

/// Two sources, the first of which feeds the sinks `t` and `w` and a null, and the second the sink `c`.
pub(crate) const TREE: [&str; 9] = [
    "name = 'tail', kind = 'sink', input = 'cut', path = 't'",
    "name = 'cut', kind = 'skip', bytes = 1, input = 'both'",
    "name = 'one', kind = 'source', path = 'a', block = 2",
    "name = 'bare', kind = 'delattr', attr = 'x', input = 'both'",
    "name = 'all', kind = 'sink', input = 'bare', path = 'w'",
    "name = 'both', kind = 'dup', input = 'one'",
    "name = 'gone', kind = 'null', input = 'both'",
    "name = 'copy', kind = 'sink', input = 'two', path = 'c'",
    "name = 'two', kind = 'source', path = 'b', block = 3",
];

/// The text of a graph of these pipes, which begins with the one at the place `first` and goes on by so many places.
pub(crate) fn pipes_text(
    alloc: Global,
    pipes: &[&'static str],
    first: usize,
    step: usize,
) -> Result<String, Fail> {
    let mut text = format!(in alloc; "version = 1\npipe = [\n")?;
    let mut place = first;
    for _ in pipes {
        let pipe = pipes.get(place % pipes.len()).ok_or("no such pipe")?;
        let row = format!(in alloc; "{{{pipe}}},\n")?;
        text.push_str(row.as_str())?;
        place = place.wrapping_add(step);
    }
    text.push_str("]\n")?;
    Ok(text)
}

/// A depot with the tree in file order, these bytes at `a` and `b`, and `old` at the paths of its sinks.
pub(crate) fn tree_depot(alloc: Global, a: &[u8], b: &[u8]) -> Result<MemDepot, Fail> {
    let text = pipes_text(alloc, &TREE, 0, 1)?;
    let mut depot = depot_of(alloc, text.as_bytes())?;
    depot.hold("a", a)?;
    depot.hold("b", b)?;
    for path in ["t", "w", "c"] {
        depot.hold(path, b"old")?;
    }
    Ok(depot)
}

/// What a run answers and tells, and what it leaves at `t`, `w` and `c`.
#[derive(Drop)]
struct Told {
    status: u8,
    line: &'static str,
    left: [&'static str; 3],
}

/// These bytes lie at the path.
fn assert_holds(rt: &impl Abort, depot: &MemDepot, path: &str, wanted: &str) {
    assert_eq!(rt; depot.bytes(path), Some(wanted.as_bytes()), "{path}");
}

/// Runs the graph at `g.toml`.
fn assert_told<R: Abort + Threads + Wait + Sync>(
    rt: &R,
    alloc: Global,
    depot: &mut MemDepot,
    wanted: &Told,
) -> Result<(), Fail> {
    let mut err = MemSink::new(alloc);
    let status = told_status_of(rt, alloc, &RUN, depot, &mut err)?;
    assert_eq!(rt; status, wanted.status, "{}", wanted.line);
    assert_eq!(rt; err.bytes(), wanted.line.as_bytes(), "{}", wanted.line);
    for (path, left) in ["t", "w", "c"].iter().zip(wanted.left) {
        assert_holds(rt, depot, path, left);
    }
    Ok(())
}

#[test]
fn each_sink_has_its_bytes_in_any_order_of_the_file(rt: HostRuntime) -> Result<(), Fail> {
    let alloc = rt.alloc();
    for step in [1, 4, 8] {
        for first in 0..9 {
            let text = pipes_text(alloc, &TREE, first, step)?;
            let mut depot = depot_of(alloc, text.as_bytes())?;
            depot.hold("a", b"abcdefg")?;
            depot.hold("b", b"hello")?;
            let wanted = Told {
                status: 0,
                line: "",
                left: ["bdf", "abcdefg", "hello"],
            };
            assert_told(&rt, alloc, &mut depot, &wanted)?;
            assert_holds(&rt, &depot, "a", "abcdefg");
            assert_holds(&rt, &depot, "b", "hello");
            assert_eq!(rt; (depot.source_faults(), depot.sink_faults()), (0, 0));
        }
    }
    Ok(())
}

#[test]
fn a_branch_whose_read_fails_leaves_the_other_whole(rt: HostRuntime) -> Result<(), Fail> {
    let alloc = rt.alloc();
    let cases = [
        (
            "a",
            Told {
                status: 4,
                line: "upipe: read fault: pipe one\n",
                left: ["bdfh", "abcdefgh", "0123456789"],
            },
        ),
        (
            "b",
            Told {
                status: 4,
                line: "upipe: read fault: pipe two\n",
                left: ["bdfhj", "abcdefghij", "012"],
            },
        ),
    ];
    for (path, wanted) in &cases {
        let mut depot = tree_depot(alloc, b"abcdefghij", b"0123456789")?;
        depot.cut(1);
        depot.fail(DepotCall::Read, path, if *path == "a" { 10 } else { 6 })?;
        assert_told(&rt, alloc, &mut depot, wanted)?;
        assert_eq!(rt; (depot.source_faults(), depot.sink_faults()), (1, 0));
    }
    Ok(())
}

/// Two sources, each with a sink of its own.
const TWO: [&str; 4] = [
    "name = 'in', kind = 'source', path = 'i', block = 2",
    "name = 'out', kind = 'sink', input = 'in', path = 'o'",
    "name = 'in2', kind = 'source', path = 'j'",
    "name = 'out2', kind = 'sink', input = 'in2', path = 'p'",
];

#[test]
fn a_second_read_that_fails_leaves_one_block_and_the_other_branch_whole(
    rt: HostRuntime,
) -> Result<(), Fail> {
    let alloc = rt.alloc();
    for first in 0..4 {
        let text = pipes_text(alloc, &TWO, first, 1)?;
        let mut depot = depot_of(alloc, text.as_bytes())?;
        depot.hold("i", b"abcd")?;
        depot.hold("j", b"xyz")?;
        depot.cut(2);
        depot.fail(DepotCall::Read, "i", 2)?;
        let mut err = MemSink::new(alloc);
        let status = told_status_of(&rt, alloc, &RUN, &mut depot, &mut err)?;
        assert_eq!(rt; status, 4);
        assert_eq!(rt; err.bytes(), b"upipe: read fault: pipe in\n".as_slice());
        assert_holds(&rt, &depot, "o", "ab");
        assert_holds(&rt, &depot, "p", "xyz");
        assert_eq!(rt; (depot.source_faults(), depot.sink_faults()), (1, 0));
    }
    Ok(())
}

#[test]
fn a_sink_that_fails_stops_no_other(rt: HostRuntime) -> Result<(), Fail> {
    let alloc = rt.alloc();
    let mut depot = tree_depot(alloc, b"abcdefghij", b"0123456789")?;
    depot.cut(1);
    depot.fail(DepotCall::Write, "t", 3)?;
    let wanted = Told {
        status: 5,
        line: "upipe: write fault: pipe tail\n",
        left: ["bd", "abcdefghij", "0123456789"],
    };
    assert_told(&rt, alloc, &mut depot, &wanted)?;
    assert_eq!(rt; (depot.source_faults(), depot.sink_faults()), (0, 1));
    Ok(())
}

#[test]
fn after_a_refused_source_no_sink_is_touched(rt: HostRuntime) -> Result<(), Fail> {
    let alloc = rt.alloc();
    let mut depot = tree_depot(alloc, b"abc", b"012")?;
    depot.fail(DepotCall::OpenSource, "b", 1)?;
    let wanted = Told {
        status: 4,
        line: "upipe: read fault: pipe two\n",
        left: ["old", "old", "old"],
    };
    assert_told(&rt, alloc, &mut depot, &wanted)?;
    let asked = depot.asked();
    assert_eq!(rt; asked.len(), 3);
    let closed = Mark::Closed {
        moved: 0,
        failed: false,
        shut: true,
    };
    assert_eq!(rt; (asked[1].path.as_str(), asked[1].mark), ("a", closed));
    assert_eq!(rt;
        (asked[2].path.as_str(), asked[2].mark),
        ("b", Mark::Refused)
    );
    Ok(())
}

#[test]
fn a_refused_sink_leaves_those_behind_it_as_they_were(rt: HostRuntime) -> Result<(), Fail> {
    let alloc = rt.alloc();
    let cases = [
        (
            "t",
            Told {
                status: 5,
                line: "upipe: write fault: pipe tail\n",
                left: ["old", "old", "old"],
            },
        ),
        (
            "w",
            Told {
                status: 5,
                line: "upipe: write fault: pipe all\n",
                left: ["", "old", "old"],
            },
        ),
        (
            "c",
            Told {
                status: 5,
                line: "upipe: write fault: pipe copy\n",
                left: ["", "", "old"],
            },
        ),
    ];
    for (path, wanted) in &cases {
        let mut depot = tree_depot(alloc, b"abc", b"012")?;
        depot.fail(DepotCall::OpenSink, path, 1)?;
        assert_told(&rt, alloc, &mut depot, wanted)?;
        assert_eq!(rt; (depot.source_faults(), depot.sink_faults()), (0, 1));
    }
    Ok(())
}

#[test]
fn past_its_limit_a_source_leaves_its_whole_blocks(rt: HostRuntime) -> Result<(), Fail> {
    let alloc = rt.alloc();
    let mut pipes = TREE;
    pipes[2] = "name = 'one', kind = 'source', path = 'a', block = 2, limit = 5";
    let text = pipes_text(alloc, &pipes, 0, 1)?;
    let cases = [
        (
            b"abcdefg".as_slice(),
            Told {
                status: 8,
                line: "upipe: too long: pipe one limit 5\n",
                left: ["bd", "abcd", "012"],
            },
        ),
        (
            b"abcde".as_slice(),
            Told {
                status: 0,
                line: "",
                left: ["bd", "abcde", "012"],
            },
        ),
    ];
    for (bytes, wanted) in &cases {
        let mut depot = depot_of(alloc, text.as_bytes())?;
        depot.hold("a", bytes)?;
        depot.hold("b", b"012")?;
        assert_told(&rt, alloc, &mut depot, wanted)?;
        assert_eq!(rt; (depot.source_faults(), depot.sink_faults()), (0, 0));
    }
    Ok(())
}
