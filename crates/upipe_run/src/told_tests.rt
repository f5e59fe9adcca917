// What a run tells: its status, its line, and what is left of its sinks.
use crate::run_single;
use crate::tests::{RUN, chain_text, depot_of, status_of, told_status_of};
use std::test::Fail;
use up_outside::{MemDepot, MemSink};

/// Texts that have no graph.
const NO_GRAPHS: [&str; 6] = [
    "",
    "version = ",
    "version = 2\npipe = [{name = 'in', kind = 'source', path = 'i'}, \
        {name = 'out', kind = 'sink', input = 'in', path = 'o'}]",
    "version = 1\npipe = []",
    "version = 1\npipe = [{name = 'in', kind = 'source', path = 'i'}]",
    "version = 1\npipe = [{name = 'in', kind = 'source', path = 'i'}, \
        {name = 'out', kind = 'sink', input = 'in', path = 'o'}, \
        {name = 'end', kind = 'sink', input = 'out', path = 'p'}]",
];

#[test]
fn a_text_without_a_graph_leaves_the_sink_as_it_was(rt: HostRuntime) -> Result<(), Fail> {
    let alloc = rt.alloc();
    for text in NO_GRAPHS {
        let mut depot = depot_of(alloc, text.as_bytes())?;
        depot.hold("i", b"abc")?;
        depot.hold("o", b"old")?;
        assert_eq!(rt; status_of(&rt, alloc, &RUN, &mut depot)?, 3, "{text}");
        assert_eq!(rt; depot.bytes("o"), Some(b"old".as_slice()), "{text}");
        assert_eq!(rt;
            (depot.source_faults(), depot.sink_faults()),
            (0, 0),
            "{text}"
        );
    }
    Ok(())
}

#[test]
fn only_run_and_one_path_are_taken(rt: HostRuntime) -> Result<(), Fail> {
    let alloc = rt.alloc();
    let text = chain_text(alloc, &[], "")?;
    let cases: [(&[&'static str], u8); 11] = [
        (&[], 2),
        (&["run"], 2),
        (&["g.toml"], 2),
        (&["run", "g.toml", "g.toml"], 2),
        (&["RUN", "g.toml"], 2),
        (&["check", "g.toml"], 2),
        (&["run", "-x"], 2),
        (&["run", "--single", "g.toml"], 2),
        (&["run", "-"], 4),
        (&["run", ""], 4),
        (&["run", "g.toml"], 0),
    ];
    for (words, status) in cases {
        let mut depot = depot_of(alloc, text.as_bytes())?;
        depot.hold("i", b"abc")?;
        assert_eq!(rt;
            status_of(&rt, alloc, words, &mut depot)?,
            status,
            "{words:?}"
        );
        assert_eq!(rt; depot.asked().is_empty(), status == 2, "{words:?}");
    }
    Ok(())
}

#[test]
fn a_single_run_is_the_run_of_its_path(rt: HostRuntime) -> Result<(), Fail> {
    let alloc = rt.alloc();
    let text = chain_text(alloc, &[], "")?;
    let mut depot = depot_of(alloc, text.as_bytes())?;
    let mut out = MemSink::new(alloc);
    let mut err = MemSink::new(alloc);
    for path in ["g.toml", "missing"] {
        assert_eq!(rt;
            run_single(alloc, path, false, &mut depot, &mut out, &mut err),
            4
        );
    }
    let told: &[u8] = b"upipe: read fault: pipe in\nupipe: read fault: graph\n";
    assert_eq!(rt; err.bytes(), told);
    depot.hold("i", b"abc")?;
    assert_eq!(rt;
        run_single(alloc, "g.toml", false, &mut depot, &mut out, &mut err),
        0
    );
    assert_eq!(rt; depot.bytes("o"), Some(b"abc".as_slice()));
    assert_eq!(rt; err.bytes(), told);
    Ok(())
}

/// Graph texts, what a run of each tells, and what `o` then has, where `i` has eleven bytes and `o` had `old`.
const TOLD: [(&str, u8, &str, &str); 17] = [
    (
        "version = 1\npipe = [{name = 'in', kind = 'source', path = 'i'}, \
            {name = 'in', kind = 'sink', input = 'in', path = 'o'}]",
        3,
        "upipe: graph: pipe 2: name used twice\n",
        "old",
    ),
    (
        "version = 1\npipe = [{name = 'in', kind = 'source', path = 'i'}, \
            {name = 'out', kind = 'sink', input = 'in', path = 'o'}, \
            {name = 'end', kind = 'sink', input = 'in', path = 'p'}]",
        3,
        "upipe: graph: pipe 1: more than one output\n",
        "old",
    ),
    (
        "version = 1\npipe = [{name = 'out', kind = 'sink', input = 'a', path = 'o'}, \
            {name = 'a', kind = 'idem', input = 'b'}, {name = 'b', kind = 'dup', input = 'a'}]",
        3,
        "upipe: graph: pipe 1: cycle\n",
        "old",
    ),
    (
        "version = 1\npipe = [{name = 'in', kind = 'source', path = 'o'}, \
            {name = 'out', kind = 'sink', input = 'in', path = 'o'}]",
        3,
        "upipe: graph: pipe 2: path used twice\n",
        "old",
    ),
    (
        "version = 1\npipe = [{name = 'a', kind = 'idem', input = 'b'}, \
            {name = 'b', kind = 'idem', input = 'a'}]",
        3,
        "upipe: graph: pipe 1: cycle\n",
        "old",
    ),
    (
        "version = 1\npipe = [{name = 'in', kind = 'source', path = 'i'}, \
            {name = 'in2', kind = 'source', path = 'j'}, \
            {name = 'out', kind = 'sink', input = ['in', 'in2'], path = 'o'}]",
        3,
        "upipe: graph: pipe 3: more than one input\n",
        "old",
    ),
    (
        "version = 1\npipe = [{name = 'in', kind = 'source', path = 'i'}, \
            {name = 'out', kind = 'sink', input = 'in', path = 'o'}, \
            {name = 'again', kind = 'sink', input = 'in2', path = 'o'}, \
            {name = 'in2', kind = 'source', path = 'j'}]",
        3,
        "upipe: graph: pipe 3: path used twice\n",
        "old",
    ),
    (
        "version = 1\npipe = [{name = 'in', kind = 'source', path = 'i', limit = 10}, \
            {name = 'out', kind = 'sink', input = 'in', path = 'o'}]",
        8,
        "upipe: too long: pipe in limit 10\n",
        "",
    ),
    (
        "version = 1\npipe = [{name = 'capture', kind = 'source', path = 'missing'}, \
            {name = 'out', kind = 'sink', input = 'capture', path = 'o'}]",
        4,
        "upipe: read fault: pipe capture\n",
        "old",
    ),
    (
        "version = 1\npipe = [{name = 'in', kind = 'source', path = 'i'}, \
            {name = 'mid', kind = 'sink', input = 'in', path = 'm'}, \
            {name = 'out', kind = 'sink', input = 'mid', path = 'o'}]",
        3,
        "upipe: graph: pipe 3: wrong flow\n",
        "old",
    ),
    (
        "version = 1\npipe = [{name = 'in', kind = 'source', path = 'i'}, \
            {name = 'out', kind = 'sink', input = 'x', path = 'o'}]",
        3,
        "upipe: graph: pipe 2: unknown input\n",
        "old",
    ),
    ("version = 1", 3, "upipe: graph: no pipes\n", "old"),
    ("version = 3", 3, "upipe: graph: bad version\n", "old"),
    ("version", 3, "upipe: graph: not toml\n", "old"),
    (
        "version = 1\n'a\\b' = 2\npipe = [{}]",
        3,
        "upipe: graph: top: bad field a\\x5cb\n",
        "old",
    ),
    (
        "version = 1\npipe = [{name = 'in', kind = 'source', path = 'i', '\u{e9}' = 1}]",
        3,
        "upipe: graph: pipe 1: bad field \\xc3\\xa9\n",
        "old",
    ),
    (
        "version = 1\npipe = [{name = 'in', kind = 'source', path = 'i', limit = 11}, \
            {name = 'out', kind = 'sink', input = 'in', path = 'o'}]",
        0,
        "",
        "0123456789a",
    ),
];

#[test]
fn each_status_tells_its_line_and_leaves_the_sink(rt: HostRuntime) -> Result<(), Fail> {
    let alloc = rt.alloc();
    for (text, status, line, left) in TOLD {
        let mut depot = depot_of(alloc, text.as_bytes())?;
        depot.hold("i", b"0123456789a")?;
        depot.hold("o", b"old")?;
        let mut err = MemSink::new(alloc);
        assert_eq!(rt;
            told_status_of(&rt, alloc, &RUN, &mut depot, &mut err)?,
            status,
            "{text}"
        );
        assert_eq!(rt; err.bytes(), line.as_bytes(), "{text}");
        assert_eq!(rt; depot.bytes("o"), Some(left.as_bytes()), "{text}");
    }
    let mut depot = MemDepot::new(alloc);
    let mut err = MemSink::new(alloc);
    assert_eq!(rt; told_status_of(&rt, alloc, &RUN, &mut depot, &mut err)?, 4);
    assert_eq!(rt;
        told_status_of(&rt, alloc, &["walk"], &mut depot, &mut err)?,
        2
    );
    let told: &[u8] =
        b"upipe: read fault: graph\nusage: upipe check GRAPH | upipe run [--single] [--pool] GRAPH | upipe work [--single] N\n";
    assert_eq!(rt; err.bytes(), told);
    assert_eq!(rt; depot.bytes("o"), None);
    Ok(())
}
