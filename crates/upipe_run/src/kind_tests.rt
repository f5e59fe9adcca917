// Runs of graphs of each kind, of none but what they need, and of as many pipes as a graph may have.
use crate::tests::{RUN, depot_of, numbered_bytes, status_of};
use crate::tree_tests::pipes_text;
use std::alloc::Global;
use std::string::String;
use std::test::Fail;

/// The bytes of a source and its fields, those of the pipe behind it, and the bytes of the sink behind that.
const ROWS: [(&str, &str, &str, &str); 13] = [
    ("abcdefg", "block = 3", "kind = 'skip', bytes = 2", "cf"),
    ("abcdef", "block = 2", "kind = 'skip', bytes = 1", "bdf"),
    ("abcdef", "block = 2", "kind = 'skip', bytes = 0", "abcdef"),
    ("abcdef", "block = 2", "kind = 'skip', bytes = 2", ""),
    ("abcdef", "block = 2", "kind = 'skip', bytes = 3", ""),
    ("abcdef", "block = 4", "kind = 'skip', bytes = 1", "bcdf"),
    ("abcdef", "block = 4", "kind = 'skip', bytes = 3", "d"),
    ("abcdef", "block = 1", "kind = 'idem'", "abcdef"),
    (
        "abcdef",
        "block = 5",
        "kind = 'delattr', attr = 'x'",
        "abcdef",
    ),
    (
        "abcdef",
        "block = 5",
        "kind = 'setattr', attr = 'x', value = 'film'",
        "abcdef",
    ),
    ("abcdef", "block = 5", "kind = 'match_attr', attr = 'x'", ""),
    ("abcdef", "block = 5", "kind = 'delay', by = -1", "abcdef"),
    ("abcdef", "limit = 6", "kind = 'dup'", "abcdef"),
];

#[test]
fn each_kind_does_its_work_in_a_run(rt: HostRuntime) -> Result<(), Fail> {
    let alloc = rt.alloc();
    for (given, source, between, wanted) in ROWS {
        let text = format!(in alloc;
            "version = 1\npipe = [{{name = 'in', kind = 'source', path = 'i', {source}}},\n\
             {{name = 'mid', {between}, input = 'in'}},\n\
             {{name = 'out', kind = 'sink', input = 'mid', path = 'o'}}]\n"
        )?;
        let mut depot = depot_of(alloc, text.as_bytes())?;
        depot.hold("i", given.as_bytes())?;
        assert_eq!(rt;
            status_of(&rt, alloc, &RUN, &mut depot)?,
            0,
            "{source} {between}"
        );
        assert_eq!(rt;
            depot.bytes("o"),
            Some(wanted.as_bytes()),
            "{source} {between}"
        );
    }
    Ok(())
}

/// A source, a number that its packets are given and that is moved, and two sinks, of which each takes the packets with some
/// numbers.
const NUMBERED: [&str; 8] = [
    "name = 'in', kind = 'source', path = 'i', block = 4",
    "name = 'dated', kind = 'setattr', attr = 'date.sys', value = 5, input = 'in'",
    "name = 'moved', kind = 'delay', by = -2, input = 'dated'",
    "name = 'both', kind = 'dup', input = 'moved'",
    "name = 'three', kind = 'match_attr', attr = 'date.sys', low = 3, high = 3, input = 'both'",
    "name = 'out', kind = 'sink', input = 'three', path = 'o'",
    "name = 'later', kind = 'match_attr', attr = 'date.sys', low = 4, input = 'both'",
    "name = 'out2', kind = 'sink', input = 'later', path = 'p'",
];

#[test]
fn a_number_that_is_set_is_moved_and_matched_in_a_run(rt: HostRuntime) -> Result<(), Fail> {
    let alloc = rt.alloc();
    let text = pipes_text(alloc, &NUMBERED, 0, 1)?;
    let mut depot = depot_of(alloc, text.as_bytes())?;
    depot.hold("i", b"abcdef")?;
    assert_eq!(rt; status_of(&rt, alloc, &RUN, &mut depot)?, 0);
    assert_eq!(rt; depot.bytes("o"), Some(b"abcdef".as_slice()));
    assert_eq!(rt; depot.bytes("p"), Some(b"".as_slice()));
    Ok(())
}

#[test]
fn a_graph_needs_no_sink_and_two_sources_may_share_a_path(rt: HostRuntime) -> Result<(), Fail> {
    let alloc = rt.alloc();
    let pipes = [
        "name = 'in', kind = 'source', path = 'i', block = 1",
        "name = 'gone', kind = 'null', input = 'in'",
        "name = 'again', kind = 'source', path = 'i', block = 4",
        "name = 'out', kind = 'sink', input = 'again', path = 'o'",
    ];
    for count in [2, 4] {
        let some = pipes.get(..count).ok_or("too few pipes")?;
        let text = pipes_text(alloc, some, 0, 1)?;
        let mut depot = depot_of(alloc, text.as_bytes())?;
        depot.hold("i", b"abcdef")?;
        assert_eq!(rt; status_of(&rt, alloc, &RUN, &mut depot)?, 0);
        let copied = if count == 2 {
            None
        } else {
            Some(b"abcdef".as_slice())
        };
        assert_eq!(rt; depot.bytes("o"), copied);
    }
    Ok(())
}

/// The text of a chain of 256 pipes.
fn long_text(alloc: Global) -> Result<String, Fail> {
    let mut text = format!(in alloc;
        "version = 1\npipe = [{{name = 'p0', kind = 'source', path = 'i'}},\n"
    )?;
    for place in 1u8..255 {
        let before = place - 1;
        let row = format!(in alloc;
            "{{name = 'p{place}', kind = 'idem', input = 'p{before}'}},\n"
        )?;
        text.push_str(row.as_str())?;
    }
    text.push_str("{name = 'out', kind = 'sink', input = 'p254', path = 'o0'}]\n")?;
    Ok(text)
}

/// The text of a source, a dup and the sinks `o0` to `o253`.
fn wide_text(alloc: Global) -> Result<String, Fail> {
    let mut text = format!(in alloc;
        "version = 1\npipe = [{{name = 'in', kind = 'source', path = 'i'}},\n\
         {{name = 'all', kind = 'dup', input = 'in'}},\n"
    )?;
    for place in 0u8..254 {
        let row = format!(in alloc;
            "{{name = 's{place}', kind = 'sink', input = 'all', path = 'o{place}'}},\n"
        )?;
        text.push_str(row.as_str())?;
    }
    text.push_str("]\n")?;
    Ok(text)
}

/// The text of 128 sources, each with a sink of its own.
fn parted_text(alloc: Global) -> Result<String, Fail> {
    let mut text = format!(in alloc; "version = 1\npipe = [\n")?;
    for place in 0u8..128 {
        let row = format!(in alloc;
            "{{name = 'p{place}', kind = 'source', path = 'i'}},\n\
             {{name = 's{place}', kind = 'sink', input = 'p{place}', path = 'o{place}'}},\n"
        )?;
        text.push_str(row.as_str())?;
    }
    text.push_str("]\n")?;
    Ok(text)
}

#[test]
fn a_graph_of_256_pipes_runs_through_each(rt: HostRuntime) -> Result<(), Fail> {
    let alloc = rt.alloc();
    let bytes = numbered_bytes(alloc, 5_000)?;
    let graphs = [
        (long_text(alloc)?, 1),
        (wide_text(alloc)?, 254),
        (parted_text(alloc)?, 128),
    ];
    for (text, sinks) in &graphs {
        let mut depot = depot_of(alloc, text.as_bytes())?;
        depot.hold("i", &bytes)?;
        assert_eq!(rt; status_of(&rt, alloc, &RUN, &mut depot)?, 0);
        for place in 0..*sinks {
            let path = format!(in alloc; "o{place}")?;
            assert_eq!(rt; depot.bytes(path.as_str()), Some(&*bytes), "{path}");
        }
    }
    Ok(())
}
