use crate::run;
use std::alloc::Global;
use std::process::Abort;
use std::string::String;
use std::sync::Wait;
use std::test::Fail;
use std::thread::Threads;
use up_base::{Text, WordList};
use up_outside::{Mark, MemDepot, MemSink, Side};

/// The words that run the graph at `g.toml`.
pub(crate) const RUN: [&str; 2] = ["run", "g.toml"];

/// The text of a graph that copies from `i` to `o` through idle pipes of these names. The fields are added to those of
/// the source.
pub(crate) fn chain_text(
    alloc: Global,
    idle: &[&'static str],
    fields: &str,
) -> Result<String, Fail> {
    let mut text = format!(in alloc;
        "version = 1\npipe = [{{name = 'in', kind = 'source', path = 'i'{fields}}},\n"
    )?;
    let mut input = "in";
    for name in idle {
        let pipe = format!(in alloc; "{{name = '{name}', kind = 'idem', input = '{input}'}},\n")?;
        text.push_str(pipe.as_str())?;
        input = name;
    }
    let sink = format!(in alloc;
        "{{name = 'out', kind = 'sink', input = '{input}', path = 'o'}}]\n"
    )?;
    text.push_str(sink.as_str())?;
    Ok(text)
}

/// So many bytes, no two neighbours of which are the same.
pub(crate) fn numbered_bytes(alloc: Global, size: usize) -> Result<Vec<u8>, Fail> {
    let mut bytes = Vec::new(alloc);
    for place in 0..size {
        bytes.push((place % 251) as u8)?;
    }
    Ok(bytes)
}

/// A depot that holds the graph text at `g.toml`.
pub(crate) fn depot_of(alloc: Global, graph: &[u8]) -> Result<MemDepot, Fail> {
    let mut depot = MemDepot::new(alloc);
    depot.hold("g.toml", graph)?;
    Ok(depot)
}

/// The status of a run. A whole run prints nothing, every other run a line, and no run leaves anything open.
pub(crate) fn status_of<R: Abort + Threads + Wait + Sync>(
    rt: &R,
    alloc: Global,
    words: &[&'static str],
    depot: &mut MemDepot,
) -> Result<u8, Fail> {
    let mut err = MemSink::new(alloc);
    let status = told_status_of(rt, alloc, words, depot, &mut err)?;
    assert_eq!(rt; err.bytes().is_empty(), status == 0);
    Ok(status)
}

/// The status of a run, whose line goes to `err`.
pub(crate) fn told_status_of<R: Abort + Threads + Wait + Sync>(
    rt: &R,
    alloc: Global,
    words: &[&'static str],
    depot: &mut MemDepot,
    err: &mut MemSink,
) -> Result<u8, Fail> {
    let mut list = WordList::new(alloc);
    for word in words {
        list.push(Text::from_str(alloc, word)?)?;
    }
    let mut out = MemSink::new(alloc);
    let status = run(rt, alloc, &list, depot, &mut out, err);
    assert!(rt; out.bytes().is_empty());
    assert!(rt; depot.asked().iter().all(|entry| entry.mark != Mark::Open));
    Ok(status)
}

/// Runs the graph at `g.toml`, which copies these bytes from `i` to `o`.
fn assert_copies<R: Abort + Threads + Wait + Sync>(
    rt: &R,
    alloc: Global,
    depot: &mut MemDepot,
    bytes: &[u8],
) -> Result<(), Fail> {
    depot.hold("i", bytes)?;
    assert_eq!(rt; status_of(rt, alloc, &RUN, depot)?, 0);
    assert_eq!(rt; depot.bytes("o"), Some(bytes));
    assert_eq!(rt; depot.bytes("i"), Some(bytes));
    assert_eq!(rt; (depot.source_faults(), depot.sink_faults()), (0, 0));
    Ok(())
}

#[test]
fn idle_pipes_pass_all_bytes_on(rt: HostRuntime) -> Result<(), Fail> {
    let alloc = rt.alloc();
    let idle = ["first", "second", "third"];
    for count in 0..4 {
        let text = chain_text(alloc, &idle[..count], "")?;
        let mut depot = depot_of(alloc, text.as_bytes())?;
        assert_copies(&rt, alloc, &mut depot, b"abc")?;
        assert_copies(&rt, alloc, &mut depot, b"")?;
    }
    Ok(())
}

#[test]
fn flows_of_every_size_arrive_whole(rt: HostRuntime) -> Result<(), Fail> {
    let alloc = rt.alloc();
    let text = chain_text(alloc, &["first"], "")?;
    for size in [1, 4_095, 4_096, 4_097, 8_192] {
        let mut depot = depot_of(alloc, text.as_bytes())?;
        let bytes = numbered_bytes(alloc, size)?;
        assert_copies(&rt, alloc, &mut depot, &bytes)?;
    }
    Ok(())
}

#[test]
fn short_reads_and_writes_are_continued(rt: HostRuntime) -> Result<(), Fail> {
    let alloc = rt.alloc();
    let text = chain_text(alloc, &["first"], "")?;
    for (most, size) in [(1, 20), (7, 20), (1_000, 5_000), (4_096, 5_000)] {
        let mut depot = depot_of(alloc, text.as_bytes())?;
        depot.cut(most);
        let bytes = numbered_bytes(alloc, size)?;
        assert_copies(&rt, alloc, &mut depot, &bytes)?;
    }
    Ok(())
}

#[test]
fn a_path_that_is_not_held_is_a_read_fault(rt: HostRuntime) -> Result<(), Fail> {
    let alloc = rt.alloc();
    let mut depot = MemDepot::new(alloc);
    assert_eq!(rt; status_of(&rt, alloc, &RUN, &mut depot)?, 4);
    assert_eq!(rt; depot.source_faults(), 1);
    let text = chain_text(alloc, &[], "")?;
    depot.hold("g.toml", text.as_bytes())?;
    assert_eq!(rt; status_of(&rt, alloc, &RUN, &mut depot)?, 4);
    assert_eq!(rt; depot.bytes("o"), None);
    depot.hold("o", b"old")?;
    assert_eq!(rt; status_of(&rt, alloc, &RUN, &mut depot)?, 4);
    assert_eq!(rt; depot.bytes("o"), Some(b"old".as_slice()));
    assert_eq!(rt; (depot.source_faults(), depot.sink_faults()), (3, 0));
    Ok(())
}

#[test]
fn a_graph_file_has_at_most_1048576_bytes(rt: HostRuntime) -> Result<(), Fail> {
    let alloc = rt.alloc();
    let text = chain_text(alloc, &[], "")?;
    for (size, status, left) in [(1_048_576, 0, b"abc"), (1_048_577, 3, b"old")] {
        let mut padded = Vec::new(alloc);
        padded.extend_from_slice(text.as_bytes())?;
        padded.resize(size, b'\n')?;
        let mut depot = depot_of(alloc, &padded)?;
        depot.hold("i", b"abc")?;
        depot.hold("o", b"old")?;
        assert_eq!(rt; status_of(&rt, alloc, &RUN, &mut depot)?, status);
        assert_eq!(rt; depot.bytes("o"), Some(left.as_slice()));
    }
    Ok(())
}

#[test]
fn a_source_has_at_most_its_limit(rt: HostRuntime) -> Result<(), Fail> {
    let alloc = rt.alloc();
    let cases = [
        (10, 9, 0, 9),
        (10, 10, 0, 10),
        (10, 11, 8, 0),
        (10, 10_000, 8, 0),
        (5_000, 5_000, 0, 5_000),
        (5_000, 5_001, 8, 4_096),
    ];
    let bytes = numbered_bytes(alloc, 10_000)?;
    for (limit, size, status, count) in cases {
        let field = format!(in alloc; ", limit = {limit}")?;
        let text = chain_text(alloc, &["first"], field.as_str())?;
        let mut depot = depot_of(alloc, text.as_bytes())?;
        depot.hold("i", bytes.get(..size).ok_or("too few bytes")?)?;
        assert_eq!(rt;
            status_of(&rt, alloc, &RUN, &mut depot)?,
            status,
            "{size} bytes at {limit}"
        );
        assert_eq!(rt;
            depot.bytes("o"),
            bytes.get(..count),
            "{size} bytes at {limit}"
        );
    }
    Ok(())
}

#[test]
fn a_run_asks_in_order_and_reads_one_byte_beyond_the_limit(rt: HostRuntime) -> Result<(), Fail> {
    let alloc = rt.alloc();
    let text = chain_text(alloc, &[], ", limit = 5000")?;
    let mut depot = depot_of(alloc, text.as_bytes())?;
    depot.hold("i", &numbered_bytes(alloc, 10_000)?)?;
    assert_eq!(rt; status_of(&rt, alloc, &RUN, &mut depot)?, 8);
    let asked = depot.asked();
    let size = text.len() as u64;
    let wanted = [
        ("g.toml", Side::Source, size),
        ("i", Side::Source, 5_001),
        ("o", Side::Sink, 4_096),
    ];
    assert_eq!(rt; asked.len(), 3);
    for (entry, (path, side, moved)) in asked.iter().zip(wanted) {
        let mark = Mark::Closed {
            moved,
            failed: false,
            shut: true,
        };
        assert_eq!(rt;
            (entry.path.as_str(), entry.side, entry.mark),
            (path, side, mark)
        );
    }
    Ok(())
}
