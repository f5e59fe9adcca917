mod tables;

use self::tables::{FAULTLESS, FAULTY, LAST, Row};
use crate::{
    CatchSet, DEFAULT_QUEUE, FanOut, Graph, GraphFault, Kind, Pipe, PipeList, SinkForm, SourceForm,
    Value,
};
use std::alloc::Global;
use std::process::Abort;
use std::string::String;
use std::test::Fail;
use up_base::{AttrName, Bytes, PipeName, Text, WorkerName};

/// What a pipe of a test does.
#[derive(Clone, Copy, Debug)]
pub enum Does {
    /// Reads this path.
    Reads(&'static str),
    /// Writes this path.
    Writes(&'static str),
    Passes,
    Copies,
    Ends,
    /// Passes on what it takes of this number.
    Selects(u16),
}

fn source(alloc: Global, path: &str, block: u32, limit: u64) -> Result<Kind, Fail> {
    Ok(Kind::Source {
        path: Text::from_str(alloc, path)?,
        form: SourceForm::Raw { block },
        limit,
    })
}

fn sink(alloc: Global, path: &str) -> Result<Kind, Fail> {
    Ok(Kind::Sink {
        path: Text::from_str(alloc, path)?,
        form: SinkForm::Raw,
    })
}

/// A source of frames.
fn frame_source(alloc: Global, path: &str, limit: u64) -> Result<Kind, Fail> {
    Ok(Kind::Source {
        path: Text::from_str(alloc, path)?,
        form: SourceForm::Framed,
        limit,
    })
}

/// A sink of frames.
fn frame_sink(alloc: Global, path: &str) -> Result<Kind, Fail> {
    Ok(Kind::Sink {
        path: Text::from_str(alloc, path)?,
        form: SinkForm::Framed,
    })
}

fn kind_of(alloc: Global, does: Does) -> Result<Kind, Fail> {
    match does {
        Does::Reads(path) => source(alloc, path, 1, 0),
        Does::Writes(path) => sink(alloc, path),
        Does::Passes | Does::Selects(_) => Ok(Kind::Idem),
        Does::Copies => Ok(Kind::Dup),
        Does::Ends => Ok(Kind::Null),
    }
}

/// A pipe on the worker `main`.
fn pipe(name: &str, input: Option<u16>, kind: Kind) -> Result<Pipe, Fail> {
    Ok(Pipe {
        name: PipeName::read(name.as_bytes())?,
        worker: WorkerName::read(b"main")?,
        input,
        select: None,
        queue: DEFAULT_QUEUE,
        caught: CatchSet::default(),
        kind,
    })
}

fn pipe_of(alloc: Global, row: Row) -> Result<Pipe, Fail> {
    let (name, input, does) = row;
    let mut pipe = pipe(name, input, kind_of(alloc, does)?)?;
    if let Does::Selects(number) = does {
        pipe.select = Some(number);
    }
    Ok(pipe)
}

fn graph_of(alloc: Global, rows: &[Row]) -> Result<Graph, Fail> {
    let mut pipes = PipeList::new(alloc);
    for row in rows {
        pipes.push(pipe_of(alloc, *row)?)?;
    }
    Ok(Graph { pipes })
}

#[test]
fn each_fault_is_told_with_the_first_pipe_that_has_it(rt: HostRuntime) -> Result<(), Fail> {
    let alloc = rt.alloc();
    for (rows, fault) in &FAULTY {
        let graph = graph_of(alloc, rows)?;
        assert_eq!(rt; graph.fault(), Some(*fault));
        assert!(rt; !graph.is_well_formed());
    }
    Ok(())
}

#[test]
fn a_graph_without_fault_is_well_formed(rt: HostRuntime) -> Result<(), Fail> {
    let alloc = rt.alloc();
    for rows in &FAULTLESS {
        let graph = graph_of(alloc, rows)?;
        assert_eq!(rt; graph.fault(), None);
        assert!(rt; graph.is_well_formed());
    }
    Ok(())
}

/// A pipe whose name and, where it has one, path is its place. The first so many have a worker each, and the others one
/// of these.
fn numbered(alloc: Global, place: u16, workers: u16, input: Option<u16>) -> Result<Pipe, Fail> {
    let text = format!(in alloc; "{place}")?;
    let number = if place < workers { place } else { 0 };
    let worker = format!(in alloc; "worker-{number}")?;
    let kind = match input {
        None => source(alloc, text.as_str(), 1, 0)?,
        Some(1) => sink(alloc, text.as_str())?,
        Some(_) => Kind::Dup,
    };
    let mut pipe = pipe(text.as_str(), input, kind)?;
    pipe.worker = WorkerName::read(worker.as_bytes())?;
    Ok(pipe)
}

/// A source, a `dup`, and the sinks that it feeds.
fn fan(alloc: Global, count: u16, workers: u16) -> Result<Graph, Fail> {
    let mut pipes = PipeList::new(alloc);
    for place in 0..count {
        let input = match place {
            0 => None,
            1 => Some(0),
            _ => Some(1),
        };
        pipes.push(numbered(alloc, place, workers, input)?)?;
    }
    Ok(Graph { pipes })
}

#[test]
fn a_fan_of_256_pipes_in_16_workers_is_well_formed(rt: HostRuntime) -> Result<(), Fail> {
    let graph = fan(rt.alloc(), 256, 16)?;
    assert_eq!(rt; graph.fault(), None);
    assert!(rt; graph.is_well_formed());
    assert_eq!(rt; graph.source_of(255), Some(0));
    Ok(())
}

#[test]
fn one_worker_or_one_pipe_more_is_too_many(rt: HostRuntime) -> Result<(), Fail> {
    let alloc = rt.alloc();
    let graph = fan(alloc, 256, 17)?;
    assert_eq!(rt;
        graph.fault(),
        Some(GraphFault::TooManyWorkers { count: 17 })
    );
    assert!(rt; !graph.is_well_formed());
    let graph = fan(alloc, 257, 16)?;
    assert_eq!(rt; graph.fault(), None);
    assert!(rt; !graph.is_well_formed());
    let graph = fan(alloc, 0, 1)?;
    assert_eq!(rt; graph.fault(), None);
    assert!(rt; !graph.is_well_formed());
    Ok(())
}

/// A chain of 256 pipes, of which the last is this.
fn chain(alloc: Global, last: Pipe) -> Result<Graph, Fail> {
    let mut pipes = PipeList::new(alloc);
    pipes.push(pipe("0", None, source(alloc, "in", 1, 0)?)?)?;
    for place in 1..255u16 {
        let name = format!(in alloc; "{place}")?;
        pipes.push(pipe(name.as_str(), Some(place - 1), Kind::Idem)?)?;
    }
    pipes.push(last)?;
    Ok(Graph { pipes })
}

#[test]
fn a_chain_of_256_pipes_has_one_source(rt: HostRuntime) -> Result<(), Fail> {
    let alloc = rt.alloc();
    let graph = chain(alloc, pipe("end", Some(254), Kind::Null)?)?;
    assert!(rt; graph.is_well_formed());
    assert_eq!(rt; graph.source_of(0), Some(0));
    assert_eq!(rt; graph.source_of(255), Some(0));
    assert_eq!(rt; graph.source_of(256), None);
    Ok(())
}

#[test]
fn a_fault_of_the_last_of_256_pipes_is_told(rt: HostRuntime) -> Result<(), Fail> {
    let alloc = rt.alloc();
    for (row, fault) in &LAST {
        let graph = chain(alloc, pipe_of(alloc, *row)?)?;
        assert_eq!(rt; graph.fault(), Some(*fault));
    }
    Ok(())
}

#[test]
fn a_pipe_that_only_a_cycle_feeds_has_no_source(rt: HostRuntime) -> Result<(), Fail> {
    let rows: [Row; 4] = [
        ("a", Some(1), Does::Passes),
        ("b", Some(0), Does::Copies),
        ("c", Some(1), Does::Ends),
        ("d", Some(9), Does::Ends),
    ];
    let graph = graph_of(rt.alloc(), &rows)?;
    for place in 0..5 {
        assert_eq!(rt; graph.source_of(place), None);
    }
    Ok(())
}

/// Whether a source with this pipe behind it is well formed.
fn is_well_formed_with(alloc: Global, last: Pipe) -> Result<bool, Fail> {
    let mut pipes = PipeList::new(alloc);
    pipes.push(pipe("a", None, source(alloc, "in", 1, 0)?)?)?;
    pipes.push(last)?;
    Ok(Graph { pipes }.is_well_formed())
}

#[test]
fn a_lane_has_1_to_4096_items(rt: HostRuntime) -> Result<(), Fail> {
    let alloc = rt.alloc();
    for (queue, wanted) in [(0, false), (1, true), (4_096, true), (4_097, false)] {
        let mut last = pipe("b", Some(0), Kind::Null)?;
        last.queue = queue;
        assert_eq!(rt; is_well_formed_with(alloc, last)?, wanted);
    }
    Ok(())
}

#[test]
fn a_source_alone_has_no_input(rt: HostRuntime) -> Result<(), Fail> {
    let alloc = rt.alloc();
    let mut pipes = PipeList::new(alloc);
    pipes.push(pipe("a", Some(1), source(alloc, "in", 1, 0)?)?)?;
    pipes.push(pipe("b", None, source(alloc, "in", 1, 0)?)?)?;
    pipes.push(pipe("c", Some(0), Kind::Null)?)?;
    let graph = Graph { pipes };
    assert_eq!(rt; graph.fault(), None);
    assert!(rt; !graph.is_well_formed());
    assert!(rt; !is_well_formed_with(alloc, pipe("b", None, Kind::Null)?)?);
    Ok(())
}

/// A text of so many letters.
fn letters(alloc: Global, count: u32) -> Result<String, Fail> {
    let mut text = String::new(alloc);
    for _ in 0..count {
        text.push_str("x")?;
    }
    Ok(text)
}

#[test]
fn a_path_has_1_to_4096_bytes_and_no_zero(rt: HostRuntime) -> Result<(), Fail> {
    let alloc = rt.alloc();
    for (count, wanted) in [(0, false), (1, true), (4_096, true), (4_097, false)] {
        let path = letters(alloc, count)?;
        assert_eq!(rt; sink(alloc, path.as_str())?.is_within_bounds(), wanted);
        assert_eq!(rt;
            source(alloc, path.as_str(), 1, 0)?.is_within_bounds(),
            wanted
        );
    }
    assert!(rt; !sink(alloc, "a\0b")?.is_within_bounds());
    Ok(())
}

/// Whether a kind is within its bounds.
fn assert_bounds(rt: &impl Abort, kind: &Kind, wanted: bool) {
    assert_eq!(rt; kind.is_within_bounds(), wanted);
}

#[test]
fn the_paths_of_ends_of_frames_have_bounds(rt: HostRuntime) -> Result<(), Fail> {
    let alloc = rt.alloc();
    for (count, wanted) in [(0, false), (1, true), (4_096, true), (4_097, false)] {
        let path = letters(alloc, count)?;
        assert_bounds(&rt, &frame_source(alloc, path.as_str(), 0)?, wanted);
        assert_bounds(&rt, &frame_sink(alloc, path.as_str())?, wanted);
    }
    assert_bounds(&rt, &frame_source(alloc, "a\0b", 0)?, false);
    assert_bounds(&rt, &frame_sink(alloc, "a\0b")?, false);
    Ok(())
}

#[test]
fn the_limit_of_a_source_of_frames_has_bounds(rt: HostRuntime) -> Result<(), Fail> {
    let alloc = rt.alloc();
    assert_bounds(&rt, &frame_source(alloc, "in", 1_099_511_627_776)?, true);
    assert_bounds(&rt, &frame_source(alloc, "in", 1_099_511_627_777)?, false);
    assert_bounds(&rt, &frame_source(alloc, "in", u64::MAX)?, false);
    Ok(())
}

#[test]
fn blocks_limits_and_counts_have_bounds(rt: HostRuntime) -> Result<(), Fail> {
    let alloc = rt.alloc();
    for (block, limit, wanted) in [
        (0, 0, false),
        (1, 0, true),
        (1_048_576, 1_099_511_627_776, true),
        (1_048_577, 0, false),
        (1, 1_099_511_627_777, false),
    ] {
        assert_eq!(rt;
            source(alloc, "in", block, limit)?.is_within_bounds(),
            wanted
        );
    }
    assert!(rt; Kind::Skip { bytes: 1_048_576 }.is_within_bounds());
    assert!(rt; !Kind::Skip { bytes: 1_048_577 }.is_within_bounds());
    for kind in [Kind::Idem, Kind::Null, Kind::Dup] {
        assert!(rt; kind.is_within_bounds());
    }
    Ok(())
}

/// Sets `key` to this value.
fn set_to(value: Value) -> Result<Kind, Fail> {
    Ok(Kind::SetAttr {
        attr: AttrName::read(b"key")?,
        value,
    })
}

#[test]
fn a_value_that_is_set_has_at_most_4096_bytes(rt: HostRuntime) -> Result<(), Fail> {
    let alloc = rt.alloc();
    for (count, wanted) in [(0, true), (4_096, true), (4_097, false)] {
        let text = letters(alloc, count)?;
        let opaque = Value::Opaque(Bytes::from_slice(alloc, text.as_bytes())?);
        assert_eq!(rt; set_to(opaque)?.is_within_bounds(), wanted);
        let words = Value::Words(Text::from_str(alloc, text.as_str())?);
        assert_eq!(rt; set_to(words)?.is_within_bounds(), wanted);
    }
    for value in [Value::Void, Value::Flag(true), Value::Unsigned(u64::MAX)] {
        assert!(rt; set_to(value)?.is_within_bounds());
    }
    Ok(())
}

/// Matches `key` from the one to the other.
fn match_from(low: u64, high: u64) -> Result<Kind, Fail> {
    Ok(Kind::MatchAttr {
        attr: AttrName::read(b"key")?,
        low,
        high,
    })
}

#[test]
fn numbers_are_matched_from_the_least_up_and_dates_moved_by_any_shift(
    rt: HostRuntime,
) -> Result<(), Fail> {
    assert!(rt; match_from(7, 7)?.is_within_bounds());
    assert!(rt; match_from(0, u64::MAX)?.is_within_bounds());
    assert!(rt; !match_from(8, 7)?.is_within_bounds());
    for by in [i64::MIN, 0, i64::MAX] {
        assert!(rt; Kind::Delay { by }.is_within_bounds());
    }
    Ok(())
}

/// Whether the kind has this path and this way to feed consumers.
fn has(kind: &Kind, path: Option<&'static str>, fan_out: FanOut) -> bool {
    kind.path().map(Text::as_str) == path && kind.fan_out() == fan_out
}

#[test]
fn a_source_and_a_sink_have_a_path(rt: HostRuntime) -> Result<(), Fail> {
    let source = source(rt.alloc(), "in", 1, 0)?;
    assert!(rt; source.is_source() && has(&source, Some("in"), FanOut::One));
    let sink = sink(rt.alloc(), "out")?;
    assert!(rt; !sink.is_source() && has(&sink, Some("out"), FanOut::None));
    Ok(())
}

#[test]
fn any_other_kind_has_no_path(rt: HostRuntime) -> Result<(), Fail> {
    let attr = AttrName::read(b"key")?;
    assert!(rt; has(&Kind::Idem, None, FanOut::One));
    assert!(rt; has(&Kind::Null, None, FanOut::None));
    assert!(rt; has(&Kind::Dup, None, FanOut::All));
    assert!(rt; has(&Kind::Skip { bytes: 1 }, None, FanOut::One));
    assert!(rt; has(&set_to(Value::Void)?, None, FanOut::One));
    assert!(rt; has(&Kind::DelAttr { attr }, None, FanOut::One));
    assert!(rt; has(&match_from(1, 2)?, None, FanOut::One));
    assert!(rt; has(&Kind::Delay { by: 1 }, None, FanOut::One));
    for kind in [Kind::Idem, Kind::Null, Kind::Dup] {
        assert!(rt; !kind.is_source());
    }
    Ok(())
}
