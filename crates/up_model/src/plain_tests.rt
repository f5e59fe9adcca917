use crate::{
    CatchSet, DEFAULT_QUEUE, GivenBytes, Graph, Kind, MAX_LIMIT, PacketList, Pipe, PipeList,
    SinkForm, SourceForm, default_worker, plain_out, plain_output, plain_sink, plain_source,
};
use std::alloc::Global;
use std::process::Abort;
use std::test::Fail;
use up_base::{Bytes, PipeName, Text};

/// Adds a pipe of this name.
pub(crate) fn add(
    graph: &mut Graph,
    name: &[u8],
    input: Option<u16>,
    kind: Kind,
) -> Result<(), Fail> {
    graph.pipes.push(Pipe {
        name: PipeName::read(name)?,
        worker: default_worker(),
        input,
        select: None,
        queue: DEFAULT_QUEUE,
        caught: CatchSet::default(),
        kind,
    })?;
    Ok(())
}

fn source(alloc: Global, path: &str, block: u32) -> Result<Kind, Fail> {
    Ok(Kind::Source {
        path: Text::from_str(alloc, path)?,
        form: SourceForm::Raw { block },
        limit: MAX_LIMIT,
    })
}

fn sink(alloc: Global, path: &str) -> Result<Kind, Fail> {
    Ok(Kind::Sink {
        path: Text::from_str(alloc, path)?,
        form: SinkForm::Raw,
    })
}

/// A source, a pipe of this kind, and a sink.
pub(crate) fn three(alloc: Global, block: u32, kind: Kind) -> Result<Graph, Fail> {
    let mut graph = Graph {
        pipes: PipeList::new(alloc),
    };
    add(&mut graph, b"read", None, source(alloc, "in", block)?)?;
    add(&mut graph, b"between", Some(0), kind)?;
    add(&mut graph, b"write", Some(1), sink(alloc, "out")?)?;
    Ok(graph)
}

/// The bytes of these packets are the wanted ones.
pub(crate) fn assert_packets(rt: &impl Abort, packets: &PacketList, wanted: &[&[u8]]) {
    assert_eq!(rt; packets.len(), wanted.len());
    for (place, bytes) in wanted.iter().enumerate() {
        assert!(rt; place < packets.len());
        assert_eq!(rt; packets.at(place).bytes.as_slice(), *bytes);
    }
}

/// An entry for each pipe.
pub(crate) fn entries(alloc: Global, given: &[&[u8]]) -> Result<GivenBytes, Fail> {
    let mut list = GivenBytes::new(alloc);
    for bytes in given {
        list.push(Bytes::from_slice(alloc, bytes)?)?;
    }
    Ok(list)
}

/// Bytes for the first of so many pipes.
pub(crate) fn first_entry(alloc: Global, bytes: &[u8], count: usize) -> Result<GivenBytes, Fail> {
    let mut list = GivenBytes::new(alloc);
    list.push(Bytes::from_slice(alloc, bytes)?)?;
    for _ in 1..count {
        list.push(Bytes::new(alloc))?;
    }
    Ok(list)
}

/// So many bytes, and others after them.
fn filled(alloc: Global, count: usize, rest: &[u8]) -> Result<Bytes, Fail> {
    let mut bytes = Bytes::new(alloc);
    for _ in 0..count {
        bytes.push(b'x')?;
    }
    bytes.append(rest)?;
    Ok(bytes)
}

/// The sink at a place holds the wanted bytes, where the pipes are given these.
pub(crate) fn assert_output(
    rt: &impl Abort,
    alloc: Global,
    graph: &Graph,
    given: &GivenBytes,
    sink: usize,
    wanted: &[u8],
) -> Result<(), Fail> {
    assert!(rt; graph.is_well_formed());
    assert_eq!(rt; given.len(), graph.pipes.len());
    assert!(rt; sink < graph.pipes.len() && graph.pipes.at(sink).kind.is_sink());
    let bytes = plain_output(alloc, graph, given, sink)?;
    assert_eq!(rt; bytes.as_slice(), wanted);
    Ok(())
}

/// What became of some bytes at the source, the pipe and the sink of such a graph.
#[derive(Drop)]
pub(crate) struct Stages {
    pub(crate) packets: PacketList,
    pub(crate) put: PacketList,
    pub(crate) written: Bytes,
}

pub(crate) fn carry(
    rt: &impl Abort,
    alloc: Global,
    graph: &Graph,
    bytes: &[u8],
    whole: bool,
) -> Result<Stages, Fail> {
    assert!(rt; graph.is_well_formed());
    assert!(rt; graph.pipes.len() == 3);
    assert!(rt; graph.pipes.at(0).kind.is_source());
    let between = &graph.pipes.at(1).kind;
    assert!(rt; !between.is_source() && !between.is_sink());
    assert!(rt; graph.pipes.at(2).kind.is_sink());
    let packets = plain_source(alloc, graph, 0, bytes, whole)?;
    let put = plain_out(alloc, graph, 1, &packets, whole)?;
    let written = plain_sink(alloc, graph, 2, &put)?;
    Ok(Stages {
        packets,
        put,
        written,
    })
}

#[test]
fn a_source_gives_its_shorter_last_packet_only_at_the_end(rt: HostRuntime) -> Result<(), Fail> {
    let alloc = rt.alloc();
    let graph = three(alloc, 2, Kind::Skip { bytes: 1 })?;
    let all = carry(&rt, alloc, &graph, b"abc", true)?;
    assert_packets(&rt, &all.packets, &[b"ab", b"c"]);
    assert_packets(&rt, &all.put, &[b"b", b""]);
    assert_eq!(rt; all.written.as_slice(), b"b".as_slice());
    let so_far = carry(&rt, alloc, &graph, b"abc", false)?;
    assert_packets(&rt, &so_far.packets, &[b"ab"]);
    assert_packets(&rt, &so_far.put, &[b"b"]);
    Ok(())
}

#[test]
fn a_sink_holds_what_skip_left_of_each_block(rt: HostRuntime) -> Result<(), Fail> {
    let alloc = rt.alloc();
    let graph = three(alloc, 3, Kind::Skip { bytes: 2 })?;
    let given = entries(alloc, &[b"abcdefg", b"", b""])?;
    assert_output(&rt, alloc, &graph, &given, 2, b"cf")?;
    let elsewhere = entries(alloc, &[b"", b"xyz", b"xyz"])?;
    assert_output(&rt, alloc, &graph, &elsewhere, 2, b"")?;
    Ok(())
}

#[test]
fn dup_feeds_each_of_its_consumers(rt: HostRuntime) -> Result<(), Fail> {
    let alloc = rt.alloc();
    let mut graph = Graph {
        pipes: PipeList::new(alloc),
    };
    add(&mut graph, b"read", None, source(alloc, "in", 2)?)?;
    add(&mut graph, b"both", Some(0), Kind::Dup)?;
    add(&mut graph, b"all", Some(1), sink(alloc, "all")?)?;
    add(&mut graph, b"cut", Some(1), Kind::Skip { bytes: 1 })?;
    add(&mut graph, b"tails", Some(3), sink(alloc, "tails")?)?;
    let given = entries(alloc, &[b"abcde", b"", b"", b"", b""])?;
    assert_output(&rt, alloc, &graph, &given, 2, b"abcde")?;
    assert_output(&rt, alloc, &graph, &given, 4, b"bd")?;
    Ok(())
}

#[test]
fn a_sink_holds_the_bytes_of_its_own_source(rt: HostRuntime) -> Result<(), Fail> {
    let alloc = rt.alloc();
    let mut graph = Graph {
        pipes: PipeList::new(alloc),
    };
    add(&mut graph, b"one", None, source(alloc, "in", 1)?)?;
    add(&mut graph, b"two", None, source(alloc, "in", 2)?)?;
    add(&mut graph, b"first", Some(0), sink(alloc, "first")?)?;
    add(&mut graph, b"cut", Some(1), Kind::Skip { bytes: 1 })?;
    add(&mut graph, b"second", Some(3), sink(alloc, "second")?)?;
    let given = entries(alloc, &[b"abc", b"wxyz", b"", b"", b""])?;
    assert_output(&rt, alloc, &graph, &given, 2, b"abc")?;
    assert_output(&rt, alloc, &graph, &given, 4, b"xz")?;
    Ok(())
}

#[test]
fn a_pipe_may_stand_before_its_input_in_the_file(rt: HostRuntime) -> Result<(), Fail> {
    let alloc = rt.alloc();
    let mut graph = Graph {
        pipes: PipeList::new(alloc),
    };
    add(&mut graph, b"write", Some(1), sink(alloc, "out")?)?;
    add(&mut graph, b"cut", Some(3), Kind::Skip { bytes: 1 })?;
    add(&mut graph, b"lost", Some(4), Kind::Null)?;
    add(&mut graph, b"read", None, source(alloc, "in", 2)?)?;
    add(&mut graph, b"other", None, source(alloc, "other", 2)?)?;
    let given = entries(alloc, &[b"", b"", b"", b"abcd", b"wxyz"])?;
    assert_output(&rt, alloc, &graph, &given, 0, b"bd")?;
    Ok(())
}

#[test]
fn null_puts_nothing_out(rt: HostRuntime) -> Result<(), Fail> {
    let alloc = rt.alloc();
    let mut graph = Graph {
        pipes: PipeList::new(alloc),
    };
    add(&mut graph, b"read", None, source(alloc, "in", 2)?)?;
    add(&mut graph, b"lost", Some(0), Kind::Null)?;
    assert!(rt; graph.is_well_formed());
    assert!(rt; graph.pipes.len() == 2 && graph.pipes.at(0).kind.is_source());
    let lost = &graph.pipes.at(1).kind;
    assert!(rt; !lost.is_source() && !lost.is_sink());
    let packets = plain_source(alloc, &graph, 0, b"abc", true)?;
    assert_packets(&rt, &packets, &[b"ab", b"c"]);
    assert_packets(&rt, &plain_out(alloc, &graph, 1, &packets, true)?, &[]);
    Ok(())
}

/// The name of a pipe at a place of 256.
fn name(place: u8) -> [u8; 2] {
    [b'A' + place / 16, b'a' + place % 16]
}

#[test]
fn a_chain_of_256_pipes_skips_a_byte_at_each(rt: HostRuntime) -> Result<(), Fail> {
    let alloc = rt.alloc();
    let mut graph = Graph {
        pipes: PipeList::new(alloc),
    };
    add(&mut graph, &name(0), None, source(alloc, "in", 300)?)?;
    for place in 1..255u8 {
        let input = u16::from(place) - 1;
        add(
            &mut graph,
            &name(place),
            Some(input),
            Kind::Skip { bytes: 1 },
        )?;
    }
    add(&mut graph, &name(255), Some(254), sink(alloc, "out")?)?;
    let bytes = filled(alloc, 254, b"all that is left")?;
    let given = first_entry(alloc, bytes.as_slice(), 256)?;
    assert_output(&rt, alloc, &graph, &given, 255, b"all that is left")?;
    Ok(())
}

#[test]
fn a_packet_has_up_to_1_048_576_bytes(rt: HostRuntime) -> Result<(), Fail> {
    let alloc = rt.alloc();
    let bytes = filled(alloc, 1_048_575, b"yz")?;
    let given = first_entry(alloc, bytes.as_slice(), 3)?;
    let whole = three(alloc, 1_048_576, Kind::Idem)?;
    assert_output(&rt, alloc, &whole, &given, 2, bytes.as_slice())?;
    let last = three(alloc, 1_048_576, Kind::Skip { bytes: 1_048_575 })?;
    assert_output(&rt, alloc, &last, &given, 2, b"y")?;
    Ok(())
}
