// Sources and sinks of frames. The bytes are those that docs/FRAMES.md says.
ghost use Rattle.std.specs.Prelude.{All, IfOk};
ghost use Rattle.up_model.specs.Packet.{IsLegal};

use crate::plain_packet_tests::{assert_attr, bare, put, set};
use crate::plain_tests::{add, assert_output, assert_packets, carry, entries, first_entry};
use crate::{
    Graph, Kind, MAX_LIMIT, PacketList, PipeList, PlainPacket, SinkForm, SourceForm, Value,
    ValueView, plain_sink,
};
use std::alloc::Global;
use std::process::Abort;
use std::test::Fail;
use up_base::{Bytes, Text};

/// A framed source, a pipe of this kind, and a framed sink.
fn framed(alloc: Global, kind: Kind) -> Result<Graph, Fail> {
    let mut graph = Graph {
        pipes: PipeList::new(alloc),
    };
    let source = Kind::Source {
        path: Text::from_str(alloc, "in")?,
        form: SourceForm::Framed,
        limit: MAX_LIMIT,
    };
    let sink = Kind::Sink {
        path: Text::from_str(alloc, "out")?,
        form: SinkForm::Framed,
    };
    add(&mut graph, b"read", None, source)?;
    add(&mut graph, b"between", Some(0), kind)?;
    add(&mut graph, b"write", Some(1), sink)?;
    Ok(graph)
}

/// The frame of the packet `ab` without attributes.
const AB: [u8; 10] = [0x46, 1, 0, 0, 0, 0, 0, 2, 0x61, 0x62];

/// The frame of the packet `hi` with the attribute `x`, the number 7.
const HI: [u8; 25] = [
    0x46, 1, 0, 1, 0, 0, 0, 2, 1, 0x78, 3, 0, 0, 0, 8, 0, 0, 0, 0, 0, 0, 0, 7, 0x68, 0x69,
];

/// A frame with an attribute of each type.
const EACH_TYPE: [u8; 66] = [
    0x46, 1, 0, 6, 0, 0, 0, 1, // six attributes, and one byte
    1, 0x61, 1, 0, 0, 0, 0, // a
    1, 0x62, 2, 0, 0, 0, 1, 1, // b, set
    2, 0x62, 0x62, 2, 0, 0, 0, 1, 0, // bb, not set
    1, 0x63, 3, 0, 0, 0, 8, 1, 2, 3, 4, 5, 6, 7, 8, // c
    1, 0x64, 4, 0, 0, 0, 2, 0xc3, 0xa9, // d
    1, 0x65, 5, 0, 0, 0, 2, 0, 255, // e
    255,
];

/// The bytes of both, one after the other.
fn joined(alloc: Global, first: &[u8], second: &[u8]) -> Result<Bytes, Fail> {
    let mut bytes = Bytes::from_slice(alloc, first)?;
    bytes.append(second)?;
    Ok(bytes)
}

/// A framed source gives these packets, whether more bytes may come or not.
fn assert_given(
    rt: &impl Abort,
    alloc: Global,
    bytes: &[u8],
    wanted: &[&[u8]],
) -> Result<(), Fail> {
    let graph = framed(alloc, Kind::Idem)?;
    for whole in [true, false] {
        let given = carry(rt, alloc, &graph, bytes, whole)?;
        assert_packets(rt, &given.packets, wanted);
    }
    Ok(())
}

/// The packet at a place has this attribute.
fn assert_attr_at(
    rt: &impl Abort,
    packets: &PacketList,
    place: usize,
    name: &[u8],
    wanted: ValueView<'_>,
) -> Result<(), Fail> {
    assert!(rt; place < packets.len());
    assert_attr(rt, &packets.at(place).attrs, name, wanted)
}

/// The packet at a place has so many attributes.
fn assert_count_at(rt: &impl Abort, packets: &PacketList, place: usize, count: usize) {
    assert!(rt; place < packets.len());
    assert_eq!(rt; packets.at(place).attrs.len(), count);
}

#[test]
fn a_source_gives_the_packets_of_whole_frames_and_nothing_of_an_unfinished_one(
    rt: HostRuntime,
) -> Result<(), Fail> {
    let alloc = rt.alloc();
    let two = joined(alloc, &AB, &HI)?;
    let bytes = joined(alloc, two.as_slice(), &[0x46, 1, 0])?;
    assert_given(&rt, alloc, bytes.as_slice(), &[b"ab", b"hi"])?;
    let graph = framed(alloc, Kind::Idem)?;
    let given = carry(&rt, alloc, &graph, bytes.as_slice(), true)?;
    assert_count_at(&rt, &given.packets, 0, 0);
    assert_count_at(&rt, &given.packets, 1, 1);
    assert_attr_at(&rt, &given.packets, 1, b"x", ValueView::Unsigned(7))
}

#[test]
fn a_frame_that_is_cut_anywhere_is_no_packet(rt: HostRuntime) -> Result<(), Fail> {
    let alloc = rt.alloc();
    assert_given(&rt, alloc, &[], &[])?;
    for size in 0..25 {
        let bytes = joined(alloc, &AB, &HI[..size])?;
        assert_given(&rt, alloc, bytes.as_slice(), &[b"ab"])?;
    }
    Ok(())
}

/// Frames that would be whole but for one field: the mark, the version, the length of a name, a byte of it, its order, the number of a
/// type, the length of a value, the value of a flag and of a text. The last two say 65 attributes and 1,048,577 bytes.
const BROKEN: [&[u8]; 16] = [
    &[0x47, 1, 0, 0, 0, 0, 0, 0],
    &[0x46, 2, 0, 0, 0, 0, 0, 0],
    &[0x46, 1, 0, 1, 0, 0, 0, 0, 0, 1, 0, 0, 0, 0],
    &[0x46, 1, 0, 1, 0, 0, 0, 0, 1, 0x20, 1, 0, 0, 0, 0],
    &[
        0x46, 1, 0, 2, 0, 0, 0, 0, 1, 0x62, 1, 0, 0, 0, 0, 1, 0x61, 1, 0, 0, 0, 0,
    ],
    &[
        0x46, 1, 0, 2, 0, 0, 0, 0, 1, 0x62, 1, 0, 0, 0, 0, 1, 0x62, 1, 0, 0, 0, 0,
    ],
    &[0x46, 1, 0, 1, 0, 0, 0, 0, 1, 0x78, 0, 0, 0, 0, 0],
    &[0x46, 1, 0, 1, 0, 0, 0, 0, 1, 0x78, 6, 0, 0, 0, 0],
    &[0x46, 1, 0, 1, 0, 0, 0, 0, 1, 0x78, 1, 0, 0, 0, 1, 0],
    &[0x46, 1, 0, 1, 0, 0, 0, 0, 1, 0x78, 2, 0, 0, 0, 0],
    &[
        0x46, 1, 0, 1, 0, 0, 0, 0, 1, 0x78, 3, 0, 0, 0, 7, 1, 2, 3, 4, 5, 6, 7,
    ],
    &[0x46, 1, 0, 1, 0, 0, 0, 0, 1, 0x78, 2, 0, 0, 0, 1, 2],
    &[
        0x46, 1, 0, 1, 0, 0, 0, 0, 1, 0x78, 4, 0, 0, 0, 2, 0xc3, 0x28,
    ],
    &[0x46, 1, 0, 1, 0, 0, 0, 0, 1, 0x78, 5, 0, 0, 0x10, 1],
    &[0x46, 1, 0, 65],
    &[0x46, 1, 0, 0, 0, 0x10, 0, 1],
];

#[test]
fn a_broken_frame_and_what_is_behind_it_are_no_packets(rt: HostRuntime) -> Result<(), Fail> {
    let alloc = rt.alloc();
    for broken in BROKEN {
        let before = joined(alloc, &AB, broken)?;
        let bytes = joined(alloc, before.as_slice(), &HI)?;
        assert_given(&rt, alloc, bytes.as_slice(), &[b"ab"])?;
    }
    Ok(())
}

#[test]
fn a_source_reads_an_attribute_of_each_type(rt: HostRuntime) -> Result<(), Fail> {
    let alloc = rt.alloc();
    let graph = framed(alloc, Kind::Idem)?;
    let given = carry(&rt, alloc, &graph, &EACH_TYPE, true)?;
    let packets = &given.packets;
    assert_packets(&rt, packets, &[&[255]]);
    assert_count_at(&rt, packets, 0, 6);
    let table: [(&[u8], ValueView<'_>); 6] = [
        (b"a", ValueView::Void),
        (b"b", ValueView::Flag(true)),
        (b"bb", ValueView::Flag(false)),
        (b"c", ValueView::Unsigned(0x0102_0304_0506_0708)),
        (b"d", ValueView::Words("\u{e9}")),
        (b"e", ValueView::Opaque(&[0, 255])),
    ];
    for (name, value) in table {
        assert_attr_at(&rt, packets, 0, name, value)?;
    }
    Ok(())
}

/// The packet of which `EACH_TYPE` is the frame. The attributes are set in another order than that of their names.
fn each_type(rt: &impl Abort, alloc: Global) -> Result<PlainPacket, Fail>
    ensures { IfOk result IsLegal }
{
    let text = Text::from_str(alloc, "\u{e9}")?;
    let key = Bytes::from_slice(alloc, &[0, 255])?;
    let mut packet = bare(alloc, &[255])?;
    set(rt, &mut packet, b"e", Value::Opaque(key))?;
    set(rt, &mut packet, b"bb", Value::Flag(false))?;
    set(rt, &mut packet, b"d", Value::Words(text))?;
    set(rt, &mut packet, b"a", Value::Void)?;
    set(
        rt,
        &mut packet,
        b"c",
        Value::Unsigned(0x0102_0304_0506_0708),
    )?;
    set(rt, &mut packet, b"b", Value::Flag(true))?;
    Ok(packet)
}

/// A framed sink writes these bytes of the flow.
fn assert_written(
    rt: &impl Abort,
    alloc: Global,
    flow: &PacketList,
    wanted: &[u8],
) -> Result<(), Fail>
    requires { All IsLegal flow.now }
{
    let graph = framed(alloc, Kind::Idem)?;
    assert!(rt; graph.is_well_formed());
    assert!(rt; graph.pipes.len() == 3);
    assert!(rt; graph.pipes.at(2).kind.is_sink());
    let written = plain_sink(alloc, &graph, 2, flow)?;
    assert_eq!(rt; written.as_slice(), wanted);
    Ok(())
}

#[test]
fn a_sink_writes_an_attribute_of_each_type_in_the_order_of_their_names(
    rt: HostRuntime,
) -> Result<(), Fail> {
    let alloc = rt.alloc();
    let mut flow = PacketList::new(alloc);
    put(&mut flow, each_type(&rt, alloc)?)?;
    assert_written(&rt, alloc, &flow, &EACH_TYPE)
}

#[test]
fn a_sink_writes_one_frame_behind_the_other_and_of_no_packets_nothing(
    rt: HostRuntime,
) -> Result<(), Fail> {
    let alloc = rt.alloc();
    let mut flow = PacketList::new(alloc);
    assert_written(&rt, alloc, &flow, b"")?;
    put(&mut flow, bare(alloc, b"ab")?)?;
    put(&mut flow, bare(alloc, b"")?)?;
    let empty = [0x46, 1, 0, 0, 0, 0, 0, 0];
    let wanted = joined(alloc, &AB, &empty)?;
    assert_written(&rt, alloc, &flow, wanted.as_slice())
}

#[test]
fn frames_go_through_a_graph_with_their_attributes(rt: HostRuntime) -> Result<(), Fail> {
    let alloc = rt.alloc();
    let two = joined(alloc, &AB, &HI)?;
    let bytes = joined(alloc, two.as_slice(), &[0x46, 2])?;
    let given = entries(alloc, &[bytes.as_slice(), b"", b""])?;
    let same = framed(alloc, Kind::Idem)?;
    assert_output(&rt, alloc, &same, &given, 2, two.as_slice())?;
    let cut = framed(alloc, Kind::Skip { bytes: 1 })?;
    let wanted = [
        0x46, 1, 0, 0, 0, 0, 0, 1, 0x62, 0x46, 1, 0, 1, 0, 0, 0, 1, 1, 0x78, 3, 0, 0, 0, 8, 0, 0,
        0, 0, 0, 0, 0, 7, 0x69,
    ];
    assert_output(&rt, alloc, &cut, &given, 2, &wanted)
}

/// Adds so many times this byte.
fn repeat(bytes: &mut Bytes, byte: u8, count: usize) -> Result<(), Fail> {
    for _ in 0..count {
        bytes.push(byte)?;
    }
    Ok(())
}

/// The frame of a packet with 64 attributes of the greatest size and 1,048,576 bytes.
fn greatest(alloc: Global) -> Result<Bytes, Fail> {
    let last = b".0123456789ABCDEFGHIJKLMNOPQRSTUVWXYZ_abcdefghijklmnopqrstuvwxyz";
    let mut bytes = Bytes::from_slice(alloc, &[0x46, 1, 0, 64, 0, 0x10, 0, 0])?;
    for byte in last {
        bytes.push(64)?;
        repeat(&mut bytes, b'n', 63)?;
        bytes.append(&[*byte, 5, 0, 0, 0x10, 0])?;
        repeat(&mut bytes, *byte, 4_096)?;
    }
    repeat(&mut bytes, b'x', 1_048_576)?;
    Ok(bytes)
}

#[test]
fn the_greatest_frame_goes_through_a_graph(rt: HostRuntime) -> Result<(), Fail> {
    let alloc = rt.alloc();
    let bytes = greatest(alloc)?;
    let given = first_entry(alloc, bytes.as_slice(), 3)?;
    let graph = framed(alloc, Kind::Idem)?;
    assert_output(&rt, alloc, &graph, &given, 2, bytes.as_slice())
}
