ghost use Rattle.up_model.specs.Packet.{IsLegal};
ghost use Rattle.up_model.specs.Value.{IsLegalValue, lent};
ghost use Rattle.up_shape.specs.VecPackets.{plain_of};
ghost use Rattle.up_strand.specs.Nodes.{IsTaking};

use crate::any_module::AnyModule;
use crate::node::{Node, Part};
use crate::sink_packet::write_packet;
use crate::spelling::Spelling;
use crate::values::value_of;
use std::alloc::Global;
use std::process::Abort;
use std::test::Fail;
use up_base::{AttrName, Refusal, Text};
use up_model::{Kind, MAX_ATTRS, MAX_PACKET, Opt, SinkForm, Value, ValueView, packets_stay_legal};
use up_outside::{Depot, DepotCall, MemDepot, MemSink};
use up_shape::{Command, ControlRefused, LocalPacket, Module, Reply, VecPacket, VecStore};

/// Each option.
const OPTIONS: [Opt; 7] = [
    Opt::Mtu,
    Opt::Align,
    Opt::Offset,
    Opt::Low,
    Opt::High,
    Opt::By,
    Opt::Sync,
];

/// A packet of these bytes, without attributes.
fn fresh(rt: &impl Abort, bytes: &[u8], s: &mut VecStore) -> VecPacket
    ensures { IsLegal (plain_of result) }
{
    packets_stay_legal();
    assert!(rt; bytes.len() <= MAX_PACKET as usize);
    VecPacket::fresh(bytes, s).expect(rt, "no memory")
}

/// Gives the packet the attribute `x`.
fn set_x(rt: &impl Abort, packet: &mut VecPacket, value: ValueView<'_>)
    requires value { IsLegalValue (lent value) }
    requires legal { IsLegal (plain_of packet.old) }
    ensures { IsLegal (plain_of packet.new) }
{
    packets_stay_legal();
    let name = AttrName::read(b"x").expect(rt, "no name");
    assert!(rt; !name.bytes().is_empty());
    assert!(rt; packet.attr_count() < MAX_ATTRS);
    match packet.set_attr(&name, value) {
        Ok(()) => {}
        Err(_) => panic!(rt; "no memory"),
    }
}

/// Writes a packet of seven bytes to the sink, and says what came of it.
fn seven(rt: &impl Abort, sink: &mut MemSink, s: &mut VecStore) -> Result<(), Refusal> {
    let packet = fresh(rt, b"abcdefg", s);
    let written = write_packet(&packet, sink, &mut Spelling::Raw);
    packet.give_up(s);
    written
}

#[test]
fn a_packet_is_written_by_as_many_writes_as_it_takes(rt: HostRuntime) {
    let s = &mut VecStore::new(rt.alloc());
    let mut depot = MemDepot::new(rt.alloc());
    depot.cut(2);
    let mut sink = depot.open_sink("o").expect(&rt, "no sink");
    assert_eq!(rt; seven(&rt, &mut sink, s), Ok(()));
    assert_eq!(rt; seven(&rt, &mut sink, s), Ok(()));
    assert_eq!(rt; sink.bytes(), b"abcdefgabcdefg".as_slice());
}

#[test]
fn a_write_that_fails_leaves_what_was_written_before(rt: HostRuntime) {
    let s = &mut VecStore::new(rt.alloc());
    let mut depot = MemDepot::new(rt.alloc());
    depot.cut(2);
    assert!(rt; depot.fail(DepotCall::Write, "o", 3).is_ok());
    let mut sink = depot.open_sink("o").expect(&rt, "no sink");
    assert_eq!(rt; seven(&rt, &mut sink, s), Err(Refusal::Failed));
    assert_eq!(rt; sink.bytes(), b"abcd".as_slice());
}

#[test]
fn a_packet_of_the_greatest_size_is_written_whole(rt: HostRuntime) -> Result<(), Fail> {
    let s = &mut VecStore::new(rt.alloc());
    let mut sink = MemSink::new(rt.alloc());
    let bytes = vec![in rt.alloc(); 7; 1_048_576]?;
    let packet = fresh(&rt, &bytes, s);
    assert_eq!(rt;
        write_packet(&packet, &mut sink, &mut Spelling::Raw),
        Ok(())
    );
    packet.give_up(s);
    assert_eq!(rt; sink.bytes(), bytes.as_slice());
    Ok(())
}

/// The frame of the packet `hi` with the number 7 as `x`, and that of the packet `ab`.
const HI_AND_AB: [u8; 35] = [
    0x46, 1, 0, 1, 0, 0, 0, 2, 1, b'x', 3, 0, 0, 0, 8, 0, 0, 0, 0, 0, 0, 0, 7, b'h', b'i', 0x46, 1,
    0, 0, 0, 0, 0, 2, b'a', b'b',
];

#[test]
fn a_framed_sink_holds_the_frames_of_its_packets(rt: HostRuntime) {
    let s = &mut VecStore::new(rt.alloc());
    let mut sink = MemSink::new(rt.alloc());
    let mut spelling = Spelling::of(rt.alloc(), SinkForm::Framed);
    let (mut hi, ab) = (fresh(&rt, b"hi", s), fresh(&rt, b"ab", s));
    set_x(&rt, &mut hi, ValueView::Unsigned(7));
    assert_eq!(rt; write_packet(&hi, &mut sink, &mut spelling), Ok(()));
    assert_eq!(rt; write_packet(&ab, &mut sink, &mut spelling), Ok(()));
    hi.give_up(s);
    ab.give_up(s);
    assert_eq!(rt; sink.bytes(), HI_AND_AB.as_slice());
}

/// For a call that may find no memory: `rt try --test --fail-alloc N` lets the Nth fail.
#[test]
fn a_sink_without_memory_for_a_frame_is_as_it_was(rt: HostRuntime) {
    packets_stay_legal();
    let s = &mut VecStore::new(rt.alloc());
    let mut sink = MemSink::new(rt.alloc());
    let Ok(packet) = VecPacket::fresh(b"ab", s) else {
        return;
    };
    let mut spelling = Spelling::of(rt.alloc(), SinkForm::Framed);
    match write_packet(&packet, &mut sink, &mut spelling) {
        Ok(()) => assert_eq!(rt; sink.bytes(), &HI_AND_AB[25..]),
        Err(_) => assert_eq!(rt; sink.bytes(), b"".as_slice()),
    }
    packet.give_up(s);
}

/// Gives the node a packet of these bytes.
fn take(rt: &impl Abort, node: &mut Node<VecPacket, MemSink>, bytes: &[u8], s: &mut VecStore)
    requires { IsTaking node.old }
    ensures { IsTaking node.new }
{
    let packet = fresh(rt, bytes, s);
    assert_eq!(rt; node.take(packet, s), Ok(()));
}

/// The node of a sink that failed and holds these bytes, and at which nothing waits.
fn assert_failed(rt: &impl Abort, node: Node<VecPacket, MemSink>, written: &[u8]) {
    let Node {
        input: _,
        takers: _,
        part,
        mut out,
        short: _,
    } = node;
    assert!(rt; out.next().is_none());
    out.end();
    match part {
        Part::Sink {
            sink,
            spelling: _,
            failed,
        } => {
            assert!(rt; failed);
            assert_eq!(rt; sink.bytes(), written);
        }
        _ => panic!(rt; "no sink"),
    }
}

#[test]
fn a_framed_sink_that_failed_in_a_frame_is_written_no_more(rt: HostRuntime) {
    let s = &mut VecStore::new(rt.alloc());
    let mut depot = MemDepot::new(rt.alloc());
    depot.cut(4);
    assert!(rt; depot.fail(DepotCall::Write, "o", 3).is_ok());
    let sink = depot.open_sink("o").expect(&rt, "no sink");
    let spelling = Spelling::of(rt.alloc(), SinkForm::Framed);
    let part = Part::Sink {
        sink,
        spelling,
        failed: false,
    };
    let mut node = Node::new(rt.alloc(), None, None, part);
    take(&rt, &mut node, b"ab", s);
    take(&rt, &mut node, b"hi", s);
    assert_failed(&rt, node, &[0x46, 1, 0, 0, 0, 0, 0, 2]);
}

/// What the module of a kind whose fields are within their bounds answers for an option: its value,
/// or none where it hasn't the option.
fn assert_option(rt: &impl Abort, alloc: Global, kind: &Kind, option: Opt, value: Option<i128>) {
    let s = &mut VecStore::new(alloc);
    let mut m = module_of(rt, alloc, kind);
    assert!(rt; <AnyModule as Module<VecPacket>>::fresh(&m));
    let answer = <AnyModule as Module<VecPacket>>::control(&mut m, Command::Get(option));
    <AnyModule as Module<VecPacket>>::give_up(m, s);
    let wanted = value.map_or(
        Err(ControlRefused::Unhandled),
        |value| Ok(Reply::Value(value)),
    );
    assert_eq!(rt; answer, wanted);
}

/// The module of a kind has none of the options.
fn assert_no_option(rt: &impl Abort, alloc: Global, kind: &Kind) {
    for option in OPTIONS {
        assert_option(rt, alloc, kind, option, None);
    }
}

/// The module of a kind whose fields are within their bounds.
fn module_of(rt: &impl Abort, alloc: Global, kind: &Kind) -> AnyModule {
    assert!(rt; kind.is_within_bounds());
    let value = value_of(alloc, kind).expect(rt, "no memory");
    AnyModule::of::<VecPacket>(kind, value).expect(rt, "no module")
}

#[test]
fn a_module_without_options_has_none(rt: HostRuntime) -> Result<(), Fail> {
    let alloc = rt.alloc();
    let attr = AttrName::read(b"key")?;
    let value = Value::Words(Text::from_str(alloc, "film")?);
    for kind in [
        Kind::Idem,
        Kind::Null,
        Kind::Dup,
        Kind::SetAttr { attr, value },
        Kind::DelAttr { attr },
    ] {
        assert_no_option(&rt, alloc, &kind);
    }
    Ok(())
}

#[test]
fn a_module_that_skips_has_an_offset(rt: HostRuntime) {
    let alloc = rt.alloc();
    assert_option(&rt, alloc, &Kind::Skip { bytes: 0 }, Opt::Offset, Some(0));
    assert_option(
        &rt,
        alloc,
        &Kind::Skip { bytes: 1_048_576 },
        Opt::Offset,
        Some(1_048_576),
    );
}

#[test]
fn a_module_that_matches_has_two_bounds(rt: HostRuntime) -> Result<(), Fail> {
    let alloc = rt.alloc();
    let attr = AttrName::read(b"key")?;
    let (low, high) = (7, u64::MAX);
    let wide = Kind::MatchAttr { attr, low, high };
    assert_option(&rt, alloc, &wide, Opt::Low, Some(7));
    assert_option(
        &rt,
        alloc,
        &wide,
        Opt::High,
        Some(18_446_744_073_709_551_615),
    );
    let (low, high) = (7, 7);
    let narrow = Kind::MatchAttr { attr, low, high };
    assert_option(&rt, alloc, &narrow, Opt::Low, Some(7));
    assert_option(&rt, alloc, &narrow, Opt::High, Some(7));
    Ok(())
}

#[test]
fn a_module_that_delays_has_a_shift(rt: HostRuntime) {
    let alloc = rt.alloc();
    let back = Kind::Delay { by: i64::MIN };
    assert_option(&rt, alloc, &back, Opt::By, Some(-9_223_372_036_854_775_808));
    let forth = Kind::Delay { by: i64::MAX };
    assert_option(&rt, alloc, &forth, Opt::By, Some(9_223_372_036_854_775_807));
}
