ghost use Rattle.std.specs.Prelude.{◌≤◌, length, All, IfOk, OnOk};
ghost use Rattle.up_model.specs.Packet.{IsLegal};

use crate::attr_tests::{assert_number, assert_seen};
use crate::plain_tests::three;
use crate::{Kind, PacketList, PlainAttrs, PlainPacket, Value, ValueView, plain_out};
use std::alloc::Global;
use std::process::Abort;
use std::test::Fail;
use up_base::{AttrName, Bytes, Text};

/// A packet without attributes.
#[tactic(auto, using(crate::proofs::Packets::plain_is_legal))]
pub(crate) fn bare(alloc: Global, bytes: &[u8]) -> Result<PlainPacket, Fail>
    requires { length bytes.now ≤ 1048576 }
    ensures { IfOk result IsLegal }
{
    Ok(PlainPacket {
        attrs: PlainAttrs::new(alloc),
        bytes: Bytes::from_slice(alloc, bytes)?,
    })
}

/// Gives the packet this attribute.
pub(crate) fn set(
    rt: &impl Abort,
    packet: &mut PlainPacket,
    name: &[u8],
    value: Value,
) -> Result<(), Fail>
    requires { IsLegal packet.old }
    ensures { OnOk result (IsLegal packet.new) }
{
    let name = AttrName::read(name)?;
    assert!(rt; !name.bytes().is_empty());
    assert!(rt; value.is_legal());
    assert!(rt; packet.attrs.len() < 64);
    packet.attrs.set(name, value)?;
    Ok(())
}

/// Adds a legal packet to a flow of legal ones.
pub(crate) fn put(flow: &mut PacketList, packet: PlainPacket) -> Result<(), Fail>
    requires flow { All IsLegal flow.old }
    requires packet { IsLegal packet }
    ensures { OnOk result (All IsLegal flow.new) }
{
    flow.push(packet)?;
    Ok(())
}

#[test]
fn delattr_takes_one_attribute_off_each_packet(rt: HostRuntime) -> Result<(), Fail> {
    let alloc = rt.alloc();
    let pid = AttrName::read(b"pid")?;
    let rate = AttrName::read(b"rate")?;
    let mut packet = bare(alloc, b"ab")?;
    set(&rt, &mut packet, b"pid", Value::Unsigned(7))?;
    set(&rt, &mut packet, b"rate", Value::Unsigned(25))?;
    let mut flow = PacketList::new(alloc);
    put(&mut flow, packet)?;
    put(&mut flow, bare(alloc, b"c")?)?;
    let graph = three(alloc, 2, Kind::DelAttr { attr: pid })?;
    assert!(rt; graph.is_well_formed());
    assert!(rt; graph.pipes.len() == 3);
    let between = &graph.pipes.at(1).kind;
    assert!(rt; !between.is_source() && !between.is_sink());
    let left = plain_out(alloc, &graph, 1, &flow, true)?;
    assert_eq!(rt; left.len(), 2);
    let first = left.at(0);
    assert_eq!(rt; first.bytes.as_slice(), b"ab".as_slice());
    assert_eq!(rt; first.attrs.len(), 1);
    assert_number(&rt, &first.attrs, &rate, 25);
    assert_eq!(rt; left.at(1).bytes.as_slice(), b"c".as_slice());
    assert_eq!(rt; left.at(1).attrs.len(), 0);
    Ok(())
}

/// The attribute has the wanted value.
pub(crate) fn assert_attr(
    rt: &impl Abort,
    attrs: &PlainAttrs,
    name: &[u8],
    wanted: ValueView<'_>,
) -> Result<(), Fail> {
    match attrs.get(&AttrName::read(name)?) {
        Some(value) => assert_seen(rt, value, wanted),
        None => assert!(rt; false, "no such attribute"),
    }
    Ok(())
}

#[test]
fn a_copy_has_the_attributes_and_the_bytes(rt: HostRuntime) -> Result<(), Fail> {
    let alloc = rt.alloc();
    let mut attrs = PlainAttrs::new(alloc);
    attrs.set(AttrName::read(b"mark")?, Value::Void)?;
    attrs.set(AttrName::read(b"live")?, Value::Flag(true))?;
    attrs.set(AttrName::read(b"rate")?, Value::Unsigned(u64::MAX))?;
    let title = Text::from_str(alloc, "caf\u{e9}")?;
    attrs.set(AttrName::read(b"title")?, Value::Words(title))?;
    let key = Bytes::from_slice(alloc, &[0, 255])?;
    attrs.set(AttrName::read(b"key")?, Value::Opaque(key))?;
    let packet = PlainPacket {
        attrs,
        bytes: Bytes::from_slice(alloc, b"ab")?,
    };
    let copy = packet.copy(alloc)?;
    assert_eq!(rt; copy.bytes.as_slice(), b"ab".as_slice());
    assert_eq!(rt; copy.attrs.len(), 5);
    assert_attr(&rt, &copy.attrs, b"mark", ValueView::Void)?;
    assert_attr(&rt, &copy.attrs, b"live", ValueView::Flag(true))?;
    let greatest = ValueView::Unsigned(18_446_744_073_709_551_615);
    assert_attr(&rt, &copy.attrs, b"rate", greatest)?;
    assert_attr(&rt, &copy.attrs, b"title", ValueView::Words("caf\u{e9}"))?;
    assert_attr(&rt, &copy.attrs, b"key", ValueView::Opaque(&[0, 255]))?;
    Ok(())
}
