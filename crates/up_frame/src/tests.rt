ghost use Rattle.std.specs.Prelude.{◌≡◌, ◌≤◌, length, IfOk};
ghost use Rattle.up_model.specs.Packet.{IsLegal};
ghost use Rattle.up_model.specs.Value.{lent, IsLegalValue};
ghost use Rattle.up_shape.specs.VecPackets.{plain_of};

use crate::{behind_frame, write_frame};
use std::alloc::Global;
use std::process::Abort;
use std::test::Fail;
use up_base::{AttrName, Bytes};
use up_model::{
    MARK, MAX_ATTRS, MAX_PACKET, MAX_VALUE, NotWhole, VERSION, ValueView, packets_stay_legal,
};
use up_shape::{LocalPacket, VecPacket, VecStore};

/// A packet of these bytes, without attributes.
pub(crate) fn fresh(rt: &impl Abort, alloc: Global, bytes: &[u8]) -> VecPacket
    ensures { IsLegal (plain_of result) }
{
    packets_stay_legal();
    assert!(rt; bytes.len() <= MAX_PACKET as usize);
    VecPacket::fresh(bytes, &mut VecStore::new(alloc)).expect(rt, "no memory")
}

/// Gives the packet one attribute more.
fn set_attr(rt: &impl Abort, packet: &mut VecPacket, name: &[u8], value: ValueView<'_>)
    requires value { IsLegalValue (lent value) }
    requires legal { IsLegal (plain_of packet.old) }
    ensures { IsLegal (plain_of packet.new) }
{
    packets_stay_legal();
    let name = AttrName::read(name).expect(rt, "no name");
    assert!(rt; !name.bytes().is_empty());
    assert!(rt; packet.attr_count() < MAX_ATTRS);
    match packet.set_attr(&name, value) {
        Ok(()) => {}
        Err(_) => panic!(rt; "no memory"),
    }
}

pub(crate) fn set_words(rt: &impl Abort, packet: &mut VecPacket, name: &[u8], text: &str)
    requires { IsLegal (plain_of packet.old) }
    ensures { IsLegal (plain_of packet.new) }
{
    assert!(rt; text.len() <= MAX_VALUE);
    set_attr(rt, packet, name, ValueView::Words(text));
}

pub(crate) fn set_opaque(rt: &impl Abort, packet: &mut VecPacket, name: &[u8], bytes: &[u8])
    requires { IsLegal (plain_of packet.old) }
    ensures { IsLegal (plain_of packet.new) }
{
    assert!(rt; bytes.len() <= MAX_VALUE);
    set_attr(rt, packet, name, ValueView::Opaque(bytes));
}

/// The frame of the packet, behind a byte that stood there before.
fn assert_frame(
    rt: &impl Abort,
    alloc: Global,
    packet: &VecPacket,
    wanted: &[u8],
) -> Result<(), Fail>
    requires { IsLegal (plain_of packet.now) }
{
    let mut out = Bytes::from_slice(alloc, &[9])?;
    assert_eq!(rt; write_frame(packet, &mut out), Ok(()));
    let out = out.as_slice();
    assert_eq!(rt; out.len(), wanted.len() + 1);
    assert_eq!(rt; out[0], 9);
    assert_eq!(rt; &out[1..], wanted);
    Ok(())
}

#[test]
fn a_frame_begins_with_its_mark_and_version(rt: HostRuntime) -> Result<(), Fail> {
    assert_eq!(rt; (MARK, VERSION), (70, 1));
    let packet = fresh(&rt, rt.alloc(), b"ab");
    assert_frame(
        &rt,
        rt.alloc(),
        &packet,
        &[0x46, 1, 0, 0, 0, 0, 0, 2, 97, 98],
    )
}

#[test]
fn a_packet_without_bytes_has_a_frame_of_eight(rt: HostRuntime) -> Result<(), Fail> {
    let packet = fresh(&rt, rt.alloc(), b"");
    assert_frame(&rt, rt.alloc(), &packet, &[0x46, 1, 0, 0, 0, 0, 0, 0])
}

#[test]
fn an_attribute_stands_before_the_bytes(rt: HostRuntime) -> Result<(), Fail> {
    let mut packet = fresh(&rt, rt.alloc(), b"hi");
    set_attr(&rt, &mut packet, b"x", ValueView::Unsigned(7));
    let wanted = [
        0x46, 1, 0, 1, 0, 0, 0, 2, 1, 0x78, 3, 0, 0, 0, 8, 0, 0, 0, 0, 0, 0, 0, 7, 0x68, 0x69,
    ];
    assert_frame(&rt, rt.alloc(), &packet, &wanted)
}

#[test]
fn values_of_each_type_stand_in_the_order_of_their_names(rt: HostRuntime) -> Result<(), Fail> {
    let mut packet = fresh(&rt, rt.alloc(), &[255]);
    set_opaque(&rt, &mut packet, b"e", &[0, 255]);
    set_words(&rt, &mut packet, b"d", "\u{e9}");
    set_attr(
        &rt,
        &mut packet,
        b"c",
        ValueView::Unsigned(0x0102_0304_0506_0708),
    );
    set_attr(&rt, &mut packet, b"bb", ValueView::Flag(false));
    set_attr(&rt, &mut packet, b"b", ValueView::Flag(true));
    set_attr(&rt, &mut packet, b"a", ValueView::Void);
    let wanted = [
        0x46, 1, 0, 6, 0, 0, 0, 1, 1, 0x61, 1, 0, 0, 0, 0, 1, 0x62, 2, 0, 0, 0, 1, 1, 2, 0x62,
        0x62, 2, 0, 0, 0, 1, 0, 1, 0x63, 3, 0, 0, 0, 8, 1, 2, 3, 4, 5, 6, 7, 8, 1, 0x64, 4, 0, 0,
        0, 2, 0xc3, 0xa9, 1, 0x65, 5, 0, 0, 0, 2, 0, 255, 255,
    ];
    assert_frame(&rt, rt.alloc(), &packet, &wanted)
}

/// The names of 64 attributes, in their order.
pub(crate) const NAMES: [&str; 64] = [
    "a0", "a1", "a2", "a3", "a4", "a5", "a6", "a7", "b0", "b1", "b2", "b3", "b4", "b5", "b6", "b7",
    "c0", "c1", "c2", "c3", "c4", "c5", "c6", "c7", "d0", "d1", "d2", "d3", "d4", "d5", "d6", "d7",
    "e0", "e1", "e2", "e3", "e4", "e5", "e6", "e7", "f0", "f1", "f2", "f3", "f4", "f5", "f6", "f7",
    "g0", "g1", "g2", "g3", "g4", "g5", "g6", "g7", "h0", "h1", "h2", "h3", "h4", "h5", "h6", "h7",
];

/// A name of 64 bytes.
pub(crate) const LONGEST_NAME: [u8; 64] = [0x6e; 64];

/// The text that the bytes are.
pub(crate) fn text<'a>(rt: &impl Abort, bytes: &'a [u8]) -> &'a str {
    std::str::from_utf8(bytes).expect(rt, "no text")
}

/// Gives the packet void attributes of these names, the last one first.
pub(crate) fn set_all(rt: &impl Abort, packet: &mut VecPacket, names: &[&str])
    requires { IsLegal (plain_of packet.old) }
    ensures { IsLegal (plain_of packet.new) }
{
    for name in names.iter().rev() {
        set_attr(rt, packet, name.as_bytes(), ValueView::Void);
    }
}

/// Adds the bytes of void attributes of these names.
fn add_voids(out: &mut Vec<u8>, names: &[&str]) -> Result<(), Fail> {
    for name in names {
        out.push(2)?;
        out.extend_from_slice(name.as_bytes())?;
        out.extend_from_slice(&[1, 0, 0, 0, 0])?;
    }
    Ok(())
}

#[test]
fn a_packet_of_64_attributes_is_written(rt: HostRuntime) -> Result<(), Fail> {
    let mut packet = fresh(&rt, rt.alloc(), b"");
    set_all(&rt, &mut packet, &NAMES);
    let mut wanted = Vec::from_slice(rt.alloc(), &[0x46, 1, 0, 64, 0, 0, 0, 0])?;
    add_voids(&mut wanted, &NAMES)?;
    assert_eq!(rt; wanted.len(), 520);
    assert_frame(&rt, rt.alloc(), &packet, &wanted)
}

#[test]
fn the_greatest_packet_and_value_are_written(rt: HostRuntime) -> Result<(), Fail> {
    let alloc = rt.alloc();
    let bytes = vec![in alloc; 7; 1_048_576]?;
    let value = vec![in alloc; 8; 4096]?;
    let mut packet = fresh(&rt, alloc, &bytes);
    set_opaque(&rt, &mut packet, b"x", &value);
    let head = [0x46, 1, 0, 1, 0, 0x10, 0, 0, 1, 0x78, 5, 0, 0, 0x10, 0];
    let mut wanted = Vec::from_slice(alloc, &head)?;
    wanted.extend_from_slice(&value)?;
    wanted.extend_from_slice(&bytes)?;
    assert_frame(&rt, alloc, &packet, &wanted)
}

/// What is behind the frame at the front has so many bytes, or this is why there is none.
pub(crate) fn assert_front(rt: &impl Abort, bytes: &[u8], wanted: Result<usize, NotWhole>) {
    match behind_frame(bytes) {
        Ok(rest) => assert_eq!(rt; Ok(rest.len()), wanted),
        Err(refused) => assert_eq!(rt; Err(refused), wanted),
    }
}

/// The packet `hi` with five attributes, one of each type.
pub(crate) const EACH_TYPE: [u8; 60] = [
    0x46, 1, 0, 5, 0, 0, 0, 2, 1, 0x61, 1, 0, 0, 0, 0, 1, 0x62, 2, 0, 0, 0, 1, 1, 1, 0x63, 3, 0, 0,
    0, 8, 1, 2, 3, 4, 5, 6, 7, 8, 1, 0x64, 4, 0, 0, 0, 2, 0xc3, 0xa9, 2, 0x64, 0x64, 5, 0, 0, 0, 1,
    255, 104, 105, 0x46, 9,
];

#[test]
fn a_whole_frame_ends_where_the_next_begins(rt: HostRuntime) {
    assert_front(&rt, &[0x46, 1, 0, 0, 0, 0, 0, 2, 97, 98, 9], Ok(1));
    assert_front(&rt, &[0x46, 1, 0, 0, 0, 0, 0, 0], Ok(0));
    assert_front(&rt, &EACH_TYPE, Ok(2));
}

#[test]
fn each_front_of_a_frame_is_unfinished(rt: HostRuntime) {
    for size in 0..58 {
        assert_front(&rt, &EACH_TYPE[..size], Err(NotWhole::Unfinished));
    }
}

/// The frame of the packet is passed over whole, and a byte behind it is left.
fn assert_passed(rt: &impl Abort, alloc: Global, packet: &VecPacket)
    requires { IsLegal (plain_of packet.now) }
{
    let mut out = Bytes::new(alloc);
    assert_eq!(rt; write_frame(packet, &mut out), Ok(()));
    assert_eq!(rt; out.push(7), Ok(()));
    assert_front(rt, out.as_slice(), Ok(1));
}

#[test]
fn frames_at_their_limits_are_passed_over(rt: HostRuntime) -> Result<(), Fail> {
    let alloc = rt.alloc();
    let mut packet = fresh(&rt, alloc, &vec![in alloc; 7; 1_048_576]?);
    set_all(&rt, &mut packet, &NAMES);
    assert_passed(&rt, alloc, &packet);
    let mut packet = fresh(&rt, alloc, b"");
    set_opaque(&rt, &mut packet, b"x", &vec![in alloc; 8; 4096]?);
    assert_passed(&rt, alloc, &packet);
    let mut packet = fresh(&rt, alloc, b"");
    set_words(&rt, &mut packet, &LONGEST_NAME, text(&rt, &[0x74; 4096]));
    assert_passed(&rt, alloc, &packet);
    Ok(())
}
