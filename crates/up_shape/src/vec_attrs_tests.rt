ghost use Rattle.up_model.specs.Value.{lent, IsLegalValue};

use crate::vec_packet_tests::{assert_bytes, dup, fresh, front};
use crate::{LocalPacket, VecPacket, VecStore};
use std::alloc::Global;
use std::process::Abort;
use std::test::Fail;
use up_base::AttrName;
use up_model::{MAX_ATTRS, MAX_VALUE, ValueView};

fn set_attr<P: LocalPacket>(rt: &impl Abort, packet: &mut P, name: &str, value: ValueView<'_>)
    requires { IsLegalValue (lent value) }
{
    let name = AttrName::read(name.as_bytes()).expect(rt, "no name");
    let there = packet.value(&name).is_some();
    assert!(rt; there || packet.attr_count() < MAX_ATTRS);
    packet.set_attr(&name, value).expect(rt, "no memory");
}

fn set_words<P: LocalPacket>(rt: &impl Abort, packet: &mut P, name: &str, text: &str) {
    assert!(rt; text.len() <= MAX_VALUE);
    set_attr(rt, packet, name, ValueView::Words(text));
}

fn set_opaque<P: LocalPacket>(rt: &impl Abort, packet: &mut P, name: &str, bytes: &[u8]) {
    assert!(rt; bytes.len() <= MAX_VALUE);
    set_attr(rt, packet, name, ValueView::Opaque(bytes));
}

fn del_attr<P: LocalPacket>(rt: &impl Abort, packet: &mut P, name: &str) {
    let name = AttrName::read(name.as_bytes()).expect(rt, "no name");
    packet.del_attr(&name);
}

/// The packet has these attributes in this order, and no others.
fn assert_attrs<P: LocalPacket>(
    rt: &impl Abort,
    alloc: Global,
    packet: &P,
    wanted: &[(&str, &str)],
) -> Result<(), Fail> {
    assert_eq!(rt; packet.attr_count(), wanted.len());
    for (i, (name, value)) in wanted.iter().enumerate() {
        let (found, shown) = packet.attr_at(i);
        assert_eq!(rt; found.bytes(), name.as_bytes());
        let shown = format!(in alloc; "{shown:?}")?;
        assert_eq!(rt; shown.as_str(), *value);
    }
    Ok(())
}

/// The attribute has this value, or there is none.
fn assert_value<P: LocalPacket>(
    rt: &impl Abort,
    alloc: Global,
    packet: &P,
    name: &str,
    wanted: &str,
) -> Result<(), Fail> {
    let name = AttrName::read(name.as_bytes()).expect(rt, "no name");
    let shown = format!(in alloc; "{:?}", packet.value(&name))?;
    assert_eq!(rt; shown.as_str(), wanted);
    Ok(())
}

#[test]
fn attributes_stand_in_the_order_of_their_names(rt: HostRuntime) -> Result<(), Fail> {
    let alloc = rt.alloc();
    let mut packet: VecPacket = fresh(&rt, b"", &mut VecStore::new(alloc));
    set_attr(&rt, &mut packet, "pts", ValueView::Unsigned(7));
    set_words(&rt, &mut packet, "lang", "en");
    set_opaque(&rt, &mut packet, "x", &[1, 2]);
    set_attr(&rt, &mut packet, "key", ValueView::Flag(true));
    set_attr(&rt, &mut packet, "Z", ValueView::Void);
    let all = [
        ("Z", "Void"),
        ("key", "Flag(true)"),
        ("lang", "Words(\"en\")"),
        ("pts", "Unsigned(7)"),
        ("x", "Opaque([1, 2])"),
    ];
    assert_attrs(&rt, alloc, &packet, &all)?;
    set_attr(&rt, &mut packet, "pts", ValueView::Unsigned(8));
    del_attr(&rt, &mut packet, "key");
    del_attr(&rt, &mut packet, "absent");
    let rest = [
        ("Z", "Void"),
        ("lang", "Words(\"en\")"),
        ("pts", "Unsigned(8)"),
        ("x", "Opaque([1, 2])"),
    ];
    assert_attrs(&rt, alloc, &packet, &rest)?;
    assert_value(&rt, alloc, &packet, "pts", "Some(Unsigned(8))")?;
    assert_value(&rt, alloc, &packet, "key", "None")
}

#[test]
fn a_second_packet_keeps_its_own_attributes(rt: HostRuntime) -> Result<(), Fail> {
    let alloc = rt.alloc();
    let s = &mut VecStore::new(alloc);
    let mut packet: VecPacket = fresh(&rt, b"abc", s);
    let double = dup(&rt, &mut packet, s);
    set_attr(&rt, &mut packet, "x", ValueView::Unsigned(7));
    let mut later = dup(&rt, &mut packet, s);
    let first = front(&rt, &mut packet, 1, s);
    set_attr(&rt, &mut later, "x", ValueView::Unsigned(8));
    del_attr(&rt, &mut packet, "x");
    assert_attrs(&rt, alloc, &double, &[])?;
    assert_attrs(&rt, alloc, &first, &[("x", "Unsigned(7)")])?;
    assert_attrs(&rt, alloc, &later, &[("x", "Unsigned(8)")])?;
    assert_attrs(&rt, alloc, &packet, &[])?;
    assert_bytes(&rt, &double, b"abc");
    assert_eq!(rt; later.bytes(), b"abc".as_slice());
    assert_eq!(rt; (packet.attrs().len(), later.attrs().len()), (0, 1));
    Ok(())
}

/// The names of 64 attributes, in their order.
const NAMES: [&str; 64] = [
    "a0", "a1", "a2", "a3", "a4", "a5", "a6", "a7", "b0", "b1", "b2", "b3", "b4", "b5", "b6", "b7",
    "c0", "c1", "c2", "c3", "c4", "c5", "c6", "c7", "d0", "d1", "d2", "d3", "d4", "d5", "d6", "d7",
    "e0", "e1", "e2", "e3", "e4", "e5", "e6", "e7", "f0", "f1", "f2", "f3", "f4", "f5", "f6", "f7",
    "g0", "g1", "g2", "g3", "g4", "g5", "g6", "g7", "h0", "h1", "h2", "h3", "h4", "h5", "h6", "h7",
];

/// The attribute at the place has this name, and these bytes as its value.
fn assert_opaque<P: LocalPacket>(
    rt: &impl Abort,
    packet: &P,
    place: usize,
    name: &str,
    wanted: &[u8],
) {
    assert!(rt; place < packet.attr_count());
    let (found, value) = packet.attr_at(place);
    assert_eq!(rt; found.bytes(), name.as_bytes());
    match value {
        ValueView::Opaque(bytes) => assert_eq!(rt; bytes, wanted),
        _ => assert!(rt; false, "a value of another type"),
    }
}

#[test]
fn sixty_four_attributes_have_4096_bytes_each(rt: HostRuntime) -> Result<(), Fail> {
    let alloc = rt.alloc();
    let s = &mut VecStore::new(alloc);
    let mut packet: VecPacket = fresh(&rt, b"", s);
    for (place, name) in NAMES.iter().enumerate().rev() {
        set_opaque(&rt, &mut packet, name, &vec![in alloc; place as u8; 4096]?);
    }
    assert_eq!(rt; packet.attr_count(), 64);
    set_opaque(&rt, &mut packet, "h7", &vec![in alloc; 200; 4096]?);
    let double = dup(&rt, &mut packet, s);
    assert_eq!(rt; double.attr_count(), 64);
    for (place, name) in NAMES.iter().enumerate() {
        let byte = if place == 63 { 200 } else { place as u8 };
        assert_opaque(&rt, &packet, place, name, &vec![in alloc; byte; 4096]?);
        assert_opaque(&rt, &double, place, name, &vec![in alloc; byte; 4096]?);
    }
    Ok(())
}

#[test]
fn a_text_has_4096_bytes(rt: HostRuntime) -> Result<(), Fail> {
    let text = "x".repeat(rt.alloc(), 4096)?;
    let mut packet: VecPacket = fresh(&rt, b"", &mut VecStore::new(rt.alloc()));
    set_words(&rt, &mut packet, "title", &text);
    let title = AttrName::read(b"title")?;
    match packet.value(&title) {
        Some(ValueView::Words(found)) => assert_eq!(rt; found, text.as_str()),
        _ => assert!(rt; false, "no text"),
    }
    Ok(())
}
