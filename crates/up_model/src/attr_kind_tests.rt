// The kinds that set, match and move attributes.
ghost use Rattle.std.specs.Prelude.{◌≤◌, All, IfOk};
ghost use Rattle.up_model.specs.Packet.{IsLegal};

use crate::attr_tests::assert_seen;
use crate::plain_packet_tests::{assert_attr, bare, put, set};
use crate::plain_tests::three;
use crate::{Kind, PacketList, PlainPacket, Value, ValueView, plain_out};
use std::alloc::Global;
use std::process::Abort;
use std::test::Fail;
use up_base::{AttrName, Bytes, Text};

/// What a pipe of this kind puts out for the flow.
fn put_out(
    rt: &impl Abort,
    alloc: Global,
    kind: Kind,
    flow: &PacketList,
) -> Result<PacketList, Fail>
    requires { All IsLegal flow.now }
{
    let graph = three(alloc, 2, kind)?;
    assert!(rt; graph.is_well_formed());
    assert!(rt; graph.pipes.len() == 3);
    let between = &graph.pipes.at(1).kind;
    assert!(rt; !between.is_source() && !between.is_sink());
    Ok(plain_out(alloc, &graph, 1, flow, true)?)
}

/// The packet alone.
fn alone(alloc: Global, packet: PlainPacket) -> Result<PacketList, Fail>
    requires { IsLegal packet }
    ensures { IfOk result (All IsLegal) }
{
    let mut flow = PacketList::new(alloc);
    put(&mut flow, packet)?;
    Ok(flow)
}

/// A packet `ab` with this attribute, alone.
fn one(rt: &impl Abort, alloc: Global, name: &[u8], value: Value) -> Result<PacketList, Fail>
    ensures { IfOk result (All IsLegal) }
{
    let mut packet = bare(alloc, b"ab")?;
    set(rt, &mut packet, name, value)?;
    alone(alloc, packet)
}

/// A packet `ab` with a `title`, a `rate` of 25, and three dates: a text, a void value, and 5.
fn several(rt: &impl Abort, alloc: Global) -> Result<PacketList, Fail>
    ensures { IfOk result (All IsLegal) }
{
    let mut packet = bare(alloc, b"ab")?;
    set(rt, &mut packet, b"title", Value::Flag(true))?;
    set(rt, &mut packet, b"rate", Value::Unsigned(25))?;
    let text = Value::Words(Text::from_str(alloc, "7")?);
    set(rt, &mut packet, b"date.orig", text)?;
    set(rt, &mut packet, b"date.prog", Value::Void)?;
    set(rt, &mut packet, b"date.sys", Value::Unsigned(5))?;
    alone(alloc, packet)
}

/// The flow is a packet `ab` with these attributes and no others.
fn assert_alone(
    rt: &impl Abort,
    flow: &PacketList,
    wanted: &[(&str, ValueView<'_>)],
) -> Result<(), Fail> {
    assert_eq!(rt; flow.len(), 1);
    let packet = flow.at(0);
    assert_eq!(rt; packet.bytes.as_slice(), b"ab".as_slice());
    assert_eq!(rt; packet.attrs.len(), wanted.len());
    for (name, value) in wanted {
        assert_attr(rt, &packet.attrs, name.as_bytes(), *value)?;
    }
    Ok(())
}

#[test]
fn setattr_gives_a_packet_the_attribute(rt: HostRuntime) -> Result<(), Fail> {
    let alloc = rt.alloc();
    let kind = Kind::SetAttr {
        attr: AttrName::read(b"title")?,
        value: Value::Words(Text::from_str(alloc, "caf\u{e9}")?),
    };
    let left = put_out(&rt, alloc, kind, &several(&rt, alloc)?)?;
    let wanted = [
        ("date.orig", ValueView::Words("7")),
        ("date.prog", ValueView::Void),
        ("date.sys", ValueView::Unsigned(5)),
        ("rate", ValueView::Unsigned(25)),
        ("title", ValueView::Words("caf\u{e9}")),
    ];
    assert_alone(&rt, &left, &wanted)
}

#[test]
fn setattr_gives_a_value_of_any_type(rt: HostRuntime) -> Result<(), Fail> {
    let alloc = rt.alloc();
    let greatest = ValueView::Unsigned(18_446_744_073_709_551_615);
    for (value, wanted) in [
        (Value::Void, ValueView::Void),
        (Value::Flag(true), ValueView::Flag(true)),
        (Value::Flag(false), ValueView::Flag(false)),
        (Value::Unsigned(0), ValueView::Unsigned(0)),
        (Value::Unsigned(u64::MAX), greatest),
    ] {
        let attr = AttrName::read(b"rate")?;
        let flow = one(&rt, alloc, b"rate", Value::Unsigned(25))?;
        let left = put_out(&rt, alloc, Kind::SetAttr { attr, value }, &flow)?;
        assert_alone(&rt, &left, &[("rate", wanted)])?;
    }
    Ok(())
}

/// The name at a place of 64, in their order.
fn pair(place: u8) -> [u8; 2]
    requires { place ≤ 63 }
{
    [b'a' + place / 8, b'a' + place % 8]
}

/// A packet `ab` with so many attributes, at most 64, alone.
fn full(rt: &impl Abort, alloc: Global, count: u8) -> Result<PacketList, Fail>
    requires { count ≤ 64 }
    ensures { IfOk result (All IsLegal) }
{
    let mut packet = bare(alloc, b"ab")?;
    for place in 0..count {
        let number = Value::Unsigned(u64::from(place));
        set(rt, &mut packet, &pair(place), number)?;
    }
    alone(alloc, packet)
}

/// What `setattr` of a flag puts out for a packet with so many attributes.
fn flagged(rt: &impl Abort, alloc: Global, name: &[u8], count: u8) -> Result<PacketList, Fail>
    requires { count ≤ 64 }
{
    let kind = Kind::SetAttr {
        attr: AttrName::read(name)?,
        value: Value::Flag(true),
    };
    put_out(rt, alloc, kind, &full(rt, alloc, count)?)
}

#[test]
fn setattr_drops_a_packet_that_would_have_65_attributes(rt: HostRuntime) -> Result<(), Fail> {
    let alloc = rt.alloc();
    assert_eq!(rt; flagged(&rt, alloc, b"x", 64)?.len(), 0);
    let left = flagged(&rt, alloc, b"x", 63)?;
    assert_eq!(rt; left.len(), 1);
    assert_eq!(rt; left.at(0).attrs.len(), 64);
    assert_attr(&rt, &left.at(0).attrs, b"x", ValueView::Flag(true))
}

#[test]
fn setattr_replaces_one_of_64_attributes(rt: HostRuntime) -> Result<(), Fail> {
    let left = flagged(&rt, rt.alloc(), b"hh", 64)?;
    assert_eq!(rt; left.len(), 1);
    assert_eq!(rt; left.at(0).attrs.len(), 64);
    assert_attr(&rt, &left.at(0).attrs, b"hg", ValueView::Unsigned(62))?;
    assert_attr(&rt, &left.at(0).attrs, b"hh", ValueView::Flag(true))
}

/// What `match_attr` of `rate` puts out for the flow.
fn matched(
    rt: &impl Abort,
    alloc: Global,
    low: u64,
    high: u64,
    flow: &PacketList,
) -> Result<PacketList, Fail>
    requires { All IsLegal flow.now }
{
    let attr = AttrName::read(b"rate")?;
    put_out(rt, alloc, Kind::MatchAttr { attr, low, high }, flow)
}

#[test]
fn match_attr_passes_numbers_from_low_to_high(rt: HostRuntime) -> Result<(), Fail> {
    let alloc = rt.alloc();
    for (low, high, number, count) in [
        (3, 9, 2, 0),
        (3, 9, 3, 1),
        (3, 9, 9, 1),
        (3, 9, 10, 0),
        (7, 7, 6, 0),
        (7, 7, 7, 1),
        (7, 7, 8, 0),
        (0, u64::MAX, 0, 1),
        (0, u64::MAX, 18_446_744_073_709_551_615, 1),
    ] {
        let flow = one(&rt, alloc, b"rate", Value::Unsigned(number))?;
        assert_eq!(rt; matched(&rt, alloc, low, high, &flow)?.len(), count);
    }
    Ok(())
}

#[test]
fn match_attr_drops_what_is_no_number(rt: HostRuntime) -> Result<(), Fail> {
    let alloc = rt.alloc();
    for value in [
        Value::Void,
        Value::Flag(true),
        Value::Words(Text::from_str(alloc, "7")?),
        Value::Opaque(Bytes::from_slice(alloc, &[7])?),
    ] {
        let flow = one(&rt, alloc, b"rate", value)?;
        assert_eq!(rt; matched(&rt, alloc, 0, u64::MAX, &flow)?.len(), 0);
    }
    let flow = one(&rt, alloc, b"Rate", Value::Unsigned(7))?;
    assert_eq!(rt; matched(&rt, alloc, 0, u64::MAX, &flow)?.len(), 0);
    Ok(())
}

#[test]
fn match_attr_passes_a_packet_as_it_is(rt: HostRuntime) -> Result<(), Fail> {
    let alloc = rt.alloc();
    let left = matched(&rt, alloc, 25, 26, &several(&rt, alloc)?)?;
    let wanted = [
        ("date.orig", ValueView::Words("7")),
        ("date.prog", ValueView::Void),
        ("date.sys", ValueView::Unsigned(5)),
        ("rate", ValueView::Unsigned(25)),
        ("title", ValueView::Flag(true)),
    ];
    assert_alone(&rt, &left, &wanted)
}

/// The packet has this date there, or nothing.
fn assert_date(
    rt: &impl Abort,
    packet: &PlainPacket,
    name: &[u8],
    wanted: Option<u64>,
) -> Result<(), Fail> {
    match (packet.attrs.get(&AttrName::read(name)?), wanted) {
        (Some(value), Some(date)) => assert_seen(rt, value, ValueView::Unsigned(date)),
        (None, None) => {}
        _ => assert!(rt; false, "a date that is not wanted, or none"),
    }
    Ok(())
}

/// A date of this name is moved so.
fn assert_moved(
    rt: &impl Abort,
    alloc: Global,
    name: &[u8],
    date: u64,
    by: i64,
    wanted: Option<u64>,
) -> Result<(), Fail> {
    let flow = one(rt, alloc, name, Value::Unsigned(date))?;
    let left = put_out(rt, alloc, Kind::Delay { by }, &flow)?;
    assert_eq!(rt; left.len(), 1);
    assert_eq!(rt; left.at(0).bytes.as_slice(), b"ab".as_slice());
    assert_date(rt, left.at(0), name, wanted)
}

#[test]
fn delay_moves_a_date_or_takes_it_away(rt: HostRuntime) -> Result<(), Fail> {
    let alloc = rt.alloc();
    let greatest = 18_446_744_073_709_551_615;
    for (date, by, wanted) in [
        (0, -1, None),
        (1, -1, Some(0)),
        (5, 0, Some(5)),
        (27_000_000, 27_000_000, Some(54_000_000)),
        (18_446_744_073_709_551_614, 1, Some(greatest)),
        (greatest, 1, None),
        (9_223_372_036_854_775_808, i64::MIN, Some(0)),
        (9_223_372_036_854_775_807, i64::MIN, None),
        (9_223_372_036_854_775_808, i64::MAX, Some(greatest)),
        (9_223_372_036_854_775_809, i64::MAX, None),
    ] {
        assert_moved(&rt, alloc, b"date.sys", date, by, wanted)?;
        assert_moved(&rt, alloc, b"date.prog", date, by, wanted)?;
        assert_moved(&rt, alloc, b"date.orig", date, by, wanted)?;
    }
    Ok(())
}

#[test]
fn delay_leaves_all_else_as_it_is(rt: HostRuntime) -> Result<(), Fail> {
    let alloc = rt.alloc();
    let left = put_out(&rt, alloc, Kind::Delay { by: 100 }, &several(&rt, alloc)?)?;
    let wanted = [
        ("date.orig", ValueView::Words("7")),
        ("date.prog", ValueView::Void),
        ("date.sys", ValueView::Unsigned(105)),
        ("rate", ValueView::Unsigned(25)),
        ("title", ValueView::Flag(true)),
    ];
    assert_alone(&rt, &left, &wanted)
}
