// What becomes of attributes in a strand behind a lane.
ghost use Rattle.up_model.specs.Packet.{IsLegal};
ghost use Rattle.up_shape.specs.VecPackets.{plain_of};
ghost use Rattle.up_trials.specs.Standing.{IsVecStrand};

use crate::left::{finish, sums};
use crate::plain_copies::give_attr;
use crate::row::{CAPTURE, Does, Row, pipe_row};
use crate::run::{Tried, give_end, give_packet, packet_of, take_out};
use crate::split::Split;
use std::process::Abort;
use std::test::Fail;
use up_base::AttrName;
use up_model::{Outcome, ValueView};
use up_outside::MemDepot;
use up_queue::{EndKind, Item};
use up_shape::{LocalPacket, VecPacket, VecStore};
use up_strand::Want;

/// A source, and on another worker a `dup` that feeds the lane of a third, and a `delattr` of `key`, behind which are a
/// sink and the lane of a fourth.
fn behind_lane() -> [Row; 7] {
    [
        pipe_row(CAPTURE, "one", None),
        pipe_row(Does::Dup, "two", Some(0)),
        pipe_row(Does::DelAttr("key"), "two", Some(1)),
        pipe_row(Does::Dup, "two", Some(2)),
        pipe_row(Does::Sink, "two", Some(3)),
        pipe_row(Does::Sink, "three", Some(1)),
        pipe_row(Does::Sink, "four", Some(3)),
    ]
}

/// A packet with flags of these names.
fn flagged(rt: &impl Abort, bytes: &[u8], names: &[&str], s: &mut VecStore) -> VecPacket
    ensures { IsLegal (plain_of result) }
{
    let mut packet = packet_of(rt, bytes, s);
    for name in names {
        let name = AttrName::read(name.as_bytes()).expect(rt, "no name");
        give_attr(rt, &mut packet, &name, ValueView::Flag(true));
    }
    packet
}

/// The packet has these bytes, and attributes of these names.
fn assert_flags(rt: &impl Abort, packet: &VecPacket, bytes: &[u8], names: &[&str]) {
    assert_eq!(rt; packet.bytes(), bytes);
    assert_eq!(rt; packet.attr_count(), names.len());
    for (i, name) in names.iter().enumerate() {
        assert!(rt; i < packet.attr_count());
        let (found, _) = packet.attr_at(i);
        assert_eq!(rt; found.bytes(), name.as_bytes());
    }
}

/// Takes out a packet for this lane, which has these bytes and these attributes.
fn take_flagged(
    rt: &impl Abort,
    strand: &mut Tried<VecPacket>,
    lane: u16,
    bytes: &[u8],
    names: &[&str],
)
    requires { IsVecStrand strand.old }
    ensures { IsVecStrand strand.new }
{
    assert_eq!(rt; strand.wants(), Want::Output { lane });
    match take_out(strand, lane) {
        Item::Packet(packet) => assert_flags(rt, &packet, bytes, names),
        Item::End(kind) => panic!(rt; "an end: {kind:?}"),
    }
}

/// Takes out an end for this lane.
fn take_end(rt: &impl Abort, strand: &mut Tried<VecPacket>, lane: u16)
    requires { IsVecStrand strand.old }
    ensures { IsVecStrand strand.new }
{
    assert_eq!(rt; strand.wants(), Want::Output { lane });
    match take_out(strand, lane) {
        Item::Packet(packet) => panic!(rt; "a packet of {} bytes", packet.size()),
        Item::End(kind) => assert_eq!(rt; kind, EndKind::Whole),
    }
}

#[test]
fn attributes_go_through_a_strand_and_one_is_taken_away_behind_its_pipe(
    rt: HostRuntime,
) -> Result<(), Fail> {
    let s = &mut VecStore::new(rt.alloc());
    let mut depot = MemDepot::new(rt.alloc());
    let split = Split::of(&rt, rt.alloc(), &behind_lane())?;
    let mut strand: Tried<VecPacket> = split.strand(&rt, rt.alloc(), 1, &mut depot);
    let packet = flagged(&rt, b"ab", &["pts", "key", "dts"], s);
    give_packet(&rt, &mut strand, packet, s);
    take_flagged(&rt, &mut strand, 5, b"ab", &["dts", "key", "pts"]);
    take_flagged(&rt, &mut strand, 6, b"ab", &["dts", "pts"]);
    let packet = flagged(&rt, b"cde", &["key"], s);
    give_packet(&rt, &mut strand, packet, s);
    take_flagged(&rt, &mut strand, 5, b"cde", &["key"]);
    take_flagged(&rt, &mut strand, 6, b"cde", &[]);
    give_end(&rt, &mut strand, EndKind::Whole, s);
    take_end(&rt, &mut strand, 5);
    take_end(&rt, &mut strand, 6);
    let left = finish(strand, s);
    left.assert_ends(&rt, &[b"abcde"], &[Outcome::Whole; 4]);
    let passed = sums(2, 2, 0, 0);
    left.assert_sums(&rt, &[passed, passed, passed, sums(2, 0, 0, 0)]);
    Ok(())
}

/// A source, and on another worker a `match_attr`, a `delay` and a `setattr`, behind which are the lane of a third and a
/// sink.
fn numbers_behind_lane() -> [Row; 7] {
    let (attr, low, high) = ("date.sys", 2, 4);
    [
        pipe_row(CAPTURE, "one", None),
        pipe_row(Does::MatchAttr { attr, low, high }, "two", Some(0)),
        pipe_row(Does::Delay(-3), "two", Some(1)),
        pipe_row(
            Does::SetAttr {
                attr: "rank",
                value: 7,
            },
            "two",
            Some(2),
        ),
        pipe_row(Does::Dup, "two", Some(3)),
        pipe_row(Does::Sink, "two", Some(4)),
        pipe_row(Does::Sink, "three", Some(4)),
    ]
}

/// The number under a name, where there is one.
fn number_under(rt: &impl Abort, packet: &VecPacket, name: &[u8]) -> Option<u64> {
    let name = AttrName::read(name).expect(rt, "no name");
    match packet.value(&name) {
        Some(ValueView::Unsigned(number)) => Some(number),
        _ => None,
    }
}

/// Takes out a packet for the lane of the third worker, which has these bytes, this date and the number 7 as its rank.
fn take_numbered(rt: &impl Abort, strand: &mut Tried<VecPacket>, bytes: &[u8], date: Option<u64>)
    requires { IsVecStrand strand.old }
    ensures { IsVecStrand strand.new }
{
    assert_eq!(rt; strand.wants(), Want::Output { lane: 6 });
    match take_out(strand, 6) {
        Item::Packet(packet) => {
            assert_eq!(rt; packet.bytes(), bytes);
            assert_eq!(rt; number_under(rt, &packet, b"date.sys"), date);
            assert_eq!(rt; number_under(rt, &packet, b"rank"), Some(7));
        }
        Item::End(kind) => panic!(rt; "an end: {kind:?}"),
    }
}

/// Gives the strand a packet with this date.
fn give_numbered(
    rt: &impl Abort,
    strand: &mut Tried<VecPacket>,
    bytes: &[u8],
    date: u64,
    s: &mut VecStore,
)
    requires { IsVecStrand strand.old }
    ensures { IsVecStrand strand.new }
{
    let sys = AttrName::read(b"date.sys").expect(rt, "no name");
    let mut packet: VecPacket = packet_of(rt, bytes, s);
    give_attr(rt, &mut packet, &sys, ValueView::Unsigned(date));
    give_packet(rt, strand, packet, s);
}

#[test]
fn numbers_are_matched_moved_and_set_in_a_strand(rt: HostRuntime) -> Result<(), Fail> {
    let s = &mut VecStore::new(rt.alloc());
    let mut depot = MemDepot::new(rt.alloc());
    let split = Split::of(&rt, rt.alloc(), &numbers_behind_lane())?;
    let mut strand: Tried<VecPacket> = split.strand(&rt, rt.alloc(), 1, &mut depot);
    give_numbered(&rt, &mut strand, b"a", 1, s);
    give_numbered(&rt, &mut strand, b"b", 2, s);
    take_numbered(&rt, &mut strand, b"b", None);
    give_numbered(&rt, &mut strand, b"c", 3, s);
    take_numbered(&rt, &mut strand, b"c", Some(0));
    give_numbered(&rt, &mut strand, b"d", 4, s);
    take_numbered(&rt, &mut strand, b"d", Some(1));
    give_numbered(&rt, &mut strand, b"e", 5, s);
    let packet = flagged(&rt, b"f", &["date.sys"], s);
    give_packet(&rt, &mut strand, packet, s);
    give_end(&rt, &mut strand, EndKind::Whole, s);
    take_end(&rt, &mut strand, 6);
    let left = finish(strand, s);
    left.assert_ends(&rt, &[b"bcd"], &[Outcome::Whole; 5]);
    let passed = sums(3, 3, 0, 0);
    left.assert_sums(
        &rt,
        &[sums(6, 3, 3, 3), passed, passed, passed, sums(3, 0, 0, 0)],
    );
    Ok(())
}
