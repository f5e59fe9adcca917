ghost use Rattle.up_trials.specs.Standing.{IsVecStrand};

use crate::left::{finish, run_rows, sums};
use crate::row::{CAPTURE, Does, Row, behind, pipe_row};
use crate::run::{Tried, give_end, give_packet, packet_of, read_on, take_out};
use crate::sent::assert_sent;
use crate::split::Split;
use std::process::Abort;
use std::test::Fail;
use up_model::{CatchSet, Outcome};
use up_outside::{DepotCall, MemDepot};
use up_queue::{EndKind, Item};
use up_shape::{VecPacket, VecStore};
use up_strand::Want;

/// A source, a `dup` behind it, and behind that a sink, a `skip` of two bytes to a sink, and the lane of another worker.
fn fan() -> [Row; 7] {
    [
        pipe_row(CAPTURE, "one", None),
        pipe_row(Does::Dup, "one", Some(0)),
        pipe_row(Does::Sink, "one", Some(1)),
        pipe_row(Does::Skip(2), "one", Some(1)),
        pipe_row(Does::Sink, "one", Some(3)),
        pipe_row(Does::Idem, "two", Some(1)),
        pipe_row(Does::Sink, "two", Some(5)),
    ]
}

/// A depot that holds seven bytes for the source.
fn seven(rt: &HostRuntime) -> Result<MemDepot, Fail> {
    let mut depot = MemDepot::new(rt.alloc());
    depot.hold("pipe0", b"abcdefg")?;
    Ok(depot)
}

#[test]
fn a_strand_carries_each_packet_of_its_source_to_all_of_its_ends(
    rt: HostRuntime,
) -> Result<(), Fail> {
    let alloc = rt.alloc();
    let s = &mut VecStore::new(alloc);
    let mut sent = Vec::new(alloc);
    let left = run_rows::<VecPacket>(&rt, alloc, &fan(), &mut seven(&rt)?, &mut sent, s)?;
    let out: [(u16, Item<&[u8]>); 4] = [
        (5, Item::Packet(b"abc")),
        (5, Item::Packet(b"def")),
        (5, Item::Packet(b"g")),
        (5, Item::End(EndKind::Whole)),
    ];
    assert_sent(&rt, &sent, &out);
    assert!(rt; left.source.is_some());
    left.assert_ends(&rt, &[b"abcdefg", b"cf"], &[Outcome::Whole; 5]);
    left.assert_sums(
        &rt,
        &[
            sums(0, 3, 0, 0),
            sums(3, 3, 0, 0),
            sums(3, 0, 0, 0),
            sums(3, 2, 1, 5),
            sums(2, 0, 0, 0),
        ],
    );
    Ok(())
}

#[test]
fn a_probe_of_a_pipe_catches_what_it_drops_and_cuts(rt: HostRuntime) -> Result<(), Fail> {
    let alloc = rt.alloc();
    for (drop, cut, counted) in [
        (true, false, sums(3, 2, 0, 5)),
        (false, true, sums(3, 2, 1, 0)),
        (true, true, sums(3, 2, 0, 0)),
    ] {
        let s = &mut VecStore::new(alloc);
        let mut rows = fan();
        rows[3].caught = CatchSet {
            drop,
            cut,
            ..CatchSet::default()
        };
        let (depot, sent) = (&mut seven(&rt)?, &mut Vec::new(alloc));
        let left = run_rows::<VecPacket>(&rt, alloc, &rows, depot, sent, s)?;
        assert!(rt; left.tallies.len() == 5);
        assert_eq!(rt; *left.tallies.at(3), counted);
    }
    Ok(())
}

#[test]
fn a_read_that_fails_breaks_all_behind_it(rt: HostRuntime) -> Result<(), Fail> {
    let alloc = rt.alloc();
    let s = &mut VecStore::new(alloc);
    let mut depot = seven(&rt)?;
    depot.cut(2);
    depot.fail(DepotCall::Read, "pipe0", 4)?;
    let mut sent = Vec::new(alloc);
    let left = run_rows::<VecPacket>(&rt, alloc, &fan(), &mut depot, &mut sent, s)?;
    assert_sent(
        &rt,
        &sent,
        &[(5, Item::Packet(b"abc")), (5, Item::End(EndKind::Broken))],
    );
    let mut outcomes = [Outcome::Broken; 5];
    outcomes[0] = Outcome::ReadFault;
    left.assert_ends(&rt, &[b"abc", b"c"], &outcomes);
    Ok(())
}

#[test]
fn a_write_that_fails_leaves_all_but_its_sink(rt: HostRuntime) -> Result<(), Fail> {
    let alloc = rt.alloc();
    let s = &mut VecStore::new(alloc);
    let mut depot = seven(&rt)?;
    depot.fail(DepotCall::Write, "pipe2", 2)?;
    let mut sent = Vec::new(alloc);
    let left = run_rows::<VecPacket>(&rt, alloc, &fan(), &mut depot, &mut sent, s)?;
    assert!(rt; sent.len() == 4);
    assert!(rt; sent[3].is_end(EndKind::Whole));
    let mut outcomes = [Outcome::Whole; 5];
    outcomes[2] = Outcome::WriteFault;
    left.assert_ends(&rt, &[b"abc", b"cf"], &outcomes);
    assert!(rt; left.tallies.len() == 5);
    assert_eq!(rt; *left.tallies.at(2), sums(3, 0, 0, 0));
    Ok(())
}

#[test]
fn a_source_beyond_its_limit_is_told_with_it(rt: HostRuntime) -> Result<(), Fail> {
    let alloc = rt.alloc();
    let s = &mut VecStore::new(alloc);
    let mut rows = fan();
    rows[0].does = Does::Source { block: 2, limit: 5 };
    let mut sent = Vec::new(alloc);
    let left = run_rows::<VecPacket>(&rt, alloc, &rows, &mut seven(&rt)?, &mut sent, s)?;
    let out: [(u16, Item<&[u8]>); 3] = [
        (5, Item::Packet(b"ab")),
        (5, Item::Packet(b"cd")),
        (5, Item::End(EndKind::Broken)),
    ];
    assert_sent(&rt, &sent, &out);
    let mut outcomes = [Outcome::Broken; 5];
    outcomes[0] = Outcome::TooLong { limit: 5 };
    left.assert_ends(&rt, &[b"abcd", b""], &outcomes);
    Ok(())
}

/// Whether the item is this one.
fn is_item(item: &Item<VecPacket>, wanted: &Item<&[u8]>) -> bool {
    match (item, wanted) {
        (Item::Packet(packet), Item::Packet(bytes)) => packet.bytes() == *bytes,
        (Item::End(kind), Item::End(other)) => kind == other,
        _ => false,
    }
}

/// Takes this item out for the lane, and puts it back.
fn take_back(rt: &impl Abort, strand: &mut Tried<VecPacket>, lane: u16, wanted: &Item<&[u8]>)
    requires { IsVecStrand strand.old }
    ensures { IsVecStrand strand.new }
{
    assert_eq!(rt; strand.wants(), Want::Output { lane });
    let item = strand.next_out();
    assert!(rt; is_item(&item, wanted));
    strand.keep_out(item);
}

/// Takes this item out for the lane, puts it back, and takes it out again.
fn take_twice(rt: &impl Abort, strand: &mut Tried<VecPacket>, lane: u16, wanted: &Item<&[u8]>)
    requires { IsVecStrand strand.old }
    ensures { IsVecStrand strand.new }
{
    take_back(rt, strand, lane, wanted);
    assert_eq!(rt; strand.wants(), Want::Output { lane });
    let item = take_out(strand, lane);
    assert!(rt; is_item(&item, wanted));
}

/// Gives the strand a packet of these bytes.
fn give_bytes(rt: &impl Abort, strand: &mut Tried<VecPacket>, bytes: &[u8], s: &mut VecStore)
    requires { IsVecStrand strand.old }
    ensures { IsVecStrand strand.new }
{
    let packet = packet_of(rt, bytes, s);
    give_packet(rt, strand, packet, s);
}

#[test]
fn an_item_that_comes_back_is_the_next_to_go_out_for_the_first_lane(
    rt: HostRuntime,
) -> Result<(), Fail> {
    let alloc = rt.alloc();
    for (kind, outcome) in [
        (EndKind::Whole, Outcome::Whole),
        (EndKind::Broken, Outcome::Broken),
    ] {
        let s = &mut VecStore::new(alloc);
        let mut depot = MemDepot::new(alloc);
        let split = Split::of(&rt, alloc, &behind())?;
        let mut strand: Tried<VecPacket> = split.strand(&rt, alloc, 1, &mut depot);
        give_bytes(&rt, &mut strand, b"abc", s);
        take_twice(&rt, &mut strand, 2, &Item::Packet(b"abc"));
        take_twice(&rt, &mut strand, 5, &Item::Packet(b"abc"));
        give_bytes(&rt, &mut strand, b"", s);
        take_twice(&rt, &mut strand, 2, &Item::Packet(b""));
        take_twice(&rt, &mut strand, 5, &Item::Packet(b""));
        give_end(&rt, &mut strand, kind, s);
        take_twice(&rt, &mut strand, 2, &Item::End(kind));
        take_twice(&rt, &mut strand, 5, &Item::End(kind));
        assert_eq!(rt; strand.wants(), Want::Done);
        let left = finish(strand, s);
        assert!(rt; left.source.is_none());
        left.assert_ends(&rt, &[b"abc"], &[outcome; 3]);
        left.assert_sums(&rt, &[sums(2, 2, 0, 0), sums(2, 2, 0, 0), sums(2, 0, 0, 0)]);
    }
    Ok(())
}

#[test]
fn a_strand_that_is_given_up_before_it_is_done_is_broken(rt: HostRuntime) -> Result<(), Fail> {
    let alloc = rt.alloc();
    let s = &mut VecStore::new(alloc);
    let mut depot = seven(&rt)?;
    let split = Split::of(&rt, alloc, &fan())?;
    let at_once: Tried<VecPacket> = split.strand(&rt, alloc, 0, &mut depot);
    let left = finish(at_once, s);
    assert!(rt; left.source.is_some());
    left.assert_ends(&rt, &[b"", b""], &[Outcome::Broken; 5]);
    left.assert_sums(&rt, &[sums(0, 0, 0, 0); 5]);
    let mut one: Tried<VecPacket> = split.strand(&rt, alloc, 0, &mut depot);
    assert_eq!(rt; one.wants(), Want::Read);
    read_on(&mut one, s);
    let left = finish(one, s);
    left.assert_ends(&rt, &[b"abc", b"c"], &[Outcome::Broken; 5]);
    Ok(())
}

#[test]
fn a_strand_that_is_given_up_while_its_end_waits_is_broken(rt: HostRuntime) -> Result<(), Fail> {
    let alloc = rt.alloc();
    let s = &mut VecStore::new(alloc);
    let mut depot = MemDepot::new(alloc);
    let split = Split::of(&rt, alloc, &behind())?;
    let mut strand: Tried<VecPacket> = split.strand(&rt, alloc, 1, &mut depot);
    give_bytes(&rt, &mut strand, b"ab", s);
    take_twice(&rt, &mut strand, 2, &Item::Packet(b"ab"));
    take_twice(&rt, &mut strand, 5, &Item::Packet(b"ab"));
    give_end(&rt, &mut strand, EndKind::Whole, s);
    take_twice(&rt, &mut strand, 2, &Item::End(EndKind::Whole));
    take_back(&rt, &mut strand, 5, &Item::End(EndKind::Whole));
    let left = finish(strand, s);
    left.assert_ends(&rt, &[b"ab"], &[Outcome::Broken; 3]);
    left.assert_sums(&rt, &[sums(1, 1, 0, 0), sums(1, 1, 0, 0), sums(1, 0, 0, 0)]);
    Ok(())
}

#[test]
fn a_packet_that_came_back_is_given_up_with_its_strand(rt: HostRuntime) -> Result<(), Fail> {
    let alloc = rt.alloc();
    let s = &mut VecStore::new(alloc);
    let mut depot = MemDepot::new(alloc);
    let split = Split::of(&rt, alloc, &behind())?;
    let mut strand: Tried<VecPacket> = split.strand(&rt, alloc, 1, &mut depot);
    give_bytes(&rt, &mut strand, b"ab", s);
    take_back(&rt, &mut strand, 2, &Item::Packet(b"ab"));
    let left = finish(strand, s);
    left.assert_ends(&rt, &[b"ab"], &[Outcome::Broken; 3]);
    Ok(())
}

/// Takes only what may cross threads.
fn is_send<T: Send>(_: &T) {}

#[test]
fn strands_may_cross_threads(rt: HostRuntime) -> Result<(), Fail> {
    let alloc = rt.alloc();
    let s = &mut VecStore::new(alloc);
    let mut depot = seven(&rt)?;
    let split = Split::of(&rt, alloc, &fan())?;
    let strand: Tried<VecPacket> = split.strand(&rt, alloc, 0, &mut depot);
    is_send(&strand);
    let _ = finish(strand, s);
    Ok(())
}
