// Strands whose memory runs out, at a `dup` of a packet that is refused.
use crate::left::{Left, finish, run_rows};
use crate::plain_copies::bare;
use crate::row::{CAPTURE, Does, Row, pipe_row};
use crate::run::{Tried, give_all};
use crate::sent::{Sent, assert_sent};
use crate::split::Split;
use std::alloc::Global;
use std::process::Abort;
use std::test::Fail;
use up_model::Outcome;
use up_outside::{DepotCall, MemDepot};
use up_queue::{EndKind, Item};
use up_shape::{TrialPacket, TrialStore};

/// A source, a `dup`, and behind it a sink, the lane of another worker, and a second sink: of each packet two second ones
/// are made.
fn fan() -> [Row; 5] {
    [
        pipe_row(CAPTURE, "one", None),
        pipe_row(Does::Dup, "one", Some(0)),
        pipe_row(Does::Sink, "one", Some(1)),
        pipe_row(Does::Sink, "two", Some(1)),
        pipe_row(Does::Sink, "one", Some(1)),
    ]
}

/// Runs the strand of the source where so many second packets can be made.
fn run_short(
    rt: &impl Abort,
    alloc: Global,
    depot: &mut MemDepot,
    dups: usize,
    sent: &mut Vec<Sent>,
) -> Result<Left, Fail> {
    let s = &mut TrialStore::new(alloc, dups);
    depot.hold("pipe0", b"abcdefghi")?;
    run_rows::<TrialPacket>(rt, alloc, &fan(), depot, sent, s)
}

/// With so many second packets, the two sinks hold this, and so many packets went out for the lane, which is the last to
/// take each and takes the packet itself.
const SHORT: [(usize, &[u8], &[u8], usize); 7] = [
    (0, b"", b"", 1),
    (1, b"abc", b"", 1),
    (2, b"abc", b"abc", 2),
    (3, b"abcdef", b"abc", 2),
    (4, b"abcdef", b"abcdef", 3),
    (5, b"abcdefghi", b"abcdef", 3),
    (6, b"abcdefghi", b"abcdefghi", 3),
];

#[test]
fn a_source_stops_where_a_second_packet_is_refused(rt: HostRuntime) -> Result<(), Fail> {
    let alloc = rt.alloc();
    for (dups, first, second, count) in SHORT {
        let mut sent = Vec::new(alloc);
        let mut depot = MemDepot::new(alloc);
        let left = run_short(&rt, alloc, &mut depot, dups, &mut sent)?;
        assert_eq!(rt; sent.len(), count.saturating_add(1), "{dups}");
        let outcome = if dups < 6 {
            Outcome::NoMemory
        } else {
            Outcome::Whole
        };
        let end = if dups < 6 {
            EndKind::Broken
        } else {
            EndKind::Whole
        };
        assert!(rt; sent.last().is_some_and(|last| last.is_end(end)), "{dups}");
        left.assert_ends(&rt, &[first, second], &[outcome; 4]);
    }
    Ok(())
}

#[test]
fn a_sink_that_failed_before_memory_ran_out_tells_its_own_fault(
    rt: HostRuntime,
) -> Result<(), Fail> {
    let alloc = rt.alloc();
    let mut sent = Vec::new(alloc);
    let mut depot = MemDepot::new(alloc);
    depot.fail(DepotCall::Write, "pipe4", 1)?;
    let left = run_short(&rt, alloc, &mut depot, 3, &mut sent)?;
    let out: [(u16, Item<&[u8]>); 3] = [
        (3, Item::Packet(b"abc")),
        (3, Item::Packet(b"def")),
        (3, Item::End(EndKind::Broken)),
    ];
    assert_sent(&rt, &sent, &out);
    let mut outcomes = [Outcome::NoMemory; 4];
    outcomes[3] = Outcome::WriteFault;
    left.assert_ends(&rt, &[b"abcdef", b""], &outcomes);
    Ok(())
}

/// A source, and on another worker a `dup` that feeds two sinks and a lane.
fn behind() -> [Row; 5] {
    [
        pipe_row(CAPTURE, "one", None),
        pipe_row(Does::Dup, "two", Some(0)),
        pipe_row(Does::Sink, "two", Some(1)),
        pipe_row(Does::Sink, "two", Some(1)),
        pipe_row(Does::Sink, "three", Some(1)),
    ]
}

#[test]
fn what_comes_through_a_lane_once_memory_ran_out_is_given_up(rt: HostRuntime) -> Result<(), Fail> {
    let alloc = rt.alloc();
    for end in [EndKind::Whole, EndKind::Broken] {
        let items = [
            Item::Packet(bare(&rt, alloc, b"ab")),
            Item::Packet(bare(&rt, alloc, b"cd")),
            Item::Packet(bare(&rt, alloc, b"ef")),
            Item::End(end),
        ];
        let mut sent = Vec::new(alloc);
        let s = &mut TrialStore::new(alloc, 3);
        let mut depot = MemDepot::new(alloc);
        let split = Split::of(&rt, alloc, &behind())?;
        let mut strand: Tried<TrialPacket> = split.strand(&rt, alloc, 1, &mut depot);
        give_all(&rt, alloc, &mut strand, &items, &mut sent, s);
        let left = finish(strand, s);
        let out: [(u16, Item<&[u8]>); 3] = [
            (4, Item::Packet(b"ab")),
            (4, Item::Packet(b"cd")),
            (4, Item::End(EndKind::Broken)),
        ];
        assert_sent(&rt, &sent, &out);
        left.assert_ends(&rt, &[b"abcd", b"ab"], &[Outcome::NoMemory; 3]);
    }
    Ok(())
}
