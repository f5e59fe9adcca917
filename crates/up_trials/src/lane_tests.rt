ghost use Rattle.std.specs.Prelude.{◌≡◌, ◌<◌, ◌≤◌, [], ◌∷◌, ℕ, length};
ghost use Rattle.up_model.specs.declared.limits.TheConstants.{MAX_QUEUE};
ghost use Rattle.up_strand.specs.Strands.{want_of};
ghost use Rattle.up_strand.specs.declared.want.Want.TheVariants as wants;
ghost use Rattle.up_trials.specs.Standing.{IsAtWork, CanBeTaken};

use crate::left::{Left, finish, sums};
use crate::lent_packet::{LentPacket, LentStore};
use crate::row::{CAPTURE, Does, Row, pipe_row};
use crate::run::{MANY, Tried, read_on, step_on};
use crate::split::Split;
use std::alloc::Global;
use std::process::Abort;
use std::test::Fail;
use up_model::Outcome;
use up_outside::{DepotCall, MemDepot};
use up_queue::{Full, Item, LocalLane};
use up_shape::{LocalPacket, VecPacket, VecStore};
use up_strand::Want;

/// A source with a `skip` of one byte, and an `idem` and a sink of another worker.
fn two() -> [Row; 4] {
    [
        pipe_row(CAPTURE, "one", None),
        pipe_row(Does::Skip(1), "one", Some(0)),
        pipe_row(Does::Idem, "two", Some(1)),
        pipe_row(Does::Sink, "two", Some(2)),
    ]
}

/// Takes out an item and sends it. Where the lane is full, the item is put back. Says whether it was sent.
fn send<P: LocalPacket>(strand: &mut Tried<P>, lane: &mut LocalLane<P>, s: &P::Store) -> bool
    requires want { (place : ℕ) × (want_of strand.old ≡ wants.Output place) }
    requires work { IsAtWork P.plain P.fits (P.Store.state s.now).family strand.old }
    requires items { CanBeTaken P.plain P.fits (P.Store.state s.now).family lane.old.items }
    ensures work { IsAtWork P.plain P.fits (P.Store.state s.now).family strand.new }
    ensures items { CanBeTaken P.plain P.fits (P.Store.state s.now).family lane.new.items }
{
    match lane.try_send(strand.next_out()) {
        Ok(()) => true,
        Err(Full { item }) => {
            strand.keep_out(item);
            false
        }
    }
}

/// Takes the first item out of the lane.
fn take_from<P>(rt: &impl Abort, lane: &mut LocalLane<P>) -> Item<P>
    ensures { lane.old.items ≡ result ∷ lane.new.items }
{
    lane.try_receive().expect(rt, "nothing waits in the lane")
}

/// Feeds a strand the next item of its lane, where one is there.
fn receive<P: LocalPacket>(
    rt: &impl Abort,
    strand: &mut Tried<P>,
    lane: &mut LocalLane<P>,
    s: &mut P::Store,
)
    requires work { IsAtWork P.plain P.fits (P.Store.state s.old).family strand.old }
    requires items { CanBeTaken P.plain P.fits (P.Store.state s.old).family lane.old.items }
    ensures work { IsAtWork P.plain P.fits (P.Store.state s.new).family strand.new }
    ensures same { (P.Store.state s.new).family ≡ (P.Store.state s.old).family }
    ensures one { length lane.new.items < length lane.old.items }
    ensures items { CanBeTaken P.plain P.fits (P.Store.state s.new).family lane.new.items }
{
    assert_eq!(rt; strand.wants(), Want::Input);
    let item = take_from(rt, lane);
    step_on(strand, item, s);
}

/// Sends an item of the first strand, or makes room for it where the lane is full. Says whether it was.
fn send_or_receive<P: LocalPacket>(
    rt: &impl Abort,
    first: &mut Tried<P>,
    second: &mut Tried<P>,
    lane: &mut LocalLane<P>,
    s: &mut P::Store,
) -> bool
    requires want { (place : ℕ) × (want_of first.old ≡ wants.Output place) }
    requires first { IsAtWork P.plain P.fits (P.Store.state s.old).family first.old }
    requires second { IsAtWork P.plain P.fits (P.Store.state s.old).family second.old }
    requires items { CanBeTaken P.plain P.fits (P.Store.state s.old).family lane.old.items }
    ensures first { IsAtWork P.plain P.fits (P.Store.state s.new).family first.new }
    ensures second { IsAtWork P.plain P.fits (P.Store.state s.new).family second.new }
    ensures items { CanBeTaken P.plain P.fits (P.Store.state s.new).family lane.new.items }
{
    if send(first, lane, s) {
        return false;
    }
    receive(rt, second, lane, s);
    true
}

/// The next turn of the first strand, where it isn't done: how often the lane was full.
fn turn<P: LocalPacket>(
    rt: &impl Abort,
    first: &mut Tried<P>,
    second: &mut Tried<P>,
    lane: &mut LocalLane<P>,
    s: &mut P::Store,
) -> Option<usize>
    requires first { IsAtWork P.plain P.fits (P.Store.state s.old).family first.old }
    requires second { IsAtWork P.plain P.fits (P.Store.state s.old).family second.old }
    requires items { CanBeTaken P.plain P.fits (P.Store.state s.old).family lane.old.items }
    ensures first { IsAtWork P.plain P.fits (P.Store.state s.new).family first.new }
    ensures second { IsAtWork P.plain P.fits (P.Store.state s.new).family second.new }
    ensures items { CanBeTaken P.plain P.fits (P.Store.state s.new).family lane.new.items }
{
    match first.wants() {
        Want::Read => {
            read_on(first, s);
            Some(0)
        }
        Want::Output { .. } => Some(usize::from(send_or_receive(rt, first, second, lane, s))),
        Want::Done => None,
        Want::Input => panic!(rt; "a source wants input"),
    }
}

/// Runs the first strand to its end, and the second only when the lane between them is full: how often it was.
fn run_until_full<P: LocalPacket>(
    rt: &impl Abort,
    first: &mut Tried<P>,
    second: &mut Tried<P>,
    lane: &mut LocalLane<P>,
    s: &mut P::Store,
) -> usize
    requires first { IsAtWork P.plain P.fits (P.Store.state s.old).family first.old }
    requires second { IsAtWork P.plain P.fits (P.Store.state s.old).family second.old }
    requires items { CanBeTaken P.plain P.fits (P.Store.state s.old).family lane.old.items }
    ensures first { IsAtWork P.plain P.fits (P.Store.state s.new).family first.new }
    ensures second { IsAtWork P.plain P.fits (P.Store.state s.new).family second.new }
    ensures items { CanBeTaken P.plain P.fits (P.Store.state s.new).family lane.new.items }
{
    let mut full: usize = 0;
    for _ in 0..MANY {
        match turn(rt, first, second, lane, s) {
            Some(more) => full = full.saturating_add(more),
            None => return full,
        }
    }
    panic!(rt; "there is no end of its source")
}

/// Feeds a strand what is left in its lane.
fn receive_rest<P: LocalPacket>(
    rt: &impl Abort,
    strand: &mut Tried<P>,
    lane: &mut LocalLane<P>,
    s: &mut P::Store,
)
    requires work { IsAtWork P.plain P.fits (P.Store.state s.old).family strand.old }
    requires items { CanBeTaken P.plain P.fits (P.Store.state s.old).family lane.old.items }
    ensures work { IsAtWork P.plain P.fits (P.Store.state s.new).family strand.new }
    ensures empty { lane.new.items ≡ [] }
    ensures same { (P.Store.state s.new).family ≡ (P.Store.state s.old).family }
{
    while lane.len() > 0 {
        receive(rt, strand, lane, s);
    }
}

/// What is left of the two strands of such a graph, between which a lane has room for so many items, and how often it was
/// full.
fn through<P: LocalPacket>(
    rt: &impl Abort,
    alloc: Global,
    cap: u16,
    depot: &mut MemDepot,
    s: &mut P::Store,
) -> Result<(Left, Left, usize), Fail>
    requires { (0 < cap) × (cap ≤ MAX_QUEUE) }
{
    let split = Split::of(rt, alloc, &two())?;
    let mut lane = LocalLane::new(alloc, cap).expect(rt, "no memory");
    let mut first: Tried<P> = split.strand(rt, alloc, 0, depot);
    let mut second: Tried<P> = split.strand(rt, alloc, 2, depot);
    let full = run_until_full(rt, &mut first, &mut second, &mut lane, s);
    receive_rest(rt, &mut second, &mut lane, s);
    assert_eq!(rt; second.wants(), Want::Done);
    lane.end();
    Ok((finish(first, s), finish(second, s), full))
}

/// The input is carried by packets of this type, of which each but the end finds the lane empty or full.
fn assert_carried<P: LocalPacket>(
    rt: &impl Abort,
    alloc: Global,
    s: &mut P::Store,
) -> Result<(), Fail> {
    let mut depot = MemDepot::new(alloc);
    depot.hold("pipe0", b"abcdefghijkl")?;
    let (first, second, full) = through::<P>(rt, alloc, 1, &mut depot, s)?;
    assert_eq!(rt; full, 4);
    first.assert_ends(rt, &[], &[Outcome::Whole; 2]);
    first.assert_sums(rt, &[sums(0, 4, 0, 0), sums(4, 4, 0, 4)]);
    second.assert_ends(rt, &[b"bcefhikl"], &[Outcome::Whole; 2]);
    second.assert_sums(rt, &[sums(4, 4, 0, 0), sums(4, 0, 0, 0)]);
    Ok(())
}

#[test]
fn a_lane_with_room_for_one_item_carries_all(rt: HostRuntime) -> Result<(), Fail> {
    assert_carried::<VecPacket>(&rt, rt.alloc(), &mut VecStore::new(rt.alloc()))
}

#[test]
fn packets_that_cannot_be_dropped_are_carried(rt: HostRuntime) -> Result<(), Fail> {
    let owner = String::from_str(rt.alloc(), "owner")?;
    let store = &mut LentStore::new(rt.alloc(), &owner);
    assert_carried::<LentPacket<'_>>(&rt, rt.alloc(), store)
}

/// So many bytes, and those of them that aren't the first of three.
fn counted(alloc: Global, count: usize) -> Result<(Vec<u8>, Vec<u8>), Fail> {
    let mut bytes = Vec::new(alloc);
    let mut rest = Vec::new(alloc);
    for k in 0..count {
        let byte = (k % 251) as u8;
        bytes.push(byte)?;
        if k % 3 != 0 {
            rest.push(byte)?;
        }
    }
    Ok((bytes, rest))
}

/// All 4,001 items but the first three find the lane full.
#[test]
fn a_lane_of_three_items_carries_four_thousand_packets(rt: HostRuntime) -> Result<(), Fail> {
    let alloc = rt.alloc();
    let s = &mut VecStore::new(alloc);
    let (bytes, rest) = counted(alloc, 12_000)?;
    let mut depot = MemDepot::new(alloc);
    depot.hold("pipe0", &bytes)?;
    let (first, second, full) = through::<VecPacket>(&rt, alloc, 3, &mut depot, s)?;
    assert_eq!(rt; full, 3_998);
    first.assert_ends(&rt, &[], &[Outcome::Whole; 2]);
    first.assert_sums(&rt, &[sums(0, 4_000, 0, 0), sums(4_000, 4_000, 0, 4_000)]);
    second.assert_ends(&rt, &[&rest], &[Outcome::Whole; 2]);
    second.assert_sums(&rt, &[sums(4_000, 4_000, 0, 0), sums(4_000, 0, 0, 0)]);
    Ok(())
}

#[test]
fn a_fault_breaks_what_is_behind_the_lane(rt: HostRuntime) -> Result<(), Fail> {
    let alloc = rt.alloc();
    let owner = String::from_str(alloc, "owner")?;
    let s = &mut LentStore::new(alloc, &owner);
    let mut depot = MemDepot::new(alloc);
    depot.hold("pipe0", b"abcdefghijkl")?;
    depot.fail(DepotCall::Read, "pipe0", 3)?;
    let (first, second, full) = through::<LentPacket<'_>>(&rt, alloc, 1, &mut depot, s)?;
    assert_eq!(rt; full, 2);
    first.assert_ends(&rt, &[], &[Outcome::ReadFault, Outcome::Broken]);
    second.assert_ends(&rt, &[b"bcef"], &[Outcome::Broken; 2]);
    Ok(())
}
