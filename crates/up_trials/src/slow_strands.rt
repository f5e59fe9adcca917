// What the strands of a graph are to come to, by the slow meaning.
ghost use Rattle.std.specs.Prelude.{All};
ghost use Rattle.up_model.specs.Packet.{IsLegal};
ghost use Rattle.up_model.specs.WellFormed.{IsWellFormed};

use crate::lane_flags::come_to;
use crate::left::{Left, sums};
use crate::plain_copies::is_same;
use crate::sent::Sent;
use crate::split::Split;
use std::alloc::Global;
use std::process::Abort;
use up_base::{Bytes, ItemList};
use up_model::{
    CatchSet, GivenBytes, Outcome, PacketList, PlaceList, Tally, plain_out, plain_output,
    plain_sink, plain_source,
};
use up_queue::{EndKind, Item};

/// The bytes that a source carried, how its flow ended, and whether packets are given flags in lanes.
#[derive(Clone, Copy)]
pub(crate) struct Carried<'a> {
    pub bytes: &'a [u8],
    pub ended: Outcome,
    pub flags: bool,
}

impl Carried<'_> {
    fn is_whole(&self) -> bool {
        self.ended == Outcome::Whole
    }

    /// The end that goes through lanes.
    pub fn end(&self) -> EndKind {
        if self.is_whole() {
            EndKind::Whole
        } else {
            EndKind::Broken
        }
    }
}

/// What the pipe at a place puts out for what it takes.
fn put_of(
    rt: &impl Abort,
    alloc: Global,
    split: &Split,
    carried: &Carried<'_>,
    place: usize,
    taken: &PacketList,
) -> PacketList
    requires well_formed { IsWellFormed split.now.graph.pipes }
    requires legal { All IsLegal taken.now }
    ensures legal { All IsLegal result }
{
    let (graph, whole) = (&split.graph, carried.is_whole());
    assert!(rt; place < graph.pipes.len());
    let kind = &graph.pipes.at(place).kind;
    if kind.is_sink() {
        return PacketList::new(alloc);
    }
    if kind.is_source() {
        let put = plain_source(alloc, graph, place, carried.bytes, whole);
        return put.expect(rt, "no memory");
    }
    let put = plain_out(alloc, graph, place, taken, whole);
    put.expect(rt, "no memory")
}

/// What the pipe at a place puts out, where its source is reached in fewer steps than these.
fn flow_within(
    rt: &impl Abort,
    alloc: Global,
    split: &Split,
    carried: &Carried<'_>,
    steps: usize,
    place: usize,
) -> PacketList
    requires well_formed { IsWellFormed split.now.graph.pipes }
    ensures legal { All IsLegal result }
{
    if steps == 0 || split.graph.pipes.len() <= place {
        return PacketList::new(alloc);
    }
    let sent = match split.graph.pipes.at(place).input {
        None => PacketList::new(alloc),
        Some(input) => flow_within(rt, alloc, split, carried, steps - 1, usize::from(input)),
    };
    let taken = if carried.flags {
        come_to(rt, alloc, split, place, sent)
    } else {
        sent
    };
    put_of(rt, alloc, split, carried, place, &taken)
}

/// What the input of the pipe at a place puts out.
fn sent_to(
    rt: &impl Abort,
    alloc: Global,
    split: &Split,
    carried: &Carried<'_>,
    place: usize,
) -> PacketList
    requires well_formed { IsWellFormed split.now.graph.pipes }
    ensures legal { All IsLegal result }
{
    let count = split.graph.pipes.len();
    assert!(rt; place < count);
    match split.graph.pipes.at(place).input {
        None => PacketList::new(alloc),
        Some(input) => flow_within(rt, alloc, split, carried, count, usize::from(input)),
    }
}

/// How many bytes the packets have.
fn bytes_in(flow: &PacketList) -> u64 {
    let mut count: u64 = 0;
    for k in 0..flow.len() {
        count = count.saturating_add(flow.at(k).bytes.as_slice().len() as u64);
    }
    count
}

/// What a probe that catches these lets pass.
fn seen(caught: CatchSet, tally: Tally) -> Tally {
    Tally {
        dropped: if caught.drop { 0 } else { tally.dropped },
        cut: if caught.cut { 0 } else { tally.cut },
        ..tally
    }
}

/// What the pipe at a place is to count of what it takes: a source and a sink drop and cut
/// nothing, any other pipe all that it doesn't put out.
fn sums_of(
    rt: &impl Abort,
    alloc: Global,
    split: &Split,
    carried: &Carried<'_>,
    place: usize,
    taken: &PacketList,
) -> Tally
    requires well_formed { IsWellFormed split.now.graph.pipes }
    requires legal { All IsLegal taken.now }
{
    let put = put_of(rt, alloc, split, carried, place, taken);
    let (in_count, out_count) = (taken.len() as u64, put.len() as u64);
    if split.is_source(place) {
        return sums(0, out_count, 0, 0);
    }
    if split.is_sink(place) {
        return sums(in_count, 0, 0, 0);
    }
    let dropped = in_count.saturating_sub(out_count);
    let cut = bytes_in(taken).saturating_sub(bytes_in(&put));
    assert!(rt; place < split.graph.pipes.len());
    let caught = split.graph.pipes.at(place).caught;
    seen(caught, sums(in_count, out_count, dropped, cut))
}

/// The bytes of the source, and none for any other pipe.
fn given(rt: &impl Abort, alloc: Global, split: &Split, bytes: &[u8]) -> GivenBytes {
    let mut list = GivenBytes::new(alloc);
    for place in 0..split.graph.pipes.len() {
        let own = if split.is_source(place) { bytes } else { &[] };
        let own = Bytes::from_slice(alloc, own).expect(rt, "no memory");
        assert!(rt; list.push(own).is_ok());
    }
    list
}

/// The bytes that the sink at a place is to hold, where these are all bytes of each source.
pub(crate) fn output_at(
    rt: &impl Abort,
    alloc: Global,
    split: &Split,
    bytes: &[u8],
    place: usize,
) -> Bytes
    requires well_formed { IsWellFormed split.now.graph.pipes }
{
    let given = given(rt, alloc, split, bytes);
    assert_eq!(rt; given.len(), split.graph.pipes.len());
    assert!(rt; place < split.graph.pipes.len());
    assert!(rt; split.graph.pipes.at(place).kind.is_sink());
    let held = plain_output(alloc, &split.graph, &given, place);
    held.expect(rt, "no memory")
}

/// The bytes that the pipe at a place is to write of what it takes: none but a sink's.
fn written_of(
    rt: &impl Abort,
    alloc: Global,
    split: &Split,
    carried: &Carried<'_>,
    place: usize,
    taken: &PacketList,
) -> Bytes
    requires well_formed { IsWellFormed split.now.graph.pipes }
    requires legal { All IsLegal taken.now }
{
    assert!(rt; place < split.graph.pipes.len());
    if !split.graph.pipes.at(place).kind.is_sink() {
        return Bytes::new(alloc);
    }
    if carried.is_whole() {
        return output_at(rt, alloc, split, carried.bytes, place);
    }
    let bytes = plain_sink(alloc, &split.graph, place, taken);
    bytes.expect(rt, "no memory")
}

/// How the pipe at a place is to end.
fn outcome_at(split: &Split, carried: &Carried<'_>, place: usize) -> Outcome {
    if carried.is_whole() {
        return Outcome::Whole;
    }
    if split.is_source(place) {
        return carried.ended;
    }
    Outcome::Broken
}

/// What a pipe is to come to, and what its input is to put out.
#[derive(Drop)]
pub(crate) struct Wanted {
    pub sent: PacketList,
    pub written: Bytes,
    pub sums: Tally,
    pub outcome: Outcome,
}

/// What all pipes of a graph are to come to, in the order of the file.
pub(crate) type WantedList = ItemList<Wanted>;

/// What the pipe at a place is to come to where its source carried this. The flags that packets
/// are given in lanes change no byte and no count of a graph without sinks of frames.
pub(crate) fn wanted_at(
    rt: &impl Abort,
    alloc: Global,
    split: &Split,
    carried: &Carried<'_>,
    place: usize,
) -> Wanted
    requires well_formed { IsWellFormed split.now.graph.pipes }
{
    let sent = sent_to(rt, alloc, split, carried, place);
    Wanted {
        written: written_of(rt, alloc, split, carried, place, &sent),
        sums: sums_of(rt, alloc, split, carried, place, &sent),
        outcome: outcome_at(split, carried, place),
        sent,
    }
}

/// What all pipes are to come to where their source carried this.
pub(crate) fn wanted_of(
    rt: &impl Abort,
    alloc: Global,
    split: &Split,
    carried: &Carried<'_>,
) -> WantedList
    requires well_formed { IsWellFormed split.now.graph.pipes }
{
    let mut list = WantedList::new(alloc);
    for place in 0..split.graph.pipes.len() {
        let wanted = wanted_at(rt, alloc, split, carried, place);
        assert!(rt; list.push(wanted).is_ok());
    }
    list
}

/// What is left of the strand of these pipes is as it is to be.
pub(crate) fn assert_left(
    rt: &impl Abort,
    split: &Split,
    list: &WantedList,
    own: &PlaceList,
    left: &Left,
) {
    assert_eq!(rt; left.outcomes.len(), own.len());
    assert_eq!(rt; left.tallies.len(), own.len());
    let mut sinks: usize = 0;
    for k in 0..own.len() {
        let place = usize::from(*own.at(k));
        assert!(rt; place < list.len());
        assert!(rt; k < left.outcomes.len() && k < left.tallies.len());
        let wanted = list.at(place);
        assert_eq!(rt; *left.outcomes.at(k), wanted.outcome);
        assert_eq!(rt; *left.tallies.at(k), wanted.sums);
        if split.is_sink(place) {
            assert!(rt; sinks < left.sinks.len());
            assert_eq!(rt; left.sinks.at(sinks).bytes(), wanted.written.as_slice());
            sinks = sinks.saturating_add(1);
        }
    }
    assert_eq!(rt; left.sinks.len(), sinks);
}

/// What went out for the lane of a head is what its input is to put out, and then this end.
pub(crate) fn assert_lane(
    rt: &impl Abort,
    list: &WantedList,
    end: EndKind,
    head: u16,
    sent: &[Sent],
) {
    let place = usize::from(head);
    assert!(rt; place < list.len());
    let wanted = &list.at(place).sent;
    let mut count: usize = 0;
    for one in sent {
        if one.lane == head {
            match &one.item {
                Item::Packet(packet) => {
                    assert!(rt; count < wanted.len());
                    let other = wanted.at(count);
                    assert!(rt; is_same(packet, other), "{packet:?} is not {other:?}");
                }
                Item::End(kind) => {
                    assert_eq!(rt; count, wanted.len());
                    assert_eq!(rt; *kind, end);
                }
            }
            count = count.saturating_add(1);
        }
    }
    assert_eq!(rt; count, wanted.len().saturating_add(1));
}
