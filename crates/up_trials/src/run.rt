// Strands over memory, run by tests.
ghost use Rattle.std.specs.Prelude.{◌≡◌};
ghost use Rattle.up_model.specs.Packet.{IsLegal};
ghost use Rattle.up_shape.specs.VecPackets.{plain_of};
ghost use Rattle.up_strand.specs.StrandCalls.{IsLegalItem, ItemFits};
ghost use Rattle.up_strand.specs.Strands.{want_of};
ghost use Rattle.up_strand.specs.declared.want.Want.TheVariants as wants;
ghost use Rattle.up_trials.specs.Standing.{IsAtWork, IsVecStrand};

use crate::plain_copies::{packet_like, plain_copy};
use crate::sent::Sent;
use std::alloc::Global;
use std::process::Abort;
use up_model::{MAX_PACKET, PlainPacket, packets_stay_legal};
use up_outside::{MemSink, MemSource};
use up_queue::{EndKind, Item};
use up_shape::{LocalPacket, VecPacket, VecStore};
use up_strand::{Strand, Want};

/// A strand of a test.
pub(crate) type Tried<P> = Strand<P, MemSource, MemSink>;

/// More steps than any test takes.
pub(crate) const MANY: usize = 100_000;

/// A packet of these bytes.
pub(crate) fn packet_of<P: LocalPacket>(rt: &impl Abort, bytes: &[u8], s: &mut P::Store) -> P
    ensures legal { IsLegal (P.plain result) }
    ensures packet { P.fits result (P.Store.state s.old).family }
    ensures family { (P.Store.state s.new).family ≡ (P.Store.state s.old).family }
{
    assert!(rt; bytes.len() <= MAX_PACKET as usize);
    packets_stay_legal();
    match P::fresh(bytes, s) {
        Ok(p) => p,
        Err(_) => panic!(rt; "no memory"),
    }
}

/// An item with the plain packet of its packet, which is given up.
pub(crate) fn copy_item<P: LocalPacket>(
    rt: &impl Abort,
    alloc: Global,
    item: Item<P>,
    s: &mut P::Store,
) -> Item<PlainPacket>
    requires item { ItemFits P.fits (P.Store.state s.old).family item }
    ensures family { (P.Store.state s.new).family ≡ (P.Store.state s.old).family }
{
    match item {
        Item::Packet(p) => {
            let plain = plain_copy(rt, alloc, &p);
            p.give_up(s);
            Item::Packet(plain)
        }
        Item::End(kind) => Item::End(kind),
    }
}

/// The strand reads on.
pub(crate) fn read_on<P: LocalPacket>(strand: &mut Tried<P>, s: &mut P::Store)
    requires work { IsAtWork P.plain P.fits (P.Store.state s.old).family strand.old }
    requires want { want_of strand.old ≡ wants.Read }
    ensures work { IsAtWork P.plain P.fits (P.Store.state s.new).family strand.new }
    ensures same { (P.Store.state s.new).family ≡ (P.Store.state s.old).family }
{
    strand.step_read(s);
}

/// The strand takes an item of its lane.
pub(crate) fn step_on<P: LocalPacket>(strand: &mut Tried<P>, item: Item<P>, s: &mut P::Store)
    requires work { IsAtWork P.plain P.fits (P.Store.state s.old).family strand.old }
    requires want { want_of strand.old ≡ wants.Input }
    requires legal { IsLegalItem P.plain item }
    requires item { ItemFits P.fits (P.Store.state s.old).family item }
    ensures work { IsAtWork P.plain P.fits (P.Store.state s.new).family strand.new }
    ensures same { (P.Store.state s.new).family ≡ (P.Store.state s.old).family }
{
    strand.step_item(item, s);
}

/// The strand, which waits for it, takes this packet.
pub(crate) fn give_packet(
    rt: &impl Abort,
    strand: &mut Tried<VecPacket>,
    packet: VecPacket,
    s: &mut VecStore,
)
    requires work { IsVecStrand strand.old }
    requires legal { IsLegal (plain_of packet) }
    ensures work { IsVecStrand strand.new }
{
    assert_eq!(rt; strand.wants(), Want::Input);
    step_on(strand, Item::Packet(packet), s);
}

/// The strand, which waits for it, takes the end of its lane.
pub(crate) fn give_end(
    rt: &impl Abort,
    strand: &mut Tried<VecPacket>,
    kind: EndKind,
    s: &mut VecStore,
)
    requires { IsVecStrand strand.old }
    ensures { IsVecStrand strand.new }
{
    assert_eq!(rt; strand.wants(), Want::Input);
    step_on(strand, Item::End(kind), s);
}

/// Takes out the item that waits for this lane.
pub(crate) fn take_out(strand: &mut Tried<VecPacket>, lane: u16) -> Item<VecPacket>
    requires work { IsVecStrand strand.old }
    requires want { want_of strand.old ≡ wants.Output lane }
    ensures work { IsVecStrand strand.new }
{
    strand.next_out()
}

/// Takes out the item that waits for this lane, of which a copy is kept.
pub(crate) fn take_one<P: LocalPacket>(
    rt: &impl Abort,
    alloc: Global,
    strand: &mut Tried<P>,
    lane: u16,
    sent: &mut Vec<Sent>,
    s: &mut P::Store,
)
    requires work { IsAtWork P.plain P.fits (P.Store.state s.old).family strand.old }
    requires want { want_of strand.old ≡ wants.Output lane }
    ensures work { IsAtWork P.plain P.fits (P.Store.state s.new).family strand.new }
{
    let item = strand.next_out();
    let item = copy_item(rt, alloc, item, s);
    assert!(rt; sent.push(Sent { lane, item }).is_ok());
}

/// Takes out all items that wait, and says what the strand wants then.
pub(crate) fn take_all<P: LocalPacket>(
    rt: &impl Abort,
    alloc: Global,
    strand: &mut Tried<P>,
    sent: &mut Vec<Sent>,
    s: &mut P::Store,
) -> Want
    requires work { IsAtWork P.plain P.fits (P.Store.state s.old).family strand.old }
    ensures want { result ≡ want_of strand.new }
    ensures work { IsAtWork P.plain P.fits (P.Store.state s.new).family strand.new }
{
    for _ in 0..MANY {
        match strand.wants() {
            Want::Output { lane } => take_one(rt, alloc, strand, lane, sent, s),
            other => return other,
        }
    }
    panic!(rt; "there is no end of what waits")
}

/// Runs the strand of a source until nothing is left to be done.
pub(crate) fn run_source<P: LocalPacket>(
    rt: &impl Abort,
    alloc: Global,
    strand: &mut Tried<P>,
    sent: &mut Vec<Sent>,
    s: &mut P::Store,
)
    requires work { IsAtWork P.plain P.fits (P.Store.state s.old).family strand.old }
    ensures done { want_of strand.new ≡ wants.Done }
    ensures work { IsAtWork P.plain P.fits (P.Store.state s.new).family strand.new }
{
    for _ in 0..MANY {
        match take_all(rt, alloc, strand, sent, s) {
            Want::Read => read_on(strand, s),
            Want::Done => return,
            other => panic!(rt; "a source wants {other:?}"),
        }
    }
    panic!(rt; "there is no end of its source")
}

/// Feeds a strand a copy of this item.
fn give_copy<P: LocalPacket>(
    rt: &impl Abort,
    strand: &mut Tried<P>,
    item: &Item<PlainPacket>,
    s: &mut P::Store,
)
    requires work { IsAtWork P.plain P.fits (P.Store.state s.old).family strand.old }
    requires want { want_of strand.old ≡ wants.Input }
    ensures work { IsAtWork P.plain P.fits (P.Store.state s.new).family strand.new }
{
    match item {
        Item::Packet(plain) => {
            let p = packet_like::<P>(rt, plain, s);
            step_on(strand, Item::Packet(p), s);
        }
        Item::End(kind) => step_on(strand, Item::End(*kind), s),
    }
}

/// Gives a strand behind a lane its next item, and takes out what comes of it.
pub(crate) fn give<P: LocalPacket>(
    rt: &impl Abort,
    alloc: Global,
    strand: &mut Tried<P>,
    item: &Item<PlainPacket>,
    sent: &mut Vec<Sent>,
    s: &mut P::Store,
)
    requires work { IsAtWork P.plain P.fits (P.Store.state s.old).family strand.old }
    ensures work { IsAtWork P.plain P.fits (P.Store.state s.new).family strand.new }
{
    let want = take_all(rt, alloc, strand, sent, s);
    assert_eq!(rt; want, Want::Input);
    give_copy(rt, strand, item, s);
    let _ = take_all(rt, alloc, strand, sent, s);
}

/// Gives a strand all items of its lane.
pub(crate) fn give_all<P: LocalPacket>(
    rt: &impl Abort,
    alloc: Global,
    strand: &mut Tried<P>,
    items: &[Item<PlainPacket>],
    sent: &mut Vec<Sent>,
    s: &mut P::Store,
)
    requires work { IsAtWork P.plain P.fits (P.Store.state s.old).family strand.old }
    ensures work { IsAtWork P.plain P.fits (P.Store.state s.new).family strand.new }
{
    for item in items {
        give(rt, alloc, strand, item, sent, s);
    }
}

/// Runs a strand to its end: that of a source, or one behind a lane by all items of it.
pub(crate) fn run_out<P: LocalPacket>(
    rt: &impl Abort,
    alloc: Global,
    strand: &mut Tried<P>,
    source: bool,
    items: &[Item<PlainPacket>],
    sent: &mut Vec<Sent>,
    s: &mut P::Store,
)
    requires work { IsAtWork P.plain P.fits (P.Store.state s.old).family strand.old }
    ensures work { IsAtWork P.plain P.fits (P.Store.state s.new).family strand.new }
{
    if source {
        run_source(rt, alloc, strand, sent, s);
    } else {
        give_all(rt, alloc, strand, items, sent, s);
    }
}
