ghost use Rattle.std.specs.Prelude.{◌≡◌, [], ◌∷◌, ◌++◌, length, All, OnOk, OnErr, IfErr, MatchOption};
ghost use Rattle.up_model.specs.Tallies.{nothing, added};
ghost use Rattle.up_shape.specs.Stores.{Stays};

use crate::LocalPacket;
use std::alloc::Global;
use std::marker::Model;
use up_base::{ItemList, NoMemory, NoRoom};
use up_model::Tally;

/// The packets that a module has put out, first in, first out, and what it has counted. It can't be dropped: `end` gives
/// it up once it is empty.
pub struct Outbox<P> {
    packets: ItemList<P>,
    tally: Tally,
}

impl<P> Model for Outbox<P> {
    ghost use Rattle.up_shape.specs.Outgoing.{Outgoing};

    ghost Value = { Outgoing P };

    ghost view = { λ outbox. record { packets = outbox.packets; tally = outbox.tally } };
}

impl<P> Outbox<P> {
    ghost use Rattle.up_shape.specs.Outgoing.{Outgoing};

    /// No packets, and nothing counted. Nothing is allocated before the first packet.
    pub fn new(alloc: Global) -> Outbox<P>
        ensures packets { result.packets ≡ [] }
        ensures tally { result.tally ≡ nothing }
    {
        Outbox {
            packets: ItemList::new(alloc),
            tally: Tally::default(),
        }
    }

    /// Adds a packet at the end.
    pub fn put(&mut self, p: P) -> Result<(), NoRoom<P>>
        ensures added { OnOk result (self.new.packets ≡ self.old.packets ++ p ∷ []) }
        ensures unchanged { OnErr result (self.new.packets ≡ self.old.packets) }
        ensures back { IfErr result (λ refused. refused.back ≡ p) }
        ensures tally { self.new.tally ≡ self.old.tally }
    {
        self.packets.push(p)
    }

    /// Takes out the first packet.
    pub fn next(&mut self) -> Option<P>
        ensures packet { MatchOption result
            ((self.old.packets ≡ []) × (self.new.packets ≡ []))
            (λ first. self.old.packets ≡ first ∷ self.new.packets) }
        ensures tally { self.new.tally ≡ self.old.tally }
    {
        self.packets.next()
    }

    pub fn len(&self) -> usize
        ensures { result ≡ length self.now.packets }
    {
        self.packets.len()
    }

    pub fn tally(&self) -> Tally
        ensures { result ≡ self.now.tally }
    {
        self.tally
    }

    /// Adds to what was counted. Each sum stops at 2^64 - 1.
    pub fn add_tally(&mut self, t: Tally)
        ensures tally { self.new.tally ≡ added self.old.tally t }
        ensures packets { self.new.packets ≡ self.old.packets }
    {
        self.tally = self.tally.added(t);
    }

    /// Begins the count anew.
    pub fn clear_tally(&mut self)
        ensures tally { self.new.tally ≡ nothing }
        ensures packets { self.new.packets ≡ self.old.packets }
    {
        self.tally = Tally::default();
    }

    /// Gives up the outbox, which is empty.
    pub fn end(self)
        requires { self.packets ≡ [] }
    {
        let Outbox { packets, tally: _ } = self;
        packets.end();
    }
}

/// Puts the packet out. Where there is no room it is given up.
#[inline(always)]
pub fn put_out<P: LocalPacket>(p: P, out: &mut Outbox<P>, s: &mut P::Store) -> Result<(), NoMemory>
    requires family { P.fits p (P.Store.state s.old).family }
    ensures added { OnOk result (out.new.packets ≡ out.old.packets ++ p ∷ []) }
    ensures unchanged { OnErr result (out.new.packets ≡ out.old.packets) }
    ensures tally { out.new.tally ≡ out.old.tally }
    ensures family { All (λ q. P.fits q (P.Store.state s.old).family) out.old.packets
        → All (λ q. P.fits q (P.Store.state s.old).family) out.new.packets }
    ensures store { Stays (P.Store.state s.old) (P.Store.state s.new) }
{
    match out.put(p) {
        Ok(()) => Ok(()),
        Err(NoRoom { back }) => {
            back.give_up(s);
            Err(NoMemory)
        }
    }
}
