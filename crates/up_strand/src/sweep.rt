// All that waits in the nodes of a strand is given on.
ghost use Rattle.std.specs.Prelude.{◌≡◌, ◌<◌, [], ◌∷◌, None, length, slice_index_or, OnOk};
ghost use Rattle.up_model.specs.Packet.{IsLegal};
ghost use Rattle.up_shape.specs.Stores.{Stays};
ghost use Rattle.up_strand.specs.Gifts.{NodesFit};
ghost use Rattle.up_strand.specs.Stand.{StandForSome, StandWith, AreAsPlaced, AreTaking, AreSound, AreDone, AreSettled};
ghost use Rattle.up_strand.specs.Tree.{IsSwept};

use crate::giving::pass_on;
use crate::node::Node;
use up_base::NoMemory;
use up_outside::Sink;
use up_shape::LocalPacket;

/// Gives on all that waits, in an order from the head to the ends. After `NoMemory` some nodes are
/// short.
pub fn settle<P: LocalPacket, K: Sink>(
    nodes: &mut [Node<P, K>],
    order: &[usize],
    s: &mut P::Store,
) -> Result<(), NoMemory>
    requires swept { IsSwept order.now nodes.old }
    requires taking { AreTaking nodes.old }
    requires stand { StandForSome P.plain K.state nodes.old }
    requires family { NodesFit P.fits (P.Store.state s.old).family nodes.old }
    ensures stand { StandWith P.plain K.state nodes.old nodes.new [] }
    ensures settled { OnOk result (AreSettled nodes.new) }
    ensures sound { OnOk result (AreSound nodes.old → AreSound nodes.new) }
    ensures taking { AreTaking nodes.new }
    ensures placed { AreAsPlaced nodes.old nodes.new }
    ensures family { NodesFit P.fits (P.Store.state s.old).family nodes.new }
    ensures store { Stays (P.Store.state s.old) (P.Store.state s.new) }
{
    for k in 0..order.len() {
        match pass_on(nodes, order[k], s) {
            Ok(()) => {}
            Err(NoMemory) => return Err(NoMemory),
        }
    }
    Ok(())
}

/// Puts a packet in at the head, and gives on all that comes of it. After `NoMemory` some nodes are
/// short.
pub fn feed_head<P: LocalPacket, K: Sink>(
    nodes: &mut [Node<P, K>],
    order: &[usize],
    p: P,
    s: &mut P::Store,
) -> Result<(), NoMemory>
    requires some { 0 < length order.now }
    requires swept { IsSwept order.now nodes.old }
    requires taking { AreTaking nodes.old }
    requires legal { IsLegal (P.plain p) }
    requires packet { P.fits p (P.Store.state s.old).family }
    requires stand { StandForSome P.plain K.state nodes.old }
    requires family { NodesFit P.fits (P.Store.state s.old).family nodes.old }
    ensures stand { StandWith P.plain K.state nodes.old nodes.new (P.plain p ∷ []) }
    ensures settled { OnOk result (AreSettled nodes.new) }
    ensures sound { OnOk result (AreSound nodes.old → AreSound nodes.new) }
    ensures taking { AreTaking nodes.new }
    ensures placed { AreAsPlaced nodes.old nodes.new }
    ensures family { NodesFit P.fits (P.Store.state s.old).family nodes.new }
    ensures store { Stays (P.Store.state s.old) (P.Store.state s.new) }
{
    match nodes[order[0]].take(p, s) {
        Ok(()) => {}
        Err(NoMemory) => return Err(NoMemory),
    }
    match settle(nodes, order, s) {
        Ok(()) => Ok(()),
        Err(NoMemory) => Err(NoMemory),
    }
}
