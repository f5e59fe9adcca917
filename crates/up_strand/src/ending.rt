// How the flows of a strand's nodes end: wholly, broken off, or for want of memory.
ghost use Rattle.std.specs.Prelude.{◌≡◌, ◌<◌, [], true, false, is_ok, length, OnOk};
ghost use Rattle.up_shape.specs.Stores.{Stays};
ghost use Rattle.up_strand.specs.Gifts.{AreReady, NodesFit};
ghost use Rattle.up_strand.specs.Nodes.{HasGivenUp, is_pipe, is_whole};
ghost use Rattle.up_strand.specs.Stand.{StandForSome, StandWith, Ends, AreAsPlaced, AreTaking, AreSound, AreDone, AreSame, AreSettled, IsSettledAt};
ghost use Rattle.up_strand.specs.Tree.{AllAt, Pairwise, IsSwept, HasTree};

use crate::giving::pass_on;
use crate::node::Node;
use up_base::NoMemory;
use up_outside::Sink;
use up_shape::LocalPacket;

/// The whole end of the flow of the node at the place, behind its input's.
fn end_at<P: LocalPacket, K: Sink>(
    nodes: &mut [Node<P, K>],
    place: usize,
    s: &mut P::Store,
) -> Result<(), NoMemory>
    requires within { place < length nodes.old }
    requires tree { HasTree nodes.old }
    requires ready { AreReady place nodes.old }
    requires stand { StandForSome P.plain K.state nodes.old }
    requires family { NodesFit P.fits (P.Store.state s.old).family nodes.old }
    ensures ends { Ends P.plain K.state (is_ok result) place nodes.old nodes.new }
    ensures settled { OnOk result (IsSettledAt place nodes.new) }
    ensures family { NodesFit P.fits (P.Store.state s.old).family nodes.new }
    ensures store { Stays (P.Store.state s.old) (P.Store.state s.new) }
{
    match nodes[place].end(s) {
        Ok(()) => {}
        Err(NoMemory) => return Err(NoMemory),
    }
    match pass_on(nodes, place, s) {
        Ok(()) => Ok(()),
        Err(NoMemory) => Err(NoMemory),
    }
}

/// The whole end of the head's flow: each pipe puts out what it owes, and all that comes is given
/// on. After `NoMemory` some nodes are short.
pub fn end_all<P: LocalPacket, K: Sink>(
    nodes: &mut [Node<P, K>],
    order: &[usize],
    s: &mut P::Store,
) -> Result<(), NoMemory>
    requires swept { IsSwept order.now nodes.old }
    requires taking { AreTaking nodes.old }
    requires stand { StandForSome P.plain K.state nodes.old }
    requires family { NodesFit P.fits (P.Store.state s.old).family nodes.old }
    ensures stand { StandWith P.plain K.state nodes.old nodes.new [] }
    ensures settled { OnOk result (AreSettled nodes.new) }
    ensures done { OnOk result (AreSound nodes.old → AreDone nodes.new) }
    ensures placed { AreAsPlaced nodes.old nodes.new }
    ensures family { NodesFit P.fits (P.Store.state s.old).family nodes.new }
    ensures store { Stays (P.Store.state s.old) (P.Store.state s.new) }
{
    for k in 0..order.len() {
        match end_at(nodes, order[k], s) {
            Ok(()) => {}
            Err(NoMemory) => return Err(NoMemory),
        }
    }
    Ok(())
}

/// The broken end of the head's flow: modules are given up, and nothing more is put out.
pub fn break_all<P: LocalPacket, K: Sink>(nodes: &mut [Node<P, K>], s: &mut P::Store)
    ensures stand { StandWith P.plain K.state nodes.old nodes.new [] }
    ensures ended { AllAt (λ node. is_pipe node.part ≡ false) nodes.new }
    ensures out { AreSame (λ node. node.out) nodes.old nodes.new }
    ensures short { AreSame (λ node. node.short) nodes.old nodes.new }
    ensures whole { AreSame (λ node. is_whole node.part) nodes.old nodes.new }
    ensures placed { AreAsPlaced nodes.old nodes.new }
    ensures store { Stays (P.Store.state s.old) (P.Store.state s.new) }
{
    for i in 0..nodes.len() {
        nodes[i].break_off(s);
    }
}

/// Memory ran out: the nodes give up what they hold, but for what is left for other strands, and
/// what they take from now on.
pub fn fall<P: LocalPacket, K: Sink>(nodes: &mut [Node<P, K>], s: &mut P::Store)
    requires family { NodesFit P.fits (P.Store.state s.old).family nodes.old }
    ensures stand { StandWith P.plain K.state nodes.old nodes.new [] }
    ensures given_up { Pairwise HasGivenUp nodes.old nodes.new }
    ensures taking { AreTaking nodes.old → AreTaking nodes.new }
    ensures placed { AreAsPlaced nodes.old nodes.new }
    ensures family { NodesFit P.fits (P.Store.state s.old).family nodes.new }
    ensures store { Stays (P.Store.state s.old) (P.Store.state s.new) }
{
    for i in 0..nodes.len() {
        nodes[i].abandon(s);
    }
}
