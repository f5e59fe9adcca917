// A packet goes to every node that takes what one node puts out.
ghost use Rattle.std.specs.Prelude.{◌≡◌, ◌<◌, [], ◌∷◌, length, true, false, is_ok, OnOk};
ghost use Rattle.up_model.specs.Packet.{IsLegal};
ghost use Rattle.up_shape.specs.Stores.{Stays};
ghost use Rattle.up_strand.specs.Gifts.{Given, Gave, AreReady, NodesFit, share};
ghost use Rattle.up_strand.specs.Nodes.{IsTaking, NodeFits, takes_from};
ghost use Rattle.up_strand.specs.Stand.{Passes, StandForSome, IsSettledAt};
ghost use Rattle.up_strand.specs.Tree.{AreTakers, HasTree};

use crate::node::{Node, Takers};
use up_base::NoMemory;
use up_outside::Sink;
use up_shape::LocalPacket;

/// Gives the node a second packet of the same attributes and bytes, if it takes from the place.
/// Where there is no memory for one it falls short.
fn give_second<P: LocalPacket, K: Sink>(
    node: &mut Node<P, K>,
    place: usize,
    p: &mut P,
    s: &mut P::Store,
) -> Result<(), NoMemory>
    requires ready { takes_from node.old.input place ≡ true → IsTaking node.old }
    requires legal { IsLegal (P.plain p.old) }
    requires packet { P.fits p.old (P.Store.state s.old).family }
    requires family { NodeFits P.fits node.old (P.Store.state s.old).family }
    ensures gave { Given P.plain K.state (is_ok result) node.old node.new
        (share node.old.input place (P.plain p.old ∷ [])) }
    ensures same { P.plain p.new ≡ P.plain p.old }
    ensures packet { P.fits p.new (P.Store.state s.old).family }
    ensures family { NodeFits P.fits node.new (P.Store.state s.old).family }
    ensures store { Stays (P.Store.state s.old) (P.Store.state s.new) }
{
    if !node.takes_from(place) {
        return Ok(());
    }
    match p.dup(s) {
        Ok(second) => match node.take(second, s) {
            Ok(()) => Ok(()),
            Err(NoMemory) => Err(NoMemory),
        },
        Err(NoMemory) => {
            node.fall(s);
            Err(NoMemory)
        }
    }
}

/// Gives the packet to every node that takes from the place, of which these are the first and the
/// last. The last gets the packet itself. After `NoMemory` some of them are short.
pub fn give<P: LocalPacket, K: Sink>(
    nodes: &mut [Node<P, K>],
    place: usize,
    takers: Option<Takers>,
    mut p: P,
    s: &mut P::Store,
) -> Result<(), NoMemory>
    requires takers { AreTakers place nodes.old takers }
    requires ready { AreReady place nodes.old }
    requires legal { IsLegal (P.plain p) }
    requires packet { P.fits p (P.Store.state s.old).family }
    requires family { NodesFit P.fits (P.Store.state s.old).family nodes.old }
    ensures gave { Gave P.plain K.state (is_ok result) place (P.plain p ∷ []) nodes.old nodes.new }
    ensures family { NodesFit P.fits (P.Store.state s.old).family nodes.new }
    ensures store { Stays (P.Store.state s.old) (P.Store.state s.new) }
{
    let Some(Takers { first, last }) = takers else {
        p.give_up(s);
        return Ok(());
    };
    let mut given = Ok(());
    for i in first..last {
        given = give_second(&mut nodes[i], place, &mut p, s).and(given);
    }
    match nodes[last].take(p, s) {
        Ok(()) => given,
        Err(NoMemory) => Err(NoMemory),
    }
}

/// Gives on all that waits at the node at the place, unless it is left there for another strand.
/// After `NoMemory` some nodes are short, and packets may wait there still.
pub fn pass_on<P: LocalPacket, K: Sink>(
    nodes: &mut [Node<P, K>],
    place: usize,
    s: &mut P::Store,
) -> Result<(), NoMemory>
    requires within { place < length nodes.old }
    requires tree { HasTree nodes.old }
    requires ready { AreReady place nodes.old }
    requires stand { StandForSome P.plain K.state nodes.old }
    requires family { NodesFit P.fits (P.Store.state s.old).family nodes.old }
    ensures passes { Passes P.plain K.state (is_ok result) place nodes.old nodes.new }
    ensures settled { OnOk result (IsSettledAt place nodes.new) }
    ensures family { NodesFit P.fits (P.Store.state s.old).family nodes.new }
    ensures store { Stays (P.Store.state s.old) (P.Store.state s.new) }
{
    if nodes[place].is_outlet() {
        return Ok(());
    }
    let takers = nodes[place].takers;
    'packets: loop {
        match nodes[place].out.next() {
            None => return Ok(()),
            Some(p) => match give(nodes, place, takers, p, s) {
                Ok(()) => {}
                Err(NoMemory) => return Err(NoMemory),
            },
        }
    }
}
