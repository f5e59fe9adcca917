// The nodes of a strand with the order in which they are swept.
ghost use Rattle.std.specs.Prelude.{◌≡◌, ◌≢◌, ◌<◌, [], ◌∷◌, Bool, length, true, false, None, Option, Some};
ghost use Rattle.up_model.specs.Packet.{IsLegal};
ghost use Rattle.up_model.specs.declared.outcome.Outcome.{Outcome};
ghost use Rattle.up_model.specs.declared.outcome.Outcome.TheVariants as outcomes;
ghost use Rattle.up_shape.specs.Stores.{Stays};
ghost use Rattle.up_strand.specs.Gifts.{NodesFit};
ghost use Rattle.up_strand.specs.Stand.{NodesAre, StandForSome, AreTaking};
ghost use Rattle.up_strand.specs.Steps.{IsGoing, NodesTook, WentOn, taken_where};
ghost use Rattle.up_strand.specs.Tree.{IsSwept};

use crate::ending::{break_all, end_all, fall};
use crate::node::Node;
use crate::sweep::feed_head;
use up_base::NoMemory;
use up_outside::Sink;
use up_shape::LocalPacket;

/// The nodes of a strand.
pub struct Tree<P, K> {
    /// Its pipes in the order of the file, then the ends of the lanes that it fills, in the order
    /// of their heads.
    pub nodes: Vec<Node<P, K>>,
    /// The places of all nodes, each behind the one that it takes from.
    pub order: Vec<usize>,
    /// Memory ran out: since then it gives up what it takes.
    pub short: bool,
}

impl<P: LocalPacket, K: Sink> Tree<P, K> {
    /// Takes the next packet, and gives on all that comes of it.
    pub fn feed(&mut self, p: P, s: &mut P::Store)
        requires going { IsGoing P.plain K.state P.fits (P.Store.state s.old).family self.old }
        requires legal { IsLegal (P.plain p) }
        requires packet { P.fits p (P.Store.state s.old).family }
        ensures went { WentOn P.plain K.state P.fits (P.Store.state s.old).family self.old self.new
            (taken_where self.old.short (P.plain p)) None }
        ensures store { Stays (P.Store.state s.old) (P.Store.state s.new) }
    {
        if self.short {
            p.give_up(s);
            return;
        }
        self.short = feed_nodes(&mut self.nodes, &self.order, p, s);
    }

    /// The whole end of its flow: each pipe puts out what it owes, and all that comes is given on.
    pub fn end(&mut self, s: &mut P::Store)
        requires going { IsGoing P.plain K.state P.fits (P.Store.state s.old).family self.old }
        ensures went { WentOn P.plain K.state P.fits (P.Store.state s.old).family self.old self.new
            [] (Some outcomes.Whole) }
        ensures store { Stays (P.Store.state s.old) (P.Store.state s.new) }
    {
        if self.short {
            return;
        }
        self.short = end_nodes(&mut self.nodes, &self.order, s);
    }

    /// The broken end of its flow: modules are given up, and nothing more is put out.
    pub fn break_off(&mut self, s: &mut P::Store)
        requires going { IsGoing P.plain K.state P.fits (P.Store.state s.old).family self.old }
        ensures went { (outcome : Outcome) → outcome ≢ outcomes.Whole
            → WentOn P.plain K.state P.fits (P.Store.state s.old).family self.old self.new
            [] (Some outcome) }
        ensures short { self.new.short ≡ self.old.short }
        ensures store { Stays (P.Store.state s.old) (P.Store.state s.new) }
    {
        break_nodes(&mut self.nodes, s);
    }

    /// Memory ran out: the nodes give up what they hold, but for what is left for other strands.
    pub fn fall(&mut self, s: &mut P::Store)
        requires going { IsGoing P.plain K.state P.fits (P.Store.state s.old).family self.old }
        ensures went { (ended : Option Outcome) → ended ≢ Some outcomes.Whole
            → WentOn P.plain K.state P.fits (P.Store.state s.old).family self.old self.new
            [] ended }
        ensures short { self.new.short ≡ true }
        ensures store { Stays (P.Store.state s.old) (P.Store.state s.new) }
    {
        give_up_all(&mut self.nodes, s);
        self.short = true;
    }
}

/// Takes a packet in at the head, and tells whether memory ran out.
fn feed_nodes<P: LocalPacket, K: Sink>(
    nodes: &mut [Node<P, K>],
    order: &[usize],
    p: P,
    s: &mut P::Store,
) -> bool
    requires some { 0 < length order.now }
    requires swept { IsSwept order.now nodes.old }
    requires are { NodesAre false None nodes.old }
    requires legal { IsLegal (P.plain p) }
    requires packet { P.fits p (P.Store.state s.old).family }
    requires stand { StandForSome P.plain K.state nodes.old }
    requires family { NodesFit P.fits (P.Store.state s.old).family nodes.old }
    ensures took { NodesTook P.plain K.state nodes.old nodes.new (P.plain p ∷ []) }
    ensures are { NodesAre result None nodes.new }
    ensures family { NodesFit P.fits (P.Store.state s.old).family nodes.new }
    ensures store { Stays (P.Store.state s.old) (P.Store.state s.new) }
{
    match feed_head(nodes, order, p, s) {
        Ok(()) => false,
        Err(NoMemory) => {
            give_up_all(nodes, s);
            true
        }
    }
}

/// The whole end of the flow, and whether memory ran out.
fn end_nodes<P: LocalPacket, K: Sink>(
    nodes: &mut [Node<P, K>],
    order: &[usize],
    s: &mut P::Store,
) -> bool
    requires swept { IsSwept order.now nodes.old }
    requires are { NodesAre false None nodes.old }
    requires stand { StandForSome P.plain K.state nodes.old }
    requires family { NodesFit P.fits (P.Store.state s.old).family nodes.old }
    ensures took { NodesTook P.plain K.state nodes.old nodes.new [] }
    ensures are { NodesAre result (Some outcomes.Whole) nodes.new }
    ensures family { NodesFit P.fits (P.Store.state s.old).family nodes.new }
    ensures store { Stays (P.Store.state s.old) (P.Store.state s.new) }
{
    match end_all(nodes, order, s) {
        Ok(()) => false,
        Err(NoMemory) => {
            give_up_all(nodes, s);
            true
        }
    }
}

/// The broken end of the flow.
fn break_nodes<P: LocalPacket, K: Sink>(nodes: &mut [Node<P, K>], s: &mut P::Store)
    ensures took { NodesTook P.plain K.state nodes.old nodes.new [] }
    ensures are { (short : Bool) (outcome : Outcome) → outcome ≢ outcomes.Whole
        → NodesAre short None nodes.old → NodesAre short (Some outcome) nodes.new }
    ensures family { NodesFit P.fits (P.Store.state s.old).family nodes.old
        → NodesFit P.fits (P.Store.state s.old).family nodes.new }
    ensures store { Stays (P.Store.state s.old) (P.Store.state s.new) }
{
    break_all(nodes, s);
}

/// Memory ran out.
fn give_up_all<P: LocalPacket, K: Sink>(nodes: &mut [Node<P, K>], s: &mut P::Store)
    requires family { NodesFit P.fits (P.Store.state s.old).family nodes.old }
    ensures took { NodesTook P.plain K.state nodes.old nodes.new [] }
    ensures are { (ended : Option Outcome)
        → (ended ≢ Some outcomes.Whole → AreTaking nodes.old) → NodesAre true ended nodes.new }
    ensures family { NodesFit P.fits (P.Store.state s.old).family nodes.new }
    ensures store { Stays (P.Store.state s.old) (P.Store.state s.new) }
{
    fall(nodes, s);
}
