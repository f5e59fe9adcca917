// What waits for the lanes that a strand fills.
ghost use Rattle.std.specs.Prelude.{◌≡◌, ◌<◌, ◌≤◌, ℕ, length, false, None, Some};
ghost use Rattle.std.specs.Option.{option_map_or};
ghost use Rattle.up_strand.specs.History.{end_by};
ghost use Rattle.up_strand.specs.Strands.{first_ready, has_item};
ghost use Rattle.up_strand.specs.TakenOut.{PutBack, TookOut};

use crate::strand::Strand;
use std::mem;
use up_model::Outcome;
use up_outside::{Sink, Source};
use up_queue::{EndKind, Item};
use up_shape::LocalPacket;

impl<P: LocalPacket, S: Source, K: Sink> Strand<P, S, K> {
    /// Whether an item waits for a lane at a node.
    fn has_item(&self, i: usize) -> bool
        requires node { i < length self.now.tree.nodes.items }
        requires closed { length self.now.closed.items ≡ length self.now.tree.nodes.items }
        ensures { result ≡ has_item self.now i }
    {
        let node = &self.tree.nodes[i];
        let kept = i == self.ready && self.kept.is_some();
        node.is_outlet()
            && (kept || node.out.len() > 0 || (self.ended.is_some() && !self.closed[i]))
    }

    /// The first node, from this one on, at which an item waits for a lane, or how many nodes there
    /// are.
    pub(crate) fn ready_from(&self, from: usize) -> usize
        requires closed { length self.now.closed.items ≡ length self.now.tree.nodes.items }
        requires before { (i : ℕ) → i < from → has_item self.now i ≡ false }
        ensures first { result
            ≡ option_map_or (λ i. i) (first_ready self.now) (length self.now.tree.nodes.items) }
        ensures behind { from ≤ length self.now.tree.nodes.items → from ≤ result }
    {
        let count = self.tree.nodes.len();
        for i in from..count {
            if self.has_item(i) {
                return i;
            }
        }
        count
    }

    /// Takes out the item that waits at the node.
    pub(crate) fn take_out(&mut self, place: usize) -> Item<P>
        requires within { place < length self.old.tree.nodes.items }
        requires closed { length self.old.closed.items ≡ length self.old.tree.nodes.items }
        ensures { TookOut place self.old self.new result }
    {
        match mem::replace(&mut self.kept, None) {
            Some(p) => Item::Packet(p),
            None => match self.tree.nodes[place].out.next() {
                Some(p) => Item::Packet(p),
                None => {
                    self.closed[place] = true;
                    Item::End(end_by(self.tree.short, self.ended))
                }
            },
        }
    }

    /// Puts back the item that was taken out at the node.
    pub(crate) fn put_back(&mut self, place: usize, item: Item<P>)
        requires within { place < length self.old.closed.items }
        requires empty { self.old.kept ≡ None }
        ensures { PutBack place self.old self.new item }
    {
        match item {
            Item::Packet(p) => keep(&mut self.kept, p),
            Item::End(_) => self.closed[place] = false,
        }
    }

    /// Nothing that was taken out can come back, and what waits is known. It looks behind the nodes
    /// of the pipes, at which nothing waits for a lane.
    pub(crate) fn look_for_output(&mut self)
        requires closed { length self.old.closed.items ≡ length self.old.tree.nodes.items }
        requires kept { self.old.kept ≡ None }
        requires pipes { (i : ℕ) → i < length self.old.caught.items
            → has_item self.old i ≡ false }
        ensures same { self.new ≡ record self.old { last = None; ready = self.new.ready } }
        ensures ready { self.new.ready
            ≡ option_map_or (λ i. i) (first_ready self.new) (length self.new.tree.nodes.items) }
    {
        self.last = None;
        self.ready = self.ready_from(self.caught.len());
    }
}

/// The end that a strand passes on, by whether memory ran out and by how the flow of its head
/// ended.
fn end_by(short: bool, ended: Option<Outcome>) -> EndKind
    ensures { result ≡ end_by short ended }
{
    match (short, ended) {
        (false, Some(Outcome::Whole)) => EndKind::Whole,
        _ => EndKind::Broken,
    }
}

/// Keeps a packet in an empty place.
fn keep<P>(place: &mut Option<P>, p: P)
    requires empty { place.old ≡ None }
    ensures { place.new ≡ Some p }
{
    match mem::replace(place, Some(p)) {
        None => {}
        Some(_) => unreachable!(),
    }
}
