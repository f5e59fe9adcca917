// Items that go into lanes and come out of them.
ghost use Rattle.std.specs.Prelude.{◌≡◌, ◌<◌, ◌↔◌, ℕ, List, length, slice_index_or, true, None, IfErr, IsErr, OnErr, OnOk};
ghost use Rattle.std.specs.Option.{is_some};
ghost use Rattle.up_base.specs.ItemList.{AddsItem, TakesFirst};
ghost use Rattle.up_engine.specs.Moves.{IsFreed, OtherLanesStay};
ghost use Rattle.up_engine.specs.Nets.{IsFull, NetFits, NetStands, NetStandsForSome, Turned, items_at};
ghost use Rattle.up_engine.specs.declared.net.Turn.TheVariants as turns;
ghost use Rattle.up_model.specs.declared.pipe.Pipe.{Pipe as ThePipe};
ghost use Rattle.up_pump.specs.Circle.{is_due_at};
ghost use Rattle.up_pump.specs.Pumps.{blockers_at, with_blockers};
ghost use Rattle.up_shape.specs.Stores.{Stays, StoreState};
ghost use Rattle.up_strand.specs.History.{History};
ghost use Rattle.up_strand.specs.Strands.{StandsForSome, want_of};
ghost use Rattle.up_strand.specs.declared.strand.Strand.{Strand as TheStrand};
ghost use Rattle.up_strand.specs.declared.want.Want.TheVariants as wants;

use crate::net::Net;
use up_outside::{Sink, Source};
use up_queue::{Full, Item};
use up_shape::LocalPacket;
use up_strand::Want;

impl<P: LocalPacket, S: Source, K: Sink> Net<P, S, K> {
    /// The strand takes the next item of its lane, or waits from now on where there is none.
    pub fn receive(&mut self, i: usize, s: &mut P::Store)
        requires within { i < length self.old.strands.items }
        requires due { is_due_at self.old.pumps.pumps i ≡ true }
        requires want { (d : TheStrand P S K)
            → want_of (slice_index_or self.old.strands.items i d) ≡ wants.Input }
        requires stands { NetStandsForSome P.plain S.state K.state self.old }
        requires family { NetFits self.old P.fits (P.Store.state s.old).family }
        ensures turned { (pipes : List ThePipe) (past : ℕ → History)
            → NetStands P.plain S.state K.state self.old pipes past
            → Turned P.plain S.state K.state pipes past self.old self.new
            (P.Store.state s.old) (P.Store.state s.new) turns.Moved }
        ensures family { NetFits self.new P.fits (P.Store.state s.old).family }
        ensures store { Stays (P.Store.state s.old) (P.Store.state s.new) }
    {
        match self.take_in(i) {
            Some(item) => {
                self.strands[i].step_item(item, s);
                self.free_filler(i);
            }
            None => self.pumps.rest(i),
        }
    }

    fn take_in(&mut self, i: usize) -> Option<Item<P>>
        requires within { i < length self.old.lanes.items }
        requires some { is_some (slice_index_or self.old.lanes.items i None) ≡ true }
        ensures same { self.new ≡ record self.old { lanes = self.new.lanes } }
        ensures others { OtherLanesStay self.old.lanes.items self.new.lanes.items i }
        ensures first { TakesFirst (items_at self.old.lanes.items i)
            (items_at self.new.lanes.items i) result }
        ensures unchanged { result ≡ None
            → self.new.lanes.items ≡ self.old.lanes.items }
    {
        match &mut self.lanes[i] {
            Some(lane) => lane.try_receive(),
            None => unreachable!(),
        }
    }

    /// The lane of the strand's head has room: the strand that fills it isn't held back by it any
    /// more.
    fn free_filler(&mut self, i: usize)
        requires within { i < length self.old.fillers.items }
        requires head { i < length self.old.heads.items }
        requires strand { slice_index_or self.old.fillers.items i 0
            < length self.old.strands.items }
        requires pump { slice_index_or self.old.fillers.items i 0
            < length self.old.pumps.pumps }
        requires stands { (d : TheStrand P S K) → StandsForSome P.plain S.state K.state
            (slice_index_or self.old.strands.items (slice_index_or self.old.fillers.items i 0) d) }
        ensures same { self.new ≡ record self.old { pumps = self.new.pumps } }
        ensures freed { IsFreed self.old i self.new.pumps }
    {
        let filler = self.fillers[i];
        let lane = self.heads[i];
        let waits = self.strands[filler].wants() == Want::Output { lane };
        if waits && self.pumps.blockers(filler) > 0 {
            self.pumps.unblock(filler);
        }
    }

    /// The strand gives an item out for the lane, or is held back where that has no room.
    pub fn send(&mut self, i: usize, lane: u16)
        requires within { i < length self.old.strands.items }
        requires due { is_due_at self.old.pumps.pumps i ≡ true }
        requires want { (d : TheStrand P S K)
            → want_of (slice_index_or self.old.strands.items i d) ≡ wants.Output lane }
        requires stands { NetStandsForSome P.plain S.state K.state self.old }
        ensures turned { (store : StoreState P.Store.Family) (pipes : List ThePipe)
            (past : ℕ → History) → NetStands P.plain S.state K.state self.old pipes past
            → Turned P.plain S.state K.state pipes past self.old self.new
            store store turns.Moved }
        ensures family { (family : P.Store.Family) → NetFits self.old P.fits family
            → NetFits self.new P.fits family }
    {
        let to = self.numbers[usize::from(lane)];
        let item = self.strands[i].next_out();
        match self.put_in(to, item) {
            Ok(()) => self.pumps.ready(to),
            Err(Full { item }) => {
                self.strands[i].keep_out(item);
                self.hold_back(i);
            }
        }
    }

    fn put_in(&mut self, i: usize, item: Item<P>) -> Result<(), Full<P>>
        requires within { i < length self.old.lanes.items }
        requires some { is_some (slice_index_or self.old.lanes.items i None) ≡ true }
        ensures same { self.new ≡ record self.old { lanes = self.new.lanes } }
        ensures others { OtherLanesStay self.old.lanes.items self.new.lanes.items i }
        ensures full { IsErr result ↔ IsFull (slice_index_or self.old.lanes.items i None) }
        ensures added { OnOk result (AddsItem item (items_at self.old.lanes.items i)
            (items_at self.new.lanes.items i)) }
        ensures unchanged { OnErr result (self.new.lanes.items ≡ self.old.lanes.items) }
        ensures back { IfErr result (λ refused. refused.item ≡ item) }
    {
        match &mut self.lanes[i] {
            Some(lane) => lane.try_send(item),
            None => unreachable!(),
        }
    }

    fn hold_back(&mut self, i: usize)
        requires within { i < length self.old.pumps.pumps }
        requires free { blockers_at self.old.pumps i ≡ 0 }
        ensures { self.new ≡ record self.old { pumps = with_blockers self.old.pumps i 1 } }
    {
        match self.pumps.block(i) {
            Ok(()) => {}
            Err(_) => unreachable!(),
        }
    }
}
