ghost use Rattle.std.specs.Prelude.{◌≡◌, ◌<◌, ℕ, List, length, slice_get, slice_index_or, Some, None, true, false, OnOk, OnErr, IfErr, MatchOption, IfSome};
ghost use Rattle.up_base.specs.ItemList.{AddsItem};
ghost use Rattle.up_engine.specs.Nets.{IsFull, NetEndsWithin, NetFits, NetStands, NetStandsForSome, RanToEnd, Turned, WentToRead, head_at, items_at};
ghost use Rattle.up_model.specs.Plans.{heads};
ghost use Rattle.up_model.specs.declared.pipe.Pipe.{Pipe as ThePipe};
ghost use Rattle.up_pump.specs.Circle.{is_due_at};
ghost use Rattle.up_shape.specs.Stores.{Stays};
ghost use Rattle.up_strand.specs.History.{History};
ghost use Rattle.up_strand.specs.Strands.{want_of};
ghost use Rattle.up_strand.specs.declared.want.Want.TheVariants as wants;

use crate::ahead::{Ahead, HasEnd};
use up_outside::{Sink, Source};
use up_pump::Loop;
use up_queue::{Full, Item, LocalLane};
use up_shape::LocalPacket;
use up_strand::{Strand, Want};

/// The strands of a graph, joined by lanes, each on a pump of one loop. It can't be dropped:
/// `finish` gives it up.
pub(crate) struct Net<P, S, K> {
    /// In the order of the file of their heads.
    pub strands: Vec<Strand<P, S, K>>,
    /// By strands: the place of its head.
    pub heads: Vec<u16>,
    /// By strands: the lane of its head, where that is no source.
    pub lanes: Vec<Option<LocalLane<P>>>,
    /// By strands: the strand that fills its lane; 0 where it has none.
    pub fillers: Vec<usize>,
    /// By places: the strand whose head stands there; 0 where no head does.
    pub numbers: Vec<usize>,
    /// By strands: ready where it has something to do, with a blocker where a lane that it fills
    /// has no room.
    pub pumps: Loop,
}

/// What a turn did.
#[derive(Clone, Copy, Debug, PartialEq, Eq)]
pub(crate) enum Turn {
    /// A strand took a step of its source: bytes came, a packet of those that had come was put out,
    /// or its flow ended.
    Read,
    /// An item went into a lane or came out of one, or a strand waits from now on.
    Moved,
    /// Every strand is done.
    Done,
}

impl<P: LocalPacket, S: Source, K: Sink> HasEnd for Net<P, S, K> {
    ghost ends_within = { NetEndsWithin P.plain S.state K.state };
}

impl<P: LocalPacket, S: Source, K: Sink> Net<P, S, K> {
    /// Takes turns until every strand is done.
    pub fn run(&mut self, s: &mut P::Store)
        requires stands { NetStandsForSome P.plain S.state K.state self.old }
        requires family { NetFits self.old P.fits (P.Store.state s.old).family }
        ensures ran { (pipes : List ThePipe) (past : ℕ → History)
            → NetStands P.plain S.state K.state self.old pipes past
            → RanToEnd P.plain S.state K.state pipes past self.new
            (P.Store.state s.old) (P.Store.state s.new) }
        ensures family { NetFits self.new P.fits (P.Store.state s.old).family }
        ensures store { Stays (P.Store.state s.old) (P.Store.state s.new) }
    {
        let mut ahead = Ahead::of(self);
        'reads: while self.run_to_read(s) {
            ahead = ahead.lowered();
        }
        // It shows that the loop ends, and nothing looks at what is left of it.
        let _ = ahead;
    }

    /// Takes turns until a strand took a step of its source, or every strand is done, which it tells
    /// by `false`.
    fn run_to_read(&mut self, s: &mut P::Store) -> bool
        requires stands { NetStandsForSome P.plain S.state K.state self.old }
        requires family { NetFits self.old P.fits (P.Store.state s.old).family }
        ensures went { (pipes : List ThePipe) (past : ℕ → History)
            → NetStands P.plain S.state K.state self.old pipes past
            → WentToRead P.plain S.state K.state pipes past self.new
            (P.Store.state s.old) (P.Store.state s.new) result }
        ensures family { NetFits self.new P.fits (P.Store.state s.old).family }
        ensures store { Stays (P.Store.state s.old) (P.Store.state s.new) }
    {
        let mut ahead = Ahead::of(self);
        'turns: loop {
            match self.turn(s) {
                Turn::Read => return true,
                Turn::Done => return false,
                Turn::Moved => ahead = ahead.lowered(),
            }
        }
    }

    /// One step of the strand whose turn it is.
    fn turn(&mut self, s: &mut P::Store) -> Turn
        requires stands { NetStandsForSome P.plain S.state K.state self.old }
        requires family { NetFits self.old P.fits (P.Store.state s.old).family }
        ensures turned { (pipes : List ThePipe) (past : ℕ → History)
            → NetStands P.plain S.state K.state self.old pipes past
            → Turned P.plain S.state K.state pipes past self.old self.new
            (P.Store.state s.old) (P.Store.state s.new) result }
        ensures family { NetFits self.new P.fits (P.Store.state s.old).family }
        ensures store { Stays (P.Store.state s.old) (P.Store.state s.new) }
    {
        match self.pumps.next() {
            Some(i) => self.step(i, s),
            None => Turn::Done,
        }
    }

    fn step(&mut self, i: usize, s: &mut P::Store) -> Turn
        requires within { i < length self.old.strands.items }
        requires due { is_due_at self.old.pumps.pumps i ≡ true }
        requires stands { NetStandsForSome P.plain S.state K.state self.old }
        requires family { NetFits self.old P.fits (P.Store.state s.old).family }
        ensures turned { (pipes : List ThePipe) (past : ℕ → History)
            → NetStands P.plain S.state K.state self.old pipes past
            → Turned P.plain S.state K.state pipes past self.old self.new
            (P.Store.state s.old) (P.Store.state s.new) result }
        ensures family { NetFits self.new P.fits (P.Store.state s.old).family }
        ensures store { Stays (P.Store.state s.old) (P.Store.state s.new) }
    {
        match self.strands[i].wants() {
            Want::Read => {
                self.strands[i].step_read(s);
                Turn::Read
            }
            Want::Input => {
                self.receive(i, s);
                Turn::Moved
            }
            Want::Output { lane } => {
                self.send(i, lane);
                Turn::Moved
            }
            Want::Done => {
                self.pumps.rest(i);
                Turn::Moved
            }
        }
    }
}
