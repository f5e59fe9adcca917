ghost use Rattle.std.specs.Prelude.{◌≡◌, ◌≢◌, ◌<◌, ℕ, [], ◌∷◌, length, true, false, None, Some};
ghost use Rattle.std.specs.List.{Contains};
ghost use Rattle.up_model.specs.Packet.{IsLegal};
ghost use Rattle.up_model.specs.Plans.{strand_of};
ghost use Rattle.up_model.specs.declared.outcome.Outcome.TheVariants as outcomes;
ghost use Rattle.up_shape.specs.Stores.{Stays};
ghost use Rattle.up_strand.specs.History.{History, told_at};
ghost use Rattle.up_strand.specs.Steps.{IsGoing, OnceLooked, WentOn, ended_where, taken_where};
ghost use Rattle.up_strand.specs.StrandCalls.{CameOut, IsLegalItem, ItemFits, SteppedItem, SteppedRead, WentOut, gave_out, lane_given};
ghost use Rattle.up_strand.specs.Strands.{StandsFor, StandsForSome, StrandFits, takes_blocks, node_of, takes_frames, want_of};
ghost use Rattle.up_strand.specs.declared.want.Want.TheVariants as wants;

use crate::closing::Told;
use crate::frame_source::NextFrame;
use crate::intake::Intake;
use crate::outcomes::outcome_of;
use crate::source_packet::{Next, read_packet};
use crate::strand_end::StrandEnd;
use crate::tree::Tree;
use crate::want::Want;
use up_model::{CatchSet, Outcome};
use up_outside::{Sink, Source};
use up_queue::{EndKind, Item};
use up_shape::LocalPacket;

/// A source, or a pipe behind a lane, and the pipes behind it that one worker runs, a packet at a
/// time. It can't be dropped: `finish` gives it up.
pub struct Strand<P, S, K> {
    pub(crate) tree: Tree<P, K>,
    /// The place of each node's pipe; of the end of a lane, that of its head.
    pub(crate) places: Vec<u16>,
    /// What the probe of each pipe catches.
    pub(crate) caught: Vec<CatchSet>,
    /// By nodes: the end of the flow was taken out there.
    pub(crate) closed: Vec<bool>,
    pub(crate) intake: Intake<S>,
    /// How the flow of the head ended.
    pub(crate) ended: Option<Outcome>,
    /// The first node at which an item waits for a lane, or how many nodes there are.
    pub(crate) ready: usize,
    /// A packet that came back, for the lane of the node `ready`.
    pub(crate) kept: Option<P>,
    /// The node at which the last item was taken out, until the next step.
    pub(crate) last: Option<usize>,
    /// Room for what its end tells.
    pub(crate) told: Told<K>,
}

impl<P: LocalPacket, S: Source, K: Sink> Strand<P, S, K> {
    /// What it is to be asked for next. An item that waits for a lane comes first, and of lanes the
    /// one whose head is the first in the file.
    pub fn wants(&self) -> Want
        requires stands { StandsForSome P.plain S.state K.state self.now }
        ensures { result ≡ want_of self.now }
    {
        if self.ready < self.tree.nodes.len() {
            let lane = self.places[self.ready];
            return Want::Output { lane };
        }
        match (self.ended, &self.intake) {
            (Some(_), _) => Want::Done,
            (None, Intake::FromSource { .. }) => Want::Read,
            (None, Intake::FromFrames(_)) => Want::Read,
            (None, Intake::FromLane) => Want::Input,
        }
    }

    /// Takes out the next item for the lane that `wants` names. It takes no memory.
    pub fn next_out(&mut self) -> Item<P>
        requires stands { StandsForSome P.plain S.state K.state self.old }
        requires want { (lane : ℕ) × (want_of self.old ≡ wants.Output lane) }
        ensures gave { (h : History) (lane : ℕ) → want_of self.old ≡ wants.Output lane
            → StandsFor P.plain S.state K.state self.old h
            → WentOut P.plain S.state K.state self.new h lane result }
        ensures back { (lane : ℕ) → want_of self.old ≡ wants.Output lane
            → lane_given self.new ≡ Some lane }
        ensures legal { IsLegalItem P.plain result }
        ensures family { (f : P.Store.Family) → StrandFits self.old P.fits f
            → StrandFits self.new P.fits f × ItemFits P.fits f result }
    {
        let at = self.ready;
        let item = self.take_out(at);
        self.last = Some(at);
        self.ready = self.ready_from(at);
        item
    }

    /// Puts back the item that was taken out last, where its lane has no room. After a step nothing
    /// can come back. It takes no memory.
    pub fn keep_out(&mut self, item: Item<P>)
        requires came { CameOut P.plain S.state K.state self.old item }
        ensures back { (h : History) (lane : ℕ) → lane_given self.old ≡ Some lane
            → StandsFor P.plain S.state K.state self.old (gave_out P.plain h lane item)
            → h.closed lane ≡ false → StandsFor P.plain S.state K.state self.new h }
        ensures waits { (lane : ℕ) → lane_given self.old ≡ Some lane
            → want_of self.new ≡ wants.Output lane }
        ensures family { (f : P.Store.Family) → StrandFits self.old P.fits f
            → ItemFits P.fits f item → StrandFits self.new P.fits f }
    {
        let Some(at) = self.last else {
            unreachable!();
        };
        self.put_back(at, item);
        self.last = None;
        self.ready = at;
    }

    /// Takes what its source gives next. A raw source gives a block, which is fed; bytes that don't
    /// fill one are fed at the end of the source alone. A source of frames gives the packet of its
    /// next frame, which is fed, or else a piece of at most 65,536 bytes.
    pub fn step_read(&mut self, s: &mut P::Store)
        requires stands { StandsForSome P.plain S.state K.state self.old }
        requires want { want_of self.old ≡ wants.Read }
        requires family { StrandFits self.old P.fits (P.Store.state s.old).family }
        ensures stepped { (h : History) → StandsFor P.plain S.state K.state self.old h
            → SteppedRead P.plain S.state K.state self.new h
            (P.Store.state s.old) (P.Store.state s.new) }
        ensures family { StrandFits self.new P.fits (P.Store.state s.old).family }
        ensures store { Stays (P.Store.state s.old) (P.Store.state s.new) }
    {
        self.take_read(s);
        self.look_for_output();
    }

    /// Feeds what its source gives next.
    fn take_read(&mut self, s: &mut P::Store)
        requires stands { StandsForSome P.plain S.state K.state self.old }
        requires want { want_of self.old ≡ wants.Read }
        requires family { StrandFits self.old P.fits (P.Store.state s.old).family }
        ensures stepped { OnceLooked self.new (λ strand. (h : History)
            → StandsFor P.plain S.state K.state self.old h
            → SteppedRead P.plain S.state K.state strand h
            (P.Store.state s.old) (P.Store.state s.new)) }
        ensures kept { self.new.kept ≡ None }
        ensures closed { length self.new.closed.items ≡ length self.new.tree.nodes.items }
        ensures family { StrandFits self.new P.fits (P.Store.state s.old).family }
        ensures store { Stays (P.Store.state s.old) (P.Store.state s.new) }
    {
        match &self.intake {
            Intake::FromSource { .. } => self.take_block(s),
            Intake::FromFrames(_) => self.take_frame(s),
            Intake::FromLane => unreachable!(),
        }
    }

    /// Feeds the next block of a raw source.
    fn take_block(&mut self, s: &mut P::Store)
        requires stands { StandsForSome P.plain S.state K.state self.old }
        requires want { want_of self.old ≡ wants.Read }
        requires raw { takes_blocks self.old.intake ≡ true }
        requires family { StrandFits self.old P.fits (P.Store.state s.old).family }
        ensures stepped { OnceLooked self.new (λ strand. (h : History)
            → StandsFor P.plain S.state K.state self.old h
            → SteppedRead P.plain S.state K.state strand h
            (P.Store.state s.old) (P.Store.state s.new)) }
        ensures kept { self.new.kept ≡ None }
        ensures closed { length self.new.closed.items ≡ length self.new.tree.nodes.items }
        ensures family { StrandFits self.new P.fits (P.Store.state s.old).family }
        ensures store { Stays (P.Store.state s.old) (P.Store.state s.new) }
    {
        let Intake::FromSource {
            source,
            block,
            limit,
            left,
        } = &mut self.intake
        else {
            unreachable!();
        };
        let limit = *limit;
        match read_packet(source, *block, *left, s) {
            Next::Packet(p) => {
                *left -= u64::from(*block);
                self.feed_next(p, s);
            }
            Next::Last(p) => self.feed_last(p, s),
            Next::End => self.end(Outcome::Whole, s),
            Next::Fault => self.end(Outcome::ReadFault, s),
            Next::TooLong => self.end(Outcome::TooLong { limit }, s),
            Next::NoMemory => self.run_short(s),
            Next::NoRoom => self.run_short(s),
        }
    }

    /// Feeds the next packet of a source of frames, or reads a piece of it.
    fn take_frame(&mut self, s: &mut P::Store)
        requires stands { StandsForSome P.plain S.state K.state self.old }
        requires want { want_of self.old ≡ wants.Read }
        requires framed { takes_frames self.old.intake ≡ true }
        requires family { StrandFits self.old P.fits (P.Store.state s.old).family }
        ensures stepped { OnceLooked self.new (λ strand. (h : History)
            → StandsFor P.plain S.state K.state self.old h
            → SteppedRead P.plain S.state K.state strand h
            (P.Store.state s.old) (P.Store.state s.new)) }
        ensures kept { self.new.kept ≡ None }
        ensures closed { length self.new.closed.items ≡ length self.new.tree.nodes.items }
        ensures family { StrandFits self.new P.fits (P.Store.state s.old).family }
        ensures store { Stays (P.Store.state s.old) (P.Store.state s.new) }
    {
        let Intake::FromFrames(frames) = &mut self.intake else {
            unreachable!();
        };
        match frames.next(s) {
            NextFrame::Packet(p) => self.feed_next(p, s),
            NextFrame::Piece => {}
            NextFrame::Ended(outcome) => self.end(outcome, s),
            NextFrame::NoMemory => self.run_short(s),
        }
    }

    /// Takes the next item of the lane of its head. Once memory ran out a packet is given up.
    pub fn step_item(&mut self, item: Item<P>, s: &mut P::Store)
        requires stands { StandsForSome P.plain S.state K.state self.old }
        requires want { want_of self.old ≡ wants.Input }
        requires legal { IsLegalItem P.plain item }
        requires item { ItemFits P.fits (P.Store.state s.old).family item }
        requires family { StrandFits self.old P.fits (P.Store.state s.old).family }
        ensures stepped { (h : History) → StandsFor P.plain S.state K.state self.old h
            → SteppedItem P.plain S.state K.state self.new h item }
        ensures family { StrandFits self.new P.fits (P.Store.state s.old).family }
        ensures store { Stays (P.Store.state s.old) (P.Store.state s.new) }
    {
        self.take_item(item, s);
        self.look_for_output();
    }

    /// Feeds an item of the lane of its head.
    fn take_item(&mut self, item: Item<P>, s: &mut P::Store)
        requires stands { StandsForSome P.plain S.state K.state self.old }
        requires want { want_of self.old ≡ wants.Input }
        requires legal { IsLegalItem P.plain item }
        requires item { ItemFits P.fits (P.Store.state s.old).family item }
        requires family { StrandFits self.old P.fits (P.Store.state s.old).family }
        ensures stepped { OnceLooked self.new (λ strand. (h : History)
            → StandsFor P.plain S.state K.state self.old h
            → SteppedItem P.plain S.state K.state strand h item) }
        ensures kept { self.new.kept ≡ None }
        ensures closed { length self.new.closed.items ≡ length self.new.tree.nodes.items }
        ensures family { StrandFits self.new P.fits (P.Store.state s.old).family }
        ensures store { Stays (P.Store.state s.old) (P.Store.state s.new) }
    {
        match item {
            Item::Packet(p) => self.feed(p, s),
            Item::End(EndKind::Whole) => self.end(Outcome::Whole, s),
            Item::End(EndKind::Broken) => self.end(Outcome::Broken, s),
        }
    }

    /// Feeds the next packet of a flow that goes on.
    fn feed(&mut self, p: P, s: &mut P::Store)
        requires going { IsGoing P.plain K.state P.fits (P.Store.state s.old).family
            self.old.tree }
        requires legal { IsLegal (P.plain p) }
        requires packet { P.fits p (P.Store.state s.old).family }
        ensures went { WentOn P.plain K.state P.fits (P.Store.state s.old).family
            self.old.tree self.new.tree (taken_where self.old.tree.short (P.plain p)) None }
        ensures same { self.new ≡ record self.old { tree = self.new.tree } }
        ensures store { Stays (P.Store.state s.old) (P.Store.state s.new) }
    {
        self.tree.feed(p, s);
    }

    /// Feeds a packet behind which more may come. Where memory runs out the flow ends.
    fn feed_next(&mut self, p: P, s: &mut P::Store)
        requires long { self.old.tree.short ≡ false }
        requires going { IsGoing P.plain K.state P.fits (P.Store.state s.old).family
            self.old.tree }
        requires legal { IsLegal (P.plain p) }
        requires packet { P.fits p (P.Store.state s.old).family }
        ensures went { WentOn P.plain K.state P.fits (P.Store.state s.old).family
            self.old.tree self.new.tree (P.plain p ∷ []) (ended_where self.new.tree.short) }
        ensures same { self.new ≡ record self.old {
          tree = self.new.tree;
          ended = ended_where self.new.tree.short;
        } }
        ensures store { Stays (P.Store.state s.old) (P.Store.state s.new) }
    {
        self.feed(p, s);
        self.ended = ended_where(self.tree.short);
    }

    /// Feeds the last packet of a source, and ends the flow: wholly, also where memory runs out,
    /// but then the end that is passed on is broken.
    fn feed_last(&mut self, p: P, s: &mut P::Store)
        requires long { self.old.tree.short ≡ false }
        requires going { IsGoing P.plain K.state P.fits (P.Store.state s.old).family
            self.old.tree }
        requires legal { IsLegal (P.plain p) }
        requires packet { P.fits p (P.Store.state s.old).family }
        ensures went { WentOn P.plain K.state P.fits (P.Store.state s.old).family
            self.old.tree self.new.tree (P.plain p ∷ []) (Some outcomes.Whole) }
        ensures same { self.new ≡ record self.old {
          tree = self.new.tree;
          ended = Some outcomes.Whole;
        } }
        ensures store { Stays (P.Store.state s.old) (P.Store.state s.new) }
    {
        self.feed(p, s);
        self.end(Outcome::Whole, s);
    }

    /// Memory ran out, and the flow ends.
    fn run_short(&mut self, s: &mut P::Store)
        requires going { IsGoing P.plain K.state P.fits (P.Store.state s.old).family
            self.old.tree }
        ensures went { WentOn P.plain K.state P.fits (P.Store.state s.old).family
            self.old.tree self.new.tree [] (Some outcomes.NoMemory) }
        ensures short { self.new.tree.short ≡ true }
        ensures same { self.new ≡ record self.old {
          tree = self.new.tree;
          ended = Some outcomes.NoMemory;
        } }
        ensures store { Stays (P.Store.state s.old) (P.Store.state s.new) }
    {
        self.tree.fall(s);
        self.ended = Some(Outcome::NoMemory);
    }

    /// The flow of the head ends so.
    pub(crate) fn end(&mut self, outcome: Outcome, s: &mut P::Store)
        requires going { IsGoing P.plain K.state P.fits (P.Store.state s.old).family
            self.old.tree }
        ensures went { WentOn P.plain K.state P.fits (P.Store.state s.old).family
            self.old.tree self.new.tree [] (Some outcome) }
        ensures short { outcome ≢ outcomes.Whole
            → self.new.tree.short ≡ self.old.tree.short }
        ensures same { self.new ≡ record self.old { tree = self.new.tree; ended = Some outcome } }
        ensures store { Stays (P.Store.state s.old) (P.Store.state s.new) }
    {
        self.end_tree(outcome, s);
        self.ended = Some(outcome);
    }

    /// The flow of the nodes ends so.
    fn end_tree(&mut self, outcome: Outcome, s: &mut P::Store)
        requires going { IsGoing P.plain K.state P.fits (P.Store.state s.old).family
            self.old.tree }
        ensures went { WentOn P.plain K.state P.fits (P.Store.state s.old).family
            self.old.tree self.new.tree [] (Some outcome) }
        ensures short { outcome ≢ outcomes.Whole
            → self.new.tree.short ≡ self.old.tree.short }
        ensures same { self.new ≡ record self.old { tree = self.new.tree } }
        ensures store { Stays (P.Store.state s.old) (P.Store.state s.new) }
    {
        match outcome {
            Outcome::Whole => self.tree.end(s),
            _ => self.tree.break_off(s),
        }
    }

    /// The node of the pipe at a place.
    fn node_of(&self, pipe: u16) -> Option<usize>
        ensures { result ≡ node_of self.now pipe }
    {
        self.places.iter().position(|place| *place == pipe)
    }

    /// How the pipe at a place ended, or that nothing befell it so far.
    pub fn outcome(&self, pipe: u16) -> Outcome
        requires within { (h : History) × StandsFor P.plain S.state K.state self.now h
            × Contains (strand_of h.pipes h.head) pipe }
        ensures { (h : History) → StandsFor P.plain S.state K.state self.now h
            → result ≡ told_at h pipe }
    {
        match self.node_of(pipe) {
            Some(i) => outcome_of(&self.tree.nodes[i].part, self.tree.short, self.ended),
            None => unreachable!(),
        }
    }
}

/// How the flow of a source that gave a packet behind which more may come ended.
fn ended_where(short: bool) -> Option<Outcome>
    ensures { result ≡ ended_where short }
{
    match short {
        true => Some(Outcome::NoMemory),
        false => None,
    }
}
