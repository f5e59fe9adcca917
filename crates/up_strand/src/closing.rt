// A strand that is given up.
ghost use Rattle.std.specs.Prelude.{◌≡◌, ◌<◌, ◌≤◌, ◌+◌, ◌++◌, ◌∷◌, [], false, true, length, IfOk, MatchOption, None};
ghost use Rattle.up_model.specs.Tallies.{uncaught};
ghost use Rattle.up_shape.specs.Stores.{Stays};
ghost use Rattle.up_strand.specs.Closing.{AreTold, AreWithoutSinks, HasNone, HasRoomsFor, HasSameRooms, outcome_at, sinks_in};
ghost use Rattle.up_strand.specs.Gifts.{NodesFit};
ghost use Rattle.up_strand.specs.History.{History};
ghost use Rattle.up_strand.specs.Nodes.{NodeFits, holds_sink};
ghost use Rattle.up_strand.specs.Rooms.{HasOnlyRoom};
ghost use Rattle.up_strand.specs.StrandCalls.{Finished, SourceEnds, is_done};
ghost use Rattle.up_strand.specs.Strands.{IntakeStands, StandsFor, StandsForSome, StrandFits, want_of};
ghost use Rattle.up_strand.specs.Tree.{AllAt};

use crate::any_module::AnyModule;
use crate::intake::Intake;
use crate::node::{Node, Part, give_back, give_up_waiting};
use crate::outcomes::{outcome_of, told_at_last};
use crate::strand::Strand;
use crate::strand_end::{StrandEnd, StrandParts};
use crate::tree::Tree;
use crate::want::Want;
use std::alloc::Global;
use std::mem;
use up_base::{NoMemory, ReservedList};
use up_model::{CatchSet, Outcome, Tally};
use up_outside::{Sink, Source};
use up_shape::{LocalPacket, Module};

impl<P: LocalPacket, S: Source, K: Sink> Strand<P, S, K> {
    /// Gives up what the strand holds, at any time. It takes no memory.
    pub fn finish(self, s: &mut P::Store) -> StrandEnd<S, K>
        requires stands { StandsForSome P.plain S.state K.state self }
        requires family { StrandFits self P.fits (P.Store.state s.old).family }
        ensures finished { (h : History) → StandsFor P.plain S.state K.state self h
            → Finished S.state K.state (is_done (want_of self)) h result }
        ensures store { Stays (P.Store.state s.old) (P.Store.state s.new) }
    {
        let done = matches!(self.wants(), Want::Done);
        let Strand {
            tree,
            places: _,
            caught,
            closed: _,
            intake,
            ended,
            ready: _,
            kept,
            last: _,
            mut told,
        } = self;
        let Tree {
            mut nodes,
            order: _,
            short,
        } = tree;
        let ending = Ending { done, short, ended };
        tell_all(&mut nodes, &caught, ending, &mut told);
        if let Some(p) = kept {
            p.give_up(s);
        }
        give_up_nodes(nodes, s);
        let Told {
            outcomes,
            tallies,
            sinks,
        } = told;
        StrandEnd {
            parts: StrandParts {
                source: source_of(intake),
                sinks: sinks.into_list(),
            },
            outcomes: outcomes.into_list(),
            tallies: tallies.into_list(),
        }
    }
}

impl<P: LocalPacket, K: Sink> Node<P, K> {
    /// Its sink goes to the end of these, where it is one.
    fn give_sink(&mut self, sinks: &mut ReservedList<K>)
        requires room { holds_sink self.old.part ≡ true
            → length sinks.old.items < sinks.old.room }
        ensures given { sinks.new.items ≡ sinks.old.items ++ sinks_in self.old.part }
        ensures room { sinks.new.room ≡ sinks.old.room }
        ensures none { holds_sink self.new.part ≡ false }
        ensures out { self.new.out ≡ self.old.out }
    {
        match mem::replace(&mut self.part, Part::Ended { whole: false }) {
            Part::Sink {
                sink,
                spelling: _,
                failed: _,
            } => sinks.push(sink),
            other => give_back(&mut self.part, other),
        }
    }

    /// Gives up a node that is no sink, with all that it holds.
    fn give_up(self, s: &mut P::Store)
        requires none { holds_sink self.part ≡ false }
        requires family { NodeFits P.fits self (P.Store.state s.old).family }
        ensures store { Stays (P.Store.state s.old) (P.Store.state s.new) }
    {
        let Node {
            input: _,
            takers: _,
            part,
            mut out,
            short: _,
        } = self;
        give_up_waiting(&mut out, s);
        out.end();
        match part {
            Part::Pipe(module) => <AnyModule as Module<P>>::give_up(module, s),
            Part::Head | Part::Outlet | Part::Ended { whole: _ } => {}
            Part::Sink { .. } => unreachable!(),
        }
    }
}

/// What is told of the pipes of a strand, and its sinks, in the order of the file.
pub(crate) struct Told<K> {
    pub outcomes: ReservedList<Outcome>,
    pub tallies: ReservedList<Tally>,
    pub sinks: ReservedList<K>,
}

/// How a strand ended.
#[derive(Clone, Copy)]
struct Ending {
    done: bool,
    short: bool,
    ended: Option<Outcome>,
}

impl<K> Told<K> {
    /// Room for so many pipes, of which so many are sinks.
    pub(crate) fn with_room(alloc: Global, pipes: usize, sinks: usize) -> Result<Told<K>, NoMemory>
        ensures { IfOk result (λ told. HasOnlyRoom pipes sinks told) }
    {
        Ok(Told {
            outcomes: ReservedList::with_room(alloc, pipes)?,
            tallies: ReservedList::with_room(alloc, pipes)?,
            sinks: ReservedList::with_room(alloc, sinks)?,
        })
    }
}

impl<K: Sink> Told<K> {
    /// Tells of the next node, and takes out its sink, where it is one.
    fn add<P: LocalPacket>(&mut self, node: &mut Node<P, K>, caught: CatchSet, ending: Ending)
        requires outcomes { length self.old.outcomes.items < self.old.outcomes.room }
        requires tallies { length self.old.tallies.items < self.old.tallies.room }
        requires sinks { length self.old.sinks.items + length (sinks_in node.old.part)
            ≤ self.old.sinks.room }
        ensures rooms { HasSameRooms self.old self.new }
        ensures outcome { self.new.outcomes.items
            ≡ self.old.outcomes.items ++ outcome_at ending node.old ∷ [] }
        ensures tally { self.new.tallies.items
            ≡ self.old.tallies.items ++ uncaught caught node.old.out.tally ∷ [] }
        ensures sink { self.new.sinks.items ≡ self.old.sinks.items ++ sinks_in node.old.part }
        ensures none { holds_sink node.new.part ≡ false }
        ensures out { node.new.out ≡ node.old.out }
    {
        let outcome = outcome_of(&node.part, ending.short, ending.ended);
        self.outcomes.push(told_at_last(ending.done, outcome));
        self.tallies.push(node.out.tally().uncaught(caught));
        node.give_sink(&mut self.sinks);
    }
}

/// Tells of the first nodes, which are those of the pipes, and takes out their sinks.
fn tell_all<P: LocalPacket, K: Sink>(
    nodes: &mut [Node<P, K>],
    caught: &[CatchSet],
    ending: Ending,
    told: &mut Told<K>,
)
    requires nodes { length caught.now ≤ length nodes.old }
    requires none { HasNone told.old }
    requires rooms { HasRoomsFor caught.now nodes.old told.old }
    ensures told { AreTold ending caught.now nodes.old told.new }
    ensures left { AreWithoutSinks (length caught.now) nodes.old nodes.new }
{
    for i in 0..caught.len() {
        told.add(&mut nodes[i], caught[i], ending);
    }
}

/// Gives up all nodes, of which none is a sink.
fn give_up_nodes<P: LocalPacket, K: Sink>(mut nodes: Vec<Node<P, K>>, s: &mut P::Store)
    requires none { AllAt (λ node. holds_sink node.part ≡ false) nodes.items }
    requires family { NodesFit P.fits (P.Store.state s.old).family nodes.items }
    ensures store { Stays (P.Store.state s.old) (P.Store.state s.new) }
{
    while let Some(node) = nodes.pop() {
        node.give_up(s);
    }
    nodes.destroy_empty();
}

/// The source of the head, where it is one.
fn source_of<S: Source>(intake: Intake<S>) -> Option<S>
    ensures { (h : History) → IntakeStands S.state intake h
        → MatchOption result (h.source ≡ None) (λ source. SourceEnds h (S.state source)) }
{
    match intake {
        Intake::FromSource {
            source,
            block: _,
            limit: _,
            left: _,
        } => Some(source),
        Intake::FromFrames(frames) => Some(frames.into_source()),
        Intake::FromLane => None,
    }
}
