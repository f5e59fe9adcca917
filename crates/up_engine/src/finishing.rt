// The strands of a graph, given up.
ghost use Rattle.std.specs.Prelude.{◌≡◌, ◌<◌, ℕ, List, [], length, slice_index_or, MatchOption};
ghost use Rattle.up_engine.specs.Begun.{AreBackFrom, EndsLast, IsToldOf, StrandsFit, StrandsStand};
ghost use Rattle.up_engine.specs.Making.{AreBack, AreTold};
ghost use Rattle.up_engine.specs.Nets.{IsOver, NetFits, NetStands, items_at};
ghost use Rattle.up_engine.specs.Objects.{AreThere};
ghost use Rattle.up_engine.specs.Parts.{AreApart, HasNone, IsPutBack, IsStrandOf, TellsOf};
ghost use Rattle.up_model.specs.Plans.{strand_of};
ghost use Rattle.up_plan.specs.Plan.{plan_of};
ghost use Rattle.up_shape.specs.Stores.{Stays};
ghost use Rattle.up_strand.specs.History.{History};
ghost use Rattle.up_strand.specs.StrandCalls.{is_done};
ghost use Rattle.up_strand.specs.Strands.{StandsFor, StrandFits, want_of};

use crate::net::Net;
use crate::object::Object;
use crate::parts::put_back;
use crate::results::Results;
use up_model::{Graph, OutcomeList, PlaceList, TallyList};
use up_outside::{Sink, Source};
use up_plan::{Plan, PlanStrand};
use up_queue::LocalLane;
use up_shape::LocalPacket;
use up_strand::{Strand, StrandEnd};

/// How the pipes of a strand ended and what they counted, in the order of the file.
#[derive(Drop)]
pub(crate) struct Told {
    pub outcomes: OutcomeList,
    pub tallies: TallyList,
}

impl<P: LocalPacket, S: Source, K: Sink> Net<P, S, K> {
    /// Gives up all strands, which are done: how each pipe ended and what it counted is told, and
    /// what was open stands in the table again.
    pub fn finish(
        self,
        graph: &Graph,
        plan: &Plan,
        table: &mut [Object<S, K>],
        results: &mut Results,
        s: &mut P::Store,
    )
        requires plan { plan.now ≡ plan_of graph.now.pipes }
        requires stands { (past : ℕ → History)
            × NetStands P.plain S.state K.state self graph.now.pipes past }
        requires over { IsOver self graph.now.pipes }
        requires family { NetFits self P.fits (P.Store.state s.old).family }
        requires none { AreThere S.state K.state graph.now.pipes 0 table.old }
        requires outcomes { length results.old.outcomes.items ≡ length graph.now.pipes }
        requires tallies { length results.old.tallies.items ≡ length graph.now.pipes }
        ensures back { (past : ℕ → History)
            → NetStands P.plain S.state K.state self graph.now.pipes past
            → AreBack S.state K.state graph.now.pipes past table.new }
        ensures told { (past : ℕ → History)
            → NetStands P.plain S.state K.state self graph.now.pipes past
            → AreTold graph.now.pipes past results.new }
        ensures store { Stays (P.Store.state s.old) (P.Store.state s.new) }
    {
        let Net {
            mut strands,
            heads: _,
            lanes,
            fillers: _,
            numbers: _,
            pumps: _,
        } = self;
        'strands: while let Some(told) = end_last(graph, plan, &mut strands, table, s) {
            tell(&plan.strands.at(strands.len()).pipes, &told, results);
        }
        strands.destroy_empty();
        end_lanes(lanes);
    }
}

/// Gives up the last of the strands that are left, and what it had stands in the table again.
pub(crate) fn end_last<P: LocalPacket, S: Source, K: Sink>(
    graph: &Graph,
    plan: &Plan,
    strands: &mut Vec<Strand<P, S, K>>,
    table: &mut [Object<S, K>],
    s: &mut P::Store,
) -> Option<Told>
    requires plan { plan.now ≡ plan_of graph.now.pipes }
    requires stands { (past : ℕ → History)
        × StrandsStand P.plain S.state K.state graph.now.pipes strands.old.items past
        × AreBackFrom S.state K.state graph.now.pipes (length strands.old.items) past table.old }
    requires family { StrandsFit strands.old.items P.fits (P.Store.state s.old).family }
    ensures ended { MatchOption result
        ((strands.old.items ≡ []) × (strands.new.items ≡ []) × (table.new ≡ table.old))
        (EndsLast P.plain S.state K.state graph.now.pipes strands.old.items strands.new.items
        table.old table.new) }
    ensures family { StrandsFit strands.new.items P.fits (P.Store.state s.old).family }
    ensures store { Stays (P.Store.state s.old) (P.Store.state s.new) }
{
    let strand = strands.pop()?;
    let own = plan.strands.at(strands.len());
    Some(end_strand(graph, own, strand, table, s))
}

fn end_strand<P: LocalPacket, S: Source, K: Sink>(
    graph: &Graph,
    own: &PlanStrand,
    strand: Strand<P, S, K>,
    table: &mut [Object<S, K>],
    s: &mut P::Store,
) -> Told
    requires strand { IsStrandOf graph.now.pipes own.now.head own.now.pipes }
    requires places { own.now.pipes ≡ strand_of graph.now.pipes own.now.head }
    requires table { length table.old ≡ length graph.now.pipes }
    requires none { HasNone own.now.pipes table.old }
    requires stands { (h : History) × StandsFor P.plain S.state K.state strand h
        × (h.pipes ≡ graph.now.pipes) × (h.head ≡ own.now.head) }
    requires family { StrandFits strand P.fits (P.Store.state s.old).family }
    ensures back { (h : History) → StandsFor P.plain S.state K.state strand h
        → h.pipes ≡ graph.now.pipes → h.head ≡ own.now.head
        → IsPutBack S.state K.state graph.now.pipes h table.old table.new }
    ensures told { (h : History) → StandsFor P.plain S.state K.state strand h
        → IsToldOf (is_done (want_of strand)) h result }
    ensures store { Stays (P.Store.state s.old) (P.Store.state s.new) }
{
    let StrandEnd {
        parts,
        outcomes,
        tallies,
    } = strand.finish(s);
    put_back(graph, own, parts, table);
    Told { outcomes, tallies }
}

fn tell(places: &PlaceList, told: &Told, results: &mut Results)
    requires apart { AreApart places.now }
    requires outcomes { length told.now.outcomes ≡ length places.now }
    requires tallies { length told.now.tallies ≡ length places.now }
    requires outcome_room { (k : ℕ) → k < length places.now
        → slice_index_or places.now k 0 < length results.old.outcomes.items }
    requires tally_room { (k : ℕ) → k < length places.now
        → slice_index_or places.now k 0 < length results.old.tallies.items }
    ensures { TellsOf places.now told.now.outcomes told.now.tallies results.old results.new }
{
    for i in 0..places.len() {
        let place = usize::from(*places.at(i));
        results.outcomes[place] = *told.outcomes.at(i);
        results.tallies[place] = *told.tallies.at(i);
    }
}

pub(crate) fn end_lanes<P>(mut lanes: Vec<Option<LocalLane<P>>>)
    requires { (i : ℕ) → items_at lanes.items i ≡ [] }
{
    while let Some(lane) = lanes.pop() {
        match lane {
            Some(lane) => lane.end(),
            None => {}
        }
    }
    lanes.destroy_empty();
}
