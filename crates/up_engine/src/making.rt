// The strands of a graph, made of what was opened.
ghost use Rattle.std.specs.Prelude.{◌≡◌, ◌<◌, ◌≤◌, ℕ, [], length, IfOk, OnOk, OnErr};
ghost use Rattle.std.specs.Vec.{vec_capacity};
ghost use Rattle.up_engine.specs.Begun.{AddsStrand, AreBackFrom, HasSameObjects, StrandsFit, StrandsStand, places_at};
ghost use Rattle.up_engine.specs.Entries.{path_places};
ghost use Rattle.up_engine.specs.Making.{AllBegin, AreBack};
ghost use Rattle.up_engine.specs.Nets.{NetFits, NetStands, items_at};
ghost use Rattle.up_engine.specs.Objects.{AreThere};
ghost use Rattle.up_engine.specs.Parts.{HasEnds};
ghost use Rattle.up_engine.specs.Tables.{HasTables};
ghost use Rattle.up_model.specs.Plans.{heads};
ghost use Rattle.up_model.specs.WellFormed.{IsWellFormed};
ghost use Rattle.up_plan.specs.Plan.{plan_of};
ghost use Rattle.up_shape.specs.Stores.{Stays};
ghost use Rattle.up_strand.specs.History.{History};

use crate::finishing::{end_lanes, end_last};
use crate::net::Net;
use crate::object::Object;
use crate::parts::{put_back, take_parts};
use crate::tables::{fillers_of, heads_of, lanes_of, numbers_of, ready_pumps};
use std::alloc::Global;
use up_base::NoMemory;
use up_model::Graph;
use up_outside::{Sink, Source};
use up_plan::Plan;
use up_shape::LocalPacket;
use up_strand::{Strand, StrandParts};

impl<P: LocalPacket, S: Source, K: Sink> Net<P, S, K> {
    /// The strands of a graph, with what was opened for them, which is taken out of the table. Where
    /// there is no memory, all of it stands there again.
    pub fn new(
        alloc: Global,
        graph: &Graph,
        plan: &Plan,
        table: &mut [Object<S, K>],
        s: &mut P::Store,
    ) -> Result<Net<P, S, K>, NoMemory>
        requires well_formed { IsWellFormed graph.now.pipes }
        requires plan { plan.now ≡ plan_of graph.now.pipes }
        requires there { AreThere S.state K.state graph.now.pipes
            (length (path_places graph.now.pipes)) table.old }
        ensures stands { IfOk result (λ net. (past : ℕ → History)
            × AllBegin S.state K.state graph.now.pipes table.old past
            × NetStands P.plain S.state K.state net graph.now.pipes past) }
        ensures family { IfOk result (λ net. (f : P.Store.Family) → NetFits net P.fits f) }
        ensures taken { OnOk result (AreThere S.state K.state graph.now.pipes 0 table.new) }
        ensures back { OnErr result ((past : ℕ → History)
            × AllBegin S.state K.state graph.now.pipes table.old past
            × AreBack S.state K.state graph.now.pipes past table.new) }
        ensures store { Stays (P.Store.state s.old) (P.Store.state s.new) }
    {
        let mut net = Net::empty(alloc, graph, plan)?;
        'strands: while net.strands.len() < plan.strands.len() {
            if let Err(NoMemory) = net.add(alloc, graph, plan, table) {
                net.give_back(graph, plan, table, s);
                return Err(NoMemory);
            }
        }
        Ok(net)
    }

    /// No strand yet, but room, a lane and a pump for each.
    fn empty(alloc: Global, graph: &Graph, plan: &Plan) -> Result<Net<P, S, K>, NoMemory>
        requires well_formed { IsWellFormed graph.now.pipes }
        requires plan { plan.now ≡ plan_of graph.now.pipes }
        ensures tables { IfOk result (HasTables graph.now.pipes) }
        ensures none { IfOk result (λ net. net.strands.items ≡ []) }
    {
        let count = plan.strands.len();
        let heads = heads_of(alloc, plan)?;
        let numbers = numbers_of(alloc, graph.pipes.len(), &heads)?;
        let fillers = fillers_of(alloc, graph, plan, &heads)?;
        let pumps = ready_pumps(alloc, count)?;
        let lanes = lanes_of(alloc, graph, &heads)?;
        let strands = match Vec::with_capacity(alloc, count) {
            Ok(strands) => strands,
            Err(_) => {
                end_lanes(lanes);
                return Err(NoMemory);
            }
        };
        Ok(Net {
            strands,
            heads,
            lanes,
            fillers,
            numbers,
            pumps,
        })
    }

    /// Makes the next strand, with what was opened for it.
    fn add(
        &mut self,
        alloc: Global,
        graph: &Graph,
        plan: &Plan,
        table: &mut [Object<S, K>],
    ) -> Result<(), NoMemory>
        requires well_formed { IsWellFormed graph.now.pipes }
        requires plan { plan.now ≡ plan_of graph.now.pipes }
        requires next { length self.old.strands.items < length (heads graph.now.pipes) }
        requires room { length (heads graph.now.pipes) ≤ vec_capacity self.old.strands }
        requires table { length table.old ≡ length graph.now.pipes }
        requires ends { HasEnds (places_at graph.now.pipes (length self.old.strands.items))
            graph.now.pipes table.old }
        ensures added { OnOk result (AddsStrand P.plain S.state K.state graph.now.pipes
            self.old self.new table.old table.new) }
        ensures family { OnOk result ((f : P.Store.Family)
            → StrandsFit self.old.strands.items P.fits f
            → StrandsFit self.new.strands.items P.fits f) }
        ensures room { vec_capacity self.new.strands ≡ vec_capacity self.old.strands }
        ensures same { self.new ≡ record self.old { strands = self.new.strands } }
        ensures none { OnErr result (self.new.strands.items ≡ self.old.strands.items) }
        ensures back { OnErr result (HasSameObjects table.old table.new) }
    {
        let own = plan.strands.at(self.strands.len());
        let StrandParts { source, sinks } = take_parts(alloc, own, table)?;
        match Strand::new(alloc, graph, plan, own.head, source, sinks) {
            Ok(strand) => {
                self.strands.push_reserved(strand);
                Ok(())
            }
            Err(refused) => {
                put_back(graph, own, refused.back, table);
                Err(NoMemory)
            }
        }
    }

    /// Gives up the strands that were made, and what was opened for them stands in the table again.
    fn give_back(self, graph: &Graph, plan: &Plan, table: &mut [Object<S, K>], s: &mut P::Store)
        requires plan { plan.now ≡ plan_of graph.now.pipes }
        requires stands { (past : ℕ → History)
            × StrandsStand P.plain S.state K.state graph.now.pipes self.strands.items past
            × AreBackFrom S.state K.state graph.now.pipes (length self.strands.items) past
            table.old }
        requires family { StrandsFit self.strands.items P.fits (P.Store.state s.old).family }
        requires lanes { (i : ℕ) → items_at self.lanes.items i ≡ [] }
        ensures back { (past : ℕ → History)
            → StrandsStand P.plain S.state K.state graph.now.pipes self.strands.items past
            → AreBackFrom S.state K.state graph.now.pipes (length self.strands.items) past
            table.old
            → AreBackFrom S.state K.state graph.now.pipes 0 past table.new }
        ensures store { Stays (P.Store.state s.old) (P.Store.state s.new) }
    {
        let Net {
            mut strands,
            heads: _,
            lanes,
            fillers: _,
            numbers: _,
            pumps: _,
        } = self;
        'strands: while let Some(_) = end_last(graph, plan, &mut strands, table, s) {}
        strands.destroy_empty();
        end_lanes(lanes);
    }
}
