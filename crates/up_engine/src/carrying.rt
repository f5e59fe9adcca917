// What the sources of a graph give is carried to its sinks.
ghost use Rattle.std.specs.Prelude.{◌≡◌, length, OnOk, OnErr};
ghost use Rattle.up_engine.specs.Carried.{CarriedShort, CarriedThrough};
ghost use Rattle.up_engine.specs.Entries.{path_places};
ghost use Rattle.up_engine.specs.Objects.{AreThere};
ghost use Rattle.up_model.specs.WellFormed.{IsWellFormed};
ghost use Rattle.up_plan.specs.Plan.{plan_of};
ghost use Rattle.up_shape.specs.Stores.{Stays};

use crate::net::Net;
use crate::object::Object;
use crate::results::Results;
use std::alloc::Global;
use up_base::NoMemory;
use up_model::Graph;
use up_outside::{Sink, Source};
use up_plan::Plan;
use up_shape::LocalPacket;

/// Carries what the sources give to the sinks, which stand in the table of what is open, and tells
/// how each pipe ended.
pub(crate) fn carry<P: LocalPacket, S: Source, K: Sink>(
    alloc: Global,
    graph: &Graph,
    plan: &Plan,
    table: &mut [Object<S, K>],
    results: &mut Results,
    s: &mut P::Store,
) -> Result<(), NoMemory>
    requires well_formed { IsWellFormed graph.now.pipes }
    requires plan { plan.now ≡ plan_of graph.now.pipes }
    requires there { AreThere S.state K.state graph.now.pipes
        (length (path_places graph.now.pipes)) table.old }
    requires outcomes { length results.old.outcomes.items ≡ length graph.now.pipes }
    requires tallies { length results.old.tallies.items ≡ length graph.now.pipes }
    ensures through { OnOk result (CarriedThrough S.state K.state graph.now.pipes
        table.old table.new results.new (P.Store.state s.old) (P.Store.state s.new)) }
    ensures short { CarriedShort S.state K.state graph.now.pipes table.old table.new }
    ensures outcomes { length results.new.outcomes.items ≡ length graph.now.pipes }
    ensures tallies { length results.new.tallies.items ≡ length graph.now.pipes }
    ensures store { Stays (P.Store.state s.old) (P.Store.state s.new) }
{
    let mut net = Net::<P, S, K>::new(alloc, graph, plan, table, s)?;
    net.run(s);
    net.finish(graph, plan, table, results, s);
    Ok(())
}
