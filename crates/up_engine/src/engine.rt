ghost use Rattle.std.specs.Prelude.{◌≡◌, ℕ, length, All, OnOk};
ghost use Rattle.up_engine.specs.Carried.{CarriedBy, CarriedShort};
ghost use Rattle.up_engine.specs.Engine.{CanClose, OpenedIn, TakesTurns, WhereAll};
ghost use Rattle.up_engine.specs.Entries.{path_places};
ghost use Rattle.up_engine.specs.Objects.{AreThere};
ghost use Rattle.up_engine.specs.Rooms.{AreClosed, AreMadeFor, AreRoomsOf, IsNone};
ghost use Rattle.up_engine.specs.Runs.{RanGraph, Ways, fault_of};
ghost use Rattle.up_model.specs.WellFormed.{IsWellFormed};
ghost use Rattle.up_plan.specs.Plan.{plan_of};
ghost use Rattle.up_shape.specs.Stores.{Stays};

use crate::carrying::carry;
use crate::closing::close_all;
use crate::object::Object;
use crate::opening::{Opening, open_all};
use crate::results::Results;
use crate::rooms::{Rooms, any_no_memory};
use crate::run_outcome::RunOutcome;
use std::alloc::Global;
use up_base::NoMemory;
use up_model::{Graph, Kind, Outcome};
use up_outside::{Depot, Sink, Source};
use up_plan::Plan;
use up_shape::LocalPacket;

/// Runs a graph over the depot on this thread: opens its sources, then its sinks, in the order of
/// the file, carries what the sources give, and closes sources, then sinks. Where an open is
/// refused, what was opened is closed, and nothing runs.
pub fn run_one_thread<P: LocalPacket, D: Depot>(
    alloc: Global,
    graph: &Graph,
    depot: &mut D,
    store: &mut P::Store,
) -> RunOutcome
    requires well_formed { IsWellFormed graph.now.pipes }
    ensures ran { RanGraph graph.now.pipes (D.state depot.old) (D.state depot.new)
        (P.Store.state store.old) (P.Store.state store.new) result }
    ensures store { Stays (P.Store.state store.old) (P.Store.state store.new) }
{
    let mut rooms = match Rooms::of(alloc, graph) {
        Ok(rooms) => rooms,
        Err(NoMemory) => return RunOutcome::NoMemory,
    };
    let opened = open(graph, depot, &mut rooms);
    let carried = turns::<P, D::Src, D::Snk>(alloc, graph, opened, store, &mut rooms);
    close(graph, depot, &mut rooms);
    rooms.end(carried)
}

/// Opens the paths of the sources, then of the sinks, in the order of the file, up to the first
/// that is refused, whose pipe then has a fault.
fn open<D: Depot>(graph: &Graph, depot: &mut D, rooms: &mut Rooms<D::Src, D::Snk>) -> Opening
    requires well_formed { IsWellFormed graph.now.pipes }
    requires rooms { AreRoomsOf graph.now.pipes rooms.old }
    ensures opened { OpenedIn D.Src.state D.Snk.state graph.now.pipes
        (D.state depot.old) (D.state depot.new) rooms.new result }
    ensures rooms { AreMadeFor graph.now.pipes rooms.new }
{
    let opening = open_all(graph, &rooms.order, depot, &mut rooms.table);
    match opening {
        Opening::All => {}
        Opening::Refused { place } => {
            let at = usize::from(place);
            rooms.results.outcomes[at] = fault_of(&graph.pipes.at(at).kind);
        }
        Opening::NoMemory => {}
    }
    opening
}

/// Carries what the sources give until every strand is done, and gives the strands up, so that
/// what was open stands in the table again. Where not all paths were opened nothing runs.
fn turns<P: LocalPacket, S: Source, K: Sink>(
    alloc: Global,
    graph: &Graph,
    opened: Opening,
    store: &mut P::Store,
    rooms: &mut Rooms<S, K>,
) -> Result<(), NoMemory>
    requires well_formed { IsWellFormed graph.now.pipes }
    requires rooms { AreMadeFor graph.now.pipes rooms.old }
    requires open { WhereAll opened (AreThere S.state K.state graph.now.pipes
        (length (path_places graph.now.pipes)) rooms.old.table.items) }
    ensures turned { TakesTurns S.state K.state graph.now.pipes rooms.old rooms.new
        (P.Store.state store.old) (P.Store.state store.new) opened result }
    ensures rooms { AreMadeFor graph.now.pipes rooms.new }
    ensures store { Stays (P.Store.state store.old) (P.Store.state store.new) }
{
    match opened {
        Opening::All => carry_all::<P, S, K>(
            alloc,
            graph,
            &rooms.plan,
            &mut rooms.table,
            &mut rooms.results,
            store,
        ),
        Opening::Refused { .. } => Ok(()),
        Opening::NoMemory => Err(NoMemory),
    }
}

/// Closes the sources that are open, then the sinks, in the order of the file. A sink whose close
/// is refused has a write fault, where its pipe has no cause of its own.
fn close<D: Depot>(graph: &Graph, depot: &mut D, rooms: &mut Rooms<D::Src, D::Snk>)
    requires well_formed { IsWellFormed graph.now.pipes }
    requires rooms { AreMadeFor graph.now.pipes rooms.old }
    requires open { CanClose D.Src.state D.Snk.state graph.now.pipes
        (D.state depot.old) rooms.old.table.items }
    ensures closed { (count : ℕ)
        → AreThere D.Src.state D.Snk.state graph.now.pipes count rooms.old.table.items
        → AreClosed D.Src.state D.Snk.state graph.now.pipes count rooms.old rooms.new
        (D.state depot.old) (D.state depot.new) }
    ensures rooms { AreMadeFor graph.now.pipes rooms.new }
    ensures none { All IsNone rooms.new.table.items }
{
    close_all(
        graph,
        &rooms.order,
        depot,
        &mut rooms.table,
        &mut rooms.results.outcomes,
    );
}

/// Carries what the sources give. Want of memory of which an outcome tells is that of the run.
fn carry_all<P: LocalPacket, S: Source, K: Sink>(
    alloc: Global,
    graph: &Graph,
    plan: &Plan,
    table: &mut [Object<S, K>],
    results: &mut Results,
    store: &mut P::Store,
) -> Result<(), NoMemory>
    requires well_formed { IsWellFormed graph.now.pipes }
    requires plan { plan.now ≡ plan_of graph.now.pipes }
    requires there { AreThere S.state K.state graph.now.pipes
        (length (path_places graph.now.pipes)) table.old }
    requires outcomes { length results.old.outcomes.items ≡ length graph.now.pipes }
    requires tallies { length results.old.tallies.items ≡ length graph.now.pipes }
    ensures through { OnOk result ((ways : Ways) × CarriedBy S.state K.state graph.now.pipes
        table.old table.new ways results.new (P.Store.state store.old) (P.Store.state store.new)) }
    ensures short { CarriedShort S.state K.state graph.now.pipes table.old table.new }
    ensures outcomes { length results.new.outcomes.items ≡ length graph.now.pipes }
    ensures tallies { length results.new.tallies.items ≡ length graph.now.pipes }
    ensures store { Stays (P.Store.state store.old) (P.Store.state store.new) }
{
    carry::<P, S, K>(alloc, graph, plan, table, results, store)?;
    if any_no_memory(&results.outcomes) {
        return Err(NoMemory);
    }
    Ok(())
}

/// The fault of a pipe whose path couldn't be opened.
fn fault_of(kind: &Kind) -> Outcome
    ensures { result ≡ fault_of kind.now }
{
    if kind.is_source() {
        Outcome::ReadFault
    } else if kind.is_sink() {
        Outcome::WriteFault
    } else {
        Outcome::Broken
    }
}
