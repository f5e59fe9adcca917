ghost use Rattle.std.specs.Prelude.{◌≡◌, ◌≤◌, ◌++◌, ◌+◌, ◌<◌, List, [], length, replicate, All, IfOk};
ghost use Rattle.std.specs.List.{list_any};
ghost use Rattle.up_engine.specs.Entries.{path_places};
ghost use Rattle.up_engine.specs.Rooms.{AreRoomsOf, answer_of, IsNone, is_no_memory};
ghost use Rattle.up_engine.specs.declared.object.Object.TheVariants as objects;
ghost use Rattle.up_model.specs.WellFormed.{IsWellFormed};
ghost use Rattle.up_model.specs.declared.limits.TheConstants.{MAX_PIPES};

use crate::object::Object;
use crate::results::Results;
use crate::run_outcome::RunOutcome;
use std::alloc::Global;
use up_base::{ItemList, NoMemory, ReservedList};
use up_model::{Graph, Outcome, Tally};
use up_plan::{Plan, make_plan};

/// All that a run takes memory for before its first open, but for its strands.
pub(crate) struct Rooms<S, K> {
    pub plan: Plan,
    /// The places of the pipes that have a path, in the order of their opening.
    pub order: Vec<u16>,
    /// What is open, by the place of its pipe.
    pub table: Vec<Object<S, K>>,
    /// All broken and nothing counted, until a run tells else.
    pub results: Results,
    pub outcomes: ReservedList<Outcome>,
    pub tallies: ReservedList<Tally>,
}

impl<S, K> Rooms<S, K> {
    /// The room for a graph.
    pub fn of(alloc: Global, graph: &Graph) -> Result<Rooms<S, K>, NoMemory>
        requires well_formed { IsWellFormed graph.now.pipes }
        ensures { IfOk result (AreRoomsOf graph.now.pipes) }
    {
        let count = graph.pipes.len();
        let plan = make_plan(alloc, graph)?;
        let order = order_of(alloc, graph)?;
        let results = Results {
            outcomes: vec![in alloc; Outcome::Broken; count]?,
            tallies: vec![in alloc; Tally::default(); count]?,
        };
        let outcomes = ReservedList::with_room(alloc, count)?;
        let tallies = ReservedList::with_room(alloc, count)?;
        let table = empty_table(alloc, count)?;
        Ok(Rooms {
            plan,
            order,
            table,
            results,
            outcomes,
            tallies,
        })
    }

    /// The answer of a run in which nothing is open any more.
    pub fn end(self, carried: Result<(), NoMemory>) -> RunOutcome
        requires none { All IsNone self.table.items }
        requires outcomes { length self.results.outcomes.items ≤ self.outcomes.room }
        requires tallies { length self.results.tallies.items ≤ self.tallies.room }
        requires no_outcomes { self.outcomes.items ≡ [] }
        requires no_tallies { self.tallies.items ≡ [] }
        ensures { result
            ≡ answer_of carried self.results.outcomes.items self.results.tallies.items }
    {
        let Rooms {
            plan: _,
            order: _,
            table,
            results,
            outcomes,
            tallies,
        } = self;
        give_up_table(table);
        if carried.is_err() {
            return RunOutcome::NoMemory;
        }
        RunOutcome::Ended {
            outcomes: filled(outcomes, &results.outcomes),
            tallies: filled(tallies, &results.tallies),
        }
    }
}

fn filled<T: Copy>(mut list: ReservedList<T>, items: &[T]) -> ItemList<T>
    requires empty { list.items ≡ [] }
    requires room { length items.now ≤ list.room }
    ensures { result ≡ items.now }
{
    for i in 0..items.len() {
        list.push(items[i]);
    }
    list.into_list()
}

/// The places of the pipes that have a path: of the sources, then of the sinks, each in the order
/// of the file.
fn order_of(alloc: Global, graph: &Graph) -> Result<Vec<u16>, NoMemory>
    requires few { length graph.now.pipes ≤ MAX_PIPES }
    ensures { IfOk result (λ order. order.items ≡ path_places graph.now.pipes) }
{
    let count = graph.pipes.len() as u16;
    let sources = (0..count).filter(|place| graph.pipes.at(usize::from(*place)).kind.is_source());
    let sinks = (0..count).filter(|place| graph.pipes.at(usize::from(*place)).kind.is_sink());
    Ok(sources.chain(sinks).collect(alloc)?)
}

fn empty_table<S, K>(alloc: Global, count: usize) -> Result<Vec<Object<S, K>>, NoMemory>
    ensures { IfOk result (λ table. table.items ≡ replicate count objects.None) }
{
    let mut table = Vec::with_capacity(alloc, count)?;
    while table.len() < count {
        table.push_reserved(Object::None);
    }
    Ok(table)
}

fn give_up_table<S, K>(mut table: Vec<Object<S, K>>)
    requires { All IsNone table.items }
{
    while let Some(object) = table.pop() {
        match object {
            Object::None => {}
            _ => unreachable!(),
        }
    }
    table.destroy_empty();
}

pub(crate) fn any_no_memory(outcomes: &[Outcome]) -> bool
    ensures { result ≡ list_any is_no_memory outcomes.now }
{
    outcomes.iter().any(is_no_memory)
}

fn is_no_memory(outcome: &Outcome) -> bool
    ensures { result ≡ is_no_memory outcome.now }
{
    matches!(outcome, Outcome::NoMemory)
}
