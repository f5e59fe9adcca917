ghost use Rattle.std.specs.Prelude.{◌≡◌, IfOk};
ghost use Rattle.toml.specs.View.{table_view};
ghost use Rattle.up_graph.specs.Answers.{Answers};
ghost use Rattle.up_graph.specs.Graph.{graph_in, graph_of};
ghost use Rattle.up_model.specs.WellFormed.{IsWellFormed};

use crate::GraphRefused;
use crate::document::document_at;
use crate::faults::graph_from;
use crate::pipes::pipes_at;
use crate::top::{array_at, check_version, tables_at};
use std::alloc::Global;
use toml::Table;
use up_model::Graph;

/// The graph that the text of a graph file is, or the first rule that the text breaks.
#[tactic(auto, using(crate::proofs::Order::passes_on), unfolding(crate::specs::Graph::graph_of))]
pub fn read_graph(alloc: Global, text: &[u8]) -> Result<Graph, GraphRefused>
    ensures answers { Answers (λ graph. graph) result (graph_of text.now) }
    ensures well_formed { IfOk result (λ graph. IsWellFormed graph.pipes) }
{
    match document_at(alloc, text) {
        Ok(table) => graph_in(alloc, &table),
        Err(refused) => Err(refused),
    }
}

/// The graph that a document is.
#[tactic(auto, using(crate::proofs::Order::passes_on), unfolding(crate::specs::Graph::graph_in))]
fn graph_in(alloc: Global, table: &Table) -> Result<Graph, GraphRefused>
    ensures { Answers (λ graph. graph) result (graph_in (table_view table.now)) }
{
    check_version(table)?;
    let found = match array_at(table) {
        Ok(found) => found,
        Err(refused) => return Err(refused),
    };
    let tables = match tables_at(alloc, table, found) {
        Ok(tables) => tables,
        Err(refused) => return Err(refused),
    };
    match pipes_at(alloc, tables) {
        Ok(pipes) => graph_from(tables, pipes),
        Err(refused) => Err(refused),
    }
}
