// What is looked at between the pipes, whose fields are right.
ghost use Rattle.std.specs.Prelude.{◌≡◌, ◌≤◌, ◌<◌, ◌+◌, length, position, vec_len, IfSome};
ghost use Rattle.toml.specs.View.{array_view, view};
ghost use Rattle.up_graph.specs.Faults.{StandsWithin, graph_from, has_many_inputs, refusal_of};
ghost use Rattle.up_graph.specs.Values.{values};
ghost use Rattle.up_model.specs.declared.limits.TheConstants.{MAX_PIPES};

use crate::GraphRefused;
use crate::values::input_at;
use toml::Value;
use toml::value::Array;
use up_model::{Graph, GraphFault, PipeList};

fn has_many_inputs(value: &Value) -> bool
    ensures { result ≡ has_many_inputs (view value.now) }
{
    match value {
        Value::Table(table) => matches!(input_at(table), Ok(None)),
        _ => false,
    }
}

/// The place of the first table that has more than one input.
fn many_inputs(tables: &Array) -> Option<usize>
    ensures place { result ≡ position has_many_inputs (values (array_view tables.now)) }
    ensures within { IfSome result (λ place. place < vec_len tables.now) }
{
    tables.iter().position(|table| has_many_inputs(table))
}

/// The number from 1 of the pipe at a place.
fn number_of(place: usize) -> u16
    requires { place < MAX_PIPES }
    ensures { result ≡ place + 1 }
{
    place as u16 + 1
}

/// What a fault is told as.
fn refusal_of(fault: GraphFault) -> GraphRefused
    requires { StandsWithin MAX_PIPES fault }
    ensures { result ≡ refusal_of fault }
{
    match fault {
        GraphFault::SameName { place } => GraphRefused::SameName {
            pipe: number_of(place),
        },
        GraphFault::UnknownInput { place } => GraphRefused::UnknownInput {
            pipe: number_of(place),
        },
        GraphFault::Cycle { place } => GraphRefused::Cycle {
            pipe: number_of(place),
        },
        GraphFault::ManyOutputs { place } => GraphRefused::ManyOutputs {
            pipe: number_of(place),
        },
        GraphFault::NoOutput { place } => GraphRefused::NoOutput {
            pipe: number_of(place),
        },
        GraphFault::WrongFlow { place } => GraphRefused::WrongFlow {
            pipe: number_of(place),
        },
        GraphFault::SamePath { place } => GraphRefused::SamePath {
            pipe: number_of(place),
        },
        GraphFault::TooManyWorkers { count } => GraphRefused::TooManyWorkers { count },
    }
}

/// The graph of the pipes that these tables gave, where nothing is wrong between them.
pub fn graph_from(tables: &Array, pipes: PipeList) -> Result<Graph, GraphRefused>
    requires tables { vec_len tables.now ≤ MAX_PIPES }
    requires pipes { length pipes ≤ MAX_PIPES }
    ensures { result ≡ graph_from (values (array_view tables.now)) pipes }
{
    let graph = Graph { pipes };
    match graph.fault() {
        Some(GraphFault::SameName { place }) => {
            Err(GraphRefused::SameName {
                pipe: number_of(place),
            })
        }
        Some(fault) => match many_inputs(tables) {
            Some(place) => Err(GraphRefused::ManyInputs {
                pipe: number_of(place),
            }),
            None => Err(refusal_of(fault)),
        },
        None => match many_inputs(tables) {
            Some(place) => Err(GraphRefused::ManyInputs {
                pipe: number_of(place),
            }),
            None => Ok(graph),
        },
    }
}
