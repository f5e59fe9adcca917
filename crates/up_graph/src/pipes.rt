// The pipes of a file, in its order.
ghost use Rattle.std.specs.Prelude.{◌≡◌, ◌≤◌, length, option_map, vec_len, IfOk};
ghost use Rattle.toml.specs.View.{array_view, table_view, view};
ghost use Rattle.up_graph.specs.Answers.{Answers};
ghost use Rattle.up_graph.specs.Field.{seen};
ghost use Rattle.up_graph.specs.Pipes.{has_name, pipe_from, pipe_in, pipe_of, pipes_from, place_named, place_of, taken_by};
ghost use Rattle.up_graph.specs.Top.{numbered};
ghost use Rattle.up_graph.specs.Values.{values};
ghost use Rattle.up_model.specs.declared.limits.TheConstants.{MAX_PIPES};

use crate::GraphRefused;
use crate::field::{both, value_at};
use crate::kinds::kind_at;
use crate::top::bad_field;
use crate::values::{input_at, name_at};
use std::alloc::Global;
use toml::value::Array;
use toml::{Table, Value};
use up_base::{NoMemory, PipeName};
use up_model::{CatchSet, DEFAULT_QUEUE, Kind, Pipe, PipeList, default_worker};

fn has_name(value: &Value, name: &str) -> bool
    ensures { result ≡ has_name name.now (view value.now) }
{
    match value {
        Value::Table(table) => match value_at(table, "name") {
            Some(Value::String(text)) => text.as_str() == name,
            _ => false,
        },
        _ => false,
    }
}

/// The place of the first table of the name, or the number of tables.
fn place_named(tables: &Array, name: &str) -> usize
    ensures place { result ≡ place_named name.now (values (array_view tables.now)) }
    ensures within { result ≤ vec_len tables.now }
{
    tables
        .iter()
        .position(|table| has_name(table, name))
        .unwrap_or(tables.len())
}

/// A place that isn't there stands for two names and more.
#[tactic(auto, using(crate::proofs::Items::length_values))]
fn place_of(tables: &Array, name: Option<&str>) -> u16
    requires { vec_len tables.now ≤ MAX_PIPES }
    ensures { result ≡ place_of (values (array_view tables.now))
        (option_map (λ name. name.now) name.entry) }
{
    match name {
        Some(name) => place_named(tables, name) as u16,
        None => tables.len() as u16,
    }
}

/// The place of the pipe whose output a pipe takes. A source takes none.
fn taken_by<'a>(is_source: bool, tables: &Array, table: &'a Table) -> Result<Option<u16>, &'a str>
    requires { vec_len tables.now ≤ MAX_PIPES }
    ensures { seen (λ place. place) result
        ≡ taken_by is_source (values (array_view tables.now)) (table_view table.entry.now) }
{
    if is_source {
        return Ok(None);
    }
    match input_at(table) {
        Ok(name) => Ok(Some(place_of(tables, name))),
        Err(field) => Err(field),
    }
}

fn pipe_from(kind: Kind, name: PipeName, input: Option<u16>) -> Pipe
    ensures { result ≡ pipe_from kind name input }
{
    Pipe {
        name,
        worker: default_worker(),
        input,
        select: None,
        queue: DEFAULT_QUEUE,
        caught: CatchSet::default(),
        kind,
    }
}

/// The pipe that a table gives among the tables of all pipes, or its wrong field: `kind` where it names no kind, else the least.
fn pipe_of<'a>(
    alloc: Global,
    tables: &Array,
    table: &'a Table,
) -> Result<Result<Pipe, &'a str>, NoMemory>
    requires { vec_len tables.now ≤ MAX_PIPES }
    ensures { IfOk result (λ pipe. seen (λ pipe. pipe) pipe
        ≡ pipe_of (values (array_view tables.now)) (table_view table.entry.now)) }
{
    let Some(Value::String(word)) = value_at(table, "kind") else {
        return Ok(Err("kind"));
    };
    let Some(found) = kind_at(alloc, word.as_str(), table)? else {
        return Ok(Err("kind"));
    };
    let ends = both(
        name_at(table, "name"),
        taken_by(found.is_source, tables, table),
    );
    Ok(match both(found.kind, ends) {
        Ok((kind, (name, input))) => Ok(pipe_from(kind, name, input)),
        Err(field) => Err(field),
    })
}

/// The pipe of a number that a value gives. A value that is no table names no kind.
fn pipe_at(alloc: Global, tables: &Array, number: u16, value: &Value) -> Result<Pipe, GraphRefused>
    requires { vec_len tables.now ≤ MAX_PIPES }
    ensures { Answers (λ pipe. pipe) result
        (numbered number (pipe_in (values (array_view tables.now)) (view value.now))) }
{
    let found = match value {
        Value::Table(table) => match pipe_of(alloc, tables, table) {
            Ok(found) => found,
            Err(NoMemory) => return Err(GraphRefused::NoMemory),
        },
        _ => Err("kind"),
    };
    match found {
        Ok(pipe) => Ok(pipe),
        Err(field) => Err(bad_field(alloc, number, field)),
    }
}

/// The pipes of the tables of all pipes, or the refusal of the first that has a wrong field.
pub fn pipes_at(alloc: Global, tables: &Array) -> Result<PipeList, GraphRefused>
    requires { vec_len tables.now ≤ MAX_PIPES }
    ensures answers { Answers (λ pipes. pipes) result
        (pipes_from (values (array_view tables.now)) 1 (values (array_view tables.now))) }
    ensures few { IfOk result (λ pipes. length pipes ≤ MAX_PIPES) }
{
    let mut pipes = PipeList::new(alloc);
    for (place, table) in tables.iter().enumerate() {
        let pipe = match pipe_at(alloc, tables, place as u16 + 1, table) {
            Ok(pipe) => pipe,
            Err(refused) => return Err(refused),
        };
        match pipes.push(pipe) {
            Ok(()) => {}
            Err(_) => return Err(GraphRefused::NoMemory),
        }
    }
    Ok(pipes)
}
