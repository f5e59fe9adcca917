// What is looked at before the pipes.
ghost use Rattle.std.specs.Prelude.{◌≡◌, ◌≤◌, option_map, vec_len, IfOk, IfSome};
ghost use Rattle.std.specs.List.{list_all};
ghost use Rattle.toml.specs.View.{array_view, table_view};
ghost use Rattle.up_graph.specs.Answers.{Answers, Refuses};
ghost use Rattle.up_graph.specs.Field.{seen};
ghost use Rattle.up_graph.specs.Top.{array_of, counted, is_table, tables_in, tables_of, version_of};
ghost use Rattle.up_graph.specs.Values.{values};
ghost use Rattle.up_model.specs.declared.limits.TheConstants.{MAX_PIPES};

use crate::GraphRefused;
use crate::field::{both, known_alone, value_at};
use std::alloc::Global;
use toml::value::Array;
use toml::{Table, Value};
use up_base::Text;
use up_model::MAX_PIPES;

/// The refusal of a field of the pipe of a number, or of the top of the file, whose number is 0.
pub fn bad_field(alloc: Global, pipe: u16, field: &str) -> GraphRefused
    ensures { Refuses (GraphRefused.BadField pipe field.now) result }
{
    match Text::from_str(alloc, field) {
        Ok(field) => GraphRefused::BadField { pipe, field },
        Err(_) => GraphRefused::NoMemory,
    }
}

/// The version is 1.
pub fn check_version(table: &Table) -> Result<(), GraphRefused>
    ensures { result ≡ version_of (table_view table.now) }
{
    match value_at(table, "version") {
        Some(Value::Integer(1)) => Ok(()),
        Some(Value::Integer(got)) => Err(GraphRefused::BadVersion { got: Some(*got) }),
        _ => Err(GraphRefused::BadVersion { got: None }),
    }
}

/// An array of pipes has 1 to 256 items.
#[tactic(auto, using(crate::proofs::Items::length_values))]
fn check_count(pipes: &Array) -> Result<(), GraphRefused>
    ensures answers { result ≡ counted (values (array_view pipes.now)) }
    ensures few { IfOk result (λ _. vec_len pipes.now ≤ MAX_PIPES) }
{
    if pipes.is_empty() {
        return Err(GraphRefused::NoPipes);
    }
    if pipes.len() > MAX_PIPES {
        return Err(GraphRefused::TooManyPipes { count: pipes.len() });
    }
    Ok(())
}

/// The array at `pipe`, where one stands there.
pub fn array_at<'a>(table: &'a Table) -> Result<Option<&'a Array>, GraphRefused>
    ensures answers { Answers (option_map (λ pipes. values (array_view pipes.now))) result
        (array_of (table_view table.entry.now)) }
    ensures few { IfOk result (λ found. IfSome found (λ pipes. vec_len pipes.now ≤ MAX_PIPES)) }
{
    match value_at(table, "pipe") {
        None => Err(GraphRefused::NoPipes),
        Some(Value::Array(pipes)) => match check_count(pipes) {
            Ok(()) => Ok(Some(pipes)),
            Err(refused) => Err(refused),
        },
        Some(_) => Ok(None),
    }
}

fn are_tables(items: &Array) -> bool
    ensures { result ≡ list_all is_table (values (array_view items.now)) }
{
    items.iter().all(|item| item.is_table())
}

/// The tables of the pipes, where `pipe` is an array of tables.
fn tables_in<'a>(found: Option<&'a Array>) -> Result<&'a Array, &'a str>
    ensures answers { seen (λ pipes. values (array_view pipes.now)) result
        ≡ tables_in (option_map (λ pipes. values (array_view pipes.now)) found.entry) }
    ensures same { IfOk result (λ pipes. found.entry ≡ Some pipes) }
{
    match found {
        Some(pipes) => {
            if are_tables(pipes) {
                Ok(pipes)
            } else {
                Err("pipe")
            }
        }
        None => Err("pipe"),
    }
}

static TOP_FIELDS: [&str; 2] = ["pipe", "version"];

/// The tables of the pipes, where nothing else stands at the top of the file.
pub fn tables_at<'a>(
    alloc: Global,
    table: &'a Table,
    found: Option<&'a Array>,
) -> Result<&'a Array, GraphRefused>
    ensures answers { Answers (λ pipes. values (array_view pipes.now)) result
        (tables_of (option_map (λ pipes. values (array_view pipes.now)) found.entry)
        (table_view table.entry.now)) }
    ensures same { IfOk result (λ pipes. found.entry ≡ Some pipes) }
{
    match both(known_alone(table, &TOP_FIELDS, &[]), tables_in(found)) {
        Ok((_, pipes)) => Ok(pipes),
        Err(field) => Err(bad_field(alloc, 0, field)),
    }
}
