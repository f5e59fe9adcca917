// What may stand at a field.
ghost use Rattle.std.specs.Prelude.{◌≡◌, ◌≤◌, ◌&&◌, ◌==◌, None, Some, option_map, IfSome};
ghost use Rattle.std.specs.List.{list_all, list_any};
ghost use Rattle.std.specs.Str.{is_utf8};
ghost use Rattle.toml.specs.View.{array_view, table_view, view};
ghost use Rattle.up_graph.specs.Field.{given, seen};
ghost use Rattle.up_graph.specs.Values.{a_name, a_number, a_path, a_shift, an_input, is_text, named_in, number_in, values};
ghost use Rattle.up_model.specs.Ends.{is_path};

use crate::field::value_at;
use toml::value::Array;
use toml::{Table, Value};
use up_base::Name;
use up_model::MAX_PATH;

/// The name at a key: 1 to 64 bytes, each one of `A-Z a-z 0-9 . _ -`.
#[tactic(auto, unfolding(up_base::specs::NameOf::name_of))]
pub fn name_at<'a, Of>(table: &Table, key: &'a str) -> Result<Name<Of>, &'a str>
    ensures { seen (λ name. name) result ≡ given (a_name key.entry.now) (table_view table.now) }
{
    match value_at(table, key) {
        Some(Value::String(text)) => match Name::read(text.as_bytes()) {
            Ok(name) => Ok(name),
            Err(_) => Err(key),
        },
        _ => Err(key),
    }
}

fn has_zero(bytes: &[u8]) -> bool
    ensures { result ≡ list_any (λ byte. byte == 0) bytes.now }
{
    bytes.iter().any(|byte| *byte == 0)
}

#[tactic(auto, using(crate::proofs::Texts::utf8_test))]
fn is_path(path: &str) -> bool
    ensures { result ≡ (is_utf8 path.now && is_path path.now) }
{
    if path.is_empty() || path.len() > MAX_PATH {
        return false;
    }
    !has_zero(path.as_bytes())
}

/// The path at a key: 1 to 4,096 bytes, none of them zero.
pub fn path_at<'a>(table: &'a Table, key: &'a str) -> Result<&'a str, &'a str>
    ensures { seen (λ path. path.now) result
        ≡ given (a_path key.entry.now) (table_view table.entry.now) }
{
    match value_at(table, key) {
        Some(Value::String(text)) => {
            let path = text.as_str();
            if is_path(path) { Ok(path) } else { Err(key) }
        }
        _ => Err(key),
    }
}

fn number_in(value: &Value, low: u64, high: u64) -> Option<u64>
    ensures number { result ≡ number_in low high (view value.now) }
    ensures within { IfSome result (λ number. number ≤ high) }
{
    match value {
        Value::Integer(number) if *number >= 0 => {
            let number = *number as u64;
            if low <= number && number <= high {
                Some(number)
            } else {
                None
            }
        }
        _ => None,
    }
}

/// The integer at a key, from `low` to `high`, or what stands for a missing one.
pub fn number_at<'a>(
    table: &Table,
    key: &'a str,
    low: u64,
    high: u64,
    missing: Option<u64>,
) -> Result<u64, &'a str>
    ensures { seen (λ number. number) result
        ≡ given (a_number key.entry.now low high missing) (table_view table.now) }
{
    match value_at(table, key) {
        None => missing.ok_or(key),
        Some(value) => number_in(value, low, high).ok_or(key),
    }
}

/// `number_at` of fewer bits.
pub fn short_number_at<'a>(
    table: &Table,
    key: &'a str,
    low: u32,
    high: u32,
    missing: Option<u32>,
) -> Result<u32, &'a str>
    ensures { seen (λ number. number) result
        ≡ given (a_number key.entry.now low high missing) (table_view table.now) }
{
    match value_at(table, key) {
        None => missing.ok_or(key),
        Some(value) => match number_in(value, u64::from(low), u64::from(high)) {
            Some(number) => Ok(number as u32),
            None => Err(key),
        },
    }
}

/// The integer at a key, of which each of 64 bits moves dates.
pub fn shift_at<'a>(table: &Table, key: &'a str) -> Result<i64, &'a str>
    ensures { seen (λ by. by) result ≡ given (a_shift key.entry.now) (table_view table.now) }
{
    match value_at(table, key) {
        Some(Value::Integer(by)) => Ok(*by),
        _ => Err(key),
    }
}

fn are_texts(items: &Array) -> bool
    ensures { result ≡ list_all is_text (values (array_view items.now)) }
{
    items.iter().all(|item| item.is_str())
}

/// What an array of texts names: one pipe, or two and more, for which `None` stands.
fn named_in(items: &Array) -> Option<Option<&str>>
    ensures { option_map (λ named. option_map (λ name. name.now) named) result
        ≡ named_in (values (array_view items.now)) }
{
    if items.len() == 1 {
        return items[0].as_str().map(Some);
    }
    if items.is_empty() || !are_texts(items) {
        return None;
    }
    Some(None)
}

/// The name of the pipe that a table takes from, or `None` where it names two or more.
pub fn input_at<'a>(table: &'a Table) -> Result<Option<&'a str>, &'a str>
    ensures { seen (λ named. option_map (λ name. name.now) named) result
        ≡ given an_input (table_view table.entry.now) }
{
    match value_at(table, "input") {
        Some(Value::String(text)) => Ok(Some(text.as_str())),
        Some(Value::Array(items)) => named_in(items).ok_or("input"),
        _ => Err("input"),
    }
}
