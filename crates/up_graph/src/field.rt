// The fields of a table. A reader answers the value of a field, or the field's name where the value is wrong.
ghost use Rattle.std.specs.Prelude.{◌≡◌, ◌++◌, map, option_map};
ghost use Rattle.std.specs.List.{list_any};
ghost use Rattle.std.specs.Str.{bytes_eq};
ghost use Rattle.toml.specs.Data.{get_member};
ghost use Rattle.toml.specs.View.{table_view, view};
ghost use Rattle.up_graph.specs.Field.{both, known_alone, lesser, seen};

use toml::{Table, Value};

/// The value at a key.
pub fn value_at<'a>(table: &'a Table, key: &str) -> Option<&'a Value>
    ensures { option_map (λ value. view value.now) result
        ≡ get_member key.now (table_view table.now) }
{
    table.get(key)
}

/// The lesser of two names in byte order.
fn lesser<'a>(a: &'a str, b: &'a str) -> &'a str
    ensures { result.now ≡ lesser a.entry.now b.entry.now }
{
    if b < a { b } else { a }
}

/// Both values, or the least wrong field.
pub fn both<'a, A: Drop, B: Drop>(
    a: Result<A, &'a str>,
    b: Result<B, &'a str>,
) -> Result<(A, B), &'a str>
    ensures { seen (λ pair. pair) result
        ≡ both (seen (λ value. value) a.entry) (seen (λ value. value) b.entry) }
{
    match (a, b) {
        (Ok(a), Ok(b)) => Ok((a, b)),
        (Ok(_), Err(field)) => Err(field),
        (Err(field), Ok(_)) => Err(field),
        (Err(first), Err(second)) => Err(lesser(first, second)),
    }
}

fn is_among(key: &str, names: &[&'static str]) -> bool
    ensures { result ≡ list_any (λ name. bytes_eq key.now name.now) names.now }
{
    names.iter().any(|name| key == *name)
}

/// No key but those that are common and the own ones: else the first of the others, which is the least, as the keys of a
/// table stand in byte order.
pub fn known_alone<'a>(
    table: &'a Table,
    common: &[&'static str],
    own: &[&'static str],
) -> Result<(), &'a str>
    ensures { seen (λ value. value) result
        ≡ known_alone (map (λ name. name.now) (common.now ++ own.now)) (table_view table.entry.now) }
{
    for key in table.keys() {
        if !is_among(key.as_str(), common) && !is_among(key.as_str(), own) {
            return Err(key.as_str());
        }
    }
    Ok(())
}
