// The kinds of graph files: a reader a kind, and a row in `kind_at`.
ghost use Rattle.std.specs.Prelude.{◌≡◌, false, Some, IfOk, option_map};
ghost use Rattle.toml.specs.View.{table_view};
ghost use Rattle.up_graph.specs.Field.{seen};
ghost use Rattle.up_graph.specs.KindRows.{delattr_row, delay_row, greatest_low, match_attr_row, own_of, plain_row, row_of, setattr_row, sink_row, skip_row, source_row};
ghost use Rattle.up_graph.specs.KindSeen.{kind_seen, row_seen};

use crate::attr_value::attr_value_at;
use crate::field::{both, known_alone};
use crate::form::{form_at, source_form_at};
use crate::values::{name_at, number_at, path_at, shift_at, short_number_at};
use std::alloc::Global;
use toml::Table;
use up_base::{NoMemory, Text};
use up_model::{Kind, MAX_LIMIT, MAX_PACKET};

/// A kind, as a table gives it that has no fields but those of the kind.
#[derive(Drop)]
pub struct KindAt<'a> {
    /// It takes no other pipe's output.
    pub is_source: bool,
    pub kind: Result<Kind, &'a str>,
}

/// The fields of every pipe.
static EVERY: [&str; 2] = ["name", "kind"];

/// The fields of every pipe but a source.
static TAKING: [&str; 3] = ["name", "kind", "input"];

fn source_at<'a>(alloc: Global, table: &'a Table) -> Result<Result<Kind, &'a str>, NoMemory>
    ensures { IfOk result (λ kind. seen (λ kind. kind) kind
        ≡ own_of source_row (table_view table.entry.now)) }
{
    let limit = number_at(table, "limit", 0, MAX_LIMIT, Some(MAX_LIMIT));
    let own = both(path_at(table, "path"), both(source_form_at(table), limit));
    let known = known_alone(table, &EVERY, &["path", "form", "block", "limit"]);
    Ok(match both(known, own) {
        Ok((_, (path, (form, limit)))) => Ok(Kind::Source {
            path: Text::from_str(alloc, path)?,
            form,
            limit,
        }),
        Err(field) => Err(field),
    })
}

fn sink_at<'a>(alloc: Global, table: &'a Table) -> Result<Result<Kind, &'a str>, NoMemory>
    ensures { IfOk result (λ kind. seen (λ kind. kind) kind
        ≡ own_of sink_row (table_view table.entry.now)) }
{
    let own = both(path_at(table, "path"), form_at(table));
    Ok(
        match both(known_alone(table, &TAKING, &["path", "form"]), own) {
            Ok((_, (path, form))) => Ok(Kind::Sink {
                path: Text::from_str(alloc, path)?,
                form: form.of_sink(),
            }),
            Err(field) => Err(field),
        },
    )
}

fn skip_at<'a>(table: &'a Table) -> Result<Kind, &'a str>
    ensures { seen (λ kind. kind) result ≡ own_of skip_row (table_view table.entry.now) }
{
    let bytes = short_number_at(table, "bytes", 0, MAX_PACKET, None);
    match both(known_alone(table, &TAKING, &["bytes"]), bytes) {
        Ok((_, bytes)) => Ok(Kind::Skip { bytes }),
        Err(field) => Err(field),
    }
}

fn setattr_at<'a>(alloc: Global, table: &'a Table) -> Result<Result<Kind, &'a str>, NoMemory>
    ensures { IfOk result (λ kind. seen (λ kind. kind) kind
        ≡ own_of setattr_row (table_view table.entry.now)) }
{
    let own = both(name_at(table, "attr"), attr_value_at(alloc, table)?);
    Ok(
        match both(known_alone(table, &TAKING, &["attr", "value"]), own) {
            Ok((_, (attr, value))) => Ok(Kind::SetAttr { attr, value }),
            Err(field) => Err(field),
        },
    )
}

fn delattr_at<'a>(table: &'a Table) -> Result<Kind, &'a str>
    ensures { seen (λ kind. kind) result ≡ own_of delattr_row (table_view table.entry.now) }
{
    match both(
        known_alone(table, &TAKING, &["attr"]),
        name_at(table, "attr"),
    ) {
        Ok((_, attr)) => Ok(Kind::DelAttr { attr }),
        Err(field) => Err(field),
    }
}

/// The greatest `low` beside what stands at `high`.
fn greatest_low(high: &Result<u64, &str>) -> u64
    ensures { result ≡ greatest_low (seen (λ number. number) high.now) }
{
    match high {
        Ok(high) => *high,
        Err(_) => u64::MAX,
    }
}

fn match_attr_at<'a>(table: &'a Table) -> Result<Kind, &'a str>
    ensures { seen (λ kind. kind) result ≡ own_of match_attr_row (table_view table.entry.now) }
{
    let high = number_at(table, "high", 0, u64::MAX, Some(u64::MAX));
    let low = number_at(table, "low", 0, greatest_low(&high), Some(0));
    let own = both(name_at(table, "attr"), both(low, high));
    match both(known_alone(table, &TAKING, &["attr", "low", "high"]), own) {
        Ok((_, (attr, (low, high)))) => Ok(Kind::MatchAttr { attr, low, high }),
        Err(field) => Err(field),
    }
}

fn delay_at<'a>(table: &'a Table) -> Result<Kind, &'a str>
    ensures { seen (λ kind. kind) result ≡ own_of delay_row (table_view table.entry.now) }
{
    match both(known_alone(table, &TAKING, &["by"]), shift_at(table, "by")) {
        Ok((_, by)) => Ok(Kind::Delay { by }),
        Err(field) => Err(field),
    }
}

/// A kind without fields of its own.
fn plain_at<'a>(table: &'a Table, kind: Kind) -> Result<Kind, &'a str>
    ensures { seen (λ kind. kind) result ≡ own_of (plain_row kind) (table_view table.entry.now) }
{
    match known_alone(table, &TAKING, &[]) {
        Ok(()) => Ok(kind),
        Err(field) => Err(field),
    }
}

/// A kind that takes another pipe's output.
fn taking<'a>(kind: Result<Kind, &'a str>) -> Option<KindAt<'a>>
    ensures { option_map kind_seen result ≡ Some (false, seen (λ kind. kind) kind.entry) }
{
    Some(KindAt {
        is_source: false,
        kind,
    })
}

/// The kind that a word names.
pub fn kind_at<'a>(
    alloc: Global,
    word: &str,
    table: &'a Table,
) -> Result<Option<KindAt<'a>>, NoMemory>
    ensures { IfOk result (λ found. option_map kind_seen found
        ≡ option_map (row_seen (table_view table.entry.now)) (row_of word.now)) }
{
    Ok(match word {
        "source" => Some(KindAt {
            is_source: true,
            kind: source_at(alloc, table)?,
        }),
        "sink" => taking(sink_at(alloc, table)?),
        "idem" => taking(plain_at(table, Kind::Idem)),
        "null" => taking(plain_at(table, Kind::Null)),
        "dup" => taking(plain_at(table, Kind::Dup)),
        "skip" => taking(skip_at(table)),
        "setattr" => taking(setattr_at(alloc, table)?),
        "delattr" => taking(delattr_at(table)),
        "match_attr" => taking(match_attr_at(table)),
        "delay" => taking(delay_at(table)),
        _ => None,
    })
}
