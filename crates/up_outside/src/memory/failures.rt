// The table of the calls that fail in a depot in memory.
ghost use Rattle.std.specs.Prelude.{◌≡◌, ◌++◌, [], ◌∷◌, ◌==◌, ◌&&◌, count_by, OnOk, OnErr, IfOk};
ghost use Rattle.std.specs.Str.{bytes_eq};
ghost use Rattle.up_outside.specs.Memory.Failures.{failure, is_such, shows, calls_made, is_due, numbers_of};

use crate::{DepotCall, Entry, Mark, Side};
use std::alloc::Global;
use up_base::{NoMemory, Text};

/// One call that fails: the one with this number among such calls on the path.
#[derive(Debug, Drop)]
pub(crate) struct Failure {
    call: DepotCall,
    path: Text,
    number: u64,
}

/// Whether the row is of such a call on the path.
fn is_such(row: &Failure, call: DepotCall, path: &str) -> bool
    ensures { result ≡ is_such call path.now row.now }
{
    row.call == call && row.path.as_str() == path
}

/// Whether the entry shows such a call on the path.
fn shows(entry: &Entry, call: DepotCall, path: &str) -> bool
    ensures { result ≡ shows call path.now entry.now }
{
    let shown = match call {
        DepotCall::OpenSource => entry.side == Side::Source,
        DepotCall::OpenSink => entry.side == Side::Sink,
        DepotCall::CloseSink => {
            entry.side == Side::Sink && matches!(entry.mark, Mark::Closed { .. })
        }
        DepotCall::Read | DepotCall::Write => false,
    };
    shown && entry.path.as_str() == path
}

/// How many such calls on the path the entries show.
pub(crate) fn calls_made(asked: &[Entry], call: DepotCall, path: &str) -> u64
    ensures { result ≡ calls_made call path.now asked.now }
{
    asked
        .iter()
        .filter(|entry| shows(entry, call, path))
        .count() as u64
}

/// Adds a row.
pub(crate) fn add_failure(
    alloc: Global,
    rows: &mut Vec<Failure>,
    call: DepotCall,
    path: &str,
    number: u64,
) -> Result<(), NoMemory>
    ensures added { OnOk result
        (rows.new.items ≡ rows.old.items ++ failure call path.now number ∷ []) }
    ensures unchanged { OnErr result (rows.new.items ≡ rows.old.items) }
{
    let path = Text::from_str(alloc, path)?;
    rows.push(Failure { call, path, number })?;
    Ok(())
}

/// Whether the table has such a call on the path with this number.
pub(crate) fn is_due(rows: &[Failure], call: DepotCall, path: &str, number: u64) -> bool
    ensures { result ≡ is_due call path.now number rows.now }
{
    rows.iter()
        .any(|row| is_such(row, call, path) && row.number == number)
}

/// The numbers of such calls on the path that the table has.
pub(crate) fn numbers_of(
    alloc: Global,
    rows: &[Failure],
    call: DepotCall,
    path: &str,
) -> Result<Vec<u64>, NoMemory>
    ensures { IfOk result (λ numbers. numbers.items ≡ numbers_of call path.now rows.now) }
{
    let numbers = rows
        .iter()
        .filter(|row| is_such(row, call, path))
        .map(|row| row.number)
        .collect(alloc)?;
    Ok(numbers)
}
