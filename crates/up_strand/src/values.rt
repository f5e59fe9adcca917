// The values that the modules of a strand own, each on memory of its own.
ghost use Rattle.std.specs.Prelude.{◌≡◌, None, drop, map, slice_index_or, IfOk};
ghost use Rattle.up_strand.specs.Values.{value_at, value_of_kind};

use std::alloc::Global;
use up_base::{ItemList, NoMemory};
use up_model::{Kind, PipeList, Value};

/// The values of the pipes of a strand, in the order of the file.
pub(crate) type ValueList = ItemList<Option<Value>>;

/// The value that the module of a kind owns.
pub(crate) fn value_of(alloc: Global, kind: &Kind) -> Result<Option<Value>, NoMemory>
    ensures { IfOk result (λ value. value ≡ value_of_kind kind.now) }
{
    Ok(match kind {
        Kind::SetAttr { attr: _, value } => Some(value.copy(alloc)?),
        Kind::Source { .. }
        | Kind::Sink { .. }
        | Kind::Idem
        | Kind::Null
        | Kind::Dup
        | Kind::Skip { .. }
        | Kind::DelAttr { .. }
        | Kind::MatchAttr { .. }
        | Kind::Delay { .. } => None,
    })
}

/// The value that the module of the pipe at a place owns.
fn value_at(alloc: Global, pipes: &PipeList, place: u16) -> Result<Option<Value>, NoMemory>
    ensures { IfOk result (λ value. value ≡ value_at pipes.now place) }
{
    if usize::from(place) < pipes.len() {
        value_of(alloc, &pipes.at(usize::from(place)).kind)
    } else {
        Ok(None)
    }
}

/// The values that the modules of the pipes at these places own.
pub(crate) fn values_of(
    alloc: Global,
    pipes: &PipeList,
    places: &[u16],
) -> Result<ValueList, NoMemory>
    ensures { IfOk result (λ values. values ≡ map (value_at pipes.now) places.now) }
{
    let mut values = ItemList::new(alloc);
    for place in places {
        let value = value_at(alloc, pipes, *place)?;
        values.push(value).map_err(|_| NoMemory)?;
    }
    Ok(values)
}

/// Takes out the first value. Behind the last there is none.
pub(crate) fn next_value(values: &mut ValueList) -> Option<Value>
    ensures first { result ≡ slice_index_or values.old 0 None }
    ensures rest { values.new ≡ drop 1 values.old }
{
    match values.next() {
        Some(value) => value,
        None => None,
    }
}
