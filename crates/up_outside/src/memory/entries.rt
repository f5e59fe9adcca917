// The entries of what was asked of a depot in memory.
ghost use Rattle.std.specs.Prelude.{◌≡◌, ◌<◌, ◌++◌, [], ◌∷◌, Some, length, OnOk, OnErr};
ghost use Rattle.up_outside.specs.Asked.{entry, Closes};

use crate::{Entry, Mark, Side};
use std::alloc::Global;
use up_base::{NoMemory, Text};

/// Adds the entry of an open.
pub(crate) fn ask(
    alloc: Global,
    asked: &mut Vec<Entry>,
    path: &str,
    side: Side,
    mark: Mark,
) -> Result<(), NoMemory>
    ensures added { OnOk result
        (asked.new.items ≡ asked.old.items ++ entry path.now side mark ∷ []) }
    ensures unchanged { OnErr result (asked.new.items ≡ asked.old.items) }
{
    let path = Text::from_str(alloc, path)?;
    asked.push(Entry { path, side, mark })?;
    Ok(())
}

/// Marks the entry at a place as closed.
pub(crate) fn close_entry(asked: &mut Vec<Entry>, at: usize, moved: u64, failed: bool, shut: bool)
    requires { at < length asked.old.items }
    ensures { Closes (record { place = Some at; moved = Some moved; failed = failed; shut = shut })
        asked.old.items asked.new.items }
{
    asked[at].mark = Mark::Closed {
        moved,
        failed,
        shut,
    };
}
