// Edits of a run of bytes.
ghost use Rattle.std.specs.Prelude.{◌≡◌, ◌+◌, ◌≤◌, [], length, OnOk, OnErr};
ghost use Rattle.up_dict.specs.Edits.{replaced, turned};
ghost use Rattle.up_dict.specs.Spelling.{IsLegalAttr, attr_bytes};
ghost use Rattle.up_model.specs.Value.{lent};

use crate::spell::add_attr;
use up_base::NoMemory;
use up_model::ValueView;

/// So many bytes from one on go behind those that follow them.
fn turn(run: &mut Vec<u8>, byte: usize, count: usize)
    requires { byte + count ≤ length run.old.items }
    ensures { run.new.items ≡ turned run.old.items byte count }
{
    run[byte..].rotate_left(count);
}

/// Takes out so many bytes from one on.
pub(crate) fn cut(run: &mut Vec<u8>, byte: usize, count: usize)
    requires { byte + count ≤ length run.old.items }
    ensures { run.new.items ≡ replaced run.old.items byte count [] }
{
    turn(run, byte, count);
    run.truncate(run.len() - count);
}

/// Puts an attribute in the place of so many bytes from one on. Room is taken before any byte moves.
pub(crate) fn put(
    run: &mut Vec<u8>,
    byte: usize,
    count: usize,
    name: &[u8],
    value: ValueView<'_>,
) -> Result<(), NoMemory>
    requires within { byte + count ≤ length run.old.items }
    requires legal { IsLegalAttr (name.now, lent value) }
    ensures put { OnOk result (run.new.items
        ≡ replaced run.old.items byte count (attr_bytes (name.now, lent value.entry))) }
    ensures unchanged { OnErr result (run.new.items ≡ run.old.items) }
{
    let behind = run.len() - byte - count;
    add_attr(run, name, value)?;
    cut(run, byte, count);
    turn(run, byte, behind);
    Ok(())
}
