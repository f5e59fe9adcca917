// Numbers as decimal digits.
ghost use Rattle.std.specs.Prelude.{◌≡◌, ◌++◌, decimal, OnOk, OnErr};

use crate::{Bytes, NoMemory};
use itoa::Buffer;

/// Adds the shortest decimal digits of the number at the end.
pub fn push_decimal(out: &mut Bytes, v: u64) -> Result<(), NoMemory>
    ensures added { OnOk result (out.new ≡ out.old ++ decimal v) }
    ensures unchanged { OnErr result (out.new ≡ out.old) }
{
    out.append(Buffer::new().format(v).as_bytes())
}
