// The first attribute of a run of bytes.
ghost use Rattle.std.specs.Prelude.{◌≡◌, ◌<◌, ◌≤◌, true, drop, length};
ghost use Rattle.up_base.specs.Name.{is_name};
ghost use Rattle.up_dict.specs.Places.{HasFirst, IsValueOf};
ghost use Rattle.up_dict.specs.Reading.{first_name, first_size, first_value};
ghost use Rattle.up_model.specs.Value.{lent};
ghost use Rattle.up_model.specs.ValueTypes.{value_of};

use std::str;
use up_base::{read_u16, read_u64};
use up_model::{ValueType, ValueView};

/// The bytes of the run from one on.
pub(crate) fn rest_from(run: &[u8], byte: usize) -> &[u8]
    requires { byte ≤ length run.now }
    ensures { result.now ≡ drop byte run.now }
{
    &run[byte..]
}

/// The name of the run's first attribute.
pub(crate) fn first_name(run: &[u8]) -> &[u8]
    requires { HasFirst run.now }
    ensures name { result.now ≡ first_name run.now }
    ensures is_name { is_name result.now ≡ true }
{
    &run[1..1 + usize::from(run[0])]
}

/// How many bytes the run's first attribute has.
pub(crate) fn first_size(run: &[u8]) -> usize
    requires { HasFirst run.now }
    ensures size { result ≡ first_size run.now }
    ensures some { 0 < result }
    ensures within { result ≤ length run.now }
{
    let place = usize::from(run[0]) + 1;
    place + 3 + usize::from(read_u16(run, place + 1))
}

/// The value of this type that has these bytes.
fn value_of(kind: ValueType, bytes: &[u8]) -> ValueView<'_>
    requires { IsValueOf kind bytes.now }
    ensures { lent result ≡ value_of kind bytes.now }
{
    match kind {
        ValueType::Void => ValueView::Void,
        ValueType::Flag => ValueView::Flag(bytes[0] == 1),
        ValueType::Unsigned => ValueView::Unsigned(read_u64(bytes, 0)),
        ValueType::Words => ValueView::Words(unsafe { str::from_utf8_unchecked(bytes) }),
        ValueType::Opaque => ValueView::Opaque(bytes),
    }
}

/// The value of the run's first attribute.
pub(crate) fn first_value(run: &[u8]) -> ValueView<'_>
    requires { HasFirst run.now }
    ensures { lent result ≡ first_value run.now }
{
    let place = usize::from(run[0]) + 1;
    let kind = ValueType::of_number(run[place]).unwrap_or(ValueType::Opaque);
    let size = usize::from(read_u16(run, place + 1));
    value_of(kind, &run[place + 3..place + 3 + size])
}
