//! Attributes that are made a second time.
ghost use Rattle.std.specs.Prelude.{◌≡◌, IfOk};
ghost use Rattle.up_model.specs.Value.{lent};

use std::alloc::Global;
use up_base::{Bytes, NoMemory, Text};
use up_model::{PlainAttrs, Value, ValueView};

/// The value that is lent, on memory of its own.
pub(crate) fn owned(alloc: Global, value: ValueView<'_>) -> Result<Value, NoMemory>
    ensures { IfOk result (λ made. made ≡ lent value.entry) }
{
    Ok(match value {
        ValueView::Void => Value::Void,
        ValueView::Flag(flag) => Value::Flag(flag),
        ValueView::Unsigned(number) => Value::Unsigned(number),
        ValueView::Words(text) => Value::Words(Text::from_str(alloc, text)?),
        ValueView::Opaque(bytes) => Value::Opaque(Bytes::from_slice(alloc, bytes)?),
    })
}

/// The same attributes a second time.
pub(crate) fn copied(alloc: Global, attrs: &PlainAttrs) -> Result<PlainAttrs, NoMemory>
    ensures { IfOk result (λ made. made ≡ attrs.now) }
{
    let mut made = PlainAttrs::new(alloc);
    for i in 0..attrs.len() {
        let (name, value) = attrs.at(i);
        let value = owned(alloc, value)?;
        match made.set(name, value) {
            Ok(_) => {}
            Err(_) => return Err(NoMemory),
        }
    }
    Ok(made)
}
