ghost use Rattle.std.specs.Prelude.{◌≡◌, ◌↔◌, IfOk, IsTrue};

use crate::MAX_VALUE;
use std::alloc::Global;
use up_base::{Bytes, NoMemory, Text};

/// The value of an attribute of a packet.
#[derive(Debug, Drop)]
pub enum Value {
    Void,
    Flag(bool),
    Unsigned(u64),
    /// At most 4,096 bytes.
    Words(Text),
    /// At most 4,096 bytes.
    Opaque(Bytes),
}

/// A value of an attribute, as its holder lends it.
#[derive(Clone, Copy, Debug)]
pub enum ValueView<'a> {
    Void,
    Flag(bool),
    Unsigned(u64),
    Words(&'a str),
    Opaque(&'a [u8]),
}

impl Value {
    ghost use Rattle.up_model.specs.Value.{lent, IsLegalValue};

    /// The value, lent.
    pub fn view(&self) -> ValueView<'_>
        ensures { lent result ≡ self.now }
    {
        match self {
            Value::Void => ValueView::Void,
            Value::Flag(flag) => ValueView::Flag(*flag),
            Value::Unsigned(number) => ValueView::Unsigned(*number),
            Value::Words(text) => ValueView::Words(text.as_str()),
            Value::Opaque(bytes) => ValueView::Opaque(bytes.as_slice()),
        }
    }

    /// Whether a text or opaque value has at most 4,096 bytes.
    pub fn is_legal(&self) -> bool
        ensures { IsTrue result ↔ IsLegalValue self.now }
    {
        match self {
            Value::Void | Value::Flag(_) => true,
            Value::Unsigned(number) => *number <= u64::MAX,
            Value::Words(text) => text.as_slice().len() <= MAX_VALUE,
            Value::Opaque(bytes) => bytes.as_slice().len() <= MAX_VALUE,
        }
    }

    /// The same value, on memory of its own.
    pub fn copy(&self, alloc: Global) -> Result<Value, NoMemory>
        ensures { IfOk result (λ copy. copy ≡ self.now) }
    {
        Ok(match self {
            Value::Void => Value::Void,
            Value::Flag(flag) => Value::Flag(*flag),
            Value::Unsigned(number) => Value::Unsigned(*number),
            Value::Words(text) => Value::Words(Text::from_str(alloc, text.as_str())?),
            Value::Opaque(bytes) => Value::Opaque(Bytes::from_slice(alloc, bytes.as_slice())?),
        })
    }
}
