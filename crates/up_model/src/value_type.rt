ghost use Rattle.std.specs.Prelude.{◌≡◌};
ghost use Rattle.up_model.specs.Value.{lent};
ghost use Rattle.up_model.specs.ValueTypes.{number_of, type_of, type_with};

use crate::ValueView;

/// The type of a value. Each has a number, by which the type is told where a value is spelled in bytes.
#[derive(Clone, Copy, Debug, PartialEq, Eq)]
pub enum ValueType {
    Void,
    Flag,
    Unsigned,
    Words,
    Opaque,
}

impl ValueType {
    /// The type of the value.
    pub fn of(value: ValueView<'_>) -> ValueType
        ensures { result ≡ type_of (lent value.entry) }
    {
        match value {
            ValueView::Void => ValueType::Void,
            ValueView::Flag(_) => ValueType::Flag,
            ValueView::Unsigned(_) => ValueType::Unsigned,
            ValueView::Words(_) => ValueType::Words,
            ValueView::Opaque(_) => ValueType::Opaque,
        }
    }

    /// The number of the type, 1 to 5.
    pub fn number(self) -> u8
        ensures { result ≡ number_of self }
    {
        match self {
            ValueType::Void => 1,
            ValueType::Flag => 2,
            ValueType::Unsigned => 3,
            ValueType::Words => 4,
            ValueType::Opaque => 5,
        }
    }

    /// The type with this number.
    pub fn of_number(number: u8) -> Option<ValueType>
        ensures { result ≡ type_with number }
    {
        match number {
            1 => Some(ValueType::Void),
            2 => Some(ValueType::Flag),
            3 => Some(ValueType::Unsigned),
            4 => Some(ValueType::Words),
            5 => Some(ValueType::Opaque),
            _ => None,
        }
    }
}
