// The fields of a frame: what stands at the front of bytes, and what is behind it.
ghost use Rattle.std.specs.Prelude.{◌≡◌, ◌==◌, ◌≤◌, ℕ, true, false, length, IfOk, MatchOption};
ghost use Rattle.std.specs.Str.{is_utf8};
ghost use Rattle.up_base.specs.Name.{is_name, is_within};
ghost use Rattle.up_base.specs.Number.{big_endian};
ghost use Rattle.up_model.specs.FrameFronts.{
  field,
  number_at,
  is_any,
  is_name_behind,
  type_at,
  is_size_of,
  is_value_of,
  as_value,
  value_at,
};
ghost use Rattle.up_model.specs.PlainFrames.{Finds};
ghost use Rattle.up_model.specs.Value.{lent};
ghost use Rattle.up_model.specs.ValueTypes.{value_of};

use crate::{MAX_VALUE, NotWhole, ValueType, ValueView};
use up_base::AttrName;

/// A field of so many bytes, whatever they are, and what is behind it.
pub(crate) fn field(bytes: &[u8], size: usize) -> Result<(&[u8], &[u8]), NotWhole>
    ensures { Finds (λ x. (x.0.now, x.1.now)) result (field size is_any bytes.now) }
{
    if bytes.len() < size {
        return Err(NotWhole::Unfinished);
    }
    Ok(bytes.split_at(size))
}

/// The number whose digits to the base 256 are these bytes.
fn big_endian(digits: &[u8]) -> u64
    requires { length digits.now ≤ 8 }
    ensures { result ≡ big_endian digits.now }
{
    let mut number = 0;
    for place in 0..digits.len() {
        number = number * 256 + u64::from(digits[place]);
    }
    number
}

/// A number in so many bytes, from `low` to `high`.
pub(crate) fn number_at(
    bytes: &[u8],
    size: usize,
    low: u64,
    high: u64,
) -> Result<(u64, &[u8]), NotWhole>
    requires { size ≤ 8 }
    ensures front { Finds (λ x. (x.0, x.1.now)) result
        (number_at size (is_within low high) bytes.now) }
    ensures within { IfOk result (λ x. is_within low high x.0 ≡ true) }
{
    let (digits, rest) = field(bytes, size)?;
    let number = big_endian(digits);
    if number < low || high < number {
        return Err(NotWhole::Broken);
    }
    Ok((number, rest))
}

/// A byte that is this number.
pub(crate) fn byte_at(bytes: &[u8], number: u8) -> Result<&[u8], NotWhole>
    ensures { Finds (λ rest. (number, rest.now)) result
        (number_at 1 (λ byte. byte == number) bytes.now) }
{
    let (_, rest) = number_at(bytes, 1, u64::from(number), u64::from(number))?;
    Ok(rest)
}

/// The type whose number comes first.
pub(crate) fn type_at(bytes: &[u8]) -> Result<(ValueType, &[u8]), NotWhole>
    ensures { Finds (λ x. (x.0, x.1.now)) result (type_at bytes.now) }
{
    match bytes {
        [] => Err(NotWhole::Unfinished),
        [number, rest @ ..] => match ValueType::of_number(*number) {
            Some(type_) => Ok((type_, rest)),
            None => Err(NotWhole::Broken),
        },
    }
}

/// The least and the greatest number of bytes that a value of this type has.
fn sizes_of(type_: ValueType) -> (u64, u64)
    ensures { (size : ℕ) → is_within result.0 result.1 size ≡ is_size_of type_ size }
{
    match type_ {
        ValueType::Void => (0, 0),
        ValueType::Flag => (1, 1),
        ValueType::Unsigned => (8, 8),
        ValueType::Words | ValueType::Opaque => (0, MAX_VALUE as u64),
    }
}

/// Whether the bytes are a name.
fn is_name(name: &[u8]) -> bool
    ensures { result ≡ is_name name.now }
{
    match AttrName::read(name) {
        Ok(_) => true,
        Err(_) => false,
    }
}

/// A name of so many bytes that stands behind another.
pub(crate) fn name_at<'a>(
    bytes: &'a [u8],
    size: usize,
    before: &[u8],
) -> Result<(&'a [u8], &'a [u8]), NotWhole>
    ensures front { Finds (λ x. (x.0.now, x.1.now)) result
        (field size (is_name_behind before.now) bytes.now) }
    ensures name { IfOk result (λ x. is_name x.0.now ≡ true) }
{
    let (name, rest) = field(bytes, size)?;
    if !is_name(name) || !before.cmp(name).is_lt() {
        return Err(NotWhole::Broken);
    }
    Ok((name, rest))
}

/// The text that the bytes are, where they are UTF-8.
fn text_of(bytes: &[u8]) -> Option<&str>
    ensures { MatchOption result (is_utf8 bytes.now ≡ false)
        (λ text. (is_utf8 bytes.now ≡ true) × (text.now ≡ bytes.now)) }
{
    match std::str::from_utf8(bytes) {
        Ok(text) => Some(text),
        Err(_) => None,
    }
}

/// The value of this type that the bytes are, where they may be one.
fn value_of(bytes: &[u8], type_: ValueType) -> Option<ValueView<'_>>
    requires { is_size_of type_ (length bytes.now) ≡ true }
    ensures { MatchOption result (is_value_of type_ bytes.now ≡ false)
        (λ value. (is_value_of type_ bytes.now ≡ true)
        × (lent value ≡ value_of type_ bytes.now)) }
{
    match type_ {
        ValueType::Void => Some(ValueView::Void),
        ValueType::Flag => match big_endian(bytes) {
            0 => Some(ValueView::Flag(false)),
            1 => Some(ValueView::Flag(true)),
            _ => None,
        },
        ValueType::Unsigned => Some(ValueView::Unsigned(big_endian(bytes))),
        ValueType::Words => Some(ValueView::Words(text_of(bytes)?)),
        ValueType::Opaque => Some(ValueView::Opaque(bytes)),
    }
}

/// A value of so many bytes.
fn sized_value_at(
    bytes: &[u8],
    size: usize,
    type_: ValueType,
) -> Result<(ValueView<'_>, &[u8]), NotWhole>
    requires { is_size_of type_ size ≡ true }
    ensures { Finds (λ x. (lent x.0, x.1.now)) result
        (as_value type_ (field size (is_value_of type_) bytes.now)) }
{
    let (content, rest) = field(bytes, size)?;
    match value_of(content, type_) {
        Some(value) => Ok((value, rest)),
        None => Err(NotWhole::Broken),
    }
}

/// A value of this type behind its length.
#[tactic(auto, unfolding(crate::specs::FrameFronts::value_at))]
pub(crate) fn value_at(bytes: &[u8], type_: ValueType) -> Result<(ValueView<'_>, &[u8]), NotWhole>
    ensures { Finds (λ x. (lent x.0, x.1.now)) result (value_at type_ bytes.now) }
{
    let (low, high) = sizes_of(type_);
    let (size, rest) = number_at(bytes, 4, low, high)?;
    sized_value_at(rest, size as usize, type_)
}
