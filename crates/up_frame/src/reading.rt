//! What stands at the front of bytes, field by field.
ghost use Rattle.std.specs.Prelude.{◌≡◌, ◌==◌, ◌≤◌, nat_le, true, false, [], length, IfOk, MatchOption};
ghost use Rattle.std.specs.Str.{is_utf8};
ghost use Rattle.up_base.specs.Name.{is_name, is_within};
ghost use Rattle.up_base.specs.declared.name_text.TheConstants.{NAME_SIZE};
ghost use Rattle.up_frame.specs.Reading.{BeginsWithFrame, Ends, Parted};
ghost use Rattle.up_model.specs.FrameFronts.{
  field,
  number_at,
  is_any,
  is_name_behind,
  type_at,
  is_size_of,
  is_value_of,
  as_value,
  value_at,
  attribute_at,
  attributes_at,
  content_at,
  packet_at,
};
ghost use Rattle.up_model.specs.PlainFrames.{Finds};
ghost use Rattle.up_model.specs.Value.{lent};
ghost use Rattle.up_model.specs.ValueTypes.{value_of};
ghost use Rattle.up_model.specs.declared.limits.TheConstants.{MAX_ATTRS, MAX_PACKET};

use crate::frame_parts::FrameParts;
use up_base::{AttrName, read_u16, read_u32, read_u64};
use up_model::{MARK, MAX_ATTRS, MAX_PACKET, MAX_VALUE, NotWhole, VERSION, ValueType, ValueView};

/// A field of so many bytes, whatever they are, and what is behind it.
fn field(bytes: &[u8], size: usize) -> Result<(&[u8], &[u8]), NotWhole>
    ensures { Finds (λ x. (x.0.now, x.1.now)) result (field size is_any bytes.now) }
{
    if bytes.len() < size {
        return Err(NotWhole::Unfinished);
    }
    Ok(bytes.split_at(size))
}

/// What is behind a byte that is this number.
pub(crate) fn behind_byte(bytes: &[u8], number: u8) -> Result<&[u8], NotWhole>
    ensures { Finds (λ rest. (number, rest.now)) result
        (number_at 1 (λ byte. byte == number) bytes.now) }
{
    match bytes {
        [] => Err(NotWhole::Unfinished),
        [first, rest @ ..] => {
            if *first == number {
                Ok(rest)
            } else {
                Err(NotWhole::Broken)
            }
        }
    }
}

/// How many bytes a name has.
fn name_size_at(bytes: &[u8]) -> Result<(usize, &[u8]), NotWhole>
    ensures { Finds (λ x. (x.0, x.1.now)) result (number_at 1 (is_within 1 NAME_SIZE) bytes.now) }
{
    match bytes {
        [] => Err(NotWhole::Unfinished),
        [first, rest @ ..] => {
            if 1 <= *first && *first <= 64 {
                Ok((*first as usize, rest))
            } else {
                Err(NotWhole::Broken)
            }
        }
    }
}

/// How many attributes there are.
pub(crate) fn count_at(bytes: &[u8]) -> Result<(u16, &[u8]), NotWhole>
    ensures front { Finds (λ x. (x.0, x.1.now)) result
        (number_at 2 (λ count. nat_le count MAX_ATTRS) bytes.now) }
    ensures few { IfOk result (λ x. x.0 ≤ MAX_ATTRS) }
{
    if bytes.len() < 2 {
        return Err(NotWhole::Unfinished);
    }
    let count = read_u16(bytes, 0);
    if count as usize > MAX_ATTRS {
        return Err(NotWhole::Broken);
    }
    Ok((count, &bytes[2..]))
}

/// How many bytes the packet has.
pub(crate) fn size_at(bytes: &[u8]) -> Result<(u32, &[u8]), NotWhole>
    ensures front { Finds (λ x. (x.0, x.1.now)) result
        (number_at 4 (λ size. nat_le size MAX_PACKET) bytes.now) }
    ensures few { IfOk result (λ x. x.0 ≤ MAX_PACKET) }
{
    if bytes.len() < 4 {
        return Err(NotWhole::Unfinished);
    }
    let size = read_u32(bytes, 0);
    if size > MAX_PACKET {
        return Err(NotWhole::Broken);
    }
    Ok((size, &bytes[4..]))
}

/// Whether a value of this type may have so many bytes.
fn may_have(type_: ValueType, size: u32) -> bool
    ensures { result ≡ is_size_of type_ size }
{
    match type_ {
        ValueType::Void => size == 0,
        ValueType::Flag => size == 1,
        ValueType::Unsigned => size == 8,
        ValueType::Words => size as usize <= MAX_VALUE,
        ValueType::Opaque => size as usize <= MAX_VALUE,
    }
}

/// How many bytes a value of this type has.
fn value_size_at(bytes: &[u8], type_: ValueType) -> Result<(u32, &[u8]), NotWhole>
    ensures front { Finds (λ x. (x.0, x.1.now)) result
        (number_at 4 (is_size_of type_) bytes.now) }
    ensures size { IfOk result (λ x. is_size_of type_ x.0 ≡ true) }
{
    if bytes.len() < 4 {
        return Err(NotWhole::Unfinished);
    }
    let size = read_u32(bytes, 0);
    if !may_have(type_, size) {
        return Err(NotWhole::Broken);
    }
    Ok((size, &bytes[4..]))
}

/// The type whose number comes first.
fn front_type(bytes: &[u8]) -> Result<(ValueType, &[u8]), NotWhole>
    ensures { Finds (λ x. (x.0, x.1.now)) result (type_at bytes.now) }
{
    match bytes {
        [] => Err(NotWhole::Unfinished),
        [number, rest @ ..] => match ValueType::of_number(*number) {
            Some(type_) => Ok((type_, rest)),
            None => Err(NotWhole::Broken),
        },
    }
}

/// Whether the bytes are a name.
fn is_named(name: &[u8]) -> bool
    ensures { result ≡ is_name name.now }
{
    match AttrName::read(name) {
        Ok(_) => true,
        Err(_) => false,
    }
}

/// Whether the bytes are a name that stands behind another in byte order.
fn is_behind(before: &[u8], name: &[u8]) -> bool
    ensures { result ≡ is_name_behind before.now name.now }
{
    is_named(name) && before.cmp(name).is_lt()
}

/// The text that the bytes are, where they are UTF-8.
fn text_of(bytes: &[u8]) -> Option<&str>
    ensures { MatchOption result (is_utf8 bytes.now ≡ false)
        (λ text. (is_utf8 bytes.now ≡ true) × (text.now ≡ bytes.now)) }
{
    match std::str::from_utf8(bytes) {
        Ok(text) => Some(text),
        Err(_) => None,
    }
}

/// The value of this type that the bytes are, where they may be one.
fn view_of(bytes: &[u8], type_: ValueType) -> Option<ValueView<'_>>
    requires { is_size_of type_ (length bytes.now) ≡ true }
    ensures { MatchOption result (is_value_of type_ bytes.now ≡ false)
        (λ value. (is_value_of type_ bytes.now ≡ true)
        × (lent value ≡ value_of type_ bytes.now)) }
{
    match type_ {
        ValueType::Void => Some(ValueView::Void),
        ValueType::Flag => match bytes[0] {
            0 => Some(ValueView::Flag(false)),
            1 => Some(ValueView::Flag(true)),
            _ => None,
        },
        ValueType::Unsigned => Some(ValueView::Unsigned(read_u64(bytes, 0))),
        ValueType::Words => Some(ValueView::Words(text_of(bytes)?)),
        ValueType::Opaque => Some(ValueView::Opaque(bytes)),
    }
}

/// A name of so many bytes that stands behind another.
fn name_at<'a>(
    bytes: &'a [u8],
    size: usize,
    before: &[u8],
) -> Result<(&'a [u8], &'a [u8]), NotWhole>
    ensures front { Finds (λ x. (x.0.now, x.1.now)) result
        (field size (is_name_behind before.now) bytes.now) }
    ensures name { IfOk result (λ x. is_name x.0.now ≡ true) }
{
    let (name, rest) = field(bytes, size)?;
    if !is_behind(before, name) {
        return Err(NotWhole::Broken);
    }
    Ok((name, rest))
}

/// A value of so many bytes, and what is behind it.
fn content_of(
    bytes: &[u8],
    size: usize,
    type_: ValueType,
) -> Result<(ValueView<'_>, &[u8]), NotWhole>
    requires { is_size_of type_ size ≡ true }
    ensures { Finds (λ x. (lent x.0, x.1.now)) result
        (as_value type_ (field size (is_value_of type_) bytes.now)) }
{
    let (content, rest) = field(bytes, size)?;
    match view_of(content, type_) {
        Some(value) => Ok((value, rest)),
        None => Err(NotWhole::Broken),
    }
}

/// A value of this type behind its length, and what is behind it.
#[tactic(auto, unfolding(up_model::specs::FrameFronts::value_at))]
fn value(bytes: &[u8], type_: ValueType) -> Result<(ValueView<'_>, &[u8]), NotWhole>
    ensures { Finds (λ x. (lent x.0, x.1.now)) result (value_at type_ bytes.now) }
{
    let (size, rest) = value_size_at(bytes, type_)?;
    content_of(rest, size as usize, type_)
}

/// The name of an attribute behind another, its value, and what is behind the attribute.
#[tactic(auto, unfolding(up_model::specs::FrameFronts::attribute_at))]
pub(crate) fn attribute<'a>(
    bytes: &'a [u8],
    before: &[u8],
) -> Result<(&'a [u8], ValueView<'a>, &'a [u8]), NotWhole>
    ensures front { Finds (λ x. ((x.0.now, lent x.1), x.2.now)) result
        (attribute_at before.now bytes.now) }
    ensures name { IfOk result (λ x. is_name x.0.now ≡ true) }
{
    let (size, rest) = name_size_at(bytes)?;
    let (name, rest) = name_at(rest, size, before)?;
    let (type_, rest) = front_type(rest)?;
    let (value, rest) = value(rest, type_)?;
    Ok((name, value, rest))
}

/// What is behind so many attributes.
fn behind_attributes(bytes: &[u8], count: u16) -> Result<&[u8], NotWhole>
    ensures { Ends (λ rest. rest.now) result (attributes_at count [] bytes.now) }
{
    let mut before: &[u8] = &[];
    let mut rest = bytes;
    for _ in 0..count {
        let (name, _, after) = attribute(rest, before)?;
        before = name;
        rest = after;
    }
    Ok(rest)
}

/// So many attributes and so many bytes, and what is behind them.
#[tactic(auto, unfolding(up_model::specs::FrameFronts::content_at))]
fn content(bytes: &[u8], count: u16, size: u32) -> Result<(FrameParts<'_>, &[u8]), NotWhole>
    requires count { count ≤ MAX_ATTRS }
    requires size { size ≤ MAX_PACKET }
    ensures { Parted result (content_at count size bytes.now) }
{
    let behind = behind_attributes(bytes, count)?;
    let (content, rest) = field(behind, size as usize)?;
    let parts = FrameParts {
        count,
        attrs: bytes,
        content,
    };
    Ok((parts, rest))
}

/// The parts of the frame at the front, and what is behind it.
#[tactic(auto, unfolding(up_model::specs::FrameFronts::packet_at))]
fn parts(bytes: &[u8]) -> Result<(FrameParts<'_>, &[u8]), NotWhole>
    ensures { Parted result (packet_at bytes.now) }
{
    let rest = behind_byte(bytes, MARK)?;
    let rest = behind_byte(rest, VERSION)?;
    let (count, rest) = count_at(rest)?;
    let (size, rest) = size_at(rest)?;
    content(rest, count, size)
}

/// The parts of the frame at the front, which is that of a legal packet, and what is behind it.
pub(crate) fn frame_parts(bytes: &[u8]) -> Result<(FrameParts<'_>, &[u8]), NotWhole>
    ensures whole { IfOk result (λ x. BeginsWithFrame bytes.now x.1.now) }
    ensures front { Parted result (packet_at bytes.now) }
{
    parts(bytes)
}

/// What is behind the frame at the front of some bytes, or why no whole one stands there. Nothing is
/// allocated.
pub fn behind_frame(bytes: &[u8]) -> Result<&[u8], NotWhole>
    // What is passed over is the frame of a legal packet.
    ensures whole { IfOk result (λ rest. BeginsWithFrame bytes.now rest.now) }
    // What the front is, and which refusal it is.
    ensures front { Ends (λ rest. rest.now) result (packet_at bytes.now) }
{
    let (_, rest) = frame_parts(bytes)?;
    Ok(rest)
}
