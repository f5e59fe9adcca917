// The slow meaning of bytes as frames: a field after the other, each as it is defined.
ghost use Rattle.std.specs.Prelude.{◌≡◌, true, [], All, IfOk};
ghost use Rattle.up_base.specs.Name.{is_name};
ghost use Rattle.up_model.specs.FrameFronts.{attribute_at, attributes_at, content_at, packet_at};
ghost use Rattle.up_model.specs.FrameStreams.{whole_frames};
ghost use Rattle.up_model.specs.Packet.{IsLegal};
ghost use Rattle.up_model.specs.PlainFrames.{Finds, FindsHead};
ghost use Rattle.up_model.specs.Value.{lent};

use crate::plain_fields::{byte_at, field, name_at, number_at, type_at, value_at};
use crate::{
    MARK, MAX_ATTRS, MAX_PACKET, NotWhole, PacketList, PlainAttrs, PlainPacket, VERSION, Value,
    ValueView,
};
use std::alloc::Global;
use up_base::{AttrName, Bytes, NoMemory, Text};

/// The longest name, in bytes: `NAME_SIZE` of `up_base`, which is private there.
const NAME_SIZE: u64 = 64;

/// The name of an attribute behind another, its value, and what is behind the attribute.
#[tactic(auto, unfolding(crate::specs::FrameFronts::attribute_at))]
fn attribute_at<'a>(
    bytes: &'a [u8],
    before: &[u8],
) -> Result<(&'a [u8], ValueView<'a>, &'a [u8]), NotWhole>
    ensures front { Finds (λ x. ((x.0.now, lent x.1), x.2.now)) result
        (attribute_at before.now bytes.now) }
    ensures name { IfOk result (λ x. is_name x.0.now ≡ true) }
{
    let (size, rest) = number_at(bytes, 1, 1, NAME_SIZE)?;
    let (name, rest) = name_at(rest, size as usize, before)?;
    let (type_, rest) = type_at(rest)?;
    let (value, rest) = value_at(rest, type_)?;
    Ok((name, value, rest))
}

/// The value that is lent, on memory of its own.
fn owned(alloc: Global, value: ValueView<'_>) -> Result<Value, NoMemory>
    ensures { IfOk result (λ own. own ≡ lent value.entry) }
{
    Ok(match value {
        ValueView::Void => Value::Void,
        ValueView::Flag(flag) => Value::Flag(flag),
        ValueView::Unsigned(number) => Value::Unsigned(number),
        ValueView::Words(text) => Value::Words(Text::from_str(alloc, text)?),
        ValueView::Opaque(bytes) => Value::Opaque(Bytes::from_slice(alloc, bytes)?),
    })
}

/// So many attributes.
fn attributes_at(
    alloc: Global,
    bytes: &[u8],
    count: u64,
) -> Result<Result<(Vec<(AttrName, Value)>, &[u8]), NotWhole>, NoMemory>
    ensures { IfOk result
        (λ found. Finds (λ x. (x.0.items, x.1.now)) found (attributes_at count [] bytes.now)) }
{
    let mut attrs = Vec::new(alloc);
    let mut before: &[u8] = &[];
    let mut rest = bytes;
    for _ in 0..count {
        let (name, value, behind) = match attribute_at(rest, before) {
            Ok(found) => found,
            Err(refused) => return Ok(Err(refused)),
        };
        attrs.push((AttrName::of(name), owned(alloc, value)?))?;
        before = name;
        rest = behind;
    }
    Ok(Ok((attrs, rest)))
}

/// A packet of so many attributes and bytes.
#[tactic(auto, unfolding(crate::specs::FrameFronts::content_at))]
fn content_at(
    alloc: Global,
    bytes: &[u8],
    count: u64,
    size: u64,
) -> Result<Result<(PlainPacket, &[u8]), NotWhole>, NoMemory>
    ensures { IfOk result
        (λ found. Finds (λ x. (x.0, x.1.now)) found (content_at count size bytes.now)) }
{
    let (attrs, rest) = match attributes_at(alloc, bytes, count)? {
        Ok(found) => found,
        Err(refused) => return Ok(Err(refused)),
    };
    let (content, rest) = match field(rest, size as usize) {
        Ok(found) => found,
        Err(refused) => return Ok(Err(refused)),
    };
    let packet = PlainPacket {
        attrs: PlainAttrs::in_order(attrs),
        bytes: Bytes::from_slice(alloc, content)?,
    };
    Ok(Ok((packet, rest)))
}

/// How many attributes and bytes the packet of a frame has, and what is behind its head.
#[tactic(auto, unfolding(crate::specs::FrameFronts::packet_at))]
fn head_at(bytes: &[u8]) -> Result<(u64, u64, &[u8]), NotWhole>
    ensures { FindsHead bytes.now result }
{
    let rest = byte_at(bytes, MARK)?;
    let rest = byte_at(rest, VERSION)?;
    let (count, rest) = number_at(rest, 2, 0, MAX_ATTRS as u64)?;
    let (size, rest) = number_at(rest, 4, 0, u64::from(MAX_PACKET))?;
    Ok((count, size, rest))
}

/// The packet of the frame at the front.
fn packet_at(
    alloc: Global,
    bytes: &[u8],
) -> Result<Result<(PlainPacket, &[u8]), NotWhole>, NoMemory>
    ensures { IfOk result (λ found. Finds (λ x. (x.0, x.1.now)) found (packet_at bytes.now)) }
{
    match head_at(bytes) {
        Ok((count, size, rest)) => content_at(alloc, rest, count, size),
        Err(refused) => Ok(Err(refused)),
    }
}

/// The packets of the whole frames at the front.
pub(crate) fn whole_frames(alloc: Global, bytes: &[u8]) -> Result<PacketList, NoMemory>
    ensures packets { IfOk result (λ packets. packets ≡ whole_frames bytes.now) }
    ensures legal { IfOk result (All IsLegal) }
{
    let mut packets = PacketList::new(alloc);
    let mut rest = bytes;
    while let Ok((packet, behind)) = packet_at(alloc, rest)? {
        packets.push(packet).map_err(|_| NoMemory)?;
        rest = behind;
    }
    Ok(packets)
}
