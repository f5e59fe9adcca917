// The slow meaning of packets as frames: each part behind the one before it, as it is defined.
ghost use Rattle.std.specs.Prelude.{◌≡◌, ◌<◌, ◌^◌, ◌++◌, ◌∷◌, length, OnOk, IfOk, All};
ghost use Rattle.std.specs.FinMap.{entries, values};
ghost use Rattle.std.specs.List.{flat_map};
ghost use Rattle.up_model.specs.FrameSpelling.{
  attribute_bytes,
  frame_of,
  frames_of,
  head_bytes,
  named,
  sized,
  typed,
};
ghost use Rattle.up_model.specs.Packet.{IsLegal};
ghost use Rattle.up_model.specs.Value.{lent, IsLegalValue};
ghost use Rattle.up_model.specs.ValueTypes.{number_of};

use crate::{MARK, PacketList, PlainAttrs, PlainPacket, VERSION, ValueType, ValueView};
use std::alloc::Global;
use up_base::{AttrName, Bytes, NoMemory};

/// Adds the mark, the version, and how many attributes and bytes there are.
fn put_head(count: u16, size: u32, out: &mut Bytes) -> Result<(), NoMemory>
    ensures { OnOk result (out.new ≡ out.old ++ head_bytes count size) }
{
    let count = count.to_be_bytes();
    let size = size.to_be_bytes();
    out.append(&[
        MARK, VERSION, count[0], count[1], size[0], size[1], size[2], size[3],
    ])
}

/// Adds a name behind its length.
fn put_name(name: &AttrName, out: &mut Bytes) -> Result<(), NoMemory>
    ensures { OnOk result (out.new ≡ out.old ++ named name.now) }
{
    let bytes = name.bytes();
    out.push(bytes.len() as u8)?;
    out.append(bytes)
}

/// Adds the number of a type, and bytes behind their length.
fn put_sized(type_: ValueType, bytes: &[u8], out: &mut Bytes) -> Result<(), NoMemory>
    requires { length bytes.now < 2 ^ 32 }
    ensures { OnOk result (out.new ≡ out.old ++ number_of type_ ∷ sized bytes.now) }
{
    let size = (bytes.len() as u32).to_be_bytes();
    out.append(&[type_.number(), size[0], size[1], size[2], size[3]])?;
    out.append(bytes)
}

/// Adds a value behind its type and its length.
fn put_value(value: ValueView<'_>, out: &mut Bytes) -> Result<(), NoMemory>
    requires { IsLegalValue (lent value) }
    ensures { OnOk result (out.new ≡ out.old ++ typed (lent value.entry)) }
{
    match value {
        ValueView::Void => put_sized(ValueType::Void, &[], out),
        ValueView::Flag(flag) => put_sized(ValueType::Flag, &[u8::from(flag)], out),
        ValueView::Unsigned(number) => {
            put_sized(ValueType::Unsigned, &number.to_be_bytes(), out)
        }
        ValueView::Words(text) => put_sized(ValueType::Words, text.as_bytes(), out),
        ValueView::Opaque(bytes) => put_sized(ValueType::Opaque, bytes, out),
    }
}

/// Adds an attribute: its name and its value.
fn put_attribute(name: &AttrName, value: ValueView<'_>, out: &mut Bytes) -> Result<(), NoMemory>
    requires { IsLegalValue (lent value) }
    ensures { OnOk result (out.new ≡ out.old ++ attribute_bytes (name.now, lent value.entry)) }
{
    put_name(name, out)?;
    put_value(value, out)
}

/// Adds attributes, in the order of their names.
fn put_attributes(attrs: &PlainAttrs, out: &mut Bytes) -> Result<(), NoMemory>
    requires { All IsLegalValue (values attrs.now) }
    ensures { OnOk result (out.new ≡ out.old ++ flat_map attribute_bytes (entries attrs.now)) }
{
    for place in 0..attrs.len() {
        let (name, value) = attrs.at(place);
        put_attribute(&name, value, out)?;
    }
    Ok(())
}

/// Adds the frame of a packet.
fn put_frame(packet: &PlainPacket, out: &mut Bytes) -> Result<(), NoMemory>
    requires { IsLegal packet.now }
    ensures { OnOk result (out.new ≡ out.old ++ frame_of packet.now) }
{
    let bytes = packet.bytes.as_slice();
    put_head(packet.attrs.len() as u16, bytes.len() as u32, out)?;
    put_attributes(&packet.attrs, out)?;
    out.append(bytes)
}

/// The frames of the packets, one after the other.
pub(crate) fn frames_of(alloc: Global, flow: &PacketList) -> Result<Bytes, NoMemory>
    requires legal { All IsLegal flow.now }
    ensures { IfOk result (λ bytes. bytes ≡ frames_of flow.now) }
{
    let mut bytes = Bytes::new(alloc);
    for place in 0..flow.len() {
        put_frame(flow.at(place), &mut bytes)?;
    }
    Ok(bytes)
}
