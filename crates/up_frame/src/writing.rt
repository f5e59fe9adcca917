//! The spelling of a packet as a frame.
ghost use Rattle.std.specs.Prelude.{◌≡◌, ◌<◌, ◌≤◌, ◌^◌, ◌++◌, ◌∷◌, length, OnOk, OnErr, All};
ghost use Rattle.std.specs.FinMap.{entries, values};
ghost use Rattle.std.specs.List.{flat_map};
ghost use Rattle.up_base.specs.Number.{big_endian_bytes};
ghost use Rattle.up_frame.specs.Writing.{AddsPart};
ghost use Rattle.up_model.specs.FrameSpelling.{attribute_bytes, frame_of, head_bytes};
ghost use Rattle.up_model.specs.FrameSpelling.{named, sized, typed};
ghost use Rattle.up_model.specs.Packet.{IsLegal};
ghost use Rattle.up_model.specs.Value.{lent, IsLegalValue};
ghost use Rattle.up_model.specs.ValueTypes.{number_of};

use up_base::{AttrName, Bytes, NoMemory};
use up_model::{MARK, VERSION, ValueType, ValueView};
use up_shape::LocalPacket;

/// Adds the mark, the version, and how many attributes and bytes there are.
fn put_head(count: u16, size: u32, out: &mut Bytes) -> Result<(), NoMemory>
    ensures added { OnOk result (out.new ≡ out.old ++ head_bytes count size) }
    ensures unchanged { OnErr result (out.new ≡ out.old) }
{
    let count = count.to_be_bytes();
    let size = size.to_be_bytes();
    out.append(&[
        MARK, VERSION, count[0], count[1], size[0], size[1], size[2], size[3],
    ])
}

/// Adds a name behind its length.
fn put_name(name: &AttrName, out: &mut Bytes) -> Result<(), NoMemory>
    ensures added { OnOk result (out.new ≡ out.old ++ named name.now) }
    ensures part { OnErr result (AddsPart out.old out.new (named name.now)) }
{
    let bytes = name.bytes();
    out.push(bytes.len() as u8)?;
    out.append(bytes)
}

/// Adds the number of a type, and the length of a value.
fn put_front(type_: ValueType, size: u32, out: &mut Bytes) -> Result<(), NoMemory>
    ensures added { OnOk result
        (out.new ≡ out.old ++ number_of type_ ∷ big_endian_bytes 4 size) }
    ensures unchanged { OnErr result (out.new ≡ out.old) }
{
    let size = size.to_be_bytes();
    out.append(&[type_.number(), size[0], size[1], size[2], size[3]])
}

/// Adds the number of a type, and bytes behind their length.
fn put_sized(type_: ValueType, bytes: &[u8], out: &mut Bytes) -> Result<(), NoMemory>
    requires { length bytes.now < 2 ^ 32 }
    ensures added { OnOk result (out.new ≡ out.old ++ number_of type_ ∷ sized bytes.now) }
    ensures part { OnErr result (AddsPart out.old out.new (number_of type_ ∷ sized bytes.now)) }
{
    put_front(type_, bytes.len() as u32, out)?;
    out.append(bytes)
}

/// Adds a value behind its type and its length.
fn put_value(value: ValueView<'_>, out: &mut Bytes) -> Result<(), NoMemory>
    requires { IsLegalValue (lent value) }
    ensures added { OnOk result (out.new ≡ out.old ++ typed (lent value.entry)) }
    ensures part { OnErr result (AddsPart out.old out.new (typed (lent value.entry))) }
{
    match value {
        ValueView::Void => put_sized(ValueType::Void, &[], out),
        ValueView::Flag(flag) => put_sized(ValueType::Flag, &[u8::from(flag)], out),
        ValueView::Unsigned(number) => {
            put_sized(ValueType::Unsigned, &number.to_be_bytes(), out)
        }
        ValueView::Words(text) => put_sized(ValueType::Words, text.as_bytes(), out),
        ValueView::Opaque(bytes) => put_sized(ValueType::Opaque, bytes, out),
    }
}

/// Adds an attribute: its name and its value.
fn put_attribute(name: &AttrName, value: ValueView<'_>, out: &mut Bytes) -> Result<(), NoMemory>
    requires { IsLegalValue (lent value) }
    ensures added { OnOk result
        (out.new ≡ out.old ++ attribute_bytes (name.now, lent value.entry)) }
    ensures part { OnErr result
        (AddsPart out.old out.new (attribute_bytes (name.now, lent value.entry))) }
{
    put_name(name, out)?;
    put_value(value, out)
}

/// Adds the attributes of a packet, in the order of their names.
fn put_attributes<P: LocalPacket>(p: &P, out: &mut Bytes) -> Result<(), NoMemory>
    requires { All IsLegalValue (values (P.plain p.now).attrs) }
    ensures added { OnOk result
        (out.new ≡ out.old ++ flat_map attribute_bytes (entries (P.plain p.now).attrs)) }
    ensures part { OnErr result
        (AddsPart out.old out.new (flat_map attribute_bytes (entries (P.plain p.now).attrs))) }
{
    for i in 0..p.attr_count() {
        let (name, value) = p.attr_at(i);
        put_attribute(&name, value, out)?;
    }
    Ok(())
}

/// Adds the bytes of a packet from where they lie, a run at a time.
fn put_bytes<P: LocalPacket>(p: &P, out: &mut Bytes) -> Result<(), NoMemory>
    ensures added { OnOk result (out.new ≡ out.old ++ (P.plain p.now).bytes) }
    ensures part { OnErr result (AddsPart out.old out.new (P.plain p.now).bytes) }
{
    let size = p.size();
    let mut at = 0;
    while at < size {
        let run = p.bytes_at(at);
        out.append(run)?;
        at += run.len() as u32;
    }
    Ok(())
}

/// Adds the frame of a packet, the one spelling of it. After `NoMemory` a first part of the frame
/// stands behind what `out` held, so the caller gives `out` up or remembers where the frame begins.
pub fn write_frame<P: LocalPacket>(p: &P, out: &mut Bytes) -> Result<(), NoMemory>
    requires { IsLegal (P.plain p.now) }
    ensures added { OnOk result (out.new ≡ out.old ++ frame_of (P.plain p.now)) }
    ensures part { OnErr result (AddsPart out.old out.new (frame_of (P.plain p.now))) }
{
    put_head(p.attr_count() as u16, p.size(), out)?;
    put_attributes(p, out)?;
    put_bytes(p, out)
}
