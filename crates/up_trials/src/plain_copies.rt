// Packets and the plain packets that they stand for.
ghost use Rattle.std.specs.Prelude.{◌≡◌, IsTrue};
ghost use Rattle.up_model.specs.Packet.{IsLegal};
ghost use Rattle.up_model.specs.Value.{IsLegalValue, lent};

use crate::run::packet_of;
use std::alloc::Global;
use std::process::Abort;
use up_base::{AttrName, Bytes, NoMemory, Text};
use up_model::{MAX_ATTRS, PlainAttrs, PlainPacket, Value, ValueView, packets_stay_legal};
use up_shape::LocalPacket;

/// A plain packet of these bytes, without attributes.
pub(crate) fn bare(rt: &impl Abort, alloc: Global, bytes: &[u8]) -> PlainPacket {
    PlainPacket {
        attrs: PlainAttrs::new(alloc),
        bytes: Bytes::from_slice(alloc, bytes).expect(rt, "no memory"),
    }
}

fn owned(rt: &impl Abort, alloc: Global, value: ValueView<'_>) -> Value {
    match value {
        ValueView::Void => Value::Void,
        ValueView::Flag(flag) => Value::Flag(flag),
        ValueView::Unsigned(number) => Value::Unsigned(number),
        ValueView::Words(text) => {
            Value::Words(Text::from_str(alloc, text).expect(rt, "no memory"))
        }
        ValueView::Opaque(bytes) => {
            Value::Opaque(Bytes::from_slice(alloc, bytes).expect(rt, "no memory"))
        }
    }
}

/// The bytes of a packet.
fn bytes_of<P: LocalPacket>(rt: &impl Abort, alloc: Global, p: &P) -> Vec<u8> {
    let mut bytes = vec![in alloc; 0; p.size() as usize].expect(rt, "no memory");
    p.read(0, &mut bytes);
    bytes
}

/// The plain packet that a packet stands for, as its calls tell it.
pub(crate) fn plain_copy<P: LocalPacket>(rt: &impl Abort, alloc: Global, p: &P) -> PlainPacket {
    let mut plain = bare(rt, alloc, &bytes_of(rt, alloc, p));
    for i in 0..p.attr_count() {
        let (name, value) = p.attr_at(i);
        let value = owned(rt, alloc, value);
        assert!(rt; plain.attrs.set(name, value).is_ok());
    }
    plain
}

/// Whether the value is a flag or a number, which are legal whatever they are.
fn is_flag_or_number(value: ValueView<'_>) -> bool
    ensures { IsTrue result → IsLegalValue (lent value.entry) }
{
    matches!(value, ValueView::Flag(_) | ValueView::Unsigned(_))
}

/// Gives the packet this attribute, which is a flag or a number.
pub(crate) fn give_attr<P: LocalPacket>(
    rt: &impl Abort,
    p: &mut P,
    name: &AttrName,
    value: ValueView<'_>,
)
    requires legal { IsLegal (P.plain p.old) }
    ensures legal { IsLegal (P.plain p.new) }
    ensures family { (f : P.Store.Family) → P.fits p.old f → P.fits p.new f }
{
    assert!(rt; is_flag_or_number(value), "{value:?}");
    packets_stay_legal();
    assert!(rt; !name.bytes().is_empty());
    assert!(rt; p.attr_count() < MAX_ATTRS);
    match p.set_attr(name, value) {
        Ok(()) => {}
        Err(NoMemory) => panic!(rt; "no memory"),
    }
}

/// A packet that stands for this plain one, whose attributes are flags and numbers.
pub(crate) fn packet_like<P: LocalPacket>(
    rt: &impl Abort,
    plain: &PlainPacket,
    s: &mut P::Store,
) -> P
    ensures legal { IsLegal (P.plain result) }
    ensures packet { P.fits result (P.Store.state s.old).family }
    ensures family { (P.Store.state s.new).family ≡ (P.Store.state s.old).family }
{
    let mut p = packet_of::<P>(rt, plain.bytes.as_slice(), s);
    for i in 0..plain.attrs.len() {
        let (name, value) = plain.attrs.at(i);
        give_attr(rt, &mut p, &name, value);
    }
    p
}

fn is_same_value(one: ValueView<'_>, other: ValueView<'_>) -> bool {
    match (one, other) {
        (ValueView::Void, ValueView::Void) => true,
        (ValueView::Flag(flag), ValueView::Flag(same)) => flag == same,
        (ValueView::Unsigned(number), ValueView::Unsigned(same)) => number == same,
        (ValueView::Words(text), ValueView::Words(same)) => text == same,
        (ValueView::Opaque(bytes), ValueView::Opaque(same)) => bytes == same,
        _ => false,
    }
}

fn are_same_attrs(one: &PlainAttrs, other: &PlainAttrs) -> bool {
    if one.len() != other.len() {
        return false;
    }
    for i in 0..one.len() {
        let ((name, value), (same, other)) = (one.at(i), other.at(i));
        if name.bytes() != same.bytes() || !is_same_value(value, other) {
            return false;
        }
    }
    true
}

/// Whether the two have the same attributes and bytes.
pub(crate) fn is_same(one: &PlainPacket, other: &PlainPacket) -> bool {
    one.bytes.as_slice() == other.bytes.as_slice() && are_same_attrs(&one.attrs, &other.attrs)
}
