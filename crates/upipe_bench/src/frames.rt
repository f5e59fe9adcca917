//! Frames of one packet, as often as is wanted.
ghost use Rattle.std.specs.Prelude.{◌≡◌, ◌≤◌, replicate, length, IfOk, OnOk};
ghost use Rattle.up_model.specs.FrameSpelling.{frames_of};
ghost use Rattle.up_model.specs.Packet.{IsLegal};
ghost use Rattle.up_model.specs.declared.limits.TheConstants.{MAX_VALUE};
ghost use Rattle.up_shape.specs.VecPackets.{plain_of};

use crate::not_measured::NotMeasured;
use std::alloc::Global;
use up_base::{AttrName, Bytes, NoMemory};
use up_frame::write_frame;
use up_model::{MAX_ATTRS, MAX_PACKET, MAX_VALUE, ValueView, packets_stay_legal};
use up_shape::{LocalPacket, VecPacket, VecStore};

/// A name of a letter and a digit: another one for each number below 64.
fn name_of(number: u8) -> Result<AttrName, NotMeasured> {
    match AttrName::read(&[b'a' + number / 8 % 8, b'0' + number % 8]) {
        Ok(name) => Ok(name),
        Err(_) => Err(NotMeasured::NoPacket),
    }
}

/// Gives the packet one attribute more.
fn set_attr(packet: &mut VecPacket, number: u8, value: &[u8]) -> Result<(), NotMeasured>
    requires legal { IsLegal (plain_of packet.old) }
    requires size { length value.now ≤ MAX_VALUE }
    ensures { OnOk result (IsLegal (plain_of packet.new)) }
{
    packets_stay_legal();
    let name = name_of(number)?;
    if name.bytes().is_empty() || MAX_ATTRS <= packet.attr_count() {
        return Err(NotMeasured::NoPacket);
    }
    packet.set_attr(&name, ValueView::Opaque(value))?;
    Ok(())
}

/// A packet of so many bytes with so many attributes, each of a value of so many bytes.
#[derive(Clone, Copy, Debug)]
pub(crate) struct Sizes {
    pub attrs: u8,
    pub value: usize,
    pub bytes: usize,
}

/// The byte, so often.
fn filled(alloc: Global, byte: u8, size: usize) -> Result<Vec<u8>, NoMemory>
    ensures { IfOk result (λ bytes. length bytes.items ≡ size) }
{
    Ok(vec![in alloc; byte; size]?)
}

/// A packet of these sizes.
pub(crate) fn packet_of(alloc: Global, sizes: Sizes) -> Result<VecPacket, NotMeasured>
    ensures { IfOk result (λ packet. IsLegal (plain_of packet)) }
{
    packets_stay_legal();
    if MAX_VALUE < sizes.value || (MAX_PACKET as usize) < sizes.bytes {
        return Err(NotMeasured::NoPacket);
    }
    let value = filled(alloc, 8, sizes.value)?;
    let bytes = filled(alloc, 7, sizes.bytes)?;
    let mut packet = VecPacket::fresh(&bytes, &mut VecStore::new(alloc))?;
    for number in 0..sizes.attrs {
        set_attr(&mut packet, number, &value)?;
    }
    Ok(packet)
}

/// The frame of the packet, so often.
pub(crate) fn frames(alloc: Global, packet: &VecPacket, count: u32) -> Result<Bytes, NotMeasured>
    requires { IsLegal (plain_of packet.now) }
    ensures { IfOk result (λ bytes. bytes ≡ frames_of (replicate count (plain_of packet.now))) }
{
    let mut out = Bytes::new(alloc);
    for _ in 0..count {
        write_frame(packet, &mut out)?;
    }
    Ok(out)
}
