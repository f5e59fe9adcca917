// What the forms of sources and sinks make of bytes and packets.
ghost use Rattle.std.specs.Prelude.{◌≡◌, ◌+◌, ◌*◌, ◌<◌, ◌≤◌, length, true, false, All, IfOk};
ghost use Rattle.up_model.specs.Cutting.{piece, pieces};
ghost use Rattle.up_model.specs.Ends.{IsSourceForm, written_by};
ghost use Rattle.up_model.specs.Outcomes.{packets_of, settled_packets_of};
ghost use Rattle.up_model.specs.Packet.{IsLegal, joined};
ghost use Rattle.up_model.specs.declared.limits.TheConstants.{MAX_PACKET};

use crate::plain_frames::whole_frames;
use crate::plain_spelling::frames_of;
use crate::{PacketList, PlainPacket, SinkForm, SourceForm};
use std::alloc::Global;
use up_base::{Bytes, NoMemory};

/// The bytes from this multiple of the size up to the next, or to the end.
fn piece(bytes: &[u8], size: usize, place: usize) -> &[u8]
    requires { place * size ≤ length bytes.now }
    ensures { result.now ≡ piece size bytes.now place }
{
    let rest = &bytes[place * size..];
    &rest[..size.min(rest.len())]
}

/// The first pieces, each a packet.
fn pieces(alloc: Global, size: usize, bytes: &[u8], count: usize) -> Result<PacketList, NoMemory>
    requires within { count * size < length bytes.now + size }
    requires small { size ≤ MAX_PACKET }
    ensures pieces { IfOk result (λ packets. packets ≡ pieces size bytes.now count) }
    ensures legal { IfOk result (All IsLegal) }
{
    let mut packets = PacketList::new(alloc);
    for place in 0..count {
        let packet = PlainPacket::of_bytes(alloc, piece(bytes, size, place))?;
        packets.push(packet).map_err(|_| NoMemory)?;
    }
    Ok(packets)
}

/// The packets that bytes of the form hold, where these are all of them or where more may come.
pub(crate) fn form_packets(
    alloc: Global,
    form: SourceForm,
    bytes: &[u8],
    whole: bool,
) -> Result<PacketList, NoMemory>
    requires { IsSourceForm form }
    ensures whole { whole ≡ true → IfOk result (λ packets. packets ≡ packets_of form bytes.now) }
    ensures settled { whole ≡ false
        → IfOk result (λ packets. packets ≡ settled_packets_of form bytes.now) }
    ensures legal { IfOk result (All IsLegal) }
{
    match form {
        SourceForm::Raw { block } => {
            let size = block as usize;
            if whole {
                pieces(alloc, size, bytes, (bytes.len() + size - 1) / size)
            } else {
                pieces(alloc, size, bytes, bytes.len() / size)
            }
        }
        SourceForm::Framed => whole_frames(alloc, bytes),
    }
}

/// The bytes of the packets, one after the other.
fn joined(alloc: Global, flow: &PacketList) -> Result<Bytes, NoMemory>
    ensures { IfOk result (λ bytes. bytes ≡ joined flow.now) }
{
    let mut bytes = Bytes::new(alloc);
    for place in 0..flow.len() {
        bytes.append(flow.at(place).bytes.as_slice())?;
    }
    Ok(bytes)
}

/// The bytes that a sink of the form writes of a flow.
pub(crate) fn form_bytes(
    alloc: Global,
    form: SinkForm,
    flow: &PacketList,
) -> Result<Bytes, NoMemory>
    requires legal { All IsLegal flow.now }
    ensures { IfOk result (λ bytes. bytes ≡ written_by form flow.now) }
{
    match form {
        SinkForm::Raw => joined(alloc, flow),
        SinkForm::Framed => frames_of(alloc, flow),
    }
}
