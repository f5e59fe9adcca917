//! Packets that are made of the parts of their frames.
ghost use Rattle.std.specs.Prelude.{◌≡◌, ◌<◌, ◌≤◌, List, ℕ, [], length, IfOk, OnOk, Ok};
ghost use Rattle.std.specs.FinMap.{empty, from_sorted};
ghost use Rattle.up_frame.specs.Reading.{AreParts, ReadsAs, packet_with};
ghost use Rattle.up_model.specs.FrameFronts.{attributes_at};
ghost use Rattle.up_model.specs.declared.limits.TheConstants.{MAX_ATTRS};
ghost use Rattle.up_model.specs.declared.value.Value.{Value};
ghost use Rattle.up_shape.specs.Stores.{Stays};

use crate::frame_parts::FrameParts;
use crate::reading::attribute;
use up_base::{AttrName, NoMemory};
use up_shape::LocalPacket;

/// Gives a packet without attributes those of the parts of its frame.
fn set_attributes<P: LocalPacket>(packet: &mut P, parts: FrameParts<'_>) -> Result<(), NoMemory>
    requires none { (P.plain packet.old).attrs ≡ empty }
    requires parts { AreParts parts }
    ensures set { (list : List (List ℕ × Value)) (behind : List ℕ) → ReadsAs parts.entry list behind
        → OnOk result (P.plain packet.new ≡ record (P.plain packet.old) { attrs = from_sorted list }) }
    ensures family { (f : P.Store.Family) → P.fits packet.old f → P.fits packet.new f }
{
    let mut before: &[u8] = &[];
    let mut rest = parts.attrs;
    for _ in 0..parts.count {
        let Ok((name, value, after)) = attribute(rest, before) else {
            unreachable!()
        };
        packet.set_attr(&AttrName::of(name), value)?;
        before = name;
        rest = after;
    }
    Ok(())
}

/// The packet of which these parts are the frame.
pub(crate) fn packet_of<P: LocalPacket>(
    parts: FrameParts<'_>,
    s: &mut P::Store,
) -> Result<P, NoMemory>
    requires parts { AreParts parts }
    ensures plain { (list : List (List ℕ × Value)) (behind : List ℕ) → ReadsAs parts.entry list behind
        → IfOk result (λ p. P.plain p ≡ packet_with parts.entry list) }
    ensures family { IfOk result (λ p. P.fits p (P.Store.state s.old).family) }
    ensures drawn { OnOk result (0 < length parts.entry.content.now
        → (P.Store.state s.old).drawn < (P.Store.state s.new).drawn) }
    ensures store { Stays (P.Store.state s.old) (P.Store.state s.new) }
{
    let mut packet = P::fresh(parts.content, s)?;
    match set_attributes(&mut packet, parts) {
        Ok(()) => Ok(packet),
        Err(_) => {
            packet.give_up(s);
            Err(NoMemory)
        }
    }
}
