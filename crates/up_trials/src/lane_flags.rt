// Flags that packets are given on their way through a lane, so that a strand which loses
// attributes, or takes none away, is told from one that is right.
ghost use Rattle.std.specs.Prelude.{All};
ghost use Rattle.up_model.specs.Packet.{IsLegal};

use crate::split::Split;
use std::alloc::Global;
use std::process::Abort;
use up_base::AttrName;
use up_model::{MAX_ATTRS, PacketList, PlainPacket, Value, packets_stay_legal};

/// Gives the packet a flag of this name.
fn add_flag(rt: &impl Abort, packet: &mut PlainPacket, name: &str)
    ensures { IsLegal packet.old → IsLegal packet.new }
{
    let name = AttrName::read(name.as_bytes()).expect(rt, "no name");
    packets_stay_legal();
    assert!(rt; !name.bytes().is_empty());
    assert!(rt; packet.attrs.len() < MAX_ATTRS);
    match packet.attrs.set(name, Value::Flag(true)) {
        Ok(_) => {}
        Err(_) => panic!(rt; "no memory"),
    }
}

/// The packet at a place of a lane's flow, counted from 0, as it comes out of the lane: of every
/// two the first has the flags `key` and `pts`.
pub(crate) fn flagged(rt: &impl Abort, alloc: Global, packet: &PlainPacket, k: usize) -> PlainPacket
    ensures { IsLegal packet.now → IsLegal result }
{
    let mut copy = packet.copy(alloc).expect(rt, "no memory");
    if k % 2 == 0 {
        add_flag(rt, &mut copy, "key");
        add_flag(rt, &mut copy, "pts");
    }
    copy
}

/// The flow as it comes out of a lane.
fn flagged_flow(rt: &impl Abort, alloc: Global, flow: &PacketList) -> PacketList
    requires { All IsLegal flow.now }
    ensures { All IsLegal result }
{
    let mut came = PacketList::new(alloc);
    for k in 0..flow.len() {
        let packet = flagged(rt, alloc, flow.at(k), k);
        match came.push(packet) {
            Ok(()) => {}
            Err(_) => panic!(rt; "no memory"),
        }
    }
    came
}

/// What the pipe at a place takes of what its input puts out.
pub(crate) fn come_to(
    rt: &impl Abort,
    alloc: Global,
    split: &Split,
    place: usize,
    sent: PacketList,
) -> PacketList
    requires { All IsLegal sent }
    ensures { All IsLegal result }
{
    if split.is_head(place) {
        return flagged_flow(rt, alloc, &sent);
    }
    sent
}
