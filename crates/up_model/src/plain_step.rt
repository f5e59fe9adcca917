// Kinds that look at each packet by itself, packet by packet.
ghost use Rattle.std.specs.Prelude.{◌≡◌, ◌++◌, IfOk, OnOk};
ghost use Rattle.std.specs.Option.{option_to_list};
ghost use Rattle.up_model.specs.Packetwise.{Step, passed, put_of};

use crate::{PacketList, PlainPacket, Verdict};
use std::alloc::Global;
use up_base::NoMemory;

/// What such a kind does with a packet.
pub(crate) trait PlainStep {
    ghost step: { Self → Step };

    fn verdict(&self, alloc: Global, packet: &PlainPacket) -> Result<Verdict<PlainPacket>, NoMemory>
        ensures { IfOk result (λ verdict. verdict ≡ step self.now packet.now) };
}

/// Adds a packet that passes.
fn put_out(put: &mut PacketList, verdict: Verdict<PlainPacket>) -> Result<(), NoMemory>
    ensures { OnOk result (put.new ≡ put.old ++ option_to_list (put_of verdict)) }
{
    match verdict {
        Verdict::Passes { packet, cut: _ } => put.push(packet).map_err(|_| NoMemory),
        Verdict::Drops => Ok(()),
    }
}

/// The packets that pass.
pub(crate) fn passed<S: PlainStep>(
    alloc: Global,
    step: &S,
    flow: &PacketList,
) -> Result<PacketList, NoMemory>
    ensures { IfOk result (λ put. put ≡ passed (S.step step.now) flow.now) }
{
    let mut put = PacketList::new(alloc);
    for place in 0..flow.len() {
        put_out(&mut put, step.verdict(alloc, flow.at(place))?)?;
    }
    Ok(put)
}
