// Whole flows, fed to a module.
ghost use Rattle.std.specs.Prelude.{◌≡◌, ◌≤◌, ◌++◌, ◌∷◌, ◌⊎◌, [], All, length, map, OnOk, OnErr, IsErr};
ghost use Rattle.up_model.specs.Kinds.{work_of, settled_work};
ghost use Rattle.up_model.specs.Packet.{Flow, IsLegal, plain};
ghost use Rattle.up_model.specs.Work.{no_work};
ghost use Rattle.up_model.specs.declared.limits.TheConstants.{MAX_PACKET};
ghost use Rattle.up_shape.specs.Growth.{AreOf, Grew, GrewInPart};
ghost use Rattle.up_shape.specs.Stores.{Stays};

use crate::{LocalPacket, Module, Outbox};
use up_base::{ItemList, NoMemory};

/// Gives up all packets.
pub fn give_up_all<P: LocalPacket>(mut packets: ItemList<P>, s: &mut P::Store)
    requires family { All (λ p. P.fits p (P.Store.state s.old).family) packets }
    ensures store { Stays (P.Store.state s.old) (P.Store.state s.new) }
{
    while let Some(p) = packets.next() {
        p.give_up(s);
    }
    packets.end();
}

/// Feeds the packets to the module, in order. After `NoMemory` those that weren't fed are given up, and the module is
/// one to be given up.
pub fn feed_all<P: LocalPacket, M: Module<P>>(
    m: &mut M,
    mut flow: ItemList<P>,
    out: &mut Outbox<P>,
    s: &mut P::Store,
) -> Result<(), NoMemory>
    requires legal { All (λ p. IsLegal (P.plain p)) flow }
    requires packets { All (λ p. P.fits p (P.Store.state s.old).family) flow }
    requires family { AreOf P.fits (M.agrees m.old) out.old.packets (P.Store.state s.old).family }
    ensures stands { (fed : Flow) → M.stands m.old fed
        → OnOk result (M.stands m.new (fed ++ map P.plain flow)) }
    ensures grew { (fed : Flow) → M.stands m.old fed
        → OnOk result (Grew P.plain out.old out.new (settled_work (M.kind m.old) fed)
        (settled_work (M.kind m.old) (fed ++ map P.plain flow))) }
    ensures in_part { (fed : Flow) → M.stands m.old fed
        → OnErr result (GrewInPart P.plain out.old out.new (settled_work (M.kind m.old) fed)
        (settled_work (M.kind m.old) (fed ++ map P.plain flow))) }
    ensures used { OnErr result (M.stands m.new [] → ⊥) }
    ensures kind { M.kind m.new ≡ M.kind m.old }
    ensures family { AreOf P.fits (M.agrees m.new) out.new.packets (P.Store.state s.old).family }
    ensures store { Stays (P.Store.state s.old) (P.Store.state s.new) }
{
    while let Some(p) = flow.next() {
        match m.feed(p, out, s) {
            Ok(()) => {}
            Err(NoMemory) => {
                give_up_all(flow, s);
                return Err(NoMemory);
            }
        }
    }
    flow.end();
    Ok(())
}

/// Makes a packet of these bytes, at most `MAX_PACKET`, and feeds it. After `NoMemory` the module is one to be given up,
/// also where nothing was fed.
pub fn feed_bytes<P: LocalPacket, M: Module<P>>(
    m: &mut M,
    bytes: &[u8],
    out: &mut Outbox<P>,
    s: &mut P::Store,
) -> Result<(), NoMemory>
    requires size { length bytes.now ≤ MAX_PACKET }
    requires family { AreOf P.fits (M.agrees m.old) out.old.packets (P.Store.state s.old).family }
    ensures stands { (fed : Flow) → M.stands m.old fed
        → OnOk result (M.stands m.new (fed ++ plain bytes.now ∷ [])) }
    ensures grew { (fed : Flow) → M.stands m.old fed
        → OnOk result (Grew P.plain out.old out.new (settled_work (M.kind m.old) fed)
        (settled_work (M.kind m.old) (fed ++ plain bytes.now ∷ []))) }
    ensures in_part { (fed : Flow) → M.stands m.old fed
        → OnErr result (GrewInPart P.plain out.old out.new (settled_work (M.kind m.old) fed)
        (settled_work (M.kind m.old) (fed ++ plain bytes.now ∷ []))) }
    ensures used { (M.stands m.new [] → ⊥)
        ⊎ (IsErr result × (m.new ≡ m.old) × (out.new ≡ out.old)) }
    ensures kind { M.kind m.new ≡ M.kind m.old }
    ensures family { AreOf P.fits (M.agrees m.new) out.new.packets (P.Store.state s.old).family }
    ensures store { Stays (P.Store.state s.old) (P.Store.state s.new) }
{
    match P::fresh(bytes, s) {
        Ok(p) => m.feed(p, out, s),
        Err(NoMemory) => Err(NoMemory),
    }
}

/// Feeds a whole flow to a module that was fed nothing, and ends it: what comes into the outbox is the work of its kind
/// on this flow, from nothing. After `NoMemory` it is a first part of that, and what wasn't put out is given up.
pub fn run_flow<P: LocalPacket, M: Module<P>>(
    mut m: M,
    flow: ItemList<P>,
    out: &mut Outbox<P>,
    s: &mut P::Store,
) -> Result<(), NoMemory>
    requires fresh { M.stands m [] }
    requires legal { All (λ p. IsLegal (P.plain p)) flow }
    requires packets { All (λ p. P.fits p (P.Store.state s.old).family) flow }
    requires family { All (λ p. P.fits p (P.Store.state s.old).family) out.old.packets }
    ensures grew { OnOk result (Grew P.plain out.old out.new
        no_work (work_of (M.kind m) (map P.plain flow))) }
    ensures in_part { OnErr result (GrewInPart P.plain out.old out.new
        no_work (work_of (M.kind m) (map P.plain flow))) }
    ensures family { All (λ p. P.fits p (P.Store.state s.old).family) out.new.packets }
    ensures store { Stays (P.Store.state s.old) (P.Store.state s.new) }
{
    match feed_all(&mut m, flow, out, s) {
        Ok(()) => m.finish(out, s),
        Err(NoMemory) => {
            m.give_up(s);
            Err(NoMemory)
        }
    }
}
