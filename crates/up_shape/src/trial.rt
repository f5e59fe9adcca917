// Modules, tried with packets of vectors: a test of a kind is a table of trials and one loop.
ghost use Rattle.std.specs.Prelude.{◌≡◌, ◌++◌, ◌==◌, ◌&&◌, nat_le, [], ◌∷◌, All, map, length, IfOk, OnOk, IsTrue};
ghost use Rattle.std.specs.FinMap as attrs;
ghost use Rattle.up_model.specs.Packet.{IsLegal, plain};
ghost use Rattle.up_shape.specs.Trials.{kind_with, plain_flow, all_bytes, copies, IsWorkOf};
ghost use Rattle.up_shape.specs.VecPackets.{plain_of};
ghost use Rattle.up_shape.specs.declared.trial.Untried.TheVariants.{NoMemory as OutOfMemory};

use crate::{Command, ControlRefused, LocalPacket, Module, Outbox, VecPacket, VecStore, run_flow};
use std::alloc::Global;
use up_base::{ItemList, NoMemory};
use up_model::{MAX_PACKET, Opt, Tally};

/// What a module is tried with, and what is to come of it.
#[derive(Clone, Copy, Debug)]
pub struct Trial<'a> {
    /// Options that are set before the flow, in order.
    pub set: &'a [(Opt, i128)],
    /// The bytes of each packet that it takes. None has an attribute.
    pub taken: &'a [&'a [u8]],
    /// The bytes of each packet that it is to put out.
    pub put: &'a [&'a [u8]],
    /// What it is to count.
    pub sums: Tally,
}

/// What came of a trial.
#[derive(Debug, PartialEq, Eq, Drop)]
pub struct Came {
    /// The bytes of each packet that was put out.
    pub put: Vec<Vec<u8>>,
    /// What was counted.
    pub sums: Tally,
}

/// Why nothing came of a trial.
#[derive(Clone, Copy, Debug, PartialEq, Eq)]
pub enum Untried {
    NoMemory,
    /// The packet at this place, counted from 0, has more than `MAX_PACKET` bytes.
    TooLong(usize),
    Refused(ControlRefused),
}

impl From<NoMemory> for Untried {
    ghost from_gives = { λ _ untried. untried ≡ OutOfMemory };

    fn from(_no_memory: NoMemory) -> Untried {
        Untried::NoMemory
    }
}

impl Trial<'_> {
    /// What is to come of it.
    pub fn wanted(&self, alloc: Global) -> Result<Came, Untried>
        ensures put { IfOk result (λ came. copies came.put ≡ all_bytes self.now.put.now) }
        ensures sums { IfOk result (λ came. came.sums ≡ self.now.sums) }
    {
        let mut put = Vec::new(alloc);
        for bytes in self.put {
            push_copy(alloc, &mut put, bytes)?;
        }
        Ok(Came {
            put,
            sums: self.sums,
        })
    }
}

/// Sets the options of a module that was fed nothing, feeds it the packets, and ends the flow whole.
pub fn tried<M: Module<VecPacket>>(
    alloc: Global,
    mut m: M,
    trial: &Trial<'_>,
) -> Result<Came, Untried>
    requires fresh { M.stands m [] }
    ensures came { IfOk result
        (IsWorkOf (kind_with trial.now.set.now (M.kind m)) (all_bytes trial.now.taken.now)) }
{
    let s = &mut VecStore::new(alloc);
    match set_all(&mut m, trial.set) {
        Ok(()) => {}
        Err(refused) => {
            m.give_up(s);
            return Err(Untried::Refused(refused));
        }
    }
    let flow = match flow_of(alloc, trial.taken, s) {
        Ok(flow) => flow,
        Err(untried) => {
            m.give_up(s);
            return Err(untried);
        }
    };
    let mut out = Outbox::new(alloc);
    match run_flow(m, flow, &mut out, s) {
        Ok(()) => came_of(alloc, out),
        Err(NoMemory) => {
            give_up_outbox(out);
            Err(Untried::NoMemory)
        }
    }
}

/// Whether the packet has no attribute and at most `MAX_PACKET` bytes, so that it is legal.
pub fn is_bare<P: LocalPacket>(p: &P) -> bool
    ensures bare { result ≡ (attrs.len (P.plain p.now).attrs == 0
        && nat_le (length (P.plain p.now).bytes) MAX_PACKET) }
    ensures legal { IsTrue result → IsLegal (P.plain p.now) }
{
    p.attr_count() == 0 && p.size() <= MAX_PACKET
}

/// Sets the options, in order.
fn set_all<M: Module<VecPacket>>(m: &mut M, options: &[(Opt, i128)]) -> Result<(), ControlRefused>
    requires fresh { M.stands m.old [] }
    ensures fresh { M.stands m.new [] }
    ensures kind { OnOk result (M.kind m.new ≡ kind_with options.now (M.kind m.old)) }
{
    for option in options {
        m.control(Command::Set(option.0, option.1))?;
    }
    Ok(())
}

/// Packets of these bytes.
fn flow_of(alloc: Global, taken: &[&[u8]], s: &mut VecStore) -> Result<ItemList<VecPacket>, Untried>
    ensures legal { IfOk result (λ flow. All (λ p. IsLegal (plain_of p)) flow) }
    ensures flow { IfOk result (λ flow. map plain_of flow ≡ plain_flow (all_bytes taken.now)) }
{
    let mut flow = ItemList::new(alloc);
    for bytes in taken {
        push_packet(&mut flow, bytes, s)?;
    }
    Ok(flow)
}

/// Adds a packet of these bytes.
fn push_packet(
    flow: &mut ItemList<VecPacket>,
    bytes: &[u8],
    s: &mut VecStore,
) -> Result<(), Untried>
    requires legal { All (λ p. IsLegal (plain_of p)) flow.old }
    ensures added { OnOk result
        (map plain_of flow.new ≡ map plain_of flow.old ++ plain bytes.now ∷ []) }
    ensures legal { All (λ p. IsLegal (plain_of p)) flow.new }
{
    if bytes.len() > MAX_PACKET as usize {
        return Err(Untried::TooLong(flow.len()));
    }
    let packet = VecPacket::fresh(bytes, s)?;
    match flow.push(packet) {
        Ok(()) => {}
        Err(_) => return Err(Untried::NoMemory),
    }
    Ok(())
}

/// Adds a copy of these bytes.
fn push_copy(alloc: Global, put: &mut Vec<Vec<u8>>, bytes: &[u8]) -> Result<(), NoMemory>
    ensures { OnOk result (copies put.new ≡ copies put.old ++ bytes.now ∷ []) }
{
    put.push(Vec::from_slice(alloc, bytes)?)?;
    Ok(())
}

/// The bytes of the packets in the outbox, and its sums. The outbox is given up.
fn came_of(alloc: Global, mut out: Outbox<VecPacket>) -> Result<Came, Untried>
    ensures put { IfOk result
        (λ came. copies came.put ≡ map (λ p. (plain_of p).bytes) out.packets) }
    ensures sums { IfOk result (λ came. came.sums ≡ out.tally) }
{
    let sums = out.tally();
    let mut put = Vec::new(alloc);
    while let Some(packet) = out.next() {
        match push_copy(alloc, &mut put, packet.bytes()) {
            Ok(()) => {}
            Err(NoMemory) => {
                give_up_outbox(out);
                return Err(Untried::NoMemory);
            }
        }
    }
    out.end();
    Ok(Came { put, sums })
}

/// Gives up the packets in the outbox, and the outbox.
fn give_up_outbox(mut out: Outbox<VecPacket>) {
    while let Some(packet) = out.next() {
        drop(packet);
    }
    out.end();
}
