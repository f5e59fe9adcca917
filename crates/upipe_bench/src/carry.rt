ghost use Rattle.std.specs.Prelude.{◌≡◌, ◌↔◌, ◌*◌, [], ◌∷◌, length, map, IfOk, IsTrue};
ghost use Rattle.up_outside.specs.Memory.MemSink.{sink_state, sink_written};
ghost use Rattle.up_outside.specs.Memory.MemSource.{source_state};
ghost use Rattle.up_shape.specs.VecPackets.{plain_of};
ghost use Rattle.up_strand.specs.Strands.{StandsForSome};

use crate::chain::{BLOCK, Chain, chain_of, strand_of};
use crate::not_measured::NotMeasured;
use crate::run::run;
use std::alloc::Global;
use std::time::CpuClock;
use up_base::NoMemory;
use up_model::TallyList;
use up_outside::{MemDepot, MemSink};
use up_shape::VecStore;
use up_strand::{SinkList, StrandEnd, StrandParts, Want};

/// What came through a chain, and how long it took.
#[derive(Clone, Copy, Debug)]
pub(crate) struct Came {
    pub packets: u64,
    pub bytes: usize,
    pub nanos: u64,
}

/// So many packets of bytes that differ.
pub(crate) fn bytes_of(alloc: Global, packets: u32) -> Result<Vec<u8>, NoMemory>
    ensures { IfOk result (λ bytes. length bytes.items ≡ packets * BLOCK) }
{
    let count = packets as usize * BLOCK as usize;
    Ok((0..count).map(|k| (k % 251) as u8).collect(alloc)?)
}

/// The nanoseconds of processor time of this thread so far.
pub(crate) fn nanos_now<R: CpuClock>(rt: &R) -> Result<u64, NotMeasured> {
    let Ok(time) = rt.thread_cpu_time() else {
        return Err(NotMeasured::NoClock);
    };
    match u64::try_from(time.as_nanos()) {
        Ok(nanos) => Ok(nanos),
        Err(_) => Err(NotMeasured::NoClock),
    }
}

/// What is left of a chain.
#[derive(Drop)]
struct Left {
    sinks: SinkList<MemSink>,
    tallies: TallyList,
}

/// Gives the strand up.
fn finish(strand: Chain, s: &mut VecStore) -> Left
    requires { StandsForSome plain_of source_state sink_state strand }
{
    let StrandEnd {
        parts,
        outcomes: _,
        tallies,
    } = strand.finish(s);
    let StrandParts { source: _, sinks } = parts;
    Left { sinks, tallies }
}

impl Left {
    /// Whether its only sink holds these bytes.
    fn holds(&self, bytes: &[u8]) -> bool
        ensures { IsTrue result ↔ map sink_written self.now.sinks ≡ bytes.now ∷ [] }
    {
        self.sinks.len() == 1 && self.sinks.at(0).bytes() == bytes
    }

    /// How many packets its last pipe took.
    fn packets(&self) -> u64 {
        match self.tallies.len().checked_sub(1) {
            Some(last) => self.tallies.at(last).taken,
            None => 0,
        }
    }
}

/// Carries bytes through a chain of so many `idem`s. What is made before the first packet and given up after the last
/// isn't timed.
pub(crate) fn carry<R: CpuClock>(
    rt: &R,
    alloc: Global,
    idems: u16,
    bytes: &[u8],
) -> Result<Came, NotMeasured>
    ensures { IfOk result (λ came. came.bytes ≡ length bytes.now) }
{
    let s = &mut VecStore::new(alloc);
    let mut depot = MemDepot::new(alloc);
    depot.hold("pipe0", bytes)?;
    let graph = chain_of(alloc, idems)?;
    let start = nanos_now(rt)?;
    let mut strand = strand_of(alloc, &graph, &mut depot)?;
    let want = run(&mut strand, s);
    let end = nanos_now(rt);
    let left = finish(strand, s);
    if want != Want::Done || !left.holds(bytes) {
        return Err(NotMeasured::NotCarried);
    }
    Ok(Came {
        packets: left.packets(),
        bytes: bytes.len(),
        nanos: end?.saturating_sub(start),
    })
}
