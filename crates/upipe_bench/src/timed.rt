//! How long frames take to be read in pieces.
ghost use Rattle.std.specs.Prelude.{◌≡◌, ◌<◌, ◌*◌, IfOk};

use crate::carry::nanos_now;
use crate::frames::{Sizes, frames, packet_of};
use crate::not_measured::NotMeasured;
use crate::pieces::Reading;
use std::alloc::Global;
use std::time::CpuClock;

/// What was read of how many bytes, and how long it took.
#[derive(Clone, Copy, Debug)]
pub(crate) struct Timed {
    pub packets: u64,
    pub bytes: u64,
    pub nanos: u64,
}

/// So many equal frames, which are fed so often, in pieces of so many bytes.
#[derive(Clone, Copy, Debug)]
pub(crate) struct Fed {
    pub sizes: Sizes,
    pub frames: u32,
    pub rounds: u32,
    pub piece: usize,
}

/// Reads frames. What makes them isn't timed.
pub(crate) fn read_frames<R: CpuClock>(
    rt: &R,
    alloc: Global,
    fed: Fed,
) -> Result<Timed, NotMeasured>
    requires { 0 < fed.piece }
    ensures { IfOk result (λ timed. timed.packets ≡ fed.rounds * fed.frames) }
{
    let packet = packet_of(alloc, fed.sizes)?;
    let bytes = frames(alloc, &packet, fed.frames)?;
    let mut reading = Reading::new(alloc);
    let start = nanos_now(rt)?;
    reading.feed_often(bytes.as_slice(), fed.piece, fed.rounds)?;
    let end = nanos_now(rt)?;
    Ok(Timed {
        packets: reading.packets,
        bytes: reading.reader.fed(),
        nanos: end.saturating_sub(start),
    })
}
