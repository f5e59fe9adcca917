ghost use Rattle.std.specs.Prelude.{◌≡◌, ◌-◌, ◌*◌, ◌/◌};
ghost use Rattle.std.specs.Int.NonZero.{non_zero_u32_get};

use crate::carry::carry;
use crate::not_measured::NotMeasured;
use std::alloc::Global;
use std::num::NonZeroU32;
use std::time::CpuClock;

/// How many `idem`s the chains have.
pub(crate) const LENGTHS: [u16; 7] = [1, 2, 4, 8, 16, 32, 64];

/// How many more the last chain has than the first.
const MORE: u64 = 63;

/// The least times of the chains so far, in nanoseconds.
#[derive(Clone, Copy, Debug)]
pub(crate) struct Least {
    pub nanos: [u64; 7],
}

impl Least {
    pub fn new() -> Least {
        Least {
            nanos: [u64::MAX; 7],
        }
    }

    /// Times each chain once more, one after the other, so that what slows the machine for a while slows all.
    pub fn time<R: CpuClock>(
        &mut self,
        rt: &R,
        alloc: Global,
        bytes: &[u8],
    ) -> Result<(), NotMeasured> {
        for k in 0..LENGTHS.len() {
            let came = carry(rt, alloc, LENGTHS[k], bytes)?;
            self.nanos[k] = self.nanos[k].min(came.nanos);
        }
        Ok(())
    }

    /// That of the shortest chain.
    pub fn first(&self) -> u64 {
        self.nanos[0]
    }

    /// That of the longest chain.
    pub fn last(&self) -> u64 {
        self.nanos[6]
    }
}

/// The time of one more `idem` for a packet, in tenths of a nanosecond, by the times of the shortest and of the longest
/// chain.
pub(crate) fn slope(first: u64, last: u64, packets: NonZeroU32) -> u128
    ensures { result ≡ (last - first) * 10 / (63 * non_zero_u32_get packets) }
{
    let more = u128::from(last.saturating_sub(first));
    more * 10 / u128::from(MORE * u64::from(packets.get()))
}
