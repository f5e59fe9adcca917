ghost use Rattle.std.specs.Prelude.{◌≡◌};
ghost use Rattle.up_base.specs.declared.refusal.Refusal.TheVariants.{NoMemory as NoMemoryRefused};

use std::alloc::{AllocError, AllocFailed};
use thiserror::Error;

/// A call on the outside failed. The object's count of faults tells it too.
#[derive(Clone, Copy, Debug, PartialEq, Eq, Error)]
#[error("the call on the outside failed")]
pub struct Failed;

/// No memory was found for a call.
#[derive(Clone, Copy, Debug, PartialEq, Eq, Error)]
#[error("out of memory")]
pub struct NoMemory;

/// Why a call on the outside that takes memory didn't succeed.
#[derive(Clone, Copy, Debug, PartialEq, Eq, Error)]
pub enum Refusal {
    #[error("the call on the outside failed")]
    Failed,
    #[error("out of memory")]
    NoMemory,
}

impl From<AllocError> for NoMemory {
    fn from(_: AllocError) -> Self {
        NoMemory
    }
}

impl<T: Drop> From<AllocFailed<T>> for NoMemory {
    fn from(_: AllocFailed<T>) -> Self {
        NoMemory
    }
}

impl From<NoMemory> for Refusal {
    ghost from_gives = { λ _ refusal. refusal ≡ NoMemoryRefused };

    fn from(_: NoMemory) -> Self {
        Refusal::NoMemory
    }
}
