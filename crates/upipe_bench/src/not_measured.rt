use thiserror::Error;
use up_base::{NoMemory, Refusal};

/// Why a chain wasn't measured.
#[derive(Clone, Copy, Debug, PartialEq, Eq, Error)]
pub(crate) enum NotMeasured {
    #[error("out of memory")]
    NoMemory,
    #[error("the words of the command line couldn't be read")]
    NoWords,
    #[error("the clock couldn't be read")]
    NoClock,
    #[error("a chain of {idems} idems is no graph")]
    NoChain { idems: u16 },
    #[error("an open in memory failed")]
    NotOpened,
    #[error("no packet of these sizes can be made")]
    NoPacket,
    #[error("what came out isn't what went in")]
    NotCarried,
}

impl From<NoMemory> for NotMeasured {
    fn from(_: NoMemory) -> Self {
        NotMeasured::NoMemory
    }
}

impl From<Refusal> for NotMeasured {
    fn from(refusal: Refusal) -> Self {
        match refusal {
            Refusal::Failed => NotMeasured::NotOpened,
            Refusal::NoMemory => NotMeasured::NoMemory,
        }
    }
}
