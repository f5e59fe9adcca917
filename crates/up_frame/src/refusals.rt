//! What is wrong with frames that come in pieces.
use thiserror::Error;

/// The frame that begins at this place, counted from 0 in all bytes that were fed, is broken, or at the
/// end unfinished.
#[derive(Clone, Copy, Debug, PartialEq, Eq, Error)]
#[error("no frame stands at byte {offset}")]
pub struct BadFrame {
    pub offset: u64,
}

/// Why a piece isn't taken as frames.
#[derive(Clone, Copy, Debug, PartialEq, Eq, Error)]
pub enum FeedRefused {
    /// The frame that begins at this place is broken. The reader stays so.
    #[error("the frame at byte {offset} is broken")]
    BadFrame { offset: u64 },
    /// There is no memory for the piece, which is as if it was never fed.
    #[error("not enough memory")]
    NoMemory,
}
