use thiserror::Error;

/// A pump has 2^32 - 1 blockers, and no more can be counted.
#[derive(Clone, Copy, Debug, PartialEq, Eq, Error)]
#[error("a pump has 4294967295 blockers, and no more can be counted")]
pub struct TooManyBlockers;
