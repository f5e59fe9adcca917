use thiserror::Error;

/// Why some bytes are no transport stream packet, or have no place for a payload.
#[derive(Clone, Copy, Debug, PartialEq, Eq, Error)]
pub enum TsRefused {
    #[error("{len} bytes, where a packet has 188")]
    Short { len: usize },
    #[error("byte 0 is {byte:#04x}, where a packet has 0x47")]
    NoSync { byte: u8 },
    #[error("an adaptation field of {length} bytes, where a packet has room for 183")]
    BadAdaptation { length: u8 },
}
