//! The header of a transport stream packet, and the place where its payload begins: ISO/IEC 13818-1.
#![tactic(auto)]

mod packet;
mod payload;
#[cfg(test)]
mod tests;
mod ts_header;
mod ts_refused;

pub use payload::payload_at;
pub use ts_header::{TsHeader, header};
pub use ts_refused::TsRefused;
pub use up_base::{NULL_PID, SYNC_BYTE, TS_SIZE};
