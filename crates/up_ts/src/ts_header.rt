ghost use Rattle.std.specs.Prelude.{◌≡◌, ◌↔◌, true, IsOk, IfOk, IfErr};
ghost use Rattle.up_base.specs.Transport.{is_ts_packet};
ghost use Rattle.up_ts.specs.Header.{IsHeader};
ghost use Rattle.up_ts.specs.Refusal.{IsNoPacket};

use crate::TsRefused;
use up_base::{SYNC_BYTE, TS_SIZE, pid_of};

/// The fields of a packet's bytes 1 to 3: ISO/IEC 13818-1, 2.4.3.2.
#[derive(Clone, Copy, Debug, PartialEq, Eq)]
pub struct TsHeader {
    /// transport_error_indicator, 1 bit: the packet has an error that couldn't be corrected.
    pub error: bool,
    /// payload_unit_start_indicator, 1 bit: a PES packet or a section begins in the payload.
    pub start: bool,
    /// transport_priority, 1 bit.
    pub priority: bool,
    /// PID, 13 bits: which flow of the multiplex the packet is of.
    pub pid: u16,
    /// transport_scrambling_control, 2 bits: 0 where the payload isn't scrambled.
    pub scrambling: u8,
    /// adaptation_field_control, 2 bits: 1 for payload only, 2 for an adaptation field only, 3 for both, 0 is reserved.
    pub adaptation: u8,
    /// continuity_counter, 4 bits.
    pub counter: u8,
}

/// Reads the header of one packet.
pub fn header(b: &[u8]) -> Result<TsHeader, TsRefused>
    ensures taken { IsOk result ↔ (is_ts_packet b.now ≡ true) }
    ensures fields { IfOk result (IsHeader b.now) }
    ensures cause { IfErr result (IsNoPacket b.now) }
{
    if b.len() != TS_SIZE {
        return Err(TsRefused::Short { len: b.len() });
    }
    if b[0] != SYNC_BYTE {
        return Err(TsRefused::NoSync { byte: b[0] });
    }
    Ok(TsHeader {
        error: b[1] / 128 == 1,
        start: b[1] / 64 % 2 == 1,
        priority: b[1] / 32 % 2 == 1,
        pid: pid_of(b),
        scrambling: b[3] / 64,
        adaptation: b[3] / 16 % 4,
        counter: b[3] % 16,
    })
}
