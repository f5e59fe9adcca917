ghost use Rattle.std.specs.Prelude.{◌≡◌, ◌↔◌, IsOk, IfOk, IfErr};
ghost use Rattle.up_ts.specs.Payload.{FieldFits, payload_start};
ghost use Rattle.up_ts.specs.Refusal.{IsRefusedFor};

use crate::packet::{FIELD_AND_PAYLOAD, HEADER_SIZE, MAX_FIELD, PAYLOAD_ONLY};
use crate::{TsRefused, header};

/// The place of the payload's first byte, or `None` where adaptation_field_control says that there is no payload. An
/// adaptation field that fills the packet leaves an empty payload at place 188.
pub fn payload_at(b: &[u8]) -> Result<Option<usize>, TsRefused>
    ensures taken { IsOk result ↔ FieldFits b.now }
    ensures place { IfOk result (λ place. place ≡ payload_start b.now) }
    ensures cause { IfErr result (IsRefusedFor b.now) }
{
    match header(b)?.adaptation {
        PAYLOAD_ONLY => Ok(Some(HEADER_SIZE)),
        FIELD_AND_PAYLOAD if b[4] > MAX_FIELD => Err(TsRefused::BadAdaptation { length: b[4] }),
        FIELD_AND_PAYLOAD => Ok(Some(HEADER_SIZE + 1 + usize::from(b[4]))),
        _ => Ok(None),
    }
}
