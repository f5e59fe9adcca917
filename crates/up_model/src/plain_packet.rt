ghost use Rattle.std.specs.Prelude.{◌≡◌, IfOk};
ghost use Rattle.up_model.specs.Packet.{plain};

use crate::PlainAttrs;
use std::alloc::Global;
use up_base::{Bytes, NoMemory};

/// A packet as the meanings see it: attributes and bytes.
#[derive(Debug, Drop)]
pub struct PlainPacket {
    pub attrs: PlainAttrs,
    pub bytes: Bytes,
}

impl PlainPacket {
    /// A packet of these bytes, without attributes.
    pub(crate) fn of_bytes(alloc: Global, bytes: &[u8]) -> Result<PlainPacket, NoMemory>
        ensures { IfOk result (λ packet. packet ≡ plain bytes.now) }
    {
        Ok(PlainPacket {
            attrs: PlainAttrs::new(alloc),
            bytes: Bytes::from_slice(alloc, bytes)?,
        })
    }

    /// The same packet, on memory of its own.
    pub fn copy(&self, alloc: Global) -> Result<PlainPacket, NoMemory>
        ensures { IfOk result (λ copy. copy ≡ self.now) }
    {
        Ok(PlainPacket {
            attrs: self.attrs.copy(alloc)?,
            bytes: Bytes::from_slice(alloc, self.bytes.as_slice())?,
        })
    }
}
