ghost use Rattle.std.specs.Prelude.{◌≡◌, length, take, IfOk};
ghost use Rattle.std.specs.Borrow.{sem};

use std::alloc::Global;
use up_base::NoMemory;

/// A room of a plain packet: bytes in a vector.
#[derive(Drop)]
pub struct VecRoom {
    bytes: Vec<u8>,
}

impl VecRoom {
    ghost use Rattle.up_shape.specs.VecRooms.{content_of, LendsRoom};

    /// So many zeros.
    pub(crate) fn new(alloc: Global, size: u32) -> Result<VecRoom, NoMemory>
        ensures { IfOk result (λ room. length (content_of room) ≡ size) }
    {
        Ok(VecRoom {
            bytes: vec![in alloc; 0; size as usize]?,
        })
    }

    /// The bytes, to be written.
    pub fn bytes_mut(&mut self) -> &mut [u8]
        ensures* writes_back { sem 𝓛 (LendsRoom self.entry result) }
        ensures value { result.now ≡ content_of self.old }
    {
        self.bytes.as_mut_slice()
    }

    /// The first bytes, in the same vector.
    pub(crate) fn into_front(self, n: u32) -> Vec<u8>
        ensures { result.items ≡ take n (content_of self) }
    {
        let VecRoom { mut bytes } = self;
        bytes.truncate(n as usize);
        bytes
    }
}
