ghost use Rattle.std.specs.Prelude.{◌≡◌, ◌<◌, ◌≤◌, ◌^◌, length, drop};

use crate::byte_edits::copy_from;
use crate::plain_copy::{copied, owned};
use crate::vec_bytes::VecBytes;
use crate::{LocalPacket, Packet, VecRoom, VecStore};
use up_base::{AttrName, Kin, NoMemory, NoRoom};
use up_model::{PlainAttrs, ValueView};

/// A packet that has its attributes and bytes to itself.
#[derive(Debug, Drop)]
pub struct VecPacket {
    attrs: PlainAttrs,
    bytes: VecBytes,
    ghost small: { length bytes < 2 ^ 32 },
}

impl VecPacket {
    ghost use Rattle.up_shape.specs.VecPackets.{plain_of};

    pub fn attrs(&self) -> &PlainAttrs
        ensures { result.now ≡ (plain_of self.now).attrs }
    {
        &self.attrs
    }

    pub fn bytes(&self) -> &[u8]
        ensures { result.now ≡ (plain_of self.now).bytes }
    {
        self.bytes.as_slice()
    }
}

impl Kin for VecPacket {
    ghost use Rattle.up_model.specs.Packet.{IsLegal};
    ghost use Rattle.up_shape.specs.VecPackets.{plain_of};

    type Family = ();

    ghost agrees = { λ packet _. IsLegal (plain_of packet) };
}

impl LocalPacket for VecPacket {
    ghost use Rattle.up_shape.specs.VecPackets.{plain_of};
    ghost use Rattle.up_shape.specs.VecRooms.{content_of, refilled_with, content_of-refilled_with};

    type Store = VecStore;

    type Room = VecRoom;

    ghost plain = { plain_of };

    ghost fits = { λ _ _. Unit {0} };

    ghost content = { content_of };

    ghost refilled = { refilled_with };

    ghost room_fits = { λ _ _. Unit {0} };

    fn room(size: u32, s: &mut VecStore) -> Result<VecRoom, NoMemory> {
        let room = VecRoom::new(s.alloc(), size)?;
        s.draw();
        Ok(room)
    }

    fn room_bytes(r: &mut VecRoom) -> &mut [u8] {
        r.bytes_mut()
    }

    fn of_room(r: VecRoom, n: u32, s: &mut VecStore) -> Result<VecPacket, NoRoom<VecRoom>> {
        Ok(VecPacket {
            attrs: PlainAttrs::new(s.alloc()),
            bytes: VecBytes::whole(r.into_front(n)),
        })
    }

    fn give_room(_r: VecRoom, _s: &mut VecStore) {}

    fn fresh(bytes: &[u8], s: &mut VecStore) -> Result<VecPacket, NoMemory> {
        let packet = VecPacket {
            attrs: PlainAttrs::new(s.alloc()),
            bytes: VecBytes::of_slice(s.alloc(), bytes)?,
        };
        if !bytes.is_empty() {
            s.draw();
        }
        Ok(packet)
    }

    fn size(&self) -> u32 {
        self.bytes().len() as u32
    }

    fn read(&self, at: u32, out: &mut [u8]) {
        copy_from(self.bytes(), at as usize, out);
    }

    /// All bytes from the place `at` on, since they lie together.
    fn bytes_at(&self, at: u32) -> &[u8]
        requires { at ≤ length (plain_of self.now).bytes }
        ensures { result.now ≡ drop at (plain_of self.now).bytes }
    {
        &self.bytes()[at as usize..]
    }

    fn value(&self, name: &AttrName) -> Option<ValueView<'_>> {
        self.attrs.get(name)
    }

    fn attr_count(&self) -> usize {
        self.attrs.len()
    }

    fn attr_at(&self, i: usize) -> (AttrName, ValueView<'_>) {
        self.attrs.at(i)
    }

    fn set_attr(&mut self, name: &AttrName, value: ValueView<'_>) -> Result<(), NoMemory> {
        let value = owned(self.bytes.alloc(), value)?;
        match self.attrs.set(*name, value) {
            Ok(_) => Ok(()),
            Err(_) => Err(NoMemory),
        }
    }

    fn del_attr(&mut self, name: &AttrName) {
        self.attrs.remove(name);
    }

    fn dup(&mut self, s: &mut VecStore) -> Result<VecPacket, NoMemory> {
        Ok(VecPacket {
            attrs: copied(s.alloc(), &self.attrs)?,
            bytes: VecBytes::of_slice(s.alloc(), self.bytes())?,
        })
    }

    fn front(&mut self, n: u32, s: &mut VecStore) -> Result<VecPacket, NoMemory> {
        let front = VecPacket {
            attrs: copied(s.alloc(), &self.attrs)?,
            bytes: VecBytes::of_slice(s.alloc(), &self.bytes()[..n as usize])?,
        };
        self.bytes.drop_front(n as usize);
        Ok(front)
    }

    fn drop_front(&mut self, n: u32, _s: &mut VecStore) {
        self.bytes.drop_front(n as usize);
    }

    fn keep_front(&mut self, n: u32, _s: &mut VecStore) {
        self.bytes.keep_front(n as usize);
    }

    fn add(&mut self, other: VecPacket, _s: &mut VecStore) -> Result<(), NoRoom<VecPacket>> {
        match self.bytes.append(other.bytes()) {
            Ok(()) => Ok(()),
            Err(_) => Err(NoRoom { back: other }),
        }
    }

    fn set_bytes(&mut self, at: u32, bytes: &[u8], _s: &mut VecStore) -> Result<(), NoMemory> {
        self.bytes.write_at(at as usize, bytes);
        Ok(())
    }

    fn give_up(self, _s: &mut VecStore) {}

    ghost refills = { λ room bytes same. (content_of-refilled_with room bytes same, λ _ _. tt) };

    ghost no_bytes = { λ _ _ _. tt };
}

impl Packet for VecPacket {
    ghost use Rattle.up_shape.specs.VecPackets.{plain_of};

    type Parked = VecPacket;

    ghost parked = { plain_of };

    fn park(self) -> VecPacket {
        self
    }

    fn unpark(p: VecPacket) -> VecPacket {
        p
    }
}
