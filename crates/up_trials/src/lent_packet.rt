ghost use Rattle.std.specs.Prelude.{◌≡◌};
ghost use Rattle.std.specs.Borrow.{sem};
ghost use Rattle.up_shape.specs.VecPackets.{plain_of};
ghost use Rattle.up_shape.specs.VecStores.{drawn_from};

use std::alloc::Global;
use up_base::{AttrName, NoMemory, NoRoom};
use up_model::ValueView;
use up_shape::{LocalPacket, Stash, VecPacket, VecRoom, VecStore};

/// A packet for tests that can't be dropped, and that borrows a name.
pub(crate) struct LentPacket<'a> {
    packet: VecPacket,
    pub owner: &'a str,
}

/// A store of such packets, in which only so many rooms and fresh packets are made.
#[derive(Drop)]
pub(crate) struct LentStore<'a> {
    store: VecStore,
    owner: &'a str,
    rooms: usize,
}

impl<'a> LentStore<'a> {
    /// A store from which nothing was drawn.
    pub fn new(alloc: Global, owner: &'a str) -> LentStore<'a> {
        LentStore::with_rooms(alloc, owner, usize::MAX)
    }

    /// The same, in which so many rooms and fresh packets are made and all others are refused.
    pub fn with_rooms(alloc: Global, owner: &'a str, rooms: usize) -> LentStore<'a> {
        LentStore {
            store: VecStore::new(alloc),
            owner,
            rooms,
        }
    }

    /// A packet that borrows the name.
    fn packet(&self, packet: VecPacket) -> LentPacket<'a>
        ensures { plain_of result.packet ≡ plain_of packet }
    {
        LentPacket {
            packet,
            owner: self.owner,
        }
    }
}

impl<'a> Stash for LentStore<'a> {
    type Family = ();

    ghost state = { λ store. record { family = tt; kept = 0; drawn = drawn_from store.store } };

    fn split(&mut self) -> LentStore<'a> {
        LentStore {
            store: self.store.split(),
            owner: self.owner,
            rooms: self.rooms,
        }
    }

    fn join(&mut self, other: LentStore<'a>) {
        self.store.join(other.store);
    }

    fn kept(&self) -> usize {
        0
    }

    fn family(&self) {}
}

impl<'a> LocalPacket for LentPacket<'a> {
    ghost use Rattle.up_shape.specs.VecRooms.{LendsRoom, content_of, refilled_with, content_of-refilled_with};

    type Store = LentStore<'a>;

    type Room = VecRoom;

    ghost plain = { λ lent. plain_of lent.packet };

    ghost fits = { λ _ _. Unit {0} };

    ghost content = { content_of };

    ghost refilled = { refilled_with };

    ghost room_fits = { λ _ _. Unit {0} };

    fn room(size: u32, s: &mut LentStore<'a>) -> Result<VecRoom, NoMemory> {
        if s.rooms == 0 {
            return Err(NoMemory);
        }
        s.rooms -= 1;
        VecPacket::room(size, &mut s.store)
    }

    fn room_bytes(r: &mut VecRoom) -> &mut [u8]
        ensures* writes_back { sem 𝓛 (LendsRoom r.entry result) }
        ensures value { result.now ≡ content_of r.old }
    {
        VecPacket::room_bytes(r)
    }

    fn of_room(
        r: VecRoom,
        n: u32,
        s: &mut LentStore<'a>,
    ) -> Result<LentPacket<'a>, NoRoom<VecRoom>> {
        match VecPacket::of_room(r, n, &mut s.store) {
            Ok(packet) => Ok(s.packet(packet)),
            Err(refused) => Err(refused),
        }
    }

    fn give_room(r: VecRoom, s: &mut LentStore<'a>) {
        VecPacket::give_room(r, &mut s.store);
    }

    fn fresh(bytes: &[u8], s: &mut LentStore<'a>) -> Result<LentPacket<'a>, NoMemory> {
        if s.rooms == 0 {
            return Err(NoMemory);
        }
        s.rooms -= 1;
        let packet = VecPacket::fresh(bytes, &mut s.store)?;
        Ok(s.packet(packet))
    }

    fn size(&self) -> u32 {
        self.packet.size()
    }

    fn read(&self, at: u32, out: &mut [u8]) {
        self.packet.read(at, out);
    }

    fn bytes_at(&self, at: u32) -> &[u8] {
        self.packet.bytes_at(at)
    }

    fn value(&self, name: &AttrName) -> Option<ValueView<'_>> {
        self.packet.value(name)
    }

    fn attr_count(&self) -> usize {
        self.packet.attr_count()
    }

    fn attr_at(&self, i: usize) -> (AttrName, ValueView<'_>) {
        self.packet.attr_at(i)
    }

    fn set_attr(&mut self, name: &AttrName, value: ValueView<'_>) -> Result<(), NoMemory> {
        self.packet.set_attr(name, value)
    }

    fn del_attr(&mut self, name: &AttrName) {
        self.packet.del_attr(name);
    }

    fn dup(&mut self, s: &mut LentStore<'a>) -> Result<LentPacket<'a>, NoMemory> {
        let packet = self.packet.dup(&mut s.store)?;
        Ok(s.packet(packet))
    }

    fn front(&mut self, n: u32, s: &mut LentStore<'a>) -> Result<LentPacket<'a>, NoMemory> {
        let packet = self.packet.front(n, &mut s.store)?;
        Ok(s.packet(packet))
    }

    fn drop_front(&mut self, n: u32, s: &mut LentStore<'a>) {
        self.packet.drop_front(n, &mut s.store);
    }

    fn keep_front(&mut self, n: u32, s: &mut LentStore<'a>) {
        self.packet.keep_front(n, &mut s.store);
    }

    fn add(
        &mut self,
        other: LentPacket<'a>,
        s: &mut LentStore<'a>,
    ) -> Result<(), NoRoom<LentPacket<'a>>> {
        let LentPacket { packet, owner } = other;
        match self.packet.add(packet, &mut s.store) {
            Ok(()) => Ok(()),
            Err(refused) => Err(NoRoom {
                back: LentPacket {
                    packet: refused.back,
                    owner,
                },
            }),
        }
    }

    fn set_bytes(&mut self, at: u32, bytes: &[u8], s: &mut LentStore<'a>) -> Result<(), NoMemory> {
        self.packet.set_bytes(at, bytes, &mut s.store)
    }

    fn give_up(self, s: &mut LentStore<'a>) {
        let LentPacket { packet, owner: _ } = self;
        packet.give_up(&mut s.store);
    }

    ghost refills = { λ room bytes same. (content_of-refilled_with room bytes same, λ _ _. tt) };

    ghost no_bytes = { λ _ _ _. tt };
}
