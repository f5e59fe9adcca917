ghost use Rattle.std.specs.Prelude.{◌≡◌};
ghost use Rattle.up_shape.specs.TrialPackets.{plain_within, drawn_within};

use crate::{LocalPacket, Stash, VecPacket, VecRoom, VecStore};
use std::alloc::Global;
use up_base::{AttrName, NoMemory, NoRoom};
use up_model::ValueView;

/// A packet of vectors for tests, of which only so many second ones can be made.
#[derive(Debug, Drop)]
pub struct TrialPacket {
    packet: VecPacket,
}

impl TrialPacket {
    /// The bytes.
    pub fn bytes(&self) -> &[u8]
        ensures { result.now ≡ (plain_within self.now).bytes }
    {
        self.packet.bytes()
    }
}

/// A store of such packets. `dup` is refused once it was called so many times, and at once with a store that was split
/// off.
#[derive(Drop)]
pub struct TrialStore {
    store: VecStore,
    dups: usize,
}

impl TrialStore {
    /// A store from which nothing was drawn, and the number of calls of `dup` that aren't refused.
    pub fn new(alloc: Global, dups: usize) -> TrialStore
        ensures { drawn_within result ≡ 0 }
    {
        TrialStore {
            store: VecStore::new(alloc),
            dups,
        }
    }
}

impl Stash for TrialStore {
    type Family = ();

    ghost state = { λ store. record { family = tt; kept = 0; drawn = drawn_within store } };

    fn split(&mut self) -> TrialStore {
        TrialStore {
            store: self.store.split(),
            dups: 0,
        }
    }

    fn join(&mut self, other: TrialStore) {
        self.store.join(other.store);
    }

    fn kept(&self) -> usize {
        0
    }

    fn family(&self) {}
}

impl LocalPacket for TrialPacket {
    ghost use Rattle.up_shape.specs.VecRooms.{content_of, refilled_with, content_of-refilled_with};

    type Store = TrialStore;

    type Room = VecRoom;

    ghost plain = { plain_within };

    ghost fits = { λ _ _. Unit {0} };

    ghost content = { content_of };

    ghost refilled = { refilled_with };

    ghost room_fits = { λ _ _. Unit {0} };

    fn room(size: u32, s: &mut TrialStore) -> Result<VecRoom, NoMemory> {
        VecPacket::room(size, &mut s.store)
    }

    fn room_bytes(r: &mut VecRoom) -> &mut [u8] {
        VecPacket::room_bytes(r)
    }

    fn of_room(r: VecRoom, n: u32, s: &mut TrialStore) -> Result<TrialPacket, NoRoom<VecRoom>> {
        match VecPacket::of_room(r, n, &mut s.store) {
            Ok(packet) => Ok(TrialPacket { packet }),
            Err(refused) => Err(refused),
        }
    }

    fn give_room(r: VecRoom, s: &mut TrialStore) {
        VecPacket::give_room(r, &mut s.store);
    }

    fn fresh(bytes: &[u8], s: &mut TrialStore) -> Result<TrialPacket, NoMemory> {
        let packet = VecPacket::fresh(bytes, &mut s.store)?;
        Ok(TrialPacket { packet })
    }

    fn size(&self) -> u32 {
        self.packet.size()
    }

    fn read(&self, at: u32, out: &mut [u8]) {
        self.packet.read(at, out);
    }

    fn bytes_at(&self, at: u32) -> &[u8] {
        self.packet.bytes_at(at)
    }

    fn value(&self, name: &AttrName) -> Option<ValueView<'_>> {
        self.packet.value(name)
    }

    fn attr_count(&self) -> usize {
        self.packet.attr_count()
    }

    fn attr_at(&self, i: usize) -> (AttrName, ValueView<'_>) {
        self.packet.attr_at(i)
    }

    fn set_attr(&mut self, name: &AttrName, value: ValueView<'_>) -> Result<(), NoMemory> {
        self.packet.set_attr(name, value)
    }

    fn del_attr(&mut self, name: &AttrName) {
        self.packet.del_attr(name);
    }

    fn dup(&mut self, s: &mut TrialStore) -> Result<TrialPacket, NoMemory> {
        if s.dups == 0 {
            return Err(NoMemory);
        }
        s.dups -= 1;
        let packet = self.packet.dup(&mut s.store)?;
        Ok(TrialPacket { packet })
    }

    fn front(&mut self, n: u32, s: &mut TrialStore) -> Result<TrialPacket, NoMemory> {
        let packet = self.packet.front(n, &mut s.store)?;
        Ok(TrialPacket { packet })
    }

    fn drop_front(&mut self, n: u32, s: &mut TrialStore) {
        self.packet.drop_front(n, &mut s.store);
    }

    fn keep_front(&mut self, n: u32, s: &mut TrialStore) {
        self.packet.keep_front(n, &mut s.store);
    }

    fn add(&mut self, other: TrialPacket, s: &mut TrialStore) -> Result<(), NoRoom<TrialPacket>> {
        match self.packet.add(other.packet, &mut s.store) {
            Ok(()) => Ok(()),
            Err(refused) => Err(NoRoom {
                back: TrialPacket {
                    packet: refused.back,
                },
            }),
        }
    }

    fn set_bytes(&mut self, at: u32, bytes: &[u8], s: &mut TrialStore) -> Result<(), NoMemory> {
        self.packet.set_bytes(at, bytes, &mut s.store)
    }

    fn give_up(self, s: &mut TrialStore) {
        self.packet.give_up(&mut s.store);
    }

    ghost refills = { λ room bytes same. (content_of-refilled_with room bytes same, λ _ _. tt) };

    ghost no_bytes = { λ _ _ _. tt };
}
