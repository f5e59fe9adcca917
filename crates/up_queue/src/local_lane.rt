ghost use Rattle.std.specs.Prelude.{◌≡◌, ◌<◌, ◌≤◌, ◌↔◌, [], length, IfErr, IfOk, IsErr, OnErr, OnOk};
ghost use Rattle.up_base.specs.ItemList.{AddsItem, TakesFirst};
ghost use Rattle.up_model.specs.declared.limits.TheConstants.{MAX_QUEUE};
ghost use Rattle.up_queue.specs.Lane.{HasRoomFor};

use crate::{Full, Item};
use circular_buffer::HeapCircularBuffer;
use std::alloc::Global;
use std::marker::Model;
use up_base::NoMemory;

/// Items in the order of their sending, with room for so many of them. It can't be dropped: `end` gives it up once it is
/// empty. Only `new` takes memory.
pub struct LocalLane<P> {
    ring: HeapCircularBuffer<Item<P>>,
}

impl<P> Model for LocalLane<P> {
    ghost use Rattle.up_queue.specs.Lane.{HasRoomFor, Lane};

    ghost Value = { Lane P };

    ghost view = { λ lane. record { cap = lane.ring.capacity; items = lane.ring.items } };

    ghost invariant = { λ lane. HasRoomFor lane.ring.capacity lane.ring.items };
}

impl<P> LocalLane<P> {
    /// An empty lane with room for `cap` items.
    pub fn new(alloc: Global, cap: u16) -> Result<LocalLane<P>, NoMemory>
        requires least { 0 < cap }
        requires most { cap ≤ MAX_QUEUE }
        ensures cap { IfOk result (λ lane. lane.cap ≡ cap) }
        ensures empty { IfOk result (λ lane. lane.items ≡ []) }
    {
        let ring = HeapCircularBuffer::with_capacity(alloc, usize::from(cap))?;
        Ok(LocalLane { ring })
    }

    /// Adds an item at the end.
    pub fn try_send(&mut self, item: Item<P>) -> Result<(), Full<P>>
        ensures full { IsErr result ↔ (length self.old.items ≡ self.old.cap) }
        ensures added { OnOk result (AddsItem item self.old.items self.new.items) }
        ensures unchanged { OnErr result (self.new.items ≡ self.old.items) }
        ensures back { IfErr result (λ refused. refused.item ≡ item) }
        ensures cap { self.new.cap ≡ self.old.cap }
    {
        match self.ring.try_push_back(item) {
            Ok(()) => Ok(()),
            Err(item) => Err(Full { item }),
        }
    }

    /// Takes out the first item.
    pub fn try_receive(&mut self) -> Option<Item<P>>
        ensures first { TakesFirst self.old.items self.new.items result }
        ensures cap { self.new.cap ≡ self.old.cap }
    {
        self.ring.pop_front()
    }

    /// How many items wait.
    pub fn len(&self) -> usize
        ensures count { result ≡ length self.now.items }
        ensures room { HasRoomFor self.now.cap self.now.items }
    {
        self.ring.len()
    }

    /// Gives up the lane, in which no item waits.
    pub fn end(self)
        requires { self.items ≡ [] }
    {
        let LocalLane { ring } = self;
        ring.destroy_empty();
    }
}
