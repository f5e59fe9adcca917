ghost use Rattle.std.specs.Prelude.{◌≡◌, ◌<◌, [], length, IfOk};
ghost use Rattle.up_base.specs.ItemList.{AddsItem};

use crate::{ItemList, NoMemory};
use std::alloc::Global;
use std::collections::VecDeque;
use std::marker::Model;

/// A list that is built in room taken beforehand, so that no memory is taken while it grows.
#[derive(Debug, Drop)]
pub struct ReservedList<T> {
    queue: VecDeque<T>,
}

impl<T> Model for ReservedList<T> {
    ghost use Rattle.std.specs.VecDeque.{deque_capacity};
    ghost use Rattle.up_base.specs.ReservedList.{Reserved};

    ghost Value = { Reserved T };

    ghost view = { λ list. record { room = deque_capacity list.queue; items = list.queue.items } };
}

impl<T> ReservedList<T> {
    /// No items, and room for so many.
    pub fn with_room(alloc: Global, room: usize) -> Result<ReservedList<T>, NoMemory>
        ensures room { IfOk result (λ list. list.room ≡ room) }
        ensures empty { IfOk result (λ list. list.items ≡ []) }
    {
        let queue = VecDeque::with_capacity(alloc, room)?;
        Ok(ReservedList { queue })
    }

    /// Adds an item at the end.
    pub fn push(&mut self, item: T)
        requires room { length self.old.items < self.old.room }
        ensures added { AddsItem item self.old.items self.new.items }
        ensures room { self.new.room ≡ self.old.room }
    {
        self.queue.push_back_reserved(item);
    }

    /// The items.
    pub fn into_list(self) -> ItemList<T>
        ensures { result ≡ self.items }
    {
        let ReservedList { queue } = self;
        ItemList { queue }
    }
}
