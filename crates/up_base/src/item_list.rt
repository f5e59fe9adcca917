ghost use Rattle.std.specs.Prelude.{◌≡◌, ◌<◌, [], length, OnErr, OnOk};
ghost use Rattle.up_base.specs.ItemList.{AddsItem, HandsBack, IsAt, TakesFirst};

use std::alloc::Global;
use std::collections::VecDeque;
use std::marker::Model;

/// No memory was found to keep a value, which is handed back.
#[derive(Debug, Drop)]
pub struct NoRoom<T> {
    pub back: T,
}

/// Items in order. An item need not be one that can be dropped: then it is taken out by `next`, and the empty list is
/// given up by `end`.
#[derive(Debug, Drop)]
pub struct ItemList<T> {
    pub(crate) queue: VecDeque<T>,
}

impl<T> Model for ItemList<T> {
    ghost use Rattle.std.specs.Prelude.{List};
    ghost use Rattle.std.specs.Coded.{coded_list};

    ghost Value = { List T };

    ghost coded = { coded_list T.code };

    ghost view = { λ list. list.queue.items };
}

impl<T> ItemList<T> {
    /// No items. Nothing is allocated before the first of them.
    pub fn new(alloc: Global) -> ItemList<T>
        ensures { result ≡ [] }
    {
        ItemList {
            queue: VecDeque::new(alloc),
        }
    }

    pub fn push(&mut self, item: T) -> Result<(), NoRoom<T>>
        ensures added { OnOk result (AddsItem item self.old self.new) }
        ensures unchanged { OnErr result (self.new ≡ self.old) }
        ensures back { HandsBack item result }
    {
        match self.queue.push_back(item) {
            Ok(()) => Ok(()),
            Err(refused) => Err(NoRoom {
                back: refused.value,
            }),
        }
    }

    pub fn len(&self) -> usize
        ensures { result ≡ length self.now }
    {
        self.queue.len()
    }

    /// The item at a place, counted from 0.
    pub fn at(&self, i: usize) -> &T
        requires { i < length self.now }
        ensures { IsAt self.now i result.now }
    {
        &self.queue[i]
    }

    pub fn next(&mut self) -> Option<T>
        ensures { TakesFirst self.old self.new result }
    {
        self.queue.pop_front()
    }

    pub fn end(self)
        requires { self ≡ [] }
    {
        let ItemList { queue } = self;
        queue.destroy_empty();
    }
}
