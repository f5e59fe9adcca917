ghost use Rattle.std.specs.Prelude.{◌≡◌, ◌+◌};

use crate::{Drawn, Stash};
use std::alloc::Global;

/// A store of plain packets. It keeps nothing, and all of them are of one family.
#[derive(Drop)]
pub struct VecStore {
    alloc: Global,
    drawn: Drawn,
}

impl VecStore {
    ghost use Rattle.up_shape.specs.VecStores.{drawn_from};

    /// A store from which nothing was drawn.
    pub fn new(alloc: Global) -> VecStore
        ensures { drawn_from result ≡ 0 }
    {
        VecStore {
            alloc,
            drawn: Drawn::none(),
        }
    }

    pub(crate) fn alloc(&self) -> Global {
        self.alloc
    }

    /// One more room or packet was made.
    pub(crate) fn draw(&mut self)
        ensures { drawn_from self.new ≡ drawn_from self.old + 1 }
    {
        self.drawn = self.drawn.raised();
    }
}

impl Stash for VecStore {
    ghost use Rattle.up_shape.specs.VecStores.{drawn_from};

    type Family = ();

    ghost state = { λ store. record { family = tt; kept = 0; drawn = drawn_from store } };

    fn split(&mut self) -> VecStore {
        VecStore::new(self.alloc)
    }

    fn join(&mut self, other: VecStore) {
        self.drawn = self.drawn.joined(&other.drawn);
    }

    fn kept(&self) -> usize {
        0
    }

    fn family(&self) {}
}
