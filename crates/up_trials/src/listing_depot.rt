ghost use Rattle.std.specs.Prelude.{◌≡◌, List, ℕ, IfOk, OnOk, IfSome, Some};
ghost use Rattle.std.specs.FinMap as map;

use std::alloc::Global;
use up_base::{Failed, Refusal};
use up_outside::{Depot, Mark, MemDepot, MemSink, MemSource};

/// A depot in memory that lists its closes in order.
#[derive(Drop)]
pub(crate) struct ListingDepot {
    pub depot: MemDepot,
    /// The places of the closed objects in what the depot was asked.
    pub closes: Vec<usize>,
}

impl ListingDepot {
    /// A depot in memory of which nothing was closed.
    pub fn of(alloc: Global, depot: MemDepot) -> ListingDepot {
        ListingDepot {
            depot,
            closes: Vec::new(alloc),
        }
    }

    /// Lists the first closed object that isn't listed, where there is memory for it.
    fn list(&mut self)
        ensures { self.new.depot ≡ self.old.depot }
    {
        let closes = &self.closes;
        let asked = self.depot.asked();
        let is_new = |k: usize| {
            k < asked.len() && matches!(asked[k].mark, Mark::Closed { .. }) && !closes.contains(&k)
        };
        let count = asked.len();
        if let Some(place) = (0..count).find(|k| is_new(*k)) {
            let _ = self.closes.push(place);
        }
    }
}

impl Depot for ListingDepot {
    ghost use Rattle.up_outside.specs.Memory.MemDepot.{depot_state};

    type Src = MemSource;

    type Snk = MemSink;

    ghost state = { λ listing. depot_state listing.depot };

    fn open_source(&mut self, path: &str) -> Result<MemSource, Refusal> {
        self.depot.open_source(path)
    }

    fn open_sink(&mut self, path: &str) -> Result<MemSink, Refusal> {
        self.depot.open_sink(path)
    }

    fn close_source(&mut self, s: MemSource) {
        self.depot.close_source(s);
        self.list();
    }

    fn close_sink(&mut self, path: &str, k: MemSink) -> Result<(), Failed> {
        let closed = self.depot.close_sink(path, k);
        self.list();
        closed
    }
}
