ghost use Rattle.std.specs.Prelude.{◌≡◌, ℕ, ◌≤◌, length, IfOk};
ghost use Rattle.up_probe.specs.Chain.{IsAdded, catching_depth, tally_at};
ghost use Rattle.up_model.specs.Tallies.{nothing};
ghost use Rattle.up_probe.specs.Event.{event_kind};

use crate::catching::catching_probe;
use crate::sums::add;
use crate::{Caught, Event};
use std::alloc::Global;
use std::marker::Model;
use up_base::NoMemory;
use up_model::{CatchSet, Tally};

/// The probes of one pipe, nearest first, and behind them the root, which catches all. Each probe, and the root at the
/// depth after the last probe's, tallies what it caught.
#[derive(Debug, Drop)]
pub struct ProbeChain {
    sets: Vec<CatchSet>,
    tallies: Vec<Tally>,
}

impl Model for ProbeChain {
    ghost use Rattle.std.specs.Prelude.{◌≡◌, ◌+◌, length};
    ghost use Rattle.up_probe.specs.Chain.{Chain};

    ghost Value = { Chain };

    ghost view = { λ chain. record { sets = chain.sets.items; tallies = chain.tallies.items } };

    ghost invariant = { λ chain. length chain.tallies.items ≡ length chain.sets.items + 1 };
}

impl ProbeChain {
    /// A chain of one probe for each set, that has caught nothing.
    pub fn new(alloc: Global, sets: &[CatchSet]) -> Result<ProbeChain, NoMemory>
        ensures sets { IfOk result (λ chain. chain.sets ≡ sets.now) }
        ensures nothing_caught { IfOk result (λ chain.
            (depth : ℕ) → tally_at chain depth ≡ nothing) }
    {
        Ok(ProbeChain {
            sets: Vec::from_slice(alloc, sets)?,
            tallies: vec![in alloc; Tally::default(); sets.len() + 1]?,
        })
    }

    /// Throws an event from the pipe. The nearest probe whose set has the event's kind catches it, else the root.
    pub fn throw(&mut self, e: Event) -> Caught
        ensures depth { result.depth ≡ catching_depth (event_kind e) self.old.sets }
        ensures sets { self.new.sets ≡ self.old.sets }
        ensures added { IsAdded e result.depth self.old self.new }
    {
        let depth = catching_probe(&self.sets, e.kind()).unwrap_or(self.sets.len());
        add(&mut self.tallies[depth], e);
        Caught { depth }
    }

    /// What was caught at a depth: 0 is the nearest probe, and the number of probes is the root.
    pub fn tally(&self, depth: usize) -> Tally
        requires { depth ≤ length self.now.sets }
        ensures { result ≡ tally_at self.now depth }
    {
        self.tallies[depth]
    }
}
