ghost use Rattle.std.specs.Prelude.{◌≡◌, ◌+◌, ◌-◌, ◌<◌, ◌↔◌, length, true, false, IfOk, IsErr, OnOk, OnErr};
ghost use Rattle.std.specs.Option.{option_or};
ghost use Rattle.up_pump.specs.Circle.{next_pump};
ghost use Rattle.up_pump.specs.Pumps.{blockers_at, resting, with_blockers, with_readiness};

use crate::circle::first_due;
use crate::{Pump, TooManyBlockers};
use std::alloc::Global;
use std::marker::Model;
use up_base::NoMemory;

/// Pumps in a circle, of which one is given at a time.
#[derive(Debug, Drop)]
pub struct Loop {
    pumps: Vec<Pump>,
    last: Option<usize>,
}

impl Model for Loop {
    ghost use Rattle.std.specs.Prelude.{◌<◌, length, IfSome};
    ghost use Rattle.up_pump.specs.Pumps.{Pumps};

    ghost Value = { Pumps };

    ghost view = { λ circle. record { pumps = circle.pumps.items; last = circle.last } };

    ghost invariant = { λ circle. IfSome circle.last (λ last. last < length circle.pumps.items) };
}

impl Loop {
    /// Pumps that are not ready and have no blockers. None was given yet.
    pub fn new(alloc: Global, n: usize) -> Result<Loop, NoMemory>
        ensures { IfOk result (λ circle. circle ≡ resting n) }
    {
        Ok(Loop {
            pumps: vec![in alloc; Pump::default(); n]?,
            last: None,
        })
    }

    /// The pump has work.
    pub fn ready(&mut self, i: usize)
        requires { i < length self.old.pumps }
        ensures { self.new ≡ with_readiness self.old i true }
    {
        self.pumps[i].ready = true;
    }

    /// The pump has no work.
    pub fn rest(&mut self, i: usize)
        requires { i < length self.old.pumps }
        ensures { self.new ≡ with_readiness self.old i false }
    {
        self.pumps[i].ready = false;
    }

    /// Holds the pump back by one blocker more.
    pub fn block(&mut self, i: usize) -> Result<(), TooManyBlockers>
        requires { i < length self.old.pumps }
        ensures refused { IsErr result ↔ (blockers_at self.old i ≡ u32.MAX) }
        ensures blocked { OnOk result
            (self.new ≡ with_blockers self.old i (blockers_at self.old i + 1)) }
        ensures unchanged { OnErr result (self.new ≡ self.old) }
    {
        let blockers = self.pumps[i].blockers;
        if blockers == u32::MAX {
            return Err(TooManyBlockers);
        }
        self.pumps[i].blockers = blockers + 1;
        Ok(())
    }

    /// Takes one of the pump's blockers away.
    pub fn unblock(&mut self, i: usize)
        requires within { i < length self.old.pumps }
        requires blocked { 0 < blockers_at self.old i }
        ensures { self.new ≡ with_blockers self.old i (blockers_at self.old i - 1) }
    {
        self.pumps[i].blockers -= 1;
    }

    /// How many blockers hold the pump back.
    pub fn blockers(&self, i: usize) -> u32
        requires { i < length self.now.pumps }
        ensures { result ≡ blockers_at self.now i }
    {
        self.pumps[i].blockers
    }

    /// The first pump after the one given last, in a circle, that is ready and has no blockers; the first from pump 0 on
    /// where none was given yet. `None` where there is none.
    #[tactic(auto, using(crate::proofs::FirstDue::first_due_within))]
    pub fn next(&mut self) -> Option<usize>
        ensures given { result ≡ next_pump self.old }
        ensures pumps { self.new.pumps ≡ self.old.pumps }
        ensures last { self.new.last ≡ option_or result self.old.last }
    {
        let start = self.last.map_or(0, |last| last + 1);
        let next = first_due(&self.pumps, start)?;
        self.last = Some(next);
        Some(next)
    }
}
