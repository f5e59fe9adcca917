ghost use Rattle.std.specs.Prelude.{◌≡◌, ◌+◌, ℕ};

use std::marker::{Model, PhantomData};

/// How much was drawn from a store: a number that contracts alone see. It has no bytes, and what a run does never
/// depends on it.
#[derive(Drop)]
pub struct Drawn {
    marker: PhantomData<()>,
    pub ghost count: { ℕ },
}

impl Model for Drawn {
    ghost use base.Fml.{ftrue};

    ghost also_owns = { λ _. ftrue };
}

impl Drawn {
    /// Any number, which the caller's proof picks.
    fn picked() -> Drawn
        ghost number: { ℕ }
        ensures { result.count ≡ number }
    {
        Drawn {
            marker: PhantomData,
        }
    }

    /// Nothing was drawn.
    pub fn none() -> Drawn
        ensures { result.count ≡ 0 }
    {
        Drawn::picked()
    }

    /// One thing was drawn.
    pub fn one() -> Drawn
        ensures { result.count ≡ 1 }
    {
        Drawn::picked()
    }

    /// Both were drawn.
    pub fn joined(&self, other: &Drawn) -> Drawn
        ensures { result.count ≡ self.now.count + other.now.count }
    {
        let _ = other;
        Drawn {
            marker: PhantomData,
        }
    }

    /// One more was drawn.
    pub fn raised(&self) -> Drawn
        ensures { result.count ≡ self.now.count + 1 }
    {
        self.joined(&Drawn::one())
    }
}
