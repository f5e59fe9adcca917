ghost use Rattle.std.specs.Prelude.{◌≡◌, ◌-◌, ℕ};

use std::marker::{Model, PhantomData};

/// What comes to an end.
pub(crate) trait HasEnd {
    /// So many steps of sources, and so many turns before the next of them, are still to come at
    /// most.
    ghost ends_within: { Self → ℕ → ℕ → Type 0 };
}

/// How much is still to come at most: numbers that contracts alone see, by which loops are shown to
/// end. It has no bytes, and what a run does never depends on it.
#[derive(Drop)]
pub(crate) struct Ahead {
    marker: PhantomData<()>,
    pub ghost reads: { ℕ },
    pub ghost turns: { ℕ },
}

impl Model for Ahead {
    ghost use base.Fml.{ftrue};

    ghost also_owns = { λ _. ftrue };
}

impl HasEnd for Ahead {
    ghost ends_within = { λ ahead reads turns.
        (reads ≡ ahead.reads - 1) × (turns ≡ ahead.turns - 1) };
}

impl Ahead {
    /// Numbers within which it ends.
    pub fn of<T: HasEnd>(whole: &T) -> Ahead
        requires { (reads turns : ℕ) × T.ends_within whole.now reads turns }
        ensures { T.ends_within whole.now result.reads result.turns }
    {
        let _ = whole;
        Ahead {
            marker: PhantomData,
        }
    }

    /// One less of each.
    pub fn lowered(&self) -> Ahead
        ensures reads { result.reads ≡ self.now.reads - 1 }
        ensures turns { result.turns ≡ self.now.turns - 1 }
    {
        Ahead::of(self)
    }
}
