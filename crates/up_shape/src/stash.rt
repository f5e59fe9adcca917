ghost use Rattle.std.specs.Prelude.{◌≡◌, ◌≤◌, ◌+◌, ℕ};
ghost use Rattle.up_shape.specs.Stores.{StoreState, Stays};

/// The most carriers that a store keeps.
pub const MAX_KEPT: usize = 64;

/// What packets draw their memory from. Stores that stem from one have one family, and so has all that was made with
/// them.
pub trait Stash: Sized {
    /// Plain data by which contracts tell families apart.
    type Family: Drop;

    /// What contracts see of it: its family, which no call changes; how many carriers it keeps, which each call but `join`
    /// leaves at most the greater of two and what it was; how much was drawn from it, which contracts alone see.
    ghost state: { Self → StoreState Self.Family };

    /// A store of the same family, which keeps nothing and from which nothing was drawn.
    fn split(&mut self) -> Self
        ensures stays { Stays (state self.old) (state self.new) }
        ensures family { (state result).family ≡ (state self.old).family }
        ensures kept { (state result).kept ≡ 0 }
        ensures drawn { (state result).drawn ≡ 0 };

    /// Takes in another store of the family.
    fn join(&mut self, other: Self)
        requires family { (state other).family ≡ (state self.old).family }
        requires few { (state self.old).kept + (state other).kept ≤ MAX_KEPT }
        ensures family { (state self.new).family ≡ (state self.old).family }
        ensures kept { (state self.new).kept ≤ (state self.old).kept + (state other).kept }
        ensures drawn { (state self.new).drawn ≡ (state self.old).drawn + (state other).drawn };

    fn kept(&self) -> usize
        ensures { result ≡ (state self.now).kept };

    fn family(&self) -> Self::Family
        ensures { result ≡ (state self.now).family };
}
