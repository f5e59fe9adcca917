/// A value of which it can be said whether it agrees with a family, as a packet does with the store that its memory
/// came from.
pub trait Kin {
    /// Plain data that stands for a family.
    type Family: Drop + Send;

    /// The value agrees with the family.
    ghost agrees: { Self → Self.Family → Type 0 };
}
