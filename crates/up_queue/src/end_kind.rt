/// How a flow ended.
#[derive(Clone, Copy, Debug, PartialEq, Eq)]
pub enum EndKind {
    /// With all of its packets.
    Whole,
    /// Before its last packet, by a fault.
    Broken,
}
