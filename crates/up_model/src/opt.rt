/// An option of a kind that can be read and set before a flow.
#[derive(Clone, Copy, Debug, PartialEq, Eq)]
pub enum Opt {
    /// The most bytes of a packet.
    Mtu,
    /// What the bytes of a packet are a multiple of.
    Align,
    /// How many bytes are taken off the front of a packet.
    Offset,
    /// The least value that is matched.
    Low,
    /// The greatest value that is matched.
    High,
    /// By how many ticks of 1/27,000,000 second dates are moved.
    By,
    /// How many packets in a row are evidence.
    Sync,
}
