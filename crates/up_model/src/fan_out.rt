/// Whom the output of a kind feeds.
#[derive(Clone, Copy, Debug, PartialEq, Eq)]
pub enum FanOut {
    /// It has no output.
    None,
    /// One consumer.
    One,
    /// Each of its consumers, all of it.
    All,
    /// Each of its consumers, the packets of the packet identifier that it selects.
    Selected,
}
