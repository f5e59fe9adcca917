/// What a strand is to be asked for next.
#[derive(Clone, Copy, Debug, PartialEq, Eq)]
pub enum Want {
    /// A step of its source.
    Read,
    /// The next item of its lane.
    Input,
    /// An item is to be taken out for the lane of this head.
    Output { lane: u16 },
    /// Nothing more: the end of its flow was passed on.
    Done,
}
