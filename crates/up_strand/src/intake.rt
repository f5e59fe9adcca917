use crate::frame_source::FrameSource;

/// Where the packets of a strand come from.
pub enum Intake<S> {
    /// A source, which puts out packets of `block` bytes, may give `limit` bytes in all, and `left`
    /// of them still.
    FromSource {
        source: S,
        block: u32,
        limit: u64,
        left: u64,
    },
    /// A source of frames.
    FromFrames(FrameSource<S>),
    /// The lane of its head.
    FromLane,
}
