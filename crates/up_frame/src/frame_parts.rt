//! The parts of a frame.

/// What the packet of a frame is made of: so many attributes, which stand at the front of `attrs`, and its bytes.
#[derive(Clone, Copy, Debug)]
pub(crate) struct FrameParts<'a> {
    pub count: u16,
    pub attrs: &'a [u8],
    pub content: &'a [u8],
}
