// What all code of frames shares: their fixed numbers, and how bytes may hold none. docs/FRAMES.md has the whole format.

/// The mark of a frame, its first byte: the letter `F`.
pub const MARK: u8 = 0x46;

/// The version of a frame, its second byte, which tells by which rules the rest is spelled.
pub const VERSION: u8 = 1;

/// Why no whole frame stands at the front of some bytes.
#[derive(Clone, Copy, Debug, PartialEq, Eq)]
pub enum NotWhole {
    /// A field whose bytes are all there breaks its rule.
    Broken,
    /// The bytes end before the frame does, and no field is broken.
    Unfinished,
}
