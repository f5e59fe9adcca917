/// How the bytes of a source become packets.
#[derive(Clone, Copy, Debug, PartialEq, Eq)]
pub enum SourceForm {
    /// They are cut at every multiple of `block` bytes, from 1 to 1,048,576.
    Raw { block: u32 },
    /// They are frames, each of which is a packet (docs/FRAMES.md).
    Framed,
}

/// How the packets of a sink become bytes.
#[derive(Clone, Copy, Debug, PartialEq, Eq)]
pub enum SinkForm {
    /// Their bytes follow each other.
    Raw,
    /// Their frames follow each other (docs/FRAMES.md).
    Framed,
}
