/// What becomes of one packet, where a kind looks at each by itself.
#[derive(Debug)]
pub enum Verdict<P> {
    /// This packet is put out, and so many bytes are counted as cut.
    Passes { packet: P, cut: u64 },
    /// None is put out.
    Drops,
}
