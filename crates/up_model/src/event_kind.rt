/// What a pipe may tell its probes of a flow.
#[derive(Clone, Copy, Debug, PartialEq, Eq)]
pub enum EventKind {
    /// Packets were dropped.
    Drop,
    /// Bytes were cut off.
    Cut,
    /// The flow became synchronised.
    Sync,
    /// The flow lost its synchronisation.
    Lost,
}
