/// A call on a path that a depot in memory can be told to let fail.
#[derive(Clone, Copy, Debug, PartialEq, Eq)]
pub enum DepotCall {
    OpenSource,
    Read,
    OpenSink,
    Write,
    CloseSink,
}
