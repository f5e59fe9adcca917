use up_base::Text;

/// Which way the bytes of an open go.
#[derive(Clone, Copy, Debug, PartialEq, Eq)]
pub enum Side {
    Source,
    Sink,
}

/// What became of an open.
#[derive(Clone, Copy, Debug, PartialEq, Eq)]
pub enum Mark {
    /// The open failed.
    Refused,
    /// The object that was opened wasn't closed yet.
    Open,
    /// The object was closed. `moved` counts the bytes that it gave or took. `failed` says that one of its calls or the
    /// close failed, and `shut` that the close didn't.
    Closed {
        moved: u64,
        failed: bool,
        shut: bool,
    },
}

/// One open that was asked of a depot.
#[derive(Debug, Drop)]
pub struct Entry {
    pub path: Text,
    pub side: Side,
    pub mark: Mark,
}
