use up_model::{CatchSet, DEFAULT_QUEUE, MAX_LIMIT};

/// What a pipe of a test does.
#[derive(Clone, Copy, Debug, PartialEq, Eq)]
pub(crate) enum Does {
    Source {
        block: u32,
        limit: u64,
    },
    /// A source of frames.
    Frames {
        limit: u64,
    },
    Sink,
    /// A sink of frames.
    FrameSink,
    Idem,
    Null,
    Dup,
    Skip(u32),
    /// Gives packets a number.
    SetAttr {
        attr: &'static str,
        value: u64,
    },
    /// Gives packets a text as `title`.
    Titles(&'static str),
    /// Takes the attribute of this name away.
    DelAttr(&'static str),
    MatchAttr {
        attr: &'static str,
        low: u64,
        high: u64,
    },
    Delay(i64),
}

/// A pipe of a test. Its name, and its path where it has one, is `pipe` with its place.
#[derive(Clone, Copy, Debug)]
pub(crate) struct Row {
    pub does: Does,
    pub worker: &'static str,
    pub input: Option<u16>,
    /// The length of its lane, where it has one.
    pub queue: u16,
    pub caught: CatchSet,
}

/// A pipe whose probe catches nothing.
pub(crate) fn pipe_row(does: Does, worker: &'static str, input: Option<u16>) -> Row {
    Row {
        does,
        worker,
        input,
        queue: DEFAULT_QUEUE,
        caught: CatchSet::default(),
    }
}

/// A source of packets of three bytes.
pub(crate) const CAPTURE: Does = Does::Source {
    block: 3,
    limit: MAX_LIMIT,
};

/// A source, and on another worker a `dup` that feeds a lane, a sink by way of an `idem`, and a second lane.
pub(crate) fn behind() -> [Row; 6] {
    [
        pipe_row(CAPTURE, "one", None),
        pipe_row(Does::Dup, "two", Some(0)),
        pipe_row(Does::Sink, "three", Some(1)),
        pipe_row(Does::Idem, "two", Some(1)),
        pipe_row(Does::Sink, "two", Some(3)),
        pipe_row(Does::Sink, "four", Some(1)),
    ]
}
