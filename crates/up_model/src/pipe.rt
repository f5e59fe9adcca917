ghost use Rattle.std.specs.Prelude.{◌≡◌, codes};

use crate::{CatchSet, Kind};
use up_base::{PipeName, WorkerName};

/// A pipe of a graph.
#[derive(Debug, Drop)]
pub struct Pipe {
    pub name: PipeName,
    /// The worker that runs it.
    pub worker: WorkerName,
    /// The place of the pipe whose output it takes. A source has none.
    pub input: Option<u16>,
    /// The packet identifier that it takes of a split input, 0 to 8,191.
    pub select: Option<u16>,
    /// The length of its lane, where it has one: 1 to 4,096 items.
    pub queue: u16,
    /// The kinds of event that its own probe catches.
    pub caught: CatchSet,
    pub kind: Kind,
}

/// The worker of a pipe whose graph names none: `main`.
pub fn default_worker() -> WorkerName
    ensures { result ≡ codes "main" }
{
    WorkerName::of(b"main")
}
