ghost use Rattle.std.specs.Prelude.{◌≡◌};
ghost use Rattle.up_report.specs.Faults.{status_of};

use up_base::PipeName;
use up_graph::GraphRefused;

/// Why the program ends with a status other than 0, if it isn't for want of memory.
#[derive(Debug, Drop)]
pub enum Fault {
    /// The words aren't taken.
    Usage,
    /// The text of the graph file has no graph.
    Graph(GraphRefused),
    /// The graph file couldn't be opened or read.
    ReadGraph,
    /// The source of this pipe couldn't be opened or read.
    Read(PipeName),
    /// The sink of this pipe couldn't be opened, written or closed.
    Write(PipeName),
    /// The report couldn't be written.
    WriteReport,
    /// The bytes of this pipe's source have a broken or unfinished frame, which begins at the offset in bytes.
    BadFrame { pipe: PipeName, offset: u64 },
    /// The source of this pipe gave more bytes than its limit.
    TooLong { pipe: PipeName, limit: u64 },
}

impl Fault {
    /// The status that the program ends with.
    pub fn status(&self) -> u8
        ensures { result ≡ status_of self.now }
    {
        match self {
            Fault::Usage => 2,
            Fault::Graph(GraphRefused::NoMemory) => 7,
            Fault::Graph(_) => 3,
            Fault::ReadGraph => 4,
            Fault::Read(_) => 4,
            Fault::Write(_) => 5,
            Fault::WriteReport => 5,
            Fault::BadFrame { .. } => 6,
            Fault::TooLong { .. } => 8,
        }
    }
}
