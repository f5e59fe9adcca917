ghost use Rattle.std.specs.Prelude.{◌≡◌};
ghost use Rattle.upipe_run.specs.Endings.{ending_by, ending_told, refused_ending};

use up_graph::GraphRefused;
use up_model::{Outcome, OutcomeList, Pipe, PipeList};
use up_report::Fault;

/// How a run ended.
#[derive(Debug, Drop)]
pub enum Ending {
    /// The whole job was done.
    Whole,
    /// This fault decides.
    Faulty(Fault),
    /// No memory was found.
    NoMemory,
}

/// The ending of a run whose graph file was refused.
pub fn refused_ending(refused: GraphRefused) -> Ending
    ensures { result ≡ refused_ending refused }
{
    match refused {
        GraphRefused::NoMemory => Ending::NoMemory,
        refused => Ending::Faulty(Fault::Graph(refused)),
    }
}

/// The ending that a pipe decides which came to this outcome.
fn ending_by(pipe: &Pipe, outcome: Outcome) -> Ending
    ensures { result ≡ ending_by pipe.now outcome }
{
    match outcome {
        Outcome::ReadFault => Ending::Faulty(Fault::Read(pipe.name)),
        Outcome::WriteFault => Ending::Faulty(Fault::Write(pipe.name)),
        Outcome::BadFrame { offset } => Ending::Faulty(Fault::BadFrame {
            pipe: pipe.name,
            offset,
        }),
        Outcome::TooLong { limit } => Ending::Faulty(Fault::TooLong {
            pipe: pipe.name,
            limit,
        }),
        Outcome::Whole | Outcome::Broken | Outcome::NoMemory => Ending::Whole,
    }
}

/// The ending of a graph whose pipes came to these, by the place of the pipe that decides it. A place of no pipe
/// decides nothing.
#[tactic(auto, using(crate::proofs::Deciding::past_pipes, crate::proofs::Deciding::past_ends))]
pub fn ending_told(pipes: &PipeList, ends: &OutcomeList, decides: Option<usize>) -> Ending
    ensures { result ≡ ending_told pipes.now ends.now decides }
{
    let Some(place) = decides else {
        return Ending::Whole;
    };
    if pipes.len() <= place {
        return Ending::Whole;
    }
    if ends.len() <= place {
        return Ending::Whole;
    }
    ending_by(pipes.at(place), *ends.at(place))
}
