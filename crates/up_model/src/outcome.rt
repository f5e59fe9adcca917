ghost use Rattle.std.specs.Prelude.{◌≡◌, false, slice_get};
ghost use Rattle.std.specs.Option.{option_map_or};
ghost use Rattle.up_model.specs.Outcomes.{deciding, is_cause};

use crate::OutcomeList;

/// How a run ended for one pipe.
#[derive(Clone, Copy, Debug, PartialEq, Eq)]
pub enum Outcome {
    /// Its flow ended whole.
    Whole,
    /// Its source couldn't be opened or read.
    ReadFault,
    /// Its sink couldn't be opened, written or closed.
    WriteFault,
    /// Its source had a frame that is broken, or unfinished at its end, `offset` bytes from its start.
    BadFrame { offset: u64 },
    /// Its source had more than `limit` bytes.
    TooLong { limit: u64 },
    /// What it took ended broken, or another pipe's open was refused.
    Broken,
    /// No memory was found.
    NoMemory,
}

impl Outcome {
    ghost use Rattle.up_model.specs.Outcomes.{is_cause, outcome_behind};

    /// Whether it is the pipe's own fault, and no other pipe's.
    pub fn is_cause(self) -> bool
        ensures { result ≡ is_cause self }
    {
        match self {
            Outcome::ReadFault
            | Outcome::WriteFault
            | Outcome::BadFrame { .. }
            | Outcome::TooLong { .. } => true,
            Outcome::Whole | Outcome::Broken | Outcome::NoMemory => false,
        }
    }

    /// The outcome of a pipe without a fault of its own whose source ended so.
    pub fn behind(self) -> Outcome
        ensures { result ≡ outcome_behind self }
    {
        match self {
            Outcome::Whole => Outcome::Whole,
            Outcome::ReadFault
            | Outcome::WriteFault
            | Outcome::BadFrame { .. }
            | Outcome::TooLong { .. }
            | Outcome::Broken
            | Outcome::NoMemory => Outcome::Broken,
        }
    }
}

fn is_cause_at(outcomes: &OutcomeList, place: usize) -> bool
    ensures { result ≡ option_map_or is_cause (slice_get outcomes.now place) false }
{
    place < outcomes.len() && outcomes.at(place).is_cause()
}

/// The place of the pipe that decides how a run is told: the first in file order with a fault of its own.
pub fn deciding(outcomes: &OutcomeList) -> Option<usize>
    ensures { result ≡ deciding outcomes.now }
{
    (0..outcomes.len()).position(|place| is_cause_at(outcomes, place))
}
