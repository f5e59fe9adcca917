// How the pipes of a strand ended.
ghost use Rattle.std.specs.Prelude.{◌≡◌};
ghost use Rattle.up_strand.specs.History.{outcome_without, told_at_last};
ghost use Rattle.up_strand.specs.Strands.{outcome_of_part};

use crate::node::Part;
use up_model::Outcome;

/// The outcome of a pipe without a cause of its own, by whether memory ran out and by how the flow
/// of the head ended.
fn without_cause(short: bool, ended: Option<Outcome>) -> Outcome
    ensures { result ≡ outcome_without short ended }
{
    if short {
        return Outcome::NoMemory;
    }
    match ended {
        Some(outcome) => outcome.behind(),
        None => Outcome::Whole,
    }
}

/// The outcome of a pipe that does this part.
pub(crate) fn outcome_of<K>(part: &Part<K>, short: bool, ended: Option<Outcome>) -> Outcome
    ensures { result ≡ outcome_of_part part.now short ended }
{
    match (part, ended) {
        (Part::Head, Some(outcome)) if outcome.is_cause() => outcome,
        (Part::Sink { failed: true, .. }, _) => Outcome::WriteFault,
        _ => without_cause(short, ended),
    }
}

/// The outcome where the strand was done, or was given up before.
pub(crate) fn told_at_last(done: bool, outcome: Outcome) -> Outcome
    ensures { result ≡ told_at_last done outcome }
{
    match outcome {
        Outcome::Whole if !done => Outcome::Broken,
        other => other,
    }
}
