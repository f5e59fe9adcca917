// The bounds of the fields of pipes.
ghost use Rattle.std.specs.Prelude.{◌≡◌, ◌↔◌, All, IsTrue, true};
ghost use Rattle.up_base.specs.Name.{is_name};
ghost use Rattle.up_model.specs.WellFormed.{IsPipe};

use crate::{MAX_PID, MAX_QUEUE, Pipe, PipeList};

/// Whether the fields of a pipe are within their bounds. Names are names by their type.
fn is_pipe(pipe: &Pipe) -> bool
    ensures { IsTrue result ↔ IsPipe pipe.now }
{
    let _name = pipe.name.bytes();
    let _worker = pipe.worker.bytes();
    pipe.input.is_some() != pipe.kind.is_source()
        && pipe.select.is_none_or(|number| number <= MAX_PID)
        && 1 <= pipe.queue
        && pipe.queue <= MAX_QUEUE
        && pipe.kind.is_within_bounds()
}

/// Whether the fields of all pipes are within their bounds.
pub(crate) fn are_pipes(pipes: &PipeList) -> bool
    ensures { IsTrue result ↔ All IsPipe pipes.now }
{
    for place in 0..pipes.len() {
        if !is_pipe(pipes.at(place)) {
            return false;
        }
    }
    true
}
