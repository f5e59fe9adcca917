// The way along the inputs of pipes.
ghost use Rattle.std.specs.Prelude.{◌≡◌, slice_get};
ghost use Rattle.std.specs.Option.{option_map};
ghost use Rattle.up_model.specs.Inputs.{consumer_count, source_of, is_consumer_of};

use crate::{Pipe, PipeList};

/// The pipe at a place, where there is one.
pub(crate) fn pipe_at(pipes: &PipeList, place: usize) -> Option<&Pipe>
    ensures { option_map (λ pipe. pipe.now) result ≡ slice_get pipes.now place }
{
    if place < pipes.len() {
        Some(pipes.at(place))
    } else {
        None
    }
}

fn is_consumer_of(pipe: &Pipe, place: usize) -> bool
    ensures { result ≡ is_consumer_of place pipe.now }
{
    pipe.input.is_some_and(|input| usize::from(input) == place)
}

/// How many pipes take what is put out at the place.
pub(crate) fn consumer_count(pipes: &PipeList, place: usize) -> usize
    ensures { result ≡ consumer_count pipes.now place }
{
    (0..pipes.len())
        .filter(|number| pipe_at(pipes, *number).is_some_and(|pipe| is_consumer_of(pipe, place)))
        .count()
}

/// The source that is reached from a place along inputs.
pub(crate) fn source_of(pipes: &PipeList, place: usize) -> Option<usize>
    ensures { result ≡ source_of pipes.now place }
{
    let mut place = place;
    for _step in 0..pipes.len() {
        let pipe = pipe_at(pipes, place)?;
        if pipe.kind.is_source() {
            return Some(place);
        }
        place = usize::from(pipe.input?);
    }
    None
}
