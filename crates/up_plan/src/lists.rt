// Places of a graph, and lists of them.
ghost use Rattle.std.specs.Prelude.{◌≡◌, OnErr, OnOk, IfOk, MatchOption, slice_get, None, Some};

use std::alloc::Global;
use up_base::NoMemory;
use up_model::{Pipe, PipeList, PlaceList};

/// The pipe at a place.
pub fn pipe_at(pipes: &PipeList, place: u16) -> Option<&Pipe>
    ensures { MatchOption result (slice_get pipes.now place ≡ None)
        (λ pipe. slice_get pipes.now place ≡ Some pipe.now) }
{
    if usize::from(place) < pipes.len() {
        Some(pipes.at(usize::from(place)))
    } else {
        None
    }
}

/// A list of these places.
pub fn place_list(alloc: Global, places: &[u16]) -> Result<PlaceList, NoMemory>
    ensures { IfOk result (λ list. list ≡ places.now) }
{
    let mut list = PlaceList::new(alloc);
    for place in places {
        match list.push(*place) {
            Ok(()) => {}
            Err(_) => return Err(NoMemory),
        }
    }
    Ok(list)
}
