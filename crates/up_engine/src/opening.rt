// The paths of a graph, opened.
ghost use Rattle.std.specs.Prelude.{◌≡◌, ◌<◌, length, slice_index_or, slice_set, true, IfOk, IfSome};
ghost use Rattle.std.specs.Option.{is_some};
ghost use Rattle.up_engine.specs.Entries.{path_places};
ghost use Rattle.up_engine.specs.Objects.{AreThere, Opens, OpensOne, StandsOpen};
ghost use Rattle.up_engine.specs.declared.object.Object.TheVariants as objects;
ghost use Rattle.up_model.specs.Ends.{path_of};
ghost use Rattle.up_model.specs.WellFormed.{IsWellFormed};

use crate::object::Object;
use std::mem;
use up_base::Refusal;
use up_model::{Graph, Kind};
use up_outside::Depot;

/// Where the opening of the paths stopped.
#[derive(Clone, Copy, Debug, PartialEq, Eq)]
pub(crate) enum Opening {
    /// Behind the last.
    All,
    /// At the path of the pipe at this place, which couldn't be opened.
    Refused { place: u16 },
    /// For want of memory.
    NoMemory,
}

/// Opens the paths of the pipes at these places, in this order, up to the first that is refused.
pub(crate) fn open_all<D: Depot>(
    graph: &Graph,
    order: &[u16],
    depot: &mut D,
    table: &mut [Object<D::Src, D::Snk>],
) -> Opening
    requires well_formed { IsWellFormed graph.now.pipes }
    requires order { order.now ≡ path_places graph.now.pipes }
    requires none { AreThere D.Src.state D.Snk.state graph.now.pipes 0 table.old }
    ensures { Opens D.Src.state D.Snk.state graph.now.pipes (D.state depot.old) (D.state depot.new)
        table.new result }
{
    for i in 0..order.len() {
        let place = order[i];
        match open_one(&graph.pipes.at(usize::from(place)).kind, depot) {
            Ok(object) => put(table, usize::from(place), object),
            Err(Refusal::Failed) => return Opening::Refused { place },
            Err(Refusal::NoMemory) => return Opening::NoMemory,
        }
    }
    Opening::All
}

pub(crate) fn open_one<D: Depot>(
    kind: &Kind,
    depot: &mut D,
) -> Result<Object<D::Src, D::Snk>, Refusal>
    requires { is_some (path_of kind.now) ≡ true }
    ensures opens { OpensOne D.Src.state D.Snk.state kind.now (D.state depot.old)
        (D.state depot.new) result }
    ensures open_entry { IfOk result (λ object. IfSome (D.state depot.new).asked
        (StandsOpen D.Src.state D.Snk.state kind.now object)) }
{
    match kind {
        Kind::Source { path, .. } => Ok(Object::Source(depot.open_source(path.as_str())?)),
        Kind::Sink { path, .. } => Ok(Object::Sink(depot.open_sink(path.as_str())?)),
        _ => unreachable!(),
    }
}

/// Puts an object into its empty place.
pub(crate) fn put<S, K>(table: &mut [Object<S, K>], place: usize, object: Object<S, K>)
    requires within { place < length table.old }
    requires empty { slice_index_or table.old place objects.None ≡ objects.None }
    ensures { table.new ≡ slice_set table.old place object }
{
    match mem::replace(&mut table[place], object) {
        Object::None => {}
        _ => unreachable!(),
    }
}
