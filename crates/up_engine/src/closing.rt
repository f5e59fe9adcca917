// The paths of a graph, closed.
ghost use Rattle.std.specs.Prelude.{◌≡◌, ◌<◌, ◌⊎◌, ℕ, List, length, slice_index_or, slice_set, IfSome};
ghost use Rattle.std.specs.Option.{is_some};
ghost use Rattle.std.specs.Result.{is_err};
ghost use Rattle.up_engine.specs.Entries.{path_places};
ghost use Rattle.up_engine.specs.Objects.{AreOpen, AreThere, Closes, ClosesOne, IsOfKind, StandsOpen, moved_told, outcome_closed, place_told};
ghost use Rattle.up_engine.specs.declared.object.Object.TheVariants as objects;
ghost use Rattle.up_model.specs.WellFormed.{IsWellFormed};
ghost use Rattle.up_outside.specs.declared.asked.Entry.{Entry as TheEntry};

use crate::object::Object;
use std::mem;
use up_base::Failed;
use up_model::{Graph, Kind, Outcome};
use up_outside::{Depot, Sink, Source};

/// Closes what is open, in this order of the places. A sink whose close is refused has a write
/// fault, where its pipe has no cause of its own.
pub(crate) fn close_all<D: Depot>(
    graph: &Graph,
    order: &[u16],
    depot: &mut D,
    table: &mut [Object<D::Src, D::Snk>],
    outcomes: &mut [Outcome],
)
    requires well_formed { IsWellFormed graph.now.pipes }
    requires order { order.now ≡ path_places graph.now.pipes }
    requires there { (count : ℕ)
        × AreThere D.Src.state D.Snk.state graph.now.pipes count table.old
        × IfSome (D.state depot.old).asked (λ asked. (first : List TheEntry)
        × AreOpen D.Src.state D.Snk.state graph.now.pipes count table.old first asked) }
    requires outcomes { length outcomes.old ≡ length graph.now.pipes }
    ensures { (count : ℕ) → AreThere D.Src.state D.Snk.state graph.now.pipes count table.old
        → Closes D.Src.state D.Snk.state graph.now.pipes count (D.state depot.old)
        (D.state depot.new) table.old table.new outcomes.old outcomes.new }
{
    for i in 0..order.len() {
        let at = usize::from(order[i]);
        let object = take_out(table, at);
        let closed = close_one(&graph.pipes.at(at).kind, object, depot);
        outcomes[at] = outcome_closed(closed, outcomes[at]);
    }
}

pub(crate) fn take_out<S: Source, K: Sink>(table: &mut [Object<S, K>], place: usize) -> Object<S, K>
    requires { place < length table.old }
    ensures value { result ≡ slice_index_or table.old place objects.None }
    ensures together { is_some (moved_told S.state K.state result)
        ≡ is_some (place_told S.state K.state result) }
    ensures after { table.new ≡ slice_set table.old place objects.None }
{
    mem::replace(&mut table[place], Object::None)
}

pub(crate) fn close_one<D: Depot>(
    kind: &Kind,
    object: Object<D::Src, D::Snk>,
    depot: &mut D,
) -> Result<(), Failed>
    requires side { (object ≡ objects.None) ⊎ IsOfKind kind.now object }
    requires open_entry { IfSome (D.state depot.old).asked
        (StandsOpen D.Src.state D.Snk.state kind.now object) }
    ensures { ClosesOne D.Src.state D.Snk.state kind.now object (D.state depot.old)
        (D.state depot.new) (is_err result) }
{
    match object {
        Object::None => Ok(()),
        Object::Source(source) => {
            depot.close_source(source);
            Ok(())
        }
        Object::Sink(sink) => match kind {
            Kind::Sink { path, .. } => depot.close_sink(path.as_str(), sink),
            _ => unreachable!(),
        },
    }
}

/// The outcome of a pipe once what was open for it is closed.
fn outcome_closed(closed: Result<(), Failed>, outcome: Outcome) -> Outcome
    ensures { result ≡ outcome_closed (is_err closed) outcome }
{
    if closed.is_err() && !outcome.is_cause() {
        Outcome::WriteFault
    } else {
        outcome
    }
}
