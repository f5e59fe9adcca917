ghost use Rattle.std.specs.Prelude.{◌≡◌, ℕ, List, Some};
ghost use Rattle.std.specs.Prelude.{IfOk, OnOk, IfSome};
ghost use Rattle.std.specs.FinMap as map;
ghost use Rattle.up_outside.specs.Asked.{IsOpenAt, source_ending, sink_ending};
ghost use Rattle.up_outside.specs.DepotCalls.{AsksFor, IsClosed, IsSourceOf, IsEmptySink};
ghost use Rattle.up_outside.specs.Held.{KeepsOthers};
ghost use Rattle.up_outside.specs.States.{DepotState};
ghost use Rattle.up_outside.specs.Told.{Then};

use crate::{Side, Sink, Source};
use up_base::{Failed, Refusal};

/// What opens sources and sinks by their paths, and closes them. A depot may tell what it holds and what was asked of
/// it, as one in memory does; the files of a system tell neither.
pub trait Depot {
    type Src: Source + Send;

    type Snk: Sink + Send;

    /// What it holds, what was asked of it, and how many of its calls failed.
    ghost state: { Self → DepotState };

    /// Opens what lies at the path for reading. A path at which nothing lies is a fault.
    fn open_source(&mut self, path: &str) -> Result<Self::Src, Refusal>
        ensures opens { IfOk result (λ s. IsSourceOf (state self.old) path.now (Self.Src.state s)) }
        ensures asks { AsksFor (state self.old) (state self.new) Side.Source path.now result }
        ensures held { (state self.new).held ≡ (state self.old).held };

    /// Opens a sink that will be what lies at the path. What lies there until the close is open.
    fn open_sink(&mut self, path: &str) -> Result<Self::Snk, Refusal>
        ensures opens { IfOk result (λ k. IsEmptySink (state self.old) (Self.Snk.state k)) }
        ensures asks { AsksFor (state self.old) (state self.new) Side.Sink path.now result }
        ensures held { Then (KeepsOthers path.now) (state self.old).held (state self.new).held };

    /// Takes back a source that this depot opened, and counts it where one of its reads failed.
    fn close_source(&mut self, s: Self::Src)
        requires { IfSome (state self.old).asked (λ asked. (path : List ℕ)
            × IsOpenAt asked (Self.Src.state s).place Side.Source path) }
        ensures closes { IsClosed (state self.old) (state self.new) Side.Source
            (source_ending (Self.Src.state s)) }
        ensures held { (state self.new).held ≡ (state self.old).held };

    /// Takes back a sink that this depot opened at the path. After `Ok` what was written lies there.
    fn close_sink(&mut self, path: &str, k: Self::Snk) -> Result<(), Failed>
        requires { IfSome (state self.old).asked (λ asked.
            IsOpenAt asked (Self.Snk.state k).place Side.Sink path.now) }
        ensures closes { IsClosed (state self.old) (state self.new) Side.Sink
            (sink_ending (Self.Snk.state k) result) }
        ensures held { Then (KeepsOthers path.now) (state self.old).held (state self.new).held }
        ensures stored { OnOk result (IfSome (state self.old).held (λ held.
            IfSome (Self.Snk.state k).written (λ bytes.
            (state self.new).held ≡ Some (map.insert held path.now bytes)))) };
}
