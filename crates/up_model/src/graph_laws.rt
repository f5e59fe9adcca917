// Laws of whole graphs. A law is the contract of a function that does nothing.
ghost use Rattle.std.specs.Prelude.{◌≡◌, ◌<◌, ◌≤◌, ◌++◌, [], ℕ, true, false, List, All, length, slice_get, Some};
ghost use Rattle.std.specs.Option.{IsSome};
ghost use Rattle.up_base.specs.Lists.{IsPrefix};
ghost use Rattle.up_base.specs.Number.{AreBytes};
ghost use Rattle.up_model.specs.Ends.{is_source, path_of, reads_frames};
ghost use Rattle.up_model.specs.Inputs.{PipeTest, consumer_count, reached_within, reached, source_of};
ghost use Rattle.up_model.specs.Kinds.{IsWithinBounds, fan_out_of};
ghost use Rattle.up_model.specs.Meaning.{Doing, Feeding, so_far, wholly, is_fed_by, to_sources, IsFedMore, MeetsAll, taken_at, flow_by, pipe_work, flow_at, input_of, sink_bytes, settled_flow, settled_input, settled_bytes};
ghost use Rattle.up_model.specs.Outcomes.{carried_as, carried_flows, source_flow, source_flows};
ghost use Rattle.up_model.specs.Packet.{Flow, IsLegal};
ghost use Rattle.up_model.specs.Rules.{ComesToSource, FeedsRightly, IsTold, TakesRightly};
ghost use Rattle.up_model.specs.WellFormed.{IsWellFormed, graph_fault, worker_places};
ghost use Rattle.up_model.specs.declared.graph_fault.GraphFault.{GraphFault as TheFault};
ghost use Rattle.up_model.specs.declared.kind.Kind.{Kind as TheKind};
ghost use Rattle.up_model.specs.declared.limits.TheConstants.{MAX_WORKERS};
ghost use Rattle.up_model.specs.declared.outcome.Outcome.{Outcome as TheOutcome};
ghost use Rattle.up_model.specs.declared.outcome.Outcome.TheVariants as outcomes;
ghost use Rattle.up_model.specs.declared.pipe.Pipe.{Pipe as ThePipe};

/// What a well-formed graph keeps, rule by rule: names differ, each input is a pipe of the graph, along inputs each pipe comes to a
/// source, as many pipes take an output as it feeds and select what is split alone, a sink's path is no other pipe's, and there are
/// at most 16 workers.
pub fn rules_are_kept()
    ensures names { (pipes : List ThePipe) (a b : ℕ) (one other : ThePipe) → IsWellFormed pipes
        → slice_get pipes a ≡ Some one → slice_get pipes b ≡ Some other
        → one.name ≡ other.name → a ≡ b }
    ensures inputs { (pipes : List ThePipe) (place input : ℕ) (pipe : ThePipe) → IsWellFormed pipes
        → slice_get pipes place ≡ Some pipe → pipe.input ≡ Some input → input < length pipes }
    ensures sources { (pipes : List ThePipe) (place : ℕ) → IsWellFormed pipes
        → place < length pipes → ComesToSource pipes place }
    ensures outputs { (pipes : List ThePipe) (place : ℕ) (pipe : ThePipe) → IsWellFormed pipes
        → slice_get pipes place ≡ Some pipe
        → FeedsRightly (fan_out_of pipe.kind) (consumer_count pipes place) }
    ensures flows { (pipes : List ThePipe) (place at : ℕ) (pipe input : ThePipe)
        → IsWellFormed pipes → slice_get pipes place ≡ Some pipe → pipe.input ≡ Some at
        → slice_get pipes at ≡ Some input → TakesRightly (fan_out_of input.kind) pipe.select }
    ensures paths { (pipes : List ThePipe) (a b : ℕ) (one other : ThePipe) (path : List ℕ)
        → IsWellFormed pipes → slice_get pipes a ≡ Some one → slice_get pipes b ≡ Some other
        → path_of one.kind ≡ Some path → path_of other.kind ≡ Some path
        → is_source one.kind ≡ false → a ≡ b }
    ensures workers { (pipes : List ThePipe) → IsWellFormed pipes
        → length (worker_places pipes) ≤ MAX_WORKERS }
{}

/// A fault that is told is the first of its test: a pipe stands at its place and has it, and no pipe before it.
pub fn the_first_fault_is_told()
    ensures { (pipes : List ThePipe) (fault : TheFault) → graph_fault pipes ≡ Some fault
        → IsTold pipes fault }
{}

/// What is reached along inputs in any number of steps is reached in as many as there are pipes.
pub fn more_steps_reach_no_other()
    ensures { (test : PipeTest) (pipes : List ThePipe) (steps place found : ℕ)
        → reached_within steps test pipes place ≡ Some found
        → reached test pipes place ≡ Some found }
{}

/// What a pipe puts out is what it does with what it takes, where along inputs it comes to a pipe that is fed; and whatever meets
/// this at all such places is what they put out.
pub fn flows_unroll()
    ensures meets { (does : Doing) (pipes : List ThePipe) (fed : Feeding) (place : ℕ)
        → IsSome (reached (is_fed_by fed) pipes place)
        → flow_by does pipes fed place ≡ (pipe_work does pipes fed place).flow }
    ensures alone { (does : Doing) (pipes : List ThePipe) (fed : Feeding) (flows : ℕ → Flow)
        → MeetsAll does pipes fed flows → (place : ℕ)
        → IsSome (reached (is_fed_by fed) pipes place)
        → flows place ≡ flow_by does pipes fed place }
{}

/// A graph is fed at its sources: something fed is reached where the source is, and longer flows are fed more.
pub fn sources_are_fed()
    ensures reached { (pipes : List ThePipe) (given : ℕ → Flow) (place : ℕ)
        → reached (is_fed_by (to_sources pipes given)) pipes place ≡ source_of pipes place }
    ensures more { (pipes : List ThePipe) (given more : ℕ → Flow)
        → ((source : ℕ) → IsPrefix (given source) (more source)) → (place : ℕ)
        → IsFedMore (to_sources pipes given place) (to_sources pipes more place) }
{}

/// What a pipe puts out is said by its own source alone, whatever all others carry.
pub fn a_source_feeds_its_own_pipes()
    ensures { (does : Doing) (pipes : List ThePipe) (given other : ℕ → Flow) (place source : ℕ)
        → source_of pipes place ≡ Some source → other source ≡ given source
        → flow_by does pipes (to_sources pipes other) place
        ≡ flow_by does pipes (to_sources pipes given) place }
{}

/// A graph that is cut anywhere puts out the same, where each pipe that is then fed is fed what it takes of the whole.
pub fn a_cut_changes_nothing()
    ensures { (does : Doing) (pipes : List ThePipe) (fed cut : Feeding)
        → ((place : ℕ) → place < length pipes → IsSome (reached (is_fed_by fed) pipes place))
        → ((place : ℕ) (pipe : ThePipe) → slice_get pipes place ≡ Some pipe
        → taken_at does pipes cut (flow_by does pipes fed) place pipe
        ≡ taken_at does pipes fed (flow_by does pipes fed) place pipe)
        → (place : ℕ) → place < length pipes → IsSome (reached (is_fed_by cut) pipes place)
        → flow_by does pipes fed place ≡ flow_by does pipes cut place }
{}

/// What is settled of what is fed is a prefix of what is settled of more, and of what comes of that in all.
pub fn settled_flows_grow()
    ensures longer { (pipes : List ThePipe) (fed more : Feeding) (place : ℕ) → IsWellFormed pipes
        → ((at : ℕ) → IsFedMore (fed at) (more at))
        → IsPrefix (flow_by so_far pipes fed place) (flow_by so_far pipes more place) }
    ensures whole { (pipes : List ThePipe) (fed more : Feeding) (place : ℕ) → IsWellFormed pipes
        → ((at : ℕ) → IsFedMore (fed at) (more at))
        → IsPrefix (flow_by so_far pipes fed place) (flow_by wholly pipes more place) }
{}

/// So are the bytes that are settled for a sink, where each source carries at least as much.
pub fn settled_bytes_grow()
    ensures longer { (pipes : List ThePipe) (given more : ℕ → Flow) (sink : ThePipe)
        → IsWellFormed pipes → IsWithinBounds sink.kind
        → ((source : ℕ) → IsPrefix (given source) (more source))
        → IsPrefix (settled_bytes pipes given sink) (settled_bytes pipes more sink) }
    ensures whole { (pipes : List ThePipe) (given more : ℕ → Flow) (sink : ThePipe)
        → IsWellFormed pipes → IsWithinBounds sink.kind
        → ((source : ℕ) → IsPrefix (given source) (more source))
        → IsPrefix (settled_bytes pipes given sink) (sink_bytes pipes more sink) }
{}

/// What a source carried, however it ended, comes first of all that its bytes hold. A source that is whole gave all of them.
pub fn carried_comes_first()
    ensures { (ends : TheOutcome) (kind : TheKind) (bytes more : List ℕ) → IsWithinBounds kind
        → (ends ≡ outcomes.Whole → more ≡ [])
        → IsPrefix (carried_as ends kind bytes) (source_flow kind (bytes ++ more)) }
{}

/// What is settled for a sink of what its source carried is a prefix of what it is to hold of all of the source's bytes.
pub fn carried_bytes_come_first()
    ensures { (pipes : List ThePipe) (ends : ℕ → TheOutcome) (bytes more : ℕ → List ℕ)
        (sink : ThePipe) → IsWellFormed pipes → IsWithinBounds sink.kind
        → ((source : ℕ) → ends source ≡ outcomes.Whole → more source ≡ [])
        → IsPrefix (settled_bytes pipes (carried_flows pipes ends bytes) sink)
        (sink_bytes pipes (source_flows pipes (λ source. bytes source ++ more source)) sink) }
{}

/// In a well-formed graph all packets are legal where those of the sources are, and these are legal, those of frames where
/// they are made of bytes.
pub fn flows_stay_legal()
    ensures put { (pipes : List ThePipe) (given : ℕ → Flow) (place : ℕ) → IsWellFormed pipes
        → ((source : ℕ) → All IsLegal (given source)) → All IsLegal (flow_at pipes given place) }
    ensures taken { (pipes : List ThePipe) (given : ℕ → Flow) (pipe : ThePipe) → IsWellFormed pipes
        → ((source : ℕ) → All IsLegal (given source)) → All IsLegal (input_of pipes given pipe) }
    ensures settled_put { (pipes : List ThePipe) (given : ℕ → Flow) (place : ℕ)
        → IsWellFormed pipes → ((source : ℕ) → All IsLegal (given source))
        → All IsLegal (settled_flow pipes given place) }
    ensures settled_taken { (pipes : List ThePipe) (given : ℕ → Flow) (pipe : ThePipe)
        → IsWellFormed pipes → ((source : ℕ) → All IsLegal (given source))
        → All IsLegal (settled_input pipes given pipe) }
    ensures sources { (pipes : List ThePipe) (ends : ℕ → TheOutcome) (bytes : ℕ → List ℕ)
        (place : ℕ) → IsWellFormed pipes
        → ((pipe : ThePipe) → slice_get pipes place ≡ Some pipe → reads_frames pipe.kind ≡ true
        → AreBytes (bytes place))
        → All IsLegal (carried_flows pipes ends bytes place) }
{}
