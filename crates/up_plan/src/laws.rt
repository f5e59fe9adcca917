// Laws of the split. A law is the contract of a function that does nothing.
ghost use Rattle.std.specs.Prelude.{◌≡◌, ◌≢◌, ◌<◌, ◌+◌, ℕ, List, length, count_by};
ghost use Rattle.std.specs.List.{Contains};
ghost use Rattle.up_model.specs.Ends.{is_source};
ghost use Rattle.up_model.specs.Plans.{heads, strand_of, lanes, heads_on};
ghost use Rattle.up_model.specs.WellFormed.{IsWellFormed};
ghost use Rattle.up_model.specs.declared.pipe.Pipe.{Pipe as ThePipe};
ghost use Rattle.up_plan.specs.Laws.{ComesFromElsewhere, IsInOneStrand, IsOnOneWorker, IsFedWithin};
ghost use Rattle.up_plan.specs.Plan.{worker_at};

/// Each pipe of a well-formed graph stands in exactly one strand, and there once.
pub fn each_pipe_is_in_one_strand()
    ensures { (pipes : List ThePipe) (place : ℕ) → IsWellFormed pipes → place < length pipes
        → IsInOneStrand pipes place }
{}

/// A head stands in its own strand.
pub fn a_head_is_in_its_own_strand()
    ensures { (pipes : List ThePipe) (head : ℕ) → Contains (heads pipes) head
        → Contains (strand_of pipes head) head }
{}

/// In a strand a pipe other than the head takes from a pipe of the strand.
pub fn a_strand_is_joined_by_inputs()
    ensures { (pipes : List ThePipe) (head place : ℕ) → Contains (strand_of pipes head) place
        → place ≢ head → IsFedWithin pipes head place }
{}

/// The pipes of a strand have the worker of its head.
pub fn a_strand_has_its_heads_worker()
    ensures { (pipes : List ThePipe) (head place : ℕ) → Contains (strand_of pipes head) place
        → worker_at pipes place ≡ worker_at pipes head }
{}

/// What a worker runs is strands, and each strand is run by exactly one worker.
pub fn each_strand_is_on_one_worker()
    ensures heads { (pipes : List ThePipe) (worker : List ℕ) (head : ℕ)
        → Contains (heads_on pipes worker) head → Contains (heads pipes) head }
    ensures one { (pipes : List ThePipe) (head : ℕ) → Contains (heads pipes) head
        → IsOnOneWorker pipes head }
{}

/// There is a strand for each source, and one for each lane.
pub fn lanes_are_strands_less_sources()
    ensures { (pipes : List ThePipe) → length (lanes pipes)
        + count_by (λ pipe. is_source pipe.kind) pipes ≡ length (heads pipes) }
{}

/// A lane leads from a pipe of one worker to a head of another.
pub fn a_lane_comes_from_another_worker()
    ensures { (pipes : List ThePipe) (head : ℕ) → Contains (lanes pipes) head
        → ComesFromElsewhere pipes head }
{}
