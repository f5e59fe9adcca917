// What follows from what a strand did. A law is the contract of a function that does nothing.
ghost use Rattle.std.specs.Prelude.{◌≡◌, ◌<◌, ◌≤◌, ◌+◌, ℕ, List, None, Some, true, false, is_some, length, slice_get};
ghost use Rattle.std.specs.List.{Contains};
ghost use Rattle.std.specs.Option.{IsSome};
ghost use Rattle.up_base.specs.Lists.{IsPrefix};
ghost use Rattle.up_model.specs.Ends.{is_source};
ghost use Rattle.up_model.specs.Inputs.{ends_at_source, passes_at, reached};
ghost use Rattle.up_model.specs.Meaning.{is_fed_by};
ghost use Rattle.up_model.specs.Outcomes.{is_cause, own_outcome, settled_source_flow, shown_of};
ghost use Rattle.up_model.specs.Packet.{Flow};
ghost use Rattle.up_model.specs.Plans.{is_fed, outlets_of, strand_of};
ghost use Rattle.up_model.specs.declared.form.SourceForm.{SourceForm as TheForm};
ghost use Rattle.up_model.specs.declared.form.SourceForm.TheVariants as forms;
ghost use Rattle.up_model.specs.declared.kind.Kind.TheVariants as kinds;
ghost use Rattle.up_model.specs.declared.outcome.Outcome.{Outcome as TheOutcome};
ghost use Rattle.up_model.specs.declared.pipe.Pipe.{Pipe as ThePipe};
ghost use Rattle.up_strand.specs.History.{History, head_flow, to_head};
ghost use Rattle.up_strand.specs.StrandCalls.{HasMoreDue, HasNoneWaiting, LaneStands};
ghost use Rattle.up_strand.specs.Strands.{StandsFor, ended_at_fault, want_of};
ghost use Rattle.up_strand.specs.declared.strand.Strand.{Strand as TheStrand};
ghost use Rattle.up_strand.specs.declared.want.Want.TheVariants as wants;

use up_outside::{Sink, Source};
use up_shape::LocalPacket;

/// The head of a strand was fed the packets that it had; where memory ran out, the first of them.
/// While a source goes on, a raw one put out all blocks that its bytes fill, and one of frames the
/// first of the packets that they hold. No source put out more packets than it gave bytes.
pub fn a_head_is_fed_what_it_has<P: LocalPacket, S: Source, K: Sink>()
    ensures first { (strand : TheStrand P S K) (h : History)
        → StandsFor P.plain S.state K.state strand h → IsPrefix h.fed (head_flow h) }
    ensures all { (strand : TheStrand P S K) (h : History)
        → StandsFor P.plain S.state K.state strand h
        → h.short ≡ false → h.fed ≡ head_flow h }
    ensures settled { (strand : TheStrand P S K) (h : History) (pipe : ThePipe)
        → StandsFor P.plain S.state K.state strand h → slice_get h.pipes h.head ≡ Some pipe
        → is_source pipe.kind ≡ true → h.ended ≡ None
        → IsPrefix h.fed (settled_source_flow pipe.kind h.read) }
    ensures blocks { (strand : TheStrand P S K) (h : History) (pipe : ThePipe)
        (path : List ℕ) (block limit : ℕ)
        → StandsFor P.plain S.state K.state strand h → slice_get h.pipes h.head ≡ Some pipe
        → pipe.kind ≡ kinds.Source path (forms.Raw block) limit → h.ended ≡ None
        → h.fed ≡ settled_source_flow pipe.kind h.read }
    ensures few { (strand : TheStrand P S K) (h : History) (pipe : ThePipe)
        → StandsFor P.plain S.state K.state strand h → slice_get h.pipes h.head ≡ Some pipe
        → is_source pipe.kind ≡ true → length h.fed ≤ length h.read }
{}

/// Where memory didn't run out, how a source ended is told by its bytes, and by whether a read
/// failed, which is told only where the bytes show no cause of their own. At most one byte past its
/// limit was read, and none where a read failed. Where a source ended by a cause of its own, memory
/// hadn't run out.
pub fn a_source_ends_by_its_bytes<P: LocalPacket, S: Source, K: Sink>()
    ensures ended { (strand : TheStrand P S K) (h : History) (pipe : ThePipe)
        (outcome : TheOutcome) → StandsFor P.plain S.state K.state strand h
        → h.short ≡ false → slice_get h.pipes h.head ≡ Some pipe
        → is_source pipe.kind ≡ true → h.ended ≡ Some outcome
        → own_outcome pipe.kind (ended_at_fault h.ended) h.read ≡ Some outcome }
    ensures bounded { (strand : TheStrand P S K) (h : History) (pipe : ThePipe)
        (path : List ℕ) (form : TheForm) (limit : ℕ)
        → StandsFor P.plain S.state K.state strand h → slice_get h.pipes h.head ≡ Some pipe
        → pipe.kind ≡ kinds.Source path form limit → length h.read ≤ limit + 1 }
    ensures within { (strand : TheStrand P S K) (h : History) (pipe : ThePipe)
        (path : List ℕ) (form : TheForm) (limit : ℕ)
        → StandsFor P.plain S.state K.state strand h → slice_get h.pipes h.head ≡ Some pipe
        → pipe.kind ≡ kinds.Source path form limit → ended_at_fault h.ended ≡ true
        → length h.read ≤ limit }
    ensures unshown { (strand : TheStrand P S K) (h : History) (pipe : ThePipe)
        → StandsFor P.plain S.state K.state strand h → slice_get h.pipes h.head ≡ Some pipe
        → ended_at_fault h.ended ≡ true → shown_of pipe.kind h.read ≡ None }
    ensures long { (strand : TheStrand P S K) (h : History) (pipe : ThePipe)
        (outcome : TheOutcome) → StandsFor P.plain S.state K.state strand h
        → slice_get h.pipes h.head ≡ Some pipe → is_source pipe.kind ≡ true
        → h.ended ≡ Some outcome → is_cause outcome ≡ true → h.short ≡ false }
{}

/// What was taken out for a lane is what its head takes, where the head of this strand has the
/// packets that it had.
pub fn lanes_are_given_the_flow<P: LocalPacket, S: Source, K: Sink>()
    ensures { (strand : TheStrand P S K) (h : History) (lane : ℕ) (pipe : ThePipe)
        → StandsFor P.plain S.state K.state strand h
        → Contains (outlets_of h.pipes h.head) lane → slice_get h.pipes lane ≡ Some pipe
        → LaneStands h lane pipe (want_of strand) }
{}

/// A strand whose flow goes on asks for what its head is fed from; an item that waits is for a lane
/// that it fills and whose end wasn't taken out: of those for which something is due, the one whose
/// head is the first in the file; it is done only once its flow has ended.
pub fn a_strand_asks_by_what_it_did<P: LocalPacket, S: Source, K: Sink>()
    ensures read { (strand : TheStrand P S K) (h : History)
        → StandsFor P.plain S.state K.state strand h → want_of strand ≡ wants.Read
        → (h.ended ≡ None) × (passes_at ends_at_source h.pipes h.head ≡ true) }
    ensures input { (strand : TheStrand P S K) (h : History)
        → StandsFor P.plain S.state K.state strand h → want_of strand ≡ wants.Input
        → (h.ended ≡ None) × (passes_at is_fed h.pipes h.head ≡ true) }
    ensures output { (strand : TheStrand P S K) (h : History) (lane : ℕ)
        → StandsFor P.plain S.state K.state strand h → want_of strand ≡ wants.Output lane
        → Contains (outlets_of h.pipes h.head) lane × (h.closed lane ≡ false) }
    ensures due { (strand : TheStrand P S K) (h : History) (lane : ℕ) (pipe : ThePipe)
        → StandsFor P.plain S.state K.state strand h → want_of strand ≡ wants.Output lane
        → slice_get h.pipes lane ≡ Some pipe → HasMoreDue h lane pipe }
    ensures least { (strand : TheStrand P S K) (h : History) (lane other : ℕ) (pipe : ThePipe)
        → StandsFor P.plain S.state K.state strand h → want_of strand ≡ wants.Output lane
        → Contains (outlets_of h.pipes h.head) other → other < lane
        → slice_get h.pipes other ≡ Some pipe → HasNoneWaiting h other pipe }
    ensures done { (strand : TheStrand P S K) (h : History)
        → StandsFor P.plain S.state K.state strand h → want_of strand ≡ wants.Done
        → is_some h.ended ≡ true }
{}

/// What is fed to the head of a strand is reached along inputs from each of its pipes.
pub fn a_strand_is_fed_at_its_head()
    ensures { (pipes : List ThePipe) (head place : ℕ) (flow : Flow)
        → Contains (strand_of pipes head) place
        → IsSome (reached (is_fed_by (to_head head flow)) pipes place) }
{}
