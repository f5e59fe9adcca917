// What follows of strands that are joined by lanes. A law is the contract of a function that does
// nothing.
ghost use Rattle.std.specs.Prelude.{◌≡◌, ℕ, List, [], slice_get, Some, false};
ghost use Rattle.std.specs.List.{Contains};
ghost use Rattle.up_base.specs.Lists.{IsPrefix};
ghost use Rattle.up_engine.specs.Flows.{AreJoined, HadMemory, HaveEnded, HeadEnds, HeadStands, bytes_meant, flow_meant};
ghost use Rattle.up_engine.specs.Joins.{PlainItem, filler_of};
ghost use Rattle.up_model.specs.Inputs.{source_of};
ghost use Rattle.up_model.specs.Plans.{heads, lanes, strand_of};
ghost use Rattle.up_model.specs.WellFormed.{IsWellFormed};
ghost use Rattle.up_model.specs.declared.pipe.Pipe.{Pipe as ThePipe};
ghost use Rattle.up_strand.specs.History.{History, doing};
ghost use Rattle.up_strand.specs.StrandCalls.{bytes_due};

/// The head of each strand had the first of what it is to take of what its source put out; and all
/// of it where its flow came to its whole end. What was taken out for its lane is the first of that
/// too.
pub fn heads_are_given_first_parts()
    ensures heads { (pipes : List ThePipe) (past : ℕ → History) (waiting : ℕ → List PlainItem)
        (source head : ℕ) (pipe : ThePipe) → IsWellFormed pipes → AreJoined pipes past waiting
        → Contains (heads pipes) head → source_of pipes head ≡ Some source
        → slice_get pipes head ≡ Some pipe → HeadStands pipes past source head pipe }
    ensures lanes { (pipes : List ThePipe) (past : ℕ → History) (waiting : ℕ → List PlainItem)
        (source lane filler : ℕ) (pipe : ThePipe) → IsWellFormed pipes
        → AreJoined pipes past waiting → Contains (lanes pipes) lane
        → filler_of pipes lane ≡ Some filler → source_of pipes lane ≡ Some source
        → slice_get pipes lane ≡ Some pipe
        → IsPrefix ((past filler).sent lane) (flow_meant pipes past source lane pipe) }
{}

/// Once all flows have ended, each head had all that it is to take, and its flow ended as its
/// source's did, unless memory ran out in a strand that fills a lane.
pub fn heads_are_given_all()
    ensures { (pipes : List ThePipe) (past : ℕ → History) (waiting : ℕ → List PlainItem)
        (source head : ℕ) (pipe : ThePipe) → IsWellFormed pipes → AreJoined pipes past waiting
        → HadMemory pipes past → HaveEnded pipes past
        → Contains (heads pipes) head → source_of pipes head ≡ Some source
        → slice_get pipes head ≡ Some pipe → HeadEnds pipes past source head pipe }
{}

/// What is due to be written to a sink, of the packets that the head of its strand had, is the
/// first of what the graph means of what its source put out; and all of it where the head had all.
pub fn sinks_are_due_first_parts()
    ensures first { (pipes : List ThePipe) (past : ℕ → History) (waiting : ℕ → List PlainItem)
        (source head place : ℕ) (pipe : ThePipe) → IsWellFormed pipes
        → AreJoined pipes past waiting → Contains (heads pipes) head
        → Contains (strand_of pipes head) place → source_of pipes head ≡ Some source
        → slice_get pipes place ≡ Some pipe
        → IsPrefix (bytes_due (past head) place pipe (doing (past head).ended))
        (bytes_meant pipes past source place pipe) }
    ensures all { (pipes : List ThePipe) (past : ℕ → History) (waiting : ℕ → List PlainItem)
        (source head place : ℕ) (pipe at : ThePipe) → IsWellFormed pipes
        → AreJoined pipes past waiting → Contains (heads pipes) head
        → Contains (strand_of pipes head) place → source_of pipes head ≡ Some source
        → slice_get pipes head ≡ Some at → HeadEnds pipes past source head at
        → HaveEnded pipes past
        → slice_get pipes place ≡ Some pipe
        → bytes_due (past head) place pipe (doing (past head).ended)
        ≡ bytes_meant pipes past source place pipe }
{}
