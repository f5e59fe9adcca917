// What the nodes of a strand come to. A law is the contract of a function that does nothing.
ghost use Rattle.std.specs.Prelude.{◌≡◌, ℕ, List, false};
ghost use Rattle.up_model.specs.Meaning.{Feeding, so_far, wholly};
ghost use Rattle.up_model.specs.declared.pipe.Pipe.{Pipe as ThePipe};
ghost use Rattle.up_strand.specs.Nodes.{is_whole};
ghost use Rattle.up_strand.specs.OfGraph.{AreNodesOf, AreFed, AreFedInPart, IsReached, IsReachedInPart};
ghost use Rattle.up_strand.specs.Stand.{Past, Stand, AreDone, AreSettled, IsUnfinished};
ghost use Rattle.up_strand.specs.Tree.{AllAt, HasTree};
ghost use Rattle.up_strand.specs.declared.node.Node.{Node as TheNode};

use up_outside::Sink;
use up_shape::LocalPacket;

/// Nodes at which memory didn't run out, and at which nothing waits but in outlets, put out and
/// counted what the graph says of what their head was fed: what is settled of it while flows go on
/// and where they broke off, and all of it once they came to their whole end.
pub fn nodes_come_to_the_meaning<P: LocalPacket, K: Sink>()
    ensures settled { (pipes : List ThePipe) (places : ℕ → ℕ) (given : Feeding)
        (nodes : List (TheNode P K)) (past : Past) → HasTree nodes
        → Stand P.plain K.state nodes past → AreNodesOf pipes places nodes past
        → AreSettled nodes → AllAt IsUnfinished nodes → AreFed so_far pipes given places nodes past
        → IsReached so_far pipes given K.state places nodes past }
    ensures whole { (pipes : List ThePipe) (places : ℕ → ℕ) (given : Feeding)
        (nodes : List (TheNode P K)) (past : Past) → HasTree nodes
        → Stand P.plain K.state nodes past → AreNodesOf pipes places nodes past
        → AreSettled nodes → AreDone nodes → AreFed wholly pipes given places nodes past
        → IsReached wholly pipes given K.state places nodes past }
{}

/// Whatever became of memory, what the nodes put out and wrote comes first of what the graph says
/// of what their head was fed: of all of it, and where no flow came to its whole end of what is
/// settled.
pub fn nodes_come_to_a_first_part<P: LocalPacket, K: Sink>()
    ensures so_far { (pipes : List ThePipe) (places : ℕ → ℕ) (given : Feeding)
        (nodes : List (TheNode P K)) (past : Past) → HasTree nodes
        → Stand P.plain K.state nodes past → AreNodesOf pipes places nodes past
        → AllAt (λ node. is_whole node.part ≡ false) nodes
        → AreFedInPart so_far pipes given places nodes past
        → IsReachedInPart so_far pipes given K.state places nodes past }
    ensures whole { (pipes : List ThePipe) (places : ℕ → ℕ) (given : Feeding)
        (nodes : List (TheNode P K)) (past : Past) → HasTree nodes
        → Stand P.plain K.state nodes past → AreNodesOf pipes places nodes past
        → AreFedInPart wholly pipes given places nodes past
        → IsReachedInPart wholly pipes given K.state places nodes past }
{}
