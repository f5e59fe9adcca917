// A law is the contract of a function that does nothing.
ghost use Rattle.std.specs.Prelude.{◌≡◌, ◌+◌, ℕ, List, Err};
ghost use Rattle.up_graph.specs.Graph.{graph_of};
ghost use Rattle.up_graph.specs.LeastWrong.{TellsLeastWrong, TellsLeastAtTop};
ghost use Rattle.up_graph.specs.declared.graph_refused.GraphRefused.TheVariants.{BadField};

/// A field that is told of a pipe is its least wrong one in byte order, but `kind` alone where the kind is missing or unknown,
/// and no pipe before it has a wrong one. One that is told of the top, by the number 0, is the least wrong key there.
pub fn the_least_wrong_field_is_told()
    ensures of_pipes { (text : List ℕ) (place : ℕ) (key : List ℕ)
        → graph_of text ≡ Err (BadField (place + 1) key) → TellsLeastWrong text place key }
    ensures of_the_top { (text : List ℕ) (key : List ℕ)
        → graph_of text ≡ Err (BadField 0 key) → TellsLeastAtTop text key }
{}
