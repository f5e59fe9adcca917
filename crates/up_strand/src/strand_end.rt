use up_base::ItemList;
use up_model::{OutcomeList, TallyList};

/// The sinks of a strand, in the order of the file.
pub type SinkList<K> = ItemList<K>;

/// What a strand is made of, and gives back.
pub struct StrandParts<S, K> {
    /// There where its head is a source.
    pub source: Option<S>,
    pub sinks: SinkList<K>,
}

/// What is left of a strand: its parts, and how its pipes ended and what they did, in the order of
/// the file.
pub struct StrandEnd<S, K> {
    pub parts: StrandParts<S, K>,
    pub outcomes: OutcomeList,
    pub tallies: TallyList,
}
