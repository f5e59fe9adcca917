use crate::{Outcome, Pipe, PlainPacket, Tally};
use up_base::{Bytes, ItemList};

/// The pipes of a graph, in the order of its file.
pub type PipeList = ItemList<Pipe>;

/// How the pipes of a graph ended, in the order of its file.
pub type OutcomeList = ItemList<Outcome>;

/// What the pipes of a graph did, in the order of its file.
pub type TallyList = ItemList<Tally>;

/// Packets in order.
pub type PacketList = ItemList<PlainPacket>;

/// Places of pipes.
pub type PlaceList = ItemList<u16>;

/// The bytes that each pipe's source could give: one entry a pipe, of which those of sources count.
pub type GivenBytes = ItemList<Bytes>;
