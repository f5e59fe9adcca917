//! The interface that every kind of pipe is built on: packets and the stores that their memory comes from, outboxes,
//! and modules with their laws.
#![tactic(auto)]

mod byte_edits;
mod control;
mod drawn;
mod flow;
mod local_packet;
mod module;
mod outbox;
mod packet;
mod packet_step;
mod packetwise;
mod plain_copy;
mod stash;
mod trial;
mod trial_packet;
mod vec_bytes;
mod vec_packet;
mod vec_room;
mod vec_store;

pub use control::{Command, ControlRefused, Reply};
pub use drawn::Drawn;
pub use flow::{feed_all, feed_bytes, give_up_all, run_flow};
pub use local_packet::{LocalPacket, MAX_JOINED};
pub use module::Module;
pub use outbox::{Outbox, put_out};
pub use packet::Packet;
pub use packet_step::{Made, Options, PacketStep};
pub use packetwise::Packetwise;
pub use stash::{MAX_KEPT, Stash};
pub use trial::{Came, Trial, Untried, is_bare, tried};
pub use trial_packet::{TrialPacket, TrialStore};
pub use up_model::Opt;
pub use vec_packet::VecPacket;
pub use vec_room::VecRoom;
pub use vec_store::VecStore;

#[cfg(test)]
mod module_tests;
#[cfg(test)]
mod outbox_tests;
#[cfg(test)]
mod vec_attrs_tests;
#[cfg(test)]
mod vec_limit_tests;
#[cfg(test)]
mod vec_packet_tests;
#[cfg(test)]
mod vec_store_tests;
