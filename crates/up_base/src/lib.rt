//! What every layer shares: names, byte lists, texts, lists of items, numbers as bytes, the size, first byte and PID of a
//! transport stream packet, and the refusals.
#![tactic(auto)]

mod bytes;
mod decimal;
mod item_list;
mod kin;
mod name;
mod name_text;
mod number;
mod put_number;
mod refusal;
mod reserved_list;
mod text;
mod transport;
mod word_list;

pub use bytes::Bytes;
pub use decimal::push_decimal;
pub use item_list::{ItemList, NoRoom};
pub use kin::Kin;
pub use name::{AttrName, AttrNames, Name, PipeName, PipeNames, WorkerName, WorkerNames};
pub use name_text::BadName;
pub use number::{read_u16, read_u32, read_u64};
pub use put_number::{put_u16, put_u32, put_u64, puts_back, reads_back};
pub use refusal::{Failed, NoMemory, Refusal};
pub use reserved_list::ReservedList;
pub use text::Text;
pub use transport::{NULL_PID, SYNC_BYTE, TS_SIZE, pid_of};
pub use word_list::WordList;

#[cfg(test)]
mod list_tests;
#[cfg(test)]
mod number_tests;
#[cfg(test)]
mod tests;
