//! The durable half of a topic: its entries and its durable subscriptions, as one store. A write adds a batch of entries and
//! changes of subscriptions, and may trim the ledger then: a crash at any moment leaves all of it, its entries, or nothing of it,
//! and where all of it is there, the ledger as it was or trimmed. All memory is taken before the first device call; after a
//! failure of the device the store refuses until it is opened again. A topic of a folder of version 1 is only read, to be
//! copied.
#![tactic(auto)]

mod appending;
mod batch;
mod error;
mod file_stores;
mod old;
mod opening;
mod reading;
mod steps;
mod store;
mod stores;
mod trim;

pub use batch::Batch;
pub use error::WriteError;
pub use file_stores::FileStores;
pub use gated_log::ReadError;
pub use old::OldTopic;
pub use store::TopicStore;
pub use stores::TopicStores;
