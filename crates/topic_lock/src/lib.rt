//! Topics and their stores behind locks of their own, with shares of what all of them count. Each SEND that is answered as
//! accepted and each receipt that is collected is counted once for its topic and once for its port, and all stores durably hold
//! at least as many entries as all topics count as committed. Whenever a topic's lock is got the topic is sound, and each call
//! says in full what it does to the state that it is lent. What a topic tells a session goes through a port sealed: no port can make it
//! up, open, alter or drop it.
#![tactic(auto)]

mod asking;
mod broker;
mod counted;
mod devices;
mod directory;
mod durable;
mod fault;
mod finding;
mod granting;
mod handing;
mod holding;
mod ledgers;
mod locked;
mod opening;
mod part;
mod parts;
mod places;
mod portion;
mod resting;
mod stores;
mod summary;
mod tally;
mod troubles;
mod turning;
mod turns;
mod waiting;

pub use broker::{Seat, SharedBroker};
pub use counted::flushing::{Flushed, Flusher, Taken, TakenBatch, Unawaited, Written};
pub use counted::reading::{Next, StoresRead};
pub use counted::reopening::Reopened;
pub use counted::{AcceptedTally, CountedTopic, HandedTally, Heard, LockedCore, Sent, TopicShares};
pub use devices::Devices;
pub use directory::{LockedCatalog, SharedCatalog, Spare};
pub use durable::{Durable, DurableByStores, DurableByTopics, DurableTally};
pub use fault::FlushFault;
pub use handing::Handed;
pub use ledgers::{Blanks, Ledgers, Totals};
pub use locked::LockedPort;
pub use parts::{PortShares, TopicParts};
pub use places::{Known, LockedTopic, Place, SharedTopic, empty_places};
pub use resting::RestingPort;
pub use stores::CountedStores;
pub use tally::{AcceptedByPorts, AcceptedByTopics, HandedByPorts, HandedByTopics, Tallies, Tally};
pub use turns::Turns;
pub use waiting::Waiting;
