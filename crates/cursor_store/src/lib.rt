//! A cursor store is the map from a topic's subscriptions to their acknowledged positions, and where the topic's ledger begins.
//! It is kept in two slots: records of the map, behind a header that says where the ledger begins. An append adds all its records
//! or none, and where 4,096 were appended it first tells all anew in the other slot, so that nothing told is away at whatever
//! moment a crash comes. A trim says that the ledger begins later, where each subscription has acknowledged what lies before: it
//! tells all anew behind a header that says so. In a folder of version 1, which is read and never written anew, a trim is a record.
//! Memory is taken before the first device call; after a failure the store remembers what it did and refuses until it is opened
//! again. An opening answers what the slots tell, or the first fault that stands in them; its first step finds where the ledger
//! begins, without the ledger.
#![tactic(auto)]

mod append;
mod begin;
mod copy;
mod cursor_store;
mod form;
mod heads;
mod item;
mod items_fold;
mod law;
mod open;
mod prepared_trim;
mod read;
mod replace;
mod snapshot;
mod snapshot_writer;
mod store;
mod sub_store;
mod told;
mod trim;

pub use cursor_store::{CursorStore, PreparedRecords};
pub use heads::StoreHeads;
pub use item::Item;
pub use law::few_records_are_behind;
pub use prepared_trim::PreparedTrim;
pub use sub_store::SubStore;
pub(crate) use told::Told;
