//! A managed ledger is the list of a topic's entries, kept in the segments of a journal: an append adds its entries all
//! or none, at whatever moment a crash comes, and an entry is read by its position with one read of the device. Memory is
//! taken before the first device call; after a failure the ledger remembers the old entries and refuses until it is opened
//! again. An opening answers the entries, or the first fault that stands in the segments. The first segments can be given
//! back: the ledger then begins at the position, and in the segment, that its caller keeps.
#![tactic(auto)]

mod append;
mod body;
mod build;
mod copy;
mod count;
mod entry_fold;
mod entry_store;
mod extend;
mod find;
mod first_entry;
mod getters;
mod law;
mod ledger_fold;
mod ledger_index;
mod ledger_store;
mod managed_ledger;
mod open;
mod place;
mod prepare;
mod prepared;
mod segment_index;
mod trim;
mod trim_point;

pub use count::has_message_count;
pub use entry_fold::EntryFold;
pub use entry_store::EntryStore;
pub use law::{
    closed_segments_are_full, ledgers_have_no_fault, ledgers_have_one_fault, publishings_join,
    trimmed_entries_alone_are_gone,
};
pub use managed_ledger::ManagedLedger;
pub use prepared::PreparedEntries;
