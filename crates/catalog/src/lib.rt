//! The catalog is the list of a node's topic names, in order of creation: a topic's number is the place of its name. It is a
//! log with a name in each batch, and its number is how many entries a ledger of the node has. A name is added whole or not
//! at all, at whatever moment a crash comes; after a failure the catalog remembers the old names, and the next search opens
//! it again. An opening answers the names, or the first fault that stands in the file. The list of a folder of version 1 is
//! only read and copied, and closed in the end.
#![tactic(auto)]

mod add;
mod catalog;
mod create;
mod entries_per_ledger;
mod find;
mod headers;
mod law;
mod names_fold;
mod old;
mod open;

pub use catalog::{Catalog, MAX_ENTRIES_PER_LEDGER, MAX_TOPICS};
pub use entries_per_ledger::EntriesPerLedger;
pub use headers::{check_header, close_old, old_counts};
pub use law::{
    catalog_has_no_fault, catalog_has_one_fault, catalog_is_its_own_file,
    catalog_stands_for_one_list,
};
pub use old::OldCatalog;
