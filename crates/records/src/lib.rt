//! Cursor records are the changes of a topic's durable subscriptions: what each makes of the map from names to acknowledged
//! positions, and its bytes. Bytes are read as records exactly where they spell records of their form, each at its place
//! beside what is kept and the ledger's length. Writing appends the one spelling.
#![tactic(auto)]

mod kept;
mod kept_cursor;
mod law;
mod name;
mod name_set;
mod read;
mod record;
mod shared_cursor;
mod write;

pub use kept::KeptSubscriptions;
pub use kept_cursor::KeptCursor;
pub use law::acknowledged_stays_so;
pub use name::{Name, is_subscription_name};
pub use read::{first_position, first_record, read_body};
pub use record::Record;
pub use shared_cursor::SharedCursor;
pub use write::{RECORDS, add_made, add_range, fits, write_records};
