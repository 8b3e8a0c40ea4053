//! `Subscriptions` is all that one topic knows of its subscriptions: who is attached, what each
//! consumer may still get, what was sent and acknowledged, and which changes aren't durable yet.
//! Each call moves an abstract value by one step that is stated whole, and a position is picked
//! exactly where one is admitted. What lacks memory changes nothing. A consumer's permits are a
//! `Gauge` of the `permits` crate, handed in with it and closed when it goes.
#![tactic(auto)]

mod backlog;
mod consumer;
mod consumers;
mod directory;
mod dispatch;
mod entry_marks;
mod hint;
mod hints;
mod initial_position;
mod laws;
mod progress;
mod quiet;
mod status;
mod statuses;
mod subscription;
mod summary;
mod table;

pub use consumer::{Mode, Refusal};
pub use entry_marks::EntryMarks;
pub use initial_position::InitialPosition;
pub use laws::{
    counts_are_forgotten, deliveries_are_committed, learning_admits, picked_is_open, stays_sound,
    subscriptions_are_kept,
};
pub use status::SubscriptionStatus;
pub use summary::SubscriptionSummary;
pub use table::Subscriptions;
