//! `Holds` keeps, for each position that a subscription sent and that isn't acknowledged, who holds
//! it and how often it was sent. The trait `Dispatcher` says which position each mode of dispatch
//! may give a consumer, and why it refuses a further one. A mode answers an admitted position
//! exactly where there is one, permits aside, and only `hold` and `attach` take memory.
#![tactic(auto)]

pub mod attached;
mod consumer;
mod delivery;
mod dispatcher;
mod holds_map;
mod places;

pub use consumer::{Consumer, ConsumerKey, Refusal, SlotRange, SlotRanges};
pub use delivery::Delivery;
pub use dispatcher::{Dispatcher, Pending};
pub use holds_map::Holds;
