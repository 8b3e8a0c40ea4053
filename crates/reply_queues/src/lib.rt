//! `ReplyQueues` is what a topic owes to its sessions: to each, replies that are due, and behind them those that await a flush.
//! A flush hands on what awaits it; then that is due, waits again, or is due as refusals.
//! Each call says what becomes of every queue; what lacks memory changes nothing.
#![tactic(auto)]

mod reply_queue;
mod reply_queues;

pub use reply_queue::ReplyQueue;
pub use reply_queues::ReplyQueues;
