//! Exclusive and Failover, the two modes of dispatch in which one consumer gets the entries, in
//! order. An Exclusive subscription takes one consumer; on a Failover one the consumer that was
//! attached first is served. Either gives that consumer the least open position and nobody else any.
#![tactic(auto)]

mod exclusive;
mod failover;

pub use exclusive::ExclusiveDispatcher;
pub use failover::FailoverDispatcher;
