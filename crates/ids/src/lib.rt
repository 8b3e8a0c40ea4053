//! Positions and message ids. Entry i of a topic whose ledgers have n entries is entry i mod n of
//! ledger i div n, and this crate goes both ways between the two. An id that a client names gives
//! a position exactly where it is the id of one below 2^63, as a whole entry of no partition.
#![tactic(auto)]

mod laws;
mod message_id;

pub use laws::position_names;
pub use message_id::{MessageId, MessageIdData, Position, from_id, to_id};
