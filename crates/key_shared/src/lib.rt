//! Key_Shared with sticky hash ranges, the mode of dispatch in which each consumer gets the entries
//! of its keys in order: the hash slot of a key is the low 16 bits of its MurmurHash3. A consumer
//! comes with ranges of slots, refused where they meet those of another, so no slot has two consumers.
//! `KeySharedDispatcher` answers the least open position whose slot lies in the consumer's ranges,
//! and none only where there is none; only `attach` takes memory.
#![tactic(auto)]

mod dispatcher;
mod laws;
mod murmur;
mod ranges;

pub use dispatcher::KeySharedDispatcher;
pub use laws::{
    bytes_are_blocks_and_a_tail, no_position_for_two, ranges_stay_apart, ranges_that_meet,
};
pub use murmur::slot;
pub use ranges::are_refused;
