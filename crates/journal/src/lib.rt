//! A journal is one list of bodies over a chain of segment files: an append is whole or not at all, and a roll goes on in
//! a new file and changes no body, at whatever moment a crash comes. What takes memory is prepared before the first device
//! call. After one that failed the journal remembers the old list, and refuses until it is opened again. The segments before
//! one may be given back: the chain behind them stands at each moment. An opening hands the bodies from a segment on to a
//! fold in one pass, and answers the first fault that stands in them.
#![tactic(auto)]

mod append;
mod builder;
mod copy;
mod drop_before;
mod journal;
mod kind;
mod law;
mod open;
mod read;
mod roll;
mod segment_fold;

pub use builder::BodyBuilder;
pub use journal::Journal;
pub use law::{
    bodies_stay_in_a_roll, chain_is_its_own_files, chains_have_no_fault,
    chains_stand_from_each_segment_on, files_stand_for_one_chain, segments_have_one_fault,
};
pub use roll::PreparedRoll;
