//! The frames of the Pulsar binary protocol. A parser gives the frames of a stream of bytes in
//! whatever pieces it comes, or the fault that its bytes show, and keeps the unfinished frame
//! alone. A reply is written as one whole frame, or nothing is.
#![tactic(auto)]

mod fault;
mod frame;
mod laws;
mod parser;
mod plain_entry;
mod reading;
mod whole;
mod writing;

pub use fault::Fault;
pub use frame::{Frame, FrameEntry};
pub use laws::{any_cut, one_reading, written_frames};
pub use parser::Parser;
pub use plain_entry::PlainEntry;
pub use writing::write_frame;
