//! Replays of scripts over a broker whose device is in memory. A replay reads a whole script before it works the first line, and
//! writes a line for each line of the script, in order and by a run of the broker: all of them where it ends well, otherwise a front
//! of them. A bad script is answered by the number of its first bad line, and nothing is written.
#![tactic(auto)]

mod event;
mod fault;
mod running;
mod sink;
mod source;
mod working;

pub use fault::{ProgramFault, exit_status, write_fault};
pub use running::{replay, replay_in_memory};
pub use sink::{Sink, ToWriter};
pub use source::{FromReader, Source};
