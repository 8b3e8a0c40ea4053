//! Reads a script of events from its bytes, or answers the number of its first bad line, and makes the lines that a
//! replay prints. What is read is exactly what the bytes spell by the grammar in `specs/Line.antt` and
//! `specs/Script.antt`, and only want of memory is ever answered in its place.
//! A printed line is the one spelling of its number, bytes and result.
#![tactic(auto)]

mod laws;
mod line;
mod number;
mod output;
mod script;
mod sequence;
mod text;

pub use laws::{one_reading, printed_bytes_are_read};
pub use line::{CrashAs, Line, LineFault};
pub use output::{Outcome, SessionFault, StorageRefusal, output_line};
pub use script::{Script, ScriptFault, read_script};
pub use sequence::Sequence;
