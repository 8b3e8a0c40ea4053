//! What a server's threads wait at. A reader waits while too much of what it was answered stands unwritten, and a writer
//! until there is something to write; each wakes the other, and each ends the other behind its loop; a flusher waits until its
//! topic owes somebody a reply. Of them is proved that their calls are safe, and whose bells, place and session each has.
#![tactic(auto)]

mod flusher;
mod parting;
mod reader;
mod writer;

pub use flusher::FlusherGate;
pub use parting::Parting;
pub use reader::ReaderGate;
pub use writer::WriterGate;
