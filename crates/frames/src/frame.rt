use crate::plain_entry::PlainEntry;
use commands::Command;

/// What stands behind a command in its frame.
#[derive(Drop)]
pub enum FrameEntry {
    /// No bytes; or, behind a command of another type, bytes that aren't read.
    Nothing,
    /// An entry with a checksum, which isn't read.
    Checksummed,
    /// An entry, and the metadata that was read of it.
    Entry(PlainEntry),
}

/// A whole frame of a client (Pulsar binary protocol, Framing).
#[derive(Drop)]
pub struct Frame {
    pub command: Command,
    pub entry: FrameEntry,
}
