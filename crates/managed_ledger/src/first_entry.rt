// The entry with which bytes begin.

use commands::MessageMeta;

/// The size of an entry, in bytes, and its metadata.
#[derive(Drop)]
pub(crate) struct FirstEntry {
    pub(crate) size: usize,
    pub(crate) metadata: MessageMeta,
}
