use topic_core::{Batch, WriteError};

/// A flush that comes in parts, between two of them.
#[derive(Drop)]
pub(crate) enum Flight {
    /// Its batch is taken, and not written.
    Taken(Batch),
    /// Its batch is written, and its write ended so.
    Written(Batch, Result<u64, WriteError>),
}
