use anyhow::Error;
use disk::{FileId, Shelf};
use disk_mem::MemShelf;
use gated_log::{PrepareError, PreparedBatch};

/// What became of an append of so many bytes: whether it was refused for its length, and then how many bodies there are, and
/// the size of the file.
#[derive(Clone, Copy, Drop)]
pub(crate) struct Outcome {
    pub(crate) bytes: usize,
    pub(crate) refused: bool,
    pub(crate) count: u64,
    pub(crate) size: u64,
}

/// The batch of a body; none where it was refused for its length. Another refusal is an error.
pub(crate) fn batch_in(
    prepared: Result<PreparedBatch, PrepareError>,
) -> Result<Option<PreparedBatch>, Error> {
    match prepared {
        Ok(batch) => Ok(Some(batch)),
        Err(PrepareError::TooLarge) => Ok(None),
        Err(e) => Err(e.into()),
    }
}

pub(crate) fn size_of(shelf: &mut MemShelf, file: FileId) -> Result<u64, Error> {
    Ok(shelf.length(file)?)
}
