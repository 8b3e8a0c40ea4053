// What the words of a line spell.

use anyhow::{Error, bail};
use disk::{CursorSlot, FileId, served};
use std::alloc::{AllocError, Global};

/// The topic whose files are laid.
pub(crate) const TOPIC: u16 = 3;

pub(crate) fn words<'a>(alloc: Global, asked: &'a str) -> Result<Vec<&'a str>, AllocError> {
    asked.split(' ').collect(alloc)
}

/// The file of a kind, `segment` or `slot`, and a number.
pub(crate) fn file(kind: &str, number: &str) -> Result<FileId, Error> {
    match (kind, number) {
        ("segment", number) => Ok(FileId::Segment {
            topic: served(TOPIC),
            number: number.parse()?,
        }),
        ("slot", "0") => Ok(slot(CursorSlot::Zero)),
        ("slot", "1") => Ok(slot(CursorSlot::One)),
        _ => bail!("no file is called {kind} {number}"),
    }
}

pub(crate) fn slot(slot: CursorSlot) -> FileId {
    FileId::Slot {
        topic: served(TOPIC),
        slot,
    }
}
