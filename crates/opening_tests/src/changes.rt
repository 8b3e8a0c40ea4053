// What a line changes of the files before it opens them.

use crate::folder::write;
use crate::reading::{file, words};
use anyhow::{Error, bail};
use disk::Shelf;
use disk_mem::MemShelf;
use std::alloc::Global;

/// Changes a byte, cuts a file, or leaves all as it was.
fn change(alloc: Global, shelf: &mut MemShelf, asked: &str) -> Result<(), Error> {
    let words = words(alloc, asked)?;
    match words.as_slice() {
        ["byte", kind, number, offset, byte] => {
            let byte = hex::decode(alloc, *byte)?;
            write(shelf, file(kind, number)?, offset.parse()?, &byte)
        }
        ["cut", kind, number, length] => Ok(shelf.cut(file(kind, number)?, length.parse()?)?),
        [""] => Ok(()),
        _ => bail!("no change of a file: {asked}"),
    }
}

/// Makes the changes, between which a comma stands.
pub(crate) fn change_all(alloc: Global, shelf: &mut MemShelf, asked: &str) -> Result<(), Error> {
    for asked in asked.split(", ") {
        change(alloc, shelf, asked)?;
    }
    Ok(())
}
