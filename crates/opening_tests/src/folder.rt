// The files that lines lay.

use crate::reading::{file, words};
use anyhow::{Error, bail};
use disk::{FileId, Shelf};
use disk_mem::MemShelf;
use std::alloc::{AllocError, Global};

/// The most bytes that a line lays without spelling them.
const MOST_ALIKE: usize = 1 << 26;

/// A file, and its bytes.
#[derive(Drop)]
struct LaidFile {
    file: FileId,
    bytes: Vec<u8>,
}

/// A folder: how many entries a ledger id has, and the files that aren't missing.
#[derive(Drop)]
pub(crate) struct Folder {
    pub(crate) entries_per_ledger: u32,
    files: Vec<LaidFile>,
}

impl Folder {
    pub(crate) fn new(alloc: Global, entries_per_ledger: u32) -> Folder {
        Folder {
            entries_per_ledger,
            files: Vec::new(alloc),
        }
    }

    /// A device with these files, of which none is synced.
    pub(crate) fn shelf(&self, alloc: Global) -> Result<MemShelf, Error> {
        let mut shelf = MemShelf::new(alloc);
        for laid in &self.files {
            write(&mut shelf, laid.file, 0, &laid.bytes)?;
        }
        Ok(shelf)
    }
}

/// Writes bytes into a file. The device in memory fails for want of memory alone.
pub(crate) fn write(
    shelf: &mut MemShelf,
    file: FileId,
    offset: u64,
    bytes: &[u8],
) -> Result<(), Error> {
    if shelf.write_at(file, offset, bytes).is_err() {
        bail!("no memory");
    }
    Ok(())
}

/// Bytes, so many of 7 behind them, and bytes behind these.
fn joined(alloc: Global, front: &str, count: &str, end: &str) -> Result<Vec<u8>, Error> {
    let count: usize = count.parse()?;
    if count > MOST_ALIKE {
        bail!("a file isn't so long: {count}");
    }
    let mut bytes = hex::decode(alloc, front)?;
    bytes.resize(bytes.len() + count, 7)?;
    bytes.extend_from_slice(&hex::decode(alloc, end)?)?;
    Ok(bytes)
}

/// The bytes that words spell: as they are, or two parts of them and how many of 7 stand between.
fn bytes_of(alloc: Global, spelled: &[&str]) -> Result<Vec<u8>, Error> {
    match spelled {
        [] => Ok(Vec::new(alloc)),
        [bytes] => Ok(hex::decode(alloc, *bytes)?),
        [front, count, end] => joined(alloc, front, count, end),
        _ => bail!("no bytes of a file"),
    }
}

/// Lays a file of the folder.
fn lay_file(alloc: Global, folder: &mut Folder, asked: &str) -> Result<usize, Error> {
    let words = words(alloc, asked)?;
    let [kind, number, spelled @ ..] = words.as_slice() else {
        bail!("no file: {asked}");
    };
    let file = file(kind, number)?;
    let bytes = bytes_of(alloc, spelled)?;
    let count = bytes.len();
    folder.files.push(LaidFile { file, bytes })?;
    Ok(count)
}

/// What is answered to a line that begins a folder or lays a file of it: how many bytes the file has.
pub(crate) fn lay(
    alloc: Global,
    folder: &mut Folder,
    word: &str,
    asked: &str,
) -> Result<String, Error> {
    match word {
        "folder" => {
            *folder = Folder::new(alloc, asked.parse()?);
            Ok(format!(in alloc; "{} entries a ledger", folder.entries_per_ledger)?)
        }
        "file" => {
            let count = lay_file(alloc, folder, asked)?;
            Ok(format!(in alloc; "{count} bytes")?)
        }
        _ => bail!("no line begins with the word {word}"),
    }
}
