// What an opening answers.
ghost use Rattle.std.specs.Prelude.{◌≤◌, ◌^◌};

use crate::changes::change_all;
use crate::folder::Folder;
use crate::reading::{TOPIC, slot};
use crate::taken::Taken;
use anyhow::{Error, bail};
use cursor::Cursor;
use disk::{CrashShelf, CursorSlot, FileId, Shelf, served};
use disk_mem::MemShelf;
use gated_log::Refusal;
use records::KeptCursor;
use std::alloc::Global;
use topic_stores::{FileStores, TopicStore};

/// The files that are looked at once more behind an opening.
const SEGMENTS: u64 = 4;

/// So many bytes of an entry are told.
const MOST_SHOWN: usize = 32;

/// Whether each position of the ledger is acknowledged.
fn marks(alloc: Global, acked: &Cursor, len: u64) -> Result<String, Error>
    requires { len ≤ 2 ^ 62 }
{
    let mut marks = String::new(alloc);
    for position in 0..len {
        marks.push_str(if acked.contains(position) { "a" } else { "." })?;
    }
    Ok(marks)
}

/// The name of a subscription, its mark-delete position, how many ranges stand behind that, and a mark for each position.
fn subscription(alloc: Global, kept: &KeptCursor, len: u64) -> Result<String, Error>
    requires { len ≤ 2 ^ 62 }
{
    let (name, acked) = (kept.name.as_str(), &kept.acked);
    let marks = marks(alloc, acked, len)?;
    Ok(format!(in alloc;
        "; {name} {} {} {marks}",
        acked.mark_delete(),
        acked.ranges()
    )?)
}

/// Its bytes; of a long one the first ones, and how many there are.
fn entry_text(alloc: Global, entry: &[u8]) -> Result<String, Error> {
    let shown = &entry[..entry.len().min(MOST_SHOWN)];
    let text = hex::encode(alloc, shown)?;
    if shown.len() == entry.len() {
        return Ok(text);
    }
    Ok(format!(in alloc; "{text}..{}", entry.len())?)
}

/// The bytes of each entry that is there, as a read by its position gives them, which are those that were taken.
fn entries(
    alloc: Global,
    stores: &FileStores,
    shelf: &mut MemShelf,
    taken: &Taken,
) -> Result<String, Error> {
    let mut said = String::new(alloc);
    for (position, entry) in (stores.base()..).zip(&taken.entries) {
        let read = stores.read(shelf, position)?;
        if read.as_slice() != entry.as_slice() {
            bail!("entry {position} isn't read as it was taken");
        }
        said.push_str(" ")?;
        said.push_str(entry_text(alloc, read.as_slice())?.as_str())?;
    }
    Ok(said)
}

/// The position of the first entry that is there, where some are gone.
fn beginning(alloc: Global, base: u64) -> Result<String, Error> {
    if base == 0 {
        return Ok(String::new(alloc));
    }
    Ok(format!(in alloc; " from {base}")?)
}

/// What a store holds.
fn holding(
    alloc: Global,
    stores: &FileStores,
    shelf: &mut MemShelf,
    taken: &Taken,
) -> Result<String, Error> {
    let len = stores.len();
    let entries = entries(alloc, stores, shelf, taken)?;
    let begins = beginning(alloc, stores.base())?;
    let mut said = format!(in alloc;
        "ok, segments {}, entries {len}{begins}:{entries}",
        stores.segments()
    )?;
    for kept in &stores.kept()? {
        said.push_str(subscription(alloc, kept, len)?.as_str())?;
    }
    Ok(said)
}

/// Opens the store of the topic, and says what it holds or why it is refused.
fn opened(alloc: Global, shelf: &mut MemShelf, entries_per_ledger: u32) -> Result<String, Error> {
    match FileStores::open(alloc, shelf, TOPIC, entries_per_ledger, Taken::new(alloc)) {
        Ok((stores, taken)) => holding(alloc, &stores, shelf, &taken),
        Err(Refusal::NoMemory) => bail!("{}", Refusal::NoMemory),
        Err(refusal) => Ok(format!(in alloc; "{refusal}")?),
    }
}

/// What reads give of a file.
fn contents(alloc: Global, shelf: &mut MemShelf, file: FileId) -> Result<Vec<u8>, Error> {
    let length = shelf.length(file)?;
    let mut bytes = vec![in alloc; 0u8; length as usize]?;
    shelf.read(file, 0, &mut bytes)?;
    Ok(bytes)
}

/// What reads give of the first segments and the slots.
fn all_contents(alloc: Global, shelf: &mut MemShelf) -> Result<Vec<Vec<u8>>, Error> {
    let mut files = Vec::new(alloc);
    for number in 0..SEGMENTS {
        let file = FileId::Segment {
            topic: served(TOPIC),
            number,
        };
        files.push(contents(alloc, shelf, file)?)?;
    }
    for place in [CursorSlot::Zero, CursorSlot::One] {
        files.push(contents(alloc, shelf, slot(place))?)?;
    }
    Ok(files)
}

/// What an opening of the files answers, once they were changed as is asked. Files that it changed are an error, and so is
/// another answer behind a crash, which takes all that the opening didn't sync.
pub(crate) fn opening(alloc: Global, folder: &Folder, asked: &str) -> Result<String, Error> {
    let mut shelf = folder.shelf(alloc)?;
    change_all(alloc, &mut shelf, asked)?;
    let before = all_contents(alloc, &mut shelf)?;
    let said = opened(alloc, &mut shelf, folder.entries_per_ledger)?;
    if all_contents(alloc, &mut shelf)? != before {
        bail!("an opening changed the files");
    }
    shelf.crash();
    let again = opened(alloc, &mut shelf, folder.entries_per_ledger)?;
    if again != said {
        bail!("behind a crash an opening answers {again}");
    }
    Ok(said)
}
