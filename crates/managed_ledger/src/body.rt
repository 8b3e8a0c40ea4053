// The entries in the body of a batch.
ghost use Rattle.std.specs.Prelude.{◌≡◌, ◌≤◌, ◌+◌, ◌^◌, ◌++◌, true, false, length, map, IfOk};
ghost use Rattle.managed_ledger.specs.Entries.{Entries};
ghost use Rattle.managed_ledger.specs.Bodies.{IsBody, IsFirst, IsMetaOf};
ghost use Rattle.managed_ledger.specs.Ledgers.{places_in};

use crate::count::has_message_count;
use crate::entry_fold::EntryFold;
use crate::first_entry::FirstEntry;
use crate::place::Place;
use commands::{CommandFault, MessageMeta, read_entry};
use std::alloc::{AllocError, Global};

// No batch has a body of more bytes.
const LONGEST_BODY: usize = 33_554_432;

const LONGEST_ENTRY: usize = 1_048_576;

const MOST_ENTRIES: u64 = 1 << 62;

// The metadata of these bytes, taken as an entry; none where it can't be read.
fn metadata_of(alloc: Global, entry: &[u8]) -> Result<Option<MessageMeta>, AllocError>
    ensures readable { IfOk result (IsMetaOf entry.now) }
{
    match read_entry(alloc, entry) {
        Ok(metadata) => Ok(Some(metadata)),
        Err(CommandFault::NoMemory) => Err(AllocError),
        Err(CommandFault::Unreadable | CommandFault::Missing) => Ok(None),
    }
}

// The entry with which these bytes begin, behind four bytes that say its size; none where they begin with no entry.
fn first_entry(alloc: Global, bytes: &[u8]) -> Result<Option<FirstEntry>, AllocError>
    ensures first { IfOk result (IsFirst bytes.now) }
{
    if bytes.len() < 4 {
        return Ok(None);
    }
    let size = u32::from_le_bytes([bytes[0], bytes[1], bytes[2], bytes[3]]) as usize;
    if size > LONGEST_ENTRY {
        return Ok(None);
    }
    if bytes.len() - 4 < size {
        return Ok(None);
    }
    let Some(metadata) = metadata_of(alloc, &bytes[4..][..size])? else {
        return Ok(None);
    };
    if !has_message_count(&metadata) {
        return Ok(None);
    }
    Ok(Some(FirstEntry { size, metadata }))
}

// Adds the places of the entries in a body that begins at this offset of its file, hands the entries to a fold, and answers
// whether it is a body of entries. It is none where there would be more than 2^62 entries, of which `first` stand before
// those at `places`. Otherwise some places may have been added.
pub(crate) fn add_places<E: EntryFold>(
    alloc: Global,
    body: &[u8],
    start: u64,
    first: u64,
    places: &mut Vec<Place>,
    fold: &mut E,
) -> Result<bool, AllocError>
    requires in_range { start ≤ 2 ^ 63 + 6 }
    requires few { first + length places.old.items ≤ 2 ^ 62 }
    ensures added { (before : Entries) → E.holds fold.old before →
        IfOk result (λ formed. formed ≡ true → (entries : Entries) × IsBody body.now entries × (places.new.items ≡ places.old.items ++ places_in start (map length entries)) × E.holds fold.new (before ++ entries)) }
    ensures unformed { IfOk result (λ formed. formed ≡ false → (entries : Entries) → IsBody body.now entries → ¬ (first + (length places.old.items + length entries) ≤ 2 ^ 62)) }
    ensures few { first + length places.new.items ≤ 2 ^ 62 }
{
    if body.len() > LONGEST_BODY {
        return Ok(false);
    }
    let mut at = 0;
    while at < body.len() {
        if first + places.len() as u64 >= MOST_ENTRIES {
            return Ok(false);
        }
        let rest = &body[at..];
        let Some(found) = first_entry(alloc, rest)? else {
            return Ok(false);
        };
        let size = found.size;
        fold.entry(&rest[4..][..size], &found.metadata)?;
        places.push(Place {
            offset: start + at as u64 + 4,
            size: size as u32,
        })?;
        at += 4 + size;
    }
    Ok(true)
}
