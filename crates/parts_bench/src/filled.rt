// A ledger with entries.
ghost use Rattle.std.specs.Prelude.{◌≡◌, ◌<◌, ◌≤◌, ◌+◌, ◌^◌, length, IfOk};
ghost use Rattle.managed_ledger.specs.Entries.{IsEntry, AreEntries};

use crate::counted::CountedShelf;
use anyhow::{Error, bail};
use bytes::Bytes;
use commands::read_entry;
use disk::{Shelf, served};
use managed_ledger::{EntryStore, ManagedLedger, has_message_count};
use std::alloc::Global;

pub const TOPIC: u16 = 0;

pub const PER_LEDGER: u32 = 50_000;

/// Metadata of a producer `p`, and a payload of no bytes.
const ENTRY: [u8; 14] = [
    0, 0, 0, 0x0a, 0x0a, 1, 0x70, 0x10, 0, 0x18, 1, 0xc0, 0x3e, 5,
];

// The entry, whose metadata can be read, and says that it is one message.
fn entry(alloc: Global) -> Result<Bytes, Error>
    ensures { IfOk result IsEntry }
{
    let entry = Bytes::copy_from_slice(alloc, &ENTRY)?;
    let metadata = read_entry(alloc, entry.as_slice())?;
    if !has_message_count(&metadata) {
        bail!("an entry has from 1 to 1,048,576 messages");
    }
    Ok(entry)
}

// So many of them.
fn copies(alloc: Global, entry: &Bytes, count: u64) -> Result<Vec<Bytes>, Error>
    requires { IsEntry entry.now }
    ensures { IfOk result (λ entries. AreEntries entries.items) }
{
    let mut entries = Vec::new(alloc);
    for _ in 0..count {
        entries.push(entry.clone()?)?;
    }
    Ok(entries)
}

// Adds the entries with one append.
fn append<S: Shelf>(
    ledger: &mut ManagedLedger,
    shelf: &mut S,
    entries: &[Bytes],
) -> Result<(), Error>
    requires { AreEntries entries.now }
{
    let most = 1 << 62;
    if entries.is_empty() || ledger.len() + entries.len() as u64 > most {
        bail!("an append adds an entry or more, and a ledger has 2^62 at most");
    }
    let prepared = ledger.prepare(entries)?;
    ledger.append_prepared(shelf, prepared)?;
    Ok(())
}

/// A new ledger with so many entries, or up to an append more, `batch` of them by an append. The device counts the last append alone.
pub fn filled<S: Shelf>(
    alloc: Global,
    shelf: &mut CountedShelf<S>,
    count: u64,
    batch: u64,
) -> Result<ManagedLedger, Error> {
    let entry = entry(alloc)?;
    let entries = copies(alloc, &entry, batch)?;
    let mut ledger = ManagedLedger::create(alloc, shelf, served(TOPIC), PER_LEDGER)?;
    for _ in 0..count.div_ceil(batch.max(1)) {
        shelf.take_counts();
        append(&mut ledger, shelf, entries.as_slice())?;
    }
    Ok(ledger)
}
