// The store of a topic is opened.

use crate::counted::CountedShelf;
use crate::filled::{PER_LEDGER, TOPIC, filled};
use crate::ledger::{Device, bytes_of};
use anyhow::{Error, bail};
use cursor_store::{CursorStore, SubStore};
use disk::{CursorSlot, FileId, Shelf, served};
use disk_mem::MemShelf;
use managed_ledger::EntryStore;
use records::{Name, Record};
use std::alloc::Global;
use topic_stores::{FileStores, TopicStore};

/// Entries of an append.
const BATCH: u64 = 100;

const SUBSCRIPTIONS: u64 = 64;

/// A subscription is made, and so many single positions are acknowledged.
fn changes(alloc: Global, number: u64, count: u64) -> Result<Vec<Record>, Error> {
    let name = Name::new(alloc, format!(in alloc; "s{number:02}")?.as_str())?;
    let mut changes = Vec::new(alloc);
    changes.push(Record::Made {
        name: name.clone()?,
        start: 0,
    })?;
    for position in 0..count {
        changes.push(Record::Acknowledged {
            name: name.clone()?,
            position: position.saturating_add(1),
        })?;
    }
    Ok(changes)
}

fn append(store: &mut CursorStore, shelf: &mut Device, changes: &[Record]) -> Result<(), Error> {
    if changes.is_empty() || !store.fits(changes, 1 << 62) {
        bail!("these changes aren't of their form");
    }
    let prepared = store.prepare(changes)?;
    store.append_prepared(shelf, prepared)?;
    Ok(())
}

/// Makes the subscriptions, each with as many records.
fn subscribe(alloc: Global, shelf: &mut Device, records: u64) -> Result<(), Error> {
    let mut store = CursorStore::create(alloc, shelf, served(TOPIC))?;
    for number in 0..SUBSCRIPTIONS {
        let changes = changes(alloc, number, records / SUBSCRIPTIONS)?;
        append(&mut store, shelf, changes.as_slice())?;
    }
    Ok(())
}

/// How many bytes the slots have.
fn slot_bytes(shelf: &mut Device) -> Result<u64, Error> {
    let mut bytes: u64 = 0;
    for slot in [CursorSlot::Zero, CursorSlot::One] {
        let file = FileId::Slot {
            topic: served(TOPIC),
            slot,
        };
        bytes = bytes.saturating_add(shelf.length(file)?);
    }
    Ok(bytes)
}

/// Opens the store of a topic with so many entries, and so many records of 64 subscriptions, and prints what that asked of the
/// device.
pub(crate) fn work<R: AllocGlobal + Print>(
    rt: &R,
    entries: u64,
    records: u64,
) -> Result<(), Error> {
    let alloc = rt.alloc();
    let mut shelf = CountedShelf::new(MemShelf::new(alloc));
    let segments = filled(alloc, &mut shelf, entries, BATCH)?.segments();
    subscribe(alloc, &mut shelf, records)?;
    let size = bytes_of(&mut shelf, segments)?.saturating_add(slot_bytes(&mut shelf)?);
    shelf.take_counts();
    let (store, ()) = FileStores::open(alloc, &mut shelf, TOPIC, PER_LEDGER, ())?;
    let counts = shelf.take_counts();
    println!(rt;
        "{} entries, {} subscriptions, {segments} segments, {size} bytes, {} bytes read, {} syncs",
        store.len(),
        store.kept()?.len(),
        counts.read,
        counts.syncs
    )?;
    Ok(())
}
