use crate::counted::{CountedShelf, Counts};
use crate::filled::{PER_LEDGER, TOPIC, filled};
use anyhow::{Error, bail};
use disk::{FileId, Shelf, served};
use disk_mem::MemShelf;
use gated_log::UNTRIMMED;
use managed_ledger::{EntryStore, ManagedLedger};
use std::alloc::Global;

pub(crate) type Device = CountedShelf<MemShelf>;

/// How many bytes these segments have.
pub(crate) fn bytes_of(shelf: &mut Device, segments: u64) -> Result<u64, Error> {
    let mut bytes: u64 = 0;
    for number in 0..segments {
        let file = FileId::Segment {
            topic: served(TOPIC),
            number,
        };
        bytes = bytes.saturating_add(shelf.length(file)?);
    }
    Ok(bytes)
}

fn again(alloc: Global, shelf: &mut Device) -> Result<ManagedLedger, Error> {
    let (ledger, ()) = ManagedLedger::open(alloc, shelf, served(TOPIC), PER_LEDGER, UNTRIMMED, ())?;
    Ok(ledger)
}

// What a read of this entry asks of the device.
fn read(ledger: &ManagedLedger, shelf: &mut Device, position: u64) -> Result<Counts, Error> {
    shelf.take_counts();
    if ledger.read(shelf, position)?.is_none() {
        bail!("there is no entry {position}");
    }
    Ok(shelf.take_counts())
}

/// Appends so many entries to a ledger, so many at a time, does a piece of work with it, and prints what that asked of the device.
pub(crate) fn work<R: AllocGlobal + Print>(
    rt: &R,
    work: &str,
    count: u64,
    batch: u64,
) -> Result<(), Error> {
    let alloc = rt.alloc();
    let mut shelf = CountedShelf::new(MemShelf::new(alloc));
    let ledger = filled(alloc, &mut shelf, count, batch)?;
    let appended = shelf.take_counts();
    match work {
        "append" => println!(rt;
            "{} calls, {} bytes written",
            appended.calls, appended.written
        )?,
        "open" => {
            let size = bytes_of(&mut shelf, ledger.segments())?;
            let opened = again(alloc, &mut shelf)?;
            let counts = shelf.take_counts();
            println!(rt;
                "{} entries, {} segments, {} bytes, {} bytes read, {} syncs",
                opened.len(),
                opened.segments(),
                size,
                counts.read,
                counts.syncs
            )?;
        }
        "read" => {
            for position in [0, count / 2, count.saturating_sub(1)] {
                let counts = read(&ledger, &mut shelf, position)?;
                println!(rt;
                    "entry {position}: reads {}, bytes read {}",
                    counts.reads, counts.read
                )?;
            }
        }
        "keep" => println!(rt; "{} entries", ledger.len())?,
        "twice" => {
            let other = again(alloc, &mut shelf)?;
            println!(rt; "{} entries, {} entries", ledger.len(), other.len())?;
        }
        _ => bail!("the work is frames, append, open, read, keep or twice"),
    }
    Ok(())
}
