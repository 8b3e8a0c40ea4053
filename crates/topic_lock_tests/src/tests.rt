// Each test ends by itself, whatever the schedule: whoever waits does so for so many turns at most.
mod held;
mod limits;
mod summaries;
mod talk;

ghost use Rattle.std.specs.Prelude.{◌≡◌, IfOk, length};

use catalog::{Catalog, EntriesPerLedger};
use commands::ReplyText;
use disk::Shelf;
use disk_mem::MemShelf;
use gated_log::Refusal;
use std::alloc::{AllocError, Global};
use std::sync::Wait;
use std::sync::atomic::{AtomicBool, Ordering};
use std::thread;
use topic_core::{FileStores, TopicStore};
use topic_lock::{Devices, FlushFault, Flusher, Place, SharedBroker, Tallies, TopicParts, Totals};

// How long a thread waits for another one, in turns.
const TURNS: u32 = 100_000;

// The catalog's device of a new broker.
fn catalog_shelf(alloc: Global) -> Result<MemShelf, Refusal> {
    let Some(entries) = EntriesPerLedger::new(1000) else {
        unreachable!();
    };
    let mut shelf = MemShelf::new(alloc);
    drop(Catalog::create(alloc, &mut shelf, entries)?);
    Ok(shelf)
}

// A device for each of so many topics.
fn shelves(alloc: Global, count: usize) -> Result<Vec<MemShelf>, AllocError>
    ensures { IfOk result (λ shelves. length shelves.items ≡ count) }
{
    let mut shelves = Vec::new(alloc);
    for _ in 0..count {
        shelves.push(MemShelf::new(alloc))?;
    }
    Ok(shelves)
}

// A new broker without topics, as threads share it.
fn new_broker<'a, K: Tallies, R: Wait>(
    rt: &R,
    alloc: Global,
    places: &'a [Place<FileStores, MemShelf, K>],
    totals: Totals<K>,
    parts: Vec<TopicParts<K>>,
) -> Result<SharedBroker<'a, FileStores, MemShelf, K>, Refusal>
    requires { (length places.now ≡ 64) × (length parts.items ≡ 64) }
{
    let url = url(alloc)?;
    let catalog = catalog_shelf(alloc)?;
    let topics = shelves(alloc, parts.len())?;
    let devices = Devices { catalog, topics };
    match SharedBroker::open(rt, alloc, url, devices, parts, places, totals) {
        Ok(broker) => Ok(broker),
        Err((why, _devices)) => Err(why),
    }
}

// By which clients would find the broker.
fn url(alloc: Global) -> Result<ReplyText, AllocError> {
    let text = String::from_str(alloc, "pulsar://test")?;
    if text.len() > 13 {
        return Err(AllocError);
    }
    Ok(ReplyText::new(text))
}

// A flush of the first topic, once it is there, as its flusher makes it. Where it commits nothing since memory was refused or the device
// failed, so it says. Over any stores and devices, as all that a port's turn goes through here: the prover compares types part by part,
// and that of a port over known stores takes more steps than one task may.
fn flush_first<'a, T: TopicStore, S: Shelf + Drop, K: Tallies, R: Wait>(
    rt: &R,
    broker: &SharedBroker<'a, T, S, K>,
    flusher: Flusher<K>,
) -> Result<Flusher<K>, Refusal> {
    let Some(place) = broker.places.first() else {
        return Ok(flusher);
    };
    let Some(shared) = place.get() else {
        return Ok(flusher);
    };
    match shared.flush(rt, &broker.totals.durable, &broker.bells, flusher) {
        Ok((flusher, flushed)) => match flushed.count() {
            Ok(_) => Ok(flusher),
            Err(FlushFault::NoMemory) => Err(Refusal::NoMemory),
            Err(_) => Err(Refusal::Device),
        },
        Err(_) => Err(Refusal::Device),
    }
}

// Waits until a flag is set, for so many turns at most.
fn waits_for(flag: &AtomicBool) -> bool {
    for _ in 0..TURNS {
        if flag.load(Ordering::SeqCst) {
            return true;
        }
        thread::yield_now();
    }
    false
}
