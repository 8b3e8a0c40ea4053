// Lines that ask a mode of dispatch without its subscription, and the slot of a key.
mod open;

use crate::reading;
use anyhow::{Error, bail};
use exclusive_failover::{ExclusiveDispatcher, FailoverDispatcher};
use holds::{Consumer, ConsumerKey, Dispatcher, Refusal, SlotRanges};
use key_shared::{KeySharedDispatcher, slot};
use open::Open;
use shared::SharedDispatcher;
use std::alloc::{AllocError, Global};

/// The consumers of a mode.
#[derive(Drop)]
enum Seats {
    Exclusive(ExclusiveDispatcher),
    Failover(FailoverDispatcher),
    Shared(SharedDispatcher),
    KeyShared(KeySharedDispatcher),
}

/// The seats of a mode, to which nobody is attached.
fn vacant(alloc: Global, mode: &str) -> Result<Seats, Error> {
    match mode {
        "Exclusive" => Ok(Seats::Exclusive(ExclusiveDispatcher::new())),
        "Failover" => Ok(Seats::Failover(FailoverDispatcher::new(alloc))),
        "Shared" => Ok(Seats::Shared(SharedDispatcher::new(alloc))),
        "KeyShared" => Ok(Seats::KeyShared(KeySharedDispatcher::new(alloc))),
        _ => bail!("no mode has the name {mode}"),
    }
}

/// The consumers of a mode, and the entries that they may get.
#[derive(Drop)]
pub(crate) struct Bench {
    alloc: Global,
    seats: Seats,
    open: Open,
}

impl Bench {
    /// Exclusive, with nobody attached and no entries.
    pub(crate) fn new(alloc: Global) -> Bench {
        Bench {
            alloc,
            seats: Seats::Exclusive(ExclusiveDispatcher::new()),
            open: Open::new(alloc),
        }
    }
}

/// Attaches a consumer, and tells what the mode foretells of that and what it then answers.
fn attach<D: Dispatcher>(
    dispatcher: &mut D,
    alloc: Global,
    consumer: Consumer,
) -> Result<String, AllocError> {
    let foretold = dispatcher.refusal(&consumer);
    let attached = dispatcher.attach(consumer);
    if attached == Err(Refusal::NoMemory) {
        return Err(AllocError);
    }
    format!(in alloc; "{foretold:?} {attached:?}")
}

/// What a consumer gets of the entries.
fn pick<D: Dispatcher>(
    dispatcher: &D,
    alloc: Global,
    open: &Open,
    key: ConsumerKey,
) -> Result<String, AllocError> {
    let picked = dispatcher.pick(open, key);
    format!(in alloc; "{picked:?}")
}

fn attached(bench: &mut Bench, key: ConsumerKey, ranges: &[&str]) -> Result<String, Error> {
    let alloc = bench.alloc;
    let ranges = SlotRanges::new(reading::ranges(alloc, ranges)?);
    let consumer = Consumer { key, ranges };
    let told = match &mut bench.seats {
        Seats::Exclusive(dispatcher) => attach(dispatcher, alloc, consumer),
        Seats::Failover(dispatcher) => attach(dispatcher, alloc, consumer),
        Seats::Shared(dispatcher) => attach(dispatcher, alloc, consumer),
        Seats::KeyShared(dispatcher) => attach(dispatcher, alloc, consumer),
    };
    Ok(told?)
}

fn picked(bench: &Bench, key: ConsumerKey) -> Result<String, AllocError> {
    let (alloc, open) = (bench.alloc, &bench.open);
    match &bench.seats {
        Seats::Exclusive(dispatcher) => pick(dispatcher, alloc, open, key),
        Seats::Failover(dispatcher) => pick(dispatcher, alloc, open, key),
        Seats::Shared(dispatcher) => pick(dispatcher, alloc, open, key),
        Seats::KeyShared(dispatcher) => pick(dispatcher, alloc, open, key),
    }
}

fn detached(bench: &mut Bench, key: ConsumerKey) -> Result<String, AllocError> {
    match &mut bench.seats {
        Seats::Exclusive(dispatcher) => dispatcher.detach(key),
        Seats::Failover(dispatcher) => dispatcher.detach(key),
        Seats::Shared(dispatcher) => dispatcher.detach(key),
        Seats::KeyShared(dispatcher) => dispatcher.detach(key),
    }
    String::from_str(bench.alloc, "done")
}

/// What is answered to a line of this word and a consumer.
fn of_consumer(bench: &mut Bench, word: &str, asked: &[&str]) -> Result<String, Error> {
    let [key, behind @ ..] = asked else {
        bail!("no consumer behind {word}");
    };
    let key = reading::key(key)?;
    match word {
        "attach" => attached(bench, key, behind),
        "pick" => Ok(picked(bench, key)?),
        "detach" => Ok(detached(bench, key)?),
        _ => bail!("of a mode no line asks {word}"),
    }
}

/// Begins with a mode to which nobody is attached, or has other entries open.
fn begun(bench: &mut Bench, word: &str, asked: &[&str]) -> Result<String, Error> {
    let [one, slots @ ..] = asked else {
        bail!("no mode or position behind {word}");
    };
    if word == "new" {
        bench.seats = vacant(bench.alloc, one)?;
    } else {
        bench.open = open::read(bench.alloc, one, slots)?;
    }
    Ok(String::from_str(bench.alloc, "done")?)
}

/// What is answered to a line behind the word mode.
pub(crate) fn answer(bench: &mut Bench, asked: &str) -> Result<String, Error> {
    let words = reading::words(bench.alloc, asked)?;
    let [word, behind @ ..] = words.as_slice() else {
        bail!("nothing is asked of a mode");
    };
    match *word {
        "new" | "open" => begun(bench, word, behind),
        word => of_consumer(bench, word, behind),
    }
}

/// The slot of a key.
pub(crate) fn slot_of(alloc: Global, key: &str) -> Result<String, Error> {
    let slot = slot(&hex::decode(alloc, key)?);
    Ok(format!(in alloc; "{slot}")?)
}
