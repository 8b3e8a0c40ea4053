// What the ports of two sending sessions settle. Whoever waits goes on up to a limit of turns, so allocations of these tests are not refused in turn.

ghost use Rattle.topic_lock.specs.Ledgers.{IsOf};

use super::talk::{RECEIPT, SEND, feed, greet};
use super::{TURNS, flush_first, new_broker};
use disk::Shelf;
use disk_mem::MemShelf;
use gated_log::Refusal;
use log::Log;
use session::{Port, Session};
use std::alloc::Global;
use std::marker::Brand;
use std::sync::Wait;
use std::sync::atomic::{AtomicU64, Ordering};
use std::test::Fail;
use std::thread;
use std::thread::Threads;
use topic_core::{FileStores, TopicStore};
use topic_lock::{
    Blanks, Flusher, Ledgers, RestingPort, Seat, SharedBroker, Tallies, empty_places,
};

// How many entries each session sends.
const SENDS: u64 = 50;

// Sends in a session, and answers how many receipts came.
fn publish<P: Port>(alloc: Global, port: &mut P, who: u64) -> Result<u64, Refusal> {
    let mut session = Session::new(alloc, who);
    let mut out = Vec::new(alloc);
    greet(&mut session, port, &mut out)?;
    out.clear();
    for _ in 0..SENDS {
        feed(&mut session, SEND, port, &mut out)?;
    }
    pump_receipts(&mut session, port, &mut out)?;
    Ok(count_receipts(out.as_slice()))
}

// Pumps until as many bytes are there as all receipts have, for so many turns at most.
fn pump_receipts<P: Port>(
    session: &mut Session,
    port: &mut P,
    out: &mut Vec<u8>,
) -> Result<(), Refusal> {
    for _ in 0..TURNS {
        if out.len() as u64 >= SENDS * 22 {
            break;
        }
        if session.pump(port, out).is_err() {
            return Err(Refusal::NoMemory);
        }
        thread::yield_now();
    }
    Ok(())
}

// How many of the frames are receipts, but for their entry ids.
fn count_receipts(out: &[u8]) -> u64 {
    (0..SENDS).filter(|place| is_receipt(out, *place)).count() as u64
}

fn is_receipt(out: &[u8], place: u64) -> bool {
    if place >= SENDS {
        return false;
    }
    let begin = place as usize * 22;
    match out.get(begin..begin + 21) {
        Some(frame) => RECEIPT.starts_with(frame),
        None => false,
    }
}

// How many receipts a session was told, and how many SENDs were accepted and receipts told as all ports settle.
type Settled = (u64, (u64, u64));

// A port over topics in memory, at rest.
type MemPort<'p, 'a, K, R> = RestingPort<'p, 'a, FileStores, MemShelf, K, R>;

// Publishes, waits until both sessions have, and settles.
fn session<'p, 'a, T: TopicStore, S: Shelf + Drop, K: Tallies, R: Wait + Log>(
    alloc: Global,
    port: RestingPort<'p, 'a, T, S, K, R>,
    who: u64,
    finished: &AtomicU64,
) -> Result<Settled, Refusal> {
    let mut port = port.begin();
    let told = publish(alloc, &mut port, who);
    finished.fetch_add(1, Ordering::SeqCst);
    for _ in 0..TURNS {
        if finished.load(Ordering::SeqCst) >= 2 {
            break;
        }
        thread::yield_now();
    }
    let ((_, accepted), (_, handed)) = port.settle();
    Ok((told?, (accepted, handed)))
}

// A session in a thread, and in another one the flusher of its topic.
fn session_and_flusher<'p, 'a, K: Tallies + Send + Sync, R: Threads + Wait + Log + Sync>(
    rt: &R,
    alloc: Global,
    port: MemPort<'p, 'a, K, R>,
    broker: &SharedBroker<'a, FileStores, MemShelf, K>,
    flusher: Flusher<K>,
    finished: &AtomicU64,
) -> Result<Settled, Refusal> {
    let (settled, flushed) = thread::join(
        rt,
        move || session(alloc, port, 1, finished),
        move || flush_while(rt, broker, flusher, finished),
    );
    flushed?;
    settled
}

// Two sessions send on one topic, each in a thread of its own, and a third thread flushes.
fn run<K: Tallies + Send + Sync, R: Threads + Wait + Log + Sync>(
    rt: &R,
    alloc: Global,
    blanks: Blanks,
) -> Result<(Settled, Settled), Refusal>
    requires accepted { IsOf blanks.accepted_topics K.accepted.one 64 × IsOf blanks.accepted_ports K.accepted.other 2 }
    requires handed { IsOf blanks.handed_topics K.handed.one 64 × IsOf blanks.handed_ports K.handed.other 2 }
    requires durable { IsOf blanks.durable_stores K.durable.one 64 × IsOf blanks.durable_topics K.durable.other 192 }
{
    let Ledgers {
        totals,
        topics,
        mut flushers,
        mut ports,
    } = Ledgers::<K>::open(alloc, blanks, 2)?;
    let places = empty_places(alloc)?;
    let broker = new_broker(rt, alloc, places.as_slice(), totals, topics)?;
    let (Some(one), Some(other), Some(flusher)) = (ports.pop(), ports.pop(), flushers.pop()) else {
        unreachable!();
    };
    let seats = (Seat::new(0), Seat::new(1));
    let first = RestingPort::new(rt, alloc, &broker, &seats.0, one);
    let second = RestingPort::new(rt, alloc, &broker, &seats.1, other);
    let finished = AtomicU64::new(0);
    let (finished, broker) = (&finished, &broker);
    let (one, other) = thread::join(
        rt,
        move || session(alloc, first, 0, finished),
        move || session_and_flusher(rt, alloc, second, broker, flusher, finished),
    );
    Ok((one?, other?))
}

// Flushes the first topic, once it is there, until both sessions have published.
fn flush_while<'a, K: Tallies, R: Wait>(
    rt: &R,
    broker: &SharedBroker<'a, FileStores, MemShelf, K>,
    flusher: Flusher<K>,
    finished: &AtomicU64,
) -> Result<(), Refusal> {
    let mut idle = flusher;
    for _ in rt.forever() {
        if finished.load(Ordering::SeqCst) >= 2 {
            break;
        }
        thread::yield_now();
        idle = flush_first(rt, broker, idle)?;
    }
    Ok(())
}

// Both totals are the number of the receipts: none is told twice, and none is lost.
#[test]
fn two_sessions_settle(rt: HostRuntime) -> Result<(), Fail> {
    let seen = run::<Brand, _>(&rt, rt.alloc(), Blanks::new(2))?;
    let settled = (SENDS, (2 * SENDS, 2 * SENDS));
    assert_eq!(rt; seen, (settled, settled));
    Ok(())
}
