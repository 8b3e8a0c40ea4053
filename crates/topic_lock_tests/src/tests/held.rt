// A write that is held holds nobody's SEND, and no message whose entry was just committed; and a topic's lock holds nobody's FLOW.
ghost use Rattle.std.specs.Prelude.{◌≡◌};
ghost use Rattle.topic_lock.specs.Ledgers.{IsOf};

use super::talk::{FIRST_MESSAGE, FLOW, SEND, SUBSCRIBE, feed, greet};
use super::{flush_first, new_broker, waits_for};
use disk::Shelf;
use disk_mem::MemShelf;
use gated_log::Refusal;
use log::Log;
use session::{Port, Session};
use std::alloc::Global;
use std::marker::Brand;
use std::sync::Wait;
use std::sync::atomic::{AtomicBool, Ordering};
use std::test::Fail;
use std::thread;
use std::thread::Threads;
use topic_core::{FileStores, TopicStore};
use topic_lock::{
    Blanks, DurableTally, FlushFault, Flushed, Flusher, Ledgers, RestingPort, Seat, SharedBroker,
    SharedTopic, Taken, Tallies, empty_places,
};

// A port over topics in memory, at rest.
type MemPort<'p, 'a, K, R> = RestingPort<'p, 'a, FileStores, MemShelf, K, R>;

// What is held, and when it may go on.
#[derive(Drop)]
struct Gate {
    is_held: AtomicBool,
    is_subscribed: AtomicBool,
    is_locked: AtomicBool,
    is_permitted: AtomicBool,
    may_go_on: AtomicBool,
}

impl Gate {
    // Nothing is held yet.
    fn new() -> Gate {
        Gate {
            is_held: AtomicBool::new(false),
            is_subscribed: AtomicBool::new(false),
            is_locked: AtomicBool::new(false),
            is_permitted: AtomicBool::new(false),
            may_go_on: AtomicBool::new(false),
        }
    }
}

// Has the topic's lock from when the other session has subscribed until its FLOW was fed. Answers whether it was.
fn lock_for_a_flow<K: Tallies, R: Wait>(
    rt: &R,
    shared: &SharedTopic<FileStores, MemShelf, K>,
    gate: &Gate,
) -> bool {
    if !waits_for(&gate.is_subscribed) {
        return false;
    }
    let topic = shared.topic.lock(rt);
    gate.is_locked.store(true, Ordering::SeqCst);
    let is_permitted = waits_for(&gate.is_permitted);
    drop(topic);
    is_permitted
}

// Flushes the topic; the write is held, with the stores' lock, until another session has sent and received. Answers whether it did, and
// how many entries were committed.
fn flush_held<K: Tallies, R: Wait>(
    rt: &R,
    tally: &DurableTally<K>,
    shared: &SharedTopic<FileStores, MemShelf, K>,
    flusher: Flusher<K>,
    gate: &Gate,
) -> Result<(bool, usize), Refusal> {
    let taken = shared.topic.lock(rt).take_batch();
    let batch = match taken {
        Taken::Batch(batch) => batch,
        Taken::Nothing(flushed) => return counted(false, &flushed),
    };
    let mut stores = shared.stores.lock(rt);
    gate.is_held.store(true, Ordering::SeqCst);
    let went_on = lock_for_a_flow(rt, shared, gate) && waits_for(&gate.may_go_on);
    let written = stores.write(rt, tally, flusher, batch);
    drop(stores);
    match shared.topic.lock(rt).finish(written) {
        Ok((_, flushed)) => counted(went_on, &flushed),
        Err(_) => Err(Refusal::Device),
    }
}

// Whether others went on meanwhile, beside what a flush says.
fn counted(went_on: bool, flushed: &Flushed) -> Result<(bool, usize), Refusal> {
    match flushed.count() {
        Ok(count) => Ok((went_on, count)),
        Err(FlushFault::NoMemory) => Err(Refusal::NoMemory),
        Err(_) => Err(Refusal::Device),
    }
}

// Sends as the only producer of a session, has that committed, and sends again.
fn send_twice<'a, T: TopicStore, S: Shelf + Drop, K: Tallies, R: Wait, P: Port>(
    rt: &R,
    alloc: Global,
    port: &mut P,
    broker: &SharedBroker<'a, T, S, K>,
    flusher: Flusher<K>,
) -> Result<Flusher<K>, Refusal> {
    let mut session = Session::new(alloc, 0);
    let mut out = Vec::new(alloc);
    greet(&mut session, port, &mut out)?;
    feed(&mut session, SEND, port, &mut out)?;
    let flusher = flush_first(rt, broker, flusher)?;
    feed(&mut session, SEND, port, &mut out)?;
    Ok(flusher)
}

// The same in a turn of a port that is at rest.
fn send_twice_at_rest<'p, 'a, T: TopicStore, S: Shelf + Drop, K: Tallies, R: Wait + Log>(
    rt: &R,
    alloc: Global,
    resting: RestingPort<'p, 'a, T, S, K, R>,
    broker: &SharedBroker<'a, T, S, K>,
    flusher: Flusher<K>,
) -> Result<Flusher<K>, Refusal> {
    let mut port = resting.begin();
    let sent = send_twice(rt, alloc, &mut port, broker, flusher);
    drop(port.rest());
    sent
}

// Sends twice in a session. The first entry is committed, and the flush of the second one is held.
fn send_and_flush<'p, 'a, K: Tallies, R: Wait + Log>(
    rt: &R,
    alloc: Global,
    resting: MemPort<'p, 'a, K, R>,
    broker: &SharedBroker<'a, FileStores, MemShelf, K>,
    flusher: Flusher<K>,
    gate: &Gate,
) -> Result<(bool, usize), Refusal> {
    let flusher = send_twice_at_rest(rt, alloc, resting, broker, flusher)?;
    let Some(place) = broker.places.first() else {
        return Ok((false, 0));
    };
    let Some(shared) = place.get() else {
        return Ok((false, 0));
    };
    flush_held(rt, &broker.totals.durable, shared, flusher, gate)
}

// Sends in the other session, subscribes from the first entry on, and permits a message while somebody has the topic's lock. Answers
// whether the SEND was refused nothing, and whether the entry that was committed is there at once.
fn send_and_receive<P: Port>(
    alloc: Global,
    port: &mut P,
    gate: &Gate,
) -> Result<(bool, bool), Refusal> {
    let mut session = Session::new(alloc, 1);
    let mut out = Vec::new(alloc);
    greet(&mut session, port, &mut out)?;
    let greeted = out.len();
    feed(&mut session, SEND, port, &mut out)?;
    let is_sent = out.len() == greeted;
    feed(&mut session, SUBSCRIBE, port, &mut out)?;
    gate.is_subscribed.store(true, Ordering::SeqCst);
    let is_locked = waits_for(&gate.is_locked);
    feed(&mut session, FLOW, port, &mut out)?;
    gate.is_permitted.store(true, Ordering::SeqCst);
    if session.pump(port, &mut out).is_err() {
        return Err(Refusal::NoMemory);
    }
    Ok((is_sent && is_locked, out.ends_with(FIRST_MESSAGE)))
}

// Sends and receives in the other session while the write is held.
fn go_on_meanwhile<'p, 'a, T: TopicStore, S: Shelf + Drop, K: Tallies, R: Wait + Log>(
    alloc: Global,
    resting: RestingPort<'p, 'a, T, S, K, R>,
    gate: &Gate,
) -> Result<(bool, bool), Refusal> {
    if !waits_for(&gate.is_held) {
        return Ok((false, false));
    }
    let mut port = resting.begin();
    let seen = send_and_receive(alloc, &mut port, gate);
    drop(port.rest());
    gate.may_go_on.store(true, Ordering::SeqCst);
    seen
}

// Whether the flush saw the other session go on, how many entries it committed, and what the other session saw.
fn run<K: Tallies + Send + Sync, R: Threads + Wait + Log + Sync>(
    rt: &R,
    alloc: Global,
    blanks: Blanks,
) -> Result<((bool, usize), (bool, bool)), Refusal>
    requires accepted { IsOf blanks.accepted_topics K.accepted.one 64 × IsOf blanks.accepted_ports K.accepted.other 2 }
    requires handed { IsOf blanks.handed_topics K.handed.one 64 × IsOf blanks.handed_ports K.handed.other 2 }
    requires durable { IsOf blanks.durable_stores K.durable.one 64 × IsOf blanks.durable_topics K.durable.other 192 }
{
    let Ledgers {
        totals,
        topics,
        mut flushers,
        mut ports,
    } = Ledgers::<K>::open(alloc, blanks, 2)?;
    let places = empty_places(alloc)?;
    let broker = new_broker(rt, alloc, places.as_slice(), totals, topics)?;
    let (Some(one), Some(other), Some(flusher)) = (ports.pop(), ports.pop(), flushers.pop()) else {
        unreachable!();
    };
    let seats = (Seat::new(0), Seat::new(1));
    let first = RestingPort::new(rt, alloc, &broker, &seats.0, one);
    let second = RestingPort::new(rt, alloc, &broker, &seats.1, other);
    let gate = Gate::new();
    let (gate, broker) = (&gate, &broker);
    let (flushed, seen) = thread::join(
        rt,
        move || {
            let flushed = send_and_flush(rt, alloc, first, broker, flusher, gate);
            gate.is_held.store(true, Ordering::SeqCst);
            flushed
        },
        move || go_on_meanwhile(alloc, second, gate),
    );
    Ok((flushed?, seen?))
}

// The write ends only after the other session's SEND was accepted, its FLOW was fed beside the topic's lock and its consumer got the entry
// of the flush before, and commits the one entry that it was taken of.
#[test]
fn a_write_holds_no_send_and_a_lock_no_flow(rt: HostRuntime) -> Result<(), Fail> {
    let seen = run::<Brand, _>(&rt, rt.alloc(), Blanks::new(2))?;
    assert_eq!(rt; seen, ((true, 1), (true, true)));
    Ok(())
}
