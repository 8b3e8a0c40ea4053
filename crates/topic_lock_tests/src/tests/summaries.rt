// What is told of a topic that is shared, beside a session that works.
ghost use Rattle.std.specs.Prelude.{◌≡◌};
ghost use Rattle.topic_lock.specs.Ledgers.{IsOf};

use super::talk::{ACK, FLOW, SEND, SUBSCRIBE, feed, greet};
use super::{flush_first, new_broker};
use disk::Shelf;
use gated_log::Refusal;
use log::Log;
use session::{Port, Session};
use std::alloc::{AllocError, Global};
use std::marker::Brand;
use std::sync::Wait;
use std::test::Fail;
use subscriptions::Mode;
use topic_core::{Activity, TopicStore, TopicSummary};
use topic_lock::{
    Blanks, Flusher, Ledgers, RestingPort, Seat, SharedBroker, SharedTopic, Tallies, empty_places,
};

// What is told of the topic, and of what it has done; of the subscription at its first place: its mode, its consumers and their permits; whether one stands at the
// second place; and in how many segments its entries are, while its stores are let be and while somebody has their lock.
type Told = (
    (TopicSummary, Activity),
    Option<(Mode, usize, u64)>,
    bool,
    [Option<u64>; 2],
);

fn told<T: TopicStore, S: Shelf + Drop, K: Tallies, R: Wait>(
    rt: &R,
    shared: &SharedTopic<T, S, K>,
) -> Result<Told, AllocError> {
    let topic = (shared.summary(rt), shared.activity(rt));
    let first = match shared.subscription(rt, 0)? {
        Some(told) => Some((told.mode, told.consumers, told.permits)),
        None => None,
    };
    let has_second = shared.subscription(rt, 1)?.is_some();
    let free = shared.segments();
    let stores = shared.stores.lock(rt);
    let taken = shared.segments();
    drop(stores);
    Ok((topic, first, has_second, [free, taken]))
}

// The same of the first topic, where it is there.
fn told_first<'a, T: TopicStore, S: Shelf + Drop, K: Tallies, R: Wait>(
    rt: &R,
    broker: &SharedBroker<'a, T, S, K>,
) -> Result<Option<Told>, AllocError> {
    let Some(place) = broker.places.first() else {
        return Ok(None);
    };
    let Some(shared) = place.get() else {
        return Ok(None);
    };
    let told = told(rt, shared)?;
    Ok(Some(told))
}

// Sends and has that committed, sends again, and gets and acknowledges the first message, by one of two permits.
fn work<'a, T: TopicStore, S: Shelf + Drop, K: Tallies, R: Wait, P: Port>(
    rt: &R,
    alloc: Global,
    port: &mut P,
    broker: &SharedBroker<'a, T, S, K>,
    flusher: Flusher<K>,
) -> Result<(), Refusal> {
    let mut session = Session::new(alloc, 0);
    let mut out = Vec::new(alloc);
    greet(&mut session, port, &mut out)?;
    feed(&mut session, SEND, port, &mut out)?;
    drop(flush_first(rt, broker, flusher)?);
    feed(&mut session, SEND, port, &mut out)?;
    feed(&mut session, SUBSCRIBE, port, &mut out)?;
    feed(&mut session, FLOW, port, &mut out)?;
    feed(&mut session, FLOW, port, &mut out)?;
    if session.pump(port, &mut out).is_err() {
        return Err(Refusal::NoMemory);
    }
    feed(&mut session, ACK, port, &mut out)
}

// What is told behind that, in a turn of a port that is at rest, before it ends.
fn work_and_look<'p, 'a, T: TopicStore, S: Shelf + Drop, K: Tallies, R: Wait + Log>(
    rt: &R,
    alloc: Global,
    resting: RestingPort<'p, 'a, T, S, K, R>,
    broker: &SharedBroker<'a, T, S, K>,
    flusher: Flusher<K>,
) -> Result<Option<Told>, Refusal> {
    let mut port = resting.begin();
    let worked = work(rt, alloc, &mut port, broker, flusher);
    let told = told_first(rt, broker);
    drop(port.rest());
    worked?;
    Ok(told?)
}

// What is told behind that, while the session is there.
fn run<K: Tallies, R: Wait + Log>(
    rt: &R,
    alloc: Global,
    blanks: Blanks,
) -> Result<Option<Told>, Refusal>
    requires accepted { IsOf blanks.accepted_topics K.accepted.one 64 × IsOf blanks.accepted_ports K.accepted.other 1 }
    requires handed { IsOf blanks.handed_topics K.handed.one 64 × IsOf blanks.handed_ports K.handed.other 1 }
    requires durable { IsOf blanks.durable_stores K.durable.one 64 × IsOf blanks.durable_topics K.durable.other 192 }
{
    let Ledgers {
        totals,
        topics,
        mut flushers,
        mut ports,
    } = Ledgers::<K>::open(alloc, blanks, 1)?;
    let places = empty_places(alloc)?;
    let broker = new_broker(rt, alloc, places.as_slice(), totals, topics)?;
    let (Some(share), Some(flusher)) = (ports.pop(), flushers.pop()) else {
        unreachable!();
    };
    let seat = Seat::new(0);
    let resting = RestingPort::new(rt, alloc, &broker, &seat, share);
    match work_and_look(rt, alloc, resting, &broker, flusher)? {
        Some(told) if lacks_device(&told) => Err(Refusal::Device),
        told => Ok(told),
    }
}

// Whether the device failed meanwhile, as the one in memory does where it is refused memory.
fn lacks_device(told: &Told) -> bool {
    told.0.0.is_failed || told.0.0.accepted < 2
}

// The entry that waits is told apart from the one that is committed, and the permit that is left. Segments are told only where nobody
// has the stores.
#[test]
fn a_shared_topic_is_told_beside_its_sessions(rt: HostRuntime) -> Result<(), Fail> {
    let seen = run::<Brand, _>(&rt, rt.alloc(), Blanks::new(1))?;
    let summary = TopicSummary {
        entries: 1,
        waiting: 1,
        waiting_bytes: 14,
        accepted: 2,
        handed: 1,
        producers: 1,
        subscriptions: 1,
        is_failed: false,
    };
    let activity = Activity {
        messages: 1,
        acknowledgements: 1,
        flushes: 1,
        bytes: 14,
    };
    let first = Some((Mode::Exclusive, 1, 1));
    assert_eq!(rt;
        seen,
        Some(((summary, activity), first, false, [Some(1), None]))
    );
    Ok(())
}
