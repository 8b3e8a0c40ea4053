// The loop of a topic's flusher.
use crate::loops::{Point, Turnstile};
use disk::Shelf;
use log::{Log, error, info};
use names::TopicName;
use std::fmt::Display;
use std::sync::Wait;
use std::sync::atomic::{AtomicBool, Ordering};
use topic_core::TopicStore;
use topic_lock::{FlushFault, Flusher, SharedBroker, Tallies};

/// Flushes the topic of a number, once it is there, until no turn is let pass. A flush that was refused memory is tried again after
/// a pause. A topic that fails is opened again in the next turn, behind a pause; where that is refused, whoever next asks
/// something of the topic has it tried again. The log tells once that it fails, and once that a message is on disk again. Hands the
/// flusher back, but where somebody else opened the topic again while its batch was written.
pub fn flush_loop<'a, T: TopicStore, S: Shelf + Drop, K: Tallies, G: Turnstile, R: Wait + Log>(
    rt: &R,
    number: u64,
    turnstile: &G,
    broker: &SharedBroker<'a, T, S, K>,
    flusher: Flusher<K>,
) -> Option<Flusher<K>> {
    let mut flusher = flusher;
    let is_told = AtomicBool::new(false);
    for _ in rt.forever() {
        if !turnstile.pass(Point::Flush(number)) {
            return Some(flusher);
        }
        flusher = flush_turn(rt, number, &is_told, broker, flusher)?;
    }
    unreachable!()
}

// Flushes once. A topic that has failed is opened again first, and the connections end that had asked it for something; one that works
// stays as it is. The log tells what is told of a failure, where it doesn't already.
fn flush_turn<'a, T: TopicStore, S: Shelf + Drop, K: Tallies, R: Wait + Log>(
    rt: &R,
    number: u64,
    is_told: &AtomicBool,
    broker: &SharedBroker<'a, T, S, K>,
    flusher: Flusher<K>,
) -> Option<Flusher<K>> {
    let Some(place) = broker.places.get(number as usize) else {
        return Some(flusher);
    };
    let Some(topic) = place.get() else {
        return Some(flusher);
    };
    let reopened = topic.reopen(rt, &broker.totals.durable);
    if let Err(why) = reopened.end_all(&broker.bells) {
        tell_failure(rt, is_told, &topic.name, &why);
        return Some(flusher);
    }
    let Ok((flusher, flushed)) = topic.flush(rt, &broker.totals.durable, &broker.bells, flusher)
    else {
        return None;
    };
    match flushed.count() {
        Ok(0) => {}
        Ok(_) => tell_success(rt, is_told, &topic.name),
        Err(why) => {
            if why != FlushFault::NoMemory {
                tell_failure(rt, is_told, &topic.name, &why);
            }
            broker.bells.pause_flusher(rt, number);
        }
    }
    Some(flusher)
}

// Says that a topic fails, where the log doesn't tell so already.
fn tell_failure<R: Log, E: Display>(rt: &R, is_told: &AtomicBool, name: &TopicName, why: &E) {
    if !is_told.swap(true, Ordering::SeqCst) {
        error!(rt; "topic {name} has failed: {why}");
    }
}

// Says that a topic works again, where the log tells that it fails.
fn tell_success<R: Log>(rt: &R, is_told: &AtomicBool, name: &TopicName) {
    if is_told.load(Ordering::SeqCst) && is_told.swap(false, Ordering::SeqCst) {
        info!(rt; "topic {name} works again");
    }
}
