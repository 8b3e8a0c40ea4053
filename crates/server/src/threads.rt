// The threads of a server.
use crate::connection::serve_socket;
use crate::fault::ServeFault;
use crate::pool::Pool;
use crate::showing::{show_pages, wake_pages};
use bells::Bells;
use disk::Shelf;
use gates::FlusherGate;
use log::{Log, error, warn};
use std::alloc::Global;
use std::fmt::Display;
use std::net::{Net, TcpListener, TcpStream};
use std::rt::Clock;
use std::sync::atomic::{AtomicBool, Ordering};
use std::sync::{Mutex, Wait};
use std::thread;
use std::thread::{Parker, Threads};
use std::time::Duration;
use topic_core::TopicStore;
use topic_lock::{Flusher, SharedBroker, Tallies};
use workers::flush_loop;

/// How many topics there are at most, each with a flusher.
const TOPICS: u64 = 64;

/// How long nobody is let in after an arrival failed, as where too many files are open, in milliseconds.
pub(crate) const PAUSE: u64 = 100;

/// What the threads of a server share: the broker, the places for connections, the flushers that have no topic yet, whether
/// flushers are to stop, and how long a client may say nothing before its connection is ended; for ever, where that is none.
#[derive(Drop)]
pub struct Hall<'a, T: TopicStore, S: Shelf + Drop, K: Tallies> {
    pub broker: SharedBroker<'a, T, S, K>,
    pub pool: Mutex<Pool<K>>,
    pub flushers: Mutex<Vec<Flusher<K>>>,
    pub stop: AtomicBool,
    pub idle: Option<Duration>,
    /// Where status pages are shown over HTTP; nowhere, where that is none.
    pub status: Option<&'a TcpListener>,
    /// Whether the log tells that a client isn't served, and none was given a place since.
    pub is_told: AtomicBool,
}

/// Serves so many connections that arrive at the listener, with a flusher for each topic, and returns once all of them have ended.
pub fn serve_connections<'a, T, S, K, R>(
    rt: &R,
    alloc: Global,
    listener: &TcpListener,
    hall: &Hall<'a, T, S, K>,
    connections: u64,
) -> Result<(), ServeFault>
where
    T: TopicStore + Send,
    S: Shelf + Drop + Send,
    K: Tallies + Send + Sync,
    R: Threads + Wait + Log + Clock + Net<Stream = TcpStream, Listener = TcpListener> + Sync,
{
    thread::scope(thread::scope_env(), rt, |scope| {
        let mut is_well = true;
        for topic in 0..TOPICS {
            is_well = is_well && scope.spawn(move || flush(rt, hall, topic)).is_ok();
        }
        is_well = is_well && scope.spawn(move || ring(rt, hall)).is_ok();
        let status = hall.status;
        if is_well {
            if let Some(status) = status
                && scope
                    .spawn(move || show_pages(rt, alloc, hall, status))
                    .is_err()
            {
                warn!(rt; "no status pages are shown: a thread can't be made");
            }
            serve_arrivals(rt, alloc, listener, hall, connections);
        }
        hall.stop.store(true, Ordering::SeqCst);
        ring_flushers(&hall.broker.bells);
        hall.broker.bells.wake_ringer();
        if let Some(status) = status {
            wake_pages(rt, status);
        }
        if is_well {
            Ok(())
        } else {
            error!(rt; "a thread can't be made");
            Err(ServeFault::Device)
        }
    })
}

// A topic's flusher's thread.
fn flush<'a, T: TopicStore, S: Shelf + Drop, K: Tallies, R: Wait + Log>(
    rt: &R,
    hall: &Hall<'a, T, S, K>,
    topic: u64,
) {
    let taken = hall.flushers.lock(rt).pop();
    let Some(flusher) = taken else {
        return;
    };
    let gate = FlusherGate::new(rt, &hall.broker.bells, &hall.stop);
    let _ = flush_loop(rt, topic, &gate, &hall.broker, flusher);
}

// The ringer's thread: it wakes writers for the flushers.
fn ring<'a, T: TopicStore, S: Shelf + Drop, K: Tallies, R: Wait>(rt: &R, hall: &Hall<'a, T, S, K>) {
    for _ in rt.forever() {
        if hall.stop.load(Ordering::SeqCst) {
            return;
        }
        hall.broker.bells.ring_asked(rt);
    }
}

// Wakes all flushers.
fn ring_flushers(bells: &Bells) {
    for topic in 0..TOPICS {
        bells.ring_flusher(topic);
    }
}

// Serves so many connections that arrive, each by threads of its own, until all of them have ended.
fn serve_arrivals<'a, T, S, K, R>(
    rt: &R,
    alloc: Global,
    listener: &TcpListener,
    hall: &Hall<'a, T, S, K>,
    connections: u64,
)
where
    T: TopicStore + Send,
    S: Shelf + Drop + Send,
    K: Tallies + Send + Sync,
    R: Threads + Wait + Log + Sync,
{
    let rest = Parker::new();
    thread::scope(thread::scope_env(), rt, |scope| {
        for session in 0..connections {
            let stream = match listener.accept() {
                Ok((stream, _)) => stream,
                Err(why) => {
                    tell_once(rt, &hall.is_told, &why);
                    rest.park_timeout(rt, Duration::from_millis(PAUSE));
                    continue;
                }
            };
            // Where no thread can be made the socket is closed.
            if scope
                .spawn(move || serve_socket(rt, alloc, hall, session, &stream))
                .is_err()
            {
                tell_once(rt, &hall.is_told, &"no thread can be made");
            }
        }
    });
}

/// Says why a client isn't served, where the log doesn't tell so already.
pub(crate) fn tell_once<R: Log, E: Display>(rt: &R, is_told: &AtomicBool, why: &E) {
    if !is_told.swap(true, Ordering::SeqCst) {
        warn!(rt; "a client can't be served: {why}");
    }
}
