// A connection, from its first byte until its place is free again.
use crate::pool::Free;
use crate::threads::{Hall, tell_once};
use disk::Shelf;
use gates::{Parting, ReaderGate, WriterGate};
use log::{Log, debug, warn};
use session::{Fault, Session};
use std::alloc::Global;
use std::net::TcpStream;
use std::sync::atomic::Ordering;
use std::sync::{Mutex, Wait};
use std::thread::Threads;
use std::time::Duration;
use topic_core::TopicStore;
use topic_lock::{RestingPort, Seat, Tallies};
use workers::{Ended, Numbered, serve_connection};

/// How long a client may take nothing of what is written to it before its connection is ended, in seconds. Our own rule.
const PATIENCE: u64 = 60;

/// Serves a client's socket, where a place is free, and gives the place back. Where none is, the socket is closed
/// without a byte. The log tells that once until a client finds one, and each client that is cut off for a fault of its own.
pub(crate) fn serve_socket<'a, T, S, K, R>(
    rt: &R,
    alloc: Global,
    hall: &Hall<'a, T, S, K>,
    number: u64,
    stream: &TcpStream,
)
where
    T: TopicStore + Send,
    S: Shelf + Drop + Send,
    K: Tallies + Send + Sync,
    R: Threads + Wait + Log + Sync,
{
    let taken = hall.pool.lock(rt).take();
    let Some(free) = taken else {
        return tell_once(rt, &hall.is_told, &"no place is free");
    };
    hall.is_told.store(false, Ordering::SeqCst);
    let peer = stream.peer_addr().ok();
    if let Some(peer) = peer {
        debug!(rt; "session {number} begins, of the client at {peer}");
    }
    let (free, ended, fault) = talk(rt, alloc, hall, number, stream, free);
    hall.pool.lock(rt).give(free, ended);
    if let (Some(peer), Some(fault)) = (peer, fault) {
        warn!(rt; "the client at {peer} is cut off: {fault}");
    }
    debug!(rt; "session {number} has ended");
}

// Serves a socket at a place, and hands the place back with what its ports were told, that the session has ended, and the fault that
// ended it, if one did.
fn talk<'a, T, S, K, R>(
    rt: &R,
    alloc: Global,
    hall: &Hall<'a, T, S, K>,
    number: u64,
    stream: &TcpStream,
    free: Free<K>,
) -> (Free<K>, Ended, Option<Fault>)
where
    T: TopicStore + Send,
    S: Shelf + Drop + Send,
    K: Tallies + Send + Sync,
    R: Threads + Wait + Log + Sync,
{
    let Free {
        place,
        reader,
        writer,
    } = free;
    limit_waits(stream, hall.idle);
    let bells = &hall.broker.bells;
    bells.begin(place);
    let seat = Seat::new(place);
    let session = Mutex::new(Numbered::new(alloc, Session::new(alloc, number)));
    let reader = RestingPort::new(rt, alloc, &hall.broker, &seat, reader);
    let writer = RestingPort::new(rt, alloc, &hall.broker, &seat, writer);
    // Where memory is refused the connection is closed.
    let served = serve_connection(
        rt,
        alloc,
        number,
        &session,
        stream,
        stream,
        &ReaderGate::new(rt, bells, &session, place),
        &WriterGate::new(rt, bells, &session, place),
        &Parting::new(bells, place, stream),
        reader,
        writer,
    );
    let fault = session.lock(rt).session().fault();
    let free = Free {
        place,
        reader: served.reader_port.into_shares(),
        writer: served.writer_port.into_shares(),
    };
    (free, served.ended, fault)
}

// Has the system end what waits for a client that says nothing, or takes nothing, for too long.
fn limit_waits(stream: &TcpStream, idle: Option<Duration>) {
    // Where one of them fails the client is served all the same: replies come later, or it is waited for longer.
    let _ = stream.set_nodelay(true);
    let _ = stream.set_write_timeout(Some(Duration::from_secs(PATIENCE)));
    let _ = stream.set_read_timeout(idle);
}
