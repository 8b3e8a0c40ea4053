// The thread that shows status pages, to one client at a time.
use crate::threads::{Hall, PAUSE};
use crate::timed::Timed;
use crate::told::Told;
use disk::Shelf;
use log::{Log, debug, warn};
use status_pages::{Board, answer};
use std::alloc::Global;
use std::io;
use std::io::{ErrorKind, Read};
use std::net::{Net, Shutdown, TcpListener, TcpStream};
use std::rt::Clock;
use std::sync::Wait;
use std::sync::atomic::Ordering;
use std::thread::Parker;
use std::time::Duration;
use topic_core::TopicStore;
use topic_lock::Tallies;

/// How long a client may take to send its request, in seconds. Our own rule.
const REQUEST: u64 = 5;

/// How long it may take to send that and to take the answer, in seconds. Our own rule.
const EXCHANGE: u64 = 10;

/// How long it is waited for that a client that was answered closes, in seconds. Our own rule.
const FAREWELL: u64 = 1;

/// How often it is tried at most to have the thread see that it is to stop.
const TRIES: u32 = 100;

/// Shows status pages to whoever connects, one client after another, until the hall's threads are to stop. A client that doesn't
/// send its request in 5 seconds, or hasn't taken the answer 10 seconds behind the begin of its turn, is cut off. Nothing that
/// befalls a client ends more than its connection; the log tells once until it goes well again that a client isn't served for the
/// broker's own lack.
pub(crate) fn show_pages<'a, T, S, K, R>(
    rt: &R,
    alloc: Global,
    hall: &Hall<'a, T, S, K>,
    listener: &TcpListener,
)
where
    T: TopicStore,
    S: Shelf + Drop,
    K: Tallies,
    R: Wait + Clock + Log,
{
    let rest = Parker::new();
    let board = Told {
        rt,
        hall,
        since: seconds_now(rt),
    };
    let mut is_told = false;
    for _ in rt.forever() {
        let shown = match listener.accept() {
            Ok((stream, _)) => {
                if hall.stop.load(Ordering::SeqCst) {
                    return;
                }
                show_to(rt, alloc, &board, &stream)
            }
            Err(why) => {
                rest.park_timeout(rt, Duration::from_millis(PAUSE));
                Err(why)
            }
        };
        if hall.stop.load(Ordering::SeqCst) {
            return;
        }
        is_told = tell_lack(rt, is_told, &shown);
    }
}

// Says in the log that a page isn't shown for the broker's own lack, where that isn't told already. Whether it is told now.
fn tell_lack<R: Log>(rt: &R, is_told: bool, shown: &io::Result<bool>) -> bool {
    match shown {
        Ok(true) => {
            if !is_told {
                warn!(rt; "a status page can't be shown: no memory");
            }
            true
        }
        Ok(false) => false,
        Err(why) => {
            if !is_told {
                warn!(rt; "a status page can't be shown: {why}");
            }
            true
        }
    }
}

// Shows a client the page that it asks for. Answers whether memory was refused for that; whatever else goes wrong is the client's.
fn show_to<B: Board, R: Clock + Log>(
    rt: &R,
    alloc: Global,
    board: &B,
    stream: &TcpStream,
) -> io::Result<bool> {
    let _ = stream.set_nodelay(true);
    let mut reader = Timed::new(rt, stream, Duration::from_secs(REQUEST))?;
    let mut writer = Timed::new(rt, stream, Duration::from_secs(EXCHANGE))?;
    match answer(alloc, board, &mut reader, &mut writer) {
        Ok(()) => {
            part(rt, stream);
            Ok(false)
        }
        Err(why) if why.kind() == ErrorKind::OutOfMemory => Ok(true),
        Err(why) => {
            debug!(rt; "a client of the status pages is cut off: {why}");
            Ok(false)
        }
    }
}

// Waits a moment for a client that was answered to close. What it still sends would else have its system drop the answer.
fn part<R: Clock>(rt: &R, stream: &TcpStream) {
    if stream.shutdown(Shutdown::Write).is_err() {
        return;
    }
    let Ok(mut reader) = Timed::new(rt, stream, Duration::from_secs(FAREWELL)) else {
        return;
    };
    let mut came = [0; 512];
    for _ in 0..TRIES {
        match reader.read(&mut came) {
            Ok(0) | Err(_) => return,
            Ok(_) => {}
        }
    }
}

/// Has the thread that shows pages see that it is to stop: a connection ends its wait for one.
pub(crate) fn wake_pages<R>(rt: &R, listener: &TcpListener)
where
    R: Wait + Net<Stream = TcpStream, Listener = TcpListener>,
{
    let Ok(address) = listener.local_addr() else {
        return;
    };
    let rest = Parker::new();
    for _ in 0..TRIES {
        if TcpStream::connect(rt, address).is_ok() {
            return;
        }
        rest.park_timeout(rt, Duration::from_millis(PAUSE));
    }
}

// The seconds since 1970, where the clock can be read.
fn seconds_now<R: Clock>(rt: &R) -> Option<u64> {
    match rt.since_1970() {
        Ok(since) => Some(since.as_secs()),
        Err(_) => None,
    }
}
