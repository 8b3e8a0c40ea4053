// Frames were worked out by hand from the protocol's published description. A session that finds no memory ends for that, so a
// test looks at the session's fault before it looks at what came out.
mod desk;
mod limits;
mod meanwhile;
mod one_thread;
mod places;
mod sockets;
mod streams;

use session::{Fault, Session};
use std::sync::atomic::{AtomicBool, Ordering};
use std::thread;

// How long a thread waits for another one, in turns.
const TURNS: u32 = 100_000;

// Of a client.
const CONNECT: &[u8] = b"\0\0\0\x0d\0\0\0\x09\x08\x02\x12\x05\x0a\x01c\x20\x05";

const CONNECTED: &[u8] =
    b"\0\0\0\x16\0\0\0\x12\x08\x03\x1a\x0e\x0a\x06node-1\x10\x05\x18\x80\x80\x40";

const PING: &[u8] = b"\0\0\0\x09\0\0\0\x05\x08\x12\x92\x01\0";

const PONG: &[u8] = b"\0\0\0\x09\0\0\0\x05\x08\x13\x9a\x01\0";

// Of request 7.
const SUCCESS: &[u8] = b"\0\0\0\x0a\0\0\0\x06\x08\x0d\x6a\x02\x08\x07";

// To the subscription "s" of the topic `persistent://a/b/c`, as consumer 2.
const SUBSCRIBE: &[u8] =
    b"\0\0\0\x27\0\0\0\x23\x08\x04\x22\x1f\x0a\x12persistent://a/b/c\x12\x01s\x18\0\x20\x02\x28\x08\x68\x01";

// Want of memory ends a session, and then a test.
fn ample(session: &Session) -> Result<(), Fault> {
    match session.fault() {
        Some(Fault::NoMemory) => Err(Fault::NoMemory),
        _ => Ok(()),
    }
}

// Waits until a flag is set, for so many turns at most.
fn waits_for(flag: &AtomicBool) -> bool {
    for _ in 0..TURNS {
        if flag.load(Ordering::SeqCst) {
            return true;
        }
        thread::yield_now();
    }
    false
}
