// What sessions are fed, and what comes of it. Frames were worked out by hand from the protocol's published description.
use gated_log::Refusal;
use session::{Fault, Port, Session};

const CONNECT: &[u8] = b"\0\0\0\x0d\0\0\0\x09\x08\x02\x12\x05\x0a\x01c\x20\x05";

// Of the topic `persistent://a/b/c`, as producer 1.
const PRODUCER: &[u8] =
    b"\0\0\0\x20\0\0\0\x1c\x08\x05\x2a\x18\x0a\x12persistent://a/b/c\x10\x01\x18\x07";

/// To the subscription "s" of the same topic, from its first entry on, as consumer 2.
pub const SUBSCRIBE: &[u8] =
    b"\0\0\0\x27\0\0\0\x23\x08\x04\x22\x1f\x0a\x12persistent://a/b/c\x12\x01s\x18\0\x20\x02\x28\x08\x68\x01";

/// By producer 1.
pub const SEND: &[u8] =
    b"\0\0\0\x1a\0\0\0\x08\x08\x06\x32\x04\x08\x01\x10\0\0\0\0\x0a\x0a\x01p\x10\0\x18\x01\xc0>\x05";

/// Of the first entry.
pub const RECEIPT: &[u8] =
    b"\0\0\0\x12\0\0\0\x0e\x08\x07\x3a\x0a\x08\x01\x10\0\x1a\x04\x08\0\x10\0";

/// One message more for consumer 2.
pub const FLOW: &[u8] = b"\0\0\0\x0c\0\0\0\x08\x08\x0b\x5a\x04\x08\x02\x10\x01";

/// Of the first entry, by consumer 2, which asks for no answer.
pub const ACK: &[u8] = b"\0\0\0\x12\0\0\0\x0e\x08\x0a\x52\x0a\x08\x02\x10\0\x1a\x04\x08\0\x10\0";

/// The first entry, for consumer 2.
pub const FIRST_MESSAGE: &[u8] =
    b"\0\0\0\x1e\0\0\0\x0c\x08\x09\x4a\x08\x08\x02\x12\x04\x08\0\x10\0\0\0\0\x0a\x0a\x01p\x10\0\x18\x01\xc0>\x05";

// What ended a session, where memory was refused.
fn refusal(fault: Fault) -> Refusal {
    match fault {
        Fault::NoMemory => Refusal::NoMemory,
        _ => Refusal::Device,
    }
}

/// Feeds a session.
pub fn feed<P: Port>(
    session: &mut Session,
    bytes: &[u8],
    port: &mut P,
    out: &mut Vec<u8>,
) -> Result<(), Refusal> {
    session.feed(bytes, port, out).map_err(refusal)
}

/// CONNECT, and a producer of the topic.
pub fn greet<P: Port>(
    session: &mut Session,
    port: &mut P,
    out: &mut Vec<u8>,
) -> Result<(), Refusal> {
    feed(session, CONNECT, port, out)?;
    feed(session, PRODUCER, port, out)
}
