// The writer's turn holds nobody's feed: it serves the session without its lock.
use super::desk::{Desk, Gate};
use super::streams::Turns;
use super::{CONNECT, CONNECTED, PING, PONG, SUBSCRIBE, SUCCESS, ample, waits_for};
use rtrb::{Producer, RingBuffer};
use session::Session;
use std::sync::atomic::{AtomicU64, Ordering};
use std::sync::{Mutex, Wait};
use std::test::Fail;
use std::thread;
use workers::{Numbered, Outgoing, Output, Piece, write_loop};

// One message for consumer 2.
const FLOW: &[u8] = b"\0\0\0\x0c\0\0\0\x08\x08\x0b\x5a\x04\x08\x02\x10\x01";

// A turn of the writer, which is held while it serves. Tells whether it wrote what it must, and whether it was let go on.
fn write_held<R: Wait>(
    rt: &R,
    session: &Mutex<Numbered>,
    outgoing: Outgoing<Vec<u8>>,
    gate: &Gate,
) -> (bool, bool) {
    let mut outgoing = outgoing;
    let mut desk = Desk::held(gate);
    let turns = Turns {
        left: AtomicU64::new(1),
    };
    let _ = write_loop(rt, 3, &turns, session, &mut desk, &mut outgoing);
    let is_written = is_in_order(outgoing.writer.as_slice());
    drop(outgoing);
    (is_written, desk.was_let)
}

// Feeds a FLOW and a PING while the session is served, and tells when that has ended.
fn feed_meanwhile<R: Wait>(
    rt: &R,
    session: &Mutex<Numbered>,
    replies: Producer<Output>,
    gate: &Gate,
) -> bool {
    let mut replies = replies;
    let is_held = waits_for(&gate.is_held);
    let fed = feed(rt, session, FLOW, &mut replies) && feed(rt, session, PING, &mut replies);
    gate.may_go_on.store(true, Ordering::SeqCst);
    is_held && fed
}

// Feeds a command, under the session's lock. Answers whether the session goes on.
fn feed<R: Wait>(
    rt: &R,
    session: &Mutex<Numbered>,
    command: &[u8],
    replies: &mut Producer<Output>,
) -> bool {
    if replies.slots() == 0 {
        return false;
    }
    let mut input = command;
    let mut buffer = [0; 128];
    let Some(piece) = Piece::read(&mut input, &mut buffer) else {
        return false;
    };
    let mut desk = Desk::new();
    let mut numbered = session.lock(rt);
    if numbered.is_over() {
        piece.refuse(&numbered);
        return false;
    }
    numbered.feed(piece, &mut desk, replies)
}

// Whether this was written, in this order: what was answered before, what was served, and what was answered meanwhile.
fn is_in_order(written: &[u8]) -> bool {
    let Some(served) = written.strip_prefix(CONNECTED) else {
        return false;
    };
    match served.strip_prefix(SUCCESS) {
        Some(left) => left == PONG,
        None => false,
    }
}

// The serving goes on only once the FLOW has ended. What it gives has the earlier number, so it is written first.
#[test]
fn a_flow_waits_for_no_serving(rt: HostRuntime) -> Result<(), Fail> {
    let writer = Vec::with_capacity(rt.alloc(), 100)?;
    let (mut replies, ring) = RingBuffer::new(rt.alloc(), 4)?;
    let outgoing = Outgoing {
        writer,
        replies: ring,
        next: 0,
        replied: 0,
    };
    let session = Mutex::new(Numbered::new(rt.alloc(), Session::new(rt.alloc(), 3)));
    let is_subscribed = feed(&rt, &session, CONNECT, &mut replies)
        && feed(&rt, &session, SUBSCRIBE, &mut replies);
    let gate = Gate::new();
    let shared = (&session, &gate);
    let ((is_written, was_let), was_fed) = thread::join(
        &rt,
        move || write_held(&rt, shared.0, outgoing, shared.1),
        move || feed_meanwhile(&rt, shared.0, replies, shared.1),
    );
    let numbered = session.into_inner();
    let found = ample(numbered.session());
    drop(numbered);
    found?;
    assert!(rt; is_subscribed && was_let && was_fed);
    assert!(rt; is_written);
    Ok(())
}
