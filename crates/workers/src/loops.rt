// The loops of a connection's two threads.
ghost use Rattle.std.specs.Prelude.{◌≡◌, ◌<◌, ◌≤◌, ◌++◌, [], true, OnOk, IfOk, IfSome, length};
ghost use Rattle.rtrb.specs.Ring.{known_free, known_items, SameConsumer};
ghost use Rattle.workers.specs.Writes.{Wrote, Extends, FinishesAfter};

use crate::numbered::listing::Listing;
use crate::numbered::{Ended, NUMBERS, Numbered, Piece, Pumped};
use crate::outgoing::{Outgoing, Output};
use rtrb::{Finished, Producer};
use session::Port;
use std::io;
use std::io::{Read, Write};
use std::sync::{Mutex, Wait};
use topic_lock::Turns;

/// Where a loop asks whether to go on: that of a session's reader or writer, or that of a topic's flusher, by its number.
#[derive(Clone, Copy, Debug, PartialEq, Eq)]
pub enum Point {
    Read(u64),
    Write(u64),
    Flush(u64),
}

/// What a loop asks before each turn. It may wait until there is something to do.
pub trait Turnstile {
    /// Whether the loop goes on.
    fn pass(&self, point: Point) -> bool;
}

// Feeds a piece, where the session goes on. The replies are pushed before its lock is let go.
fn feed_locked<P: Port + Turns, R: Wait>(
    rt: &R,
    session: &Mutex<Numbered>,
    piece: Piece<'_>,
    port: &mut P,
    replies: &mut Producer<Output>,
) -> bool
    requires { 0 < known_free replies.old }
    ensures { Extends replies.old replies.new }
{
    let mut session = session.lock(rt);
    if session.is_over() {
        piece.refuse(&session);
        return false;
    }
    port.begin_turn();
    let goes_on = session.feed(piece, port, replies);
    port.end_turn();
    goes_on
}

// Reads and feeds once, where the ring has a free place. Answers whether the loop goes on.
fn read_turn<I: Read, P: Port + Turns, R: Wait>(
    rt: &R,
    session: &Mutex<Numbered>,
    input: &mut I,
    buffer: &mut [u8],
    port: &mut P,
    replies: &mut Producer<Output>,
) -> bool
    ensures { Extends replies.old replies.new }
{
    if replies.slots() == 0 {
        return true;
    }
    let Some(piece) = Piece::read(input, buffer) else {
        return false;
    };
    feed_locked(rt, session, piece, port, replies)
}

// Reads and feeds until the input or the session ends or no turn is let pass.
fn read_all<I: Read, P: Port + Turns, T: Turnstile, R: Wait>(
    rt: &R,
    number: u64,
    turnstile: &T,
    session: &Mutex<Numbered>,
    input: &mut I,
    buffer: &mut [u8],
    port: &mut P,
    replies: &mut Producer<Output>,
)
    ensures { Extends replies.old replies.new }
{
    for _ in rt.forever() {
        if !turnstile.pass(Point::Read(number)) {
            break;
        }
        if !read_turn(rt, session, input, buffer, port, replies) {
            break;
        }
    }
}

/// Feeds a session what the input gives, at most as many bytes a turn as the buffer has, and pushes what each feed gave as one
/// reply, until the input or the session ends or no turn is let pass. A turn that finds the ring full reads nothing. Then the
/// session ends, and leaves each topic.
pub fn read_loop<I: Read, P: Port + Turns, T: Turnstile, R: Wait>(
    rt: &R,
    number: u64,
    turnstile: &T,
    session: &Mutex<Numbered>,
    input: &mut I,
    buffer: &mut [u8],
    port: &mut P,
    replies: Producer<Output>,
) -> (Option<Finished<Output>>, Ended)
    ensures { IfSome result.0 (λ f. FinishesAfter replies f) }
{
    let mut replies = replies;
    read_all(
        rt,
        number,
        turnstile,
        session,
        input,
        buffer,
        port,
        &mut replies,
    );
    let ended = session.lock(rt).end(port);
    (replies.finish(), ended)
}

// Says what is written, and collects what is due and lists by what the session is served, where it goes on. That is the first part of
// the port's turn.
fn list_locked<P: Port + Turns, R: Wait>(
    rt: &R,
    session: &Mutex<Numbered>,
    port: &mut P,
    next: u64,
    replied: u64,
) -> Option<Listing> {
    let mut session = session.lock(rt);
    session.tell_written(next, replied);
    if session.is_over() {
        return None;
    }
    port.begin_turn();
    session.list(port)
}

// Serves by a list, without the session's lock, which ends the port's turn.
fn serve<P: Port + Turns>(listing: Listing, port: &mut P) -> Pumped {
    let pumped = listing.serve(port);
    port.end_turn();
    pumped
}

// Collects and serves, and writes once its session was told. The session's lock is held to collect and list, and then to tell it, and
// not in between. Answers whether the session has ended; what stood in the ring is then written.
fn write_turn<W: Write, P: Port + Turns, R: Wait>(
    rt: &R,
    session: &Mutex<Numbered>,
    port: &mut P,
    outgoing: &mut Outgoing<W>,
) -> io::Result<bool>
    ensures ring { SameConsumer outgoing.old.replies outgoing.new.replies }
    ensures wrote { OnOk result (Wrote W.contents outgoing.old outgoing.new) }
    ensures ended { IfOk result (λ ended. ended ≡ true → known_items outgoing.new.replies ≡ []) }
{
    let listed = list_locked(rt, session, port, outgoing.next, outgoing.replied);
    let Some(listing) = listed else {
        port.end_turn();
        outgoing.write_below(NUMBERS)?;
        return Ok(true);
    };
    let pumped = serve(listing, port);
    let unwritten = session.lock(rt).served(pumped);
    let ended = unwritten.write(outgoing)?;
    outgoing.write_below(NUMBERS)?;
    Ok(ended)
}

/// Writes what the session is served and the reader's replies, in rising numbers, until the session ends or no turn is let
/// pass. Answers whether the session has ended; all that was seen in the ring is then written.
pub fn write_loop<W: Write, P: Port + Turns, T: Turnstile, R: Wait>(
    rt: &R,
    number: u64,
    turnstile: &T,
    session: &Mutex<Numbered>,
    port: &mut P,
    outgoing: &mut Outgoing<W>,
) -> io::Result<bool>
    ensures ring { SameConsumer outgoing.old.replies outgoing.new.replies }
    ensures wrote { OnOk result (Wrote W.contents outgoing.old outgoing.new) }
    ensures ended { IfOk result (λ ended. ended ≡ true → known_items outgoing.new.replies ≡ []) }
{
    for _ in rt.forever() {
        if !turnstile.pass(Point::Write(number)) {
            return Ok(false);
        }
        if write_turn(rt, session, port, outgoing)? {
            return Ok(true);
        }
    }
    unreachable!()
}
