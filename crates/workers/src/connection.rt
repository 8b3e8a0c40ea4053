// A connection, by a reader's and a writer's thread.
ghost use Rattle.std.specs.Prelude.{◌≡◌, ◌++◌, IfOk, IfSome, IsErr};
ghost use Rattle.rtrb.specs.Ring.{received, known_items, all_sent, SameConsumer};
ghost use Rattle.workers.specs.Writes.{FinishesAfter};

use crate::loops::Turnstile;
use crate::numbered::{Ended, Numbered};
use crate::outgoing::{Outgoing, Output};
use crate::resting::PortAtRest;
use rtrb::{Consumer, Finished, Producer, RingBuffer};
use std::alloc::{AllocError, Global};
use std::io::{Read, Write};
use std::snapshot::Snapshot;
use std::sync::{Mutex, Wait};
use std::thread;
use std::thread::{Promise, Threads};

/// So many replies stand in a connection's ring at most.
const PLACES: usize = 256;

/// So many bytes are read in a turn at most. Our own rule: a topic's lock is held for a piece, and a flusher comes in between two.
const PIECE: usize = 16_384;

/// What a connection's threads do behind their loops, so that each ends the other.
pub trait Ends {
    /// The session has ended: the writer has to be woken, to write what stands in the ring and end.
    fn reader_is_over(&self);

    /// Nothing more is written: the connection has to be closed, which ends a read that waits, and a reader that waits for room
    /// has to be woken.
    fn writer_is_over(&self);
}

/// That a writer hands back the end of the ring that it was given.
#[derive(Drop)]
struct RingOf(Snapshot<Consumer<Output>>);

impl<A, W> Promise<(A, Outgoing<W>)> for RingOf {
    ghost kept_by = { λ promise written. SameConsumer promise.0.value written.1.replies };
}

/// A connection that has ended.
#[derive(Drop)]
pub struct Served<A, W> {
    /// The ports that its reader and its writer had.
    pub reader_port: A,
    pub writer_port: A,
    /// That its session has ended.
    pub ended: Ended,
    /// The ends of its ring, where the reader's could be finished; or that memory was refused before any byte was read.
    pub end: Result<Option<(Outgoing<W>, Finished<Output>)>, AllocError>,
}

/// Serves a connection by two threads until the loops of both have ended, and hands its ports and the ends of its ring back. What
/// the writer took from the ring and what is left there are the reader's replies, in order, each once. The gates of the two loops
/// wake each other. Where no thread can be made for the writer the connection is closed, and nothing of it is read.
pub fn serve_connection<I, W, A, T, U, E, R>(
    rt: &R,
    alloc: Global,
    number: u64,
    session: &Mutex<Numbered>,
    input: I,
    output: W,
    reader_gate: &T,
    writer_gate: &U,
    ends: &E,
    reader_port: A,
    writer_port: A,
) -> Served<A, W>
where
    I: Read + Drop + Send,
    W: Write + Drop + Send,
    A: PortAtRest + Drop + Send,
    T: Turnstile + Sync,
    U: Turnstile + Sync,
    E: Ends + Sync,
    R: Threads + Wait + Sync,
    ensures { IfOk result.end (λ r. IfSome r (λ c. received c.0.replies ++ known_items c.0.replies ≡ all_sent c.1)) }
{
    let ring = RingBuffer::new(alloc, PLACES);
    let Ok((replies, ring)) = ring else {
        return refused(rt, session, reader_port, writer_port);
    };
    let buffer = vec![in alloc; 0u8; PIECE];
    let Ok(buffer) = buffer else {
        return refused(rt, session, reader_port, writer_port);
    };
    let outgoing = Outgoing {
        writer: output,
        replies: ring,
        next: 0,
        replied: 0,
    };
    let ((reader_port, finished, ended), (writer_port, outgoing)) = thread::scope(
        thread::scope_env(),
        rt,
        move |scope| -> ((A, Option<Finished<Output>>, Ended), (A, Outgoing<W>))
            ensures read { IfSome result.0.1 (λ f. FinishesAfter replies f) }
            ensures written { SameConsumer outgoing.replies result.1.1.replies }
        {
            let promise = RingOf(Snapshot::of(&outgoing.replies));
            let begun = scope.spawn_with(
                promise,
                move || -> (A, Outgoing<W>)
                    ensures { SameConsumer outgoing.replies result.1.replies }
                {
                    writer(
                        rt,
                        number,
                        session,
                        outgoing,
                        writer_gate,
                        ends,
                        writer_port,
                    )
                },
            );
            match begun {
                Ok(writing) => {
                    let read = reader(
                        rt,
                        number,
                        session,
                        input,
                        buffer,
                        reader_gate,
                        ends,
                        reader_port,
                        replies,
                    );
                    (read, writing.join(rt))
                }
                Err(refused) => {
                    let (reader_port, ended) = reader_port.end(rt, session);
                    ends.reader_is_over();
                    ((reader_port, None, ended), (refused.value)())
                }
            }
        },
    );
    let Some(mut finished) = finished else {
        return Served {
            reader_port,
            writer_port,
            ended,
            end: Ok(None),
        };
    };
    let mut outgoing = outgoing;
    outgoing.replies.slots_after(&mut finished);
    Served {
        reader_port,
        writer_port,
        ended,
        end: Ok(Some((outgoing, finished))),
    }
}

// Nothing was read, since memory was refused.
fn refused<A: PortAtRest, W, R: Wait>(
    rt: &R,
    session: &Mutex<Numbered>,
    reader_port: A,
    writer_port: A,
) -> Served<A, W>
    ensures { IsErr result.end }
{
    let (reader_port, ended) = reader_port.end(rt, session);
    Served {
        reader_port,
        writer_port,
        ended,
        end: Err(AllocError),
    }
}

// The reader's thread.
fn reader<I: Read + Drop, A: PortAtRest, T: Turnstile, E: Ends, R: Wait>(
    rt: &R,
    number: u64,
    session: &Mutex<Numbered>,
    input: I,
    buffer: Vec<u8>,
    gate: &T,
    ends: &E,
    port: A,
    replies: Producer<Output>,
) -> (A, Option<Finished<Output>>, Ended)
    ensures { IfSome result.1 (λ f. FinishesAfter replies f) }
{
    let mut input = input;
    let mut buffer = buffer;
    let buffer = buffer.as_mut_slice();
    let read = port.read(rt, number, gate, session, &mut input, buffer, replies);
    ends.reader_is_over();
    read
}

// The writer's thread.
fn writer<W: Write, A: PortAtRest, T: Turnstile, E: Ends, R: Wait>(
    rt: &R,
    number: u64,
    session: &Mutex<Numbered>,
    outgoing: Outgoing<W>,
    gate: &T,
    ends: &E,
    port: A,
) -> (A, Outgoing<W>)
    ensures { SameConsumer outgoing.replies result.1.replies }
{
    let mut outgoing = outgoing;
    let port = port.write(rt, number, gate, session, &mut outgoing);
    session.lock(rt).stop();
    ends.writer_is_over();
    (port, outgoing)
}
