// Up to the limits of what stands unwritten, in two threads; too many outputs for each of their allocations to be refused in turn.
use super::desk::Desk;
use super::streams::{HangUp, Line, Sink, Source};
use super::{CONNECT, CONNECTED, PING, PONG};
use bells::Bells;
use gates::{ReaderGate, WriterGate};
use session::{Fault, Session};
use std::alloc::{AllocError, Global};
use std::sync::{Mutex, Wait};
use std::test::Fail;
use std::thread::Threads;
use workers::{Numbered, serve_connection};

// A client's bytes, and what happens to its connection.
#[derive(Clone, Copy)]
struct Client<'a> {
    /// So many PINGs behind a CONNECT.
    pings: usize,
    /// What stands behind these.
    last: &'a [u8],
    /// So many bytes come in a read.
    piece: usize,
    /// It goes behind them.
    goes: bool,
    /// So many writes to it go well.
    writes: u32,
}

// The bytes that it sends.
fn sent(alloc: Global, client: Client<'_>) -> Result<Vec<u8>, AllocError> {
    let mut bytes = Vec::with_capacity(alloc, 8192)?;
    bytes.extend_from_slice(CONNECT)?;
    for _ in 0..client.pings {
        bytes.extend_from_slice(PING)?;
    }
    bytes.extend_from_slice(client.last)?;
    Ok(bytes)
}

// What the two threads of a connection share, and what its client sends.
#[derive(Drop)]
struct Stage {
    bytes: Vec<u8>,
    bells: Bells,
    line: Line,
    session: Mutex<Numbered>,
}

impl Stage {
    // Of session 3, whose line is down from the start where its client goes.
    fn new(alloc: Global, client: Client<'_>) -> Result<Stage, AllocError> {
        let bytes = sent(alloc, client)?;
        let bells = Bells::new(alloc)?;
        let line = Line::new();
        if client.goes {
            line.take_down();
        }
        Ok(Stage {
            bytes,
            bells,
            line,
            session: Mutex::new(Numbered::new(alloc, Session::new(alloc, 3))),
        })
    }

    // Why its session ended.
    fn fault(self) -> Option<Fault> {
        let numbered = self.session.into_inner();
        let fault = numbered.session().fault();
        drop(numbered);
        fault
    }
}

// Serves a client with gates that sleep, and tells how many PONGs it got behind a CONNECTED, if nothing else.
fn serve<R: Threads + Wait + Sync>(
    rt: &R,
    alloc: Global,
    stage: &Stage,
    client: Client<'_>,
) -> Result<Option<usize>, AllocError> {
    let Stage {
        bytes,
        bells,
        line,
        session,
    } = stage;
    let sink = Sink {
        bytes: Vec::with_capacity(alloc, 8192)?,
        writes: client.writes,
    };
    let served = serve_connection(
        rt,
        alloc,
        3,
        session,
        Source::new(rt, bytes.as_slice(), client.piece, line),
        sink,
        &ReaderGate::new(rt, bells, session, 0),
        &WriterGate::new(rt, bells, session, 0),
        &HangUp::new(bells, line),
        Desk::new(),
        Desk::new(),
    );
    let Some(end) = served.end? else {
        return Err(AllocError);
    };
    let came = pongs(end.0.writer.bytes.as_slice());
    drop(end);
    Ok(came)
}

// How many PONGs a client got behind a CONNECTED, if nothing else, and why its session ended.
type Seen = (Option<usize>, Option<Fault>);

// What is seen of a client. Want of memory is an error.
fn seen<R: Threads + Wait + Sync>(
    rt: &R,
    alloc: Global,
    client: Client<'_>,
) -> Result<Seen, Fault> {
    let Ok(stage) = Stage::new(alloc, client) else {
        return Err(Fault::NoMemory);
    };
    let came = serve(rt, alloc, &stage, client);
    let fault = stage.fault();
    match came {
        Ok(came) if fault != Some(Fault::NoMemory) => Ok((came, fault)),
        _ => Err(Fault::NoMemory),
    }
}

// How many PONGs stand behind a CONNECTED, if nothing else does.
fn pongs(bytes: &[u8]) -> Option<usize> {
    if !bytes.starts_with(CONNECTED) {
        return None;
    }
    let mut left = &bytes[CONNECTED.len()..];
    let mut count = 0;
    for _ in 0..1000u32 {
        if !left.starts_with(PONG) {
            break;
        }
        left = &left[PONG.len()..];
        count += 1;
    }
    if left.is_empty() { Some(count) } else { None }
}

// Whatever the cuts, the replies are those of the bytes, in order; the client's end wakes a writer that sleeps. With small pieces
// the reader waits for room, and is woken.
#[test]
fn gives_the_replies_of_any_cut(rt: HostRuntime) -> Result<(), Fail> {
    for (piece, pings) in [(1, 3), (13, 400), (17, 5), (40, 20), (8192, 400)] {
        let client = Client {
            pings,
            last: &[],
            piece,
            goes: true,
            writes: 100_000,
        };
        let seen = seen(&rt, rt.alloc(), client)?;
        assert_eq!(rt; seen, (Some(pings), None), "in pieces of {piece}");
    }
    Ok(())
}

// A write that fails ends the reader too, which waits for bytes, or for room.
#[test]
fn ends_the_reader_where_a_write_fails(rt: HostRuntime) -> Result<(), Fail> {
    for (piece, writes, wanted) in [(17, 1, Some(0)), (13, 0, None), (8192, 0, None)] {
        let client = Client {
            pings: 400,
            last: &[],
            piece,
            goes: false,
            writes,
        };
        let seen = seen(&rt, rt.alloc(), client)?;
        assert_eq!(rt; seen, (wanted, None), "in pieces of {piece}");
    }
    Ok(())
}

// A second CONNECT ends the session. What it was answered before is written, and then the connection is closed, though the
// client stays.
#[test]
fn writes_what_stands_in_the_ring_behind_a_fault(rt: HostRuntime) -> Result<(), Fail> {
    for piece in [1, 13, 8192] {
        let client = Client {
            pings: 9,
            last: CONNECT,
            piece,
            goes: false,
            writes: 100_000,
        };
        let seen = seen(&rt, rt.alloc(), client)?;
        assert_eq!(rt;
            seen,
            (Some(9), Some(Fault::OutOfTurn)),
            "in pieces of {piece}"
        );
    }
    Ok(())
}
