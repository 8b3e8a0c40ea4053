use super::desk::Desk;
use super::streams::Turns;
use super::{CONNECT, CONNECTED, PING, PONG, SUBSCRIBE, SUCCESS, ample};
use rtrb::{Producer, RingBuffer};
use session::{Fault, Session};
use std::alloc::{AllocError, Global};
use std::io;
use std::sync::atomic::AtomicU64;
use std::sync::{Mutex, Wait};
use std::test::Fail;
use workers::{Listing, Numbered, Outgoing, Output, Piece, Unwritten, read_loop};

// Above each number of an output.
const ABOVE: u64 = 1 << 62;

// Both sides of a connection but for its ring's reading end.
#[derive(Drop)]
struct Feeder {
    numbered: Numbered,
    desk: Desk<'static>,
    replies: Producer<Output>,
}

// A connection in one thread.
#[derive(Drop)]
struct Bench {
    feeder: Feeder,
    outgoing: Outgoing<Vec<u8>>,
}

// What is left of a connection: the number of its session's next output, whether the session has ended, below which number all is
// written, and what is.
#[derive(Drop)]
struct Left {
    next: u64,
    is_over: bool,
    passed: u64,
    written: Vec<u8>,
}

impl Bench {
    // That of session 3, whose ring has so many places.
    fn new(alloc: Global, places: usize) -> Result<Bench, AllocError> {
        let writer = Vec::with_capacity(alloc, 100)?;
        let (replies, ring) = RingBuffer::new(alloc, places)?;
        Ok(Bench {
            feeder: Feeder {
                numbered: Numbered::new(alloc, Session::new(alloc, 3)),
                desk: Desk::new(),
                replies,
            },
            outgoing: Outgoing {
                writer,
                replies: ring,
                next: 0,
                replied: 0,
            },
        })
    }

    // What is left, where the session found memory.
    fn end(self) -> Result<Left, Fault> {
        let Bench { feeder, outgoing } = self;
        let found = ample(feeder.numbered.session());
        let (next, is_over) = (feeder.numbered.next(), feeder.numbered.is_over());
        drop(feeder);
        let passed = outgoing.next;
        let written = written(outgoing);
        found?;
        Ok(Left {
            next,
            is_over,
            passed,
            written,
        })
    }
}

// What was written.
fn written(outgoing: Outgoing<Vec<u8>>) -> Vec<u8> {
    let Outgoing {
        writer,
        replies,
        ..
    } = outgoing;
    drop(replies);
    writer
}

impl Feeder {
    // What a turn of the writer is served by, where so many replies are due.
    fn list(&mut self, due: u32) -> Option<Listing> {
        if self.numbered.is_over() {
            return None;
        }
        self.desk.due = due;
        self.numbered.list(&mut self.desk)
    }

    // What that gives, once the session was told.
    fn serve(&mut self, listing: Listing) -> Unwritten {
        let pumped = listing.serve(&mut self.desk);
        self.numbered.served(pumped)
    }

    // Whether the session goes on behind these bytes.
    fn feed(&mut self, bytes: &[u8]) -> bool {
        if self.replies.slots() == 0 {
            return false;
        }
        if self.numbered.is_over() {
            return false;
        }
        let mut input = bytes;
        let mut buffer = [0; 64];
        let Some(piece) = Piece::read(&mut input, &mut buffer) else {
            return false;
        };
        self.numbered.feed(piece, &mut self.desk, &mut self.replies)
    }
}

// Feeds, collects what is due, serves and feeds, and writes what that gave, and then the rest. Tells how many bytes stood written in between.
fn write_between(bench: &mut Bench, due: u32) -> io::Result<usize> {
    let Bench { feeder, outgoing } = bench;
    feeder.feed(CONNECT);
    let Some(listing) = feeder.list(due) else {
        return Ok(0);
    };
    let unwritten = feeder.serve(listing);
    feeder.feed(PING);
    unwritten.write(outgoing)?;
    let written = outgoing.writer.len();
    outgoing.write_below(ABOVE)?;
    Ok(written)
}

// An output that was pumped comes behind the replies that were given before it, and before those that were given after it.
#[test]
fn writes_outputs_in_the_order_of_their_numbers(rt: HostRuntime) -> Result<(), Fail> {
    let mut bench = Bench::new(rt.alloc(), 4)?;
    let written = write_between(&mut bench, 1).ok();
    let left = bench.end()?;
    assert_eq!(rt; written, Some(CONNECTED.len() + SUCCESS.len()));
    assert_eq!(rt; left.next, 3);
    let is_in_order = match left.written.as_slice().strip_prefix(CONNECTED) {
        Some(behind) => behind.starts_with(SUCCESS) && behind.ends_with(PONG),
        None => false,
    };
    assert!(rt; is_in_order);
    Ok(())
}

// A number whose turn gives nothing stands unwritten for nobody.
#[test]
fn passes_over_a_number_without_an_output(rt: HostRuntime) -> Result<(), Fail> {
    let mut bench = Bench::new(rt.alloc(), 4)?;
    let written = write_between(&mut bench, 0).ok();
    let left = bench.end()?;
    assert_eq!(rt; written, Some(CONNECTED.len()));
    assert_eq!(rt; (left.next, left.passed), (3, 3));
    assert!(rt; left.written.ends_with(PONG));
    Ok(())
}

// Lists the session before anything is fed. Then it is fed CONNECT and SUBSCRIBE, whose SUCCESS comes due, and is served, and all is
// written; and so in one more turn.
fn write_behind_feeds(bench: &mut Bench) -> io::Result<()> {
    let Bench { feeder, outgoing } = bench;
    let Some(listing) = feeder.list(0) else {
        return Ok(());
    };
    feeder.feed(CONNECT);
    feeder.feed(SUBSCRIBE);
    feeder.desk.due = 1;
    feeder.serve(listing).write(outgoing)?;
    outgoing.write_below(ABOVE)?;
    let due = feeder.desk.due;
    let Some(listing) = feeder.list(due) else {
        return Ok(());
    };
    feeder.serve(listing).write(outgoing)?;
    Ok(())
}

// A reply that comes due while a list is served doesn't overtake the replies of what was fed meanwhile.
#[test]
fn a_due_reply_comes_behind_the_replies_of_its_feed(rt: HostRuntime) -> Result<(), Fail> {
    let mut bench = Bench::new(rt.alloc(), 4)?;
    let is_written = write_behind_feeds(&mut bench).is_ok();
    let left = bench.end()?;
    assert!(rt; is_written);
    assert_eq!(rt;
        left.written.as_slice().strip_prefix(CONNECTED),
        Some(SUCCESS)
    );
    Ok(())
}

// Lists the session, and then has its reader feed a second CONNECT, which ends it, or end it. Tells whether the turn finds that.
fn ends_meanwhile(bench: &mut Bench, by_a_fault: bool) -> Option<bool> {
    let Bench { feeder, outgoing } = bench;
    feeder.feed(CONNECT);
    let listing = feeder.list(1)?;
    if by_a_fault {
        feeder.feed(CONNECT);
    } else {
        feeder.numbered.end(&mut feeder.desk);
    }
    feeder.serve(listing).write(outgoing).ok()
}

// A session that its reader ended while it was served doesn't go on.
#[test]
fn ends_where_its_reader_ended_it_meanwhile(rt: HostRuntime) -> Result<(), Fail> {
    for by_a_fault in [true, false] {
        let mut bench = Bench::new(rt.alloc(), 4)?;
        let ended = ends_meanwhile(&mut bench, by_a_fault);
        let left = bench.end()?;
        assert_eq!(rt; (ended, left.is_over), (Some(true), true));
    }
    Ok(())
}

// Reads so many turns. Tells how many bytes are left, whether the ring's end was finished, and what the session is then.
fn read<R: Wait>(rt: &R, feeder: Feeder, turns: u64) -> (usize, bool, Numbered) {
    let Feeder {
        numbered,
        mut desk,
        replies,
    } = feeder;
    let session = Mutex::new(numbered);
    let turns = Turns {
        left: AtomicU64::new(turns),
    };
    let mut input: &[u8] = PING;
    let mut buffer = [0; 16];
    let (finished, _) = read_loop(
        rt,
        3,
        &turns,
        &session,
        &mut input,
        &mut buffer,
        &mut desk,
        replies,
    );
    let is_finished = finished.is_some();
    drop(finished);
    (input.len(), is_finished, session.into_inner())
}

// A turn that finds no free place in the ring reads nothing.
#[test]
fn reads_nothing_while_the_ring_is_full(rt: HostRuntime) -> Result<(), Fail> {
    let Bench {
        mut feeder,
        outgoing,
    } = Bench::new(rt.alloc(), 2)?;
    let fed = feeder.feed(CONNECT) && feeder.feed(PING);
    let (left, is_finished, numbered) = read(&rt, feeder, 5);
    drop(outgoing);
    let found = ample(numbered.session());
    let (next, is_over) = (numbered.next(), numbered.is_over());
    drop(numbered);
    found?;
    assert!(rt; fed && is_finished && is_over);
    assert_eq!(rt; (next, left), (2, PING.len()));
    Ok(())
}

// A reader has room while fewer than 256 outputs stand unwritten.
fn fill(feeder: &mut Feeder) -> (u32, bool) {
    feeder.feed(CONNECT);
    let mut count = 1;
    for _ in 0..300u32 {
        if feeder.numbered.has_room() && feeder.feed(PING) {
            count += 1;
        }
    }
    let next = feeder.numbered.next();
    feeder.numbered.tell_written(next.saturating_sub(255), 0);
    (count, feeder.numbered.has_room())
}

#[test]
fn has_room_for_so_many_outputs(rt: HostRuntime) -> Result<(), Fail> {
    let mut bench = Bench::new(rt.alloc(), 400)?;
    let (count, has_room) = fill(&mut bench.feeder);
    drop(bench.end()?);
    assert_eq!(rt; (count, has_room), (256, true));
    Ok(())
}
