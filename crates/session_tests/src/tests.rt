// Each frame and each answer was worked out by hand from the protocol's published description. What the proof of a test costs
// goes by the paths on which a session and its broker are dropped. So only a test owns them, and functions that borrow them tell
// what they saw as plain values; the test drops them before it looks at these.
mod board;
mod feeding;
mod looking;
mod pumping;
mod serving;
mod texts;

use board::Board;
use commands::Reply;
use ids::MessageId;
use session::{Fault, More, PumpFault, Session};
use std::alloc::{AllocError, Global};

const CONNECT: &[u8] = b"\0\0\0\x0d\0\0\0\x09\x08\x02\x12\x05\x0a\x01c\x20\x05";

const PING: &[u8] = b"\0\0\0\x09\0\0\0\x05\x08\x12\x92\x01\0";

const PONG: &[u8] = b"\0\0\0\x09\0\0\0\x05\x08\x13\x9a\x01\0";

// Of consumer 2, with request 8, to the subscription `s` from the first entry on.
const SUBSCRIBE: &[u8] =
    b"\0\0\0\x27\0\0\0\x23\x08\x04\x22\x1f\x0a\x12persistent://a/b/c\x12\x01s\x18\0\x20\x02\x28\x08\x68\x01";

// SUBSCRIBE of consumer 3, to the same subscription.
const SUBSCRIBE_NEXT: &[u8] =
    b"\0\0\0\x27\0\0\0\x23\x08\x04\x22\x1f\x0a\x12persistent://a/b/c\x12\x01s\x18\0\x20\x03\x28\x08\x68\x01";

// RECEIPT of the first entry to producer 1, and MESSAGE for consumer 2 behind it.
const RECEIPT_AND_MESSAGE: &[u8] =
    b"\0\0\0\x12\0\0\0\x0e\x08\x07\x3a\x0a\x08\x01\x10\0\x1a\x04\x08\0\x10\0\
\0\0\0\x1e\0\0\0\x0c\x08\x09\x4a\x08\x08\x02\x12\x04\x08\0\x10\0\0\0\0\x0a\x0a\x01p\x10\0\x18\x01\xc0>\x05";

// SUBSCRIBE on what is no name of a topic.
const SUBSCRIBE_ON_NO_TOPIC: &[u8] =
    b"\0\0\0\x27\0\0\0\x23\x08\x04\x22\x1f\x0a\x12persistent://a/b/+\x12\x01s\x18\0\x20\x02\x28\x08\x68\x01";

// ERROR of request 8 with InvalidTopicName.
const NO_TOPIC: &[u8] =
    b"\0\0\0\x1e\0\0\0\x1a\x08\x0e\x72\x16\x08\x08\x10\x11\x1a\x10InvalidTopicName";

// A session, its broker and its bytes out.
#[derive(Drop)]
struct Stage {
    session: Session,
    board: Board,
    out: Vec<u8>,
}

impl Stage {
    // Of session 3, and of a broker without topics.
    fn new(alloc: Global) -> Stage {
        Stage {
            session: Session::new(alloc, 3),
            board: Board::new(alloc),
            out: Vec::new(alloc),
        }
    }

    // Brings bytes, with nothing before in the bytes out.
    fn feed(&mut self, bytes: &[u8]) -> Result<(), Fault> {
        self.out.clear();
        self.session.feed(bytes, &mut self.board, &mut self.out)
    }

    // Feeds each of these bytes, and tells how many of them were answered so, one after another.
    fn answered(&mut self, steps: &[(&[u8], &[u8])]) -> Result<usize, Fault> {
        for (at, (bytes, wanted)) in steps.iter().enumerate() {
            self.feed(bytes)?;
            if self.out.as_slice() != *wanted {
                return Ok(at);
            }
        }
        Ok(steps.len())
    }

    // Gives the broker sixty-four topics; the name of the last one ends so.
    fn fill(&mut self, last: u8) -> Result<(), Fault> {
        match self.board.fill(last) {
            Ok(()) => Ok(()),
            Err(_) => Err(Fault::NoMemory),
        }
    }

    // The fault that a feed ends in without a byte out, other than want of memory.
    fn fault_of(&mut self, bytes: &[u8]) -> Result<Option<Fault>, Fault> {
        match self.feed(bytes) {
            Err(Fault::NoMemory) => Err(Fault::NoMemory),
            Err(fault) if self.out.is_empty() => Ok(Some(fault)),
            _ => Ok(None),
        }
    }

    // A consumer for each of these, and dispatches to come, the last one first.
    fn begin(
        &mut self,
        consumers: &[&[u8]],
        dispatches: &[Option<PumpFault>],
    ) -> Result<(), Fault> {
        self.feed(CONNECT)?;
        for subscribe in consumers {
            self.feed(subscribe)?;
        }
        match self.lay(dispatches) {
            Ok(()) => Ok(()),
            Err(_) => Err(Fault::NoMemory),
        }
    }

    fn lay(&mut self, dispatches: &[Option<PumpFault>]) -> Result<(), AllocError> {
        for dispatch in dispatches {
            self.board.dispatches.push(*dispatch)?;
        }
        Ok(())
    }

    // A receipt is due.
    fn owe(&mut self) {
        self.board.due = Some(Reply::SendReceipt {
            producer_id: 1,
            sequence_id: 0,
            message_id: MessageId {
                ledger_id: 0,
                entry_id: 0,
            },
        });
    }

    fn pump(&mut self) -> Result<More, PumpFault> {
        self.out.clear();
        self.session.pump(&mut self.board, &mut self.out)
    }

    // What a pump answers, unless it finds no memory.
    fn pumped(&mut self) -> Result<Result<More, PumpFault>, Fault> {
        match self.pump() {
            Err(PumpFault::Ended(Fault::NoMemory)) => Err(Fault::NoMemory),
            pumped => Ok(pumped),
        }
    }
}
