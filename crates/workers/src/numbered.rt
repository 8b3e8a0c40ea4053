// A session and the numbers of its outputs, which stand together behind its lock.
pub(crate) mod listing;

ghost use Rattle.std.specs.Prelude.{◌≡◌, ◌+◌, ◌<◌, ◌^◌, ◌++◌, ◌||◌, [], List, ℕ, true, false, is_none, is_some, IfSome, IfNone};
ghost use Rattle.rtrb.specs.Ring.{known_free, SameProducer};
ghost use Rattle.workers.specs.Outputs.{AreFrames};
ghost use Rattle.session.specs.Broker.{left_all};
ghost use Rattle.session.specs.Client.{play};
ghost use Rattle.session.specs.Pumping.{CollectStep};
ghost use Rattle.session.specs.Working.{FeedStep, feed_result};
ghost use Rattle.workers.specs.Numbers.{is_over, has_room, is_more, IsOutput, Numbers, Feeds, Lists, without_memory, as_served, bytes_of_replies};
ghost use Rattle.workers.specs.Writes.{pushed};

use crate::numbered::listing::Listing;
use crate::outgoing::{Outgoing, Output};
use rtrb::Producer;
use session::{Fault, More, Port, PumpFault, Session};
use std::alloc::Global;
use std::io;
use std::io::{Read, Write};

/// The loops end at this number.
pub(crate) const NUMBERS: u64 = 1 << 62;

/// A reader waits while so many outputs stand unwritten, which is as many as the ring has places.
const MOST_OUTPUTS: u64 = 256;

/// A reader waits while more bytes of its replies stand unwritten.
const MOST_BYTES: u64 = 1_048_576;

/// A session and the numbers of its outputs.
#[derive(Drop)]
pub struct Numbered {
    alloc: Global,
    session: Session,
    /// The number of its next output.
    next: u64,
    /// All outputs of smaller number are written.
    written: u64,
    /// How many bytes the replies of its feeds have, and how many of these are written. Both stop at 2^64 - 1, which no
    /// connection reaches: what stands unwritten would then seem less, and the bound on the number of outputs goes on.
    replied: u64,
    replied_written: u64,
    /// What was last served of it stopped at a bound of its own, so that more may be due or admitted.
    more: bool,
    ended: bool,
}

/// What was read at once of what a client sent. Nobody may let it go: a session is fed all of it, or has ended.
pub struct Piece<'b> {
    bytes: &'b [u8],
}

/// That a session has ended, and has left each topic. `Numbered::end` alone gives it.
#[derive(Drop)]
pub struct Ended {
    is_sealed: (),
}

/// What a turn of the writer collected and served, of which the session isn't told yet. Nobody may let it go: its session is told.
pub struct Pumped {
    /// The number that the turn got.
    number: u64,
    /// The output of that number, where there is one.
    output: Option<Output>,
    /// Whether the turn stopped at a bound of its own, or why it stopped.
    answer: Result<More, PumpFault>,
    ghost small: { number < 2 ^ 62 },
}

/// What a turn of the writer collected and served, of which its session was told. Nobody may let it go: it is written.
pub struct Unwritten {
    number: u64,
    output: Option<Output>,
    has_ended: bool,
    ghost small: { number < 2 ^ 62 },
}

impl Unwritten {
    ghost use Rattle.std.specs.Prelude.{OnOk, IfOk};
    ghost use Rattle.rtrb.specs.Ring.{SameConsumer};
    ghost use Rattle.workers.specs.Writes.{Wrote, WroteServed};

    /// Writes what was served, or passes its number over. Answers whether the session has ended.
    pub fn write<W: Write>(self, outgoing: &mut Outgoing<W>) -> io::Result<bool>
        ensures ring { SameConsumer outgoing.old.replies outgoing.new.replies }
        ensures wrote { OnOk result (Wrote W.contents outgoing.old outgoing.new) }
        ensures served { OnOk result (IfSome self.output (λ o. WroteServed W.contents outgoing.old outgoing.new o.number o.bytes.items)) }
        ensures ended { IfOk result (λ ended. ended ≡ self.has_ended) }
    {
        let Unwritten {
            number,
            output,
            has_ended,
        } = self;
        match &output {
            Some(output) => outgoing.write_pumped(output)?,
            None => outgoing.pass_over(number)?,
        }
        Ok(has_ended)
    }
}

impl<'b> Piece<'b> {
    ghost use Rattle.std.specs.Io.KnownBytes.{Consumes};

    /// Reads what there is, as far as the buffer takes it. None where the input has ended, or fails.
    pub fn read<I: Read>(input: &mut I, buffer: &'b mut [u8]) -> Option<Piece<'b>>
        ensures { IfSome result (λ piece. Consumes (I.remaining input.old) (I.remaining input.new) piece.bytes.now) }
    {
        let Ok(count) = input.read(buffer) else {
            return None;
        };
        if count == 0 {
            return None;
        }
        Some(Piece {
            bytes: &buffer[..count],
        })
    }

    /// Lets it go, since the session is over.
    pub fn refuse(self, session: &Numbered)
        requires { is_over session.now ≡ true }
    {
        let Piece { bytes: _ } = self;
    }
}

impl Numbered {
    /// A session that has given nothing yet.
    pub fn new(alloc: Global, session: Session) -> Numbered
        ensures { result ≡ record { alloc = alloc; session = session; next = 0; written = 0; replied = 0; replied_written = 0; more = false; ended = false } }
    {
        Numbered {
            alloc,
            session,
            next: 0,
            written: 0,
            replied: 0,
            replied_written: 0,
            more: false,
            ended: false,
        }
    }

    /// The session.
    pub fn session(&self) -> &Session
        ensures { result.now ≡ self.now.session }
    {
        &self.session
    }

    /// The number of the next output.
    pub fn next(&self) -> u64
        ensures { result ≡ self.now.next }
    {
        self.next
    }

    /// How many bytes the replies of its feeds have, at most 2^64 - 1.
    pub fn replied(&self) -> u64
        ensures { result ≡ self.now.replied }
    {
        self.replied
    }

    /// Whether what was last served stopped at a bound of its own.
    pub fn has_more(&self) -> bool
        ensures { result ≡ self.now.more }
    {
        self.more
    }

    /// Whether it has ended, or its numbers are used up.
    pub fn is_over(&self) -> bool
        ensures { result ≡ is_over self.now }
    {
        self.ended || self.next >= NUMBERS
    }

    /// Whether so few outputs stand unwritten that the reader may go on.
    pub fn has_room(&self) -> bool
        ensures { result ≡ has_room self.now }
    {
        self.next.saturating_sub(self.written) < MOST_OUTPUTS
            && self.replied.saturating_sub(self.replied_written) <= MOST_BYTES
    }

    /// The writer says that all outputs below this number are written, and so many bytes of replies.
    pub fn tell_written(&mut self, next: u64, replied: u64)
        ensures { self.new ≡ record self.old { written = next; replied_written = replied } }
    {
        self.written = next;
        self.replied_written = replied;
    }

    /// Feeds a piece, and pushes what that gave as one reply. Answers whether the session goes on.
    pub fn feed<P: Port>(
        &mut self,
        piece: Piece<'_>,
        port: &mut P,
        replies: &mut Producer<Output>,
    ) -> bool
        requires room { 0 < known_free replies.old }
        requires stands { is_over self.old ≡ false }
        ensures ring { SameProducer replies.old replies.new }
        ensures pushed { (more : List (ℕ × List ℕ)) × (pushed replies.new ≡ pushed replies.old ++ more) × Feeds self.old more self.new
            × (P.sole port.old → FeedStep (P.fails port.old port.new) (play self.old.session (P.broker port.old) []) piece.entry.bytes.now (feed_result self.new.session.fault)
            (play self.new.session (P.broker port.new) (bytes_of_replies more))) }
        ensures goes_on { result ≡ is_none self.new.session.fault }
    {
        let Piece { bytes: piece } = piece;
        let mut bytes = Vec::new(self.alloc);
        let goes_on = self.session.feed(piece, port, &mut bytes).is_ok();
        let Some(reply) = self.number(bytes) else {
            return goes_on;
        };
        self.replied = self.replied.saturating_add(reply.bytes.len() as u64);
        replies.push_reserved(reply);
        goes_on
    }

    /// Collects what is due to the session, lists by what it is served without its lock, and gives the output that is to come of both
    /// the next number: the numbers of all that was fed before are smaller. Want of memory ends the session, which then leaves each
    /// topic.
    #[tactic(auto, using(crate::proofs::Serving::number_stays))]
    pub fn list<P: Port>(&mut self, port: &mut P) -> Option<Listing>
        requires { is_over self.old ≡ false }
        ensures lists { IfSome result (λ listing. Lists self.old listing.number listing.list self.new) }
        ensures collects { P.sole port.old → IfSome result (λ listing. CollectStep (play self.old.session (P.broker port.old) [])
            listing.list.replies (play self.new.session (P.broker port.new) listing.bytes.items)) }
        ensures refused { IfNone result (self.new ≡ without_memory self.old) }
        ensures left { IfNone result (P.sole port.old → P.broker port.new ≡ left_all (P.broker port.old) self.old.session.number) }
    {
        let mut bytes = Vec::new(self.alloc);
        let Ok(list) = self.session.list(port, &mut bytes) else {
            drop(bytes);
            self.take_answer(&Err(PumpFault::Ended(Fault::NoMemory)));
            self.session.end(port);
            return None;
        };
        let number = self.next;
        self.next = number + 1;
        Some(Listing {
            list,
            number,
            bytes,
        })
    }

    /// Takes in what the serving of its list answered, and gives what is to be written.
    pub fn served(&mut self, pumped: Pumped) -> Unwritten
        ensures served { self.new ≡ as_served self.old pumped.answer }
        ensures ended { result.has_ended ≡ self.new.ended }
        ensures same { (result.number ≡ pumped.number) × (result.output ≡ pumped.output) }
    {
        let Pumped {
            number,
            output,
            answer,
        } = pumped;
        let has_ended = self.take_answer(&answer);
        drop(answer);
        Unwritten {
            number,
            output,
            has_ended,
        }
    }

    /// The session's answer to a serving. Tells whether it has ended, by that or since it was listed.
    #[tactic(auto, using(crate::proofs::Serving::client_is))]
    fn take_answer(&mut self, answer: &Result<More, PumpFault>) -> bool
        ensures served { self.new ≡ as_served self.old answer.now }
        ensures ended { result ≡ self.new.ended }
    {
        self.session.end_as_served(answer);
        self.more = is_more(answer);
        self.ended = has_ended(self.ended, &self.session);
        self.ended
    }

    // These bytes as an output of the next number. No byte is none.
    fn number(&mut self, bytes: Vec<u8>) -> Option<Output>
        requires whole { AreFrames bytes.items }
        requires number { self.old.next < 2 ^ 62 }
        ensures { Numbers self.old bytes.items result self.new }
    {
        let output = output_of(self.next, bytes)?;
        self.next += 1;
        Some(output)
    }

    /// No further turn is made, and the session leaves each topic.
    pub fn end<P: Port>(&mut self, port: &mut P) -> Ended
        ensures ended { self.new ≡ record self.old { ended = true } }
        ensures left { P.sole port.old → P.broker port.new ≡ left_all (P.broker port.old) self.old.session.number }
    {
        self.ended = true;
        self.session.end(port);
        Ended { is_sealed: () }
    }

    /// No further turn is made.
    pub fn stop(&mut self)
        ensures { self.new ≡ record self.old { ended = true } }
    {
        self.ended = true;
    }
}

/// Whether what was served stopped at a bound of its own.
fn is_more(answer: &Result<More, PumpFault>) -> bool
    ensures { result ≡ is_more answer.now }
{
    matches!(answer, Ok(More::Yes))
}

/// Whether it has ended, as was known or by its session.
fn has_ended(ended: bool, session: &Session) -> bool
    ensures { result ≡ (ended || is_some session.now.fault) }
{
    ended || session.fault().is_some()
}

/// These bytes as the output of a number. No byte is none.
pub(crate) fn output_of(number: u64, bytes: Vec<u8>) -> Option<Output>
    requires whole { AreFrames bytes.items }
    requires small { number < 2 ^ 62 }
    ensures { IsOutput number bytes.items result }
{
    if bytes.is_empty() {
        return None;
    }
    Some(Output { number, bytes })
}
