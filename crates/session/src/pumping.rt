ghost use Rattle.std.specs.Prelude.{◌≡◌, ◌≢◌, ◌<◌, ◌≤◌, ℕ, true, false, None, Ok, [], IfSome, IfOk, IfErr};
ghost use Rattle.session.specs.declared.pumping.PumpFault.TheVariants.{Device};
ghost use Rattle.session.specs.Broker.{due_at, topic_at};
ghost use Rattle.session.specs.Asking.{Knows};
ghost use Rattle.session.specs.Client.{Client, Play, play, Speaks, Writes};
ghost use Rattle.session.specs.Pumping.{CollectsFrom, CollectsNothing, CollectsAt, Collects, HasNothingDue, SendsOne, SendsNothing, ServesOne, ServesAll, ServesThese, ServesBehind, CollectStep, PumpStep, IsTold, ended_by, pumped_fault, pumped};

use crate::asked::{Asked, ask, first_busy};
use crate::entry::Entry;
use crate::fault::Fault;
use crate::port::Port;
use crate::roll::Roll;
use crate::session::Session;
use crate::speaker::Speaker;
use crate::told::hear;
use disk::FileId;
use thiserror::Error;
use topic_core::ReadError;

/// Our own rule: a pump collects at most so many replies.
const MOST_REPLIES: usize = 65_536;

/// Our own rule: a pump sends at most so many messages.
const MOST_MESSAGES: usize = 64;

/// Whether a pump stopped at one of its bounds, so that more may be due or admitted.
#[derive(Clone, Copy, Debug, PartialEq, Eq)]
pub enum More {
    Yes,
    No,
}

/// Why a pump stopped.
#[derive(Clone, Copy, Debug, PartialEq, Eq, Error)]
pub enum PumpFault {
    /// The session has ended, in this call for want of memory or before it. What was collected before went out whole.
    #[error("{0}")]
    Ended(Fault),
    /// The device failed in reading a message. The session goes on, and what went out before stands.
    #[error("device")]
    Device,
    /// The file of a message has bytes that no crash leaves. The session goes on, and what went out before stands.
    #[error("damaged {file} at {offset}")]
    Damaged { file: FileId, offset: u64 },
}

impl Session {
    /// Has the topics look for the permits that were granted since the session was pumped or listed last. Then collects the
    /// replies that are due to the session and writes their frames, at most 65,536 of them. Where none is left, it then sends
    /// messages to the session's consumers, at most 64 of them. A reply or a message that finds no memory ends the session. A
    /// message that the device fails to read stops the pump and changes nothing: what went out before stands.
    pub fn pump<P: Port>(&mut self, port: &mut P, out: &mut Vec<u8>) -> Result<More, PumpFault>
        ensures step { P.sole port.old → PumpStep (λ topic why. P.refuses port.old topic why port.new) (play self.old (P.broker port.old) out.old.items) result
            (play self.new (P.broker port.new) out.new.items) }

        // Whoever else uses the broker:
        ensures result { pumped_fault result ≡ self.new.fault }
        ensures told { IfErr result (λ fault. IsTold (λ why. (topic : ℕ) × P.refuses port.old topic why port.new) fault) }
        ensures ended { IfSome self.old.fault (λ why. (self.new ≡ self.old) × (out.new.items ≡ out.old.items)) }
        ensures number { self.new.number ≡ self.old.number }
        ensures writes { Writes out.old.items out.new.items }
        ensures passes { P.passes port.old port.new }
    {
        if let Some(why) = self.fault {
            return Err(PumpFault::Ended(why));
        }
        self.consumers.look(self.number, port);
        let speaker = Speaker::new(self.alloc, self.number);
        let answer = speaker.pump(&self.consumers, port, out);
        self.end_as_served(&answer);
        answer
    }

    /// Collects the replies that are due to the session and writes their frames, at most 65,536 of them, and gives how many. A reply
    /// that finds no memory ends the session, which then leaves each topic.
    pub(crate) fn collect<P: Port>(&mut self, port: &mut P, out: &mut Vec<u8>) -> usize
        ensures step { P.sole port.old → CollectStep (play self.old (P.broker port.old) out.old.items) result
            (play self.new (P.broker port.new) out.new.items) }

        // Whoever else uses the broker:
        ensures same { self.new ≡ record self.old { fault = self.new.fault } }
        ensures ended { IfSome self.old.fault (λ why. (self.new ≡ self.old) × (out.new.items ≡ out.old.items)) }
        ensures writes { Writes out.old.items out.new.items }
        ensures passes { P.passes port.old port.new }
    {
        if let Some(_) = self.fault {
            return 0;
        }
        let mut speaker = Speaker::new(self.alloc, self.number);
        let replies = speaker.collect_all(port, out);
        let why = speaker.leave_if_ended(port);
        self.fault = why;
        replies
    }

    /// Takes in how the serving of its list went: where that ended it for want of memory it has ended so, unless it had ended
    /// before.
    pub fn end_as_served(&mut self, answer: &Result<More, PumpFault>)
        ensures went_on { self.old.fault ≡ None → self.new ≡ pumped self.old answer.now }
        ensures ended { IfSome self.old.fault (λ why. self.new ≡ self.old) }
    {
        if self.fault.is_some() {
            return;
        }
        if let Err(PumpFault::Ended(why)) = answer {
            self.fault = Some(*why);
        }
    }
}

impl Speaker {
    /// Collects the replies that are due to the session and writes their frames. Where none is left, it then sends messages to
    /// these consumers.
    pub(crate) fn pump<R: Roll, P: Port>(
        self,
        roll: &R,
        port: &mut P,
        out: &mut Vec<u8>,
    ) -> Result<More, PumpFault>
        requires { self.fault ≡ None }
        ensures step { P.sole port.old → (client : Client) → client.number ≡ self.number → client.fault ≡ None → client.consumers ≡ R.entries roll.now →
            PumpStep (λ topic why. P.refuses port.old topic why port.new) (play client (P.broker port.old) out.old.items) result
            (play (pumped client result) (P.broker port.new) out.new.items) }
        ensures told { IfErr result (λ fault. IsTold (λ why. (topic : ℕ) × P.refuses port.old topic why port.new) fault) }
        ensures writes { Writes out.old.items out.new.items }
        ensures passes { P.passes port.old port.new }
    {
        let mut speaker = self;
        let replies = speaker.collect_all(port, out);
        speaker.serve_behind(replies, roll, port, out)
    }

    /// Sends messages to these consumers behind so many replies, where none may be left. A session that has ended leaves each topic.
    pub(crate) fn serve_behind<R: Roll, P: Port>(
        self,
        replies: usize,
        roll: &R,
        port: &mut P,
        out: &mut Vec<u8>,
    ) -> Result<More, PumpFault>
        ensures step { P.sole port.old → (client : Client) → client.number ≡ self.number → client.fault ≡ self.fault → client.consumers ≡ R.entries roll.now →
            ServesBehind (λ topic why. P.refuses port.old topic why port.new) (play client (P.broker port.old) out.old.items) replies result
            (play (pumped client result) (P.broker port.new) out.new.items) }
        ensures told { IfErr result (λ fault. IsTold (λ why. (topic : ℕ) × P.refuses port.old topic why port.new) fault) }
        ensures writes { Writes out.old.items out.new.items }
        ensures passes { P.passes port.old port.new }
    {
        let mut speaker = self;
        let messages = speaker.serve_if(replies < MOST_REPLIES, roll, port, out);
        if let Some(why) = speaker.leave_if_ended(port) {
            return Err(PumpFault::Ended(why));
        }
        let messages = messages?;
        if replies == MOST_REPLIES || messages == MOST_MESSAGES {
            Ok(More::Yes)
        } else {
            Ok(More::No)
        }
    }

    /// Collects what each topic has due, and gives how many replies. It asks only the topics that may have something due.
    fn collect_all<P: Port>(&mut self, port: &mut P, out: &mut Vec<u8>) -> usize
        requires { self.old.fault ≡ None }
        ensures most { result ≤ 65536 }
        ensures collects { P.sole port.old → Collects result (play self.old (P.broker port.old) out.old.items)
            (play self.new (P.broker port.new) out.new.items) }
        ensures all { P.sole port.old → self.new.fault ≡ None → result < 65536 →
            HasNothingDue (play self.new (P.broker port.new) out.new.items) }
        ensures speaks { Speaks self.old out.old.items self.new out.new.items }
        ensures passes { P.passes port.old port.new }
    {
        let mut count = 0;
        let mut from = 0;
        while from < port.topics() {
            let Some(topic) = port.next_due(self.number(), from) else {
                return count;
            };
            count += self.collect_topic(topic, MOST_REPLIES - count, port, out);
            from = topic + 1;
        }
        count
    }

    /// Collects what a topic has due, at most so many replies, and gives how many.
    fn collect_topic<P: Port>(
        &mut self,
        topic: u64,
        most: usize,
        port: &mut P,
        out: &mut Vec<u8>,
    ) -> usize
        requires { topic < P.count port.old }
        ensures most { result ≤ most }
        ensures collects { P.sole port.old → CollectsAt topic result (play self.old (P.broker port.old) out.old.items)
            (play self.new (P.broker port.new) out.new.items) }
        ensures all { P.sole port.old → self.new.fault ≡ None → result < most → due_at (P.broker port.new) topic self.new.number ≡ [] }
        ensures speaks { Speaks self.old out.old.items self.new out.new.items }
        ensures passes { P.passes port.old port.new }
    {
        let mut count = 0;
        while count < most && !self.has_ended() {
            if !self.collect_one(topic, port, out) {
                return count;
            }
            count += 1;
        }
        count
    }

    /// Collects the first reply that a topic has due, and answers whether there was one.
    fn collect_one<P: Port>(&mut self, topic: u64, port: &mut P, out: &mut Vec<u8>) -> bool
        requires there { topic < P.count port.old }
        requires goes_on { self.old.fault ≡ None }
        ensures some { result ≡ true → P.sole port.old → CollectsFrom topic (play self.old (P.broker port.old) out.old.items)
            (play self.new (P.broker port.new) out.new.items) }
        ensures none { result ≡ false → P.sole port.old → CollectsNothing topic (play self.old (P.broker port.old) out.old.items)
            (play self.new (P.broker port.new) out.new.items) }
        ensures speaks { Speaks self.old out.old.items self.new out.new.items }
        ensures passes { P.passes port.old port.new }
    {
        let Some(reply) = hear(port.collect(topic, self.number())) else {
            return false;
        };
        self.say(&reply, out);
        drop(reply);
        true
    }

    /// Serves the session's consumers where the pump may go on, and gives how many messages they got.
    fn serve_if<R: Roll, P: Port>(
        &mut self,
        goes_on: bool,
        roll: &R,
        port: &mut P,
        out: &mut Vec<u8>,
    ) -> Result<usize, PumpFault>
        ensures serves { P.sole port.old → ServesThese (λ topic why. P.refuses port.old topic why port.new) goes_on (R.entries roll.now) result (play self.old (P.broker port.old) out.old.items)
            (play self.new (P.broker port.new) out.new.items) }
        ensures refused { IfErr result (λ why. ended_by why ≡ None) }
        ensures told { IfErr result (λ fault. IsTold (λ why. (topic : ℕ) × P.refuses port.old topic why port.new) fault) }
        ensures speaks { Speaks self.old out.old.items self.new out.new.items }
        ensures passes { P.passes port.old port.new }
    {
        if goes_on {
            self.serve_all(roll, port, out)
        } else {
            Ok(0)
        }
    }

    /// Serves the session's consumers, unless each of their topics has nothing for them. Gives how many messages they got.
    fn serve_all<R: Roll, P: Port>(
        &mut self,
        roll: &R,
        port: &mut P,
        out: &mut Vec<u8>,
    ) -> Result<usize, PumpFault>
        ensures serves { P.sole port.old → ServesAll (λ topic why. P.refuses port.old topic why port.new) (R.entries roll.now) 64 result (play self.old (P.broker port.old) out.old.items)
            (play self.new (P.broker port.new) out.new.items) }
        ensures refused { IfErr result (λ why. ended_by why ≡ None) }
        ensures told { IfErr result (λ fault. IsTold (λ why. (topic : ℕ) × P.refuses port.old topic why port.new) fault) }
        ensures speaks { Speaks self.old out.old.items self.new out.new.items }
        ensures passes { P.passes port.old port.new }
    {
        let Some(busy) = first_busy(roll.topics(), self.number(), port) else {
            return Ok(0);
        };
        self.serve_each(busy, roll, port, out)
    }

    /// Serves the session's consumers in rising id, and gives how many messages they got. The topic that was asked last
    /// may have something for them.
    fn serve_each<R: Roll, P: Port>(
        &mut self,
        busy: u64,
        roll: &R,
        port: &mut P,
        out: &mut Vec<u8>,
    ) -> Result<usize, PumpFault>
        ensures serves { P.sole port.old → ServesAll (λ topic why. P.refuses port.old topic why port.new) (R.entries roll.now) 64 result (play self.old (P.broker port.old) out.old.items)
            (play self.new (P.broker port.new) out.new.items) }
        ensures refused { IfErr result (λ why. ended_by why ≡ None) }
        ensures told { IfErr result (λ fault. IsTold (λ why. (topic : ℕ) × P.refuses port.old topic why port.new) fault) }
        ensures speaks { Speaks self.old out.old.items self.new out.new.items }
        ensures passes { P.passes port.old port.new }
    {
        let mut count = 0;
        let mut last = Some(Asked {
            topic: busy,
            is_quiet: false,
        });
        for place in 0..roll.len() {
            let consumer = roll.at(place);
            let room = MOST_MESSAGES - count;
            count += self.serve_or_pass(consumer, &mut last, room, port, out)?;
        }
        Ok(count)
    }

    /// Passes a consumer over where its topic has nothing for the session's consumers, and serves it elsewhere. A topic that
    /// isn't the one that was asked last is asked.
    fn serve_or_pass<P: Port>(
        &mut self,
        consumer: Entry,
        last: &mut Option<Asked>,
        room: usize,
        port: &mut P,
        out: &mut Vec<u8>,
    ) -> Result<usize, PumpFault>
        ensures knows { P.sole port.old → Knows self.old.number (P.broker port.old) last.old → Knows self.new.number (P.broker port.new) last.new }
        ensures most { IfOk result (λ count. count ≤ room) }
        ensures serves { P.sole port.old → Knows self.old.number (P.broker port.old) last.old →
            ServesOne (λ topic why. P.refuses port.old topic why port.new) consumer room result (play self.old (P.broker port.old) out.old.items)
            (play self.new (P.broker port.new) out.new.items) }
        ensures refused { IfErr result (λ why. ended_by why ≡ None) }
        ensures told { IfErr result (λ fault. IsTold (λ why. P.refuses port.old consumer.topic why port.new) fault) }
        ensures speaks { Speaks self.old out.old.items self.new out.new.items }
        ensures passes { P.passes port.old port.new }
    {
        let asked = ask(consumer.topic, self.number(), *last, port);
        *last = Some(asked);
        if asked.is_quiet {
            return Ok(0);
        }
        self.serve(consumer, room, port, out)
    }

    /// Sends messages to a consumer, at most so many, and gives how many.
    fn serve<P: Port>(
        &mut self,
        consumer: Entry,
        room: usize,
        port: &mut P,
        out: &mut Vec<u8>,
    ) -> Result<usize, PumpFault>
        ensures most { IfOk result (λ count. count ≤ room) }
        ensures serves { P.sole port.old → ServesOne (λ topic why. P.refuses port.old topic why port.new) consumer room result (play self.old (P.broker port.old) out.old.items)
            (play self.new (P.broker port.new) out.new.items) }
        ensures refused { IfErr result (λ why. ended_by why ≡ None) }
        ensures told { IfErr result (λ fault. IsTold (λ why. P.refuses port.old consumer.topic why port.new) fault) }
        ensures speaks { Speaks self.old out.old.items self.new out.new.items }
        ensures passes { P.passes port.old port.new }
    {
        if consumer.topic >= port.topics() {
            return Ok(0);
        }
        let mut count = 0;
        while count < room && !self.has_ended() {
            if !self.serve_one(consumer, port, out)? {
                return Ok(count);
            }
            count += 1;
        }
        Ok(count)
    }

    /// Sends a message to a consumer, and answers whether there was one. A failure of the device changes nothing.
    fn serve_one<P: Port>(
        &mut self,
        consumer: Entry,
        port: &mut P,
        out: &mut Vec<u8>,
    ) -> Result<bool, PumpFault>
        requires there { consumer.topic < P.count port.old }
        requires goes_on { self.old.fault ≡ None }
        ensures some { result ≡ Ok true → P.sole port.old → SendsOne consumer (play self.old (P.broker port.old) out.old.items)
            (play self.new (P.broker port.new) out.new.items) }
        ensures none { result ≡ Ok false → P.sole port.old → SendsNothing (λ topic why. P.refuses port.old topic why port.new) consumer (play self.old (P.broker port.old) out.old.items)
            (play self.new (P.broker port.new) out.new.items) }
        ensures refused { IfErr result (λ why. ended_by why ≡ None) }
        ensures told { IfErr result (λ fault. IsTold (λ why. P.refuses port.old consumer.topic why port.new) fault) }
        ensures device { P.sole port.old → IfErr result (λ why. (why ≡ Device)
            × (play self.new (P.broker port.new) out.new.items ≡ play self.old (P.broker port.old) out.old.items)) }
        ensures speaks { Speaks self.old out.old.items self.new out.new.items }
        ensures passes { P.passes port.old port.new }
    {
        match hear(port.dispatch(consumer.topic, self.number(), consumer.id)) {
            Ok(Some(message)) => {
                self.hand_out(&message, out);
                drop(message);
                Ok(true)
            }
            Ok(None) => Ok(false),
            Err(ReadError::NoMemory) => {
                self.end_by(Fault::NoMemory);
                Ok(false)
            }
            Err(ReadError::Device) => Err(PumpFault::Device),
            Err(ReadError::Damaged { file, offset }) => Err(PumpFault::Damaged { file, offset }),
        }
    }
}
