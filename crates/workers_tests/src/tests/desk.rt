ghost use Rattle.topic_core.specs.Steps.{Fits};

use super::waits_for;
use commands::Reply;
use names::TopicName;
use permits::{Granter, TooManyPermits};
use rtrb::{Finished, Producer};
use session::{Found, Member, Plain, Port};
use std::io::{Read, Write};
use std::snapshot::Snapshot;
use std::sync::atomic::{AtomicBool, Ordering};
use std::sync::{Mutex, Wait};
use topic_core::{Answer, Outgoing as Sent, ReadError, TopicCommand};
use topic_lock::Turns;
use workers::{Ended, Numbered, Outgoing, Output, PortAtRest, Turnstile, read_loop, write_loop};

/// Where a desk is held that is asked whether it is quiet, until it may go on.
#[derive(Drop)]
pub struct Gate {
    pub is_held: AtomicBool,
    pub may_go_on: AtomicBool,
}

impl Gate {
    pub fn new() -> Gate {
        Gate {
            is_held: AtomicBool::new(false),
            may_go_on: AtomicBool::new(false),
        }
    }

    // Waits until it may go on, for so many turns at most, and answers whether it may.
    fn hold(&self) -> bool {
        self.is_held.store(true, Ordering::SeqCst);
        waits_for(&self.may_go_on)
    }
}

/// A broker of one topic, of whatever name, which owes the session so many replies, all alike, and answers commands without working
/// them. It takes each permit.
#[derive(Drop)]
pub struct Desk<'g> {
    pub due: u32,
    pub gate: Option<&'g Gate>,
    /// Whether it was let go on, each time that it was held.
    pub was_let: bool,
}

impl<'g> Desk<'g> {
    /// One that is never held.
    pub fn new() -> Desk<'g> {
        Desk {
            due: 0,
            gate: None,
            was_let: true,
        }
    }

    /// One that owes a reply, and is held here where it is asked for messages.
    pub fn held(gate: &'g Gate) -> Desk<'g> {
        Desk {
            due: 1,
            gate: Some(gate),
            was_let: true,
        }
    }

    fn next_reply(&mut self) -> Option<Reply> {
        if self.due == 0 {
            return None;
        }
        self.due -= 1;
        Some(Reply::Success { request_id: 7 })
    }
}

impl<'g> Turns for Desk<'g> {
    fn begin_turn(&mut self) {}

    fn end_turn(&mut self) {}
}

impl<'g> PortAtRest for Desk<'g> {
    fn read<I: Read, G: Turnstile, R: Wait>(
        self,
        rt: &R,
        number: u64,
        gate: &G,
        session: &Mutex<Numbered>,
        input: &mut I,
        buffer: &mut [u8],
        replies: Producer<Output>,
    ) -> (Desk<'g>, Option<Finished<Output>>, Ended) {
        let mut desk = self;
        let (finished, ended) = read_loop(
            rt, number, gate, session, input, buffer, &mut desk, replies,
        );
        (desk, finished, ended)
    }

    fn end<R: Wait>(self, rt: &R, session: &Mutex<Numbered>) -> (Desk<'g>, Ended) {
        let mut desk = self;
        let ended = session.lock(rt).end(&mut desk);
        (desk, ended)
    }

    fn write<W: Write, G: Turnstile, R: Wait>(
        self,
        rt: &R,
        number: u64,
        gate: &G,
        session: &Mutex<Numbered>,
        outgoing: &mut Outgoing<W>,
    ) -> Desk<'g> {
        let mut desk = self;
        let _ = write_loop(rt, number, gate, session, &mut desk, outgoing);
        desk
    }
}

impl<'g> Port for Desk<'g> {
    ghost use Rattle.std.specs.Prelude.{None, []};
    ghost use Rattle.session.specs.Broker.{Broker};

    ghost broker = { λ _. record { per_ledger = 1; service_url = []; names = []; doubtful = None; topics = [] } };

    ghost count = { λ _. 1 };

    ghost sole = { λ _. ⊥ };

    ghost passes = { λ _ _. Unit {0} };

    ghost works = { λ _ _ _. Unit {0} };

    ghost fails = { λ _ _. Unit {0} };

    ghost refuses = { λ _ _ _ _. Unit {0} };

    type Answered = Plain<TopicCommand, Answer>;

    type Sent = Plain<u64, Result<Option<Sent>, ReadError>>;

    type Had = Plain<Member, bool>;

    type Looked = Plain<u64, ()>;

    type Quiet = Plain<(), bool>;

    type Collected = Plain<(), Option<Reply>>;

    type Left = Plain<(), ()>;

    fn service_url(&self) -> &str {
        "pulsar://desk"
    }

    fn topics(&self) -> u64 {
        1
    }

    fn has_producer(&self, topic: u64, who: u64, producer_id: u64) -> Plain<Member, bool> {
        Plain::new(topic, who, &Member::Producer(producer_id), true)
    }

    fn has_consumer(&self, topic: u64, who: u64, consumer_id: u64) -> Plain<Member, bool> {
        Plain::new(topic, who, &Member::Consumer(consumer_id), true)
    }

    fn find(&mut self, _name: &TopicName) -> Found {
        Found::Topic(0)
    }

    fn command(
        &mut self,
        topic: u64,
        who: u64,
        command: TopicCommand,
    ) -> Plain<TopicCommand, Answer> {
        let asked = Snapshot::of(&command);
        Plain {
            topic,
            who,
            asked,
            said: answer_to(command),
        }
    }

    fn take_granter(&mut self) -> Option<Granter> {
        None
    }

    fn grant(
        &mut self,
        _topic: u64,
        _who: u64,
        _consumer_id: u64,
        _granter: &mut Option<Granter>,
        _permits: u32,
    ) -> Result<(), TooManyPermits> {
        Ok(())
    }

    fn look(&mut self, topic: u64, who: u64, consumer_id: u64) -> Plain<u64, ()> {
        Plain::new(topic, who, &consumer_id, ())
    }

    fn dispatch(
        &mut self,
        topic: u64,
        who: u64,
        consumer_id: u64,
    ) -> Plain<u64, Result<Option<Sent>, ReadError>> {
        Plain::new(topic, who, &consumer_id, Ok(None))
    }

    fn is_quiet(&mut self, topic: u64, who: u64) -> Plain<(), bool> {
        if let Some(gate) = self.gate {
            self.was_let = gate.hold() && self.was_let;
        }
        Plain::new(topic, who, &(), true)
    }

    fn next_due(&self, _who: u64, from: u64) -> Option<u64> {
        if from == 0 && self.due > 0 {
            Some(0)
        } else {
            None
        }
    }

    fn collect(&mut self, topic: u64, who: u64) -> Plain<(), Option<Reply>> {
        Plain::new(topic, who, &(), self.next_reply())
    }

    fn leave(&mut self, topic: u64, who: u64) -> Plain<(), ()> {
        Plain::new(topic, who, &(), ())
    }

    ghost use Rattle.std.proofs.Common.{rules};

    ghost passes_nothing = { λ port. tt };

    ghost passes_both = { λ a b c h k. tt };

    ghost passes_sole = { λ a b h s. s };

    ghost passes_works = { λ names a b h. tt };

    ghost works_both = { λ names a b c h k. tt };

    ghost works_more = { λ few more a b within h. tt };

    ghost works_sole = { λ names a b h s. s };

    ghost works_count = { λ names a b h. Prim.search rules };

    ghost fails_within = { λ names a b c d h k l failed. tt };

    ghost refuses_within = { λ a b c d topic why h k l refused. tt };

    ghost passes_count = { λ a b h. Prim.search rules };

    ghost counts_topics = { λ port s. absurd s };
}

/// PRODUCER and SUBSCRIBE are answered, a consumer is closed, REDELIVER isn't answered, and whatever else is asked finds no memory.
fn answer_to(command: TopicCommand) -> Answer
    ensures { Fits command result }
{
    match command {
        TopicCommand::Producer {
            producer_id: _,
            request_id,
            producer_name,
        } => Answer::Now(Reply::ProducerSuccess {
            request_id,
            producer_name,
        }),
        TopicCommand::Subscribe(_) => Answer::Later,
        TopicCommand::CloseConsumer(asked) => Answer::Now(Reply::Success {
            request_id: asked.request_id,
        }),
        TopicCommand::Redeliver(_) => Answer::Nothing,
        TopicCommand::Send(_)
        | TopicCommand::Ack(_)
        | TopicCommand::CloseProducer(_)
        | TopicCommand::Unsubscribe(_) => Answer::NoMemory,
    }
}
