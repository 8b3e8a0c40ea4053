ghost use Rattle.std.specs.Prelude.{◌≡◌, ◌<◌, ◌≤◌, None, [], length};
ghost use Rattle.session.specs.Broker.{IfFound, IsMessageFor};
ghost use Rattle.topic_core.specs.Steps.{Fits};

use bytes::Bytes;
use commands::Reply;
use ids::MessageId;
use names::TopicName;
use permits::{Granter, TooManyPermits};
use session::{Found, Member, Plain, Port, PumpFault};
use std::alloc::{AllocError, Global};
use std::snapshot::Snapshot;
use topic_core::{Answer, Outgoing, ReadError, TopicCommand};

/// The size of the metadata, the metadata (producer `p`, sequence id 0, time 8000) and the payload 5.
const ENTRY: &[u8] = b"\0\0\0\x0a\x0a\x01p\x10\0\x18\x01\xc0>\x05";

/// The most topics of a broker.
const MAX_TOPICS: usize = 64;

/// Why looking for a topic doesn't tell whether it is there.
#[derive(Clone, Copy)]
pub enum Outage {
    NoMemory,
    Device,
}

/// A broker that tells names apart by their last byte. A FLOW of a consumer without a granter brings too many permits, and each
/// command but PRODUCER and SUBSCRIBE finds no memory: either ends the session.
#[derive(Drop)]
pub struct Board {
    /// The last byte of each topic's name, by its number.
    pub topics: Vec<u8>,
    /// The last byte of a name that the device failed in looking for. The next search finds that it is there.
    pub doubtful: Option<u8>,
    /// What looking for a topic answers instead of finding it, where the session is to see that.
    pub outage: Option<Outage>,
    pub due: Option<Reply>,
    /// What the next dispatches answer, the last one first: a message, or why there is none. Behind them there is no message.
    pub dispatches: Vec<Option<PumpFault>>,
    /// The granter of the next consumer, where the session is to keep it.
    pub granter: Option<Granter>,
    /// How many permits the granter of the last FLOW granted.
    pub granted: u64,
    /// How often it was asked to look for permits.
    pub looks: u32,
    /// The consumer whose permits it was asked to look for last, and how many dispatches were to come then.
    pub looked: Option<(u64, usize)>,
    /// How often it was asked whether a topic is quiet.
    pub questions: u32,
    /// The session that left last.
    pub left: Option<u64>,
}

impl Board {
    pub fn new(alloc: Global) -> Board {
        Board {
            topics: Vec::new(alloc),
            doubtful: None,
            outage: None,
            due: None,
            dispatches: Vec::new(alloc),
            granter: None,
            granted: 0,
            looks: 0,
            looked: None,
            questions: 0,
            left: None,
        }
    }

    /// Has sixty-four topics from now on; the name of the last one ends so, those of the others in `-`.
    pub fn fill(&mut self, last: u8) -> Result<(), AllocError> {
        self.topics.clear();
        self.topics.resize(MAX_TOPICS - 1, b'-')?;
        self.topics.push(last)?;
        Ok(())
    }

    /// The number of a topic that is made, or why none is.
    fn make(&mut self, last: u8) -> Found
        ensures there { IfFound result (λ number. number < length self.new.topics.items) }
        ensures more { length self.old.topics.items ≤ length self.new.topics.items }
    {
        let count = self.topics.len();
        if count >= MAX_TOPICS {
            return Found::TooMany;
        }
        match self.topics.push(last) {
            Ok(()) => Found::Topic(count as u64),
            Err(_) => Found::NoMemory,
        }
    }

    /// The name in doubt is that of a topic from now on.
    fn settle(&mut self) -> Result<(), AllocError>
        ensures { length self.old.topics.items ≤ length self.new.topics.items }
    {
        if let Some(last) = self.doubtful {
            self.topics.push(last)?;
        }
        self.doubtful = None;
        Ok(())
    }
}

/// The last byte of a name.
fn last_byte(name: &TopicName) -> Option<u8> {
    name.as_str().as_bytes().last().copied()
}

/// Of the first entry.
fn message(consumer_id: u64) -> Outgoing
    ensures { IsMessageFor consumer_id result.reply × (length result.entry ≤ 1048576) }
{
    Outgoing {
        reply: Reply::Message {
            consumer_id,
            message_id: MessageId {
                ledger_id: 0,
                entry_id: 0,
            },
            redelivery_count: 0,
        },
        entry: Bytes::from_static(ENTRY),
    }
}

impl Port for Board {
    ghost use Rattle.session.specs.Broker.{Broker};

    ghost broker = { λ _. record { per_ledger = 1; service_url = []; names = []; doubtful = None; topics = [] } };

    ghost count = { λ board. length board.topics.items };

    ghost sole = { λ _. ⊥ };

    ghost passes = { λ old new. length old.topics.items ≤ length new.topics.items };

    ghost works = { λ _ old new. length old.topics.items ≤ length new.topics.items };

    ghost fails = { λ _ _. Unit {0} };

    ghost refuses = { λ _ _ _ _. Unit {0} };

    type Answered = Plain<TopicCommand, Answer>;

    type Sent = Plain<u64, Result<Option<Outgoing>, ReadError>>;

    type Had = Plain<Member, bool>;

    type Looked = Plain<u64, ()>;

    type Quiet = Plain<(), bool>;

    type Collected = Plain<(), Option<Reply>>;

    type Left = Plain<(), ()>;

    fn service_url(&self) -> &str {
        "pulsar://board"
    }

    fn topics(&self) -> u64 {
        self.topics.len() as u64
    }

    fn has_producer(&self, topic: u64, who: u64, producer_id: u64) -> Plain<Member, bool> {
        Plain::new(topic, who, &Member::Producer(producer_id), true)
    }

    fn has_consumer(&self, topic: u64, who: u64, consumer_id: u64) -> Plain<Member, bool> {
        Plain::new(topic, who, &Member::Consumer(consumer_id), true)
    }

    fn find(&mut self, name: &TopicName) -> Found {
        let Some(last) = last_byte(name) else {
            return Found::TooMany;
        };
        match self.outage {
            Some(Outage::NoMemory) => return Found::NoMemory,
            Some(Outage::Device) => {
                self.doubtful = Some(last);
                return Found::Failed;
            }
            None => {}
        }
        if self.settle().is_err() {
            return Found::NoMemory;
        }
        match self.topics.iter().position(|there| *there == last) {
            Some(number) => Found::Topic(number as u64),
            None => self.make(last),
        }
    }

    fn command(
        &mut self,
        topic: u64,
        who: u64,
        command: TopicCommand,
    ) -> Plain<TopicCommand, Answer> {
        let asked = Snapshot::of(&command);
        Plain {
            topic,
            who,
            asked,
            said: answer_to(command),
        }
    }

    fn take_granter(&mut self) -> Option<Granter> {
        self.granter.take()
    }

    fn grant(
        &mut self,
        _topic: u64,
        _who: u64,
        _consumer_id: u64,
        granter: &mut Option<Granter>,
        permits: u32,
    ) -> Result<(), TooManyPermits> {
        let Some(granter) = granter else {
            return Err(TooManyPermits);
        };
        granter.grant(u64::from(permits))?;
        self.granted = granter.count();
        Ok(())
    }

    fn look(&mut self, topic: u64, who: u64, consumer_id: u64) -> Plain<u64, ()> {
        self.looks = self.looks.saturating_add(1);
        self.looked = Some((consumer_id, self.dispatches.len()));
        Plain::new(topic, who, &consumer_id, ())
    }

    fn dispatch(
        &mut self,
        topic: u64,
        who: u64,
        consumer_id: u64,
    ) -> Plain<u64, Result<Option<Outgoing>, ReadError>> {
        let sent = match self.dispatches.pop() {
            None => Ok(None),
            Some(None) => Ok(Some(message(consumer_id))),
            Some(Some(PumpFault::Device)) => Err(ReadError::Device),
            Some(Some(PumpFault::Damaged { file, offset })) => {
                Err(ReadError::Damaged { file, offset })
            }
            Some(Some(PumpFault::Ended(_))) => Err(ReadError::NoMemory),
        };
        Plain::new(topic, who, &consumer_id, sent)
    }

    fn is_quiet(&mut self, topic: u64, who: u64) -> Plain<(), bool> {
        self.questions = self.questions.saturating_add(1);
        Plain::new(topic, who, &(), self.dispatches.is_empty())
    }

    fn next_due(&self, _who: u64, from: u64) -> Option<u64> {
        if from < self.topics() {
            Some(from)
        } else {
            None
        }
    }

    fn collect(&mut self, topic: u64, who: u64) -> Plain<(), Option<Reply>> {
        Plain::new(topic, who, &(), self.due.take())
    }

    fn leave(&mut self, topic: u64, who: u64) -> Plain<(), ()> {
        self.left = Some(who);
        Plain::new(topic, who, &(), ())
    }

    ghost use Rattle.std.proofs.Common.{rules};

    ghost passes_nothing = { λ port. Prim.search rules };

    ghost passes_both = { λ a b c h k. Prim.search rules };

    ghost passes_sole = { λ a b h s. s };

    ghost passes_works = { λ names a b h. h };

    ghost works_both = { λ names a b c h k. Prim.search rules };

    ghost works_more = { λ few more a b within h. h };

    ghost works_sole = { λ names a b h s. s };

    ghost works_count = { λ names a b h. h };

    ghost fails_within = { λ names a b c d h k l failed. tt };

    ghost refuses_within = { λ a b c d topic why h k l refused. tt };

    ghost passes_count = { λ a b h. h };

    ghost counts_topics = { λ port s. absurd s };
}

/// PRODUCER and SUBSCRIBE are answered, a consumer is closed, REDELIVER isn't answered, and whatever else is asked finds no memory.
fn answer_to(command: TopicCommand) -> Answer
    ensures { Fits command result }
{
    match command {
        TopicCommand::Producer {
            producer_id: _,
            request_id,
            producer_name,
        } => Answer::Now(Reply::ProducerSuccess {
            request_id,
            producer_name,
        }),
        TopicCommand::Subscribe(_) => Answer::Later,
        TopicCommand::CloseConsumer(asked) => Answer::Now(Reply::Success {
            request_id: asked.request_id,
        }),
        TopicCommand::Redeliver(_) => Answer::Nothing,
        TopicCommand::Send(_)
        | TopicCommand::Ack(_)
        | TopicCommand::CloseProducer(_)
        | TopicCommand::Unsubscribe(_) => Answer::NoMemory,
    }
}
