// Each answer was worked out by hand from what a client of Pulsar is told. What the proof of a test costs goes by the paths on
// which a topic is dropped. So only a test owns one, and functions that borrow it tell what they saw as plain values; the test
// drops it before it looks at them.
mod basics;
mod failures;
mod gauges;
mod granters;
mod recent;
mod summaries;
mod trims;

ghost use Rattle.std.specs.Prelude.{IfOk};
ghost use Rattle.topic_core_tests.specs.Matching.{AreMatched};

use bytes::Bytes;
use commands::{Ack, AckType, InitialPosition, Reply, ReplyText, Sequence, Text, read_entry};
use disk_mem::MemShelf;
use gated_log::Refusal;
use holds::SlotRanges;
use ids::MessageIdData;
use permits::{BothEnds, Fresh, Gauge, Granter};
use records::is_subscription_name;
use std::alloc::{AllocError, Global};
use subscriptions::Mode;
use topic_core::{
    Answer, FileStores, PlainEntry, Send, SentEntry, Subscribe, TopicCommand, TopicCore, TopicStore,
};

// Metadata of ten bytes, behind their size: the producer "p", the sequence id 0, the time 1 and a field that isn't known.
const PLAIN: &[u8] = b"\0\0\0\x0a\x0a\x01p\x10\0\x18\x01\xc0>\x05";

// The refusal of a call, whether the topic is failed behind it, and how many entries it has.
type Seen = (Option<Refusal>, bool, u64);

// A topic of one entry a ledger over its stores, on a device in memory. Core and stores remember the same, as a flush asks.
#[derive(Drop)]
struct TopicOf<G: Gauge> {
    core: TopicCore<G>,
    stores: FileStores,
    shelf: MemShelf,
}

// A topic that grants its consumers' permits.
type Topic = TopicOf<BothEnds>;

impl<G: Fresh> TopicOf<G> {
    // A new topic.
    fn new(alloc: Global) -> Result<TopicOf<G>, Refusal>
        ensures { IfOk result (λ t. AreMatched t.core t.stores) }
    {
        let mut shelf = MemShelf::new(alloc);
        drop(FileStores::create(alloc, &mut shelf, 0, 1)?);
        let (core, stores) = TopicCore::open(alloc, &mut shelf, 0, 1)?;
        Ok(TopicOf {
            core,
            stores,
            shelf,
        })
    }

    // Asks, whatever is answered. Only want of memory is an error.
    fn ask(&mut self, who: u64, command: TopicCommand) -> Result<(), AllocError>
        requires { AreMatched self.old.core self.old.stores }
        ensures { AreMatched self.new.core self.new.stores }
    {
        self.ask_for(who, command, &mut None)
    }

    // The same, where a granter that comes out is wanted.
    fn ask_for(
        &mut self,
        who: u64,
        command: TopicCommand,
        granter: &mut Option<Granter>,
    ) -> Result<(), AllocError>
        requires { AreMatched self.old.core self.old.stores }
        ensures { AreMatched self.new.core self.new.stores }
    {
        match self.core.command(who, command, granter) {
            Answer::Now(_) | Answer::Later | Answer::Nothing => Ok(()),
            Answer::NoMemory => Err(AllocError),
        }
    }

    fn flush(&mut self) -> Result<usize, Refusal>
        requires { AreMatched self.old.core self.old.stores }
        ensures { AreMatched self.new.core self.new.stores }
    {
        match self.core.flush(&mut self.stores, &mut self.shelf) {
            Ok(count) => Ok(count),
            Err(why) => Err(why.into()),
        }
    }

    fn reopen(&mut self) -> Result<(), Refusal>
        requires { AreMatched self.old.core self.old.stores }
        ensures { AreMatched self.new.core self.new.stores }
    {
        self.core.reopen(&mut self.stores, &mut self.shelf)
    }

    // Of a new topic: session 0 gets the producer 1, and the first entry is committed. Session 1 gets the consumer 5.
    fn begin(&mut self, alloc: Global) -> Result<(), Refusal>
        requires { AreMatched self.old.core self.old.stores }
        ensures { AreMatched self.new.core self.new.stores }
    {
        self.ask(0, producer(alloc)?)?;
        self.ask(0, send(alloc, 10)?)?;
        self.ask(1, subscribe(alloc)?)?;
        self.flush()?;
        Ok(())
    }

    // Behind that: two further entries and the acknowledgement of the first one wait for a flush.
    fn wait(&mut self, alloc: Global) -> Result<(), Refusal>
        requires { AreMatched self.old.core self.old.stores }
        ensures { AreMatched self.new.core self.new.stores }
    {
        self.begin(alloc)?;
        self.ask(0, send(alloc, 11)?)?;
        self.ask(0, send(alloc, 12)?)?;
        self.ask(1, acknowledge(alloc)?)?;
        Ok(())
    }

    // The position of a message for a session's consumer 5, where it may get one. It has the bytes that were sent.
    fn message(&mut self, who: u64) -> Result<Option<u64>, Refusal> {
        match self.core.dispatch(&self.stores, &mut self.shelf, who, 5)? {
            Some(outgoing) if outgoing.entry.as_slice() == PLAIN => {
                Ok(position_in(&outgoing.reply))
            }
            _ => Ok(None),
        }
    }

    fn seen(&self, refused: Option<Refusal>) -> Seen {
        (refused, self.core.is_failed(), self.core.committed())
    }

    // How many entries the topic has, and its store.
    fn counts(&self) -> (u64, u64) {
        (self.core.committed(), self.stores.len())
    }
}

impl TopicOf<BothEnds> {
    // The position of the next message of a session's consumer 5, which gets a permit.
    fn next(&mut self, who: u64) -> Result<Option<u64>, Refusal> {
        if self.core.grant(who, 5, 1).is_err() {
            return Ok(None);
        }
        self.message(who)
    }
}

// A producer 1 is asked for.
fn producer(alloc: Global) -> Result<TopicCommand, AllocError> {
    let name = String::from_str(alloc, "one")?;
    if name.len() > 9 {
        return Err(AllocError);
    }
    Ok(TopicCommand::Producer {
        producer_id: 1,
        request_id: 101,
        producer_name: ReplyText::new(name),
    })
}

// The producer 1 sends.
fn send(alloc: Global, sequence_id: u64) -> Result<TopicCommand, AllocError> {
    let bytes = Bytes::from_static(PLAIN);
    let Ok(metadata) = read_entry(alloc, bytes.as_slice()) else {
        return Err(AllocError);
    };
    Ok(TopicCommand::Send(Send {
        producer_id: 1,
        sequence_id,
        entry: SentEntry::Plain(PlainEntry { bytes, metadata }),
    }))
}

// A consumer 5 of the subscription `s` is asked for, from the first entry on.
fn subscribe(alloc: Global) -> Result<TopicCommand, AllocError> {
    let subscription = Text::new(String::from_str(alloc, "s")?);
    if !is_subscription_name(subscription.as_str().as_bytes()) {
        return Err(AllocError);
    }
    Ok(TopicCommand::Subscribe(Subscribe {
        consumer_id: 5,
        request_id: 205,
        subscription,
        mode: Mode::Exclusive,
        ranges: SlotRanges::new(Vec::new(alloc)),
        initial: InitialPosition::Earliest,
    }))
}

// The consumer 5 acknowledges the first entry.
fn acknowledge(alloc: Global) -> Result<TopicCommand, AllocError> {
    let first = MessageIdData {
        ledger_id: 0,
        entry_id: 0,
        partition: -1,
        batch_index: -1,
        has_ack_set: false,
    };
    Ok(TopicCommand::Ack(Ack {
        consumer_id: 5,
        ack_type: AckType::Individual,
        message_ids: Sequence::new(vec![in alloc; first; 1]?),
        request_id: Some(300),
    }))
}

// The position that a receipt or a message names.
fn position_in(reply: &Reply) -> Option<u64> {
    match reply {
        Reply::SendReceipt { message_id, .. } | Reply::Message { message_id, .. } => {
            Some(message_id.ledger_id)
        }
        _ => None,
    }
}

// The refusal, where it isn't want of memory.
fn refusal(refused: Option<Refusal>) -> Result<Option<Refusal>, Refusal> {
    match refused {
        Some(Refusal::NoMemory) => Err(Refusal::NoMemory),
        other => Ok(other),
    }
}
