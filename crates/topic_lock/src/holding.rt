// A topic's lock, as a port holds it.
ghost use Rattle.std.specs.Prelude.{◌≡◌, ◌+◌, ◌<◌};
ghost use Rattle.std.specs.Sync.Mutex.{mutex_guard_value};
ghost use Rattle.session.specs.Broker.{SendsTo};
ghost use Rattle.topic_core.specs.Steps.{Fits};
ghost use Rattle.topic_lock.specs.Counting.{sends_of};
ghost use Rattle.topic_lock.specs.Hearing.{IfHeard};

use crate::counted::reading::{Next, StoresRead};
use crate::counted::{AcceptedTally, CountedTopic, Heard};
use crate::tally::{AcceptedByPorts, Tallies};
use bells::{Bells, Marks};
use commands::Reply;
use permits::Granter;
use std::sync::ledger::Share;
use std::sync::{MutexGuard, Wait};
use topic_core::{Answer, TopicCommand};

/// A topic's lock that a port has, and who is to be woken once it lets it go.
#[derive(Drop)]
pub(crate) struct Hold<'t, K: Tallies> {
    pub(crate) topic: MutexGuard<'t, CountedTopic<K>>,
    /// Others may wait for room, since the port did until it was let in.
    pub(crate) calls_reader: bool,
    /// The topic's flusher has something to do of which it wasn't told: a reply is owed, or the topic has failed.
    rings_flusher: bool,
    /// Positions may have been given back, which other consumers may get.
    gives_back: bool,
}

impl<'t, K: Tallies> Hold<'t, K> {
    /// The lock of a topic, which was just taken.
    pub(crate) fn new(topic: MutexGuard<'t, CountedTopic<K>>) -> Hold<'t, K>
        ensures { (mutex_guard_value result.topic).number ≡ (mutex_guard_value topic.entry).number }
    {
        Hold {
            topic,
            calls_reader: false,
            rings_flusher: false,
            gives_back: false,
        }
    }

    /// The topic's step, for the connection at this place, as `CountedTopic::command` says.
    pub(crate) fn command<R: Wait>(
        &mut self,
        rt: &R,
        place: u8,
        tally: &AcceptedTally<K>,
        port: &mut Share<AcceptedByPorts<K>>,
        who: u64,
        command: TopicCommand,
        granter: &mut Option<Granter>,
    ) -> Heard<TopicCommand, Answer>
        requires { 0 < port.old.parts }
        ensures about { (result.topic ≡ (mutex_guard_value self.old.topic).number) × (result.who ≡ who) × (result.asked.value ≡ command) }
        ensures fits { Fits command result.said }
        ensures counted { port.new.amount ≡ port.old.amount + sends_of command result.said }
        ensures parts { port.new.parts ≡ port.old.parts }
    {
        let Hold {
            topic,
            rings_flusher,
            gives_back,
            ..
        } = self;
        if may_give_back(&command) {
            *gives_back = true;
        }
        let makes_a_member = makes_a_member(&command);
        let heard = topic.command(rt, tally, port, who, command, granter);
        if makes_a_member && is_granted(heard.said()) {
            topic.waiting.members.enter(place);
        }
        let is_owed = matches!(heard.said(), Answer::Later | Answer::Nothing);
        if (is_owed && topic.waiting.owe(place)) || topic.is_failed() {
            *rings_flusher = true;
        }
        heard
    }

    /// Looks what was granted to a consumer of the session.
    pub(crate) fn look(&mut self, who: u64, consumer_id: u64) -> Heard<u64, ()>
        ensures about { (result.topic ≡ (mutex_guard_value self.old.topic).number) × (result.who ≡ who) × (result.asked.value ≡ consumer_id) }
    {
        let Hold { topic, .. } = self;
        topic.look(who, consumer_id)
    }

    /// Whether the topic has no message for any consumer of the session at this place, whose writer is woken when there may be one.
    pub(crate) fn is_quiet(&mut self, place: u8, who: u64) -> Heard<(), bool>
        ensures about { (result.topic ≡ (mutex_guard_value self.old.topic).number) × (result.who ≡ who) }
    {
        let Hold { topic, .. } = self;
        let heard = topic.is_quiet(who);
        if *heard.said() {
            topic.waiting.starve(place);
        }
        heard
    }

    /// What the topic has for a consumer of the connection at this place, by what was read of its stores before. Where it has no message
    /// the connection's writer is woken when there may be one.
    pub(crate) fn next(
        &mut self,
        place: u8,
        who: u64,
        consumer_id: u64,
        read: Option<StoresRead>,
    ) -> Next
        ensures about { IfHeard result (λ heard. (heard.topic ≡ (mutex_guard_value self.old.topic).number) × (heard.who ≡ who) × (heard.asked.value ≡ consumer_id)) }
        ensures message { IfHeard result (λ heard. SendsTo consumer_id heard.said) }
        ensures number { (mutex_guard_value self.new.topic).number ≡ (mutex_guard_value self.old.topic).number }
    {
        let Hold { topic, .. } = self;
        let next = topic.next(who, consumer_id, read);
        if is_none(&next) {
            topic.waiting.starve(place);
        }
        next
    }

    /// Lets the lock go, and wakes the topic's flusher where it has something to do, the next reader that waits for room where
    /// others may, and writers of the connections to whose consumers something was given back.
    pub(crate) fn release(self, bells: &Bells) {
        let Hold {
            topic,
            calls_reader,
            rings_flusher,
            gives_back,
        } = self;
        let mut topic = topic;
        let number = topic.number();
        let reader = if calls_reader {
            topic.next_reader()
        } else {
            None
        };
        let hungry = if gives_back {
            topic.waiting.take_hungry()
        } else {
            Marks::new()
        };
        drop(topic);
        if rings_flusher {
            bells.ring_flusher(number);
        }
        ring_reader(bells, reader);
        bells.ring_all(&hungry);
    }
}

/// Wakes a reader that waits for room.
pub(crate) fn ring_reader(bells: &Bells, reader: Option<u8>) {
    if let Some(place) = reader {
        bells.ring_reader(place);
    }
}

/// Whether there is no message for a consumer, or none that could be read.
fn is_none(next: &Next) -> bool {
    match next {
        Next::Heard(heard) => !matches!(heard.said(), Ok(Some(_))),
        Next::Unread(_) => false,
    }
}

/// Whether a command asks for a producer or a consumer.
fn makes_a_member(command: &TopicCommand) -> bool {
    matches!(
        command,
        TopicCommand::Producer { .. } | TopicCommand::Subscribe(_)
    )
}

/// Whether an answer is no refusal.
fn is_granted(answer: &Answer) -> bool {
    match answer {
        Answer::Later => true,
        Answer::Now(reply) => !matches!(reply, Reply::Error { .. }),
        Answer::Nothing | Answer::NoMemory => false,
    }
}

/// Whether a command may give positions back, which other consumers may then get.
fn may_give_back(command: &TopicCommand) -> bool {
    matches!(
        command,
        TopicCommand::CloseConsumer(_) | TopicCommand::Redeliver(_) | TopicCommand::Unsubscribe(_)
    )
}
