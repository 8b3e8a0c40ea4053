// A topic with its shares, and what it tells sessions. Its calls alone reach the topic itself.
pub(crate) mod flushing;
pub(crate) mod reading;
pub(crate) mod reopening;
mod summary;

ghost use Rattle.std.specs.Prelude.{◌≡◌, ◌+◌, ◌-◌, ◌<◌, ◌≤◌, ℕ, false, true, length, Ok};
ghost use Rattle.subscriptions.specs.Steps.{IsLooked};
ghost use Rattle.topic_core.specs.State.{CountsStay};
ghost use Rattle.topic_core.specs.Steps.{TopicStep, LentBy, Collects, has_room, Fits, key_of, left, learnt, HasLearnt, has_producer, has_consumer};
ghost use Rattle.topic_core.specs.Dispatch.{Admits};
ghost use Rattle.topic_core.specs.Soundness.{IsSound};
ghost use Rattle.topic_core.specs.Standing.{GoesOn};
ghost use Rattle.session.specs.declared.told.Member.TheVariants.{Producer as IsProducer, Consumer as IsConsumer};
ghost use Rattle.topic_lock.specs.Hearing.{put_off};
ghost use Rattle.topic_core.specs.Activity.{none_so_far, with_changes};
ghost use Rattle.topic_lock.specs.Activity.{is_ack};
ghost use Rattle.topic_lock.specs.Counting.{sends_of, receipts_collected, is_send, is_later};
ghost use Rattle.reply_queues.specs.Replies.{is_receipt};

use crate::durable::DurableByTopics;
use crate::tally::{
    AcceptedByPorts, AcceptedByTopics, HandedByPorts, HandedByTopics, Tallies, Tally,
};
use crate::waiting::Waiting;
use commands::Reply;
use permits::{Granter, Taker};
use session::{Ear, Member, Told};
use std::snapshot::Snapshot;
use std::sync::ledger::Share;
use std::sync::{Mutex, Wait};
use topic_core::{
    Activity, Answer, Outgoing, ReadError, TopicCommand, TopicCore, commands_hand_out_nothing,
    entries_are_published,
};

/// A topic behind a lock. Who grants permits to its consumers does so without that lock.
pub type LockedCore = TopicCore<Taker>;

/// The SENDs that were accepted, behind a lock that is taken last.
pub type AcceptedTally<K> = Mutex<Tally<AcceptedByTopics<K>, AcceptedByPorts<K>>>;

/// The receipts that were collected, behind a lock that is taken last.
pub type HandedTally<K> = Mutex<Tally<HandedByTopics<K>, HandedByPorts<K>>>;

/// What a topic told a session that asked it. The topic's calls alone make one, a session alone opens it, and nobody may let it go; who
/// passes it on may look at it.
pub struct Heard<Q, X> {
    topic: u64,
    who: u64,
    asked: Snapshot<Q>,
    said: X,
}

/// What a topic gives a consumer.
pub type Sent = Result<Option<Outgoing>, ReadError>;

impl<Q, X> Heard<Q, X> {
    fn new(topic: u64, who: u64, asked: Snapshot<Q>, said: X) -> Heard<Q, X>
        ensures { result ≡ record { topic = topic; who = who; asked = asked; said = said } }
    {
        Heard {
            topic,
            who,
            asked,
            said,
        }
    }

    /// What was told.
    pub fn said(&self) -> &X
        ensures { result.now ≡ self.now.said }
    {
        &self.said
    }
}

impl Heard<u64, Sent> {
    /// A message that can't be read is told as none for now.
    pub fn put_off(self) -> Heard<u64, Sent>
        ensures { result ≡ record self { said = put_off self.said } }
    {
        let Heard {
            topic,
            who,
            asked,
            said,
        } = self;
        let said = match said {
            Err(ReadError::Device | ReadError::Damaged { .. }) => Ok(None),
            said => said,
        };
        Heard::new(topic, who, asked, said)
    }
}

impl<Q, X> Told for Heard<Q, X> {
    type Question = Q;

    type Said = X;

    ghost topic = { λ heard. heard.topic };

    ghost who = { λ heard. heard.who };

    ghost asked = { λ heard. heard.asked.value };

    ghost said = { λ heard. heard.said };

    fn open(self, _ear: Ear) -> X {
        let Heard {
            topic: _,
            who: _,
            asked,
            said,
        } = self;
        drop(asked);
        said
    }
}

/// A topic's shares: of what was accepted and handed out, of what it counts as committed, and of what a flush that failed left
/// behind.
#[derive(Drop)]
pub struct TopicShares<K: Tallies> {
    pub accepted: Share<AcceptedByTopics<K>>,
    pub handed: Share<HandedByTopics<K>>,
    pub committed: Share<DurableByTopics<K>>,
    pub behind: Share<DurableByTopics<K>>,
    ghost counting: { (accepted.parts ≡ 1) × (handed.parts ≡ 1) },
    ghost durable: { (committed.parts ≡ 1) × (behind.parts ≡ 1) },
}

/// A topic without its stores, with its shares. What a flush that failed had made durable stays behind until the topic is opened
/// again. Who waits for it stands beside.
#[derive(Drop)]
pub struct CountedTopic<K: Tallies> {
    core: LockedCore,
    /// Its number, as its files have it.
    number: u64,
    accepted: Share<AcceptedByTopics<K>>,
    handed: Share<HandedByTopics<K>>,
    committed: Share<DurableByTopics<K>>,
    behind: Share<DurableByTopics<K>>,
    left: u64,
    activity: Activity,
    pub(crate) waiting: Waiting,
    ghost accepted_counted: { (accepted.amount ≡ core.accepted) × (accepted.parts ≡ 1) },
    ghost handed_counted: { (handed.amount ≡ core.handed) × (handed.parts ≡ 1) },
    ghost committed_counted: { (committed.amount ≡ core.committed) × (committed.parts ≡ 1) },
    ghost behind_counted: { (behind.amount ≡ left) × (behind.parts ≡ 1) },
    ghost few: { left ≤ 1024 },
    ghost works: { core.failed ≡ false → left ≡ 0 },
}

impl<K: Tallies> CountedTopic<K> {
    /// A topic whose shares count what it counts.
    pub fn new(core: LockedCore, number: u64, shares: TopicShares<K>) -> CountedTopic<K>
        requires accepted { shares.accepted.amount ≡ core.accepted }
        requires handed { shares.handed.amount ≡ core.handed }
        requires committed { shares.committed.amount ≡ core.committed }
        requires behind { shares.behind.amount ≡ 0 }
        ensures { (result.core ≡ core) × (result.number ≡ number) × (result.activity ≡ none_so_far) }
    {
        let TopicShares {
            accepted,
            handed,
            committed,
            behind,
        } = shares;
        CountedTopic {
            core,
            number,
            accepted,
            handed,
            committed,
            behind,
            left: 0,
            activity: Activity::new(),
            waiting: Waiting::new(),
        }
    }

    /// That the topic is sound, whenever it is got. Costs nothing.
    pub fn show_sound(&self)
        ensures { IsSound self.now.core }
    {
        self.core.show_sound();
    }

    /// Its number.
    pub fn number(&self) -> u64
        ensures { result ≡ self.now.number }
    {
        self.number
    }

    /// Whether a device failure ended the topic's work.
    pub fn is_failed(&self) -> bool
        ensures { result ≡ self.now.core.failed }
    {
        self.core.is_failed()
    }

    /// Whether beside what waits there is room for an entry of this length, in bytes. Where there is none, a flush makes it.
    pub(crate) fn has_room(&self, length: usize) -> bool
        ensures { result ≡ has_room self.now.core length }
    {
        self.core.has_room(length)
    }

    /// Whether a session has this producer, open or closing.
    pub fn has_producer(&self, who: u64, id: u64) -> Heard<Member, bool>
        ensures about { (result.topic ≡ self.now.number) × (result.who ≡ who) × (result.asked.value ≡ IsProducer id) }
        ensures told { result.said ≡ has_producer self.now.core who id }
    {
        let asked = Snapshot::of(&Member::Producer(id));
        Heard::new(self.number, who, asked, self.core.has_producer(who, id))
    }

    /// Whether a session has this consumer.
    pub fn has_consumer(&self, who: u64, id: u64) -> Heard<Member, bool>
        ensures about { (result.topic ≡ self.now.number) × (result.who ≡ who) × (result.asked.value ≡ IsConsumer id) }
        ensures told { result.said ≡ has_consumer self.now.core who id }
    {
        let asked = Snapshot::of(&Member::Consumer(id));
        Heard::new(self.number, who, asked, self.core.has_consumer(who, id))
    }

    /// The topic's step. A SEND that is accepted is counted for the port. The granter of a consumer that is attached goes into
    /// `granter`, which else stays as it is.
    #[tactic(auto, using(crate::proofs::Counts::no_send, crate::proofs::Counts::not_accepted, crate::proofs::Counts::one_send))]
    pub fn command<R: Wait>(
        &mut self,
        rt: &R,
        tally: &AcceptedTally<K>,
        port: &mut Share<AcceptedByPorts<K>>,
        who: u64,
        command: TopicCommand,
        granter: &mut Option<Granter>,
    ) -> Heard<TopicCommand, Answer>
        requires { 0 < port.old.parts }
        ensures about { (result.topic ≡ self.old.number) × (result.who ≡ who) × (result.asked.value ≡ command) }
        ensures step { TopicStep self.old.core who command result.said self.new.core }
        ensures fits { Fits command result.said }
        ensures lent { LentBy self.old.core who command result.said self.new.core granter.old granter.new }
        ensures goes_on { GoesOn self.old.core self.new.core }
        ensures number { self.new.number ≡ self.old.number }
        ensures counted { port.new.amount ≡ port.old.amount + sends_of command result.said }
        ensures parts { port.new.parts ≡ port.old.parts }
        ensures activity { self.new.activity ≡ with_changes (is_ack command) (length self.new.core.subs.changes - length self.old.core.subs.changes) self.old.activity }
    {
        entries_are_published();
        commands_hand_out_nothing();
        let asked = Snapshot::of(&command);
        let CountedTopic {
            core,
            number,
            accepted,
            activity,
            ..
        } = self;
        let (is_send, is_ack) = (is_send(&command), is_ack(&command));
        let before = core.changes();
        let answer = core.command(who, command, granter);
        activity.work(is_ack, before, core.changes());
        if is_send && is_later(&answer) {
            tally.lock(rt).count(accepted, port);
        }
        Heard::new(*number, who, asked, answer)
    }

    /// The session's first due reply. A receipt is counted for the port.
    pub fn collect<R: Wait>(
        &mut self,
        rt: &R,
        tally: &HandedTally<K>,
        port: &mut Share<HandedByPorts<K>>,
        who: u64,
    ) -> Heard<(), Option<Reply>>
        requires { 0 < port.old.parts }
        ensures about { (result.topic ≡ self.old.number) × (result.who ≡ who) }
        ensures step { Collects self.old.core who result.said self.new.core }
        ensures goes_on { GoesOn self.old.core self.new.core }
        ensures number { self.new.number ≡ self.old.number }
        ensures counted { port.new.amount ≡ port.old.amount + receipts_collected result.said }
        ensures parts { port.new.parts ≡ port.old.parts }
        ensures activity { self.new.activity ≡ self.old.activity }
    {
        let number = self.number;
        let said = self.take_reply(rt, tally, port, who);
        Heard::new(number, who, Snapshot::of(&()), said)
    }

    fn take_reply<R: Wait>(
        &mut self,
        rt: &R,
        tally: &HandedTally<K>,
        port: &mut Share<HandedByPorts<K>>,
        who: u64,
    ) -> Option<Reply>
        requires { 0 < port.old.parts }
        ensures step { Collects self.old.core who result self.new.core }
        ensures goes_on { GoesOn self.old.core self.new.core }
        ensures number { self.new.number ≡ self.old.number }
        ensures counted { port.new.amount ≡ port.old.amount + receipts_collected result }
        ensures parts { port.new.parts ≡ port.old.parts }
        ensures activity { self.new.activity ≡ self.old.activity }
    {
        let CountedTopic { core, handed, .. } = self;
        let reply = core.collect(who)?;
        if is_receipt(&reply) {
            tally.lock(rt).count(handed, port);
        }
        Some(reply)
    }

    /// Looks what was granted to a consumer. An unknown consumer changes nothing.
    pub fn look(&mut self, who: u64, consumer_id: u64) -> Heard<u64, ()>
        ensures about { (result.topic ≡ self.old.number) × (result.who ≡ who) × (result.asked.value ≡ consumer_id) }
        ensures looked { IsLooked ⊥ (learnt self.old.core who consumer_id) self.new.core }
        ensures goes_on { GoesOn self.old.core self.new.core }
        ensures number { self.new.number ≡ self.old.number }
        ensures counts { CountsStay self.old.core self.new.core }
        ensures activity { self.new.activity ≡ self.old.activity }
    {
        let CountedTopic { core, number, .. } = self;
        core.look(who, consumer_id);
        Heard::new(*number, who, Snapshot::of(&consumer_id), ())
    }

    /// Whether there is no message for any consumer of a session, as far as is known of their permits. Changes nothing but that.
    pub fn is_quiet(&mut self, who: u64) -> Heard<(), bool>
        ensures about { (result.topic ≡ self.old.number) × (result.who ≡ who) }
        ensures learnt { HasLearnt who self.old.core self.new.core }
        ensures none { result.said ≡ true → (id i : ℕ) → Admits self.new.core (key_of who id) i → ⊥ }
        ensures goes_on { GoesOn self.old.core self.new.core }
        ensures number { self.new.number ≡ self.old.number }
        ensures counts { CountsStay self.old.core self.new.core }
        ensures activity { self.new.activity ≡ self.old.activity }
    {
        let CountedTopic { core, number, .. } = self;
        let said = core.is_quiet(who);
        Heard::new(*number, who, Snapshot::of(&()), said)
    }

    /// The session leaves. What it sent stays.
    pub fn leave(&mut self, who: u64) -> Heard<(), ()>
        ensures about { (result.topic ≡ self.old.number) × (result.who ≡ who) }
        ensures step { self.new.core ≡ left self.old.core who }
        ensures goes_on { GoesOn self.old.core self.new.core }
        ensures number { self.new.number ≡ self.old.number }
        ensures activity { self.new.activity ≡ self.old.activity }
    {
        let CountedTopic { core, number, .. } = self;
        core.leave(who);
        Heard::new(*number, who, Snapshot::of(&()), ())
    }

    /// The topic's shares, once it is out of its lock, and how much is left behind.
    pub fn into_shares(self) -> TopicShares<K>
        ensures accepted { result.accepted.amount ≡ self.core.accepted }
        ensures handed { result.handed.amount ≡ self.core.handed }
        ensures committed { result.committed.amount ≡ self.core.committed }
        ensures behind { self.core.failed ≡ false → result.behind.amount ≡ 0 }
    {
        let CountedTopic {
            accepted,
            handed,
            committed,
            behind,
            ..
        } = self;
        TopicShares {
            accepted,
            handed,
            committed,
            behind,
        }
    }
}

fn is_send(command: &TopicCommand) -> bool
    ensures { result ≡ is_send command.now }
{
    matches!(command, TopicCommand::Send(_))
}

fn is_ack(command: &TopicCommand) -> bool
    ensures { result ≡ is_ack command.now }
{
    matches!(command, TopicCommand::Ack(_))
}

fn is_later(answer: &Answer) -> bool
    ensures { result ≡ is_later answer.now }
{
    matches!(answer, Answer::Later)
}

fn is_receipt(reply: &Reply) -> bool
    ensures { result ≡ is_receipt reply.now }
{
    matches!(reply, Reply::SendReceipt { .. })
}
