ghost use Rattle.std.specs.Prelude.{◌≡◌, ◌+◌, ◌^◌, ◌<◌, ◌≤◌, ◌&&◌, ℕ, true, false, None, length, IfOk, IfSome, OnOk, OnErr, sum_by};
ghost use Rattle.std.specs.Str.{bytes_eq};
ghost use Rattle.commands.specs.Metadata.{entry_of};
ghost use Rattle.subscriptions.specs.Statuses.{AreStatuses};
ghost use Rattle.topic_core.specs.Messages.{is_counted, messages_of_entry};
ghost use Rattle.topic_core.specs.Slots.{slot_of_entry};
ghost use Rattle.topic_core.specs.State.{Topic, floor, next_position};
ghost use Rattle.reply_queues.specs.Replies.{is_receipt};
ghost use Rattle.topic_core.specs.Steps.{Meets, TopicStep, LentBy, Collects, Fits, first_standing, producer_refusals, send_refusals, limit_refusals, has_room, producer_outcome, send_outcome, has_producer, has_open_producer, has_name, is_plain_entry, accepted, receipt, key_of, left};
ghost use Rattle.topic_core.specs.Soundness.{IsSound};
ghost use Rattle.topic_core.specs.Standing.{GoesOn};

use crate::command::{Answer, PlainEntry, Send, SentEntry, TopicCommand};
use crate::messages::messages_of_meta;
use crate::producers::Producers;
use crate::recent::Recent;
use crate::slots::slot_of_meta;
use bytes::Bytes;
use commands::{MessageMeta, Reply, ReplyText, ServerError, Text};
use holds::ConsumerKey;
use ids::to_id;
use managed_ledger::has_message_count;
use permits::{Fresh, Gauge, Granter};
use reply_queues::ReplyQueues;
use std::alloc::{AllocError, Global};
use std::marker::Model;
use subscriptions::{SubscriptionStatus, Subscriptions};

/// The most entries that a topic has, committed and waiting, and the most SENDs that it accepts. Our own rule.
const MOST_ENTRIES: u64 = 1 << 62;

/// The most entries that wait for a flush. Our own rule.
const MOST_WAITING: usize = 1_024;

/// The most bytes that they have together. Our own rule.
const MOST_WAITING_BYTES: u64 = 16_777_216;

/// The most bytes of an entry, as CONNECTED tells it ("PulsarApi.proto, CommandConnected, max_message_size").
pub(crate) const LONGEST_ENTRY: usize = 1_048_576;

/// How much a flush handed on that hasn't come to a good end.
#[derive(Clone, Copy)]
pub(crate) struct Doubt {
    pub(crate) entries: usize,
    pub(crate) changes: usize,
    /// Up to where the ledger may be trimmed.
    pub(crate) trim: u64,
}

/// One topic, without the bytes of its committed entries.
#[derive(Drop)]
pub struct TopicCore<G: Gauge> {
    pub(crate) alloc: Global,
    pub(crate) per_ledger: u32,
    pub(crate) base: u64,
    pub(crate) committed: u64,
    pub(crate) durable: Recent,
    pub(crate) waiting: Vec<Bytes>,
    pub(crate) waiting_bytes: u64,
    pub(crate) accepted: u64,
    pub(crate) handed: u64,
    pub(crate) producers: Producers,
    pub(crate) subs: Subscriptions<G>,
    pub(crate) queues: ReplyQueues,
    pub(crate) doubt: Option<Doubt>,
    pub(crate) failed: bool,
}

impl<G: Gauge> Model for TopicCore<G> {
    ghost use Rattle.std.specs.Prelude.{◌≡◌, ℕ, sum_by, length};
    ghost use Rattle.std.specs.Coded.{codes};
    ghost use Rattle.cursor.specs.Positions.{positions_code};
    ghost use Rattle.holds.specs.Deliveries.{deliveries_code};
    ghost use Rattle.managed_ledger.specs.Entries.{ledger_code};
    ghost use Rattle.records.specs.Maps.{kept_code};
    ghost use Rattle.topic_core.specs.State.{Topic};
    ghost use Rattle.topic_core.specs.Soundness.{IsSound, AreReceipts};

    ghost Value = { Topic };

    ghost coded = { Prim.hlevel (codes, positions_code, deliveries_code, ledger_code, kept_code) };

    ghost use Rattle.topic_core.specs.Held.{core_of};

    ghost view = { core_of };

    ghost invariant = { λ t. (t.waiting_bytes ≡ sum_by length t.waiting.items) × IsSound (core_of t) × AreReceipts (core_of t) × (t.base ≡ t.durable.ledger.base) };
}

impl<G: Gauge> TopicCore<G> {
    /// Whether a device failure ended the topic's work.
    pub fn is_failed(&self) -> bool
        ensures { result ≡ self.now.failed }
    {
        self.failed
    }

    /// That the topic is sound, which it is between any two calls. Costs nothing.
    pub fn show_sound(&self)
        ensures { IsSound self.now }
    {
        // The proof reads here what holds of a topic at any time.
        let _ = &self.alloc;
    }

    /// How many entries are committed.
    pub fn committed(&self) -> u64
        ensures { result ≡ self.now.committed }
    {
        self.committed
    }

    /// The position of the first entry that is still there.
    pub fn base(&self) -> u64
        ensures { result ≡ self.now.ledger.base }
    {
        self.base
    }

    /// The position below which a trim may take entries.
    pub(crate) fn floor(&self) -> u64
        ensures { result ≡ floor self.now }
    {
        match self.doubt {
            Some(doubt) => doubt.trim,
            None => self.base,
        }
    }

    /// Whether beside what waits there is room for an entry of this length, in bytes. Where there is none, a flush makes it.
    pub fn has_room(&self, len: usize) -> bool
        ensures { result ≡ has_room self.now len }
    {
        self.waiting.len() < MOST_WAITING && len as u64 <= MOST_WAITING_BYTES - self.waiting_bytes
    }

    /// What is told of each subscription, in the order of the names' bytes, also of a failed topic.
    pub fn statuses(&self) -> Result<Vec<SubscriptionStatus>, AllocError>
        ensures { IfOk result (λ statuses. AreStatuses self.now.subs.subs statuses.items) }
    {
        self.subs.statuses()
    }

    /// Whether the session has this producer, open or closing.
    pub fn has_producer(&self, who: u64, id: u64) -> bool
        ensures { result ≡ has_producer self.now who id }
    {
        self.producers.has(who, id)
    }

    pub(crate) fn has_open_producer(&self, who: u64, id: u64) -> bool
        ensures { result ≡ has_open_producer self.now who id }
    {
        self.producers.has_open(who, id)
    }

    fn has_name(&self, name: &str) -> bool
        ensures { result ≡ has_name self.now name.now }
    {
        self.producers.has_name(name)
    }

    fn producer_refusal(&self, name: &str) -> Option<ServerError>
        ensures { result ≡ first_standing (producer_refusals self.now name.now) }
    {
        if self.is_failed() {
            return Some(ServerError::PersistenceError);
        }
        if self.has_name(name) {
            return Some(ServerError::ProducerBusy);
        }
        None
    }

    fn send_refusal(&self, who: u64, send: &Send) -> Option<ServerError>
        ensures { result ≡ first_standing (send_refusals self.now who send.now) }
    {
        if !self.has_open_producer(who, send.producer_id) {
            return Some(ServerError::NotAllowedError);
        }
        let SentEntry::Plain(entry) = &send.entry else {
            return Some(ServerError::ChecksumError);
        };
        let len = entry.bytes.len();
        if len > LONGEST_ENTRY {
            return Some(ServerError::NotAllowedError);
        }
        if !is_plain_entry(&entry.metadata) {
            return Some(ServerError::NotAllowedError);
        }
        if self.is_failed() {
            return Some(ServerError::PersistenceError);
        }
        self.limit_refusal(len)
    }

    /// What a topic that has too much refuses of an entry of this length.
    fn limit_refusal(&self, len: usize) -> Option<ServerError>
        requires { len ≤ 1048576 }
        ensures { result ≡ first_standing (limit_refusals self.now len) }
    {
        if !self.has_room(len)
            || self.committed + self.waiting.len() as u64 >= MOST_ENTRIES
            || self.accepted >= MOST_ENTRIES
        {
            return Some(ServerError::TooManyRequests);
        }
        None
    }

    fn add_producer(
        &mut self,
        who: u64,
        producer_id: u64,
        request_id: u64,
        producer_name: ReplyText,
    ) -> Result<Answer, AllocError>
        ensures ok { IfOk result (λ answer. Meets (producer_outcome self.old who producer_id request_id producer_name) answer self.new) }
        ensures err { OnErr result ((self.new ≡ self.old) × (first_standing (producer_refusals self.old producer_name) ≡ None)) }
    {
        if let Some(error) = self.producer_refusal(producer_name.as_str()) {
            return Ok(Answer::Now(Reply::Error { request_id, error }));
        }
        let name = String::from_str(self.alloc, producer_name.as_str())?;
        self.producers.add(who, producer_id, Text::new(name))?;
        Ok(Answer::Now(Reply::ProducerSuccess {
            request_id,
            producer_name,
        }))
    }

    fn send(&mut self, who: u64, send: Send) -> Result<Answer, AllocError>
        ensures ok { IfOk result (λ answer. Meets (send_outcome self.old who send) answer self.new) }
        ensures err { OnErr result ((self.new ≡ self.old) × (first_standing (send_refusals self.old who send) ≡ None)) }
    {
        if let Some(error) = self.send_refusal(who, &send) {
            let refusal = Reply::SendError {
                producer_id: send.producer_id,
                sequence_id: send.sequence_id,
                error,
            };
            drop(send);
            return Ok(Answer::Now(refusal));
        }
        let Send {
            producer_id,
            sequence_id,
            entry,
        } = send;
        let SentEntry::Plain(entry) = entry else {
            unreachable!()
        };
        let PlainEntry { bytes, metadata } = entry;
        let slot = slot_of_meta(&metadata);
        let messages = messages_of_meta(&metadata);
        drop(metadata);
        self.accept(who, producer_id, sequence_id, bytes, slot, messages)?;
        Ok(Answer::Later)
    }

    /// The entry waits, with its slot and how many messages it has, and the receipt for its position awaits a flush.
    fn accept(
        &mut self,
        who: u64,
        producer_id: u64,
        sequence_id: u64,
        entry: Bytes,
        slot: u16,
        messages: u32,
    ) -> Result<(), AllocError>
        requires works { self.old.failed ≡ false }
        requires readable { is_counted (entry_of entry) ≡ true }
        requires slotted { slot ≡ slot_of_entry entry }
        requires counted { messages ≡ messages_of_entry entry }
        requires some { 0 < messages }
        requires few { messages ≤ 1048576 }
        requires short { length entry ≤ 1048576 }
        requires room { first_standing (limit_refusals self.old (length entry)) ≡ None }
        ensures ok { OnOk result (self.new ≡ accepted self.old who producer_id sequence_id entry) }
        ensures err { OnErr result (self.new ≡ self.old) }
    {
        let position = self.committed + self.waiting.len() as u64;
        let message_id = to_id(position, self.per_ledger);
        let len = entry.len() as u64;
        self.waiting.reserve(1)?;
        let receipt = Reply::SendReceipt {
            producer_id,
            sequence_id,
            message_id,
        };
        let made = self.queues.push(who, receipt)?;
        if let Err(error) = self.subs.add_mark(slot, messages) {
            self.queues.drop_last(who, made);
            return Err(error);
        }
        self.waiting.push(entry).unwrap();
        self.waiting_bytes += len;
        self.accepted += 1;
        Ok(())
    }

    /// The session's first due reply, which it takes.
    pub fn collect(&mut self, who: u64) -> Option<Reply>
        ensures step { Collects self.old who result self.new }
        ensures goes_on { GoesOn self.old self.new }
    {
        let reply = self.queues.take(who)?;
        if is_receipt(&reply) {
            self.handed += 1;
        }
        Some(reply)
    }

    /// A session leaves. What it sent stays.
    pub fn leave(&mut self, who: u64)
        ensures step { self.new ≡ left self.old who }
        ensures goes_on { GoesOn self.old self.new }
    {
        self.producers.forget_session(who);
        self.subs.leave(who);
        self.queues.forget(who);
    }
}

impl<G: Fresh> TopicCore<G> {
    /// Works a session's command. Where SUBSCRIBE attaches a consumer whose permits somebody else is to grant, the granter goes into
    /// `granter`, which else stays as it is.
    pub fn command(
        &mut self,
        who: u64,
        command: TopicCommand,
        granter: &mut Option<Granter>,
    ) -> Answer
        ensures step { TopicStep self.old who command result self.new }
        ensures lent { LentBy self.old who command result self.new granter.old granter.new }
        ensures goes_on { GoesOn self.old self.new }
        ensures fits { Fits command result }
    {
        // The proof reads here what holds of a topic at any time.
        let _ = &self.alloc;
        let answer = match command {
            TopicCommand::Producer {
                producer_id,
                request_id,
                producer_name,
            } => self.add_producer(who, producer_id, request_id, producer_name),
            TopicCommand::Send(send) => self.send(who, send),
            TopicCommand::Subscribe(subscribe) => self.subscribe(who, subscribe, granter),
            TopicCommand::Ack(ack) => self.acknowledge(who, &ack),
            TopicCommand::CloseProducer(close) => self.close_producer(who, &close),
            TopicCommand::Unsubscribe(unsubscribe) => self.unsubscribe(who, &unsubscribe),
            TopicCommand::CloseConsumer(close) => Ok(self.close_consumer(who, &close)),
            TopicCommand::Redeliver(redeliver) => {
                self.redeliver(who, &redeliver);
                Ok(Answer::Nothing)
            }
        };
        answer.unwrap_or(Answer::NoMemory)
    }
}

/// A consumer, by its session and its id there.
pub(crate) fn key_of(session: u64, id: u64) -> ConsumerKey
    ensures { result ≡ key_of session id }
{
    ConsumerKey { session, id }
}

/// Whether an entry is neither compressed nor delayed, with as many messages as an entry may have.
fn is_plain_entry(metadata: &MessageMeta) -> bool
    ensures { result ≡ is_plain_entry metadata.now }
{
    metadata.compression == 0 && metadata.deliver_at_time.is_none() && has_message_count(metadata)
}

fn is_receipt(reply: &Reply) -> bool
    ensures { result ≡ is_receipt reply.now }
{
    match reply {
        Reply::SendReceipt {
            producer_id: _,
            sequence_id: _,
            message_id: _,
        } => true,
        Reply::Connected
        | Reply::ProducerSuccess {
            request_id: _,
            producer_name: _,
        }
        | Reply::SendError {
            producer_id: _,
            sequence_id: _,
            error: _,
        }
        | Reply::Message {
            consumer_id: _,
            message_id: _,
            redelivery_count: _,
        }
        | Reply::Success { request_id: _ }
        | Reply::Error {
            request_id: _,
            error: _,
        }
        | Reply::PartitionedMetadataResponse {
            request_id: _,
            error: _,
        }
        | Reply::LookupResponse {
            request_id: _,
            service_url: _,
        }
        | Reply::AckResponse {
            consumer_id: _,
            error: _,
            request_id: _,
        }
        | Reply::Pong => false,
    }
}
