ghost use Rattle.std.specs.Prelude.{◌≡◌, ◌≤◌, ◌<◌, [], ◌∷◌, filter, Some, IfSome, IfNone, IfOk, OnOk, OnErr, vec_len, vec_capacity, length};
ghost use Rattle.commands.specs.declared.reply.Reply.TheVariants.{Error, SendError};
ghost use Rattle.commands.specs.declared.server_error.ServerError.TheVariants.{NotAllowedError};
ghost use Rattle.session.specs.declared.port.Found.TheVariants.{Topic};
ghost use Rattle.topic_core.specs.Steps.{first_standing};
ghost use Rattle.session.specs.Client.{Client, Play, play, plain, Says, Answered, Speaks};
ghost use Rattle.session.specs.Table.{topic_of, IsUnknown};
ghost use Rattle.session.specs.Producing.{is_live, given_len, own_refusals, own_name, name_for, producer_command, is_success, with_entry, with_live_producers, Opens, FoundStep, Finds, ProducerOf, ProducerStep, plain_entry, sent_entry, send_command, SendStep, CloseStep};

use crate::entry::Entry;
use crate::fault::Fault;
use crate::port::{Found, Port};
use crate::session::Session;
use crate::table::{has_entry, known_topic};
use crate::told::hear;
use crate::topic_name::read_name;
use commands::{CloseProducer, Producer, Reply, ReplyText, Send, ServerError, Text};
use frames::FrameEntry;
use names::is_topic_name;
use std::alloc::{AllocError, Global};
use topic_core::{Answer, PlainEntry, SentEntry, TopicCommand};

/// Our own rule: a session has at most so many producers.
const MOST_PRODUCERS: usize = 64;

/// Our own rule: a producer's name has at most so many bytes.
const LONGEST_NAME: usize = 255;

impl Session {
    /// Works PRODUCER ("PulsarApi.proto, CommandProducer").
    pub(crate) fn open<P: Port>(&mut self, asked: Producer, port: &mut P, out: &mut Vec<u8>)
        ensures step { P.sole port.old → ProducerStep (P.fails port.old port.new) (play self.old (P.broker port.old) out.old.items) asked
            (play self.new (P.broker port.new) out.new.items) }
        ensures speaks { Speaks self.old out.old.items self.new out.new.items }
        ensures works { P.works (asked.topic ∷ []) port.old port.new }
    {
        forget_dead(&mut self.producers, self.number, port);
        self.open_new(asked, port, out)
    }

    /// Works PRODUCER, where the session knows just the producers that it has.
    fn open_new<P: Port>(&mut self, asked: Producer, port: &mut P, out: &mut Vec<u8>)
        ensures step { P.sole port.old → ProducerOf (P.fails port.old port.new) (play self.old (P.broker port.old) out.old.items) asked
            (play self.new (P.broker port.new) out.new.items) }
        ensures speaks { Speaks self.old out.old.items self.new out.new.items }
        ensures works { P.works (asked.topic ∷ []) port.old port.new }
    {
        if let Some(error) = self.own_refusal(&asked) {
            self.refuse_producer(asked.request_id, error, out);
            drop(asked);
            return;
        }
        let Ok(name) = read_name(self.alloc, asked.topic.as_str()) else {
            drop(asked);
            return self.end_by(Fault::NoMemory);
        };
        let found = port.find(&name);
        drop(name);
        match found {
            Found::Topic(topic) => self.open_on(topic, asked, port, out),
            Found::TooMany => {
                self.refuse_producer(asked.request_id, ServerError::TooManyRequests, out);
                drop(asked);
            }
            Found::Failed => {
                self.refuse_producer(asked.request_id, ServerError::PersistenceError, out);
                drop(asked);
            }
            Found::NoMemory => {
                drop(asked);
                self.end_by(Fault::NoMemory)
            }
        }
    }

    fn own_refusal(&self, asked: &Producer) -> Option<ServerError>
        ensures { result ≡ first_standing (own_refusals self.now.producers asked.now) }
    {
        own_refusal(self.producers.as_slice(), asked)
    }

    /// Answers a request with an error.
    fn refuse_producer(&mut self, request_id: u64, error: ServerError, out: &mut Vec<u8>)
        ensures says { Says self.old out.old.items (plain (Error request_id error)) self.new out.new.items }
        ensures speaks { Speaks self.old out.old.items self.new out.new.items }
    {
        let reply = Reply::Error { request_id, error };
        self.say(&reply, out);
        drop(reply);
    }

    fn open_on<P: Port>(&mut self, topic: u64, asked: Producer, port: &mut P, out: &mut Vec<u8>)
        requires there { topic < P.count port.old }
        requires short { given_len asked.producer_name ≤ 255 }
        ensures step { P.sole port.old → FoundStep (P.fails port.old port.new) (play self.old (P.broker port.old) out.old.items) asked (Topic topic)
            (play self.new (P.broker port.new) out.new.items) }
        ensures speaks { Speaks self.old out.old.items self.new out.new.items }
        ensures passes { P.passes port.old port.new }
    {
        if self.try_open(topic, asked, port, out).is_err() {
            self.end_by(Fault::NoMemory);
        }
    }

    /// Has the topic work PRODUCER, unless memory is refused before.
    fn try_open<P: Port>(
        &mut self,
        topic: u64,
        asked: Producer,
        port: &mut P,
        out: &mut Vec<u8>,
    ) -> Result<(), AllocError>
        requires there { topic < P.count port.old }
        requires short { given_len asked.producer_name ≤ 255 }
        ensures ok { OnOk result (P.sole port.old → Opens (play self.old (P.broker port.old) out.old.items) topic asked
            (play self.new (P.broker port.new) out.new.items)) }
        ensures err { OnErr result ((self.new ≡ self.old) × (out.new.items ≡ out.old.items)
            × (P.sole port.old → P.broker port.new ≡ P.broker port.old)) }
        ensures speaks { Speaks self.old out.old.items self.new out.new.items }
        ensures passes { P.passes port.old port.new }
    {
        let Producer {
            topic: asked_topic,
            producer_id,
            request_id,
            producer_name,
        } = asked;
        drop(asked_topic);
        let producer_name = name_for(self.alloc, self.number, producer_id, producer_name)?;
        self.producers.reserve(1)?;
        let command = TopicCommand::Producer {
            producer_id,
            request_id,
            producer_name,
        };
        let answer = hear(port.command(topic, self.number, command));
        keep(&mut self.producers, is_success(&answer), producer_id, topic);
        self.answer(&answer, out);
        drop(answer);
        Ok(())
    }

    /// The topic of a producer that the session has, where it is there.
    fn producer_topic<P: Port>(&self, producer_id: u64, port: &P) -> Option<u64>
        ensures topic { IfSome result (λ topic. topic_of self.now.producers producer_id ≡ Some topic) }
        ensures there { IfSome result (λ topic. topic < P.count port.now) }
        ensures unknown { IfNone result (IsUnknown self.now.producers producer_id (P.count port.now)) }
    {
        known_topic(self.producers.as_slice(), producer_id, port)
    }

    fn refuse_send(&mut self, asked: Send, out: &mut Vec<u8>)
        ensures says { Says self.old out.old.items (plain (SendError asked.producer_id asked.sequence_id NotAllowedError)) self.new out.new.items }
        ensures speaks { Speaks self.old out.old.items self.new out.new.items }
    {
        let reply = Reply::SendError {
            producer_id: asked.producer_id,
            sequence_id: asked.sequence_id,
            error: ServerError::NotAllowedError,
        };
        self.say(&reply, out);
        drop(reply);
    }

    /// Works SEND ("PulsarApi.proto, CommandSend").
    pub(crate) fn send<P: Port>(
        &mut self,
        asked: Send,
        entry: FrameEntry,
        port: &mut P,
        out: &mut Vec<u8>,
    )
        ensures step { P.sole port.old → SendStep (play self.old (P.broker port.old) out.old.items) asked entry
            (play self.new (P.broker port.new) out.new.items) }
        ensures speaks { Speaks self.old out.old.items self.new out.new.items }
        ensures passes { P.passes port.old port.new }
    {
        let Some(entry) = sent_entry(entry) else {
            return self.end_by(Fault::BadPayload);
        };
        let Some(topic) = self.producer_topic(asked.producer_id, port) else {
            drop(entry);
            return self.refuse_send(asked, out);
        };
        let command = TopicCommand::Send(topic_core::Send {
            producer_id: asked.producer_id,
            sequence_id: asked.sequence_id,
            entry,
        });
        let answer = hear(port.command(topic, self.number, command));
        self.answer(&answer, out);
        drop(answer);
    }

    /// Works CLOSE_PRODUCER ("PulsarApi.proto, CommandCloseProducer"). The id stays in use until the topic has closed the
    /// producer.
    pub(crate) fn close<P: Port>(&mut self, asked: CloseProducer, port: &mut P, out: &mut Vec<u8>)
        ensures step { P.sole port.old → CloseStep (play self.old (P.broker port.old) out.old.items) asked
            (play self.new (P.broker port.new) out.new.items) }
        ensures speaks { Speaks self.old out.old.items self.new out.new.items }
        ensures passes { P.passes port.old port.new }
    {
        let Some(topic) = self.producer_topic(asked.producer_id, port) else {
            return self.refuse_producer(asked.request_id, ServerError::NotAllowedError, out);
        };
        let command = TopicCommand::CloseProducer(asked);
        let answer = hear(port.command(topic, self.number, command));
        self.answer(&answer, out);
        drop(answer);
    }
}

/// Whether the session still has this producer on its topic.
fn is_live<P: Port>(port: &P, who: u64, entry: &Entry) -> bool
    ensures { P.sole port.now → result ≡ is_live (P.broker port.now) who entry.now }
{
    if entry.topic >= port.topics() {
        return false;
    }
    hear(port.has_producer(entry.topic, who, entry.id))
}

/// Drops the producers that the session doesn't have any more.
fn forget_dead<P: Port>(producers: &mut Vec<Entry>, who: u64, port: &P)
    ensures { P.sole port.now → producers.new.items ≡ filter (is_live (P.broker port.now) who) producers.old.items }
{
    producers.retain(|entry| is_live(port, who, entry));
}

fn given_len(name: &Option<Text>) -> usize
    ensures { result ≡ given_len name.now }
{
    match name {
        None => 0,
        Some(name) => name.as_str().len(),
    }
}

fn own_refusal(producers: &[Entry], asked: &Producer) -> Option<ServerError>
    ensures { result ≡ first_standing (own_refusals producers.now asked.now) }
{
    if has_entry(producers, asked.producer_id) {
        return Some(ServerError::NotAllowedError);
    }
    if producers.len() >= MOST_PRODUCERS {
        return Some(ServerError::TooManyRequests);
    }
    if !is_topic_name(asked.topic.as_str().as_bytes()) {
        return Some(ServerError::InvalidTopicName);
    }
    if given_len(&asked.producer_name) > LONGEST_NAME {
        return Some(ServerError::NotAllowedError);
    }
    None
}

fn own_name(alloc: Global, who: u64, producer_id: u64) -> Result<ReplyText, AllocError>
    ensures { IfOk result (λ name. name ≡ own_name who producer_id) }
{
    Ok(ReplyText::new(format!(in alloc; "s{who}-p{producer_id}")?))
}

/// The name of a new producer: the given one, or `sS-pP` of session S and producer id P where none or an empty
/// one was given. Our own rule.
fn name_for(
    alloc: Global,
    who: u64,
    producer_id: u64,
    given: Option<Text>,
) -> Result<ReplyText, AllocError>
    requires { given_len given ≤ 255 }
    ensures { IfOk result (λ name. name ≡ name_for who producer_id given) }
{
    let Some(given) = given else {
        return own_name(alloc, who, producer_id);
    };
    let given = given.into_string();
    if given.is_empty() {
        return own_name(alloc, who, producer_id);
    }
    Ok(ReplyText::new(given))
}

fn is_success(answer: &Answer) -> bool
    ensures { result ≡ is_success answer.now }
{
    match answer {
        Answer::Now(Reply::ProducerSuccess { .. }) => true,
        Answer::Now(
            Reply::Connected
            | Reply::SendReceipt { .. }
            | Reply::SendError { .. }
            | Reply::Error { .. }
            | Reply::Message { .. }
            | Reply::Success { .. }
            | Reply::PartitionedMetadataResponse { .. }
            | Reply::LookupResponse { .. }
            | Reply::AckResponse { .. }
            | Reply::Pong,
        )
        | Answer::Later
        | Answer::Nothing
        | Answer::NoMemory => false,
    }
}

/// Keeps the topic of a producer that was accepted, for which there is room.
fn keep(producers: &mut Vec<Entry>, accepted: bool, producer_id: u64, topic: u64)
    requires { vec_len producers.old < vec_capacity producers.old }
    ensures { producers.new.items ≡ with_entry producers.old.items accepted producer_id topic }
{
    if accepted {
        producers
            .push(Entry {
                id: producer_id,
                topic,
            })
            .unwrap();
    }
}

/// The entry as a topic takes it.
fn plain_entry(entry: frames::PlainEntry) -> PlainEntry
    ensures { result ≡ plain_entry entry }
{
    let frames::PlainEntry { bytes, metadata } = entry;
    PlainEntry { bytes, metadata }
}

fn sent_entry(entry: FrameEntry) -> Option<SentEntry>
    ensures { result ≡ sent_entry entry }
{
    match entry {
        FrameEntry::Nothing => None,
        FrameEntry::Checksummed => Some(SentEntry::Checksummed),
        FrameEntry::Entry(entry) => Some(SentEntry::Plain(plain_entry(entry))),
    }
}
