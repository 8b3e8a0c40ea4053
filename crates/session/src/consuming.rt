ghost use Rattle.std.specs.Prelude.{◌≡◌, ◌<◌, List, [], ◌∷◌, ℕ, nat_lt, Some, true, false, IfSome, IfNone, OnOk, OnErr, length};
ghost use Rattle.std.specs.List.{position_or_len};
ghost use Rattle.commands.specs.declared.reply.Reply.TheVariants.{Error};
ghost use Rattle.session.specs.declared.port.Found.TheVariants.{Topic};
ghost use Rattle.topic_core.specs.Steps.{first_standing};
ghost use Rattle.session.specs.declared.entry.Entry.{Entry as TheEntry};
ghost use Rattle.session.specs.Broker.{Broker};
ghost use Rattle.session.specs.Client.{Client, Play, play, plain, Says, Speaks};
ghost use Rattle.session.specs.HashRanges.{ranges_of};
ghost use Rattle.session.specs.Table.{has_entry, topic_of, IsUnknown};
ghost use Rattle.session.specs.Consuming.{mode_of, own_refusals, IsNamed, subscribe_command, is_later, with_entry, Subscribes, FoundStep, SubscribeOf, SubscribeStep, granting, FlowStep, RefusesAck, AckStep, UnsubscribeStep};

use crate::consumer_entry::ConsumerEntry;
use crate::consumers::{Consumers, has_consumer};
use crate::fault::Fault;
use crate::hash_ranges::ranges_of;
use crate::port::{Found, Port};
use crate::session::Session;
use crate::table::if_there;
use crate::told::hear;
use crate::topic_name::read_name;
use commands::{Ack, Flow, Reply, ServerError, Subscribe, SubscriptionType, Unsubscribe};
use holds::SlotRanges;
use names::is_topic_name;
use permits::TooManyPermits;
use records::is_subscription_name;
use std::alloc::AllocError;
use subscriptions::Mode;
use topic_core::{Answer, TopicCommand};

/// Our own rule: a session has at most so many consumers.
const MOST_CONSUMERS: usize = 64;

impl Session {
    /// Works SUBSCRIBE ("PulsarApi.proto, CommandSubscribe").
    pub(crate) fn subscribe<P: Port>(&mut self, asked: Subscribe, port: &mut P, out: &mut Vec<u8>)
        ensures step { P.sole port.old → SubscribeStep (P.fails port.old port.new) (play self.old (P.broker port.old) out.old.items) asked
            (play self.new (P.broker port.new) out.new.items) }
        ensures speaks { Speaks self.old out.old.items self.new out.new.items }
        ensures works { P.works (asked.topic ∷ []) port.old port.new }
    {
        self.consumers.forget_dead(self.number, port);
        self.subscribe_new(asked, port, out)
    }

    /// Works SUBSCRIBE, where the session knows just the consumers that it has.
    fn subscribe_new<P: Port>(&mut self, asked: Subscribe, port: &mut P, out: &mut Vec<u8>)
        ensures step { P.sole port.old → SubscribeOf (P.fails port.old port.new) (play self.old (P.broker port.old) out.old.items) asked
            (play self.new (P.broker port.new) out.new.items) }
        ensures speaks { Speaks self.old out.old.items self.new out.new.items }
        ensures works { P.works (asked.topic ∷ []) port.old port.new }
    {
        if let Some(error) = self.own_consumer_refusal(&asked) {
            self.refuse_consumer(asked.request_id, error, out);
            drop(asked);
            return;
        }
        let Ok(name) = read_name(self.alloc, asked.topic.as_str()) else {
            drop(asked);
            return self.end_by(Fault::NoMemory);
        };
        let found = port.find(&name);
        drop(name);
        match found {
            Found::Topic(topic) => self.subscribe_on(topic, asked, port, out),
            Found::TooMany => {
                self.refuse_consumer(asked.request_id, ServerError::TooManyRequests, out);
                drop(asked);
            }
            Found::Failed => {
                self.refuse_consumer(asked.request_id, ServerError::PersistenceError, out);
                drop(asked);
            }
            Found::NoMemory => {
                drop(asked);
                self.end_by(Fault::NoMemory)
            }
        }
    }

    fn own_consumer_refusal(&self, asked: &Subscribe) -> Option<ServerError>
        ensures { result ≡ first_standing (own_refusals self.now.consumers asked.now) }
    {
        own_refusal(self.consumers.as_slice(), asked)
    }

    /// Answers a request with an error.
    pub(crate) fn refuse_consumer(&mut self, request_id: u64, error: ServerError, out: &mut Vec<u8>)
        ensures says { Says self.old out.old.items (plain (Error request_id error)) self.new out.new.items }
        ensures speaks { Speaks self.old out.old.items self.new out.new.items }
    {
        let reply = Reply::Error { request_id, error };
        self.say(&reply, out);
        drop(reply);
    }

    fn subscribe_on<P: Port>(
        &mut self,
        topic: u64,
        asked: Subscribe,
        port: &mut P,
        out: &mut Vec<u8>,
    )
        requires there { topic < P.count port.old }
        requires fresh { has_entry self.old.consumers asked.consumer_id ≡ false }
        requires named { IsNamed asked }
        ensures step { P.sole port.old → FoundStep (P.fails port.old port.new) (play self.old (P.broker port.old) out.old.items) asked (Topic topic)
            (play self.new (P.broker port.new) out.new.items) }
        ensures speaks { Speaks self.old out.old.items self.new out.new.items }
        ensures passes { P.passes port.old port.new }
    {
        if self.try_subscribe(topic, asked, port, out).is_err() {
            self.end_by(Fault::NoMemory);
        }
    }

    /// Has the topic work SUBSCRIBE, unless memory is refused before.
    fn try_subscribe<P: Port>(
        &mut self,
        topic: u64,
        asked: Subscribe,
        port: &mut P,
        out: &mut Vec<u8>,
    ) -> Result<(), AllocError>
        requires there { topic < P.count port.old }
        requires fresh { has_entry self.old.consumers asked.consumer_id ≡ false }
        requires named { IsNamed asked }
        ensures ok { OnOk result (P.sole port.old → Subscribes (play self.old (P.broker port.old) out.old.items) topic asked
            (play self.new (P.broker port.new) out.new.items)) }
        ensures err { OnErr result ((self.new ≡ self.old) × (out.new.items ≡ out.old.items)
            × (P.sole port.old → P.broker port.new ≡ P.broker port.old)) }
        ensures speaks { Speaks self.old out.old.items self.new out.new.items }
        ensures passes { P.passes port.old port.new }
    {
        let wanted = asked.key_shared_meta.as_ref();
        let ranges = match ranges_of(self.alloc, asked.subscription_type, wanted) {
            Ok(ranges) => ranges,
            Err(error) => {
                drop(asked);
                return Err(error);
            }
        };
        let place = match self.consumers.insert(asked.consumer_id, topic) {
            Ok(place) => place,
            Err(error) => {
                drop(asked);
                drop(ranges);
                return Err(error);
            }
        };
        let answer = hear(port.command(topic, self.number, subscribe_command(asked, ranges)));
        keep_if(&mut self.consumers, is_later(&answer), place, port);
        self.answer(&answer, out);
        drop(answer);
        Ok(())
    }

    /// The topic of a consumer that the session has, where it is there.
    #[inline(always)]
    pub(crate) fn consumer_topic<P: Port>(&self, consumer_id: u64, port: &P) -> Option<u64>
        ensures topic { IfSome result (λ topic. topic_of self.now.consumers consumer_id ≡ Some topic) }
        ensures there { IfSome result (λ topic. topic < P.count port.now) }
        ensures unknown { IfNone result (IsUnknown self.now.consumers consumer_id (P.count port.now)) }
    {
        if_there(self.consumers.topic_of(consumer_id), port)
    }

    /// Works FLOW ("PulsarApi.proto, CommandFlow").
    pub(crate) fn flow<P: Port>(&mut self, asked: Flow, port: &mut P, out: &mut Vec<u8>)
        ensures step { P.sole port.old → FlowStep (play self.old (P.broker port.old) out.old.items) asked
            (play self.new (P.broker port.new) out.new.items) }
        ensures speaks { Speaks self.old out.old.items self.new out.new.items }
        ensures passes { P.passes port.old port.new }
    {
        let Some(topic) = self.consumer_topic(asked.consumer_id, port) else {
            return;
        };
        let who = self.number();
        let permits = asked.message_permits;
        let granted = self
            .consumers
            .grant(asked.consumer_id, topic, who, permits, port);
        self.end_if_too_many(granted);
    }

    /// Permits beyond what a consumer may have in all end the session.
    fn end_if_too_many(&mut self, granted: Result<(), TooManyPermits>)
        ensures { self.new ≡ granting self.old granted }
    {
        if granted.is_err() {
            self.fault = Some(Fault::TooManyPermits);
        }
    }

    /// Works ACK ("PulsarApi.proto, CommandAck").
    #[inline(always)]
    pub(crate) fn ack<P: Port>(&mut self, asked: Ack, port: &mut P, out: &mut Vec<u8>)
        ensures step { P.sole port.old → AckStep (play self.old (P.broker port.old) out.old.items) asked
            (play self.new (P.broker port.new) out.new.items) }
        ensures speaks { Speaks self.old out.old.items self.new out.new.items }
        ensures passes { P.passes port.old port.new }
    {
        let Some(topic) = self.consumer_topic(asked.consumer_id, port) else {
            return self.refuse_ack(asked.request_id, asked.consumer_id, out);
        };
        let command = TopicCommand::Ack(asked);
        let answer = hear(port.command(topic, self.number, command));
        self.answer(&answer, out);
        drop(answer);
    }

    /// Answers the ACK of a consumer that the session doesn't have, where it asks for an answer.
    fn refuse_ack(&mut self, request_id: Option<u64>, consumer_id: u64, out: &mut Vec<u8>)
        ensures refuses { (b : Broker) → RefusesAck request_id (play self.old b out.old.items) consumer_id (play self.new b out.new.items) }
        ensures speaks { Speaks self.old out.old.items self.new out.new.items }
    {
        let Some(request_id) = request_id else {
            return;
        };
        let reply = Reply::AckResponse {
            consumer_id,
            error: Some(ServerError::ConsumerNotFound),
            request_id,
        };
        self.say(&reply, out);
        drop(reply);
    }

    /// Works UNSUBSCRIBE ("PulsarApi.proto, CommandUnsubscribe").
    pub(crate) fn unsubscribe<P: Port>(
        &mut self,
        asked: Unsubscribe,
        port: &mut P,
        out: &mut Vec<u8>,
    )
        ensures step { P.sole port.old → UnsubscribeStep (play self.old (P.broker port.old) out.old.items) asked
            (play self.new (P.broker port.new) out.new.items) }
        ensures speaks { Speaks self.old out.old.items self.new out.new.items }
        ensures passes { P.passes port.old port.new }
    {
        let Some(topic) = self.consumer_topic(asked.consumer_id, port) else {
            return self.refuse_consumer(asked.request_id, ServerError::ConsumerNotFound, out);
        };
        let command = TopicCommand::Unsubscribe(asked);
        let answer = hear(port.command(topic, self.number, command));
        self.answer(&answer, out);
        drop(answer);
    }
}

fn mode_of(kind: SubscriptionType) -> Mode
    ensures { result ≡ mode_of kind }
{
    match kind {
        SubscriptionType::Exclusive => Mode::Exclusive,
        SubscriptionType::Shared => Mode::Shared,
        SubscriptionType::Failover => Mode::Failover,
        SubscriptionType::KeyShared => Mode::KeyShared,
    }
}

fn own_refusal(consumers: &[ConsumerEntry], asked: &Subscribe) -> Option<ServerError>
    ensures { result ≡ first_standing (own_refusals consumers.now asked.now) }
{
    if has_consumer(consumers, asked.consumer_id) {
        return Some(ServerError::NotAllowedError);
    }
    if consumers.len() >= MOST_CONSUMERS {
        return Some(ServerError::TooManyRequests);
    }
    if !is_topic_name(asked.topic.as_str().as_bytes()) {
        return Some(ServerError::InvalidTopicName);
    }
    if !asked.durable || asked.start_message_id.is_some() {
        return Some(ServerError::NotAllowedError);
    }
    if !is_subscription_name(asked.subscription.as_str().as_bytes()) {
        return Some(ServerError::NotAllowedError);
    }
    None
}

/// What the session asks of the topic for a consumer with these hash ranges.
fn subscribe_command(asked: Subscribe, ranges: SlotRanges) -> TopicCommand
    requires named { IsNamed asked }
    requires ranges { ranges ≡ ranges_of asked.subscription_type asked.key_shared_meta }
    ensures { (named : IsNamed asked) → result ≡ subscribe_command asked named }
{
    TopicCommand::Subscribe(topic_core::Subscribe {
        consumer_id: asked.consumer_id,
        request_id: asked.request_id,
        subscription: asked.subscription,
        mode: mode_of(asked.subscription_type),
        ranges,
        initial: asked.initial_position,
    })
}

fn is_later(answer: &Answer) -> bool
    ensures { result ≡ is_later answer.now }
{
    match answer {
        Answer::Later => true,
        Answer::Now(_) | Answer::Nothing | Answer::NoMemory => false,
    }
}

/// Drops the consumer that was put at this place, where it wasn't accepted. Else it keeps the granter of its permits.
fn keep_if<P: Port>(consumers: &mut Consumers, accepted: bool, place: usize, port: &mut P)
    requires { place < length consumers.old }
    ensures entry { (earlier : List TheEntry) (id topic : ℕ) → place ≡ position_or_len (λ entry. nat_lt id entry.id) earlier → consumers.old ≡ with_entry earlier true id topic →
        consumers.new ≡ with_entry earlier accepted id topic }
    ensures same { P.sole port.old → P.broker port.new ≡ P.broker port.old }
    ensures passes { P.passes port.old port.new }
{
    if !accepted {
        return consumers.remove(place);
    }
    consumers.keep(place, port.take_granter());
}
