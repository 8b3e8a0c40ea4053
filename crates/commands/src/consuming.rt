ghost use Rattle.std.specs.Prelude.{◌≡◌};
ghost use Rattle.commands.specs.Reading.{Reads};
ghost use Rattle.commands.specs.Consuming.{subscription_type, initial_position, ack_type, subscribe_numbers, subscribe_of, ack_of, flow_of, unsubscribe_of};

use crate::fault::CommandFault;
use crate::held::Held;
use crate::key_shared::{KeySharedMeta, read_key_shared_meta_field};
use crate::kinds::required;
use crate::message::Message;
use crate::message_ids::{read_message_id_field, read_message_ids};
use crate::sequence::Sequence;
use crate::text::Text;
use ids::MessageIdData;
use std::alloc::Global;

/// How a subscription's consumers share its messages (PulsarApi.proto, CommandSubscribe.SubType).
#[derive(Clone, Copy, Debug, PartialEq, Eq)]
pub enum SubscriptionType {
    Exclusive,
    Shared,
    Failover,
    KeyShared,
}

/// Where a new subscription begins (PulsarApi.proto, CommandSubscribe.InitialPosition).
#[derive(Clone, Copy, Debug, PartialEq, Eq)]
pub enum InitialPosition {
    Latest,
    Earliest,
}

/// A client asks for a consumer of a topic's subscription (PulsarApi.proto, CommandSubscribe).
#[derive(Drop)]
pub struct Subscribe {
    pub topic: Text,
    pub subscription: Text,
    pub subscription_type: SubscriptionType,
    pub consumer_id: u64,
    pub request_id: u64,
    pub durable: bool,
    pub start_message_id: Option<MessageIdData>,
    pub initial_position: InitialPosition,
    pub key_shared_meta: Option<KeySharedMeta>,
}

/// The fields of a SUBSCRIBE that are let go without a call.
#[derive(Clone, Copy)]
struct SubscribeNumbers {
    subscription_type: SubscriptionType,
    consumer_id: u64,
    request_id: u64,
    durable: bool,
    start_message_id: Option<MessageIdData>,
    initial_position: InitialPosition,
}

/// Whether the messages of an acknowledgement are meant one by one, or all up to the last
/// (PulsarApi.proto, CommandAck.AckType).
#[derive(Clone, Copy, Debug, PartialEq, Eq)]
pub enum AckType {
    Individual,
    Cumulative,
}

/// A consumer acknowledges messages (PulsarApi.proto, CommandAck).
#[derive(Drop)]
pub struct Ack {
    pub consumer_id: u64,
    pub ack_type: AckType,
    /// The ids in the order in which they stand, repeated ones too.
    pub message_ids: Sequence<MessageIdData>,
    pub request_id: Option<u64>,
}

/// A consumer grants so many messages more (PulsarApi.proto, CommandFlow).
#[derive(Clone, Copy, Debug, PartialEq, Eq)]
pub struct Flow {
    pub consumer_id: u64,
    pub message_permits: u32,
}

/// A client removes the subscription of a consumer (PulsarApi.proto, CommandUnsubscribe).
#[derive(Clone, Copy, Debug, PartialEq, Eq)]
pub struct Unsubscribe {
    pub consumer_id: u64,
    pub request_id: u64,
}

fn subscription_type(number: u64) -> Result<SubscriptionType, CommandFault>
    ensures { result ≡ subscription_type number }
{
    match number {
        0 => Ok(SubscriptionType::Exclusive),
        1 => Ok(SubscriptionType::Shared),
        2 => Ok(SubscriptionType::Failover),
        3 => Ok(SubscriptionType::KeyShared),
        _ => Err(CommandFault::Unreadable),
    }
}

fn initial_position(number: u64) -> Result<InitialPosition, CommandFault>
    ensures { result ≡ initial_position number }
{
    match number {
        0 => Ok(InitialPosition::Latest),
        1 => Ok(InitialPosition::Earliest),
        _ => Err(CommandFault::Unreadable),
    }
}

fn ack_type(number: u64) -> Result<AckType, CommandFault>
    ensures { result ≡ ack_type number }
{
    match number {
        0 => Ok(AckType::Individual),
        1 => Ok(AckType::Cumulative),
        _ => Err(CommandFault::Unreadable),
    }
}

/// What a SUBSCRIBE says beside its texts and its ranges.
#[tactic(auto, unfolding(crate::specs::Consuming::subscribe_numbers))]
fn read_subscribe_numbers(
    alloc: Global,
    message: &Message<'_, '_>,
) -> Result<SubscribeNumbers, CommandFault>
    ensures { Reads result (subscribe_numbers message.now) }
{
    Ok(SubscribeNumbers {
        subscription_type: subscription_type(message.required_u64(3)?)?,
        consumer_id: message.required_u64(4)?,
        request_id: message.required_u64(5)?,
        durable: message.bool(8)?.unwrap_or(true),
        start_message_id: read_message_id_field(alloc, message, 9)?,
        initial_position: initial_position(message.u64(13)?.unwrap_or(0))?,
    })
}

/// The texts come last, so that little is let go where a field is refused.
#[tactic(auto, unfolding(crate::specs::Consuming::subscribe_of))]
pub fn read_subscribe(alloc: Global, bytes: &[u8]) -> Result<Subscribe, CommandFault>
    ensures { Reads result (subscribe_of bytes.now) }
{
    let mut held = [Held::Absent; 18];
    let message = Message::read(bytes, &mut held)?;
    let numbers = read_subscribe_numbers(alloc, &message)?;
    let key_shared_meta = read_key_shared_meta_field(alloc, &message, 17)?;
    let topic = message.required_text(alloc, 1)?;
    let subscription = message.required_text(alloc, 2)?;
    Ok(Subscribe {
        topic,
        subscription,
        subscription_type: numbers.subscription_type,
        consumer_id: numbers.consumer_id,
        request_id: numbers.request_id,
        durable: numbers.durable,
        start_message_id: numbers.start_message_id,
        initial_position: numbers.initial_position,
        key_shared_meta,
    })
}

#[tactic(auto, unfolding(crate::specs::Consuming::ack_of))]
pub fn read_ack(alloc: Global, bytes: &[u8]) -> Result<Ack, CommandFault>
    ensures { Reads result (ack_of bytes.now) }
{
    let mut held = [Held::Absent; 9];
    let message = Message::read(bytes, &mut held)?;
    Ok(Ack {
        consumer_id: message.required_u64(1)?,
        ack_type: ack_type(message.required_u64(2)?)?,
        message_ids: read_message_ids(alloc, &message, 3)?,
        request_id: message.u64(8)?,
    })
}

#[tactic(auto, unfolding(crate::specs::Consuming::flow_of))]
pub fn read_flow(bytes: &[u8]) -> Result<Flow, CommandFault>
    ensures { result ≡ flow_of bytes.now }
{
    let mut held = [Held::Absent; 3];
    let message = Message::read(bytes, &mut held)?;
    Ok(Flow {
        consumer_id: message.required_u64(1)?,
        message_permits: required(message.u32(2)?)?,
    })
}

#[tactic(auto, unfolding(crate::specs::Consuming::unsubscribe_of))]
pub fn read_unsubscribe(bytes: &[u8]) -> Result<Unsubscribe, CommandFault>
    ensures { result ≡ unsubscribe_of bytes.now }
{
    let mut held = [Held::Absent; 3];
    let message = Message::read(bytes, &mut held)?;
    Ok(Unsubscribe {
        consumer_id: message.required_u64(1)?,
        request_id: message.required_u64(2)?,
    })
}
