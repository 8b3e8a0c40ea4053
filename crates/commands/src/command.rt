ghost use Rattle.std.specs.Prelude.{◌≡◌};
ghost use Rattle.commands.specs.Reading.{Reads};
ghost use Rattle.commands.specs.Commands.{command_type, command_in, command_of};

use crate::connection::{Connect, read_connect, read_empty};
use crate::consuming::{
    Ack, Flow, Subscribe, Unsubscribe, read_ack, read_flow, read_subscribe, read_unsubscribe,
};
use crate::fault::CommandFault;
use crate::giving_back::{CloseConsumer, Redeliver, read_close_consumer, read_redeliver};
use crate::held::Held;
use crate::lookup::{
    LookupTopic, PartitionedTopicMetadata, read_lookup_topic, read_partitioned_topic_metadata,
};
use crate::message::Message;
use crate::producing::{
    CloseProducer, Producer, Send, read_close_producer, read_producer, read_send,
};
use std::alloc::Global;

/// What a client says.
#[derive(Drop)]
pub enum Command {
    Connect(Connect),
    Subscribe(Subscribe),
    Producer(Producer),
    Send(Send),
    Ack(Ack),
    Flow(Flow),
    Unsubscribe(Unsubscribe),
    CloseProducer(CloseProducer),
    CloseConsumer(CloseConsumer),
    Ping,
    Pong,
    RedeliverUnacknowledgedMessages(Redeliver),
    PartitionedMetadata(PartitionedTopicMetadata),
    Lookup(LookupTopic),
    /// A command of another type, of which nothing but the type is read.
    Other(u64),
}

/// The client commands that are known.
#[derive(Clone, Copy)]
enum CommandType {
    Connect,
    Subscribe,
    Producer,
    Send,
    Ack,
    Flow,
    Unsubscribe,
    CloseProducer,
    CloseConsumer,
    Ping,
    Pong,
    RedeliverUnacknowledgedMessages,
    PartitionedMetadata,
    Lookup,
}

fn command_type(number: u64) -> Option<CommandType>
    ensures { result ≡ command_type number }
{
    match number {
        2 => Some(CommandType::Connect),
        4 => Some(CommandType::Subscribe),
        5 => Some(CommandType::Producer),
        6 => Some(CommandType::Send),
        10 => Some(CommandType::Ack),
        11 => Some(CommandType::Flow),
        12 => Some(CommandType::Unsubscribe),
        15 => Some(CommandType::CloseProducer),
        16 => Some(CommandType::CloseConsumer),
        18 => Some(CommandType::Ping),
        19 => Some(CommandType::Pong),
        20 => Some(CommandType::RedeliverUnacknowledgedMessages),
        21 => Some(CommandType::PartitionedMetadata),
        23 => Some(CommandType::Lookup),
        _ => None,
    }
}

#[tactic(auto, unfolding(crate::specs::Commands::command_in))]
fn read_body(alloc: Global, kind: CommandType, body: &[u8]) -> Result<Command, CommandFault>
    ensures { Reads result (command_in kind body.now) }
{
    match kind {
        CommandType::Connect => Ok(Command::Connect(read_connect(alloc, body)?)),
        CommandType::Subscribe => Ok(Command::Subscribe(read_subscribe(alloc, body)?)),
        CommandType::Producer => Ok(Command::Producer(read_producer(alloc, body)?)),
        CommandType::Send => Ok(Command::Send(read_send(body)?)),
        CommandType::Ack => Ok(Command::Ack(read_ack(alloc, body)?)),
        CommandType::Flow => Ok(Command::Flow(read_flow(body)?)),
        CommandType::Unsubscribe => Ok(Command::Unsubscribe(read_unsubscribe(body)?)),
        CommandType::CloseProducer => Ok(Command::CloseProducer(read_close_producer(body)?)),
        CommandType::CloseConsumer => Ok(Command::CloseConsumer(read_close_consumer(body)?)),
        CommandType::Ping => {
            read_empty(body)?;
            Ok(Command::Ping)
        }
        CommandType::Pong => {
            read_empty(body)?;
            Ok(Command::Pong)
        }
        CommandType::RedeliverUnacknowledgedMessages => {
            Ok(Command::RedeliverUnacknowledgedMessages(read_redeliver(alloc, body)?))
        }
        CommandType::PartitionedMetadata => {
            Ok(Command::PartitionedMetadata(read_partitioned_topic_metadata(alloc, body)?))
        }
        CommandType::Lookup => Ok(Command::Lookup(read_lookup_topic(alloc, body)?)),
    }
}

/// The command of these bytes (PulsarApi.proto, BaseCommand): by its last `type` k, the value of field k.
/// Fields other than these two are skipped.
#[tactic(auto, unfolding(crate::specs::Commands::command_of))]
pub fn read_command(alloc: Global, bytes: &[u8]) -> Result<Command, CommandFault>
    ensures { Reads result (command_of bytes.now) }
{
    let mut held = [Held::Absent; 12];
    let message = Message::read(bytes, &mut held)?;
    let number = message.required_u64(1)?;
    let Some(kind) = command_type(number) else {
        return Ok(Command::Other(number));
    };
    let Some(body) = message.message(alloc, number as u32)? else {
        return Err(CommandFault::Missing);
    };
    read_body(alloc, kind, body.as_slice())
}
