ghost use Rattle.std.specs.Prelude.{◌≡◌};
ghost use Rattle.commands.specs.Reading.{Reads};
ghost use Rattle.commands.specs.Producing.{producer_of, send_of, close_producer_of};

use crate::fault::CommandFault;
use crate::held::Held;
use crate::message::Message;
use crate::text::Text;
use std::alloc::Global;

/// A client asks for a producer of a topic (PulsarApi.proto, CommandProducer).
#[derive(Drop)]
pub struct Producer {
    pub topic: Text,
    pub producer_id: u64,
    pub request_id: u64,
    pub producer_name: Option<Text>,
}

/// A producer sends an entry, which stands behind the command (PulsarApi.proto, CommandSend).
#[derive(Clone, Copy, Debug, PartialEq, Eq)]
pub struct Send {
    pub producer_id: u64,
    pub sequence_id: u64,
    pub num_messages: i32,
}

/// A client closes a producer (PulsarApi.proto, CommandCloseProducer).
#[derive(Clone, Copy, Debug, PartialEq, Eq)]
pub struct CloseProducer {
    pub producer_id: u64,
    pub request_id: u64,
}

#[tactic(auto, unfolding(crate::specs::Producing::producer_of))]
pub fn read_producer(alloc: Global, bytes: &[u8]) -> Result<Producer, CommandFault>
    ensures { Reads result (producer_of bytes.now) }
{
    let mut held = [Held::Absent; 5];
    let message = Message::read(bytes, &mut held)?;
    Ok(Producer {
        topic: message.required_text(alloc, 1)?,
        producer_id: message.required_u64(2)?,
        request_id: message.required_u64(3)?,
        producer_name: message.text(alloc, 4)?,
    })
}

#[tactic(auto, unfolding(crate::specs::Producing::send_of))]
pub fn read_send(bytes: &[u8]) -> Result<Send, CommandFault>
    ensures { result ≡ send_of bytes.now }
{
    let mut held = [Held::Absent; 4];
    let message = Message::read(bytes, &mut held)?;
    Ok(Send {
        producer_id: message.required_u64(1)?,
        sequence_id: message.required_u64(2)?,
        num_messages: message.i32(3)?.unwrap_or(1),
    })
}

#[tactic(auto, unfolding(crate::specs::Producing::close_producer_of))]
pub fn read_close_producer(bytes: &[u8]) -> Result<CloseProducer, CommandFault>
    ensures { result ≡ close_producer_of bytes.now }
{
    let mut held = [Held::Absent; 3];
    let message = Message::read(bytes, &mut held)?;
    Ok(CloseProducer {
        producer_id: message.required_u64(1)?,
        request_id: message.required_u64(2)?,
    })
}
