ghost use Rattle.std.specs.Prelude.{◌≡◌};
ghost use Rattle.commands.specs.Reading.{Reads};
ghost use Rattle.commands.specs.GivingBack.{close_consumer_of, redeliver_of};

use crate::fault::CommandFault;
use crate::held::Held;
use crate::message::Message;
use crate::message_ids::read_message_ids;
use crate::sequence::Sequence;
use ids::MessageIdData;
use std::alloc::Global;

/// A client closes a consumer (PulsarApi.proto, CommandCloseConsumer).
#[derive(Clone, Copy, Debug, PartialEq, Eq)]
pub struct CloseConsumer {
    pub consumer_id: u64,
    pub request_id: u64,
}

/// A consumer gives messages back that it hasn't acknowledged: these, or all of them where no id is named
/// (PulsarApi.proto, CommandRedeliverUnacknowledgedMessages).
#[derive(Drop)]
pub struct Redeliver {
    pub consumer_id: u64,
    /// The ids in the order in which they stand, repeated ones too.
    pub message_ids: Sequence<MessageIdData>,
}

#[tactic(auto, unfolding(crate::specs::GivingBack::close_consumer_of))]
pub fn read_close_consumer(bytes: &[u8]) -> Result<CloseConsumer, CommandFault>
    ensures { result ≡ close_consumer_of bytes.now }
{
    let mut held = [Held::Absent; 3];
    let message = Message::read(bytes, &mut held)?;
    Ok(CloseConsumer {
        consumer_id: message.required_u64(1)?,
        request_id: message.required_u64(2)?,
    })
}

#[tactic(auto, unfolding(crate::specs::GivingBack::redeliver_of))]
pub fn read_redeliver(alloc: Global, bytes: &[u8]) -> Result<Redeliver, CommandFault>
    ensures { Reads result (redeliver_of bytes.now) }
{
    let mut held = [Held::Absent; 3];
    let message = Message::read(bytes, &mut held)?;
    Ok(Redeliver {
        consumer_id: message.required_u64(1)?,
        message_ids: read_message_ids(alloc, &message, 2)?,
    })
}
