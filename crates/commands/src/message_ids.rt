ghost use Rattle.std.specs.Prelude.{◌≡◌, [], ◌∷◌};
ghost use Rattle.commands.specs.Reading.{Reads};
ghost use Rattle.commands.specs.Message.{each, message_value_field, repeated_field};
ghost use Rattle.commands.specs.MessageIds.{message_id_of};

use crate::fault::CommandFault;
use crate::held::Held;
use crate::message::Message;
use crate::sequence::Sequence;
use ids::MessageIdData;
use proto_fields::ByteSlice;
use std::alloc::Global;

/// A message id as a client names it (PulsarApi.proto, MessageIdData).
#[tactic(auto, unfolding(crate::specs::MessageIds::message_id_of))]
fn read_message_id(bytes: &[u8]) -> Result<MessageIdData, CommandFault>
    ensures { result ≡ message_id_of bytes.now }
{
    let mut held = [Held::Absent; 6];
    let message = Message::read(bytes, &mut held)?;
    Ok(MessageIdData {
        ledger_id: message.required_u64(1)?,
        entry_id: message.required_u64(2)?,
        partition: message.i32(3)?.unwrap_or(-1),
        batch_index: message.i32(4)?.unwrap_or(-1),
        has_ack_set: message.has(5)?,
    })
}

/// The message id of the only part.
fn read_only(alloc: Global, part: &[u8]) -> Result<Sequence<MessageIdData>, CommandFault>
    ensures { Reads result (each message_id_of (part.now ∷ [])) }
{
    let mut only = Vec::with_capacity(alloc, 1)?;
    only.push(read_message_id(part)?)?;
    Ok(Sequence::new(only))
}

fn read_each(
    alloc: Global,
    parts: &[ByteSlice<'_>],
) -> Result<Sequence<MessageIdData>, CommandFault>
    ensures { Reads result (each message_id_of parts.now) }
{
    let mut ids = Vec::new(alloc);
    for part in parts {
        ids.push(read_message_id(part.as_slice())?)?;
    }
    Ok(Sequence::new(ids))
}

/// The message id of a field, if there is one.
#[tactic(auto, unfolding(crate::specs::Message::message_value_field))]
pub fn read_message_id_field(
    alloc: Global,
    message: &Message<'_, '_>,
    number: u32,
) -> Result<Option<MessageIdData>, CommandFault>
    ensures { Reads result (message_value_field message_id_of number message.now) }
{
    match message.message(alloc, number)? {
        None => Ok(None),
        Some(body) => Ok(Some(read_message_id(body.as_slice())?)),
    }
}

/// The message ids of a repeated field.
#[tactic(auto, unfolding(crate::specs::Message::repeated_field))]
pub fn read_message_ids(
    alloc: Global,
    message: &Message<'_, '_>,
    number: u32,
) -> Result<Sequence<MessageIdData>, CommandFault>
    ensures { Reads result (repeated_field message_id_of number message.now) }
{
    if let Some(part) = message.only(number) {
        return read_only(alloc, part.as_slice());
    }
    let parts = message.parts(alloc, number)?;
    read_each(alloc, parts.as_slice())
}
