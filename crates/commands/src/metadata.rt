ghost use Rattle.std.specs.Prelude.{◌≡◌, ◌≤◌, ◌<◌, ◌^◌, length};
ghost use Rattle.commands.specs.Reading.{Reads};
ghost use Rattle.commands.specs.Metadata.{meta_of, size_at, entry_of};

use crate::fault::CommandFault;
use crate::held::Held;
use crate::message::Message;
use crate::sequence::Sequence;
use crate::text::Text;
use std::alloc::Global;

/// What is known of an entry's metadata (PulsarApi.proto, MessageMetadata).
#[derive(Drop)]
pub struct MessageMeta {
    pub producer_name: Text,
    pub sequence_id: u64,
    pub publish_time: u64,
    pub partition_key: Option<Text>,
    /// The number of the compression, whether it is one of the standard's or not.
    pub compression: u64,
    pub num_messages_in_batch: i32,
    pub ordering_key: Option<Sequence<u8>>,
    pub deliver_at_time: Option<i64>,
}

/// The metadata of an entry. Its texts come last, so that little is let go where a field is refused.
#[tactic(auto, unfolding(crate::specs::Metadata::meta_of))]
pub fn read_meta(alloc: Global, bytes: &[u8]) -> Result<MessageMeta, CommandFault>
    ensures { Reads result (meta_of bytes.now) }
{
    let mut held = [Held::Absent; 20];
    let message = Message::read(bytes, &mut held)?;
    Ok(MessageMeta {
        sequence_id: message.required_u64(2)?,
        publish_time: message.required_u64(3)?,
        compression: message.u64(8)?.unwrap_or(0),
        num_messages_in_batch: message.i32(11)?.unwrap_or(1),
        deliver_at_time: message.i64(19)?,
        producer_name: message.required_text(alloc, 1)?,
        partition_key: message.text(alloc, 6)?,
        ordering_key: message.bytes(alloc, 18)?,
    })
}

/// The number that the first four bytes spell, the high byte first.
pub fn size_at(bytes: &[u8]) -> usize
    requires { 4 ≤ length bytes.now }
    ensures value { result ≡ size_at bytes.now }
    ensures small { result < 2 ^ 32 }
{
    u32::from_be_bytes([bytes[0], bytes[1], bytes[2], bytes[3]]) as usize
}

/// The metadata inside an entry, which is the metadata's size, the metadata and the payload. A size past the
/// end is `Unreadable`, as is an entry of fewer than four bytes (Pulsar binary protocol, Payload commands).
#[tactic(auto, unfolding(crate::specs::Metadata::entry_of))]
pub fn read_entry(alloc: Global, bytes: &[u8]) -> Result<MessageMeta, CommandFault>
    ensures { Reads result (entry_of bytes.now) }
{
    if bytes.len() < 4 {
        return Err(CommandFault::Unreadable);
    }
    let size = size_at(bytes);
    if bytes.len() - 4 < size {
        return Err(CommandFault::Unreadable);
    }
    read_meta(alloc, &bytes[4..][..size])
}
