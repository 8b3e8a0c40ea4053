ghost use Rattle.std.specs.Prelude.{◌≡◌};
ghost use Rattle.commands.specs.Reading.{Reads};
ghost use Rattle.commands.specs.Lookup.{partitioned_topic_metadata_of, lookup_topic_of};

use crate::fault::CommandFault;
use crate::held::Held;
use crate::message::Message;
use crate::text::Text;
use std::alloc::Global;

/// A client asks how many partitions a topic has (PulsarApi.proto, CommandPartitionedTopicMetadata).
#[derive(Drop)]
pub struct PartitionedTopicMetadata {
    pub topic: Text,
    pub request_id: u64,
}

/// A client asks which broker serves a topic (PulsarApi.proto, CommandLookupTopic).
#[derive(Drop)]
pub struct LookupTopic {
    pub topic: Text,
    pub request_id: u64,
}

#[tactic(auto, unfolding(crate::specs::Lookup::partitioned_topic_metadata_of))]
pub fn read_partitioned_topic_metadata(
    alloc: Global,
    bytes: &[u8],
) -> Result<PartitionedTopicMetadata, CommandFault>
    ensures { Reads result (partitioned_topic_metadata_of bytes.now) }
{
    let mut held = [Held::Absent; 3];
    let message = Message::read(bytes, &mut held)?;
    Ok(PartitionedTopicMetadata {
        topic: message.required_text(alloc, 1)?,
        request_id: message.required_u64(2)?,
    })
}

#[tactic(auto, unfolding(crate::specs::Lookup::lookup_topic_of))]
pub fn read_lookup_topic(alloc: Global, bytes: &[u8]) -> Result<LookupTopic, CommandFault>
    ensures { Reads result (lookup_topic_of bytes.now) }
{
    let mut held = [Held::Absent; 3];
    let message = Message::read(bytes, &mut held)?;
    Ok(LookupTopic {
        topic: message.required_text(alloc, 1)?,
        request_id: message.required_u64(2)?,
    })
}
