// How many messages an entry has.
ghost use Rattle.std.specs.Prelude.{◌≡◌, ◌<◌, ◌≤◌};
ghost use Rattle.topic_core.specs.Messages.{messages_in};

use commands::MessageMeta;
use managed_ledger::has_message_count;

/// How many messages an entry with this metadata has: as many as it says, and one where no entry may have so many.
pub(crate) fn messages_of_meta(metadata: &MessageMeta) -> u32
    ensures count { result ≡ messages_in metadata.now.num_messages_in_batch }
    ensures some { 0 < result }
    ensures few { result ≤ 1048576 }
{
    if !has_message_count(metadata) {
        return 1;
    }
    metadata.num_messages_in_batch.unsigned_abs()
}
