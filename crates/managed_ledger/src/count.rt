// How many messages an entry may have.
ghost use Rattle.std.specs.Prelude.{◌≡◌};
ghost use Rattle.managed_ledger.specs.Entries.{is_message_count};

use commands::MessageMeta;

const MOST_MESSAGES: i32 = 1_048_576;

/// Whether an entry's metadata says how many messages it has: from 1 to 1,048,576.
pub fn has_message_count(metadata: &MessageMeta) -> bool
    ensures { result ≡ is_message_count metadata.now.num_messages_in_batch }
{
    let count = metadata.num_messages_in_batch;
    0 < count && count <= MOST_MESSAGES
}
