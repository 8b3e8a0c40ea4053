ghost use Rattle.std.specs.Prelude.{◌≡◌, Ok};
ghost use Rattle.commands.specs.Metadata.{entry_of};

use bytes::Bytes;
use commands::MessageMeta;

/// An entry without a checksum, whose metadata can be read, and which has it.
#[derive(Drop)]
pub struct PlainEntry {
    /// Metadata size, metadata and payload as they stand. They share their memory with no other frame.
    pub bytes: Bytes,
    pub metadata: MessageMeta,
    pub ghost readable: { entry_of bytes ≡ Ok metadata },
}
