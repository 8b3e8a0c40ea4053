ghost use Rattle.commands.specs.Laws.{ReadsOccurrences, ReadsCommands, ReadsEntries, SpellsFields, TellsReplies};

/// Of a scalar the last occurrence counts; the occurrences of an embedded message are read as one (Protocol
/// Buffers encoding guide, Last One Wins), and those of a repeated field each by itself, in order (Repeated
/// Elements). Each occurrence must have the wire type.
pub fn reads_occurrences()
    ensures { ReadsOccurrences }
{}

/// Bytes are a command by the last type in them.
pub fn reads_commands()
    ensures { ReadsCommands }
{}

/// Bytes are an entry where they are the size of metadata, the metadata and a payload (Pulsar binary protocol,
/// Payload commands).
pub fn reads_entries()
    ensures { ReadsEntries }
{}

/// The fields of a message that is written, and of each reply, are the fields of its bytes.
pub fn spells_fields()
    ensures { SpellsFields }
{}

/// The bytes of a reply tell which reply it is.
pub fn tells_replies()
    ensures { TellsReplies }
{}
