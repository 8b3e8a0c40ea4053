ghost use Rattle.std.specs.Prelude.{◌≡◌, ◌≤◌, ◌<◌, ◌+◌, length, drop};
ghost use Rattle.commands.specs.Metadata.{size_at, entry_of};
ghost use Rattle.frames.specs.Streams.{IsUnfinished};
ghost use Rattle.frames.specs.Reading.{Reads, Judges, Fronts, IsWhole, EndsWithin, bytes_of, needed, read_as_metadata, is_checksummed, send_entry_of, nothing_of, entry_behind, frame_of};

use crate::fault::Fault;
use crate::frame::{Frame, FrameEntry};
use crate::plain_entry::PlainEntry;
use crate::whole::Whole;
use bytes::Bytes;
use commands::{Command, CommandFault, MessageMeta, read_command, read_entry, size_at};
use std::alloc::Global;

/// The largest size that a frame may tell (Pulsar binary protocol, Framing: 5 MB). Our own rule:
/// these are 5 times 2^20 bytes, not counting the size itself.
const LARGEST_SIZE: usize = 5_242_880;

/// How many bytes the unfinished frame is known to take: up to the end of the size that comes
/// next, or the whole frame's.
#[tactic(auto, unfolding(crate::specs::Reading::needed))]
pub(crate) fn needed(unfinished: &[u8]) -> usize
    requires { IsUnfinished unfinished.now }
    ensures value { result ≡ needed unfinished.now }
    ensures more { length unfinished.now < result }
{
    if unfinished.len() < 4 {
        return 4;
    }
    if unfinished.len() < 8 {
        return 8;
    }
    4 + size_at(unfinished)
}

/// Whether a frame's first bytes are all of it.
pub(crate) fn is_whole(bytes: &[u8]) -> Result<bool, Fault>
    requires { EndsWithin bytes.now }
    ensures { Judges result bytes.now }
{
    if bytes.len() < 4 {
        return Ok(false);
    }
    let size = size_at(bytes);
    if size > LARGEST_SIZE {
        return Err(Fault::TooLarge);
    }
    if bytes.len() < 8 {
        return Ok(false);
    }
    if size < 4 + size_at(&bytes[4..]) {
        return Err(Fault::BadSizes);
    }
    Ok(bytes.len() == 4 + size)
}

/// The size of the frame at the front of a stream, where that is there whole. None says nothing of what is there.
pub(crate) fn whole_front(stream: &[u8]) -> Result<Option<usize>, Fault>
    ensures { Fronts result stream.now }
{
    if stream.len() < 8 {
        return Ok(None);
    }
    let told = size_at(stream);
    if told > LARGEST_SIZE {
        return Err(Fault::TooLarge);
    }
    if told < 4 + size_at(&stream[4..]) {
        return Err(Fault::BadSizes);
    }
    if stream.len() - 4 < told {
        return Ok(None);
    }
    Ok(Some(4 + told))
}

fn entry_metadata(alloc: Global, entry: &[u8]) -> Result<MessageMeta, Fault>
    ensures { Reads result (read_as_metadata (entry_of entry.now)) }
{
    match read_entry(alloc, entry) {
        Ok(metadata) => Ok(metadata),
        Err(CommandFault::NoMemory) => Err(Fault::NoMemory),
        Err(CommandFault::Unreadable | CommandFault::Missing) => Err(Fault::BadPayload),
    }
}

/// Whether two bytes tell that a checksum comes.
fn is_checksummed(behind: &[u8]) -> bool
    ensures { result ≡ is_checksummed behind.now }
{
    behind.len() >= 2 && behind[0] == 0x0e && behind[1] == 0x01
}

/// The entry that begins at `start`, over the memory of the frame.
#[tactic(auto, unfolding(crate::specs::Reading::send_entry_of))]
fn send_entry(alloc: Global, frame: Vec<u8>, start: usize) -> Result<FrameEntry, Fault>
    requires { start ≤ length frame.items }
    ensures { Reads result (send_entry_of (drop start frame.items)) }
{
    let behind = &frame[start..];
    if is_checksummed(behind) {
        return Ok(FrameEntry::Checksummed);
    }
    let metadata = entry_metadata(alloc, behind)?;
    let mut bytes = Bytes::from_vec(frame)?;
    bytes.advance(start);
    Ok(FrameEntry::Entry(PlainEntry { bytes, metadata }))
}

fn nothing(behind: &[u8]) -> Result<FrameEntry, Fault>
    ensures { result ≡ nothing_of behind.now }
{
    if behind.is_empty() {
        Ok(FrameEntry::Nothing)
    } else {
        Err(Fault::BadPayload)
    }
}

/// What stands behind the command from `start` on. An entry is over the memory of the frame, or over a copy of it.
#[tactic(auto, unfolding(crate::specs::Reading::entry_behind))]
fn entry_behind(
    alloc: Global,
    command: &Command,
    frame: Whole<'_>,
    start: usize,
) -> Result<FrameEntry, Fault>
    requires { start ≤ length (bytes_of frame) }
    ensures { Reads result (entry_behind command.now (drop start (bytes_of frame.entry))) }
{
    match command {
        Command::Send(_) => send_entry(alloc, frame.into_vec(alloc)?, start),
        Command::Other(_) => Ok(FrameEntry::Nothing),
        Command::Connect(_)
        | Command::Subscribe(_)
        | Command::Producer(_)
        | Command::Ack(_)
        | Command::Flow(_)
        | Command::Unsubscribe(_)
        | Command::CloseProducer(_)
        | Command::CloseConsumer(_)
        | Command::Ping
        | Command::Pong
        | Command::RedeliverUnacknowledgedMessages(_)
        | Command::PartitionedMetadata(_)
        | Command::Lookup(_) => nothing(&frame.as_slice()[start..]),
    }
}

/// The frame of these bytes, whose sizes agree with them.
#[tactic(auto, unfolding(crate::specs::Reading::frame_of))]
pub(crate) fn frame_of(alloc: Global, frame: Whole<'_>) -> Result<Frame, Fault>
    requires { IsWhole (bytes_of frame) }
    ensures { Reads result (frame_of (bytes_of frame.entry)) }
{
    let bytes = frame.as_slice();
    let command_size = size_at(&bytes[4..]);
    let command = read_command(alloc, &bytes[8..][..command_size])?;
    let entry = entry_behind(alloc, &command, frame, 8 + command_size)?;
    Ok(Frame { command, entry })
}
