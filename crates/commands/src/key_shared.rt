ghost use Rattle.std.specs.Prelude.{◌≡◌};
ghost use Rattle.commands.specs.Reading.{Reads};
ghost use Rattle.commands.specs.Message.{each, message_value_field};
ghost use Rattle.commands.specs.KeyShared.{key_shared_mode, int_range_of, key_shared_meta_of};

use crate::fault::CommandFault;
use crate::held::Held;
use crate::kinds::required;
use crate::message::Message;
use crate::sequence::Sequence;
use proto_fields::ByteSlice;
use std::alloc::Global;

/// Whether the broker or the consumer chooses the hash ranges (PulsarApi.proto, KeySharedMode).
#[derive(Clone, Copy, Debug, PartialEq, Eq)]
pub enum KeySharedMode {
    AutoSplit,
    Sticky,
}

/// A range of hashes, both ends included (PulsarApi.proto, IntRange).
#[derive(Clone, Copy, Debug, PartialEq, Eq)]
pub struct IntRange {
    pub start: i32,
    pub end: i32,
}

/// Which keys a consumer takes (PulsarApi.proto, KeySharedMeta).
#[derive(Drop)]
pub struct KeySharedMeta {
    pub mode: KeySharedMode,
    pub hash_ranges: Sequence<IntRange>,
}

fn key_shared_mode(number: u64) -> Result<KeySharedMode, CommandFault>
    ensures { result ≡ key_shared_mode number }
{
    match number {
        0 => Ok(KeySharedMode::AutoSplit),
        1 => Ok(KeySharedMode::Sticky),
        _ => Err(CommandFault::Unreadable),
    }
}

#[tactic(auto, unfolding(crate::specs::KeyShared::int_range_of))]
fn read_int_range(bytes: &[u8]) -> Result<IntRange, CommandFault>
    ensures { result ≡ int_range_of bytes.now }
{
    let mut held = [Held::Absent; 3];
    let message = Message::read(bytes, &mut held)?;
    Ok(IntRange {
        start: required(message.i32(1)?)?,
        end: required(message.i32(2)?)?,
    })
}

fn read_each(alloc: Global, parts: &[ByteSlice<'_>]) -> Result<Sequence<IntRange>, CommandFault>
    ensures { Reads result (each int_range_of parts.now) }
{
    let mut ranges = Vec::new(alloc);
    for part in parts {
        ranges.push(read_int_range(part.as_slice())?)?;
    }
    Ok(Sequence::new(ranges))
}

#[tactic(auto, unfolding(crate::specs::KeyShared::key_shared_meta_of, crate::specs::Message::repeated_field))]
fn read_key_shared_meta(alloc: Global, bytes: &[u8]) -> Result<KeySharedMeta, CommandFault>
    ensures { Reads result (key_shared_meta_of bytes.now) }
{
    let mut held = [Held::Absent; 4];
    let message = Message::read(bytes, &mut held)?;
    let mode = key_shared_mode(message.required_u64(1)?)?;
    let parts = message.parts(alloc, 3)?;
    let hash_ranges = read_each(alloc, parts.as_slice())?;
    Ok(KeySharedMeta { mode, hash_ranges })
}

/// The key-shared metadata of a field, if there is one.
#[tactic(auto, unfolding(crate::specs::Message::message_value_field))]
pub fn read_key_shared_meta_field(
    alloc: Global,
    message: &Message<'_, '_>,
    number: u32,
) -> Result<Option<KeySharedMeta>, CommandFault>
    ensures { Reads result (message_value_field key_shared_meta_of number message.now) }
{
    match message.message(alloc, number)? {
        None => Ok(None),
        Some(body) => Ok(Some(read_key_shared_meta(alloc, body.as_slice())?)),
    }
}
