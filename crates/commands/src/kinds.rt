ghost use Rattle.std.specs.Prelude.{◌≡◌};
ghost use Rattle.commands.specs.Reading.{Reads, required};
ghost use Rattle.commands.specs.Message.{varint_of, content_of, as_u32, as_bool, as_i32, as_text};

use crate::fault::CommandFault;
use crate::text::Text;
use proto_fields::{ByteSlice, Value};
use std::alloc::Global;

/// The value of a required field.
pub fn required<T>(found: Option<T>) -> Result<T, CommandFault>
    ensures { result ≡ required found }
{
    match found {
        None => Err(CommandFault::Unreadable),
        Some(value) => Ok(value),
    }
}

/// The number of a varint.
pub fn varint_of(value: &Value<'_>) -> Result<u64, CommandFault>
    ensures { result ≡ varint_of value.now }
{
    match value {
        Value::Varint(number) => Ok(*number),
        Value::Fixed64(_) | Value::Bytes(_) | Value::Fixed32(_) => Err(CommandFault::Unreadable),
    }
}

/// The bytes of a string, a bytes field or an embedded message.
pub fn content_of<'a>(value: &Value<'a>) -> Result<ByteSlice<'a>, CommandFault>
    ensures { result ≡ content_of value.now }
{
    match value {
        Value::Bytes(content) => Ok(ByteSlice::new(content.as_slice())),
        Value::Varint(_) | Value::Fixed64(_) | Value::Fixed32(_) => Err(CommandFault::Unreadable),
    }
}

/// The number, where it has 32 bits.
pub fn as_u32(value: u64) -> Result<u32, CommandFault>
    ensures { result ≡ as_u32 value }
{
    if value < 1 << 32 {
        Ok(value as u32)
    } else {
        Err(CommandFault::Unreadable)
    }
}

/// The truth value, which is 0 or 1.
pub fn as_bool(value: u64) -> Result<bool, CommandFault>
    ensures { result ≡ as_bool value }
{
    match value {
        0 => Ok(false),
        1 => Ok(true),
        _ => Err(CommandFault::Unreadable),
    }
}

/// The 64 bits as two's complement, where they are a number of 32 bits.
pub fn as_i32(value: u64) -> Result<i32, CommandFault>
    ensures { result ≡ as_i32 value }
{
    if value < 1 << 31 || value >= u64::MAX - (1 << 31) + 1 {
        Ok(value.cast_signed() as i32)
    } else {
        Err(CommandFault::Unreadable)
    }
}

/// The text of UTF-8.
pub fn as_text(alloc: Global, bytes: &[u8]) -> Result<Text, CommandFault>
    ensures { Reads result (as_text bytes.now) }
{
    let Ok(text) = std::str::from_utf8(bytes) else {
        return Err(CommandFault::Unreadable);
    };
    Ok(Text::new(String::from_str(alloc, text)?))
}
