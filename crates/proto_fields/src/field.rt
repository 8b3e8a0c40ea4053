ghost use Rattle.proto_fields.specs.Reading.{Gives};
ghost use Rattle.proto_fields.specs.Fields.{part_at, value_at, field_at};

use crate::fault::FieldFault;
use crate::slice::ByteSlice;
use crate::value::{Field, Value};
use crate::varint::varint_at;

/// 2^29 - 1. Protocol Buffers language guide, Assigning Field Numbers.
const MAX_FIELD_NUMBER: u64 = 536_870_911;

/// This many bytes at the front, and the bytes after them.
#[tactic(auto, unfolding(crate::specs::Fields::part_at))]
fn part_at(bytes: &[u8], size: u64) -> Result<(&[u8], &[u8]), FieldFault>
    ensures { Gives (λ x. (x.0.now, x.1.now)) result (part_at size bytes.now) }
{
    if (bytes.len() as u64) < size {
        return Err(FieldFault::Cut);
    }
    Ok(bytes.split_at(size as usize))
}

/// The value of wire type 1.
#[tactic(auto, unfolding(crate::specs::Fields::value_at, crate::specs::Fields::part_at))]
fn fixed64_at(bytes: &[u8]) -> Result<(Value<'_>, &[u8]), FieldFault>
    ensures { Gives (λ x. (x.0, x.1.now)) result (value_at 1 bytes.now) }
{
    if bytes.len() < 8 {
        return Err(FieldFault::Cut);
    }
    let (part, rest) = bytes.split_at(8);
    let number = u64::from_le_bytes([
        part[0], part[1], part[2], part[3], part[4], part[5], part[6], part[7],
    ]);
    Ok((Value::Fixed64(number), rest))
}

/// The value of wire type 5.
#[tactic(auto, unfolding(crate::specs::Fields::value_at, crate::specs::Fields::part_at))]
fn fixed32_at(bytes: &[u8]) -> Result<(Value<'_>, &[u8]), FieldFault>
    ensures { Gives (λ x. (x.0, x.1.now)) result (value_at 5 bytes.now) }
{
    if bytes.len() < 4 {
        return Err(FieldFault::Cut);
    }
    let (part, rest) = bytes.split_at(4);
    let number = u32::from_le_bytes([part[0], part[1], part[2], part[3]]);
    Ok((Value::Fixed32(number), rest))
}

/// The value of wire type 2.
#[tactic(auto, unfolding(crate::specs::Fields::value_at))]
fn bytes_at(bytes: &[u8]) -> Result<(Value<'_>, &[u8]), FieldFault>
    ensures { Gives (λ x. (x.0, x.1.now)) result (value_at 2 bytes.now) }
{
    let (size, rest) = varint_at(bytes)?;
    let (part, rest) = part_at(rest, size)?;
    Ok((Value::Bytes(ByteSlice::new(part)), rest))
}

/// The value of wire type 0.
#[tactic(auto, unfolding(crate::specs::Fields::value_at))]
fn number_at(bytes: &[u8]) -> Result<(Value<'_>, &[u8]), FieldFault>
    ensures { Gives (λ x. (x.0, x.1.now)) result (value_at 0 bytes.now) }
{
    let (number, rest) = varint_at(bytes)?;
    Ok((Value::Varint(number), rest))
}

/// The value behind a tag of this wire type, and the bytes after it.
#[tactic(auto, unfolding(crate::specs::Fields::value_at))]
fn value_at(wire: u64, bytes: &[u8]) -> Result<(Value<'_>, &[u8]), FieldFault>
    ensures { Gives (λ x. (x.0, x.1.now)) result (value_at wire bytes.now) }
{
    match wire {
        0 => number_at(bytes),
        1 => fixed64_at(bytes),
        2 => bytes_at(bytes),
        5 => fixed32_at(bytes),
        _ => Err(FieldFault::BadWire),
    }
}

/// The field at the front, and the bytes after it. Protocol Buffers encoding guide, Message Structure.
#[tactic(auto, unfolding(crate::specs::Fields::field_at))]
pub fn field_at(bytes: &[u8]) -> Result<(Field<'_>, &[u8]), FieldFault>
    ensures { Gives (λ x. (x.0, x.1.now)) result (field_at bytes.now) }
{
    let (tag, rest) = varint_at(bytes)?;
    let number = tag / 8;
    if number < 1 || number > MAX_FIELD_NUMBER {
        return Err(FieldFault::BadTag);
    }
    let (value, rest) = value_at(tag % 8, rest)?;
    Ok((
        Field {
            number: number as u32,
            value,
        },
        rest,
    ))
}
