ghost use Rattle.std.specs.Prelude.{◌≡◌, ◌+◌, ◌≤◌, ◌++◌, length, vec_len, OnOk, OnErr};
ghost use Rattle.std.specs.Vec.{vec_capacity};
ghost use Rattle.proto_fields.specs.Put.{LacksRoom};
ghost use Rattle.proto_fields.specs.Spelling.{varint, number_field, bytes_head, bytes_field};

use std::alloc::AllocError;

/// Appends the shortest varint of a number. Protocol Buffers encoding guide, Base 128 Varints.
///
/// An error is want of memory, and leaves the vector as it was.
pub fn put_varint(value: u64, out: &mut Vec<u8>) -> Result<(), AllocError>
    ensures ok { OnOk result (out.new.items ≡ out.old.items ++ varint value) }
    ensures growth { OnOk result (vec_len out.new ≤ vec_len out.old + 10) }
    ensures err { OnErr result (out.new.items ≡ out.old.items) }
    ensures full { OnErr result (LacksRoom out.old (varint value)) }
    ensures capacity { vec_capacity out.old ≤ vec_capacity out.new }
{
    let start = out.len();
    let mut rest = value;
    'groups: while rest >= 128 {
        if let Err(refused) = out.push((rest % 128) as u8 + 128) {
            out.truncate(start);
            return Err(AllocError::from(refused));
        }
        rest /= 128;
    }
    if let Err(refused) = out.push(rest as u8) {
        out.truncate(start);
        return Err(AllocError::from(refused));
    }
    Ok(())
}

/// How many bytes the shortest varint of a number takes, 1 to 10.
pub fn varint_len(value: u64) -> usize
    ensures whole { result ≡ length (varint value) }
    ensures short { result ≤ 10 }
{
    let mut left = value;
    let mut len = 1;
    'counted: while left >= 128 {
        left /= 128;
        len += 1;
    }
    len
}

/// How many bytes a field of wire type 0 takes, 2 to 20: those that `put_number` appends.
pub fn number_len(number: u32, value: u64) -> usize
    requires positive { 1 ≤ number }
    requires in_range { number ≤ 536870911 }
    ensures whole { result ≡ length (number_field number value) }
    ensures short { result ≤ 20 }
{
    varint_len(u64::from(number) * 8) + varint_len(value)
}

/// Appends a field of wire type 0 that holds a number. Protocol Buffers encoding guide, Message Structure.
///
/// An error is want of memory, and leaves the vector as it was.
pub fn put_number(number: u32, value: u64, out: &mut Vec<u8>) -> Result<(), AllocError>
    requires positive { 1 ≤ number }
    requires in_range { number ≤ 536870911 }
    ensures ok { OnOk result (out.new.items ≡ out.old.items ++ number_field number value) }
    ensures growth { OnOk result (vec_len out.new ≤ vec_len out.old + 20) }
    ensures err { OnErr result (out.new.items ≡ out.old.items) }
    ensures full { OnErr result (LacksRoom out.old (number_field number value)) }
    ensures capacity { vec_capacity out.old ≤ vec_capacity out.new }
{
    let start = out.len();
    put_varint(u64::from(number) * 8, out)?;
    let put = put_varint(value, out);
    if put.is_err() {
        out.truncate(start);
    }
    put
}

/// Appends what stands before the bytes of a field of wire type 2: its tag, and how many bytes it holds.
/// Protocol Buffers encoding guide, Length-Delimited Records.
///
/// An error is want of memory, and leaves the vector as it was.
pub fn put_bytes_head(number: u32, len: usize, out: &mut Vec<u8>) -> Result<(), AllocError>
    requires positive { 1 ≤ number }
    requires in_range { number ≤ 536870911 }
    ensures ok { OnOk result (out.new.items ≡ out.old.items ++ bytes_head number len) }
    ensures growth { OnOk result (vec_len out.new ≤ vec_len out.old + 20) }
    ensures err { OnErr result (out.new.items ≡ out.old.items) }
    ensures full { OnErr result (LacksRoom out.old (bytes_head number len)) }
    ensures capacity { vec_capacity out.old ≤ vec_capacity out.new }
{
    let start = out.len();
    put_varint(u64::from(number) * 8 + 2, out)?;
    let put = put_varint(len as u64, out);
    if put.is_err() {
        out.truncate(start);
    }
    put
}

/// Appends a field of wire type 2 that holds bytes, a text or an embedded message.
/// Protocol Buffers encoding guide, Length-Delimited Records.
///
/// An error is want of memory, and leaves the vector as it was.
pub fn put_bytes(number: u32, content: &[u8], out: &mut Vec<u8>) -> Result<(), AllocError>
    requires positive { 1 ≤ number }
    requires in_range { number ≤ 536870911 }
    ensures ok { OnOk result (out.new.items ≡ out.old.items ++ bytes_field number content.now) }
    ensures growth { OnOk result (vec_len out.new ≤ vec_len out.old + 20 + length content.now) }
    ensures err { OnErr result (out.new.items ≡ out.old.items) }
    ensures full { OnErr result (LacksRoom out.old (bytes_field number content.now)) }
    ensures capacity { vec_capacity out.old ≤ vec_capacity out.new }
{
    let start = out.len();
    put_bytes_head(number, content.len(), out)?;
    let put = out.extend_from_slice(content);
    if put.is_err() {
        out.truncate(start);
    }
    put
}
