use crate::slice::ByteSlice;

/// What a field holds, by its wire type. Protocol Buffers encoding guide, Message Structure.
#[derive(Drop)]
pub enum Value<'a> {
    /// Wire type 0: the 64 bits of a number, a bool or an enum, signed or not.
    Varint(u64),
    /// Wire type 1: eight bytes, the low one first. Protocol Buffers encoding guide, Non-varint Numbers.
    Fixed64(u64),
    /// Wire type 2: a string, bytes, an embedded message or packed numbers.
    Bytes(ByteSlice<'a>),
    /// Wire type 5: four bytes, the low one first.
    Fixed32(u32),
}

/// One field of a message, known or not.
#[derive(Drop)]
pub struct Field<'a> {
    /// From 1 to 536870911.
    pub number: u32,
    pub value: Value<'a>,
}
