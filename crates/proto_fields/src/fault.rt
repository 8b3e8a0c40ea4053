use thiserror::Error;

/// Why no field can be read. Where several stand, the first in the order of reading counts:
/// the tag's varint, the field number, the wire type, the value.
#[derive(Clone, Copy, Debug, PartialEq, Eq, Error)]
pub enum FieldFault {
    /// The bytes end inside the field.
    #[error("the bytes end inside a field")]
    Cut,
    /// A varint goes on after its tenth byte, or its number passes 64 bits.
    /// Our own rule: longer spellings of a number are read, up to ten bytes.
    #[error("a varint has more than ten bytes or passes 64 bits")]
    TooLong,
    /// The field number is out of its range. Protocol Buffers language guide, Assigning Field Numbers.
    #[error("the field number is 0 or above 536870911")]
    BadTag,
    /// A wire type other than 0, 1, 2 and 5. Protocol Buffers encoding guide, Message Structure.
    /// Our own rule: groups, whose wire types are 3 and 4, are refused.
    #[error("the wire type is unknown")]
    BadWire,
}
