//! The fields of Protocol Buffers messages, read from bytes and written to them.
//! `Fields` answers a field exactly where a spelling of it stands next, and else the first fault, the same ever after.
//! The puts append the shortest spelling of a field, or leave the vector as it was; what they append is read again as that field.
#![tactic(auto)]

mod fault;
mod field;
mod fields;
mod laws;
mod put;
mod slice;
mod value;
mod varint;

pub use fault::FieldFault;
pub use fields::Fields;
pub use laws::{
    has_one_reading, keeps_fault, names_faults, reads_first_fault, reads_spellings, reads_varints,
    reads_what_is_put, reads_whole, writes_shortest,
};
pub use put::{number_len, put_bytes, put_bytes_head, put_number, put_varint, varint_len};
pub use slice::ByteSlice;
pub use value::{Field, Value};
