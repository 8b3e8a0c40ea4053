use anyhow::{Error, bail};
use proto_fields::{Field, Fields, Value, put_bytes, put_number, put_varint};
use std::alloc::{AllocError, Global};

fn field(alloc: Global, field: &Field<'_>) -> Result<String, AllocError> {
    let number = field.number;
    match &field.value {
        Value::Varint(value) => format!(in alloc; "{number} varint {value}, "),
        Value::Fixed64(value) => format!(in alloc; "{number} fixed64 {value}, "),
        Value::Fixed32(value) => format!(in alloc; "{number} fixed32 {value}, "),
        Value::Bytes(content) => {
            let content = hex::encode(alloc, content.as_slice())?;
            format!(in alloc; "{number} bytes {content}, ")
        }
    }
}

/// The fields of the bytes, and their end or their fault, each with what is answered when it is asked for again.
pub(crate) fn fields(alloc: Global, bytes: &[u8]) -> Result<String, Error> {
    let mut said = String::new(alloc);
    let mut fields = Fields::new(bytes);
    for _ in 0..=bytes.len() {
        match fields.next() {
            Ok(Some(next)) => said.push_str(field(alloc, &next)?.as_str())?,
            Ok(None) => {
                let ends = matches!(fields.next(), Ok(None));
                said.push_str(if ends { "end" } else { "more behind the end" })?;
                break;
            }
            Err(fault) => {
                let again = fields.next().err();
                said.push_str(format!(in alloc; "{fault:?}, {again:?}")?.as_str())?;
                break;
            }
        }
    }
    Ok(said)
}

/// The varint of a number.
pub(crate) fn varint(alloc: Global, asked: &str) -> Result<String, Error> {
    let mut out = Vec::new(alloc);
    put_varint(asked.parse()?, &mut out)?;
    Ok(hex::encode(alloc, out.as_slice())?)
}

fn numbered(asked: &str) -> Result<(u32, &str), Error> {
    let Some((number, content)) = asked.split_once(' ') else {
        bail!("no field number and content: {asked}");
    };
    Ok((number.parse()?, content))
}

/// The field of a field number and a number.
pub(crate) fn number(alloc: Global, asked: &str) -> Result<String, Error> {
    let (number, value) = numbered(asked)?;
    if number == 0 || number > 536_870_911 {
        bail!("no field has the number {number}");
    }
    let mut out = Vec::new(alloc);
    put_number(number, value.parse()?, &mut out)?;
    Ok(hex::encode(alloc, out.as_slice())?)
}

/// The field of a field number and bytes.
pub(crate) fn bytes(alloc: Global, asked: &str) -> Result<String, Error> {
    let (number, content) = numbered(asked)?;
    if number == 0 || number > 536_870_911 {
        bail!("no field has the number {number}");
    }
    let content = hex::decode(alloc, content)?;
    let mut out = Vec::new(alloc);
    put_bytes(number, content.as_slice(), &mut out)?;
    Ok(hex::encode(alloc, out.as_slice())?)
}
