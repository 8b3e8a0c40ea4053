// Records are written.
ghost use Rattle.std.specs.Prelude.{◌≡◌, ◌≤◌, ◌<◌, ◌^◌, ◌↔◌, ◌++◌, ◌∷◌, true, length, IsTrue, All, IfOk, OnOk};
ghost use Rattle.records.specs.Names.{is_subscription_name};
ghost use Rattle.records.specs.Records.{name_of};
ghost use Rattle.records.specs.Bytes.{named, placed, spelling, body_of};

use crate::name::Name;
use crate::record::Record;
use std::alloc::{AllocError, Global};

/// The kind of a body of records, its first byte.
pub const RECORDS: u8 = 0;

// How many bytes a record has.
fn size_of(change: &Record) -> usize
    requires { is_subscription_name (name_of change.now) ≡ true }
    ensures size { result ≡ length (spelling change.now) }
    ensures small { result ≤ 273 }
{
    match change {
        Record::Removed { name } => name.as_str().len() + 2,
        Record::Made { name, .. } => name.as_str().len() + 10,
        Record::Acknowledged { name, .. } => name.as_str().len() + 10,
        Record::AcknowledgedThrough { name, .. } => name.as_str().len() + 10,
        Record::AcknowledgedRange { name, .. } => name.as_str().len() + 18,
    }
}

/// Whether the body of these records has at most so many bytes.
pub fn fits(records: &[Record], most: usize) -> bool
    requires names { All (λ r. is_subscription_name (name_of r) ≡ true) records.now }
    requires most { most < 2 ^ 62 }
    ensures { IsTrue result ↔ (length (body_of records.now) ≤ most) }
{
    let mut size = 1;
    for change in records {
        size += size_of(change);
        if size > most {
            return false;
        }
    }
    size <= most
}

// Adds the beginning of a record: its kind, and its name.
fn add_head(body: &mut Vec<u8>, kind: u8, name: &str) -> Result<(), AllocError>
    requires { is_subscription_name name.now ≡ true }
    ensures { OnOk result (body.new.items ≡ body.old.items ++ kind ∷ named name.now) }
{
    body.push(kind)?;
    body.push(name.len() as u8)?;
    body.extend_from_slice(name.as_bytes())?;
    Ok(())
}

fn add_position(body: &mut Vec<u8>, position: u64) -> Result<(), AllocError>
    ensures { OnOk result (body.new.items ≡ body.old.items ++ placed position) }
{
    body.extend_from_slice(&position.to_le_bytes())?;
    Ok(())
}

/// Adds the record of a subscription that is made. After a refusal a part of it may stand there.
pub fn add_made(body: &mut Vec<u8>, name: &str, start: u64) -> Result<(), AllocError>
    requires { is_subscription_name name.now ≡ true }
    ensures { OnOk result (body.new.items ≡ body.old.items ++ spelling (Record.Made name.now start)) }
{
    add_head(body, 1, name)?;
    add_position(body, start)
}

/// Adds the record of an acknowledged range. After a refusal a part of it may stand there.
pub fn add_range(body: &mut Vec<u8>, name: &str, first: u64, last: u64) -> Result<(), AllocError>
    requires { is_subscription_name name.now ≡ true }
    ensures { OnOk result (body.new.items ≡ body.old.items ++ spelling (Record.AcknowledgedRange name.now first last)) }
{
    add_head(body, 5, name)?;
    add_position(body, first)?;
    add_position(body, last)
}

fn add_record(body: &mut Vec<u8>, change: &Record) -> Result<(), AllocError>
    requires { is_subscription_name (name_of change.now) ≡ true }
    ensures { OnOk result (body.new.items ≡ body.old.items ++ spelling change.now) }
{
    match change {
        Record::Made { name, start } => { add_made(body, name.as_str(), *start) }
        Record::Removed { name } => add_head(body, 2, name.as_str()),
        Record::Acknowledged { name, position } => {
            add_head(body, 3, name.as_str())?;
            add_position(body, *position)
        }
        Record::AcknowledgedThrough { name, position } => {
            add_head(body, 4, name.as_str())?;
            add_position(body, *position)
        }
        Record::AcknowledgedRange { name, first, last } => {
            add_range(body, name.as_str(), *first, *last)
        }
    }
}

/// The body of a batch of these records: its kind, and the bytes of each in turn.
pub fn write_records(alloc: Global, records: &[Record]) -> Result<Vec<u8>, AllocError>
    requires names { All (λ r. is_subscription_name (name_of r) ≡ true) records.now }
    ensures { IfOk result (λ body. body.items ≡ body_of records.now) }
{
    let mut body = Vec::new(alloc);
    body.push(RECORDS)?;
    for change in records {
        add_record(&mut body, change)?;
    }
    Ok(body)
}
