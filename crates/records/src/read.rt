// Records are read.
ghost use Rattle.std.specs.Prelude.{◌≡◌, ◌≤◌, ◌^◌, true, false, drop, Some, None, MatchBool, MatchOption, IfOk, option_map};
ghost use Rattle.records.specs.Maps.{Kept};
ghost use Rattle.records.specs.Names.{is_subscription_name};
ghost use Rattle.records.specs.Records.{IsFormed, after, name_of};
ghost use Rattle.records.specs.Bytes.{IsBody};
ghost use Rattle.records.specs.Reading.{first_name, first_position, record_with, first_record, HasNone, HasOne};

use crate::kept::KeptSubscriptions;
use crate::name::{Name, is_subscription_name};
use crate::record::Record;
use crate::write::RECORDS;
use std::alloc::{AllocError, Global};
use std::str;

// The name at the beginning of these bytes, behind a byte that is its length.
fn first_name(alloc: Global, bytes: &[u8]) -> Result<Option<Name>, AllocError>
    ensures { IfOk result (λ found. found ≡ first_name bytes.now) }
{
    let Some((length, behind)) = bytes.split_first() else {
        return Ok(None);
    };
    let length = usize::from(*length);
    if behind.len() < length {
        return Ok(None);
    }
    let name = &behind[..length];
    if !is_subscription_name(name) {
        return Ok(None);
    }
    let Ok(text) = str::from_utf8(name) else {
        unreachable!()
    };
    Ok(Some(Name::new(alloc, text)?))
}

/// The position at the beginning of these bytes, with what stands behind it.
pub fn first_position(bytes: &[u8]) -> Option<(u64, &[u8])>
    ensures { MatchOption result (first_position bytes.now ≡ None) (λ found. (first_position bytes.now ≡ Some found.0) × (found.1.now ≡ drop 8 bytes.now)) }
{
    let (position, behind) = bytes.split_first_chunk::<8>()?;
    Some((u64::from_le_bytes(*position), behind))
}

// The record of this kind and name, with the positions at the beginning of these bytes, and what stands behind it.
fn record_with(kind: u8, name: Name, bytes: &[u8]) -> Option<(Record, &[u8])>
    ensures { option_map (λ found. (found.0, found.1.now)) result ≡ record_with kind name bytes.now }
{
    match kind {
        1 => {
            let (start, behind) = first_position(bytes)?;
            Some((Record::Made { name, start }, behind))
        }
        2 => Some((Record::Removed { name }, bytes)),
        3 => {
            let (position, behind) = first_position(bytes)?;
            Some((Record::Acknowledged { name, position }, behind))
        }
        4 => {
            let (position, behind) = first_position(bytes)?;
            Some((Record::AcknowledgedThrough { name, position }, behind))
        }
        5 => {
            let (first, behind) = first_position(bytes)?;
            let (last, behind) = first_position(behind)?;
            Some((Record::AcknowledgedRange { name, first, last }, behind))
        }
        _ => None,
    }
}

/// The record at the beginning of these bytes, with what stands behind it.
pub fn first_record(alloc: Global, bytes: &[u8]) -> Result<Option<(Record, &[u8])>, AllocError>
    ensures { IfOk result (λ first. option_map (λ found. (found.0, found.1.now)) first ≡ first_record bytes.now) }
{
    let Some((kind, bytes)) = bytes.split_first() else {
        return Ok(None);
    };
    let Some(name) = first_name(alloc, bytes)? else {
        return Ok(None);
    };
    let behind = &bytes[1..][name.as_str().len()..];
    Ok(record_with(*kind, name, behind))
}

// Applies a record with a name, and answers whether it is of its form there. Where it isn't, nothing has changed.
fn apply_formed(
    change: &Record,
    entries: u64,
    kept: &mut KeptSubscriptions,
) -> Result<bool, AllocError>
    requires entries { entries ≤ 2 ^ 62 }
    requires name { is_subscription_name (name_of change.now) ≡ true }
    ensures { IfOk result (λ formed. MatchBool formed (IsFormed entries kept.old change.now × (kept.new ≡ after change.now kept.old)) (¬ IsFormed entries kept.old change.now × (kept.new ≡ kept.old))) }
{
    if !kept.admits(change, entries) {
        return Ok(false);
    }
    kept.apply(change)?;
    Ok(true)
}

// Applies the record at the beginning of these bytes, and answers what stands behind it. Where none of its form stands there,
// nothing has changed.
fn apply_first<'a>(
    alloc: Global,
    bytes: &'a [u8],
    entries: u64,
    kept: &mut KeptSubscriptions,
) -> Result<Option<&'a [u8]>, AllocError>
    requires { entries ≤ 2 ^ 62 }
    ensures { IfOk result (λ first. MatchOption first (HasNone entries kept.old bytes.now) (λ behind. HasOne entries kept.old kept.new bytes.now behind.now)) }
{
    let Some((change, behind)) = first_record(alloc, bytes)? else {
        return Ok(None);
    };
    let applied = apply_formed(&change, entries, kept);
    drop(change);
    if applied? {
        return Ok(Some(behind));
    }
    Ok(None)
}

/// Reads the body of a batch of records, beside a ledger of so many entries and what is kept before it, and answers whether it
/// is of its form. The records are then applied. Where it isn't, or there is no memory, some may have been.
pub fn read_body(
    alloc: Global,
    body: &[u8],
    entries: u64,
    kept: &mut KeptSubscriptions,
) -> Result<bool, AllocError>
    requires { entries ≤ 2 ^ 62 }
    ensures formed { IfOk result (λ formed. formed ≡ true → IsBody entries kept.old body.now kept.new) }
    ensures unformed { IfOk result (λ formed. formed ≡ false → (after_it : Kept) → ¬ IsBody entries kept.old body.now after_it) }
{
    let Some((kind, records)) = body.split_first() else {
        return Ok(false);
    };
    if *kind != RECORDS {
        return Ok(false);
    }
    let mut rest = records;
    while !rest.is_empty() {
        let Some(behind) = apply_first(alloc, rest, entries, kept)? else {
            return Ok(false);
        };
        rest = behind;
    }
    Ok(true)
}
