// Items are read.
ghost use Rattle.std.specs.Prelude.{◌≡◌, ◌≤◌, ◌^◌, true, false, MatchOption, IfOk, option_map};
ghost use Rattle.cursor_store.specs.ItemBytes.{IsItemsBody, first_trim, first_item, HasNoItem, HasItem};

use crate::{Item, Told};
use disk::Folder;
use gated_log::Start;
use records::{RECORDS, first_position, first_record};
use std::alloc::{AllocError, Global};

// The kind of a trim, its first byte, in a folder of version 1. Our own format.
const TRIM: u8 = 6;

// The trim whose position and segment begin these bytes, with what stands behind it.
fn first_trim(bytes: &[u8]) -> Option<(Item, &[u8])>
    ensures { option_map (λ found. (found.0, found.1.now)) result ≡ first_trim bytes.now }
{
    let (base, behind) = first_position(bytes)?;
    let (first, behind) = first_position(behind)?;
    Some((Item::Trim(Start { base, first }), behind))
}

// The item at the beginning of these bytes, with what stands behind it. Version 2 has records alone.
fn first_item(
    alloc: Global,
    folder: Folder,
    bytes: &[u8],
) -> Result<Option<(Item, &[u8])>, AllocError>
    ensures { IfOk result (λ first. option_map (λ found. (found.0, found.1.now)) first ≡ first_item folder bytes.now) }
{
    let Some((kind, behind)) = bytes.split_first() else {
        return Ok(None);
    };
    if folder == Folder::One && *kind == TRIM {
        return Ok(first_trim(behind));
    }
    let Some((change, behind)) = first_record(alloc, bytes)? else {
        return Ok(None);
    };
    Ok(Some((Item::Change(change), behind)))
}

// Applies the item at the beginning of these bytes, and answers what stands behind it, where one of its form stands there.
fn apply_first<'a>(
    alloc: Global,
    folder: Folder,
    bytes: &'a [u8],
    entries: u64,
    told: &mut Told,
) -> Result<Option<&'a [u8]>, AllocError>
    requires { entries ≤ 2 ^ 62 }
    ensures { IfOk result (λ first. MatchOption first (HasNoItem folder entries told.old bytes.now) (λ behind. HasItem folder entries told.old told.new bytes.now behind.now)) }
{
    let Some((item, behind)) = first_item(alloc, folder, bytes)? else {
        return Ok(None);
    };
    let applied = told.apply(&item, entries);
    drop(item);
    if applied? {
        return Ok(Some(behind));
    }
    Ok(None)
}

// Reads the body of a batch of items, beside a ledger of so many entries and what is told before it, and answers whether it is
// of its form. The items are then applied. Where it isn't, or there is no memory, some may have been.
pub(crate) fn read_items(
    alloc: Global,
    folder: Folder,
    body: &[u8],
    entries: u64,
    told: &mut Told,
) -> Result<bool, AllocError>
    requires { entries ≤ 2 ^ 62 }
    ensures formed { IfOk result (λ formed. formed ≡ true → IsItemsBody folder entries told.old body.now told.new) }
    ensures unformed { IfOk result (λ formed. formed ≡ false → (after_it : Told) → ¬ IsItemsBody folder entries told.old body.now after_it) }
{
    let Some((kind, items)) = body.split_first() else {
        return Ok(false);
    };
    if *kind != RECORDS {
        return Ok(false);
    }
    let mut rest = items;
    while !rest.is_empty() {
        let Some(behind) = apply_first(alloc, folder, rest, entries, told)? else {
            return Ok(false);
        };
        rest = behind;
    }
    Ok(true)
}
