// What a header says behind its version.
ghost use Rattle.std.specs.Prelude.{◌≡◌, ◌<◌, ◌++◌, length, drop, IfSome, IfNone};
ghost use Rattle.std.specs.Int.{w64, to_le_bytes};
ghost use Rattle.gated_log.specs.Labels.{IsLabel, label_bytes, label_size, plain};

use crate::{Start, UNTRIMMED};
use disk::Folder;

/// What a header says behind its version: a number and, in version 2, where a ledger begins.
#[derive(Clone, Copy, Debug, PartialEq, Eq)]
pub struct Label {
    pub number: u64,
    pub start: Start,
}

impl Label {
    /// A number alone.
    pub fn plain(number: u64) -> Label
        ensures { result ≡ plain number }
    {
        Label {
            number,
            start: UNTRIMMED,
        }
    }
}

/// The label at the front of these bytes; none where they are too few.
pub(crate) fn label_in(folder: Folder, bytes: &[u8]) -> Option<Label>
    ensures some { IfSome result (λ l. bytes.now ≡ label_bytes folder l ++ drop (label_size folder) bytes.now) }
    ensures is { IfSome result (IsLabel folder) }
    ensures none { IfNone result (length bytes.now < label_size folder) }
{
    match folder {
        Folder::One => label_one(bytes),
        Folder::Two => label_two(bytes),
    }
}

fn label_one(bytes: &[u8]) -> Option<Label>
    ensures some { IfSome result (λ l. bytes.now ≡ label_bytes Folder.One l ++ drop 8 bytes.now) }
    ensures is { IfSome result (IsLabel Folder.One) }
    ensures none { IfNone result (length bytes.now < 8) }
{
    let (number, _) = first_number(bytes)?;
    Some(Label::plain(number))
}

fn label_two(bytes: &[u8]) -> Option<Label>
    ensures some { IfSome result (λ l. bytes.now ≡ label_bytes Folder.Two l ++ drop 24 bytes.now) }
    ensures is { IfSome result (IsLabel Folder.Two) }
    ensures none { IfNone result (length bytes.now < 24) }
{
    let (number, behind) = first_number(bytes)?;
    let (base, behind) = first_number(behind)?;
    let (first, _) = first_number(behind)?;
    Some(Label {
        number,
        start: Start { base, first },
    })
}

// The number at the front of these bytes, and what stands behind it.
fn first_number(bytes: &[u8]) -> Option<(u64, &[u8])>
    ensures some { IfSome result (λ found. bytes.now ≡ to_le_bytes w64 found.0 ++ found.1.now) }
    ensures behind { IfSome result (λ found. found.1.now ≡ drop 8 bytes.now) }
    ensures none { IfNone result (length bytes.now < 8) }
{
    let (number, behind) = bytes.split_first_chunk::<8>()?;
    Some((u64::from_le_bytes(*number), behind))
}
