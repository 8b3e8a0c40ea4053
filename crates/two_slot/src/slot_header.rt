// The header of a slot.
ghost use Rattle.disk.specs.Disk.{Image};
ghost use Rattle.disk.specs.Areas.{folder_of};
ghost use Rattle.gated_log.specs.Head.{IsHead, head_file};
ghost use Rattle.two_slot.specs.SlotHeaders.{IsSlotHeader};

use disk::folder_of;
use gated_log::{AtHeader, Label, LogHead, header_size};

/// Why the header of a slot is refused.
#[derive(Clone, Copy, Debug, PartialEq, Eq)]
pub enum HeaderFault {
    /// Another mark, no gate behind the header, or the last generation.
    Damage,
    /// Another version.
    Version,
}

/// The header of a slot.
#[derive(Clone, Copy, Debug, PartialEq, Eq)]
pub enum SlotHeader {
    /// It has fewer bytes than a header.
    CutShort,
    /// It is whole, and its gate is closed.
    Closed,
    /// It is open, with this label, whose number is the generation.
    Open(Label),
    /// It is open, with these eight bytes of a generation, and refused.
    Faulty(u64, HeaderFault),
}

// The generation that no header has.
const NO_GENERATION: u64 = u64::MAX;

// What the head of a slot says.
pub(crate) fn header_of(head: &LogHead) -> SlotHeader
    ensures { (image : Image) → IsHead head.now image → IsSlotHeader (folder_of (head_file head.now)) (image (head_file head.now)) result }
{
    if head.size() < header_size(folder_of(head.file())) as u64 {
        return SlotHeader::CutShort;
    }
    match head.header() {
        AtHeader::Closed => SlotHeader::Closed,
        AtHeader::Damaged => SlotHeader::Faulty(head.number(), HeaderFault::Damage),
        AtHeader::OtherVersion => SlotHeader::Faulty(head.number(), HeaderFault::Version),
        AtHeader::Labelled(label) => {
            if label.number == NO_GENERATION {
                return SlotHeader::Faulty(head.number(), HeaderFault::Damage);
            }
            SlotHeader::Open(label)
        }
    }
}
