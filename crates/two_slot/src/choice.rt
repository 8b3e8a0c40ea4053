// Which slot counts.
ghost use Rattle.std.specs.Prelude.{◌≡◌};
ghost use Rattle.two_slot.specs.Choices.{choice, if_open, if_closed, generation_in, start_in, start_by};

use crate::Spare;
use crate::slot_header::{HeaderFault, SlotHeader};
use disk::CursorSlot;
use gated_log::{Label, Start, UNTRIMMED};

/// What the headers of two slots say.
#[derive(Clone, Copy, Debug, PartialEq, Eq)]
pub enum Choice {
    /// The header of this slot is the first fault.
    Refuse(CursorSlot, HeaderFault),
    /// This slot counts, and so is the header of the other one.
    Read(CursorSlot, Spare),
    /// Slot 0 counts, and the header of slot 1 is a fault behind those of slot 0.
    ReadZero(HeaderFault),
}

// Where slot 0 is open with this label.
fn choose_if_open(label: Label, one: SlotHeader) -> Choice
    ensures { result ≡ if_open label one }
{
    match one {
        SlotHeader::CutShort => Choice::Read(CursorSlot::Zero, Spare::Short),
        SlotHeader::Closed => Choice::Read(CursorSlot::Zero, Spare::Shut),
        SlotHeader::Open(other) => {
            if other.number < label.number {
                return Choice::Read(CursorSlot::Zero, Spare::Lower);
            }
            if label.number < other.number {
                return Choice::Read(CursorSlot::One, Spare::Lower);
            }
            Choice::ReadZero(HeaderFault::Damage)
        }
        SlotHeader::Faulty(other, fault) => {
            if label.number < other {
                return Choice::Refuse(CursorSlot::One, fault);
            }
            Choice::ReadZero(fault)
        }
    }
}

// Where slot 0 is closed.
fn choose_if_closed(spare: Spare, one: SlotHeader) -> Choice
    ensures { result ≡ if_closed spare one }
{
    match one {
        SlotHeader::CutShort => Choice::Refuse(CursorSlot::Zero, HeaderFault::Damage),
        SlotHeader::Closed => Choice::Refuse(CursorSlot::Zero, HeaderFault::Damage),
        SlotHeader::Open(_) => Choice::Read(CursorSlot::One, spare),
        SlotHeader::Faulty(_, fault) => Choice::Refuse(CursorSlot::One, fault),
    }
}

// What the headers of slot 0 and slot 1 say.
pub(crate) fn choose(zero: SlotHeader, one: SlotHeader) -> Choice
    ensures { result ≡ choice zero one }
{
    match zero {
        SlotHeader::CutShort => choose_if_closed(Spare::Short, one),
        SlotHeader::Closed => choose_if_closed(Spare::Shut, one),
        SlotHeader::Open(label) => choose_if_open(label, one),
        SlotHeader::Faulty(_, fault) => Choice::Refuse(CursorSlot::Zero, fault),
    }
}

// The generation of an open header, whatever else it says.
fn generation_in(header: SlotHeader) -> Option<u64>
    ensures { result ≡ generation_in header }
{
    match header {
        SlotHeader::CutShort | SlotHeader::Closed => None,
        SlotHeader::Open(label) => Some(label.number),
        SlotHeader::Faulty(generation, _) => Some(generation),
    }
}

// Where the ledger begins, as a header says that isn't refused.
fn start_in(header: SlotHeader) -> Start
    ensures { result ≡ start_in header }
{
    match header {
        SlotHeader::CutShort | SlotHeader::Closed | SlotHeader::Faulty(_, _) => UNTRIMMED,
        SlotHeader::Open(label) => label.start,
    }
}

// Where the ledger begins, as the header of slot 0 or slot 1 says that counts.
pub(crate) fn start_by(zero: SlotHeader, one: SlotHeader) -> Start
    ensures { result ≡ start_by zero one }
{
    match generation_in(one) {
        None => start_in(zero),
        Some(of_one) => match generation_in(zero) {
            None => start_in(one),
            Some(of_zero) => {
                if of_zero < of_one {
                    return start_in(one);
                }
                start_in(zero)
            }
        },
    }
}
