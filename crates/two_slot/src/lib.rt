//! Two files hold one list of bodies, and where a ledger begins, and one of them counts: the one whose header is open and has the
//! greater generation. An append adds a body, and a replace puts another start and other bodies in the place of all, by way of
//! the file that doesn't count: each is whole or not at all, at whatever moment a crash comes. An opening finds one thing in the
//! two files: the start and the bodies of the one that counts, or the first fault.
#![tactic(auto)]

mod append;
mod choice;
mod create;
mod heads;
mod law;
mod open;
mod replace;
mod slot_header;
mod slots_id;
mod spare;
mod two_slot;

pub use heads::SlotHeads;
pub use law::{
    slots_are_their_own_files, slots_have_no_fault, slots_have_one_fault, slots_stand_for_one_list,
};
pub use slots_id::SlotsId;
pub use spare::Spare;
pub use two_slot::TwoSlot;
