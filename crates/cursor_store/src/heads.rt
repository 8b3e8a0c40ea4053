// What an opening has read first.

use gated_log::Start;
use two_slot::SlotHeads;

/// The heads of the slots of a topic, which are synced, and where the slots say that its ledger begins.
#[derive(Drop)]
pub struct StoreHeads {
    pub(crate) slots: SlotHeads,
    pub(crate) start: Start,
}
