// The subscriptions of a topic in two slots.
ghost use Rattle.std.specs.Prelude.{◌≡◌, ◌≤◌, IfSome};
ghost use Rattle.disk.specs.declared.file_id.Folder.{Folder};
ghost use Rattle.gated_log.specs.Wholes.{folder_in};
ghost use Rattle.std.proofs.Props.{props};

use crate::Told;
use gated_log::{PreparedBatch, PreparedLog};
use records::KeptSubscriptions;
use std::alloc::Global;
use two_slot::TwoSlot;

/// The durable subscriptions of a topic, and where its ledger begins: their records in two slots, what these and their header
/// tell, and how many records were appended since the slots were opened or replaced, but no more than 4,096.
#[derive(Drop)]
pub struct CursorStore {
    pub(crate) alloc: Global,
    pub(crate) slots: TwoSlot,
    pub(crate) told: Told,
    pub(crate) appended: u64,
    ghost few: { appended ≤ 4096 },
}

/// The batch of some records, how many they are, and what is kept after them; and where a replace goes first, a snapshot of what
/// was told before them, for a folder of version 2. It shares with the store the cursors that no record names.
#[derive(Drop)]
pub struct PreparedRecords {
    pub(crate) batch: PreparedBatch,
    pub(crate) count: u64,
    pub(crate) kept: KeptSubscriptions,
    pub(crate) snapshot: Option<PreparedLog>,
    ghost two: { IfSome snapshot (λ log. folder_in log ≡ Folder.Two) } by { Prim.hlevel props },
}
