// Two slots.
ghost use Rattle.std.specs.Prelude.{◌≡◌, false};
ghost use Rattle.disk.specs.declared.file_id.FileId.{FileId};
ghost use Rattle.gated_log.specs.Logs.{log_id, log_failed};

use crate::Spare;
use disk::{CursorSlot, TopicId};
use gated_log::{BatchList, GatedLog, Start};

/// The two slots of a topic, whose header that counts says where its ledger begins: the log of the one that counts, and what is known of the other one.
#[derive(Drop)]
pub struct TwoSlot {
    pub(crate) topic: TopicId,
    pub(crate) counts: CursorSlot,
    pub(crate) log: GatedLog,
    pub(crate) spare: Spare,
    pub(crate) failed: bool,
    ghost is_slot: { (log_id log).file ≡ FileId.Slot topic counts },
    ghost works: { failed ≡ false → log_failed log ≡ false },
}

impl TwoSlot {
    ghost use Rattle.two_slot.specs.TwoSlots.{start_of};

    /// Where the ledger begins.
    pub fn start(&self) -> Start
        ensures { result ≡ start_of self.now }
    {
        self.log.id().label.start
    }
}
