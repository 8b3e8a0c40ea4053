// A ledger is copied to another topic.
ghost use Rattle.std.specs.Prelude.{◌≡◌, ◌≢◌, OnOk, IsErr};
ghost use Rattle.disk.specs.declared.file_id.Folder.{Folder};
ghost use Rattle.disk.specs.declared.file_id.TopicId.{TopicId};
ghost use Rattle.disk.specs.Disk.{Image, Kept, Failed};
ghost use Rattle.disk.specs.Areas.{Within};
ghost use Rattle.disk.specs.Contents.{Settled};
ghost use Rattle.journal.specs.Chains.{SegmentsOf};
ghost use Rattle.managed_ledger.specs.Entries.{Ledger, Stands};
ghost use Rattle.managed_ledger.specs.Ledgers.{Holds, ledger_topic, start_of, counts_of};
ghost use Rattle.managed_ledger.specs.Laid.{IsLaidOut};

use crate::ManagedLedger;
use disk::{DeviceError, Shelf, TopicId};

impl ManagedLedger {
    /// Copies each segment to that of its number of another topic, whatever was in these. Until the `Ok` a crash may leave anything of them.
    pub fn copy_to<S: Shelf>(&self, shelf: &mut S, topic: TopicId) -> Result<(), DeviceError>
        requires other { ledger_topic self.now ≢ topic }
        // Only there has a header a place for each label.
        requires folder { topic.folder ≡ Folder.Two }
        // The other topic's files stand for the same ledger then, whatever crash comes.
        ensures copied { (ledger : Ledger) → Settled (Holds self.now) (S.disk shelf.old) ledger →
            OnOk result ((c : Image) → (S.disk shelf.new).may_leave c → Stands topic (start_of self.now) c ledger) }
        // Each of its segments has as many entries as the one of its number had.
        ensures laid { (ledger : Ledger) → Settled (Holds self.now) (S.disk shelf.old) ledger →
            OnOk result ((c : Image) → (S.disk shelf.new).may_leave c → IsLaidOut topic (start_of self.now).first c (counts_of self.now)) }
        ensures others { (S.disk shelf.old).honest → Within (SegmentsOf topic) (λ c. Unit {0}) (S.disk shelf.old) (S.disk shelf.new) }
        ensures cause { IsErr result → Failed (S.disk shelf.old) (S.disk shelf.new) }
        ensures kept { Kept (S.disk shelf.old) (S.disk shelf.new) }
    {
        self.journal.copy_to(shelf, topic)
    }
}
