// What a store tells is told by the slots of another topic.
ghost use Rattle.std.specs.Prelude.{◌≡◌, ◌≢◌, ◌⊎◌, ℕ, OnOk, IfErr, IsErrOf};
ghost use Rattle.disk.specs.declared.file_id.Folder.{Folder};
ghost use Rattle.disk.specs.declared.file_id.TopicId.{TopicId};
ghost use Rattle.disk.specs.Disk.{Image, Kept as Counted, Failed};
ghost use Rattle.disk.specs.Areas.{Within};
ghost use Rattle.disk.specs.Contents.{Steady};
ghost use Rattle.gated_log.specs.declared.refusal.Refusal.{Refusal};
ghost use Rattle.gated_log.specs.declared.start.Start.{Start as Begins};
ghost use Rattle.records.specs.Maps.{Kept};
ghost use Rattle.two_slot.specs.Fresh.{HaveFirstHeaders};
ghost use Rattle.two_slot.specs.Slots.{SlotsOf};
ghost use Rattle.cursor_store.specs.Cursors.{Holds, StandsFor, topic_of, start_of, written};

use crate::CursorStore;
use crate::snapshot::snapshot_of;
use disk::{Shelf, TopicId};
use gated_log::Refusal;
use two_slot::TwoSlot;

impl CursorStore {
    /// Makes the slots of another topic, of a folder of version 2, whatever was in them: slot 0 with generation 1, where the ledger begins and a snapshot of
    /// what is kept, and slot 1 closed. All memory is taken first. Until the `Ok` a crash may leave anything of these files.
    pub fn copy_to<S: Shelf>(&self, shelf: &mut S, topic: TopicId) -> Result<(), Refusal>
        requires other { topic_of self.now ≢ topic }
        requires two { topic.folder ≡ Folder.Two }
        // The other topic's files stand for the same start and subscriptions then, whatever crash comes.
        ensures copied { (entries : ℕ) (start : Begins) (kept : Kept) → Steady (Holds self.now entries start) (written self.now) (S.disk shelf.old) kept →
            OnOk result ((c : Image) → (S.disk shelf.new).may_leave c → StandsFor topic entries start c kept) }
        // Slot 0 counts with generation 1, its header says where the ledger begins, and slot 1 is closed.
        ensures fresh { (entries : ℕ) (start : Begins) (kept : Kept) → Steady (Holds self.now entries start) (written self.now) (S.disk shelf.old) kept →
            OnOk result ((c : Image) → (S.disk shelf.new).may_leave c → HaveFirstHeaders topic (start_of self.now) c) }
        ensures others { (S.disk shelf.old).honest → Within (SlotsOf topic) (λ c. Unit {0}) (S.disk shelf.old) (S.disk shelf.new) }
        ensures refused { IfErr result (λ e. (e ≡ Refusal.NoMemory) ⊎ (e ≡ Refusal.Device)) }
        ensures cause { IsErrOf result Refusal.Device → Failed (S.disk shelf.old) (S.disk shelf.new) }
        ensures kept { Counted (S.disk shelf.old) (S.disk shelf.new) }
    {
        let snapshot = snapshot_of(self.alloc, &self.told.kept)?;
        TwoSlot::create_with(shelf, topic, self.told.start, snapshot)?;
        Ok(())
    }
}
