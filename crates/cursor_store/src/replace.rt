// A snapshot goes before the records of an append, where one is due.
ghost use Rattle.std.specs.Prelude.{◌≡◌, ◌+◌, ℕ, Bool, true, false, Option, IfSome, OnOk, IsErr};
ghost use Rattle.disk.specs.declared.file_id.Folder.{Folder};
ghost use Rattle.gated_log.specs.Wholes.{folder_in};
ghost use Rattle.disk.specs.Disk.{Kept as Counted, Failed};
ghost use Rattle.disk.specs.Contents.{Steady, Appends};
ghost use Rattle.records.specs.Maps.{Kept};
ghost use Rattle.gated_log.specs.declared.start.Start.{Start};
ghost use Rattle.two_slot.specs.Slots.{SlotsOf};
ghost use Rattle.cursor_store.specs.Cursors.{Holds, StandsFor, content, written, topic_of, failed, counted, can_replace, is_due, replaces_left};
ghost use Rattle.cursor_store.specs.Items.{told_of};
ghost use Rattle.cursor_store.specs.Behind.{IsNextBase};
ghost use Rattle.cursor_store.specs.Snapshots.{IsSnapshotIf};
ghost use Rattle.cursor_store.specs.Replaced.{HasReplaced};

use crate::CursorStore;
use disk::{DeviceError, Folder, Shelf};
use gated_log::{BatchList, PreparedLog};

// Our own rule: how many records an append finds in the slot that counts, behind its snapshot, where it replaces it first.
pub(crate) const REPLACE_AFTER: u64 = 4_096;

impl CursorStore {
    // For how many replaces there is a generation: none in a folder of version 1, whose headers don't say where a ledger begins.
    pub(crate) fn replaces_left(&self) -> u64
        ensures { result ≡ replaces_left self.now }
    {
        match self.slots.id().topic.folder {
            Folder::One => 0,
            Folder::Two => self.slots.replaces_left(),
        }
    }

    // Whether what is told can be told anew.
    fn can_replace(&self) -> bool
        ensures { result ≡ can_replace self.now }
    {
        self.replaces_left() > 0
    }

    // Whether an append first replaces the slot that counts.
    pub(crate) fn is_due(&self) -> bool
        ensures { result ≡ is_due self.now }
    {
        if self.appended < REPLACE_AFTER {
            return false;
        }
        self.can_replace()
    }

    // Puts a snapshot in the place of all records, where there is one: six device calls, or none.
    pub(crate) fn replace_first<S: Shelf>(
        &mut self,
        shelf: &mut S,
        snapshot: Option<PreparedLog>,
    ) -> Result<(), DeviceError>
        requires { IfSome snapshot (λ log. folder_in log ≡ Folder.Two) }
        // What is told is told at each moment of the call, and after a failure.
        ensures replaces { (entries : ℕ) (start : Start) (kept : Kept) → IsSnapshotIf (is_due self.old) self.old.told snapshot → Steady (Holds self.old entries start) (written self.old) (S.disk shelf.old) kept →
            Appends result (Steady (Holds self.new entries start) (written self.new)) (λ c. content self.new) (SlotsOf (topic_of self.old)) (StandsFor (topic_of self.old) entries start) (S.disk shelf.old) (S.disk shelf.new) kept kept }
        ensures base { (entries : ℕ) (start : Start) (kept : Kept) → IsSnapshotIf (is_due self.old) self.old.told snapshot → Steady (Holds self.old entries start) (written self.old) (S.disk shelf.old) kept →
            OnOk result (IsNextBase (is_due self.old) (topic_of self.old).folder entries (told_of start kept) (written self.old (S.disk shelf.old).seen) (written self.new (S.disk shelf.new).seen)) }
        ensures replaced { IsSnapshotIf (is_due self.old) self.old.told snapshot → OnOk result (HasReplaced (is_due self.old) self.old self.new) }
        ensures told { self.new.told ≡ self.old.told }
        ensures topic { topic_of self.new ≡ topic_of self.old }
        ensures works { OnOk result (failed self.new ≡ failed self.old) }
        ensures failed { IsErr result → failed self.new ≡ true }
        ensures stays_failed { failed self.old ≡ true → (failed self.new ≡ true) × (shelf.new ≡ shelf.old) }
        ensures cause { failed self.old ≡ false → IsErr result → Failed (S.disk shelf.old) (S.disk shelf.new) }
        ensures kept { Counted (S.disk shelf.old) (S.disk shelf.new) }
    {
        let Some(snapshot) = snapshot else {
            return Ok(());
        };
        if !self.can_replace() {
            return Ok(());
        }
        self.slots.replace(shelf, snapshot, self.told.start)?;
        self.appended = 0;
        Ok(())
    }
}
