// The ledger begins later.
ghost use Rattle.std.specs.Prelude.{◌≡◌, ◌<◌, ◌≤◌, ℕ, true, false, IfOk, OnOk, IsErr, IsErrOf};
ghost use Rattle.disk.specs.Disk.{Kept as Counted, Failed};
ghost use Rattle.disk.specs.Contents.{Steady, Appends};
ghost use Rattle.records.specs.Maps.{Kept};
ghost use Rattle.two_slot.specs.Slots.{SlotsOf};
ghost use Rattle.gated_log.specs.declared.start.Start.{Start as Begins};
ghost use Rattle.cursor_store.specs.Cursors.{Holds, StandsFor, start_of, content, written, topic_of, failed, counted, replaces_left};
ghost use Rattle.cursor_store.specs.ItemBytes.{Means};
ghost use Rattle.cursor_store.specs.Trimming.{HasGeneration, IsTrimFor, IsTrimIf};

use crate::snapshot::snapshot_of;
use crate::told::may_begin;
use crate::{CursorStore, PreparedTrim};
use disk::{DeviceError, Shelf};
use gated_log::{PrepareError, Start};
use records::KeptSubscriptions;

// No ledger has more entries.
const MOST_ENTRIES: u64 = 1 << 62;

impl CursorStore {
    // What a replace writes that says that the ledger begins there, beside what is kept then; none where it may not begin there, or
    // where there is no generation for that replace, behind one that goes first where one is due.
    pub(crate) fn trim_beside(
        &self,
        kept: &KeptSubscriptions,
        due: bool,
        start: Start,
    ) -> Result<Option<PreparedTrim>, PrepareError>
        ensures prepared { IfOk result (λ trim. IsTrimIf IsTrimFor (HasGeneration due (replaces_left self.now)) trim (start_of self.now) kept.now start) }
        ensures fits { ¬ IsErrOf result PrepareError.TooLarge }
    {
        if !may_begin(kept, self.told.start, start, MOST_ENTRIES) {
            return Ok(None);
        }
        if self.replaces_left() <= u64::from(due) {
            return Ok(None);
        }
        let snapshot = snapshot_of(self.alloc, kept)?;
        Ok(Some(PreparedTrim { snapshot, start }))
    }

    /// Replaces the slot that counts by a snapshot that says where the ledger begins then, with six device calls. No record was
    /// appended behind it. After an error the store is failed.
    pub fn replace_trimmed<S: Shelf>(
        &mut self,
        shelf: &mut S,
        prepared: PreparedTrim,
    ) -> Result<(), DeviceError>
        requires generation { 0 < replaces_left self.old }
        // A crash at any moment of the call leaves the old start or this one, with what is kept, and other files as they were.
        ensures trims { (entries : ℕ) (from start : Begins) (kept : Kept) → IsTrimFor prepared from kept start → start.base ≤ entries → Steady (Holds self.old entries from) (written self.old) (S.disk shelf.old) kept →
            Appends result (λ d s. Steady (Holds self.new entries s) (written self.new) d kept) (λ c. start_of self.new) (SlotsOf (topic_of self.old)) (λ image s. StandsFor (topic_of self.old) entries s image kept) (S.disk shelf.old) (S.disk shelf.new) from start }
        ensures snapshot { (entries : ℕ) (from start : Begins) (kept : Kept) → IsTrimFor prepared from kept start → start.base ≤ entries → Steady (Holds self.old entries from) (written self.old) (S.disk shelf.old) kept →
            OnOk result (Means entries start (written self.new (S.disk shelf.new).seen) kept) }
        ensures start { (from start : Begins) (kept : Kept) → IsTrimFor prepared from kept start → OnOk result (start_of self.new ≡ start) }
        ensures content { content self.new ≡ content self.old }
        ensures count { OnOk result (counted self.new ≡ 0) }
        ensures topic { topic_of self.new ≡ topic_of self.old }
        ensures works { OnOk result (failed self.new ≡ false) }
        ensures failed { IsErr result → failed self.new ≡ true }
        ensures remembered { IsErr result → start_of self.new ≡ start_of self.old }
        ensures stays_failed { failed self.old ≡ true → IsErr result × (shelf.new ≡ shelf.old) }
        ensures cause { failed self.old ≡ false → IsErr result → Failed (S.disk shelf.old) (S.disk shelf.new) }
        ensures kept { Counted (S.disk shelf.old) (S.disk shelf.new) }
    {
        let PreparedTrim { snapshot, start } = prepared;
        self.slots.replace(shelf, snapshot, start)?;
        self.told.start = start;
        self.appended = 0;
        Ok(())
    }
}
