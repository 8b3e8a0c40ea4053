// Records are appended.
ghost use Rattle.std.specs.Prelude.{◌≡◌, ◌+◌, ℕ, List, [], ◌∷◌, ◌++◌, Bool, true, false, min, length, OnOk, IsErr, if◌then◌else◌, map as each};
ghost use Rattle.disk.specs.Disk.{Kept as Counted, Failed};
ghost use Rattle.disk.specs.Contents.{Steady, Appends};
ghost use Rattle.gated_log.specs.Logs.{IsBatchOf};
ghost use Rattle.records.specs.declared.record.Record.{Record};
ghost use Rattle.gated_log.specs.declared.start.Start.{Start};
ghost use Rattle.cursor_store.specs.declared.item.Item.{Item};
ghost use Rattle.records.specs.Maps.{Kept};
ghost use Rattle.records.specs.Records.{AreFormed, after_all};
ghost use Rattle.records.specs.Bytes.{body_of};
ghost use Rattle.two_slot.specs.Slots.{SlotsOf};
ghost use Rattle.cursor_store.specs.Cursors.{Holds, StandsFor, IsFor, start_of, content, written, topic_of, failed, counted, is_due, replaces_left};
ghost use Rattle.records.specs.Floors.{StartFrom};
ghost use Rattle.cursor_store.specs.Items.{told_of};
ghost use Rattle.cursor_store.specs.Behind.{counted_on, AreGrown};

use crate::replace::REPLACE_AFTER;
use crate::{CursorStore, PreparedRecords};
use disk::{DeviceError, Shelf};
use gated_log::{BatchList, PreparedBatch};
use records::KeptSubscriptions;

impl CursorStore {
    // Appends the batch of some records, with four device calls.
    fn append_batch<S: Shelf>(
        &mut self,
        shelf: &mut S,
        batch: PreparedBatch,
        count: u64,
        kept: KeptSubscriptions,
    ) -> Result<(), DeviceError>
        ensures appends { (entries : ℕ) (start : Start) (before : Kept) (records : List Record) → IsBatchOf batch (body_of records) → kept ≡ after_all records (content self.old) → AreFormed entries before records → StartFrom start.base records → Steady (Holds self.old entries start) (written self.old) (S.disk shelf.old) before →
            Appends result (Steady (Holds self.new entries start) (written self.new)) (λ c. content self.new) (SlotsOf (topic_of self.old)) (StandsFor (topic_of self.old) entries start) (S.disk shelf.old) (S.disk shelf.new) before (after_all records before) }
        ensures grows { (entries : ℕ) (start : Start) (before : Kept) (records : List Record) → IsBatchOf batch (body_of records) → Steady (Holds self.old entries start) (written self.old) (S.disk shelf.old) before →
            OnOk result (written self.new (S.disk shelf.new).seen ≡ written self.old (S.disk shelf.old).seen ++ body_of records ∷ []) }
        ensures content { OnOk result (content self.new ≡ kept) }
        ensures count { OnOk result (counted self.new ≡ min 4096 (counted self.old + count)) }
        ensures start { start_of self.new ≡ start_of self.old }
        ensures topic { topic_of self.new ≡ topic_of self.old }
        ensures left { replaces_left self.new ≡ replaces_left self.old }
        ensures works { OnOk result (failed self.new ≡ false) }
        ensures failed { IsErr result → failed self.new ≡ true }
        ensures remembered { IsErr result → content self.new ≡ content self.old }
        ensures stays_failed { failed self.old ≡ true → IsErr result × (shelf.new ≡ shelf.old) }
        ensures cause { failed self.old ≡ false → IsErr result → Failed (S.disk shelf.old) (S.disk shelf.new) }
        ensures kept { Counted (S.disk shelf.old) (S.disk shelf.new) }
    {
        self.slots.append_prepared(shelf, batch)?;
        self.told.kept = kept;
        self.appended = self.appended.saturating_add(count).min(REPLACE_AFTER);
        Ok(())
    }

    /// Writes what was prepared. Where 4,096 records or more were appended since the slots were opened or replaced, and there is
    /// a generation for it, the slot that counts is first replaced by a snapshot of what is kept: ten device calls, and four
    /// else. After an error the store is failed, as `SubStore::append_prepared` says.
    pub fn append_records<S: Shelf>(
        &mut self,
        shelf: &mut S,
        prepared: PreparedRecords,
    ) -> Result<(), DeviceError>
        // A crash at any moment of the call leaves all the records or none, and other files as they were.
        ensures appends { (entries : ℕ) (start : Start) (kept : Kept) (records : List Record) → IsFor self.old prepared records → AreFormed entries kept records → StartFrom start.base records → Steady (Holds self.old entries start) (written self.old) (S.disk shelf.old) kept →
            Appends result (Steady (Holds self.new entries start) (written self.new)) (λ c. content self.new) (SlotsOf (topic_of self.old)) (StandsFor (topic_of self.old) entries start) (S.disk shelf.old) (S.disk shelf.new) kept (after_all records kept) }
        ensures grows { (entries : ℕ) (start : Start) (kept : Kept) (records : List Record) → IsFor self.old prepared records → Steady (Holds self.old entries start) (written self.old) (S.disk shelf.old) kept →
            OnOk result (AreGrown (is_due self.old) (topic_of self.old).folder entries (told_of start kept) (written self.old (S.disk shelf.old).seen) (written self.new (S.disk shelf.new).seen) (each Item.Change records)) }
        ensures content { (records : List Record) → IsFor self.old prepared records → OnOk result (content self.new ≡ after_all records (content self.old)) }
        ensures left { (records : List Record) → IsFor self.old prepared records → OnOk result ((if is_due self.old then replaces_left self.new + 1 else replaces_left self.new) ≡ replaces_left self.old) }
        ensures count { (records : List Record) → IsFor self.old prepared records → OnOk result (counted self.new ≡ counted_on (is_due self.old) (counted self.old) (length records)) }
        ensures start { start_of self.new ≡ start_of self.old }
        ensures topic { topic_of self.new ≡ topic_of self.old }
        ensures works { OnOk result (failed self.new ≡ false) }
        ensures failed { IsErr result → failed self.new ≡ true }
        ensures remembered { IsErr result → content self.new ≡ content self.old }
        ensures stays_failed { failed self.old ≡ true → IsErr result × (shelf.new ≡ shelf.old) }
        ensures cause { failed self.old ≡ false → IsErr result → Failed (S.disk shelf.old) (S.disk shelf.new) }
        ensures kept { Counted (S.disk shelf.old) (S.disk shelf.new) }
    {
        let PreparedRecords {
            batch,
            count,
            kept,
            snapshot,
        } = prepared;
        self.replace_first(shelf, snapshot)?;
        self.append_batch(shelf, batch, count, kept)
    }
}
