// The parts of a write to both stores of a topic that reach the device.
ghost use Rattle.std.specs.Prelude.{◌≡◌, ◌⊎◌, ◌+◌, ◌-◌, ◌<◌, ◌≤◌, ◌^◌, ◌||◌, ◌&&◌, is_some, List, ℕ, true, false, length, drop, IfSome, OnOk, IsErr};
ghost use Rattle.disk.specs.Areas.{FilesOf, Within};
ghost use Rattle.disk.specs.Contents.{BeforeOrAfter};
ghost use Rattle.disk.specs.Disk.{Kept as Counted, Failed};
ghost use Rattle.managed_ledger.specs.Entries.{Entries, Ledger, end_of, lengthened, trimmed};
ghost use Rattle.managed_ledger.specs.Points.{Begins, counts_with};
ghost use Rattle.managed_ledger.specs.Shape.{total};
ghost use Rattle.records.specs.declared.record.Record.{Record};
ghost use Rattle.records.specs.Maps.{Kept};
ghost use Rattle.records.specs.Records.{AreFormed, after_all};
ghost use Rattle.records.specs.Floors.{StartFrom};
ghost use Rattle.cursor_store.specs.Behind.{is_due_at};
ghost use Rattle.topic_stores.specs.Appends.{PreparedFor, IsOneReplaceLess};
ghost use Rattle.topic_stores.specs.Views.{Settled, both, entry_view, sub_view, stand};
ghost use Rattle.topic_stores.specs.Writing.{AreKnownWhole, IsLeft, StandsFor};

use crate::TopicStores;
use crate::appending::{append_changes, append_entries};
use crate::trim::PreparedTrim;
use cursor_store::SubStore;
use disk::{DeviceError, Shelf};
use managed_ledger::EntryStore;

impl<E: EntryStore, C: SubStore> TopicStores<E, C> {
    // An error where a store is failed.
    pub(crate) fn check_works(&self) -> Result<(), DeviceError>
        ensures works { OnOk result ((E.failed self.now.entries || C.failed self.now.subscriptions) ≡ false) }
        ensures fails { IsErr result → (E.failed self.now.entries || C.failed self.now.subscriptions) ≡ true }
    {
        if self.entries.is_failed() {
            return Err(DeviceError);
        }
        if self.subscriptions.is_failed() {
            return Err(DeviceError);
        }
        Ok(())
    }

    // Writes what was prepared, the entries before the changes.
    pub(crate) fn append<S: Shelf>(
        &mut self,
        shelf: &mut S,
        entries: Option<E::Prepared>,
        changes: Option<C::Prepared>,
    ) -> Result<(), DeviceError>
        requires { IfSome entries (E.has_room self.old.entries) }
        ensures written { (ledger : Ledger) (kept : Kept) (batch : Entries) (records : List Record) → PreparedFor E.is_for entries batch → PreparedFor (C.is_for self.old.subscriptions) changes records →
            AreFormed (end_of (lengthened ledger batch)) kept records → StartFrom (C.start_of self.old.subscriptions).base records →
            Settled (both (entry_view E.topic_of E.start_of E.counts E.per_ledger E.failed E.holds self.old.entries) (sub_view C.topic_of C.start_of C.content C.failed C.holds C.written self.old.subscriptions)) (S.disk shelf.old) ledger kept →
            OnOk result (Settled (both (entry_view E.topic_of E.start_of E.counts E.per_ledger E.failed E.holds self.new.entries) (sub_view C.topic_of C.start_of C.content C.failed C.holds C.written self.new.subscriptions)) (S.disk shelf.new) (lengthened ledger batch) (after_all records kept)) }
        // A crash at any moment of the call leaves the old entries and subscriptions, those and the entries, or all of it.
        ensures within { (ledger : Ledger) (kept : Kept) (batch : Entries) (records : List Record) (limit : ℕ) → PreparedFor E.is_for entries batch → PreparedFor (C.is_for self.old.subscriptions) changes records →
            AreFormed (end_of (lengthened ledger batch)) kept records → StartFrom (C.start_of self.old.subscriptions).base records →
            Settled (both (entry_view E.topic_of E.start_of E.counts E.per_ledger E.failed E.holds self.old.entries) (sub_view C.topic_of C.start_of C.content C.failed C.holds C.written self.old.subscriptions)) (S.disk shelf.old) ledger kept →
            Within (FilesOf (E.topic_of self.old.entries)) (StandsFor (stand E.stands C.stands (E.topic_of self.old.entries)) (IsLeft ledger kept batch records limit)) (S.disk shelf.old) (S.disk shelf.new) }

        ensures start { E.start_of self.new.entries ≡ E.start_of self.old.entries }
        ensures said { C.start_of self.new.subscriptions ≡ C.start_of self.old.subscriptions }
        ensures counts { (batch : Entries) → PreparedFor E.is_for entries batch → IfSome entries (λ p. 0 < length batch) → OnOk result (E.counts self.new.entries ≡ counts_with (E.per_ledger self.old.entries) (length batch) (E.counts self.old.entries)) }
        ensures known { (batch : Entries) → PreparedFor E.is_for entries batch → IfSome entries (λ p. 0 < length batch) → IsErr result → AreKnownWhole (E.per_ledger self.old.entries) (length batch) (E.counts self.old.entries) (E.counts self.new.entries) }
        ensures total { (batch : Entries) → PreparedFor E.is_for entries batch → OnOk result (total (E.counts self.new.entries) ≡ total (E.counts self.old.entries) + length batch) }
        ensures total_either { (batch : Entries) → PreparedFor E.is_for entries batch → (total (E.counts self.new.entries) ≡ total (E.counts self.old.entries)) ⊎ (total (E.counts self.new.entries) ≡ total (E.counts self.old.entries) + length batch) }
        ensures content { (records : List Record) → PreparedFor (C.is_for self.old.subscriptions) changes records → OnOk result (C.content self.new.subscriptions ≡ after_all records (C.content self.old.subscriptions)) }
        ensures remembered { IsErr result → C.content self.new.subscriptions ≡ C.content self.old.subscriptions }
        // A replace that is due takes a generation.
        ensures replaces_left { (records : List Record) → PreparedFor (C.is_for self.old.subscriptions) changes records →
            OnOk result (IsOneReplaceLess (is_some changes && is_due_at (C.counted self.old.subscriptions) (C.can_replace self.old.subscriptions)) (C.replaces_left self.old.subscriptions) (C.replaces_left self.new.subscriptions)) }
        ensures per_ledger { E.per_ledger self.new.entries ≡ E.per_ledger self.old.entries }
        ensures topic { E.topic_of self.new.entries ≡ E.topic_of self.old.entries }
        ensures slots_topic { C.topic_of self.new.subscriptions ≡ C.topic_of self.old.subscriptions }
        ensures works { (E.failed self.old.entries || C.failed self.old.subscriptions) ≡ false → OnOk result ((E.failed self.new.entries || C.failed self.new.subscriptions) ≡ false) }
        ensures fails { IsErr result → (E.failed self.new.entries || C.failed self.new.subscriptions) ≡ true }
        ensures cause { (E.failed self.old.entries || C.failed self.old.subscriptions) ≡ false → IsErr result → Failed (S.disk shelf.old) (S.disk shelf.new) }
        ensures kept { Counted (S.disk shelf.old) (S.disk shelf.new) }
    {
        append_entries(&mut self.entries, shelf, entries)?;
        append_changes(&mut self.subscriptions, shelf, changes)?;
        Ok(())
    }

    // The ledger begins there: the slots say so, then the segments before it are given back.
    pub(crate) fn trim<S: Shelf>(
        &mut self,
        shelf: &mut S,
        trim: PreparedTrim<C::PreparedTrim>,
    ) -> Result<(), DeviceError>
        requires begins { Begins (E.start_of self.old.entries) (E.counts self.old.entries) trim.start }
        requires in_range { trim.start.first ≤ 2 ^ 62 }
        requires generation { 0 < C.replaces_left self.old.subscriptions }
        ensures trimmed { (ledger : Ledger) (kept : Kept) → C.trims trim.slots (C.start_of self.old.subscriptions) kept trim.start →
            Settled (both (entry_view E.topic_of E.start_of E.counts E.per_ledger E.failed E.holds self.old.entries) (sub_view C.topic_of C.start_of C.content C.failed C.holds C.written self.old.subscriptions)) (S.disk shelf.old) ledger kept →
            OnOk result (Settled (both (entry_view E.topic_of E.start_of E.counts E.per_ledger E.failed E.holds self.new.entries) (sub_view C.topic_of C.start_of C.content C.failed C.holds C.written self.new.subscriptions)) (S.disk shelf.new) (trimmed trim.start.base ledger) kept) }
        // A crash at any moment of the call leaves the ledger as it was, or from there on.
        ensures within { (ledger : Ledger) (kept : Kept) → C.trims trim.slots (C.start_of self.old.subscriptions) kept trim.start →
            Settled (both (entry_view E.topic_of E.start_of E.counts E.per_ledger E.failed E.holds self.old.entries) (sub_view C.topic_of C.start_of C.content C.failed C.holds C.written self.old.subscriptions)) (S.disk shelf.old) ledger kept →
            Within (FilesOf (E.topic_of self.old.entries)) (BeforeOrAfter (λ c l. stand E.stands C.stands (E.topic_of self.old.entries) c l kept) ledger (trimmed trim.start.base ledger)) (S.disk shelf.old) (S.disk shelf.new) }

        ensures said { (kept : Kept) → C.trims trim.slots (C.start_of self.old.subscriptions) kept trim.start → OnOk result ((C.start_of self.new.subscriptions).base ≡ trim.start.base) }
        ensures counts_stay { IsErr result → E.counts self.new.entries ≡ E.counts self.old.entries }
        ensures counts { OnOk result (E.counts self.new.entries ≡ drop (trim.start.first - (E.start_of self.old.entries).first) (E.counts self.old.entries)) }
        ensures end_stays { (E.start_of self.new.entries).base + total (E.counts self.new.entries) ≡ (E.start_of self.old.entries).base + total (E.counts self.old.entries) }
        ensures content { C.content self.new.subscriptions ≡ C.content self.old.subscriptions }
        ensures per_ledger { E.per_ledger self.new.entries ≡ E.per_ledger self.old.entries }
        ensures topic { E.topic_of self.new.entries ≡ E.topic_of self.old.entries }
        ensures works { (E.failed self.old.entries || C.failed self.old.subscriptions) ≡ false → OnOk result ((E.failed self.new.entries || C.failed self.new.subscriptions) ≡ false) }
        ensures fails { IsErr result → (E.failed self.new.entries || C.failed self.new.subscriptions) ≡ true }
        ensures cause { (E.failed self.old.entries || C.failed self.old.subscriptions) ≡ false → IsErr result → Failed (S.disk shelf.old) (S.disk shelf.new) }
        ensures kept { Counted (S.disk shelf.old) (S.disk shelf.new) }
    {
        let PreparedTrim { start, slots } = trim;
        self.subscriptions.trim(shelf, slots)?;
        self.entries.trim(shelf, start)?;
        Ok(())
    }
}
