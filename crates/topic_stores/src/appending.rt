// The two parts of an append to each store of a topic.
ghost use Rattle.std.specs.Prelude.{◌≡◌, ◌+◌, ◌<◌, ◌≤◌, ◌^◌, ◌&&◌, is_some, List, ℕ, true, false, length, sum_by, All, IfOk, IfSome, OnOk, IsErr};
ghost use Rattle.disk.specs.Disk.{Image, Kept as Counted, Failed};
ghost use Rattle.managed_ledger.specs.Entries.{Entries, Ledger, AreEntries, lengthened};
ghost use Rattle.managed_ledger.specs.Points.{counts_with};
ghost use Rattle.managed_ledger.specs.Shape.{total};
ghost use Rattle.gated_log.specs.declared.start.Start.{Start};
ghost use Rattle.records.specs.Floors.{StartFrom};
ghost use Rattle.disk.specs.Contents.{Settled, Steady, Appends, StaysSo};
ghost use Rattle.records.specs.declared.record.Record.{Record};
ghost use Rattle.records.specs.Maps.{Kept};
ghost use Rattle.records.specs.Records.{AreFormed, after_all};
ghost use Rattle.cursor_store.specs.Behind.{is_due_at};
ghost use Rattle.topic_stores.specs.Appends.{PreparedFor, IsOneReplaceLess};
ghost use Rattle.topic_stores.specs.Writing.{AreKnownWhole};

use bytes::Bytes;
use cursor_store::SubStore;
use disk::{DeviceError, Shelf};
use gated_log::PrepareError;
use managed_ledger::EntryStore;
use records::Record;
use std::alloc::AllocError;

/// Builds what an append of these entries writes; nothing where there are none. Reaches no device.
pub(crate) fn prepare_entries<E: EntryStore>(
    store: &mut E,
    entries: &[Bytes],
) -> Result<Option<E::Prepared>, AllocError>
    requires readable { AreEntries entries.now }
    requires few { length entries.now ≤ 1024 }
    requires small { sum_by length entries.now ≤ 16777216 }
    requires room { (E.start_of store.old).base + total (E.counts store.old) + length entries.now ≤ 2 ^ 62 }
    ensures prepared { IfOk result (λ prepared. PreparedFor E.is_for prepared entries.now) }
    ensures some { IfOk result (λ prepared. IfSome prepared (λ p. 0 < length entries.now)) }
    ensures has_room { IfOk result (λ prepared. IfSome prepared (E.has_room store.new)) }
    ensures unchanged { StaysSo (E.holds store.old) (E.holds store.new) (E.content store.old) (E.content store.new) }
    ensures topic { E.topic_of store.new ≡ E.topic_of store.old }
    ensures start { E.start_of store.new ≡ E.start_of store.old }
    ensures counts { E.counts store.new ≡ E.counts store.old }
    ensures per_ledger { E.per_ledger store.new ≡ E.per_ledger store.old }
    ensures failed { E.failed store.new ≡ E.failed store.old }
{
    if entries.is_empty() {
        return Ok(None);
    }
    match store.prepare(entries) {
        Ok(prepared) => Ok(Some(prepared)),
        Err(PrepareError::NoMemory) => Err(AllocError),
        // They aren't too many bytes for a batch.
        Err(PrepareError::TooLarge) => unreachable!(),
    }
}

/// Builds what an append of these changes writes; nothing where there are none. Reaches no device.
pub(crate) fn prepare_changes<C: SubStore>(
    store: &mut C,
    changes: &[Record],
) -> Result<Option<C::Prepared>, AllocError>
    requires formed { AreFormed (2 ^ 62) (C.content store.old) changes.now }
    requires few { length changes.now ≤ 65536 }
    ensures prepared { IfOk result (λ prepared. PreparedFor (C.is_for store.new) prepared changes.now) }
    ensures holds_still { (entries : ℕ) (said : Start) (c : Image) (kept : Kept) → C.holds store.old entries said c kept → C.holds store.new entries said c kept }
    ensures written { (c : Image) → C.written store.new c ≡ C.written store.old c }
    ensures content { C.content store.new ≡ C.content store.old }
    ensures topic { C.topic_of store.new ≡ C.topic_of store.old }
    ensures start { C.start_of store.new ≡ C.start_of store.old }
    ensures counted { C.counted store.new ≡ C.counted store.old }
    ensures can_replace { C.can_replace store.new ≡ C.can_replace store.old }
    ensures replaces_left { C.replaces_left store.new ≡ C.replaces_left store.old }
    ensures failed { C.failed store.new ≡ C.failed store.old }
{
    if changes.is_empty() {
        return Ok(None);
    }
    match store.prepare(changes) {
        Ok(prepared) => Ok(Some(prepared)),
        Err(PrepareError::NoMemory) => Err(AllocError),
        // They aren't too many bytes for a batch.
        Err(PrepareError::TooLarge) => unreachable!(),
    }
}

/// Writes the entries that were prepared.
pub(crate) fn append_entries<E: EntryStore, S: Shelf>(
    store: &mut E,
    shelf: &mut S,
    prepared: Option<E::Prepared>,
) -> Result<(), DeviceError>
    requires { IfSome prepared (E.has_room store.old) }
    // A crash at any moment of the call leaves all the entries or none, and other files as they were.
    ensures appends { (ledger : Ledger) (batch : Entries) → PreparedFor E.is_for prepared batch → Settled (E.holds store.old) (S.disk shelf.old) ledger →
        Appends result (Settled (E.holds store.new)) (E.content store.new) (E.area (E.topic_of store.old)) (E.stands (E.topic_of store.old) (E.start_of store.old)) (S.disk shelf.old) (S.disk shelf.new) ledger (lengthened ledger batch) }

    ensures counts { (batch : Entries) → PreparedFor E.is_for prepared batch → OnOk result (total (E.counts store.new) ≡ total (E.counts store.old) + length batch) }
    ensures segments { (batch : Entries) → PreparedFor E.is_for prepared batch → IfSome prepared (λ p. 0 < length batch) → OnOk result (E.counts store.new ≡ counts_with (E.per_ledger store.old) (length batch) (E.counts store.old)) }
    ensures known { (batch : Entries) → PreparedFor E.is_for prepared batch → IfSome prepared (λ p. 0 < length batch) → IsErr result → AreKnownWhole (E.per_ledger store.old) (length batch) (E.counts store.old) (E.counts store.new) }
    ensures per_ledger { E.per_ledger store.new ≡ E.per_ledger store.old }
    ensures total_stays { IsErr result → total (E.counts store.new) ≡ total (E.counts store.old) }
    ensures topic { E.topic_of store.new ≡ E.topic_of store.old }
    ensures start { E.start_of store.new ≡ E.start_of store.old }
    ensures works { E.failed store.old ≡ false → OnOk result (E.failed store.new ≡ false) }
    ensures fails { IsErr result → E.failed store.new ≡ true }
    ensures cause { E.failed store.old ≡ false → IsErr result → Failed (S.disk shelf.old) (S.disk shelf.new) }
    ensures kept { Counted (S.disk shelf.old) (S.disk shelf.new) }
{
    let Some(prepared) = prepared else {
        return Ok(());
    };
    let _ = store.append_prepared(shelf, prepared)?;
    Ok(())
}

/// Writes the changes that were prepared.
pub(crate) fn append_changes<C: SubStore, S: Shelf>(
    store: &mut C,
    shelf: &mut S,
    prepared: Option<C::Prepared>,
) -> Result<(), DeviceError>
    // A crash at any moment of the call leaves all the changes or none, and other files as they were.
    ensures appends { (entries : ℕ) (said : Start) (kept : Kept) (changes : List Record) → PreparedFor (C.is_for store.old) prepared changes → AreFormed entries kept changes → StartFrom said.base changes →
        Steady (C.holds store.old entries said) (C.written store.old) (S.disk shelf.old) kept →
        Appends result (Steady (C.holds store.new entries said) (C.written store.new)) (λ c. C.content store.new) (C.area (C.topic_of store.old)) (C.stands (C.topic_of store.old) entries said) (S.disk shelf.old) (S.disk shelf.new) kept (after_all changes kept) }

    ensures content { (changes : List Record) → PreparedFor (C.is_for store.old) prepared changes → OnOk result (C.content store.new ≡ after_all changes (C.content store.old)) }
    // A replace that is due takes a generation.
    ensures replaces_left { (changes : List Record) → PreparedFor (C.is_for store.old) prepared changes →
        OnOk result (IsOneReplaceLess (is_some prepared && is_due_at (C.counted store.old) (C.can_replace store.old)) (C.replaces_left store.old) (C.replaces_left store.new)) }
    ensures remembered { IsErr result → C.content store.new ≡ C.content store.old }
    ensures topic { C.topic_of store.new ≡ C.topic_of store.old }
    ensures start { C.start_of store.new ≡ C.start_of store.old }
    ensures works { C.failed store.old ≡ false → OnOk result (C.failed store.new ≡ false) }
    ensures fails { IsErr result → C.failed store.new ≡ true }
    ensures cause { C.failed store.old ≡ false → IsErr result → Failed (S.disk shelf.old) (S.disk shelf.new) }
    ensures kept { Counted (S.disk shelf.old) (S.disk shelf.new) }
{
    let Some(prepared) = prepared else {
        return Ok(());
    };
    store.append_prepared(shelf, prepared)
}
