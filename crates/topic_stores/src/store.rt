// The durable half of a topic.
ghost use Rattle.std.specs.Prelude.{◌≡◌, ◌⊎◌, ◌<◌, ◌≤◌, ◌+◌, ◌^◌, ◌↔◌, [], ◌∷◌, List, ℕ, Some, true, false, length, IfOk, IfErr, OnOk, IsErr, IsErrOf, IsTrue, map as each};
ghost use Rattle.std.specs.List.{AllByRecursion};
ghost use Rattle.std.specs.FinMap as map;
ghost use Rattle.disk.specs.Disk.{Image, Same, Leaves, Kept as Counted, Failed};
ghost use Rattle.disk.specs.Areas.{Agree, OfTopic, Within};
ghost use Rattle.gated_log.specs.declared.refusal.Refusal.{Refusal};
ghost use Rattle.gated_log.specs.declared.refusal.Refusal.TheVariants as refusal;
ghost use Rattle.managed_ledger.specs.Entries.{Entries, Ledger, AreEntries, begun_at, end_of, entry_at, lengthened, trimmed, whole};
ghost use Rattle.records.specs.declared.kept_cursor.KeptCursor.{KeptCursor as Cursor};
ghost use Rattle.records.specs.Names.{is_subscription_name};
ghost use Rattle.records.specs.Floors.{HaveBelow};
ghost use Rattle.records.specs.Maps.{Kept};
ghost use Rattle.records.specs.Records.{after_all};
ghost use Rattle.topic_stores.specs.declared.error.WriteError.TheVariants as write;
ghost use Rattle.gated_log.specs.declared.read_error.ReadError.TheVariants as read;
ghost use Rattle.topic_stores.specs.Views.{StoreView, Settled, AreLaws};
ghost use Rattle.topic_stores.specs.Writing.{Fits, IsLeft, IsTrim, StandsFor, Remembers};

use crate::{Batch, ReadError, WriteError};
use disk::{DeviceError, Shelf};
use gated_log::Refusal;
use managed_ledger::EntryFold;
use records::KeptCursor;
use std::alloc::{AllocError, Global};

/// A topic's entries and durable subscriptions, which outlive a crash.
pub trait TopicStore: Drop {
    /// What it remembers, and what its files hold.
    ghost view: { Self → StoreView };

    /// What the files of a topic alone stand for: whoever opens them finds these entries and subscriptions.
    ghost stands: { ℕ → Image → Ledger → Kept → Type 0 };

    /// The segments of a topic have so many entries each, the oldest first, as its files alone tell.
    ghost laid: { ℕ → Image → List ℕ → Type 0 };

    /// Why the files of a topic alone are refused: the first fault in them, by the segments, slot 0 and slot 1.
    ghost faulty: { ℕ → Image → Refusal → Type 0 };

    /// Makes a store without entries and subscriptions, whatever was in the topic's first segment and its slots. A segment that
    /// has `entries_per_ledger` entries or more is rolled before the next write of entries. Takes no memory. Until the `Ok` a crash may leave anything of the topic's files.
    fn create<S: Shelf>(
        alloc: Global,
        shelf: &mut S,
        topic: u16,
        entries_per_ledger: u32,
    ) -> Result<Self, DeviceError>
        ensures created { (S.disk shelf.old).honest → IfOk result (λ store. Settled (view store) (S.disk shelf.new) (whole []) map.empty) }
        ensures works { IfOk result (λ store. (view store).failed ≡ false) }
        ensures base { IfOk result (λ store. (view store).base ≡ 0) }
        ensures empty { IfOk result (λ store. ((view store).count ≡ 0) × ((view store).kept ≡ map.empty)) }
        ensures topic { IfOk result (λ store. (view store).topic ≡ topic) }
        ensures counts { IfOk result (λ store. ((view store).counts ≡ 0 ∷ []) × ((view store).per_ledger ≡ entries_per_ledger)) }
        ensures others { (S.disk shelf.old).honest → Within (OfTopic topic) (λ c. Unit {0}) (S.disk shelf.old) (S.disk shelf.new) }
        ensures cause { IsErr result → Failed (S.disk shelf.old) (S.disk shelf.new) }
        ensures kept { Counted (S.disk shelf.old) (S.disk shelf.new) };

    /// Opens the store of a topic, whatever a crash left of its files, and hands its entries to a fold. Each file is synced
    /// once, so what is read stays, and read once. Nothing is written.
    fn open<S: Shelf, F: EntryFold + Drop>(
        alloc: Global,
        shelf: &mut S,
        topic: u16,
        entries_per_ledger: u32,
        fold: F,
    ) -> Result<(Self, F), Refusal>
        // The store has the entries that the fold has taken, from the first one that is there on; where the device isn't honest it
        // has taken as many.
        ensures opened { F.holds fold [] →
            IfOk result (λ opened. (entries : Entries) × ((S.disk shelf.old).honest → Settled (view opened.0) (S.disk shelf.new) (begun_at (view opened.0).base entries) (view opened.0).kept) × ((view opened.0).base + length entries ≡ (view opened.0).count) × F.holds opened.1 entries) }
        // Or the first fault that stands in the files is told.
        ensures refused { (S.disk shelf.old).honest → F.holds fold [] →
            IfErr result (λ e. (e ≡ refusal.NoMemory) ⊎ ((e ≡ refusal.Device) ⊎ faulty topic (S.disk shelf.old).seen e)) }
        ensures works { IfOk result (λ opened. (view opened.0).failed ≡ false) }
        ensures topic { IfOk result (λ opened. (view opened.0).topic ≡ topic) }
        ensures per_ledger { IfOk result (λ opened. (view opened.0).per_ledger ≡ entries_per_ledger) }
        ensures cause { IsErrOf result refusal.Device → Failed (S.disk shelf.old) (S.disk shelf.new) }

        // What reads give stays, but of a file whose sync failed.
        ensures seen { (S.disk shelf.old).honest → ¬ IsErrOf result refusal.Device → Same (S.disk shelf.old).seen (S.disk shelf.new).seen }
        ensures others { (S.disk shelf.old).honest → Agree (λ f. ¬ OfTopic topic f) (S.disk shelf.old).seen (S.disk shelf.new).seen }
        // A crash at any moment leaves what it might have left before.
        ensures any_moment { (S.disk shelf.old).honest → Leaves (S.disk shelf.old).may_leave (S.disk shelf.old) (S.disk shelf.new) }
        ensures kept { Counted (S.disk shelf.old) (S.disk shelf.new) };

    /// The topic whose store it is.
    fn topic(&self) -> u16
        ensures { result ≡ (view self.now).topic };

    /// The position of the first entry that is there.
    fn base(&self) -> u64
        ensures { result ≡ (view self.now).base };

    /// How many entries came in all, as it remembers it.
    fn len(&self) -> u64
        ensures len { result ≡ (view self.now).count }
        ensures few { result ≤ 2 ^ 62 };

    /// In how many segment files these are; after a failure how many were last known to be whole.
    fn segments(&self) -> u64
        ensures { result ≡ length (view self.now).counts };

    /// The subscriptions that it remembers, with sets of their own, in the order of the names' bytes.
    fn kept(&self) -> Result<Vec<KeptCursor>, AllocError>
        ensures kept { IfOk result (λ cursors. each (λ (c : Cursor). (c.name, c.acked)) cursors.items ≡ map.entries (view self.now).kept) }
        ensures few { IfOk result (λ cursors. length cursors.items ≤ 64) }
        ensures named { IfOk result (λ cursors. AllByRecursion (λ c. is_subscription_name c.name ≡ true) cursors.items) };

    /// Reads the entry of a position, with one read of the device. A failed store answers `Device`. One that isn't there, or is
    /// longer than any that is accepted, is damage of the first segment.
    fn read<S: Shelf>(&self, shelf: &mut S, position: u64) -> Result<Vec<u8>, ReadError>
        ensures entry { (ledger : Ledger) (kept : Kept) → (S.disk shelf.old).honest → (view self.now).holds (S.disk shelf.old).seen ledger kept →
            IfOk result (λ entry. entry_at ledger position ≡ Some entry.items) }
        ensures refused { (ledger : Ledger) (kept : Kept) → (S.disk shelf.old).honest → (view self.now).holds (S.disk shelf.old).seen ledger kept → ledger.base ≤ position → position < end_of ledger →
            IfErr result (λ e. (e ≡ read.NoMemory) ⊎ (e ≡ read.Device)) }
        ensures short { IfOk result (λ entry. length entry.items ≤ 1048576) }
        ensures stays_failed { (view self.now).failed ≡ true → IsErrOf result read.Device × (shelf.new ≡ shelf.old) }
        ensures cause { (view self.now).failed ≡ false → IsErrOf result read.Device → Failed (S.disk shelf.old) (S.disk shelf.new) }
        ensures seen { (S.disk shelf.old).honest → Same (S.disk shelf.old).seen (S.disk shelf.new).seen }
        ensures any_moment { (S.disk shelf.old).honest → Leaves (S.disk shelf.old).may_leave (S.disk shelf.old) (S.disk shelf.new) }
        ensures kept { Counted (S.disk shelf.old) (S.disk shelf.new) };

    /// Whether a batch fits what it remembers: there are numbers for its entries, and each change is of its form at its place.
    /// Takes no memory.
    fn fits(&self, batch: &Batch) -> bool
        ensures { IsTrue result ↔ Fits (view self.now) batch.now };

    /// Adds a batch, the entries before the changes, then trims the ledger up to the batch's limit, by whole segments, and answers
    /// where it begins then. All memory is taken before the first device call; an empty batch that trims nothing asks nothing of
    /// the device. A failed store answers `Device` and asks nothing of the device, whatever the batch is.
    fn write<S: Shelf>(&mut self, shelf: &mut S, batch: &Batch) -> Result<u64, WriteError>
        requires fits { Fits (view self.old) batch.now }
        ensures remembers { Remembers (view self.old) batch.now result (view self.new) }
        ensures written { (ledger : Ledger) (kept : Kept) → Settled (view self.old) (S.disk shelf.old) ledger kept →
            IfOk result (λ base. Settled (view self.new) (S.disk shelf.new) (trimmed base (lengthened ledger batch.now.entries.items)) (after_all batch.now.changes.items kept)) }
        ensures trimmed { (ledger : Ledger) (kept : Kept) → Settled (view self.old) (S.disk shelf.old) ledger kept →
            IfOk result (λ base. IsTrim (lengthened ledger batch.now.entries.items) batch.now.trim (after_all batch.now.changes.items kept) (trimmed base (lengthened ledger batch.now.entries.items))) }
        ensures unwritten { (ledger : Ledger) (kept : Kept) → Settled (view self.old) (S.disk shelf.old) ledger kept →
            IsErrOf result write.NoMemory → Settled (view self.new) (S.disk shelf.new) ledger kept }
        ensures no_memory { IsErrOf result write.NoMemory → shelf.new ≡ shelf.old }

        // A crash at any moment of the call leaves the old entries and subscriptions, the ledger with the entries of the batch,
        // or both with all of it, where the ledger may be trimmed; files of other topics are as they were.
        ensures within { (ledger : Ledger) (kept : Kept) → Settled (view self.old) (S.disk shelf.old) ledger kept →
            Within (OfTopic (view self.old).topic)
            (StandsFor (stands (view self.old).topic) (IsLeft ledger kept batch.now.entries.items batch.now.changes.items batch.now.trim))
            (S.disk shelf.old) (S.disk shelf.new) }

        ensures topic { (view self.new).topic ≡ (view self.old).topic }
        ensures stays_failed { (view self.old).failed ≡ true → IsErrOf result write.Device × (shelf.new ≡ shelf.old) }
        ensures cause { (view self.old).failed ≡ false → IsErrOf result write.Device → Failed (S.disk shelf.old) (S.disk shelf.new) }
        ensures kept { Counted (S.disk shelf.old) (S.disk shelf.new) };

    ghost laws: { (store : Self) → AreLaws stands (view store) };

    // The segments that it counts are those in its files, which are laid out in one way.
    ghost holds_laid: { (store : Self) (files : Image) (ledger : Ledger) (kept : Kept) → (view store).holds files ledger kept → laid (view store).topic files (view store).counts };

    ghost laid_one: { (t : ℕ) (files : Image) (one other : List ℕ) → laid t files one → laid t files other → one ≡ other };

    ghost laid_local: { (t : ℕ) (a b : Image) (counts : List ℕ) → Agree (OfTopic t) a b → laid t a counts → laid t b counts };

    // Files stand for one ledger, each entry with metadata that can be read and a number of messages, and one map of subscriptions.
    ghost stands_one: { (t : ℕ) (files : Image) (one other : Ledger) (k j : Kept) → end_of one ≤ 2 ^ 62 → stands t files one k → stands t files other j → (one ≡ other) × (k ≡ j) };

    // Files have one first fault, and where they stand for entries and subscriptions they have none.
    ghost faulty_one: { (t : ℕ) (files : Image) (one other : Refusal) → faulty t files one → faulty t files other → one ≡ other };

    ghost stands_sound: { (t : ℕ) (files : Image) (ledger : Ledger) (k : Kept) (refusal : Refusal) → stands t files ledger k → ¬ faulty t files refusal };

    // And each of these subscriptions has all positions below the first one that is there.
    ghost stands_below: { (t : ℕ) (files : Image) (ledger : Ledger) (k : Kept) → stands t files ledger k → HaveBelow ledger.base k };

    ghost stands_entries: { (t : ℕ) (files : Image) (ledger : Ledger) (k : Kept) → stands t files ledger k → AreEntries ledger.entries };

    ghost stands_local: { (t : ℕ) (a b : Image) (ledger : Ledger) (k : Kept) → Agree (OfTopic t) a b → stands t a ledger k → stands t b ledger k };
}
