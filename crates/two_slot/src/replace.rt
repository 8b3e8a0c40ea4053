// The slot that counts is replaced by the other one.
ghost use Rattle.std.specs.Prelude.{◌≡◌, ◌↔◌, ◌+◌, ◌-◌, ◌<◌, ◌^◌, ℕ, Bool, true, false, IsTrue, OnOk, IsErr};
ghost use Rattle.disk.specs.declared.file_id.Folder.{Folder};
ghost use Rattle.disk.specs.Disk.{Image, Synced, Kept, Failed};
ghost use Rattle.disk.specs.Areas.{Within, folder_of};
ghost use Rattle.disk.specs.Contents.{Settled, Appends};
ghost use Rattle.gated_log.specs.Batches.{Bodies};
ghost use Rattle.gated_log.specs.Headers.{IsShut};
ghost use Rattle.gated_log.specs.declared.start.Start.{Start as Begins};
ghost use Rattle.gated_log.specs.Starts.{untrimmed};
ghost use Rattle.gated_log.specs.Wholes.{IsLogOf, folder_in};
ghost use Rattle.two_slot.specs.Slots.{SlotsOf, Stands, Yields, other_of};
ghost use Rattle.two_slot.specs.Closing.{closing};
ghost use Rattle.two_slot.specs.TwoSlots.{Holds, IsSpare, content, generation_of, start_of, topic_of, failed};

use crate::{Spare, TwoSlot};
use disk::{CursorSlot, DeviceError, FileId, Shelf, persist};
use gated_log::{BatchList, GatedLog, Label, PreparedLog, Start};

// The last generation that a header has.
const LAST_GENERATION: u64 = u64::MAX - 1;

// The slot beside this one.
fn other_of(slot: CursorSlot) -> CursorSlot
    ensures { result ≡ other_of slot }
{
    match slot {
        CursorSlot::Zero => CursorSlot::One,
        CursorSlot::One => CursorSlot::Zero,
    }
}

// The byte that closes a header, and where it stands: the gate, or where that is closed already the first byte of the mark,
// since a crash may leave a written gate open.
fn closing(spare: Spare) -> (u64, u8)
    ensures { result ≡ closing spare }
{
    match spare {
        Spare::Shut => (1, 0x50),
        Spare::Short => (0, 0),
        Spare::Lower => (0, 0),
    }
}

// Closes the header of the slot that doesn't count: a write and a sync.
fn close<S: Shelf>(shelf: &mut S, file: FileId, spare: Spare) -> Result<(), DeviceError>
    ensures shut { (generation : ℕ) → (S.disk shelf.old).honest → IsSpare (folder_of file) spare generation ((S.disk shelf.old).seen file) → OnOk result (IsShut ((S.disk shelf.new).seen file)) }
    ensures synced { OnOk result ((S.disk shelf.old).honest → Synced file (S.disk shelf.new)) }

    // At each moment the slot yields.
    ensures within { (generation : ℕ) → (S.disk shelf.old).honest → ((c : Image) → (S.disk shelf.old).may_leave c → IsSpare (folder_of file) spare generation (c file)) →
        Within (λ f. f ≡ file) (λ c. Yields (folder_of file) generation (c file)) (S.disk shelf.old) (S.disk shelf.new) }
    ensures others { (S.disk shelf.old).honest → Within (λ f. f ≡ file) (λ c. Unit {0}) (S.disk shelf.old) (S.disk shelf.new) }
    ensures cause { IsErr result → Failed (S.disk shelf.old) (S.disk shelf.new) }
    ensures kept { Kept (S.disk shelf.old) (S.disk shelf.new) }
{
    let (at, byte) = closing(spare);
    persist(shelf, file, at, &[byte])
}

impl TwoSlot {
    /// For how many replaces there is a generation.
    pub fn replaces_left(&self) -> u64
        ensures { result ≡ (2 ^ 64 - 2) - generation_of self.now }
    {
        LAST_GENERATION.saturating_sub(self.log.id().label.number)
    }

    /// Whether there is a generation for a replace: that of the slot that counts is below 2^64 - 2.
    pub fn can_replace(&self) -> bool
        ensures { IsTrue result ↔ (generation_of self.now + 2 < 2 ^ 64) }
    {
        self.replaces_left() > 0
    }

    /// Writes a whole log over the slot that doesn't count, with the next generation and where the ledger begins then, and from
    /// then on it is the one that counts. Six device calls: its header is closed and synced, then all behind the gate is written and synced, then the
    /// gate. Takes no memory. After an error the slots are failed, as after one of an append.
    pub fn replace<S: Shelf>(
        &mut self,
        shelf: &mut S,
        prepared: PreparedLog,
        start: Start,
    ) -> Result<(), DeviceError>
        requires generation { generation_of self.old + 2 < 2 ^ 64 }
        requires folder { folder_in prepared ≡ (topic_of self.old).folder }
        requires label { (topic_of self.old).folder ≡ Folder.One → start ≡ untrimmed }
        // A crash at any moment of the call leaves slots that stand for the old start and bodies or for the handed ones, and the other files as they were.
        ensures replaces { (old new : Bodies) → IsLogOf prepared new → Settled (Holds self.old) (S.disk shelf.old) old →
            Appends result (λ disk (now : Begins × Bodies). (start_of self.new ≡ now.0) × Settled (Holds self.new) disk now.1) (λ image. (start_of self.new, content self.new image))
            (SlotsOf (topic_of self.old)) (λ image (now : Begins × Bodies). Stands (topic_of self.old) image now.0 now.1) (S.disk shelf.old) (S.disk shelf.new) (start_of self.old, old) (start, new) }
        ensures others { (S.disk shelf.old).honest → Within (SlotsOf (topic_of self.old)) (λ c. Unit {0}) (S.disk shelf.old) (S.disk shelf.new) }

        ensures topic { topic_of self.new ≡ topic_of self.old }
        ensures start { OnOk result (start_of self.new ≡ start) }
        ensures rises { OnOk result (generation_of self.new ≡ generation_of self.old + 1) }
        ensures works { OnOk result (failed self.new ≡ false) }
        ensures failed { IsErr result → failed self.new ≡ true }
        ensures start_stays { IsErr result → start_of self.new ≡ start_of self.old }
        ensures remembered { IsErr result → (image : Image) → content self.new image ≡ content self.old image }
        ensures stays_failed { failed self.old ≡ true → IsErr result × (shelf.new ≡ shelf.old) }
        ensures cause { failed self.old ≡ false → IsErr result → Failed (S.disk shelf.old) (S.disk shelf.new) }
        ensures kept { Kept (S.disk shelf.old) (S.disk shelf.new) }
    {
        if self.failed {
            return Err(DeviceError);
        }
        self.failed = true;
        let label = Label {
            number: self.log.id().label.number + 1,
            start,
        };
        let slot = other_of(self.counts);
        let file = FileId::Slot {
            topic: self.topic,
            slot,
        };
        close(shelf, file, self.spare)?;
        self.log = GatedLog::overwrite(shelf, file, label, prepared)?;
        self.counts = slot;
        self.spare = Spare::Lower;
        self.failed = false;
        Ok(())
    }
}
