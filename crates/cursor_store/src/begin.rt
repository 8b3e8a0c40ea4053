// An opening begins: where do the slots say that the ledger begins, which isn't read yet?
ghost use Rattle.std.specs.Prelude.{◌≡◌, ◌⊎◌, ◌<◌, true, IsOk, IfOk, IfErr, IsErrOf, IsSome, option_map};
ghost use Rattle.disk.specs.declared.file_id.CursorSlot.{CursorSlot};
ghost use Rattle.disk.specs.Disk.{Same, Leaves, Kept as Counted, Failed};
ghost use Rattle.disk.specs.declared.file_id.Folder.{Folder as Version};
ghost use Rattle.disk.specs.Areas.{Agree, folder_of};
ghost use Rattle.gated_log.specs.Batches.{Bodies};
ghost use Rattle.gated_log.specs.Head.{IsHead, head_file};
ghost use Rattle.gated_log.specs.Reading.{HasRead, reader_id, left_to_read};
ghost use Rattle.two_slot.specs.Heads.{head_in, heads_topic};
ghost use Rattle.two_slot.specs.Slots.{SlotsOf};
ghost use Rattle.cursor_store.specs.Fronts.{Begins, BeginsIn, HasHeads, AreSynced, IsNextWhole, topic_of_heads};

use crate::read::read_items;
use crate::{CursorStore, StoreHeads, Told};
use disk::{Folder, Shelf, TopicId};
use gated_log::{LogHead, LogReader, Refusal, Start, UNTRIMMED};
use std::alloc::Global;
use two_slot::SlotHeads;

// No ledger has more entries.
const MOST_ENTRIES: u64 = 1 << 62;

// A refusal of memory or of the device; of any other one the reading comes to its end.
fn end_or(refusal: Refusal) -> Result<(), Refusal>
    ensures stays { IfErr result (λ e. (e ≡ refusal) × ((e ≡ Refusal.NoMemory) ⊎ (e ≡ Refusal.Device))) }
    ensures ends { IsOk result → ¬ (refusal ≡ Refusal.NoMemory) × ¬ (refusal ≡ Refusal.Device) }
{
    match refusal {
        Refusal::NoMemory => Err(Refusal::NoMemory),
        Refusal::Device => Err(Refusal::Device),
        Refusal::NotInitialised => Ok(()),
        Refusal::Version => Ok(()),
        Refusal::Damaged { .. } => Ok(()),
        Refusal::TooLarge => Ok(()),
    }
}

// The next body, where a whole batch stands behind an open gate.
fn next_whole<S: Shelf>(reader: &mut LogReader, shelf: &mut S) -> Result<Option<Vec<u8>>, Refusal>
    ensures next { (bodies : Bodies) → (S.disk shelf.old).honest → HasRead reader.old (S.disk shelf.old).seen bodies →
        IfOk result (λ found. IsNextWhole reader.old reader.new (S.disk shelf.old).seen bodies (option_map (λ body. body.items) found)) }
    ensures refused { IfErr result (λ e. (e ≡ Refusal.NoMemory) ⊎ (e ≡ Refusal.Device)) }
    ensures progress { IfOk result (λ found. IsSome found → left_to_read reader.new < left_to_read reader.old) }
    ensures id { reader_id reader.new ≡ reader_id reader.old }
    ensures cause { IsErrOf result Refusal.Device → Failed (S.disk shelf.old) (S.disk shelf.new) }
    ensures seen { (S.disk shelf.old).honest → Same (S.disk shelf.old).seen (S.disk shelf.new).seen }
    ensures any_moment { (S.disk shelf.old).honest → Leaves (S.disk shelf.old).may_leave (S.disk shelf.old) (S.disk shelf.new) }
    ensures kept { Counted (S.disk shelf.old) (S.disk shelf.new) }
{
    match reader.next(shelf) {
        Ok(found) => Ok(found),
        Err(refusal) => {
            end_or(refusal)?;
            Ok(None)
        }
    }
}

// Where the front of a slot of version 1 says that the ledger begins: its whole batches, as far as their bodies are of their form beside some
// ledger.
fn front_start<S: Shelf>(alloc: Global, shelf: &mut S, head: &LogHead) -> Result<Start, Refusal>
    ensures begins { folder_of (head_file head.now) ≡ Version.One → (S.disk shelf.old).honest → IsHead head.now (S.disk shelf.old).seen → IfOk result (λ start. BeginsIn ((S.disk shelf.old).seen (head_file head.now)) start) }
    ensures refused { IfErr result (λ e. (e ≡ Refusal.NoMemory) ⊎ (e ≡ Refusal.Device)) }
    ensures cause { IsErrOf result Refusal.Device → Failed (S.disk shelf.old) (S.disk shelf.new) }
    ensures seen { (S.disk shelf.old).honest → Same (S.disk shelf.old).seen (S.disk shelf.new).seen }
    ensures any_moment { (S.disk shelf.old).honest → Leaves (S.disk shelf.old).may_leave (S.disk shelf.old) (S.disk shelf.new) }
    ensures kept { Counted (S.disk shelf.old) (S.disk shelf.new) }
{
    let Ok(mut reader) = LogReader::begin(alloc, head) else {
        return Ok(UNTRIMMED);
    };
    let folder = Folder::One;
    let mut told = Told::new(alloc);
    'bodies: loop {
        let start = told.start;
        let Some(body) = next_whole(&mut reader, shelf)? else {
            return Ok(start);
        };
        if !read_items(alloc, folder, &body, MOST_ENTRIES, &mut told)? {
            return Ok(start);
        }
    }
}

// Where the slots of version 1 say that the ledger begins.
fn front_of_counting<S: Shelf>(
    alloc: Global,
    shelf: &mut S,
    slots: &SlotHeads,
) -> Result<Start, Refusal>
    ensures begins { (heads_topic slots.now).folder ≡ Version.One → (S.disk shelf.old).honest → IsHead (head_in slots.now CursorSlot.Zero) (S.disk shelf.old).seen → IsHead (head_in slots.now CursorSlot.One) (S.disk shelf.old).seen →
        IfOk result (Begins (heads_topic slots.now) (S.disk shelf.old).seen) }
    ensures refused { IfErr result (λ e. (e ≡ Refusal.NoMemory) ⊎ (e ≡ Refusal.Device)) }
    ensures cause { IsErrOf result Refusal.Device → Failed (S.disk shelf.old) (S.disk shelf.new) }
    ensures seen { (S.disk shelf.old).honest → Same (S.disk shelf.old).seen (S.disk shelf.new).seen }
    ensures any_moment { (S.disk shelf.old).honest → Leaves (S.disk shelf.old).may_leave (S.disk shelf.old) (S.disk shelf.new) }
    ensures kept { Counted (S.disk shelf.old) (S.disk shelf.new) }
{
    match slots.counting() {
        Some(slot) => front_start(alloc, shelf, slots.head(slot)),
        None => Ok(UNTRIMMED),
    }
}

impl CursorStore {
    /// Begins to open the slots of a topic: both are synced, so what is read stays, and where the one that counts
    /// says that the ledger begins is known; for that a slot of version 1 is read as far as that can be done without the
    /// ledger. What stands in them is judged by `open_from`.
    pub fn begin<S: Shelf>(
        alloc: Global,
        shelf: &mut S,
        topic: TopicId,
    ) -> Result<StoreHeads, Refusal>
        ensures begun { (S.disk shelf.old).honest → IfOk result (λ heads. HasHeads heads (S.disk shelf.new).seen) }
        ensures synced { (S.disk shelf.old).honest → IsOk result → AreSynced (SlotsOf topic) (S.disk shelf.new) }
        ensures topic { IfOk result (λ heads. topic_of_heads heads ≡ topic) }
        ensures refused { IfErr result (λ e. (e ≡ Refusal.NoMemory) ⊎ (e ≡ Refusal.Device)) }
        ensures cause { IsErrOf result Refusal.Device → Failed (S.disk shelf.old) (S.disk shelf.new) }

        // What reads give stays, but of a slot whose sync failed.
        ensures seen { (S.disk shelf.old).honest → ¬ IsErrOf result Refusal.Device → Same (S.disk shelf.old).seen (S.disk shelf.new).seen }
        ensures others { (S.disk shelf.old).honest → Agree (λ f. ¬ SlotsOf topic f) (S.disk shelf.old).seen (S.disk shelf.new).seen }
        // A crash at any moment leaves what it might have left before.
        ensures any_moment { (S.disk shelf.old).honest → Leaves (S.disk shelf.old).may_leave (S.disk shelf.old) (S.disk shelf.new) }
        ensures kept { Counted (S.disk shelf.old) (S.disk shelf.new) }
    {
        let slots = SlotHeads::read(shelf, topic)?;
        let start = match topic.folder {
            Folder::One => front_of_counting(alloc, shelf, &slots)?,
            Folder::Two => slots.start(),
        };
        Ok(StoreHeads { slots, start })
    }
}
