// The slots of a topic are opened, whatever a crash left of them, and the items in them read in the same pass.
ghost use Rattle.std.specs.Prelude.{◌≡◌, ◌⊎◌, ◌≤◌, ◌^◌, false, IfOk, IfErr, IsErrOf};
ghost use Rattle.disk.specs.Disk.{Same, Leaves, Kept as Counted, Failed};
ghost use Rattle.disk.specs.Areas.{Agree};
ghost use Rattle.two_slot.specs.Slots.{SlotsOf};
ghost use Rattle.disk.specs.Contents.{Steady};
ghost use Rattle.cursor_store.specs.Cursors.{Holds, start_of, content, written, topic_of, counted, failed};
ghost use Rattle.cursor_store.specs.Folded.{IsFault};
ghost use Rattle.cursor_store.specs.Fronts.{HasHeads, AreSynced, topic_of_heads, start_of_heads};

use crate::items_fold::ItemsFold;
use crate::{CursorStore, StoreHeads, Told};
use disk::{Shelf, TopicId};
use gated_log::Refusal;
use std::alloc::Global;
use two_slot::TwoSlot;

impl CursorStore {
    /// Opens the slots of a topic whose ledger has so many entries, whatever a crash left of them. They are synced first, so
    /// what is read stays, and read once; of the slot that doesn't count only the header. The first fault is told, by the
    /// offset of its gate.
    pub fn open<S: Shelf>(
        alloc: Global,
        shelf: &mut S,
        topic: TopicId,
        entries: u64,
    ) -> Result<CursorStore, Refusal>
        requires { entries ≤ 2 ^ 62 }
        ensures opened { (S.disk shelf.old).honest → IfOk result (λ store. Steady (Holds store entries (start_of store)) (written store) (S.disk shelf.new) (content store)) }
        // Or the first fault that stands in the slots is told.
        ensures refused { (S.disk shelf.old).honest → IfErr result (λ e. (e ≡ Refusal.NoMemory) ⊎ ((e ≡ Refusal.Device) ⊎ IsFault topic entries (S.disk shelf.old).seen e)) }
        ensures topic { IfOk result (λ store. topic_of store ≡ topic) }
        ensures counted { IfOk result (λ store. counted store ≡ 0) }
        ensures works { IfOk result (λ store. failed store ≡ false) }
        ensures cause { IsErrOf result Refusal.Device → Failed (S.disk shelf.old) (S.disk shelf.new) }

        // What reads give stays, but of a slot whose sync failed.
        ensures seen { (S.disk shelf.old).honest → ¬ IsErrOf result Refusal.Device → Same (S.disk shelf.old).seen (S.disk shelf.new).seen }
        ensures others { (S.disk shelf.old).honest → Agree (λ f. ¬ SlotsOf topic f) (S.disk shelf.old).seen (S.disk shelf.new).seen }
        // A crash at any moment leaves what it might have left before.
        ensures any_moment { (S.disk shelf.old).honest → Leaves (S.disk shelf.old).may_leave (S.disk shelf.old) (S.disk shelf.new) }
        ensures kept { Counted (S.disk shelf.old) (S.disk shelf.new) }
    {
        let mut fold = ItemsFold {
            alloc,
            folder: topic.folder,
            entries,
            begun: false,
            told: Told::new(alloc),
        };
        let slots = TwoSlot::open_with(alloc, shelf, topic, &mut fold)?;
        Ok(CursorStore {
            alloc,
            slots,
            told: fold.told,
            appended: 0,
        })
    }

    /// Goes on with an opening that has begun, beside a ledger of so many entries. The slot that counts is read once more, and
    /// the first fault told, as by `open`.
    pub fn open_from<S: Shelf>(
        alloc: Global,
        shelf: &mut S,
        heads: &StoreHeads,
        entries: u64,
    ) -> Result<CursorStore, Refusal>
        requires { entries ≤ 2 ^ 62 }
        ensures opened { (S.disk shelf.old).honest → HasHeads heads.now (S.disk shelf.old).seen → AreSynced (SlotsOf (topic_of_heads heads.now)) (S.disk shelf.old) → IfOk result (λ store. Steady (Holds store entries (start_of store)) (written store) (S.disk shelf.new) (content store)) }
        // The ledger begins where it was said.
        ensures start { (S.disk shelf.old).honest → HasHeads heads.now (S.disk shelf.old).seen → AreSynced (SlotsOf (topic_of_heads heads.now)) (S.disk shelf.old) → IfOk result (λ store. start_of store ≡ start_of_heads heads.now) }
        ensures refused { (S.disk shelf.old).honest → HasHeads heads.now (S.disk shelf.old).seen → AreSynced (SlotsOf (topic_of_heads heads.now)) (S.disk shelf.old) → IfErr result (λ e. (e ≡ Refusal.NoMemory) ⊎ ((e ≡ Refusal.Device) ⊎ IsFault (topic_of_heads heads.now) entries (S.disk shelf.old).seen e)) }
        ensures topic { IfOk result (λ store. topic_of store ≡ topic_of_heads heads.now) }
        ensures counted { IfOk result (λ store. counted store ≡ 0) }
        ensures works { IfOk result (λ store. failed store ≡ false) }
        ensures cause { IsErrOf result Refusal.Device → Failed (S.disk shelf.old) (S.disk shelf.new) }
        ensures seen { (S.disk shelf.old).honest → Same (S.disk shelf.old).seen (S.disk shelf.new).seen }
        ensures any_moment { (S.disk shelf.old).honest → Leaves (S.disk shelf.old).may_leave (S.disk shelf.old) (S.disk shelf.new) }
        ensures kept { Counted (S.disk shelf.old) (S.disk shelf.new) }
    {
        let mut fold = ItemsFold {
            alloc,
            folder: heads.slots.topic().folder,
            entries,
            begun: false,
            told: Told::new(alloc),
        };
        let slots = TwoSlot::open_from(alloc, shelf, &heads.slots, &mut fold)?;
        Ok(CursorStore {
            alloc,
            slots,
            told: fold.told,
            appended: 0,
        })
    }
}
