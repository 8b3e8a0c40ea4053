// Two slots are opened, whatever a crash left of them, and the bodies of the one that counts are handed over.
ghost use Rattle.std.specs.Prelude.{◌≡◌, ◌⊎◌, [], ◌∷◌, false, IfOk, IfErr, OnOk, IsErr, IsErrOf};
ghost use Rattle.disk.specs.declared.file_id.FileId.{FileId};
ghost use Rattle.disk.specs.declared.file_id.CursorSlot.{CursorSlot};
ghost use Rattle.disk.specs.Disk.{Image, Same, Leaves, Kept, Failed};
ghost use Rattle.disk.specs.Areas.{Agree};
ghost use Rattle.gated_log.specs.Batches.{Bodies};
ghost use Rattle.gated_log.specs.Folds.{behind};
ghost use Rattle.gated_log.specs.Head.{IsHead, head_file};
ghost use Rattle.disk.specs.Contents.{Settled};
ghost use Rattle.two_slot.specs.Slots.{SlotsOf};
ghost use Rattle.two_slot.specs.TwoSlots.{Holds, label_of, topic_of, failed};
ghost use Rattle.two_slot.specs.Heads.{HaveHeads, heads_topic, head_in};
ghost use Rattle.two_slot.specs.Counting.{IsCounting, BeginsBy};
ghost use Rattle.two_slot.specs.Faults.{IsSlotsFault, header_refusal};

use crate::TwoSlot;
use crate::choice::{Choice, choose, start_by};
use crate::heads::SlotHeads;
use crate::slot_header::{HeaderFault, header_of};
use disk::{CursorSlot, DeviceError, FileId, Shelf, TopicId};
use gated_log::{BatchList, Fold, GatedLog, LogHead, Refusal, Start};
use std::alloc::Global;

impl SlotHeads {
    /// Syncs both slots of a topic, so what is read stays, and reads their heads.
    pub fn read<S: Shelf>(shelf: &mut S, topic: TopicId) -> Result<SlotHeads, DeviceError>
        ensures heads { (S.disk shelf.old).honest → IfOk result (λ heads. HaveHeads heads (S.disk shelf.new)) }
        ensures topic { IfOk result (λ heads. heads_topic heads ≡ topic) }
        ensures seen { (S.disk shelf.old).honest → OnOk result (Same (S.disk shelf.old).seen (S.disk shelf.new).seen) }
        ensures others { (S.disk shelf.old).honest → Agree (λ f. ¬ SlotsOf topic f) (S.disk shelf.old).seen (S.disk shelf.new).seen }
        ensures any_moment { (S.disk shelf.old).honest → Leaves (S.disk shelf.old).may_leave (S.disk shelf.old) (S.disk shelf.new) }
        ensures cause { IsErr result → Failed (S.disk shelf.old) (S.disk shelf.new) }
        ensures kept { Kept (S.disk shelf.old) (S.disk shelf.new) }
    {
        let slot = CursorSlot::Zero;
        let zero = LogHead::read(shelf, FileId::Slot { topic, slot })?;
        let slot = CursorSlot::One;
        let one = LogHead::read(shelf, FileId::Slot { topic, slot })?;
        Ok(SlotHeads { topic, zero, one })
    }

    /// The topic whose slots they are of.
    pub fn topic(&self) -> TopicId
        ensures { result ≡ heads_topic self.now }
    {
        self.topic
    }

    /// The head of a slot.
    pub fn head(&self, slot: CursorSlot) -> &LogHead
        ensures head { result.now ≡ head_in self.now slot }
        ensures file { head_file result.now ≡ FileId.Slot (heads_topic self.now) slot }
    {
        match slot {
            CursorSlot::Zero => &self.zero,
            CursorSlot::One => &self.one,
        }
    }

    /// Where the ledger begins, as the header says that counts; at its first entry where none does, or the one that does is refused,
    /// whatever the other one is.
    pub fn start(&self) -> Start
        ensures { (image : Image) → IsHead (head_in self.now CursorSlot.Zero) image → IsHead (head_in self.now CursorSlot.One) image → BeginsBy (heads_topic self.now) image result }
    {
        start_by(header_of(&self.zero), header_of(&self.one))
    }

    /// The slot that is read, as the headers of both say; none where they are refused.
    pub fn counting(&self) -> Option<CursorSlot>
        ensures { (image : Image) → IsHead (head_in self.now CursorSlot.Zero) image → IsHead (head_in self.now CursorSlot.One) image → IsCounting (heads_topic self.now) image result }
    {
        match choose(header_of(&self.zero), header_of(&self.one)) {
            Choice::Refuse(_, _) => None,
            Choice::Read(slot, _) => Some(slot),
            Choice::ReadZero(_) => Some(CursorSlot::Zero),
        }
    }
}

// The refusal of a slot's header.
fn refusal_of(topic: TopicId, slot: CursorSlot, fault: HeaderFault) -> Refusal
    ensures { result ≡ header_refusal topic slot fault }
{
    match fault {
        HeaderFault::Damage => Refusal::Damaged {
            file: FileId::Slot { topic, slot },
            offset: 0,
        },
        HeaderFault::Version => Refusal::Version,
    }
}

// Goes on with an opening whose heads were read.
fn open_from<S: Shelf, F: Fold>(
    alloc: Global,
    shelf: &mut S,
    heads: &SlotHeads,
    fold: &mut F,
) -> Result<TwoSlot, Refusal>
    ensures opened { (S.disk shelf.old).honest → HaveHeads heads.now (S.disk shelf.old) → F.holds fold.old [] →
        IfOk result (λ slots. (bodies : Bodies) × Settled (Holds slots) (S.disk shelf.new) bodies × F.holds fold.new (record { label = label_of slots; bodies = bodies } ∷ [])) }
    ensures refused { (S.disk shelf.old).honest → HaveHeads heads.now (S.disk shelf.old) → F.holds fold.old [] →
        IfErr result (λ e. (e ≡ Refusal.NoMemory) ⊎ ((e ≡ Refusal.Device) ⊎ IsSlotsFault (behind (F.form (F.rule fold.old)) []) (heads_topic heads.now) (S.disk shelf.old).seen e)) }
    ensures rule { F.rule fold.new ≡ F.rule fold.old }
    ensures topic { IfOk result (λ slots. topic_of slots ≡ heads_topic heads.now) }
    ensures works { IfOk result (λ slots. failed slots ≡ false) }
    ensures cause { IsErrOf result Refusal.Device → Failed (S.disk shelf.old) (S.disk shelf.new) }
    ensures seen { (S.disk shelf.old).honest → Same (S.disk shelf.old).seen (S.disk shelf.new).seen }
    ensures any_moment { (S.disk shelf.old).honest → Leaves (S.disk shelf.old).may_leave (S.disk shelf.old) (S.disk shelf.new) }
    ensures kept { Kept (S.disk shelf.old) (S.disk shelf.new) }
{
    let topic = heads.topic;
    match choose(header_of(&heads.zero), header_of(&heads.one)) {
        Choice::Refuse(slot, fault) => Err(refusal_of(topic, slot, fault)),
        Choice::Read(slot, spare) => {
            let log = GatedLog::open_from(alloc, shelf, heads.head(slot), fold)?;
            let failed = log.is_failed();
            Ok(TwoSlot {
                topic,
                counts: slot,
                log,
                spare,
                failed,
            })
        }
        Choice::ReadZero(fault) => {
            GatedLog::open_from(alloc, shelf, &heads.zero, fold)?;
            Err(refusal_of(topic, CursorSlot::One, fault))
        }
    }
}

impl TwoSlot {
    /// Opens the slots of a topic, whatever a crash left of them, and hands the generation and the bodies of the one that
    /// counts to a fold. Both are synced first, so what is read stays, and read once; of the slot that doesn't count only the
    /// header. The first fault is told, slot 0's before those of slot 1, each by its offset.
    pub fn open_with<S: Shelf, F: Fold>(
        alloc: Global,
        shelf: &mut S,
        topic: TopicId,
        fold: &mut F,
    ) -> Result<TwoSlot, Refusal>
        // The slots hold the bodies that the fold has taken.
        ensures opened { (S.disk shelf.old).honest → F.holds fold.old [] →
            IfOk result (λ slots. (bodies : Bodies) × Settled (Holds slots) (S.disk shelf.new) bodies × F.holds fold.new (record { label = label_of slots; bodies = bodies } ∷ [])) }
        // Or the first fault that stands in the slots is told.
        ensures refused { (S.disk shelf.old).honest → F.holds fold.old [] →
            IfErr result (λ e. (e ≡ Refusal.NoMemory) ⊎ ((e ≡ Refusal.Device) ⊎ IsSlotsFault (behind (F.form (F.rule fold.old)) []) topic (S.disk shelf.old).seen e)) }
        ensures rule { F.rule fold.new ≡ F.rule fold.old }
        ensures topic { IfOk result (λ slots. topic_of slots ≡ topic) }
        ensures works { IfOk result (λ slots. failed slots ≡ false) }
        ensures cause { IsErrOf result Refusal.Device → Failed (S.disk shelf.old) (S.disk shelf.new) }

        // What reads give stays, but of a slot whose sync failed.
        ensures seen { (S.disk shelf.old).honest → ¬ IsErrOf result Refusal.Device → Same (S.disk shelf.old).seen (S.disk shelf.new).seen }
        ensures others { (S.disk shelf.old).honest → Agree (λ f. ¬ SlotsOf topic f) (S.disk shelf.old).seen (S.disk shelf.new).seen }
        // A crash at any moment leaves what it might have left before.
        ensures any_moment { (S.disk shelf.old).honest → Leaves (S.disk shelf.old).may_leave (S.disk shelf.old) (S.disk shelf.new) }
        ensures kept { Kept (S.disk shelf.old) (S.disk shelf.new) }
    {
        let heads = SlotHeads::read(shelf, topic)?;
        open_from(alloc, shelf, &heads, fold)
    }

    /// Goes on with an opening whose heads were read, as `open_with`.
    pub fn open_from<S: Shelf, F: Fold>(
        alloc: Global,
        shelf: &mut S,
        heads: &SlotHeads,
        fold: &mut F,
    ) -> Result<TwoSlot, Refusal>
        ensures opened { (S.disk shelf.old).honest → HaveHeads heads.now (S.disk shelf.old) → F.holds fold.old [] →
            IfOk result (λ slots. (bodies : Bodies) × Settled (Holds slots) (S.disk shelf.new) bodies × F.holds fold.new (record { label = label_of slots; bodies = bodies } ∷ [])) }
        ensures refused { (S.disk shelf.old).honest → HaveHeads heads.now (S.disk shelf.old) → F.holds fold.old [] →
            IfErr result (λ e. (e ≡ Refusal.NoMemory) ⊎ ((e ≡ Refusal.Device) ⊎ IsSlotsFault (behind (F.form (F.rule fold.old)) []) (heads_topic heads.now) (S.disk shelf.old).seen e)) }
        ensures rule { F.rule fold.new ≡ F.rule fold.old }
        ensures topic { IfOk result (λ slots. topic_of slots ≡ heads_topic heads.now) }
        ensures works { IfOk result (λ slots. failed slots ≡ false) }
        ensures cause { IsErrOf result Refusal.Device → Failed (S.disk shelf.old) (S.disk shelf.new) }
        ensures seen { (S.disk shelf.old).honest → Same (S.disk shelf.old).seen (S.disk shelf.new).seen }
        ensures any_moment { (S.disk shelf.old).honest → Leaves (S.disk shelf.old).may_leave (S.disk shelf.old) (S.disk shelf.new) }
        ensures kept { Kept (S.disk shelf.old) (S.disk shelf.new) }
    {
        open_from(alloc, shelf, heads, fold)
    }
}
