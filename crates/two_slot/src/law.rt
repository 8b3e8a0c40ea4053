// Laws of two slots.
ghost use Rattle.std.specs.Prelude.{◌≡◌, ℕ, [], ◌∷◌};
ghost use Rattle.disk.specs.declared.file_id.TopicId.{TopicId};
ghost use Rattle.disk.specs.Disk.{Image};
ghost use Rattle.disk.specs.Areas.{Agree};
ghost use Rattle.gated_log.specs.declared.refusal.Refusal.{Refusal};
ghost use Rattle.gated_log.specs.declared.start.Start.{Start};
ghost use Rattle.gated_log.specs.Batches.{Bodies};
ghost use Rattle.gated_log.specs.Folds.{behind};
ghost use Rattle.two_slot.specs.Slots.{SlotsOf, Stands};
ghost use Rattle.two_slot.specs.Faults.{IsSlotsFault};

use gated_log::Fold;

/// Two slots stand for one start and one list of bodies, whatever the one that doesn't count holds.
pub fn slots_stand_for_one_list()
    ensures { (topic : TopicId) (image : Image) (start from : Start) (one other : Bodies) → Stands topic image start one → Stands topic image from other → (start ≡ from) × (one ≡ other) }
{}

/// What the slots of a topic stand for is known from them alone.
pub fn slots_are_their_own_files()
    ensures { (topic : TopicId) (a b : Image) (start : Start) (bodies : Bodies) → Agree (SlotsOf topic) a b → Stands topic a start bodies → Stands topic b start bodies }
{}

/// The slots of a topic have one first fault, whatever fold reads them.
pub fn slots_have_one_fault<F: Fold>()
    ensures { (rule : F.Rule) (topic : TopicId) (image : Image) (one other : Refusal) → IsSlotsFault (behind (F.form rule) []) topic image one → IsSlotsFault (behind (F.form rule) []) topic image other → one ≡ other }
{}

/// And those that stand for a log of its form have none.
pub fn slots_have_no_fault<F: Fold>()
    ensures { (rule : F.Rule) (topic : TopicId) (image : Image) (start : Start) (bodies : Bodies) (refusal : Refusal) (stands : Stands topic image start bodies) → F.form rule (record { label = stands.label; bodies = bodies } ∷ []) → ¬ IsSlotsFault (behind (F.form rule) []) topic image refusal }
{}
