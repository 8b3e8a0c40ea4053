// The heads of both slots.
ghost use Rattle.std.specs.Prelude.{◌≡◌};
ghost use Rattle.disk.specs.declared.file_id.FileId.{FileId};
ghost use Rattle.disk.specs.declared.file_id.CursorSlot.{CursorSlot};
ghost use Rattle.gated_log.specs.Head.{head_file};

use disk::TopicId;
use gated_log::LogHead;

/// The heads of both slots of a topic.
#[derive(Drop)]
pub struct SlotHeads {
    pub(crate) topic: TopicId,
    pub(crate) zero: LogHead,
    pub(crate) one: LogHead,
    ghost zero_is: { head_file zero ≡ FileId.Slot topic CursorSlot.Zero },
    ghost one_is: { head_file one ≡ FileId.Slot topic CursorSlot.One },
}
