// The slots of a new topic.
ghost use Rattle.std.specs.Prelude.{◌≡◌, [], false, IfOk, IsErr};
ghost use Rattle.two_slot.specs.Fresh.{AreFresh};
ghost use Rattle.disk.specs.declared.file_id.Folder.{Folder};
ghost use Rattle.disk.specs.Disk.{Kept, Failed};
ghost use Rattle.disk.specs.Areas.{Within};
ghost use Rattle.disk.specs.Contents.{Settled};
ghost use Rattle.two_slot.specs.Slots.{SlotsOf};
ghost use Rattle.gated_log.specs.Batches.{Bodies};
ghost use Rattle.gated_log.specs.Starts.{untrimmed};
ghost use Rattle.gated_log.specs.Wholes.{IsLogOf, folder_in};
ghost use Rattle.two_slot.specs.TwoSlots.{Holds, start_of, topic_of, failed};

use crate::{Spare, TwoSlot};
use disk::{CursorSlot, DeviceError, FileId, Shelf, TopicId};
use gated_log::{GatedLog, Label, PreparedLog, Start, lay_closed};
use std::alloc::Global;

impl TwoSlot {
    /// Makes the slots of a topic, whatever was in them, with eight device calls: slot 0 with generation
    /// 1 and no bodies, and slot 1 with a closed header of generation 0. Takes no memory. Until the `Ok` a crash may
    /// leave anything of these files.
    pub fn create<S: Shelf>(
        alloc: Global,
        shelf: &mut S,
        topic: TopicId,
    ) -> Result<TwoSlot, DeviceError>
        ensures created { (S.disk shelf.old).honest → IfOk result (λ slots. Settled (Holds slots) (S.disk shelf.new) []) }
        ensures topic { IfOk result (λ slots. topic_of slots ≡ topic) }
        ensures start { IfOk result (λ slots. start_of slots ≡ untrimmed) }
        ensures fresh { IfOk result AreFresh }
        ensures works { IfOk result (λ slots. failed slots ≡ false) }
        ensures others { (S.disk shelf.old).honest → Within (SlotsOf topic) (λ c. Unit {0}) (S.disk shelf.old) (S.disk shelf.new) }
        ensures cause { IsErr result → Failed (S.disk shelf.old) (S.disk shelf.new) }
        ensures kept { Kept (S.disk shelf.old) (S.disk shelf.new) }
    {
        let counts = CursorSlot::Zero;
        let file = FileId::Slot {
            topic,
            slot: counts,
        };
        let log = GatedLog::create(alloc, shelf, file, Label::plain(1))?;
        let other = FileId::Slot {
            topic,
            slot: CursorSlot::One,
        };
        lay_closed(shelf, other, Label::plain(0))?;
        Ok(TwoSlot {
            topic,
            counts,
            log,
            spare: Spare::Shut,
            failed: false,
        })
    }

    /// Makes the slots of a topic, whatever was in them: slot 0 with generation 1, where the ledger begins and a whole log that was
    /// prepared, and slot 1 as `create`. Takes no memory. Until the `Ok` a crash may leave anything of these files.
    pub fn create_with<S: Shelf>(
        shelf: &mut S,
        topic: TopicId,
        start: Start,
        prepared: PreparedLog,
    ) -> Result<TwoSlot, DeviceError>
        requires folder { folder_in prepared ≡ topic.folder }
        requires label { topic.folder ≡ Folder.One → start ≡ untrimmed }
        ensures created { (bodies : Bodies) → IsLogOf prepared bodies → (S.disk shelf.old).honest → IfOk result (λ slots. Settled (Holds slots) (S.disk shelf.new) bodies × (start_of slots ≡ start)) }
        ensures topic { IfOk result (λ slots. topic_of slots ≡ topic) }
        ensures fresh { IfOk result AreFresh }
        ensures works { IfOk result (λ slots. failed slots ≡ false) }
        ensures others { (S.disk shelf.old).honest → Within (SlotsOf topic) (λ c. Unit {0}) (S.disk shelf.old) (S.disk shelf.new) }
        ensures cause { IsErr result → Failed (S.disk shelf.old) (S.disk shelf.new) }
        ensures kept { Kept (S.disk shelf.old) (S.disk shelf.new) }
    {
        let counts = CursorSlot::Zero;
        let file = FileId::Slot {
            topic,
            slot: counts,
        };
        let label = Label { number: 1, start };
        lay_closed(shelf, file, label)?;
        let log = GatedLog::overwrite(shelf, file, label, prepared)?;
        let other = FileId::Slot {
            topic,
            slot: CursorSlot::One,
        };
        lay_closed(shelf, other, Label::plain(0))?;
        Ok(TwoSlot {
            topic,
            counts,
            log,
            spare: Spare::Shut,
            failed: false,
        })
    }
}
