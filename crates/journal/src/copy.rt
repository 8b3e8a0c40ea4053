// A journal is copied to another topic.
ghost use Rattle.std.specs.Prelude.{◌≡◌, ◌≢◌, OnOk, IsErr};
ghost use Rattle.disk.specs.declared.file_id.Folder.{Folder};
ghost use Rattle.disk.specs.declared.file_id.FileId.{FileId};
ghost use Rattle.disk.specs.declared.file_id.TopicId.{TopicId};
ghost use Rattle.disk.specs.Disk.{Synced, Kept, Failed};
ghost use Rattle.disk.specs.Areas.{Within};
ghost use Rattle.gated_log.specs.Batches.{Bodies, IsLog};
ghost use Rattle.gated_log.specs.Logs.{LogHolds, log_id};
ghost use Rattle.journal.specs.Chains.{Chain, Stands, SegmentsOf};
ghost use Rattle.journal.specs.Copies.{AreSynced};
ghost use Rattle.journal.specs.Journals.{Settled, topic_of, first_of};

use crate::Journal;
use disk::{DeviceError, FileId, Shelf, TopicId};
use gated_log::{BatchList, GatedLog};

// Copies a segment, with the label that it has.
fn copy_segment<S: Shelf>(
    shelf: &mut S,
    log: &GatedLog,
    topic: TopicId,
    number: u64,
) -> Result<(), DeviceError>
    requires other { (log_id log.now).file ≢ FileId.Segment topic number }
    requires folder { topic.folder ≡ Folder.Two }
    ensures copied { (bodies : Bodies) → (S.disk shelf.old).honest → LogHolds log.now (S.disk shelf.old).seen bodies →
        OnOk result (IsLog topic.folder (log_id log.now).label bodies ((S.disk shelf.new).seen (FileId.Segment topic number))) }
    ensures synced { OnOk result ((S.disk shelf.old).honest → Synced (FileId.Segment topic number) (S.disk shelf.new)) }
    ensures others { (S.disk shelf.old).honest → Within (λ f. f ≡ FileId.Segment topic number) (λ c. Unit {0}) (S.disk shelf.old) (S.disk shelf.new) }
    ensures cause { IsErr result → Failed (S.disk shelf.old) (S.disk shelf.new) }
    ensures kept { Kept (S.disk shelf.old) (S.disk shelf.new) }
{
    let label = log.id().label;
    log.copy_to(shelf, FileId::Segment { topic, number }, label)
}

impl Journal {
    /// Copies the segments to those of the same numbers of another topic, whatever was in these, the oldest first. Each is synced;
    /// until the `Ok` a crash may leave anything of them. Takes no memory.
    pub fn copy_to<S: Shelf>(&self, shelf: &mut S, topic: TopicId) -> Result<(), DeviceError>
        requires other { topic_of self.now ≢ topic }
        // Only there has a header a place for each label.
        requires folder { topic.folder ≡ Folder.Two }
        // The other topic's segments are the same chain then, whatever crash comes.
        ensures copied { (chain : Chain) → Settled self.now (S.disk shelf.old) chain → OnOk result (Stands topic (first_of self.now) (S.disk shelf.new).seen chain) }
        ensures synced { (chain : Chain) → Settled self.now (S.disk shelf.old) chain → OnOk result (AreSynced topic (first_of self.now) chain (S.disk shelf.new)) }
        ensures others { (S.disk shelf.old).honest → Within (SegmentsOf topic) (λ c. Unit {0}) (S.disk shelf.old) (S.disk shelf.new) }
        ensures cause { IsErr result → Failed (S.disk shelf.old) (S.disk shelf.new) }
        ensures kept { Kept (S.disk shelf.old) (S.disk shelf.new) }
    {
        let mut place = 0;
        'segments: while place < self.closed.len() {
            let number = self.first + place as u64;
            copy_segment(shelf, &self.closed[place], topic, number)?;
            place += 1;
        }
        copy_segment(shelf, &self.last, topic, self.last())
    }
}
