// Segments are given back.
ghost use Rattle.std.specs.Prelude.{◌≡◌, ◌-◌, ◌≤◌, ◌^◌, true, false, drop, OnOk, IsErr};
ghost use Rattle.std.specs.VecDeque.{deque_len, deque_capacity};
ghost use Rattle.disk.specs.Disk.{Kept, Failed};
ghost use Rattle.disk.specs.Areas.{Within};
ghost use Rattle.journal.specs.Chains.{Chain, Stands, SegmentsOf, behind};
ghost use Rattle.journal.specs.Drops.{Dropped, IsEmpty, AreEmpty};
ghost use Rattle.journal.specs.Journals.{Settled, HasRoomToRoll, topic_of, first_of, last_of, failed};

use crate::Journal;
use disk::{DeviceError, FileId, Shelf, TopicId};
use gated_log::GatedLog;
use std::collections::VecDeque;

// Cuts a segment to 0 and syncs it.
fn drop_segment<S: Shelf>(shelf: &mut S, topic: TopicId, number: u64) -> Result<(), DeviceError>
    ensures empty { OnOk result ((S.disk shelf.old).honest → IsEmpty (FileId.Segment topic number) (S.disk shelf.new)) }
    ensures within { (S.disk shelf.old).honest → Within (λ f. f ≡ FileId.Segment topic number) (λ c. Unit {0}) (S.disk shelf.old) (S.disk shelf.new) }
    ensures cause { IsErr result → Failed (S.disk shelf.old) (S.disk shelf.new) }
    ensures kept { Kept (S.disk shelf.old) (S.disk shelf.new) }
{
    let file = FileId::Segment { topic, number };
    shelf.cut(file, 0)?;
    shelf.sync(file)
}

// The same of each segment from one on and before another one, with two device calls for each.
fn drop_segments<S: Shelf>(
    shelf: &mut S,
    topic: TopicId,
    from: u64,
    to: u64,
) -> Result<(), DeviceError>
    ensures empty { OnOk result ((S.disk shelf.old).honest → AreEmpty topic from to (S.disk shelf.new)) }
    ensures within { (S.disk shelf.old).honest → Within (Dropped topic from to) (λ c. Unit {0}) (S.disk shelf.old) (S.disk shelf.new) }
    ensures cause { IsErr result → Failed (S.disk shelf.old) (S.disk shelf.new) }
    ensures kept { Kept (S.disk shelf.old) (S.disk shelf.new) }
{
    let mut number = from;
    'segments: while number < to {
        drop_segment(shelf, topic, number)?;
        number += 1;
    }
    Ok(())
}

// Forgets the first logs.
fn forget_first(logs: &mut VecDeque<GatedLog>, count: u64)
    ensures items { logs.new.items ≡ drop count logs.old.items }
    ensures len { deque_len logs.new ≤ deque_len logs.old }
    ensures capacity { deque_capacity logs.new ≡ deque_capacity logs.old }
{
    let mut left = count;
    'logs: while left > 0 {
        let Some(_) = logs.pop_front() else {
            return;
        };
        left -= 1;
    }
}

impl Journal {
    /// Gives the segments before this one back, the oldest first: each file is cut to 0 and synced,
    /// with two device calls for each. Takes no memory. The journal begins in this segment from then
    /// on. After an error it is failed, and some of those files may be whole.
    pub fn drop_before<S: Shelf>(&mut self, shelf: &mut S, first: u64) -> Result<(), DeviceError>
        requires first { (first_of self.old ≤ first) × (first ≤ last_of self.old) }
        requires in_range { first ≤ 2 ^ 62 }
        ensures dropped { (chain : Chain) → Settled self.old (S.disk shelf.old) chain →
            OnOk result (Settled self.new (S.disk shelf.new) (behind (first - first_of self.old) chain)) }
        // The disk has their bytes back, whatever crash comes.
        ensures empty { OnOk result ((S.disk shelf.old).honest → AreEmpty (topic_of self.old) (first_of self.old) first (S.disk shelf.new)) }
        // A crash at any moment of the call leaves the chain from this segment on, and other files as they were.
        ensures within { (chain : Chain) → Settled self.old (S.disk shelf.old) chain →
            Within (SegmentsOf (topic_of self.old)) (λ c. Stands (topic_of self.old) first c (behind (first - first_of self.old) chain)) (S.disk shelf.old) (S.disk shelf.new) }

        ensures first { OnOk result (first_of self.new ≡ first) }
        ensures first_stays { IsErr result → first_of self.new ≡ first_of self.old }
        ensures room { HasRoomToRoll self.old → HasRoomToRoll self.new }
        ensures topic { topic_of self.new ≡ topic_of self.old }
        ensures works { OnOk result (failed self.new ≡ false) }
        ensures failed { IsErr result → failed self.new ≡ true }
        ensures stays_failed { failed self.old ≡ true → IsErr result × (shelf.new ≡ shelf.old) }
        ensures cause { failed self.old ≡ false → IsErr result → Failed (S.disk shelf.old) (S.disk shelf.new) }
        ensures kept { Kept (S.disk shelf.old) (S.disk shelf.new) }
    {
        if self.failed {
            return Err(DeviceError);
        }
        self.failed = true;
        drop_segments(shelf, self.topic, self.first, first)?;
        forget_first(&mut self.closed, first - self.first);
        self.first = first;
        self.failed = false;
        Ok(())
    }
}
