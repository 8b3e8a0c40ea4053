ghost use Rattle.std.specs.Prelude.{◌≡◌, ℕ, ◌≤◌, ◌++◌, true, false, length, take, drop, sum_by, Ok, IfOk, IfSome, IsErrOf};
ghost use Rattle.disk.specs.Disk.{Kept, Failed};
ghost use Rattle.disk.specs.Areas.{OfTopic, Within};
ghost use Rattle.records.specs.Records.{after_all};
ghost use Rattle.topic_stores.specs.declared.error.WriteError.TheVariants.{Device, NoMemory};
ghost use Rattle.topic_stores.specs.Writing.{IsOneMoreAtMost, StandsFor};
ghost use Rattle.topic_core.specs.State.{CountsStay, floor, entries_of, changes_of, entries_in_doubt, changes_in_doubt};
ghost use Rattle.topic_core.specs.Crashes.{IsLeft};
ghost use Rattle.topic_core.specs.Flush.{IsTrimPoint, handed_on, TakeStep, FinishStep, FlushStep, awaits, has_no_flush, is_idle, finished, taken_back, failed};
ghost use Rattle.topic_core.specs.Standing.{Phase, IsFor, Match, Standing, phase_then};

use crate::durable::Durable;
use crate::topic::{Doubt, TopicCore};
use bytes::Bytes;
use disk::Shelf;
use permits::Gauge;
use std::alloc::AllocError;
use topic_stores::{Batch, TopicStore, WriteError};

impl<G: Gauge> TopicCore<G> {
    /// Commits what waits, the entries before the changes of the subscriptions, trims the ledger as far as nobody needs it, and
    /// answers how many entries were committed; 0 where nothing waits or a flush is under way. Want of memory changes nothing and
    /// reaches no device. A failure of the device fails the topic.
    pub fn flush<T: TopicStore, S: Shelf>(
        &mut self,
        stores: &mut T,
        shelf: &mut S,
    ) -> Result<usize, WriteError>
        requires matched { (phase : Phase) × Match phase self.old (T.view stores.old) }
        ensures matched { (phase : Phase) → Match phase self.old (T.view stores.old) → Match (phase_then self.old.failed self.new.failed phase) self.new (T.view stores.new) }
        ensures step { FlushStep self.old result self.new }
        ensures standing { (phase : Phase) → Standing T.stands phase self.old (T.view stores.old) (S.disk shelf.old) →
            Standing T.stands (phase_then self.old.failed self.new.failed phase) self.new (T.view stores.new) (S.disk shelf.new) }

        // A crash at any moment leaves the old ledger and subscriptions, the ledger with all that waits, or both with it, where the
        // ledger may be trimmed; files of other topics are as they were.
        ensures within { (phase : Phase) → Standing T.stands phase self.old (T.view stores.old) (S.disk shelf.old) → self.old.failed ≡ false → has_no_flush self.old ≡ false →
            (limit : ℕ) × IsTrimPoint self.old limit × Within (OfTopic (T.view stores.old).topic) (StandsFor (T.stands (T.view stores.old).topic) (IsLeft (handed_on self.old limit))) (S.disk shelf.old) (S.disk shelf.new) }

        ensures topic { (T.view stores.new).topic ≡ (T.view stores.old).topic }
        ensures per_ledger { self.new.per_ledger ≡ self.old.per_ledger }
        ensures counts { CountsStay self.old self.new }
        // Where it fails the topic, the store knows of as many segments as before, or of one more, which it had begun.
        ensures known { self.old.failed ≡ false → self.new.failed ≡ true → IsOneMoreAtMost (length (T.view stores.old).counts) (length (T.view stores.new).counts) }
        ensures idle { has_no_flush self.old ≡ true → (shelf.new ≡ shelf.old) × (stores.new ≡ stores.old) }
        ensures refused { self.old.failed ≡ true → (shelf.new ≡ shelf.old) × (stores.new ≡ stores.old) × (self.new ≡ self.old) }
        ensures no_memory { IsErrOf result NoMemory → (shelf.new ≡ shelf.old) × (self.new ≡ self.old) }
        ensures cause { self.old.failed ≡ false → IsErrOf result Device → Failed (S.disk shelf.old) (S.disk shelf.new) }
        ensures kept { Kept (S.disk shelf.old) (S.disk shelf.new) }
    {
        // The proof reads here what holds of a topic at any time.
        let _ = &self.alloc;
        let Some(batch) = self.take_batch()? else {
            return Ok(0);
        };
        let written = stores.write(shelf, &batch);
        self.finish(batch, written)
    }

    /// Hands on all that waits, and copies it, sharing the bytes of the entries, with the position up to which the ledger may be
    /// trimmed. None where nothing waits or a flush is under way; want of memory changes nothing.
    pub fn take_batch(&mut self) -> Result<Option<Batch>, WriteError>
        ensures step { TakeStep self.old result self.new }
        ensures batch { IfOk result (λ taken. IfSome taken (λ batch. IsFor self.new batch)) }
    {
        if self.failed {
            return Err(WriteError::Device);
        }
        if self.doubt.is_some() || self.is_idle() {
            return Ok(None);
        }
        let trim = self.trim_point();
        let batch = self.copy_of_waiting(trim)?;
        self.hand_on(trim);
        Ok(Some(batch))
    }

    /// Up to where the ledger may be trimmed: the last position that begins a ledger id and before which each one is acknowledged on
    /// all subscriptions. Without one nothing is trimmed.
    fn trim_point(&self) -> u64
        ensures { IsTrimPoint self.now result }
    {
        let Some(position) = self.subs.all_past(self.committed) else {
            return self.base;
        };
        let start = position - position % u64::from(self.per_ledger);
        if start < self.base {
            return self.base;
        }
        start
    }

    /// A copy of all that waits, which shares the bytes of the entries.
    fn copy_of_waiting(&self, trim: u64) -> Result<Batch, AllocError>
        ensures trim { IfOk result (λ batch. batch.trim ≡ trim) }
        ensures entries { IfOk result (λ batch. batch.entries.items ≡ self.now.waiting) }
        ensures changes { IfOk result (λ batch. batch.changes.items ≡ self.now.subs.changes) }
    {
        let entries = Vec::from_clones(self.alloc, self.waiting.as_slice())?;
        let changes = Vec::from_clones(self.alloc, self.subs.changes())?;
        Ok(Batch {
            entries,
            changes,
            trim,
        })
    }

    /// All that waits is handed on.
    fn hand_on(&mut self, trim: u64)
        requires { IsTrimPoint self.old trim }
        ensures { self.new ≡ handed_on self.old trim }
    {
        self.queues.hand_on();
        self.producers.hand_on_closings();
        self.doubt = Some(Doubt {
            entries: self.waiting.len(),
            changes: self.subs.changes().len(),
            trim,
        });
    }

    /// Whether nothing waits for a flush.
    fn is_idle(&self) -> bool
        ensures { result ≡ is_idle self.now }
    {
        self.waiting.is_empty()
            && self.subs.changes().is_empty()
            && self.queues.are_idle()
            && self.producers.are_open()
    }

    /// Whether the topic works and has handed on as much as the batch has.
    pub fn awaits(&self, batch: &Batch) -> bool
        ensures { result ≡ awaits self.now batch.now }
    {
        !self.failed
            && self.doubt.is_some()
            && self.entries_handed_on() == batch.entries.len()
            && self.changes_handed_on() == batch.changes.len()
            && self.floor() == batch.trim
    }

    /// Ends a flush as the write of its batch did, which answers where the store's ledger begins then, and answers how many entries
    /// it committed. A batch that the topic doesn't
    /// await changes nothing, and the answer is 0. Takes no memory.
    pub fn finish(
        &mut self,
        batch: Batch,
        written: Result<u64, WriteError>,
    ) -> Result<usize, WriteError>
        ensures step { awaits self.old batch ≡ true → FinishStep self.old written result self.new }
        ensures other { awaits self.old batch ≡ false → (result ≡ Ok 0) × (self.new ≡ self.old) }
    {
        if !self.awaits(&batch) {
            drop(batch);
            return Ok(0);
        }
        match written {
            Ok(base) => Ok(self.commit(batch, base.min(self.floor()))),
            Err(WriteError::Device) => {
                drop(batch);
                self.fail();
                Err(WriteError::Device)
            }
            Err(WriteError::NoMemory) => {
                drop(batch);
                self.take_back();
                Err(WriteError::NoMemory)
            }
        }
    }

    /// How many entries were handed on.
    fn entries_handed_on(&self) -> usize
        ensures count { result ≡ entries_of self.now.doubt }
        ensures within { result ≤ length self.now.waiting }
    {
        match self.doubt {
            Some(doubt) => doubt.entries,
            None => 0,
        }
    }

    /// How many changes were handed on.
    fn changes_handed_on(&self) -> usize
        ensures count { result ≡ changes_of self.now.doubt }
        ensures within { result ≤ length self.now.subs.changes }
    {
        match self.doubt {
            Some(doubt) => doubt.changes,
            None => 0,
        }
    }

    /// What was handed on is committed, its replies are due, and the producers whose closing it was are gone. The entries stand
    /// in memory from then on, in the batch's list. What the ledger is trimmed of takes no memory any more.
    fn commit(&mut self, batch: Batch, trim: u64) -> usize
        requires as_many { length batch.entries.items ≡ entries_of self.old.doubt }
        requires within { trim ≤ floor self.old }
        ensures count { result ≡ entries_of self.old.doubt }
        ensures committed { self.new ≡ finished self.old trim }
    {
        let Batch {
            mut entries,
            changes,
            ..
        } = batch;
        drop(changes);
        let count = self.entries_handed_on();
        let changes = self.changes_handed_on();
        let bytes = bytes_in(&self.waiting[..count]);
        let made = &self.subs.changes()[..changes];
        let durable = self.durable.after(&self.waiting[..count], made, trim);
        move_first(&mut self.waiting, &mut entries);
        self.waiting_bytes -= bytes;
        self.base = self.base.max(trim);
        self.committed += count as u64;
        self.durable
            .commit(durable, entries, bytes, self.committed - self.base);
        self.subs.settle(changes);
        self.subs.forget_below(self.base);
        self.queues.make_due();
        self.producers.drop_closed();
        self.doubt = None;
        count
    }

    /// What was handed on waits again.
    fn take_back(&mut self)
        ensures { self.new ≡ taken_back self.old }
    {
        self.queues.take_back();
        self.producers.take_closings_back();
        self.doubt = None;
    }

    /// The device failed: what was handed on stays in doubt, and all pending replies are due as refusals.
    fn fail(&mut self)
        ensures { self.new ≡ failed self.old }
    {
        self.queues.refuse();
        self.failed = true;
    }
}

/// How many bytes the entries have together.
fn bytes_in(entries: &[Bytes]) -> u64
    requires { sum_by length entries.now ≤ 16777216 }
    ensures { result ≡ sum_by length entries.now }
{
    let mut bytes: u64 = 0;
    for entry in entries {
        bytes += entry.len() as u64;
    }
    bytes
}

/// Moves the first entries into a list of as many, in the place of those.
fn move_first(entries: &mut Vec<Bytes>, moved: &mut Vec<Bytes>)
    requires { length moved.old.items ≤ length entries.old.items }
    ensures moved { moved.new.items ≡ take (length moved.old.items) entries.old.items }
    ensures left { entries.new.items ≡ drop (length moved.old.items) entries.old.items }
{
    let count = moved.len();
    exchange_first(entries.as_mut_slice(), moved.as_mut_slice());
    drop_first(entries, count);
}

/// Exchanges the first entries and all of another list.
fn exchange_first(entries: &mut [Bytes], others: &mut [Bytes])
    requires { length others.old ≤ length entries.old }
    ensures others { others.new ≡ take (length others.old) entries.old }
    ensures entries { entries.new ≡ others.old ++ drop (length others.old) entries.old }
{
    let count = others.len();
    entries[..count].swap_with_slice(others);
}

/// Drops the first entries.
fn drop_first(entries: &mut Vec<Bytes>, count: usize)
    requires { count ≤ length entries.old.items }
    ensures { entries.new.items ≡ drop count entries.old.items }
{
    let left = entries.len() - count;
    entries.rotate_left(count);
    entries.truncate(left);
}
