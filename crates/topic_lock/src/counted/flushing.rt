// A flush in three parts, each under one lock: a topic's batch is taken, written to its stores, and ended in the topic.
ghost use Rattle.std.specs.Prelude.{◌≡◌, ◌⊎◌, ◌+◌, ◌-◌, ◌<◌, ◌≤◌, ◌^◌, true, false, length, Ok, Err, IfOk, IfErr, IfSome, IsErr, IsErrOf, is_ok};
ghost use Rattle.disk.specs.Disk.{Kept, Failed};
ghost use Rattle.disk.specs.Areas.{OfTopic, Within};
ghost use Rattle.managed_ledger.specs.Entries.{Ledger, lengthened, trimmed};
ghost use Rattle.records.specs.Records.{after_all};
ghost use Rattle.records.specs.Maps.{Kept as KeptSubscriptions};
ghost use Rattle.topic_stores.specs.Views.{Settled};
ghost use Rattle.topic_stores.specs.Writing.{IsLeft, IsTrim, StandsFor};
ghost use Rattle.topic_core.specs.Flush.{TakeStep, awaits};
ghost use Rattle.topic_core.specs.Standing.{IsFor};
ghost use Rattle.topic_core.specs.State.{waiting_bytes};
ghost use Rattle.topic_core.specs.Activity.{with_flush};
ghost use Rattle.topic_lock.specs.declared.fault.FlushFault.TheVariants.{Device, NoMemory, Apart};
ghost use Rattle.topic_lock.specs.Ends.{end_of, fault_of, may_have_added};
ghost use Rattle.topic_lock.specs.Flushing.{FinishStep, Writes, told_of, taken_of, IfNothing, IfBatch};

use crate::counted::CountedTopic;
use crate::durable::{DurableByTopics, DurableTally};
use crate::fault::FlushFault;
use crate::stores::CountedStores;
use crate::tally::Tallies;
use disk::Shelf;
use std::sync::Wait;
use std::sync::ledger::Share;
use topic_core::{Batch, TopicStore, WriteError};

/// A flusher at rest: its share of what is durable counts nothing.
#[derive(Drop)]
pub struct Flusher<K: Tallies> {
    pub(crate) share: Share<DurableByTopics<K>>,
    ghost idle: { (share.amount ≡ 0) × (share.parts ≡ 1) },
}

impl<K: Tallies> Flusher<K> {
    pub fn new(share: Share<DurableByTopics<K>>) -> Flusher<K>
        requires { (share.amount ≡ 0) × (share.parts ≡ 1) }
    {
        Flusher { share }
    }
}

/// What a flusher takes of a topic.
pub enum Taken {
    /// A flush that committed nothing: nothing waits, a flush is under way, or memory was refused.
    Nothing(Flushed),
    Batch(TakenBatch),
}

/// A batch that a flusher took of the topic of a number. Nobody may let it go: it is written.
pub struct TakenBatch {
    topic: u64,
    batch: Batch,
}

/// How a flush ended. A topic alone says so.
#[derive(Drop)]
pub struct Flushed {
    count: Result<usize, FlushFault>,
}

/// A batch whose write has ended, and how many of its entries are durable since, with the flusher's share of them. Nobody may let it
/// go: its topic ends the flush.
pub struct Written<K: Tallies> {
    batch: Batch,
    end: Result<u64, FlushFault>,
    added: u64,
    share: Share<DurableByTopics<K>>,
    ghost counted: { (share.amount ≡ added) × (share.parts ≡ 1) },
    ghost by_end: { may_have_added (length batch.entries.items) end added ≡ true },
}

/// A batch whose write a topic didn't await: somebody else opened it again.
#[derive(Drop)]
pub struct Unawaited<K: Tallies> {
    batch: Batch,
    end: Result<u64, FlushFault>,
    added: u64,
    share: Share<DurableByTopics<K>>,
}

impl Flushed {
    /// How many entries were committed, or why none was.
    pub fn count(&self) -> Result<usize, FlushFault>
        ensures { result ≡ self.now.count }
    {
        self.count
    }
}

impl<K: Tallies> CountedTopic<K> {
    /// Hands on all that waits, and copies it. None where nothing waits or a flush is under way; want of memory changes nothing.
    pub fn take_batch(&mut self) -> Taken
        ensures step { TakeStep self.old.core (taken_of result) self.new.core }
        ensures batch { IfOk (taken_of result) (λ taken. IfSome taken (λ batch. IsFor self.new.core batch)) }
        ensures nothing { IfNothing result (λ flushed. IfOk flushed.count (λ n. n ≡ 0)) }
        ensures topic { IfBatch result (λ taken. taken.topic ≡ self.old.number) }
        ensures number { self.new.number ≡ self.old.number }
        ensures activity { self.new.activity ≡ self.old.activity }
    {
        let CountedTopic { core, number, .. } = self;
        let topic = *number;
        match core.take_batch() {
            Ok(Some(batch)) => Taken::Batch(TakenBatch { topic, batch }),
            Ok(None) => Taken::Nothing(Flushed { count: Ok(0) }),
            Err(WriteError::NoMemory) => Taken::Nothing(Flushed {
                count: Err(FlushFault::NoMemory),
            }),
            Err(WriteError::Device) => Taken::Nothing(Flushed {
                count: Err(FlushFault::Device),
            }),
        }
    }

    /// Ends a flush as its write did, and hands the flusher back, with how many entries were committed. What a failure left behind
    /// stays with the topic. A write that the topic doesn't await changes nothing and is handed back.
    pub fn finish(&mut self, written: Written<K>) -> Result<(Flusher<K>, Flushed), Unawaited<K>>
        ensures step { IfOk result (λ ended. (awaits self.old.core written.batch ≡ true) × FinishStep self.old.core written.end ended.1.count self.new.core) }
        ensures other { IfErr result (λ same. (awaits self.old.core written.batch ≡ false) × (same.batch ≡ written.batch) × (same.end ≡ written.end) × (same.added ≡ written.added) × (self.new.core ≡ self.old.core)) }
        ensures number { self.new.number ≡ self.old.number }
        ensures activity { IfOk result (λ ended. self.new.activity ≡ with_flush (is_ok ended.1.count) (waiting_bytes self.old.core - waiting_bytes self.new.core) self.old.activity) }
        ensures unawaited { IfErr result (λ _. self.new.activity ≡ self.old.activity) }
    {
        let Written {
            batch,
            end,
            added,
            mut share,
        } = written;
        if !self.core.awaits(&batch) {
            return Err(Unawaited {
                batch,
                end,
                added,
                share,
            });
        }
        let CountedTopic {
            core,
            committed,
            behind,
            left,
            activity,
            ..
        } = self;
        let before = core.summary().waiting_bytes;
        let ended = core.finish(batch, end_of(end));
        match end {
            Ok(_) => share.transfer(committed, added),
            Err(FlushFault::NoMemory) => {}
            Err(FlushFault::Device | FlushFault::Apart) => {
                share.transfer(behind, added);
                *left = added;
            }
        }
        let count = told(end, ended);
        activity.flush(count.is_ok(), before, core.summary().waiting_bytes);
        Ok((Flusher { share }, Flushed { count }))
    }
}

impl<T: TopicStore, S: Shelf + Drop, K: Tallies> CountedStores<T, S, K> {
    /// Writes a batch, which a flusher took of the stores' topic, and counts what became durable for the stores and for the flusher.
    /// It ends with where their ledger begins then, which is trimmed up to the batch's limit at most. A batch of another topic, or
    /// one that doesn't fit what the stores remember, isn't written.
    pub fn write<R: Wait>(
        &mut self,
        rt: &R,
        tally: &DurableTally<K>,
        flusher: Flusher<K>,
        taken: TakenBatch,
    ) -> Written<K>
        ensures batch { result.batch ≡ taken.batch }
        ensures remembers { Writes (T.view self.old.stores) taken.topic taken.batch result.end (T.view self.new.stores) }
        ensures counted { (T.view self.new.stores).count ≡ (T.view self.old.stores).count + result.added }
        ensures apart { IsErrOf result.end Apart → (self.new.stores ≡ self.old.stores) × (self.new.shelf ≡ self.old.shelf) }
        ensures written { (ledger : Ledger) (kept : KeptSubscriptions) → Settled (T.view self.old.stores) (S.disk self.old.shelf) ledger kept →
            IfOk result.end (λ base. Settled (T.view self.new.stores) (S.disk self.new.shelf) (trimmed base (lengthened ledger taken.batch.entries.items)) (after_all taken.batch.changes.items kept)) }
        ensures trimmed { (ledger : Ledger) (kept : KeptSubscriptions) → Settled (T.view self.old.stores) (S.disk self.old.shelf) ledger kept →
            IfOk result.end (λ base. IsTrim (lengthened ledger taken.batch.entries.items) taken.batch.trim (after_all taken.batch.changes.items kept) (trimmed base (lengthened ledger taken.batch.entries.items))) }
        ensures unwritten { (ledger : Ledger) (kept : KeptSubscriptions) → Settled (T.view self.old.stores) (S.disk self.old.shelf) ledger kept →
            IsErrOf result.end NoMemory → Settled (T.view self.new.stores) (S.disk self.new.shelf) ledger kept }
        ensures no_memory { IsErrOf result.end NoMemory → self.new.shelf ≡ self.old.shelf }

        // A crash at any moment of the call leaves the old entries and subscriptions, the ledger with the entries of the batch,
        // or both with all of it, where the ledger may be trimmed; files of other topics are as they were.
        ensures within { (ledger : Ledger) (kept : KeptSubscriptions) → Settled (T.view self.old.stores) (S.disk self.old.shelf) ledger kept →
            IsErrOf result.end Apart ⊎ Within (OfTopic (T.view self.old.stores).topic)
            (StandsFor (T.stands (T.view self.old.stores).topic) (IsLeft ledger kept taken.batch.entries.items taken.batch.changes.items taken.batch.trim))
            (S.disk self.old.shelf) (S.disk self.new.shelf) }

        ensures topic { (T.view self.new.stores).topic ≡ (T.view self.old.stores).topic }
        ensures cause { (T.view self.old.stores).failed ≡ false → IsErrOf result.end Device → Failed (S.disk self.old.shelf) (S.disk self.new.shelf) }
        ensures kept { Kept (S.disk self.old.shelf) (S.disk self.new.shelf) }
    {
        let CountedStores {
            stores,
            shelf,
            durable,
        } = self;
        let TakenBatch { topic, batch } = taken;
        let Flusher { mut share } = flusher;
        if topic != u64::from(stores.topic()) || !stores.fits(&batch) {
            let end = Err(FlushFault::Apart);
            return Written {
                batch,
                end,
                added: 0,
                share,
            };
        }
        let before = stores.len();
        let end = fault_of(stores.write(shelf, &batch));
        let added = stores.len() - before;
        tally.lock(rt).raise(durable, &mut share, added);
        Written {
            batch,
            end,
            added,
            share,
        }
    }
}

/// The end of a write, as its topic takes it.
fn end_of(end: Result<u64, FlushFault>) -> Result<u64, WriteError>
    ensures { result ≡ end_of end }
{
    match end {
        Ok(base) => Ok(base),
        Err(FlushFault::NoMemory) => Err(WriteError::NoMemory),
        Err(FlushFault::Device | FlushFault::Apart) => Err(WriteError::Device),
    }
}

/// How many entries a flush committed, or why it did not.
fn told(end: Result<u64, FlushFault>, ended: Result<usize, WriteError>) -> Result<usize, FlushFault>
    ensures { result ≡ told_of end ended }
{
    match end {
        Ok(_) => Ok(ended.unwrap_or(0)),
        Err(why) => Err(why),
    }
}

/// How the write of a batch ended.
fn fault_of(end: Result<u64, WriteError>) -> Result<u64, FlushFault>
    ensures { result ≡ fault_of end }
{
    match end {
        Ok(base) => Ok(base),
        Err(WriteError::NoMemory) => Err(FlushFault::NoMemory),
        Err(WriteError::Device) => Err(FlushFault::Device),
    }
}
