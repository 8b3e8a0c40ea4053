// A flush of a topic by its flusher, and who is woken behind it.
ghost use Rattle.std.specs.Prelude.{◌≡◌};

use crate::counted::flushing::{Flushed, Flusher, Taken, Unawaited};
use crate::counted::reopening::Reopened;
use crate::durable::DurableTally;
use crate::fault::FlushFault;
use crate::holding::ring_reader;
use crate::places::SharedTopic;
use crate::tally::Tallies;
use bells::{Bells, Marks};
use disk::Shelf;
use std::sync::Wait;
use topic_core::TopicStore;

impl<T: TopicStore, S: Shelf + Drop, K: Tallies> SharedTopic<T, S, K> {
    /// Flushes the topic in three parts, each under one lock, and hands the flusher back, with how many entries were committed: none
    /// where nothing waited. Then it has those writers woken whom the flush owed a reply or whose consumers were given nothing, and
    /// wakes the next reader that waits for room. Where memory was refused all waits as before. A write that the topic didn't await is
    /// handed back: somebody else opened the topic again.
    pub fn flush<R: Wait>(
        &self,
        rt: &R,
        tally: &DurableTally<K>,
        bells: &Bells,
        flusher: Flusher<K>,
    ) -> Result<(Flusher<K>, Flushed), Unawaited<K>> {
        let (taken, owed) = self.take(rt);
        let batch = match taken {
            Taken::Batch(batch) => batch,
            Taken::Nothing(flushed) => {
                bells.ring_by_another(rt, &owed);
                return Ok((flusher, flushed));
            }
        };
        let written = self.stores.lock(rt).write(rt, tally, flusher, batch);
        let mut topic = self.topic.lock(rt);
        let ended = topic.finish(written);
        if lacks_memory(&ended) {
            topic.waiting.owe_all();
        }
        let hungry = topic.waiting.take_hungry();
        let reader = topic.next_reader();
        drop(topic);
        bells.ring_by_another(rt, &owed);
        bells.ring_by_another(rt, &hungry);
        ring_reader(bells, reader);
        ended
    }

    /// Opens the topic again where it has failed, as `CountedTopic::reopen` says, under the lock of its stores and then its own.
    pub fn reopen<R: Wait>(&self, rt: &R, tally: &DurableTally<K>) -> Reopened
        ensures { result.topic ≡ self.now.number }
    {
        let mut stores = self.stores.lock(rt);
        let mut topic = self.lock(rt);
        topic.reopen(rt, tally, &mut stores)
    }

    /// A batch of all that waits, and whom its flush owes a reply. Where memory is refused what is owed stays.
    fn take<R: Wait>(&self, rt: &R) -> (Taken, Marks) {
        let mut topic = self.topic.lock(rt);
        let taken = topic.take_batch();
        let owed = match &taken {
            Taken::Nothing(flushed) if flushed.count().is_err() => Marks::new(),
            Taken::Nothing(_) | Taken::Batch(_) => topic.waiting.take_owed(),
        };
        (taken, owed)
    }
}

/// Whether a flush ended so for want of memory.
fn lacks_memory<K: Tallies>(ended: &Result<(Flusher<K>, Flushed), Unawaited<K>>) -> bool {
    match ended {
        Ok((_, flushed)) => flushed.count() == Err(FlushFault::NoMemory),
        Err(_) => false,
    }
}
