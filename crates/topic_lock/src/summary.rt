// What is told of a topic that is shared, to whoever looks at a node that serves. Its number and its name stand beside its lock.
ghost use Rattle.std.specs.Prelude.{IfOk};
ghost use Rattle.topic_lock.specs.Summaries.{IsTold, IsToldAt, MayBegin};

use crate::places::SharedTopic;
use crate::tally::Tallies;
use disk::Shelf;
use std::alloc::AllocError;
use std::sync::Wait;
use subscriptions::SubscriptionSummary;
use topic_core::{Activity, TopicStore, TopicSummary};

impl<T: TopicStore, S: Shelf + Drop, K: Tallies> SharedTopic<T, S, K> {
    /// What `CountedTopic::summary` tells at a moment of the call, under the topic's lock alone. It takes no memory.
    pub fn summary<R: Wait>(&self, rt: &R) -> TopicSummary
        ensures { IsTold result }
    {
        let topic = self.lock(rt);
        topic.show_sound();
        topic.summary()
    }

    /// What `CountedTopic::base` tells at a moment of the call, under the topic's lock alone. It takes no memory.
    pub fn base<R: Wait>(&self, rt: &R) -> u64
        ensures { MayBegin result }
    {
        let topic = self.lock(rt);
        topic.show_sound();
        topic.base()
    }

    /// What `CountedTopic::activity` tells at a moment of the call, under the topic's lock alone.
    pub fn activity<R: Wait>(&self, rt: &R) -> Activity {
        self.lock(rt).activity()
    }

    /// What `CountedTopic::subscription` tells at a moment of the call, under the topic's lock alone. Between two calls
    /// subscriptions may be made and go, so that one may be told twice, or not at all.
    pub fn subscription<R: Wait>(
        &self,
        rt: &R,
        place: usize,
    ) -> Result<Option<SubscriptionSummary>, AllocError>
        ensures { IfOk result (IsToldAt place) }
    {
        let topic = self.lock(rt);
        topic.show_sound();
        topic.subscription(place)
    }

    /// In how many segment files the entries are that are still there, by the lock of its stores alone, for which nobody waits here:
    /// none is told while somebody reads or writes there, or waits to.
    pub fn segments(&self) -> Option<u64> {
        let stores = self.stores.try_lock()?;
        Some(stores.segments())
    }
}
