// What a node tells of its topics.
ghost use Rattle.std.specs.Prelude.{◌≡◌, length, IfOk};
ghost use Rattle.subscriptions.specs.Statuses.{AreStatuses};
ghost use Rattle.node.specs.Standing.{state_of, phase_in, HeldStands, Stands};
ghost use Rattle.node.specs.Driving.{StatusIn, SegmentsAt, TellsSegments};
ghost use Rattle.node.specs.State.{place_in};

use crate::held::Held;
use crate::node::Node;
use disk::Shelf;
use names::TopicName;
use std::alloc::AllocError;
use subscriptions::SubscriptionStatus;
use topic_core::TopicStore;

/// What a topic has.
#[derive(Drop)]
pub struct TopicStatus {
    pub number: u64,
    pub name: TopicName,
    /// How many entries are committed, with those that were trimmed.
    pub entries: u64,
    /// The position of the first one that is still there.
    pub base: u64,
    /// How many segment files the entries from there on are in; where the store met a failure of the device, how many it last knew to be
    /// whole.
    pub segments: u64,
    /// In the order of the names' bytes.
    pub subscriptions: Vec<SubscriptionStatus>,
}

impl<T: TopicStore> Held<T> {
    /// What the topic, which has this number and this name, tells. An error is want of memory.
    fn status(&self, number: u64, name: TopicName) -> Result<TopicStatus, AllocError>
        ensures number { IfOk result (λ status. status.number ≡ number) }
        ensures name { IfOk result (λ status. status.name ≡ name) }
        ensures entries { IfOk result (λ status. status.entries ≡ self.now.core.committed) }
        ensures base { IfOk result (λ status. status.base ≡ self.now.core.ledger.base) }
        ensures segments { IfOk result (λ status. status.segments ≡ length (T.view self.now.stores).counts) }
        ensures subscriptions { IfOk result (λ status. AreStatuses self.now.core.subs.subs status.subscriptions.items) }
    {
        Ok(TopicStatus {
            number,
            name,
            entries: self.core.committed(),
            base: self.core.base(),
            segments: self.stores.segments(),
            subscriptions: self.core.statuses()?,
        })
    }
}

impl<T: TopicStore, S: Shelf> Node<T, S> {
    /// What the topic of a number has; none where there is no such topic. An error is want of memory.
    pub fn status(&self, topic: u64) -> Result<Option<TopicStatus>, AllocError>
        ensures status { Stands S.disk self.now → IfOk result (StatusIn (place_in (state_of S.disk self.now).broker.topics topic) (state_of S.disk self.now)) }
        ensures files { Stands S.disk self.now → IfOk result (SegmentsAt T.laid topic self.now.topics.held.items (S.disk self.now.topics.shelf).seen) }
    {
        if topic >= self.topics.count() {
            return Ok(None);
        }
        let Some(name) = self.topics.catalog.name(topic as u16) else {
            unreachable!();
        };
        let status = self.topics.held[topic as usize].status(topic, name.clone()?)?;
        Ok(Some(status))
    }
}
