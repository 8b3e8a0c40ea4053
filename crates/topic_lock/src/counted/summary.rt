// What is told of a topic that is served, and of its stores. No session asks.
ghost use Rattle.std.specs.Prelude.{◌≡◌, IfOk, length, slice_get};
ghost use Rattle.subscriptions.specs.Summaries.{IsSummaryOf};
ghost use Rattle.topic_core.specs.Summaries.{summary_of};

use crate::counted::CountedTopic;
use crate::stores::CountedStores;
use crate::tally::Tallies;
use disk::Shelf;
use std::alloc::AllocError;
use subscriptions::SubscriptionSummary;
use topic_core::{Activity, TopicStore, TopicSummary};

impl<K: Tallies> CountedTopic<K> {
    /// What is told of the topic beside its subscriptions, also of a failed one.
    pub fn summary(&self) -> TopicSummary
        ensures { result ≡ summary_of self.now.core }
    {
        self.core.summary()
    }

    /// The position of the first entry that is still there.
    pub fn base(&self) -> u64
        ensures { result ≡ self.now.core.ledger.base }
    {
        self.core.base()
    }

    /// What it has done beside accepting SENDs and handing out receipts.
    pub fn activity(&self) -> Activity
        ensures { result ≡ self.now.activity }
    {
        self.activity
    }

    /// What is told of the subscription at this place, where they stand in the order in which they were made; none behind the last.
    pub fn subscription(&self, place: usize) -> Result<Option<SubscriptionSummary>, AllocError>
        ensures { IfOk result (IsSummaryOf (slice_get self.now.core.subs.subs place)) }
    {
        self.core.subscription(place)
    }
}

impl<T: TopicStore, S: Shelf + Drop, K: Tallies> CountedStores<T, S, K> {
    /// In how many segment files the topic's entries are, as far as the stores remember.
    pub fn segments(&self) -> u64
        ensures { result ≡ length (T.view self.now.stores).counts }
    {
        self.stores.segments()
    }
}
