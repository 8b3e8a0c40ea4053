// What is told of a topic that is served.
ghost use Rattle.std.specs.Prelude.{◌≡◌, IfOk, length, slice_get};
ghost use Rattle.subscriptions.specs.Summaries.{IsSummaryOf};
ghost use Rattle.topic_core.specs.Summaries.{summary_of};

use crate::topic::TopicCore;
use permits::Gauge;
use std::alloc::AllocError;
use subscriptions::SubscriptionSummary;

/// What is told of a topic that is served, beside its subscriptions.
#[derive(Clone, Copy, Debug, PartialEq, Eq)]
pub struct TopicSummary {
    /// How many entries are committed.
    pub entries: u64,
    /// How many accepted entries wait for a flush or are in one that is under way, and how many bytes these have together.
    pub waiting: usize,
    pub waiting_bytes: u64,
    /// How many SENDs were accepted, and how many receipts were collected, since the topic was opened or made; an opening of the failed
    /// topic goes on with both.
    pub accepted: u64,
    pub handed: u64,
    /// How many producers sessions have there, closing ones too.
    pub producers: usize,
    pub subscriptions: usize,
    /// Whether a device failure ended its work, until it is opened again.
    pub is_failed: bool,
}

impl<G: Gauge> TopicCore<G> {
    /// What is told of the topic beside its subscriptions, also of a failed one.
    pub fn summary(&self) -> TopicSummary
        ensures { result ≡ summary_of self.now }
    {
        TopicSummary {
            entries: self.committed,
            waiting: self.waiting.len(),
            waiting_bytes: self.waiting_bytes,
            accepted: self.accepted,
            handed: self.handed,
            producers: self.producers.len(),
            subscriptions: self.subs.len(),
            is_failed: self.failed,
        }
    }

    /// How many changes of its subscriptions wait for a flush or are in one that is under way.
    pub fn changes(&self) -> usize
        ensures { result ≡ length self.now.subs.changes }
    {
        self.subs.changes().len()
    }

    /// What is told of the subscription at this place, where they stand in the order in which they were made; none behind the last.
    pub fn subscription(&self, place: usize) -> Result<Option<SubscriptionSummary>, AllocError>
        ensures { IfOk result (IsSummaryOf (slice_get self.now.subs.subs place)) }
    {
        self.subs.summary(place)
    }
}
