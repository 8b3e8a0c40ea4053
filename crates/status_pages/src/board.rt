// Who tells what the pages show.
ghost use Rattle.std.specs.Prelude.{IfOk};

use names::TopicName;
use std::alloc::AllocError;
use subscriptions::SubscriptionSummary;
use topic_core::{Activity, TopicSummary};

/// What is told of a topic.
#[derive(Drop)]
pub struct TopicReport {
    pub number: u64,
    pub name: TopicName,
    /// The position of the first entry that is still there.
    pub base: u64,
    /// How many segment files the entries from there on are in; none where that can't be told.
    pub segments: Option<u64>,
    pub summary: TopicSummary,
    pub activity: Activity,
}

/// What is told of the whole broker.
#[derive(Clone, Copy, Debug)]
pub struct BrokerReport {
    /// How many clients are connected.
    pub connections: u64,
    /// Since when it serves, in seconds since 1970 in UTC; none where the clock couldn't be read.
    pub since: Option<u64>,
}

/// Whoever knows what a broker does now. Two questions may be answered at different moments.
pub trait Board {
    ghost use Rattle.std.specs.Prelude.{ℕ, Option};
    ghost use Rattle.status_pages.specs.declared.board.BrokerReport.{BrokerReport};
    ghost use Rattle.status_pages.specs.declared.board.TopicReport.{TopicReport};
    ghost use Rattle.subscriptions.specs.declared.summary.SubscriptionSummary.{SubscriptionSummary};

    /// What may be told of the whole broker.
    ghost broker_told: { Self → BrokerReport → Type 0 };

    /// What may be told of the topic of a number, and that there is none.
    ghost topic_told: { Self → ℕ → Option TopicReport → Type 0 };

    /// What may be told of the subscription at a place of a topic, and that there is none.
    ghost subscription_told: { Self → ℕ → ℕ → Option SubscriptionSummary → Type 0 };

    /// The whole broker now.
    fn broker(&self) -> BrokerReport
        ensures { broker_told self.now result };

    /// The topic of this number now; none where there is none. Topics are numbered from 0 without gaps. An error is want of memory.
    fn topic(&self, number: u64) -> Result<Option<TopicReport>, AllocError>
        ensures { IfOk result (topic_told self.now number) };

    /// The topic's subscription at this place now, in an order of the board's own; none behind the last. An error is want of memory.
    fn subscription(
        &self,
        topic: u64,
        place: usize,
    ) -> Result<Option<SubscriptionSummary>, AllocError>
        ensures { IfOk result (subscription_told self.now topic place) };
}
