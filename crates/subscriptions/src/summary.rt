// What is told of one subscription of a topic that is served.
ghost use Rattle.std.specs.Prelude.{◌≡◌};
ghost use Rattle.subscriptions.specs.Summaries.{permits_left};

use crate::consumer::{Consumer, Mode};
use crate::status::SubscriptionStatus;
use permits::Gauge;

/// What is told of a subscription of a topic that is served.
#[derive(Drop)]
pub struct SubscriptionSummary {
    pub status: SubscriptionStatus,
    /// How its consumers share it. Of one that never had a consumer since the node was opened it is Exclusive.
    pub mode: Mode,
    /// How many consumers are attached.
    pub consumers: usize,
    /// How many permits they have left together, as far as is known; 2^64 - 1 where these are more. What was granted since a
    /// consumer's permits were looked at last isn't known.
    pub permits: u64,
}

/// How many permits the consumers have left together, as far as is known, and 2^64 - 1 where these are more.
pub(crate) fn permits_left<G: Gauge>(consumers: &[Consumer<G>]) -> u64
    ensures { result ≡ permits_left consumers.now }
{
    let mut permits = 0u64;
    for consumer in consumers {
        permits = permits.saturating_add(consumer.left());
    }
    permits
}
