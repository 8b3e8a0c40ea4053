// What is told of a subscription of a topic that is served.
ghost use Rattle.std.specs.Prelude.{IfOk};
ghost use Rattle.subscriptions.specs.Summaries.{IsSummary};

use crate::subscription::Subscription;
use crate::summary::{SubscriptionSummary, permits_left};
use permits::Gauge;
use std::alloc::{AllocError, Global};

impl<G: Gauge> Subscription<G> {
    /// What is told of it where its topic is served.
    pub(crate) fn summary(&self, alloc: Global) -> Result<SubscriptionSummary, AllocError>
        ensures { IfOk result (IsSummary self.now) }
    {
        let status = self.status(alloc)?;
        Ok(SubscriptionSummary {
            status,
            mode: self.dispatch.mode(),
            consumers: self.consumers.len(),
            permits: permits_left(self.consumers.as_slice()),
        })
    }
}
