// What is told of the subscriptions of a topic that is served, one by one.
ghost use Rattle.std.specs.Prelude.{◌≡◌, IfOk, length, slice_get};
ghost use Rattle.subscriptions.specs.Summaries.{IsSummaryOf};

use crate::summary::SubscriptionSummary;
use crate::table::Subscriptions;
use permits::Gauge;
use std::alloc::AllocError;

impl<G: Gauge> Subscriptions<G> {
    /// How many there are.
    pub fn len(&self) -> usize
        ensures { result ≡ length self.now.subs }
    {
        self.subs.len()
    }

    /// What is told of the subscription at this place, where they stand in the order in which they were made; none behind the
    /// last. It copies the name, and walks over the consumers; acknowledgements for whose places memory was refused are put in place
    /// in a copy of all.
    pub fn summary(&self, place: usize) -> Result<Option<SubscriptionSummary>, AllocError>
        ensures { IfOk result (IsSummaryOf (slice_get self.now.subs place)) }
    {
        let Some(sub) = self.subs.get(place) else {
            return Ok(None);
        };
        let summary = sub.summary(self.alloc)?;
        Ok(Some(summary))
    }
}
