// What whoever looks is told of a broker that serves.
use crate::pool::MOST_CONNECTIONS;
use crate::threads::Hall;
use disk::Shelf;
use status_pages::{Board, BrokerReport, TopicReport};
use std::alloc::AllocError;
use std::sync::Wait;
use subscriptions::SubscriptionSummary;
use topic_core::TopicStore;
use topic_lock::Tallies;

/// A broker that serves, as it is shown. A topic's lock is taken for one question at a time, and its stores' lock only where nobody
/// has it.
#[derive(Drop)]
pub(crate) struct Told<'h, 'a, T: TopicStore, S: Shelf + Drop, K: Tallies, R> {
    pub(crate) rt: &'h R,
    pub(crate) hall: &'h Hall<'a, T, S, K>,
    /// Since when it serves, in seconds since 1970 in UTC; none where the clock couldn't be read.
    pub(crate) since: Option<u64>,
}

impl<'h, 'a, T: TopicStore, S: Shelf + Drop, K: Tallies, R: Wait> Board
    for Told<'h, 'a, T, S, K, R> {
    ghost use Rattle.server.specs.Told.{IsReport, IsOfPlace};

    ghost broker_told = { λ _ _. Unit {0} };

    ghost topic_told = { λ _ number told. IsReport number told };

    ghost subscription_told = { λ _ _ place told. IsOfPlace place told };

    fn broker(&self) -> BrokerReport {
        let free = self.hall.pool.lock(self.rt).count();
        BrokerReport {
            connections: MOST_CONNECTIONS.saturating_sub(free) as u64,
            since: self.since,
        }
    }

    fn topic(&self, number: u64) -> Result<Option<TopicReport>, AllocError> {
        let hall = self.hall;
        let places = hall.broker.places;
        let Some(place) = places.get(number as usize) else {
            return Ok(None);
        };
        let Some(topic) = place.get() else {
            return Ok(None);
        };
        let name = topic.name.clone()?;
        // First of all, so that no entries are told as trimmed that aren't among those that came.
        let base = topic.base(self.rt);
        Ok(Some(TopicReport {
            number,
            name,
            base,
            segments: topic.segments(),
            summary: topic.summary(self.rt),
            activity: topic.activity(self.rt),
        }))
    }

    fn subscription(
        &self,
        topic: u64,
        place: usize,
    ) -> Result<Option<SubscriptionSummary>, AllocError> {
        let hall = self.hall;
        let places = hall.broker.places;
        let Some(at) = places.get(topic as usize) else {
            return Ok(None);
        };
        let Some(topic) = at.get() else {
            return Ok(None);
        };
        topic.subscription(self.rt, place)
    }
}
