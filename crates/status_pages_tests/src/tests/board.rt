// A board that tells what it is told.
use names::TopicName;
use records::Name;
use status_pages::{Board, BrokerReport, TopicReport};
use std::alloc::{AllocError, Global};
use std::test::Fail;
use subscriptions::{Mode, SubscriptionStatus, SubscriptionSummary};
use topic_core::{Activity, TopicSummary};

/// So many topics, each with two subscriptions; the last of them is failed, where that is said.
#[derive(Drop)]
pub(super) struct Plain {
    pub(super) alloc: Global,
    pub(super) name: TopicName,
    pub(super) topics: u64,
    pub(super) is_failed: bool,
}

impl Plain {
    pub(super) fn new(alloc: Global, topics: u64, is_failed: bool) -> Result<Plain, Fail> {
        Ok(Plain {
            alloc,
            name: TopicName::read(alloc, b"persistent://a/b/c")?,
            topics,
            is_failed,
        })
    }
}

impl Board for Plain {
    ghost broker_told = { λ _ _. Unit {0} };

    ghost topic_told = { λ _ _ _. Unit {0} };

    ghost subscription_told = { λ _ _ _ _. Unit {0} };

    fn broker(&self) -> BrokerReport {
        BrokerReport {
            connections: 3,
            since: Some(1_700_000_000),
        }
    }

    fn topic(&self, number: u64) -> Result<Option<TopicReport>, AllocError> {
        if number >= self.topics {
            return Ok(None);
        }
        let is_last = number.wrapping_add(1) == self.topics;
        Ok(Some(TopicReport {
            number,
            name: self.name.clone()?,
            base: 4,
            segments: if number == 0 { Some(2) } else { None },
            summary: TopicSummary {
                entries: 20,
                waiting: 4,
                waiting_bytes: 4096,
                accepted: 12,
                handed: 8,
                producers: 1,
                subscriptions: 2,
                is_failed: self.is_failed && is_last,
            },
            activity: Activity {
                messages: 31,
                acknowledgements: 30,
                flushes: 6,
                bytes: 700,
            },
        }))
    }

    fn subscription(
        &self,
        _topic: u64,
        place: usize,
    ) -> Result<Option<SubscriptionSummary>, AllocError> {
        let (name, mode, mark_delete) = match place {
            0 => ("z", Mode::KeyShared, 7),
            1 => ("a\"\\\n<b>&'", Mode::Shared, 25),
            _ => return Ok(None),
        };
        Ok(Some(SubscriptionSummary {
            status: SubscriptionStatus {
                name: Name::new(self.alloc, name)?,
                mark_delete,
                ranges: 3,
            },
            mode,
            consumers: 2,
            permits: 1000,
        }))
    }
}
