ghost use Rattle.std.specs.Prelude.{◌≡◌, length};

use crate::topics::Topics;
use commands::Reply;
use disk::Shelf;
use names::TopicName;
use permits::{Granter, TooManyPermits};
use session::{Found, Member, Plain, Port};
use std::snapshot::Snapshot;
use topic_core::{Answer, Outgoing, ReadError, TopicCommand, TopicStore};

impl<T: TopicStore, S: Shelf> Port for Topics<T, S> {
    ghost use Rattle.node.specs.Standing.{broker_of, TopicsStand, Passes, Works, Fails, Refuses};

    ghost broker = { broker_of };

    ghost count = { λ t. length t.held.items };

    ghost sole = { TopicsStand S.disk };

    ghost passes = { Passes S.disk };

    ghost works = { Works S.disk };

    ghost fails = { Fails S.disk };

    ghost refuses = { Refuses S.disk };

    type Answered = Plain<TopicCommand, Answer>;

    type Sent = Plain<u64, Result<Option<Outgoing>, ReadError>>;

    type Had = Plain<Member, bool>;

    type Looked = Plain<u64, ()>;

    type Quiet = Plain<(), bool>;

    type Collected = Plain<(), Option<Reply>>;

    type Left = Plain<(), ()>;

    fn service_url(&self) -> &str {
        self.url.as_str()
    }

    fn topics(&self) -> u64 {
        self.held.len() as u64
    }

    fn has_producer(&self, topic: u64, who: u64, producer_id: u64) -> Plain<Member, bool> {
        let has = self.held[topic as usize]
            .core
            .has_producer(who, producer_id);
        Plain::new(topic, who, &Member::Producer(producer_id), has)
    }

    fn has_consumer(&self, topic: u64, who: u64, consumer_id: u64) -> Plain<Member, bool> {
        let has = self.held[topic as usize]
            .core
            .has_consumer(who, consumer_id);
        Plain::new(topic, who, &Member::Consumer(consumer_id), has)
    }

    fn find(&mut self, name: &TopicName) -> Found {
        self.find_or_make(name)
    }

    #[inline(always)]
    fn command(
        &mut self,
        topic: u64,
        who: u64,
        command: TopicCommand,
    ) -> Plain<TopicCommand, Answer> {
        let asked = Snapshot::of(&command);
        let said = self.held[topic as usize].command(who, command);
        Plain {
            topic,
            who,
            asked,
            said,
        }
    }

    // The topics keep the granters.
    fn take_granter(&mut self) -> Option<Granter> {
        None
    }

    fn grant(
        &mut self,
        topic: u64,
        who: u64,
        consumer_id: u64,
        _granter: &mut Option<Granter>,
        permits: u32,
    ) -> Result<(), TooManyPermits> {
        self.held[topic as usize].grant(who, consumer_id, permits)
    }

    // A topic knows all that was granted.
    fn look(&mut self, topic: u64, who: u64, consumer_id: u64) -> Plain<u64, ()> {
        Plain::new(topic, who, &consumer_id, ())
    }

    fn dispatch(
        &mut self,
        topic: u64,
        who: u64,
        consumer_id: u64,
    ) -> Plain<u64, Result<Option<Outgoing>, ReadError>> {
        let said = self.held[topic as usize].dispatch(&mut self.shelf, who, consumer_id);
        Plain {
            topic,
            who,
            asked: Snapshot::of(&consumer_id),
            said,
        }
    }

    fn is_quiet(&mut self, topic: u64, who: u64) -> Plain<(), bool> {
        let said = self.held[topic as usize].is_quiet(who);
        Plain {
            topic,
            who,
            asked: Snapshot::of(&()),
            said,
        }
    }

    fn next_due(&self, _who: u64, from: u64) -> Option<u64> {
        if from < self.count() {
            Some(from)
        } else {
            None
        }
    }

    fn collect(&mut self, topic: u64, who: u64) -> Plain<(), Option<Reply>> {
        let said = self.held[topic as usize].collect(who);
        Plain {
            topic,
            who,
            asked: Snapshot::of(&()),
            said,
        }
    }

    fn leave(&mut self, topic: u64, who: u64) -> Plain<(), ()> {
        self.held[topic as usize].leave(who);
        Plain::new(topic, who, &(), ())
    }

    ghost use Rattle.std.proofs.Common.{sym};
    ghost use Rattle.node.specs.Passing.{passes_nothing, passes_both, refuses_within, count_is};
    ghost use Rattle.node.specs.Growing.{passes_works, works_both, works_more, fails_within};

    ghost passes_nothing = { passes_nothing S.disk };

    ghost passes_both = { passes_both S.disk };

    ghost passes_sole = { λ old new passes standing. (passes.1 standing).standing };

    ghost passes_works = { passes_works S.disk };

    ghost works_both = { works_both S.disk };

    ghost works_more = { works_more S.disk };

    ghost works_sole = { λ names old new works standing. (works.1 standing).standing };

    ghost works_count = { λ names old new works. works.0 };

    ghost fails_within = { fails_within S.disk };

    ghost refuses_within = { refuses_within S.disk };

    ghost passes_count = { λ old new passes. passes.0 };

    ghost counts_topics = { λ port s. sym (count_is port) };
}
