// A message for a consumer: its entry is read under the lock of the topic's stores alone, and given under the topic's.
ghost use Rattle.std.specs.Prelude.{◌≡◌, ◌≢◌, ◌<◌, ◌≤◌, ℕ, false, None, Ok, IfSome, IfErr, IsErr, IsErrOf};
ghost use Rattle.disk.specs.Disk.{Same, Leaves, Kept, Failed};
ghost use Rattle.gated_log.specs.declared.read_error.ReadError.TheVariants.{Device};
ghost use Rattle.subscriptions.specs.Steps.{IsLearnt, IsLooked};
ghost use Rattle.managed_ledger.specs.Entries.{end_of};
ghost use Rattle.topic_core.specs.State.{Topic, CountsStay, floor};
ghost use Rattle.topic_core.specs.Steps.{key_of, learnt};
ghost use Rattle.topic_core.specs.Dispatch.{IsReadOf, IsRefusedFor};
ghost use Rattle.topic_core.specs.Standing.{GoesOn, Phase, Standing};
ghost use Rattle.session.specs.Broker.{SendsTo};
ghost use Rattle.topic_lock.specs.declared.counted.reading.Next.TheVariants.{Unread};
ghost use Rattle.topic_core.specs.Activity.{with_message};
ghost use Rattle.topic_lock.specs.Activity.{gives, is_message};
ghost use Rattle.topic_lock.specs.Hearing.{IfHeard, NextStep, own_read, next_of};

use crate::counted::{CountedTopic, Heard, Sent};
use crate::stores::CountedStores;
use crate::tally::Tallies;
use disk::Shelf;
use std::snapshot::Snapshot;
use topic_core::{AtHand, ReadAt, ReadError, TopicStore};

/// What a topic has for a consumer that asks for a message.
pub enum Next {
    /// A message, or that there is none.
    Heard(Heard<u64, Sent>),
    /// A message whose entry stands at this position and has to be read first.
    Unread(u64),
}

/// What a read of a topic's stores at a position gave, and their topic's number. They alone make one.
#[derive(Drop)]
pub struct StoresRead {
    topic: u64,
    read: ReadAt,
}

impl<T: TopicStore, S: Shelf + Drop, K: Tallies> CountedStores<T, S, K> {
    /// Reads the entry of a position, which is there where it is committed and no trim may take it, with one read of the device.
    pub fn read_at(&mut self, position: u64) -> StoresRead
        ensures about { (result.topic ≡ (T.view self.old.stores).topic) × (result.read.position ≡ position) }
        ensures read { (phase : Phase) (core : Topic) → Standing T.stands phase core (T.view self.old.stores) (S.disk self.old.shelf) → floor core ≤ position → position < core.committed → IsReadOf core.ledger result.read }
        ensures stores { self.new.stores ≡ self.old.stores }
        ensures cause { (T.view self.old.stores).failed ≡ false → IsErrOf result.read.entry Device → Failed (S.disk self.old.shelf) (S.disk self.new.shelf) }
        ensures seen { (S.disk self.old.shelf).honest → Same (S.disk self.old.shelf).seen (S.disk self.new.shelf).seen }
        ensures any_moment { (S.disk self.old.shelf).honest → Leaves (S.disk self.old.shelf).may_leave (S.disk self.old.shelf) (S.disk self.new.shelf) }
        ensures kept { Kept (S.disk self.old.shelf) (S.disk self.new.shelf) }
    {
        let CountedStores { stores, shelf, .. } = self;
        let topic = u64::from(stores.topic());
        let read = ReadAt::read(stores, shelf, position);
        StoresRead { topic, read }
    }
}

impl<K: Tallies> CountedTopic<K> {
    /// A message for a consumer, which holds it from then on, where its entry stands in memory or is the one that was read of this
    /// topic's stores. A refusal changes nothing but what is known of the consumer's permits.
    pub fn next(&mut self, who: u64, consumer_id: u64, read: Option<StoresRead>) -> Next
        ensures about { IfHeard result (λ heard. (heard.topic ≡ self.old.number) × (heard.who ≡ who) × (heard.asked.value ≡ consumer_id)) }
        ensures step { end_of self.old.core.ledger ≡ self.old.core.committed → IfSome (own_read self.old.number read) (IsReadOf self.old.core.ledger) →
            (t : Topic) × IsLearnt (learnt self.old.core who consumer_id) t × NextStep t who consumer_id result self.new.core }
        ensures message { IfHeard result (λ heard. SendsTo consumer_id heard.said) }
        ensures looked { IfHeard result (λ heard. heard.said ≡ Ok None → self.old.core.failed ≡ false → IsLooked ⊥ (learnt self.old.core who consumer_id) self.new.core) }
        ensures unread { (position : ℕ) → result ≡ Unread position → IfSome (own_read self.old.number read) (λ at. at.position ≢ position) }
        ensures goes_on { GoesOn self.old.core self.new.core }
        ensures number { self.new.number ≡ self.old.number }
        ensures counts { CountsStay self.old.core self.new.core }
        ensures refused { IfHeard result (λ heard. IsErr heard.said → IsLearnt (learnt self.old.core who consumer_id) self.new.core) }
        ensures works { IfHeard result (λ heard. IsErr heard.said → self.old.core.failed ≡ false) }
        ensures cause { IfHeard result (λ heard. IfErr heard.said (λ e. IsRefusedFor self.new.core (key_of who consumer_id) e (own_read self.old.number read))) }
        ensures activity { self.new.activity ≡ with_message (is_message result) self.old.activity }
    {
        let CountedTopic {
            core,
            number,
            activity,
            ..
        } = self;
        let topic = *number;
        let at_hand = core.dispatch_at_hand(who, consumer_id, own_read(topic, read));
        match sent_of(at_hand) {
            Ok(said) => {
                activity.give(is_message(&said));
                Next::Heard(Heard {
                    topic,
                    who,
                    asked: Snapshot::of(&consumer_id),
                    said,
                })
            }
            Err(position) => Next::Unread(position),
        }
    }
}

/// What was read, where it is of the stores of this topic.
fn own_read(topic: u64, read: Option<StoresRead>) -> Option<ReadAt>
    ensures { result ≡ own_read topic read }
{
    match read {
        Some(StoresRead { topic: of, read }) if of == topic => Some(read),
        _ => None,
    }
}

/// What a topic gives a consumer, or the position that has to be read.
fn sent_of(at_hand: Result<AtHand, ReadError>) -> Result<Sent, u64>
    ensures { result ≡ next_of at_hand }
{
    match at_hand {
        Ok(AtHand::Message(outgoing)) => Ok(Ok(Some(outgoing))),
        Ok(AtHand::Nothing) => Ok(Ok(None)),
        Ok(AtHand::Unread(position)) => Err(position),
        Err(why) => Ok(Err(why)),
    }
}

/// Whether a message is told.
fn is_message(said: &Sent) -> bool
    ensures { result ≡ gives said.now }
{
    matches!(said, Ok(Some(_)))
}
