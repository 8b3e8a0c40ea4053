// What a connection asks of a topic, and who is woken for it.
ghost use Rattle.std.specs.Prelude.{◌≡◌};
ghost use Rattle.std.specs.Sync.Mutex.{mutex_guard_value};
ghost use Rattle.session.specs.Broker.{SendsTo};

use crate::counted::reading::Next;
use crate::counted::{CountedTopic, Heard, Sent};
use crate::holding::Hold;
use crate::places::SharedTopic;
use crate::tally::Tallies;
use bells::{Bells, Marks};
use disk::Shelf;
use std::sync::{MutexGuard, Wait};
use topic_core::{Send, SentEntry, TopicCommand, TopicStore};

/// So long an entry is at most, in bytes; a topic refuses a longer one whatever room it has. Our own rule.
const LONGEST_ENTRY: usize = 1_048_576;

impl<T: TopicStore, S: Shelf + Drop, K: Tallies> SharedTopic<T, S, K> {
    /// The topic's lock: what is behind it has the topic's number.
    pub(crate) fn lock<'t, R: Wait>(&'t self, rt: &R) -> MutexGuard<'t, CountedTopic<K>>
        ensures { (mutex_guard_value result).number ≡ self.now.number }
    {
        for _ in rt.forever() {
            let topic = self.topic.lock(rt);
            if topic.number() == self.number {
                return topic;
            }
            drop(topic);
        }
        unreachable!()
    }

    /// The lock that is held already, where it is this topic's, or one that is taken.
    fn hold<'t, R: Wait>(&'t self, rt: &R, bells: &Bells, held: Option<Hold<'t, K>>) -> Hold<'t, K>
        ensures { (mutex_guard_value result.topic).number ≡ self.now.number }
    {
        match held {
            Some(hold) if hold.topic.number() == self.number => return hold,
            Some(hold) => hold.release(bells),
            None => {}
        }
        Hold::new(self.lock(rt))
    }

    /// The topic's lock, for the connection at this place, with room for an entry of this length, or where none has to be waited
    /// for: the topic has failed, or the entry is too long for any. One that is held already is kept, but not in a wait. Who had to
    /// wait and is let in calls the next who waits; who isn't let in calls nobody, as it would be called itself.
    pub(crate) fn enter<'t, R: Wait>(
        &'t self,
        rt: &R,
        bells: &Bells,
        place: u8,
        length: Option<usize>,
        held: Option<Hold<'t, K>>,
    ) -> Hold<'t, K>
        ensures { (mutex_guard_value result.topic).number ≡ self.now.number }
    {
        let mut held = held;
        let mut waited = false;
        for _ in rt.forever() {
            let mut hold = self.hold(rt, bells, held.take());
            if hold.topic.lets_in(place, length) {
                hold.calls_reader = waited || hold.calls_reader;
                return hold;
            }
            hold.release(bells);
            bells.wait_reader(rt, place);
            waited = true;
        }
        unreachable!()
    }

    /// A message for a consumer, which holds it from then on. For an entry that isn't at hand the topic's lock is let go, and the lock of
    /// its stores taken: the topic tells the position anew, it is read without the topic's lock, so that a read holds nobody who asks
    /// the topic, and given under it.
    pub(crate) fn dispatch<'t, R: Wait>(
        &'t self,
        rt: &R,
        bells: &Bells,
        held: Hold<'t, K>,
        place: u8,
        who: u64,
        consumer_id: u64,
    ) -> (Hold<'t, K>, Heard<u64, Sent>)
        requires { (mutex_guard_value held.topic).number ≡ self.now.number }
        ensures about { (result.1.topic ≡ self.now.number) × (result.1.who ≡ who) × (result.1.asked.value ≡ consumer_id) }
        ensures message { SendsTo consumer_id result.1.said }
    {
        let mut hold = held;
        match hold.next(place, who, consumer_id, None) {
            Next::Heard(heard) => return (hold, heard),
            Next::Unread(_) => {}
        }
        hold.release(bells);
        let mut stores = self.stores.lock(rt);
        let mut read = None;
        for _ in rt.forever() {
            let mut hold = Hold::new(self.lock(rt));
            let position = match hold.next(place, who, consumer_id, read) {
                Next::Heard(heard) => {
                    drop(stores);
                    return (hold, heard);
                }
                Next::Unread(position) => position,
            };
            hold.release(bells);
            read = Some(stores.read_at(position));
        }
        unreachable!()
    }

    /// The session of the connection at this place leaves. What it sent stays; what its consumers held is given back.
    pub(crate) fn leave<R: Wait>(&self, rt: &R, bells: &Bells, place: u8, who: u64) -> Heard<(), ()>
        ensures { (result.topic ≡ self.now.number) × (result.who ≡ who) }
    {
        let mut topic = self.lock(rt);
        let heard = topic.leave(who);
        let hungry = if topic.waiting.members.has(place) {
            topic.waiting.take_hungry()
        } else {
            Marks::new()
        };
        topic.waiting.members.leave(place);
        drop(topic);
        bells.ring_all(&hungry);
        heard
    }
}

impl<K: Tallies> CountedTopic<K> {
    /// Whether a reader at this place needn't wait with an entry of this length. One that has to is called when there may be room.
    fn lets_in(&mut self, place: u8, length: Option<usize>) -> bool
        ensures { self.new.number ≡ self.old.number }
    {
        let Some(length) = length else {
            return true;
        };
        if length > LONGEST_ENTRY || self.is_failed() || self.has_room(length) {
            self.waiting.crowd.leave(place);
            return true;
        }
        self.waiting.crowd.enter(place);
        false
    }

    /// The next reader that waits for room, where it may find some, or needn't wait.
    pub(crate) fn next_reader(&mut self) -> Option<u8> {
        if !self.is_failed() && !self.has_room(0) {
            return None;
        }
        self.waiting.crowd.call()
    }
}

/// The length of a SEND's entry, in bytes.
pub(crate) fn length_of(command: &TopicCommand) -> Option<usize> {
    match command {
        TopicCommand::Send(
            Send {
                entry: SentEntry::Plain(entry),
                ..
            },
        ) => Some(entry.bytes.len()),
        _ => None,
    }
}
