// A topic that is there, as threads share it.
ghost use Rattle.std.specs.Prelude.{◌≡◌, ◌<◌, IfOk, IfSome, length, nat_eq, position};
ghost use Rattle.std.specs.Str.{bytes_eq};

use crate::counted::CountedTopic;
use crate::stores::CountedStores;
use crate::tally::Tallies;
use disk::Shelf;
use names::TopicName;
use std::alloc::{AllocError, Global};
use std::sync::{Mutex, OnceLock, OnceToken};
use topic_core::TopicStore;

/// A topic behind its lock.
pub type LockedTopic<K> = Mutex<CountedTopic<K>>;

/// A topic that is there, by its number and its name for good, and its stores. The lock of the stores is taken before that of the topic, or
/// alone.
#[derive(Drop)]
pub struct SharedTopic<T: TopicStore, S: Shelf + Drop, K: Tallies> {
    pub number: u64,
    pub name: TopicName,
    pub topic: LockedTopic<K>,
    pub stores: Mutex<CountedStores<T, S, K>>,
}

/// The place of a topic's number, which is filled once: when the topic is opened or made.
pub type Place<T, S, K> = OnceLock<SharedTopic<T, S, K>>;

/// How many topics there are at most. Our own rule.
const TOPICS: u8 = 64;

/// The places of all topics, none of which is there yet.
pub fn empty_places<T: TopicStore, S: Shelf + Drop, K: Tallies>(
    alloc: Global,
) -> Result<Vec<Place<T, S, K>>, AllocError>
    ensures { IfOk result (λ places. length places.items ≡ 64) }
{
    let mut places = Vec::new(alloc);
    for _ in 0..TOPICS {
        places.push(OnceLock::new())?;
    }
    Ok(places)
}

/// A place that is known to be filled.
#[derive(Drop)]
pub struct Known<'a, T: TopicStore, S: Shelf + Drop, K: Tallies> {
    place: &'a Place<T, S, K>,
    token: OnceToken<'a, SharedTopic<T, S, K>>,
    ghost same: { token.of ≡ place.now.id },
}

impl<'a, T: TopicStore, S: Shelf + Drop, K: Tallies> Known<'a, T, S, K> {
    /// A place, with what shows that it is filled.
    pub(crate) fn new(
        place: &'a Place<T, S, K>,
        token: OnceToken<'a, SharedTopic<T, S, K>>,
    ) -> Known<'a, T, S, K>
        requires { token.of ≡ place.now.id }
        ensures { result.token.value ≡ token.entry.value }
    {
        Known { place, token }
    }

    /// The topic that is there.
    pub fn get(&self) -> &'a SharedTopic<T, S, K>
        ensures { result.now ≡ self.now.token.value }
    {
        self.place.value(&self.token)
    }

    /// The same once more.
    pub fn again(&self) -> Known<'a, T, S, K>
        ensures { result.token.value ≡ self.now.token.value }
    {
        Known {
            place: self.place,
            token: self.token.again(),
        }
    }

    /// Whether the topic that is there has this number.
    pub(crate) fn is_numbered(&self, number: u64) -> bool
        ensures { result ≡ nat_eq self.now.token.value.number number }
    {
        self.get().number == number
    }

    /// Whether the topic that is there has this name.
    fn is_named(&self, name: &TopicName) -> bool
        ensures { result ≡ bytes_eq self.now.token.value.name name.now }
    {
        self.get().name == *name
    }
}

/// Where the topic of this name stands among those that are known.
pub(crate) fn place_named<'a, T: TopicStore, S: Shelf + Drop, K: Tallies>(
    known: &[Known<'a, T, S, K>],
    name: &TopicName,
) -> Option<usize>
    ensures place { result ≡ position (λ it. bytes_eq it.token.value.name name.now) known.now }
    ensures within { IfSome result (λ place. place < length known.now) }
{
    known.iter().position(|it| it.is_named(name))
}
