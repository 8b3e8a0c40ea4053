// The catalog as threads share it, and the topics that are there by it.
ghost use Rattle.std.specs.Prelude.{◌≡◌, ◌⊎◌, ◌+◌, ◌<◌, ◌≤◌, length, vec_capacity};
ghost use Rattle.catalog.specs.Catalogs.{remembered};
ghost use Rattle.session.specs.declared.port.Found.TheVariants.{NoMemory, Failed};
ghost use Rattle.topic_lock.specs.Opening.{AreNumbered};
ghost use Rattle.topic_lock.specs.Places.{AreNumberedFrom};

use crate::counted::{CountedTopic, TopicShares};
use crate::devices::Devices;
use crate::durable::DurableTally;
use crate::opening::Opened;
use crate::part::OpenPart;
use crate::parts::TopicParts;
use crate::places::{Known, Place, SharedTopic};
use crate::stores::CountedStores;
use crate::tally::Tallies;
use catalog::Catalog;
use disk::Shelf;
use gated_log::Refusal;
use session::Found;
use std::alloc::{AllocError, Global};
use std::sync::{Mutex, Wait};
use std::thread::Parker;
use topic_core::TopicStore;

/// What is kept for a topic that isn't there yet: the device of its number, and shares that count nothing.
#[derive(Drop)]
pub struct Spare<S: Shelf + Drop, K: Tallies> {
    pub shelf: S,
    pub parts: TopicParts<K>,
}

/// The catalog on its device, the topics that are there by their numbers, and what is kept for those that are not.
#[derive(Drop)]
pub struct SharedCatalog<'a, T: TopicStore, S: Shelf + Drop, K: Tallies> {
    pub(crate) alloc: Global,
    pub(crate) catalog: Catalog,
    pub(crate) shelf: S,
    pub(crate) places: &'a [Place<T, S, K>],
    pub(crate) known: Vec<Known<'a, T, S, K>>,
    /// The one of the next number stands last.
    pub(crate) spare: Vec<Spare<S, K>>,
    /// Whether it was told why a search failed, and no topic was made since.
    pub(crate) is_told: bool,
    ghost named: { length (remembered catalog) ≡ length known.items },
    ghost numbered: { AreNumberedFrom (λ it. it.token.value.number) 0 known.items },
    ghost placed: { length known.items + length spare.items ≡ length places.now },
    ghost all: { length places.now ≡ 64 },
}

/// The catalog behind its lock, which is taken before any topic's.
pub type LockedCatalog<'a, T, S, K> = Mutex<SharedCatalog<'a, T, S, K>>;

/// Room for what is known of all topics, and for what is kept for those that aren't there yet.
#[derive(Drop)]
pub(crate) struct Room<'a, T: TopicStore, S: Shelf + Drop, K: Tallies> {
    pub(crate) known: Vec<Known<'a, T, S, K>>,
    pub(crate) spare: Vec<Spare<S, K>>,
    ghost empty: { (length known.items ≡ 0) × (length spare.items ≡ 0) },
    ghost room: { (64 ≤ vec_capacity known) × (64 ≤ vec_capacity spare) },
}

impl<'a, T: TopicStore, S: Shelf + Drop, K: Tallies> Room<'a, T, S, K> {
    /// Takes memory for all topics.
    pub(crate) fn new(alloc: Global) -> Result<Room<'a, T, S, K>, AllocError> {
        let mut known = Vec::new(alloc);
        known.reserve(64)?;
        let mut spare = Vec::new(alloc);
        spare.reserve(64)?;
        Ok(Room { known, spare })
    }
}

impl<'a, T: TopicStore, S: Shelf + Drop, K: Tallies> SharedCatalog<'a, T, S, K> {
    /// A catalog and its topics as they were opened, with their devices and with shares for each topic, as threads share them. Takes
    /// no memory.
    pub(crate) fn share<R: Wait>(
        rt: &R,
        alloc: Global,
        tally: &DurableTally<K>,
        opened: Opened<T>,
        devices: Devices<S>,
        shares: Vec<TopicParts<K>>,
        places: &'a [Place<T, S, K>],
        room: Room<'a, T, S, K>,
    ) -> SharedCatalog<'a, T, S, K>
        requires all { (length places.now ≡ 64) × (length devices.topics.items ≡ 64) × (length shares.items ≡ 64) }
        requires count { length opened.parts.items ≡ length (remembered opened.catalog) }
        requires numbered { AreNumbered (remembered opened.catalog) opened.parts.items }
    {
        let Opened { catalog, parts } = opened;
        let Devices {
            catalog: shelf,
            topics,
        } = devices;
        let Room {
            mut known,
            mut spare,
        } = room;
        keep_all(topics, shares, &mut spare);
        place_all(rt, tally, places, parts, &mut known, &mut spare);
        SharedCatalog {
            alloc,
            catalog,
            shelf,
            places,
            known,
            spare,
            is_told: false,
        }
    }

    /// How many topics are there.
    pub fn topics(&self) -> usize
        ensures { result ≡ length (remembered self.now.catalog) }
    {
        self.known.len()
    }
}

/// What is kept for topics that aren't there yet: each one's device, and shares for it.
fn keep_all<S: Shelf + Drop, K: Tallies>(
    shelves: Vec<S>,
    shares: Vec<TopicParts<K>>,
    spare: &mut Vec<Spare<S, K>>,
)
    requires all { (length shelves.items ≡ 64) × (length shares.items ≡ 64) }
    requires room { (length spare.old.items ≡ 0) × (64 ≤ vec_capacity spare.old) }
    ensures { length spare.new.items ≡ 64 }
{
    let mut shelves = shelves;
    let mut shares = shares;
    while let Some(shelf) = shelves.pop() {
        let Some(parts) = shares.pop() else {
            unreachable!();
        };
        spare.push(Spare { shelf, parts }).unwrap();
    }
}

/// Topics that were opened go to the places of their numbers. There is room for them among those that are known.
fn place_all<'a, T: TopicStore, S: Shelf + Drop, K: Tallies, R: Wait>(
    rt: &R,
    tally: &DurableTally<K>,
    places: &'a [Place<T, S, K>],
    parts: Vec<OpenPart<T>>,
    known: &mut Vec<Known<'a, T, S, K>>,
    spare: &mut Vec<Spare<S, K>>,
)
    requires all { (length places.now ≡ 64) × (length parts.items ≤ 64) }
    requires room { (length known.old.items ≡ 0) × (64 ≤ vec_capacity known.old) }
    requires kept { length spare.old.items ≡ 64 }
    requires numbered { AreNumberedFrom (λ part. part.number) 0 parts.items }
    ensures known { length known.new.items ≡ length parts.items }
    ensures numbered { AreNumberedFrom (λ it. it.token.value.number) 0 known.new.items }
    ensures all { length known.new.items + length spare.new.items ≡ 64 }
{
    for part in parts {
        place_next(rt, tally, places, part, known, spare);
    }
}

/// A topic that was just opened or made goes to the next place, with what is kept for it. There is room for it among those that are
/// known.
pub(crate) fn place_next<'a, T: TopicStore, S: Shelf + Drop, K: Tallies, R: Wait>(
    rt: &R,
    tally: &DurableTally<K>,
    places: &'a [Place<T, S, K>],
    part: OpenPart<T>,
    known: &mut Vec<Known<'a, T, S, K>>,
    spare: &mut Vec<Spare<S, K>>,
)
    requires all { (length places.now ≡ 64) × (length known.old.items + length spare.old.items ≡ 64) }
    requires room { (length known.old.items < 64) × (length known.old.items < vec_capacity known.old) }
    requires next { part.number ≡ length known.old.items }
    ensures more { length known.new.items ≡ length known.old.items + 1 }
    ensures numbered { AreNumberedFrom (λ it. it.token.value.number) 0 known.old.items → AreNumberedFrom (λ it. it.token.value.number) 0 known.new.items }
    ensures all { length known.new.items + length spare.new.items ≡ 64 }
    ensures room { vec_capacity known.old ≤ vec_capacity known.new }
{
    let Some(next) = spare.pop() else {
        unreachable!();
    };
    let place = &places[known.len()];
    let topic = share(rt, tally, part, next);
    known.push(fill(rt, place, topic)).unwrap();
}

/// Fills a place. Behind one that is filled already it sleeps for ever: nobody else fills places.
fn fill<'a, T: TopicStore, S: Shelf + Drop, K: Tallies, R: Wait>(
    rt: &R,
    place: &'a Place<T, S, K>,
    topic: SharedTopic<T, S, K>,
) -> Known<'a, T, S, K>
    ensures { (result.token.value.number ≡ topic.number) × (result.token.value.name ≡ topic.name) }
{
    let refused = match place.set(rt, topic) {
        Ok(token) => return Known::new(place, token),
        Err(refused) => refused,
    };
    drop(refused);
    let never = Parker::new();
    for _ in rt.forever() {
        never.park(rt);
    }
    unreachable!()
}

/// A topic that was just opened or made, with its shares, as threads share it. What it has is counted as durable.
fn share<T: TopicStore, S: Shelf + Drop, K: Tallies, R: Wait>(
    rt: &R,
    tally: &DurableTally<K>,
    part: OpenPart<T>,
    spare: Spare<S, K>,
) -> SharedTopic<T, S, K>
    ensures { (result.name ≡ part.name) × (result.number ≡ part.number) }
{
    let OpenPart {
        number,
        name,
        core,
        stores,
    } = part;
    let Spare { shelf, parts } = spare;
    let TopicParts {
        stores: mut held,
        topic,
    } = parts;
    let TopicShares {
        accepted,
        handed,
        mut committed,
        behind,
    } = topic;
    tally
        .lock(rt)
        .raise(&mut held, &mut committed, core.committed());
    let shares = TopicShares {
        accepted,
        handed,
        committed,
        behind,
    };
    let number = u64::from(number);
    SharedTopic {
        number,
        name,
        topic: Mutex::new(CountedTopic::new(core, number, shares)),
        stores: Mutex::new(CountedStores::new(stores, shelf, held)),
    }
}

// What a refusal makes of a search. Damage that an honest device can't leave is a failure too.
pub(crate) fn outage(why: Refusal) -> Found
    ensures { (result ≡ NoMemory) ⊎ (result ≡ Failed) }
{
    match why {
        Refusal::NoMemory => Found::NoMemory,
        Refusal::Device
        | Refusal::Damaged { .. }
        | Refusal::NotInitialised
        | Refusal::Version
        | Refusal::TooLarge => Found::Failed,
    }
}
