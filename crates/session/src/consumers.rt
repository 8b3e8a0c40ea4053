ghost use Rattle.std.specs.Prelude.{◌≡◌, ◌<◌, ◌≤◌, [], List, ℕ, Some, true, false, filter, length, nat_lt, position, remove, vec_capacity, Contains, IfOk, IfSome, OnOk, OnErr};
ghost use Rattle.std.specs.List.{position_or_len};
ghost use Rattle.session.specs.declared.entry.Entry.{Entry as TheEntry};
ghost use Rattle.session.specs.Broker.{GrantAt};
ghost use Rattle.session.specs.Consuming.{is_live, with_entry};
ghost use Rattle.session.specs.Noting.{AreNoted};
ghost use Rattle.session.specs.Table.{has_entry, has_id, has_topic, topic_of, AreRising};

use crate::consumer_entry::ConsumerEntry;
use crate::entry::Entry;
use crate::listing::Listed;
use crate::port::Port;
use crate::roll::{Roll, look_each};
use crate::told::hear;
use permits::{Granter, TooManyPermits};
use std::alloc::{AllocError, Global};
use std::marker::Model;

/// The consumers of a session in rising id, and each of their topics once, so that a pump asks no topic twice that has nothing.
#[derive(Drop)]
pub(crate) struct Consumers {
    entries: Vec<ConsumerEntry>,
    topics: Vec<u64>,
    /// Whether one of them may be raised. Else a pump needn't walk through them.
    any_raised: bool,
}

impl Model for Consumers {
    ghost use Rattle.std.specs.Prelude.{List};
    ghost use Rattle.session.specs.declared.entry.Entry.{Entry};
    ghost use Rattle.session.specs.Noting.{AreNoted};
    ghost use Rattle.session.specs.Table.{AreRising};

    ghost Value = { List Entry };

    ghost view = { λ c. c.entries.items };

    ghost invariant = { λ c. AreNoted c.topics.items c.entries.items × AreRising c.entries.items };
}

impl Roll for Consumers {
    ghost entries = { λ consumers. consumers };

    fn len(&self) -> usize {
        self.entries.len()
    }

    fn at(&self, place: usize) -> Entry {
        self.entries[place].entry()
    }

    fn is_raised(&self, place: usize) -> bool {
        self.entries[place].is_raised()
    }

    fn topics(&self) -> &[u64] {
        self.topics.as_slice()
    }
}

impl Consumers {
    pub(crate) fn new(alloc: Global) -> Consumers
        ensures { result ≡ [] }
    {
        Consumers {
            entries: Vec::new(alloc),
            topics: Vec::new(alloc),
            any_raised: false,
        }
    }

    pub(crate) fn as_slice(&self) -> &[ConsumerEntry]
        ensures { result.now ≡ self.now }
    {
        self.entries.as_slice()
    }

    /// The topic of a consumer.
    #[inline(always)]
    pub(crate) fn topic_of(&self, id: u64) -> Option<u64>
        ensures { result ≡ topic_of self.now id }
    {
        let place = place_among(self.entries.as_slice(), id)?;
        Some(self.entries[place].entry().topic)
    }

    /// Puts a consumer of a new id behind those with a smaller id, and gives its place. A refusal changes nothing.
    pub(crate) fn insert(&mut self, id: u64, topic: u64) -> Result<usize, AllocError>
        requires fresh { has_entry self.old id ≡ false }
        ensures ok { OnOk result (self.new ≡ with_entry self.old true id topic) }
        ensures place { IfOk result (λ place. place ≡ position_or_len (λ entry. nat_lt id entry.id) self.old) }
        ensures within { IfOk result (λ place. place < length self.new) }
        ensures err { OnErr result (self.new ≡ self.old) }
    {
        note(&mut self.topics, topic)?;
        let place = place_behind(self.entries.as_slice(), id);
        let entry = ConsumerEntry::new(Entry { id, topic });
        self.entries.insert(place, entry)?;
        Ok(place)
    }

    /// The consumer at a place keeps the granter of its permits.
    pub(crate) fn keep(&mut self, place: usize, granter: Option<Granter>)
        requires { place < length self.old }
        ensures { self.new ≡ self.old }
    {
        let entry = &mut self.entries[place];
        entry.keep(granter);
    }

    /// Drops the consumer at a place.
    pub(crate) fn remove(&mut self, place: usize)
        requires { place < length self.old }
        ensures { self.new ≡ remove self.old place }
    {
        self.entries.remove(place);
    }

    /// Drops the consumers that the session doesn't have any more, and the topics that no consumer has.
    pub(crate) fn forget_dead<P: Port>(&mut self, who: u64, port: &P)
        ensures { P.sole port.now → self.new ≡ filter (is_live (P.broker port.now) who) self.old }
    {
        forget_dead(&mut self.entries, who, port);
        forget_topics(&mut self.topics, self.entries.as_slice());
    }

    /// Grants a consumer so many messages more.
    pub(crate) fn grant<P: Port>(
        &mut self,
        id: u64,
        topic: u64,
        who: u64,
        permits: u32,
        port: &mut P,
    ) -> Result<(), TooManyPermits>
        requires known { topic_of self.old id ≡ Some topic }
        requires there { topic < P.count port.old }
        ensures same { self.new ≡ self.old }
        ensures step { P.sole port.old → GrantAt (P.broker port.old) topic who id permits result (P.broker port.new) }
        ensures passes { P.passes port.old port.new }
    {
        let Some(place) = place_among(self.entries.as_slice(), id) else {
            unreachable!()
        };
        self.any_raised = true;
        let consumer = &mut self.entries[place];
        consumer.grant(who, permits, port)
    }

    /// Has the topics look for the permits that were granted to raised consumers, of which there are none then.
    pub(crate) fn look<P: Port>(&mut self, who: u64, port: &mut P)
        ensures unchanged { self.new ≡ self.old }
        ensures same { P.sole port.old → P.broker port.new ≡ P.broker port.old }
        ensures passes { P.passes port.old port.new }
    {
        if !self.any_raised {
            return;
        }
        look_each(&*self, who, port);
        self.any_raised = false;
        lower_each(&mut self.entries);
    }

    /// Lists them. None is raised any more. A refusal changes nothing.
    pub(crate) fn list(&mut self, alloc: Global) -> Result<Vec<Listed>, AllocError>
        ensures same { self.new ≡ self.old }
        ensures ok { IfOk result (λ listed. listed.items ≡ self.old) }
    {
        let mut listed = Vec::new(alloc);
        listed.reserve(self.entries.len())?;
        self.any_raised = false;
        list_each(&mut self.entries, &mut listed);
        Ok(listed)
    }
}

/// None of these consumers is raised any more.
fn lower_each(consumers: &mut Vec<ConsumerEntry>)
    ensures { consumers.new.items ≡ consumers.old.items }
{
    for place in 0..consumers.len() {
        let consumer = &mut consumers[place];
        consumer.lower();
    }
}

/// Lists these consumers, none of which is raised any more. The list has room for them.
fn list_each(consumers: &mut Vec<ConsumerEntry>, listed: &mut Vec<Listed>)
    requires none { listed.old.items ≡ [] }
    requires room { length consumers.old.items ≤ vec_capacity listed.old }
    ensures same { consumers.new.items ≡ consumers.old.items }
    ensures listed { listed.new.items ≡ consumers.old.items }
{
    for place in 0..consumers.len() {
        let consumer = &mut consumers[place];
        let one = consumer.list();
        listed.push(one).unwrap();
    }
}

/// Notes a topic. A refusal changes nothing.
fn note(topics: &mut Vec<u64>, topic: u64) -> Result<(), AllocError>
    ensures ok { OnOk result (Contains topics.new.items topic) }
    ensures kept { (consumers : List TheEntry) → AreNoted topics.old.items consumers → AreNoted topics.new.items consumers }
{
    if is_noted(topics.as_slice(), topic) {
        return Ok(());
    }
    topics.push(topic)?;
    Ok(())
}

fn is_noted(topics: &[u64], topic: u64) -> bool
    ensures { result ≡ true → Contains topics.now topic }
{
    topics.contains(&topic)
}

/// Drops the topics that no consumer has.
fn forget_topics(topics: &mut Vec<u64>, consumers: &[ConsumerEntry])
    ensures { AreNoted topics.old.items consumers.now → AreNoted topics.new.items consumers.now }
{
    topics.retain(|topic| has_topic(consumers, *topic));
}

/// Whether a topic is one of theirs.
fn has_topic(consumers: &[ConsumerEntry], topic: u64) -> bool
    ensures { result ≡ has_topic consumers.now topic }
{
    consumers
        .iter()
        .any(|consumer| consumer.entry().topic == topic)
}

/// Whether an id is in use.
pub(crate) fn has_consumer(consumers: &[ConsumerEntry], id: u64) -> bool
    ensures { result ≡ has_entry consumers.now id }
{
    consumers.iter().any(|consumer| consumer.entry().id == id)
}

/// Whether the session still has this consumer on its topic.
fn is_live<P: Port>(port: &P, who: u64, entry: Entry) -> bool
    ensures { P.sole port.now → result ≡ is_live (P.broker port.now) who entry }
{
    if entry.topic >= port.topics() {
        return false;
    }
    hear(port.has_consumer(entry.topic, who, entry.id))
}

/// Drops the consumers that the session doesn't have any more.
fn forget_dead<P: Port>(consumers: &mut Vec<ConsumerEntry>, who: u64, port: &P)
    ensures live { P.sole port.now → consumers.new.items ≡ filter (is_live (P.broker port.now) who) consumers.old.items }
    ensures kept { (topics : List ℕ) → AreNoted topics consumers.old.items → AreNoted topics consumers.new.items }
    ensures rising { AreRising consumers.old.items → AreRising consumers.new.items }
{
    consumers.retain(|consumer| is_live(port, who, consumer.entry()));
}

/// How many of the consumers, whose ids rise, have no greater id.
fn place_behind(consumers: &[ConsumerEntry], id: u64) -> usize
    requires { AreRising consumers.now }
    ensures place { result ≡ position_or_len (λ entry. nat_lt id entry.id) consumers.now }
    ensures within { result ≤ length consumers.now }
{
    consumers.partition_point(|consumer| consumer.entry().id <= id)
}

/// Where an id stands, where the ids rise. A client counts its ids, so the place that the id tells is looked at first.
#[tactic(auto, using(crate::proofs::Searched::told))]
#[inline(always)]
fn place_among(consumers: &[ConsumerEntry], id: u64) -> Option<usize>
    requires { AreRising consumers.now }
    ensures place { result ≡ position (has_id id) consumers.now }
    ensures within { IfSome result (λ place. place < length consumers.now) }
{
    if id < consumers.len() as u64 {
        let near = id as usize;
        if consumers[near].entry().id == id {
            return Some(near);
        }
    }
    place_by_halves(consumers, id)
}

/// Where an id stands, where the ids rise, by a search.
fn place_by_halves(consumers: &[ConsumerEntry], id: u64) -> Option<usize>
    requires { AreRising consumers.now }
    ensures place { result ≡ position (has_id id) consumers.now }
    ensures within { IfSome result (λ place. place < length consumers.now) }
{
    let place = consumers.partition_point(|consumer| consumer.entry().id < id);
    if place >= consumers.len() {
        return None;
    }
    if consumers[place].entry().id == id {
        Some(place)
    } else {
        None
    }
}
