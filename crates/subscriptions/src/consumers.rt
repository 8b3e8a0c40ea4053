// The consumers of a subscription.
ghost use Rattle.std.specs.Prelude.{◌≡◌, ◌^◌, ◌<◌, ◌≤◌, ◌++◌, ◌∷◌, [], List, IfSome, OnOk, OnErr, Some, None, true, false, filter, length, nat_eq, nat_lt, not, position};
ghost use Rattle.std.specs.List.{find, list_any};
ghost use Rattle.holds.specs.declared.consumer.ConsumerKey.{ConsumerKey as Key};
ghost use Rattle.subscriptions.specs.State.{Consumer as TheConsumer};
ghost use Rattle.subscriptions.specs.Directory.{place_in, place_before, numbered};
ghost use Rattle.subscriptions.specs.Quiet.{has_permits};
ghost use Rattle.subscriptions.specs.Steps.{is_consumer, first_changed, granted_to, is_past, learnt_to, IsLearnt, IsLooked, HaveLearnt, HaveLooked, has_permit, has_some, sent_more};

use crate::consumer::Consumer;
use crate::directory::Directory;
use holds::ConsumerKey;
use permits::{Gauge, Grant, TooManyPermits};
use std::alloc::{AllocError, Global};
use std::marker::Model;

/// The attached consumers in order of attachment, and a directory that finds one of them however many there are.
#[derive(Drop)]
pub(crate) struct Consumers<G: Gauge> {
    list: Vec<Consumer<G>>,
    places: Directory,
}

impl<G: Gauge> Model for Consumers<G> {
    ghost use Rattle.std.specs.Prelude.{List};
    ghost use Rattle.subscriptions.specs.State.{Consumer};
    ghost use Rattle.subscriptions.specs.Directory.{ArePlacesAmong};

    ghost Value = { List Consumer };

    ghost view = { λ c. c.list.items };

    ghost invariant = { λ c. ArePlacesAmong c.list.items c.places };
}

impl<G: Gauge> Consumers<G> {
    pub(crate) fn new(alloc: Global) -> Consumers<G>
        ensures { result ≡ [] }
    {
        Consumers {
            list: Vec::new(alloc),
            places: Directory::new(alloc),
        }
    }

    pub(crate) fn as_slice(&self) -> &[Consumer<G>]
        ensures { result.now ≡ self.now }
    {
        self.list.as_slice()
    }

    pub(crate) fn len(&self) -> usize
        ensures { result ≡ length self.now }
    {
        self.list.len()
    }

    pub(crate) fn is_empty(&self) -> bool
        ensures { result ≡ not (has_some self.now) }
    {
        self.list.is_empty()
    }

    /// Where the consumer stands first.
    pub(crate) fn place_of(&self, key: ConsumerKey) -> Option<usize>
        ensures place { result ≡ position (is_consumer key) self.now }
        ensures within { IfSome result (λ place. place < length self.now) }
    {
        self.places.of(key)
    }

    pub(crate) fn is_attached(&self, key: ConsumerKey) -> bool
        ensures { result ≡ list_any (is_consumer key) self.now }
    {
        self.places.of(key).is_some()
    }

    /// Looks whether the consumer is there and has a permit left.
    pub(crate) fn look(&mut self, key: ConsumerKey) -> bool
        ensures looked { IsLooked G.exact (λ n. first_changed (is_consumer key) (learnt_to n) self.old) self.new }
        ensures exact { G.exact → self.new ≡ self.old }
        ensures permit { result ≡ has_permit (find (is_consumer key) self.new) }
    {
        self.places.remember(key);
        let Some(place) = self.place_of(key) else {
            return false;
        };
        let consumer = &mut self.list[place];
        consumer.look()
    }

    /// Looks whether a consumer of the session has a permit left, up to the first one that has.
    pub(crate) fn have_permit(&mut self, who: u64) -> bool
        ensures learnt { HaveLearnt who self.old self.new }
        ensures looked { result ≡ false → HaveLooked G.exact who self.old self.new }
        ensures exact { G.exact → self.new ≡ self.old }
        ensures permit { result ≡ has_permits who self.new }
    {
        have_permit(&mut self.list, who)
    }

    /// A consumer that has a permit left takes those of an entry of so many messages.
    pub(crate) fn take(&mut self, key: ConsumerKey, messages: u32)
        requires some { 0 < messages }
        requires few { messages ≤ 1048576 }
        requires permit { has_permit (find (is_consumer key) self.old) ≡ true }
        ensures learnt { IsLearnt (λ n. first_changed (is_consumer key) (learnt_to n) (first_changed (is_consumer key) (sent_more messages) self.old)) self.new }
        ensures exact { G.exact → self.new ≡ first_changed (is_consumer key) (sent_more messages) self.old }
    {
        let Some(place) = self.place_of(key) else {
            unreachable!()
        };
        self.places.remember(key);
        let consumer = &mut self.list[place];
        consumer.take(messages);
    }

    /// Puts a consumer behind the others. A refusal changes nothing.
    pub(crate) fn push(&mut self, consumer: Consumer<G>) -> Result<(), AllocError>
        ensures ok { OnOk result (self.new ≡ self.old ++ consumer ∷ []) }
        ensures err { OnErr result (self.new ≡ self.old) }
    {
        self.list.reserve(1)?;
        self.places.add(consumer.key(), self.list.len())?;
        self.list.push(consumer).unwrap();
        Ok(())
    }

    /// Drops the last consumer. Takes no memory.
    pub(crate) fn pop(&mut self)
        ensures { (kept : List TheConsumer) (last : TheConsumer) → self.old ≡ kept ++ last ∷ [] → self.new ≡ kept }
    {
        let Some(last) = self.list.pop() else {
            return;
        };
        let key = last.key();
        let earlier = place_before(self.list.len(), self.places.of(key));
        self.places.set(key, earlier);
    }

    /// Drops the session's consumers. Takes no memory.
    pub(crate) fn leave(&mut self, who: u64)
        ensures { self.new ≡ filter (λ c. not (nat_eq c.key.session who)) self.old }
    {
        forget_session(&mut self.list, who);
        self.places.leave(who);
        number(&mut self.places, self.list.as_slice());
    }

    /// Drops the consumer. Takes no memory.
    pub(crate) fn remove(&mut self, key: ConsumerKey)
        ensures { self.new ≡ filter (λ c. not (is_consumer key c)) self.old }
    {
        forget_consumer(&mut self.list, key);
        self.places.set(key, None);
        number(&mut self.places, self.list.as_slice());
    }
}

impl<G: Grant> Consumers<G> {
    /// Grants the consumer more permits, unless it would have more than 2^62 in all.
    pub(crate) fn grant(&mut self, key: ConsumerKey, permits: u64) -> Result<(), TooManyPermits>
        ensures ok { OnOk result ((is_past permits (find (is_consumer key) self.old) ≡ false) × (self.new ≡ first_changed (is_consumer key) (granted_to permits) self.old)) }
        ensures err { OnErr result ((is_past permits (find (is_consumer key) self.old) ≡ true) × (self.new ≡ self.old)) }
    {
        let Some(place) = self.place_of(key) else {
            return Ok(());
        };
        let consumer = &mut self.list[place];
        consumer.grant(permits)
    }
}

/// Looks whether a consumer of the session has a permit left, up to the first one that has.
fn have_permit<G: Gauge>(consumers: &mut Vec<Consumer<G>>, who: u64) -> bool
    ensures learnt { HaveLearnt who consumers.old.items consumers.new.items }
    ensures looked { result ≡ false → HaveLooked G.exact who consumers.old.items consumers.new.items }
    ensures exact { G.exact → consumers.new.items ≡ consumers.old.items }
    ensures permit { result ≡ has_permits who consumers.new.items }
{
    for i in 0..consumers.len() {
        let consumer = &mut consumers[i];
        if consumer.serves(who) {
            return true;
        }
    }
    false
}

/// A place, if it is before the end.
fn place_before(end: usize, place: Option<usize>) -> Option<usize>
    ensures { result ≡ place_before end place }
{
    match place {
        Some(place) if place < end => Some(place),
        _ => None,
    }
}

/// Drops the consumers of the session.
fn forget_session<G: Gauge>(consumers: &mut Vec<Consumer<G>>, who: u64)
    ensures { consumers.new.items ≡ filter (λ c. not (nat_eq c.key.session who)) consumers.old.items }
{
    consumers.retain(|c| c.key().session != who);
}

/// Drops the consumer.
fn forget_consumer<G: Gauge>(consumers: &mut Vec<Consumer<G>>, key: ConsumerKey)
    ensures { consumers.new.items ≡ filter (λ c. not (is_consumer key c)) consumers.old.items }
{
    consumers.retain(|c| c.key() != key);
}

/// Each consumer that has a place has the one where it stands first from now on.
fn number<G: Gauge>(places: &mut Directory, consumers: &[Consumer<G>])
    ensures { (k : Key) → place_in places.new k ≡ numbered (position (is_consumer k) consumers.now) (place_in places.old k) }
{
    let mut place = consumers.len();
    while place > 0 {
        place -= 1;
        let consumer = &consumers[place];
        places.set(consumer.key(), Some(place));
    }
}
