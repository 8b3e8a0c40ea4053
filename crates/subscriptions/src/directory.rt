// Where each consumer stands, or its subscription does.
ghost use Rattle.std.specs.Prelude.{◌≡◌, ◌<◌, ℕ, List, cond, nat_eq, [], length, position, Some, None, OnOk, OnErr, IfSome};
ghost use Rattle.std.specs.Option.{option_map};
ghost use Rattle.std.specs.Prelude.{map as each};
ghost use Rattle.holds.specs.Deliveries.{same_key};
ghost use Rattle.holds.specs.declared.consumer.ConsumerKey.{ConsumerKey as Key};
ghost use Rattle.subscriptions.specs.Directory.{ArePlaces, IsRight, place_in, earliest, moved_up, put_in_place};
ghost use Rattle.subscriptions.specs.State.{Subscription as State};
ghost use Rattle.subscriptions.specs.Steps.{is_on};

use holds::ConsumerKey;
use std::alloc::{AllocError, Global};
use std::collections::BTreeMap;
use std::marker::Model;

/// A consumer, and its place.
#[derive(Clone, Copy)]
pub(crate) struct Found {
    pub(crate) key: ConsumerKey,
    pub(crate) place: usize,
}

/// For each attached consumer, by its session and its id there, a place: a topic's directory has that of the consumer's
/// subscription, and a subscription's that of the consumer among the attached ones. The consumer that was remembered last is found
/// without a search, until a place changes.
#[derive(Drop)]
pub(crate) struct Directory {
    places: BTreeMap<(u64, u64), usize>,
    last: Option<Found>,
}

impl Model for Directory {
    ghost use Rattle.std.specs.Prelude.{List, ℕ};
    ghost use Rattle.subscriptions.specs.Directory.{IsRight};

    ghost Value = { List ((ℕ × ℕ) × ℕ) };

    ghost view = { λ p. p.places.entries };

    ghost invariant = { λ p. IsRight p.last p.places.entries };
}

impl Directory {
    pub(crate) fn new(alloc: Global) -> Directory
        ensures { result ≡ [] }
    {
        Directory {
            places: BTreeMap::new(alloc),
            last: None,
        }
    }

    /// The place of the consumer. In a topic's directory it is that of its subscription.
    pub(crate) fn of(&self, key: ConsumerKey) -> Option<usize>
        ensures value { result ≡ place_in self.now key }
        ensures place { (subs : List State) → ArePlaces subs self.now → result ≡ position (is_on key) subs }
        ensures within { (subs : List State) → ArePlaces subs self.now → IfSome result (λ place. place < length subs) }
    {
        if let Some(last) = self.last
            && last.key == key
        {
            return Some(last.place);
        }
        place_of(&self.places, key)
    }

    /// The consumer is looked for without a search from now on, if it has a place, until one changes.
    pub(crate) fn remember(&mut self, key: ConsumerKey)
        ensures { self.new ≡ self.old }
    {
        let Some(place) = self.of(key) else {
            return;
        };
        self.last = Some(Found { key, place });
    }

    /// The consumer stands at this place too; an earlier one of it counts. A refusal changes nothing.
    pub(crate) fn add(&mut self, key: ConsumerKey, place: usize) -> Result<(), AllocError>
        ensures ok { OnOk result ((k : Key) → place_in self.new k ≡ cond (same_key key k) (Some (earliest (place_in self.old key) place)) (place_in self.old k)) }
        ensures err { OnErr result (self.new ≡ self.old) }
    {
        let former = self.of(key);
        let first = earliest(former, place);
        self.last = None;
        self.places.insert((key.session, key.id), first)?;
        Ok(())
    }

    /// The consumer stands here from now on, or nowhere; one that has no place stays without. Takes no memory.
    pub(crate) fn set(&mut self, key: ConsumerKey, place: Option<usize>)
        ensures { (k : Key) → place_in self.new k ≡ cond (same_key key k) (put_in_place place (place_in self.old k)) (place_in self.old k) }
    {
        self.last = None;
        set(&mut self.places, key, place);
    }

    /// The session's consumers stand nowhere.
    pub(crate) fn leave(&mut self, who: u64)
        ensures { (k : Key) → place_in self.new k ≡ cond (nat_eq k.session who) None (place_in self.old k) }
    {
        self.last = None;
        leave(&mut self.places, who);
    }

    /// A place is gone, and what stands behind it moves up. Takes no memory.
    pub(crate) fn move_up(&mut self, gone: usize)
        ensures { (k : Key) → place_in self.new k ≡ option_map (moved_up gone) (place_in self.old k) }
    {
        self.last = None;
        move_up(&mut self.places, gone);
    }
}

fn place_of(places: &BTreeMap<(u64, u64), usize>, key: ConsumerKey) -> Option<usize>
    ensures { result ≡ place_in places.now.entries key }
{
    match places.get(&(key.session, key.id)) {
        Some(place) => Some(*place),
        None => None,
    }
}

// The first of a place and a former one.
fn earliest(former: Option<usize>, place: usize) -> usize
    ensures { result ≡ earliest former place }
{
    match former {
        Some(former) => former.min(place),
        None => place,
    }
}

fn set(places: &mut BTreeMap<(u64, u64), usize>, key: ConsumerKey, place: Option<usize>)
    ensures { (k : Key) → place_in places.new.entries k ≡ cond (same_key key k) (put_in_place place (place_in places.old.entries k)) (place_in places.old.entries k) }
{
    match place {
        Some(place) => overwrite(places, key, place),
        None => {
            let _ = places.remove(&(key.session, key.id));
        }
    }
}

// The consumer has this place, if it has one.
fn overwrite(places: &mut BTreeMap<(u64, u64), usize>, key: ConsumerKey, place: usize)
    ensures { (k : Key) → place_in places.new.entries k ≡ cond (same_key key k) (put_in_place (Some place) (place_in places.old.entries k)) (place_in places.old.entries k) }
{
    if let Some(kept) = places.get_mut(&(key.session, key.id)) {
        *kept = place;
    }
}

fn leave(places: &mut BTreeMap<(u64, u64), usize>, who: u64)
    ensures { (k : Key) → place_in places.new.entries k ≡ cond (nat_eq k.session who) None (place_in places.old.entries k) }
{
    places.retain(|key, _| key.0 != who);
}

fn move_up(places: &mut BTreeMap<(u64, u64), usize>, gone: usize)
    ensures { places.new.entries ≡ each (λ e. (e.0, moved_up gone e.1)) places.old.entries }
{
    places.retain(|_, place| {
        lower(place, gone);
        true
    });
}

// What stands behind the place that is gone stands one place before.
fn lower(place: &mut usize, gone: usize)
    ensures { place.new ≡ moved_up gone place.old }
{
    if *place > gone {
        *place -= 1;
    }
}
