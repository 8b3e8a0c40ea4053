// The names of subscriptions that are there, as records are gone over.
ghost use Rattle.std.specs.Prelude.{◌≡◌, ◌<◌, ◌++◌, ◌∷◌, [], true, false, length, slice_get, IsTrue, MatchBool, MatchOption};
ghost use Rattle.std.specs.FinMap as map;
ghost use Rattle.cursor.specs.Positions.{Positions};
ghost use Rattle.records.specs.Maps.{Kept};
ghost use Rattle.records.specs.Records.{IsFormed, IsNew, IsThere, after, name_of};
ghost use Rattle.records.specs.Names.{is_subscription_name};
ghost use Rattle.records.specs.Present.{AreNamesOf, is_among, texts};

use crate::name::{Name, is_subscription_name};
use crate::record::Record;
use arrayvec::ArrayVec;

// Our own rule: the most subscriptions of a topic.
pub(crate) const MOST_SUBSCRIPTIONS: usize = 64;

// The names of the subscriptions that are there, each once. Takes no memory.
#[derive(Drop)]
pub(crate) struct Names<'a> {
    names: ArrayVec<&'a str, 64>,
}

impl<'a> Names<'a> {
    // No name.
    pub(crate) fn new() -> Names<'a>
        ensures { texts result ≡ [] }
    {
        Names {
            names: ArrayVec::new(),
        }
    }

    // Adds a name, for which there is room.
    pub(crate) fn push(&mut self, name: &'a str)
        requires { length (texts self.old) < 64 }
        ensures { texts self.new ≡ texts self.old ++ name.now ∷ [] }
    {
        self.names.push(name);
    }

    // The place of a name; none where it isn't there.
    fn place_of(&self, name: &str) -> Option<usize>
        ensures { MatchOption result (is_among name.now (texts self.now) ≡ false) (λ place. slice_get (texts self.now) place ≡ Some name.now) }
    {
        for place in 0..self.names.len() {
            if self.names[place] == name {
                return Some(place);
            }
        }
        None
    }

    // Adds a name that is to be new, and answers whether it is and there is room for it.
    fn make(&mut self, name: &'a str) -> bool
        ensures { (kept : Kept) → AreNamesOf kept (texts self.old) →
            MatchBool result (IsNew kept name.now × ((acked : Positions) → AreNamesOf (map.insert kept name.now acked) (texts self.new))) (¬ IsNew kept name.now) }
    {
        if self.place_of(name).is_some() {
            return false;
        }
        if self.names.len() >= MOST_SUBSCRIPTIONS {
            return false;
        }
        self.push(name);
        true
    }

    // Takes a name out, and answers whether it was there.
    fn remove(&mut self, name: &str) -> bool
        ensures { (kept : Kept) → AreNamesOf kept (texts self.old) →
            MatchBool result (IsThere kept name.now × AreNamesOf (map.remove kept name.now) (texts self.new)) (¬ IsThere kept name.now) }
    {
        let Some(place) = self.place_of(name) else {
            return false;
        };
        let _ = self.names.remove(place);
        true
    }

    // Whether a name is there.
    fn has(&self, name: &str) -> bool
        ensures { (kept : Kept) → AreNamesOf kept (texts self.now) → result ≡ map.contains_key kept name.now }
    {
        self.place_of(name).is_some()
    }

    // Whether a record with a name is at its place where these names are there. They are then those that it leaves.
    fn pass_named(&mut self, change: &'a Record, entries: u64) -> bool
        requires { is_subscription_name (name_of change.now) ≡ true }
        ensures { (kept : Kept) → AreNamesOf kept (texts self.old) →
            MatchBool result (IsFormed entries kept change.now × AreNamesOf (after change.now kept) (texts self.new)) (¬ IsFormed entries kept change.now) }
    {
        match change {
            Record::Made { name, start } => *start <= entries && self.make(name.as_str()),
            Record::Removed { name } => self.remove(name.as_str()),
            Record::Acknowledged { name, position } => {
                *position < entries && self.has(name.as_str())
            }
            Record::AcknowledgedThrough { name, position } => {
                *position < entries && self.has(name.as_str())
            }
            Record::AcknowledgedRange { name, first, last } => {
                if *last < *first {
                    return false;
                }
                *last < entries && self.has(name.as_str())
            }
        }
    }

    // Whether a record is of its form where these names are there, beside a ledger of so many entries. They are then those
    // that it leaves.
    pub(crate) fn pass(&mut self, change: &'a Record, entries: u64) -> bool
        ensures { (kept : Kept) → AreNamesOf kept (texts self.old) →
            MatchBool result (IsFormed entries kept change.now × AreNamesOf (after change.now kept) (texts self.new)) (¬ IsFormed entries kept change.now) }
    {
        is_subscription_name(name_of(change).as_str().as_bytes())
            && self.pass_named(change, entries)
    }
}

// The subscription that a record is of.
pub(crate) fn name_of(change: &Record) -> &Name
    ensures { result.now ≡ name_of change.now }
{
    match change {
        Record::Made { name, .. } => name,
        Record::Removed { name } => name,
        Record::Acknowledged { name, .. } => name,
        Record::AcknowledgedThrough { name, .. } => name,
        Record::AcknowledgedRange { name, .. } => name,
    }
}
