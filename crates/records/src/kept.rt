// The subscriptions that are kept.
ghost use Rattle.std.specs.Prelude.{◌≡◌, ◌≤◌, ◌^◌, ◌↔◌, true, length, IsTrue, IfOk, OnOk, OnErr, option_copied, map as each};
ghost use Rattle.std.specs.List.{AllByRecursion};
ghost use Rattle.std.specs.Prelude.{String as Text};
ghost use Rattle.std.specs.declared.alloc.Global.{Global as Heap};
ghost use Rattle.std.specs.Map.Iter.{ShowsInOrder, deref_pair};
ghost use Rattle.std.specs.FinMap as map;
ghost use Rattle.cursor.specs.Positions.{Positions, below};
ghost use Rattle.records.specs.declared.kept_cursor.KeptCursor.{KeptCursor as Copied};
ghost use Rattle.records.specs.Names.{is_subscription_name};
ghost use Rattle.records.specs.Maps.{by_bytes, map_of, IsSound};
ghost use Rattle.records.specs.Present.{AreNamesOf, texts};
ghost use Rattle.records.specs.Records.{IsFormed, AreFormed, HasPositions, after, after_all, acknowledged, changed, name_of};

use crate::kept_cursor::KeptCursor;
use crate::name::{Name, is_subscription_name};
use crate::name_set::{MOST_SUBSCRIPTIONS, Names, name_of};
use crate::record::Record;
use crate::shared_cursor::SharedCursor;
use cursor::Cursor;
use std::alloc::{AllocError, Global};
use std::collections::BTreeMap;
use std::collections::btree_map::Iter;
use std::marker::Model;

/// The acknowledged positions of each durable subscription of a topic, by its name. A clone shares its cursors: what is then
/// applied to one of the two copies those alone that its records name, each once.
#[derive(Drop)]
pub struct KeptSubscriptions {
    alloc: Global,
    cursors: BTreeMap<String, SharedCursor>,
}

impl Model for KeptSubscriptions {
    ghost use Rattle.records.specs.Maps.{Kept, kept_code, map_of, IsSound};

    ghost Value = { Kept };

    ghost coded = { kept_code };

    ghost view = { λ s. map_of s.cursors.entries };

    ghost invariant = { λ s. IsSound (map_of s.cursors.entries) };
}

impl Clone for KeptSubscriptions {
    ghost is_clone = { λ old new. new ≡ old };

    fn clone(&self) -> Result<Self, AllocError> {
        Ok(Self {
            alloc: self.alloc,
            cursors: self.cursors.clone()?,
        })
    }
}

impl KeptSubscriptions {
    /// No subscription.
    pub fn new(alloc: Global) -> Self
        ensures { result ≡ map.empty }
    {
        Self {
            alloc,
            cursors: BTreeMap::new(alloc),
        }
    }

    /// How many subscriptions there are.
    pub fn len(&self) -> usize
        ensures { result ≡ map.len self.now }
    {
        self.cursors.len()
    }

    /// The acknowledged positions of a subscription.
    pub fn get(&self, name: &str) -> Option<&Cursor>
        ensures { option_copied result ≡ map.get self.now name.now }
    {
        match self.cursors.get(name) {
            Some(shared) => Some(shared.as_cursor()),
            None => None,
        }
    }

    /// The names and their acknowledged positions, in the order of the names' bytes.
    pub fn iter(&self) -> Iter<'_, String, SharedCursor>
        ensures rest { by_bytes result ≡ map.entries self.now }
        ensures sound { IsSound self.now }
        ensures runs { ShowsInOrder (deref_pair {K = Text Heap} {X = Positions}) }
    {
        self.cursors.iter()
    }

    /// The names and acknowledged positions, as values of their own, in the order of the names' bytes.
    pub fn copies(&self) -> Result<Vec<KeptCursor>, AllocError>
        ensures kept { IfOk result (λ copies. each (λ (c : Copied). (c.name, c.acked)) copies.items ≡ map.entries self.now) }
        ensures few { IfOk result (λ copies. length copies.items ≤ 64) }
        ensures named { IfOk result (λ copies. AllByRecursion (λ c. is_subscription_name c.name ≡ true) copies.items) }
    {
        let mut copies = Vec::new(self.alloc);
        for (name, shared) in &self.cursors {
            copies.push(KeptCursor {
                name: Name::new(self.alloc, name.as_str())?,
                acked: shared.as_cursor().clone()?,
            })?;
        }
        Ok(copies)
    }

    /// Whether a record is of its form there, beside a ledger of so many entries.
    pub fn is_formed(&self, change: &Record, entries: u64) -> bool
        ensures { IsTrue result ↔ IsFormed entries self.now change.now }
    {
        is_subscription_name(name_of(change).as_str().as_bytes()) && self.admits(change, entries)
    }

    /// Whether a record with a name is at its place, beside a ledger of so many entries.
    pub fn admits(&self, change: &Record, entries: u64) -> bool
        requires { is_subscription_name (name_of change.now) ≡ true }
        ensures { IsTrue result ↔ IsFormed entries self.now change.now }
    {
        match change {
            Record::Made { name, start } => {
                self.get(name.as_str()).is_none()
                    && self.len() < MOST_SUBSCRIPTIONS
                    && *start <= entries
            }
            Record::Removed { name } => self.get(name.as_str()).is_some(),
            Record::Acknowledged { name, position } => {
                self.get(name.as_str()).is_some() && *position < entries
            }
            Record::AcknowledgedThrough { name, position } => {
                self.get(name.as_str()).is_some() && *position < entries
            }
            Record::AcknowledgedRange { name, first, last } => {
                self.get(name.as_str()).is_some() && *first <= *last && *last < entries
            }
        }
    }

    /// Whether records are of their form there, each at its place behind the ones before it, beside a ledger of so many
    /// entries. Takes no memory.
    pub fn are_formed(&self, changes: &[Record], entries: u64) -> bool
        ensures { IsTrue result ↔ AreFormed entries self.now changes.now }
    {
        let mut names = self.names();
        for change in changes {
            if !names.pass(change, entries) {
                return false;
            }
        }
        true
    }

    // The names that are there.
    fn names(&self) -> Names<'_>
        ensures { AreNamesOf self.now (texts result) }
    {
        let mut names = Names::new();
        for (name, _) in &self.cursors {
            names.push(name.as_str());
        }
        names
    }

    /// Makes what a record says of them. A refusal changes nothing.
    pub fn apply(&mut self, change: &Record) -> Result<(), AllocError>
        requires { IsFormed (2 ^ 62) self.old change.now }
        ensures ok { OnOk result (self.new ≡ after change.now self.old) }
        ensures err { OnErr result (self.new ≡ self.old) }
    {
        match change {
            Record::Made { name, start } => {
                make(self.alloc, &mut self.cursors, name.as_str(), *start)
            }
            Record::Removed { name } => {
                remove(&mut self.cursors, name.as_str());
                Ok(())
            }
            Record::Acknowledged { name, .. } => {
                acknowledge_at(&mut self.cursors, name.as_str(), change)
            }
            Record::AcknowledgedThrough { name, .. } => {
                acknowledge_at(&mut self.cursors, name.as_str(), change)
            }
            Record::AcknowledgedRange { name, .. } => {
                acknowledge_at(&mut self.cursors, name.as_str(), change)
            }
        }
    }

    /// Makes what records say of them, the first one first. After a refusal some may have been applied.
    pub fn apply_all(&mut self, records: &[Record]) -> Result<(), AllocError>
        requires { AreFormed (2 ^ 62) self.old records.now }
        ensures { OnOk result (self.new ≡ after_all records.now self.old) }
    {
        for change in records {
            self.apply(change)?;
        }
        Ok(())
    }
}

// Puts a subscription there, with all positions below `start` acknowledged.
fn make(
    alloc: Global,
    cursors: &mut BTreeMap<String, SharedCursor>,
    name: &str,
    start: u64,
) -> Result<(), AllocError>
    requires { start ≤ 2 ^ 62 }
    ensures ok { OnOk result (map_of cursors.new.entries ≡ map.insert (map_of cursors.old.entries) name.now (below start)) }
    ensures err { OnErr result (cursors.new.entries ≡ cursors.old.entries) }
{
    let name = String::from_str(alloc, name)?;
    cursors.insert(name, SharedCursor::starting_at(alloc, start)?)?;
    Ok(())
}

// Takes a subscription out, where it is there.
fn remove(cursors: &mut BTreeMap<String, SharedCursor>, name: &str)
    ensures { map_of cursors.new.entries ≡ map.remove (map_of cursors.old.entries) name.now }
{
    let _ = cursors.remove(name);
}

// Acknowledges what a record says at its subscription, where that is there.
fn acknowledge_at(
    cursors: &mut BTreeMap<String, SharedCursor>,
    name: &str,
    change: &Record,
) -> Result<(), AllocError>
    requires { HasPositions change.now }
    ensures ok { OnOk result (map_of cursors.new.entries ≡ changed (map_of cursors.old.entries) name.now (acknowledged change.now)) }
    ensures err { OnErr result (map_of cursors.new.entries ≡ map_of cursors.old.entries) }
{
    match cursors.get_mut(name) {
        Some(shared) => shared.acknowledge(change),
        None => Ok(()),
    }
}
