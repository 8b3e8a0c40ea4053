// What the bodies of a slot tell.
ghost use Rattle.std.specs.Prelude.{◌≡◌, ◌↔◌, ◌≤◌, ◌^◌, true, IsTrue, IfOk, MatchBool};
ghost use Rattle.disk.specs.declared.file_id.Folder.{Folder};
ghost use Rattle.gated_log.specs.Starts.{untrimmed};
ghost use Rattle.records.specs.Names.{is_subscription_name};
ghost use Rattle.records.specs.Records.{AreFormed, name_of};
ghost use Rattle.records.specs.Floors.{HaveBelow, StartsFrom, StartFrom};
ghost use Rattle.cursor_store.specs.Items.{IsItem, MayBegin, told_after, told_of, untold};
ghost use Rattle.cursor_store.specs.ItemSpelled.{IsNamed};

use crate::Item;
use gated_log::{Start, UNTRIMMED};
use records::{KeptSubscriptions, Record};
use std::alloc::{AllocError, Global};

// How many segments a chain has at most.
pub(crate) const MOST_SEGMENTS: u64 = 1 << 62;

/// What the bodies of a slot tell: where the topic's ledger begins, and its subscriptions.
#[derive(Drop)]
pub struct Told {
    pub(crate) start: Start,
    pub(crate) kept: KeptSubscriptions,
}

// Whether each subscription has acknowledged all positions below this one.
fn have_below(kept: &KeptSubscriptions, base: u64) -> bool
    ensures { IsTrue result ↔ HaveBelow base kept.now }
{
    for (_, shared) in kept.iter() {
        if shared.as_cursor().mark_delete() < base {
            return false;
        }
    }
    true
}

// Whether the ledger of this many entries, which begins at `from`, may begin at `start` beside what is kept.
pub(crate) fn may_begin(kept: &KeptSubscriptions, from: Start, start: Start, entries: u64) -> bool
    ensures { IsTrue result ↔ MayBegin entries (told_of from kept.now) start }
{
    if start.base < from.base {
        return false;
    }
    if start.base > entries {
        return false;
    }
    if start.first > MOST_SEGMENTS {
        return false;
    }
    have_below(kept, start.base)
}

// Whether the subscription that a record makes, where it makes one, begins there or later.
fn starts_from(change: &Record, base: u64) -> bool
    ensures { IsTrue result ↔ StartsFrom base change.now }
{
    match change {
        Record::Made { start, .. } => base <= *start,
        Record::Removed { .. } => true,
        Record::Acknowledged { .. } => true,
        Record::AcknowledgedThrough { .. } => true,
        Record::AcknowledgedRange { .. } => true,
    }
}

impl Told {
    // Nothing is told yet.
    pub(crate) fn new(alloc: Global) -> Told
        ensures { result ≡ untold untrimmed }
    {
        Told {
            start: UNTRIMMED,
            kept: KeptSubscriptions::new(alloc),
        }
    }

    // Whether records are of their form there, each at its place, and none makes a subscription that begins before the ledger.
    pub(crate) fn fits(&self, changes: &[Record], entries: u64) -> bool
        ensures { IsTrue result ↔ (AreFormed entries self.now.kept changes.now × StartFrom self.now.start.base changes.now) }
    {
        for change in changes {
            if !starts_from(change, self.start.base) {
                return false;
            }
        }
        self.kept.are_formed(changes, entries)
    }

    // Applies a record with a name, and answers whether it is of its form there.
    fn change(&mut self, change: &Record, entries: u64) -> Result<bool, AllocError>
        requires entries { entries ≤ 2 ^ 62 }
        requires name { is_subscription_name (name_of change.now) ≡ true }
        ensures { IfOk result (λ formed. MatchBool formed (IsItem Folder.One entries self.old (Item.Change change.now) × (self.new ≡ told_after (Item.Change change.now) self.old)) (¬ IsItem Folder.One entries self.old (Item.Change change.now))) }
    {
        if !starts_from(change, self.start.base) {
            return Ok(false);
        }
        if !self.kept.admits(change, entries) {
            return Ok(false);
        }
        self.kept.apply(change)?;
        Ok(true)
    }

    // Applies an item with a name, and answers whether it is of its form there.
    pub(crate) fn apply(&mut self, item: &Item, entries: u64) -> Result<bool, AllocError>
        requires entries { entries ≤ 2 ^ 62 }
        requires name { IsNamed item.now }
        ensures { IfOk result (λ formed. MatchBool formed (IsItem Folder.One entries self.old item.now × (self.new ≡ told_after item.now self.old)) (¬ IsItem Folder.One entries self.old item.now)) }
    {
        match item {
            Item::Change(change) => self.change(change, entries),
            Item::Trim(start) => {
                if !may_begin(&self.kept, self.start, *start, entries) {
                    return Ok(false);
                }
                self.start = *start;
                Ok(true)
            }
        }
    }
}
