// What records make of subscriptions, without a store.

use crate::reading::{bytes, yes};
use anyhow::{Error, bail};
use cursor::Cursor;
use records::{KeptSubscriptions, Name, Record, read_body};
use std::alloc::{AllocError, Global};
use std::marker::Send;

/// So many positions are told, from the first one on.
const SHOWN: u64 = 10;

/// So many times a word stands for its record, at most.
const MOST_ALIKE: usize = 1 << 13;

/// Subscriptions, and a clone of them.
#[derive(Drop)]
pub(crate) struct Kept {
    alloc: Global,
    kept: KeptSubscriptions,
    other: KeptSubscriptions,
}

/// They may be handed to another thread, though clones share cursors.
fn is_sent<S: Send>(kept: S) -> S {
    kept
}

/// The record that a word spells: its kind, its name and its positions, with colons between. The name comes last, since what is
/// owned at a `?` is taken apart there.
fn record(alloc: Global, word: &str) -> Result<Record, Error> {
    let parts: Vec<&str> = word.split(':').collect(alloc)?;
    match parts.as_slice() {
        ["made", name, start] => {
            let start = start.parse()?;
            let name = Name::new(alloc, name)?;
            Ok(Record::Made { name, start })
        }
        ["removed", name] => {
            let name = Name::new(alloc, name)?;
            Ok(Record::Removed { name })
        }
        ["one", name, position] => {
            let position = position.parse()?;
            let name = Name::new(alloc, name)?;
            Ok(Record::Acknowledged { name, position })
        }
        ["through", name, position] => {
            let position = position.parse()?;
            let name = Name::new(alloc, name)?;
            Ok(Record::AcknowledgedThrough { name, position })
        }
        ["range", name, first, last] => {
            let (first, last) = (first.parse()?, last.parse()?);
            let name = Name::new(alloc, name)?;
            Ok(Record::AcknowledgedRange { name, first, last })
        }
        _ => bail!("no record is {word}"),
    }
}

/// Adds so many copies of a record.
fn add_copies(one: &Record, count: usize, records: &mut Vec<Record>) -> Result<(), AllocError> {
    for _ in 0..count {
        records.push(one.clone()?)?;
    }
    Ok(())
}

/// Adds the record of a word, or so many of it as stand before a `*`.
fn add_records(alloc: Global, word: &str, records: &mut Vec<Record>) -> Result<(), Error> {
    let (count, word) = word.split_once('*').unwrap_or(("1", word));
    let count: usize = count.parse()?;
    let one = record(alloc, word)?;
    let added = add_copies(&one, count.min(MOST_ALIKE), records);
    drop(one);
    Ok(added?)
}

/// The records that words spell.
pub(crate) fn records(alloc: Global, words: &[&str]) -> Result<Vec<Record>, Error> {
    let mut records = Vec::new(alloc);
    for word in words {
        add_records(alloc, word, &mut records)?;
    }
    Ok(records)
}

/// Puts a blank, the name of a subscription, its mark-delete position, how many ranges stand behind that, and a mark for each of
/// the first positions.
pub(crate) fn tell_cursor(
    alloc: Global,
    name: &str,
    acked: &Cursor,
    said: &mut String,
) -> Result<(), Error> {
    let text = format!(in alloc; " {name} {} {} ", acked.mark_delete(), acked.ranges())?;
    said.push_str(text.as_str())?;
    for position in 0..SHOWN {
        said.push_str(if acked.contains(position) { "a" } else { "." })?;
    }
    Ok(())
}

/// Puts how many subscriptions there are, and each.
fn tell_kept(alloc: Global, kept: &KeptSubscriptions, said: &mut String) -> Result<(), Error> {
    said.push_str(format!(in alloc; "{}", kept.len())?.as_str())?;
    for (name, shared) in kept.iter() {
        tell_cursor(alloc, name.as_str(), shared.as_cursor(), said)?;
    }
    Ok(())
}

/// Makes what a record says, where it is of its form; whether it is.
fn apply(kept: &mut KeptSubscriptions, change: &Record) -> Result<bool, AllocError> {
    if !kept.is_formed(change, 1 << 62) {
        return Ok(false);
    }
    kept.apply(change)?;
    Ok(true)
}

impl Kept {
    pub(crate) fn new(alloc: Global) -> Kept {
        Kept {
            alloc,
            kept: is_sent(KeptSubscriptions::new(alloc)),
            other: KeptSubscriptions::new(alloc),
        }
    }

    /// Makes what a record says, where it is of its form.
    fn apply(&mut self, word: &str, said: &mut String) -> Result<(), Error> {
        let change = record(self.alloc, word)?;
        let applied = apply(&mut self.kept, &change);
        drop(change);
        Ok(said.push_str(yes(applied?))?)
    }

    /// Puts whether a record is of its form.
    fn formed(&self, entries: u64, word: &str, said: &mut String) -> Result<(), Error> {
        let change = record(self.alloc, word)?;
        let is = self.kept.is_formed(&change, entries);
        drop(change);
        Ok(said.push_str(yes(is))?)
    }

    /// Puts whether records are of their form, one behind the other.
    fn fit(&self, entries: u64, words: &[&str], said: &mut String) -> Result<(), Error> {
        let changes = records(self.alloc, words)?;
        let are = self.kept.are_formed(&changes, entries);
        drop(changes);
        Ok(said.push_str(yes(are))?)
    }

    /// Keeps a clone of what there is.
    fn copy(&mut self, said: &mut String) -> Result<(), Error> {
        self.other = self.kept.clone()?;
        Ok(said.push_str("ok")?)
    }

    /// Puts whether a body is of its form, and what is kept then.
    fn read(&mut self, entries: u64, word: &str, said: &mut String) -> Result<(), Error> {
        if entries > 1 << 62 {
            bail!("no ledger has so many entries: {entries}");
        }
        let body = bytes(self.alloc, word)?;
        if !read_body(self.alloc, &body, entries, &mut self.kept)? {
            return Ok(said.push_str("no")?);
        }
        said.push_str("yes ")?;
        tell_kept(self.alloc, &self.kept, said)
    }

    /// Puts what a subscription has, which is looked for by its name.
    fn get(&self, name: &str, said: &mut String) -> Result<(), Error> {
        match self.kept.get(name) {
            Some(acked) => tell_cursor(self.alloc, name, acked, said),
            None => Ok(said.push_str("none")?),
        }
    }

    /// Puts how many copies there are, and each.
    fn copies(&self, said: &mut String) -> Result<(), Error> {
        let copies = self.kept.copies()?;
        said.push_str(format!(in self.alloc; "{}", copies.len())?.as_str())?;
        for copy in &copies {
            tell_cursor(self.alloc, copy.name.as_str(), &copy.acked, said)?;
        }
        Ok(())
    }

    pub(crate) fn step(&mut self, words: &[&str], said: &mut String) -> Result<(), Error> {
        match words {
            ["apply", word] => self.apply(word, said),
            ["formed", entries, word] => self.formed(entries.parse()?, word, said),
            ["fit", entries, words @ ..] => self.fit(entries.parse()?, words, said),
            ["body", entries, word] => self.read(entries.parse()?, word, said),
            ["get", name] => self.get(name, said),
            ["copies"] => self.copies(said),
            ["all"] => tell_kept(self.alloc, &self.kept, said),
            ["clone"] => self.copy(said),
            ["other"] => tell_kept(self.alloc, &self.other, said),
            _ => bail!("no step of what is kept begins with these words"),
        }
    }
}
