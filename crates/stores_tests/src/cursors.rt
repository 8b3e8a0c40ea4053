// A cursor store.

use crate::device::Device;
use crate::kept::{records, tell_cursor};
use crate::reading::{TOPIC, standing, tell_start, yes};
use anyhow::{Error, bail};
use cursor_store::{CursorStore, StoreHeads, SubStore};
use disk_mem::MemShelf;
use gated_log::{Refusal, Start};
use records::Record;
use std::alloc::Global;

/// The cursor store of the topic, and heads of its slots that were read.
#[derive(Drop)]
pub(crate) struct Cursors {
    alloc: Global,
    heads: Option<StoreHeads>,
    store: Option<CursorStore>,
}

/// Whether the records were of their form, so that they were appended.
fn append(
    store: &mut CursorStore,
    shelf: &mut MemShelf,
    changes: &[Record],
) -> Result<bool, Refusal> {
    if changes.is_empty() {
        return Ok(false);
    }
    if !store.fits(changes, 1 << 62) {
        return Ok(false);
    }
    let prepared = store.prepare(changes)?;
    store.append_prepared(shelf, prepared)?;
    Ok(true)
}

/// Whether the ledger may begin there, so that this was appended.
fn trim(store: &mut CursorStore, shelf: &mut MemShelf, start: Start) -> Result<bool, Refusal> {
    let Some(trim) = store.prepare_trim(None, start)? else {
        return Ok(false);
    };
    store.trim(shelf, trim)?;
    Ok(true)
}

/// The same behind records; without the trim these aren't appended either.
fn trim_behind(
    store: &mut CursorStore,
    shelf: &mut MemShelf,
    start: Start,
    changes: &[Record],
) -> Result<bool, Refusal> {
    if changes.is_empty() {
        return trim(store, shelf, start);
    }
    if !store.fits(changes, 1 << 62) {
        return Ok(false);
    }
    let prepared = store.prepare(changes)?;
    let Some(trim) = store.prepare_trim(Some(&prepared), start)? else {
        return Ok(false);
    };
    store.append_prepared(shelf, prepared)?;
    store.trim(shelf, trim)?;
    Ok(true)
}

/// Puts whether something was appended, or why not.
fn tell_appended(
    device: &Device,
    appended: Result<bool, Refusal>,
    said: &mut String,
) -> Result<(), Error> {
    match appended {
        Ok(true) => Ok(said.push_str("ok")?),
        Ok(false) => Ok(said.push_str("no")?),
        Err(refusal) => device.refuse(said, refusal),
    }
}

/// Whether each record is of its form behind what is kept.
fn are_formed(store: &CursorStore, changes: &[Record], entries: u64) -> bool {
    for change in changes {
        if !store.is_formed(change, entries) {
            return false;
        }
    }
    true
}

impl Cursors {
    pub(crate) fn new(alloc: Global) -> Cursors {
        Cursors {
            alloc,
            heads: None,
            store: None,
        }
    }

    fn create(&mut self, device: &mut Device) -> Result<(), Refusal> {
        let store: CursorStore = SubStore::create(self.alloc, &mut device.shelf, TOPIC)?;
        self.store = Some(store);
        Ok(())
    }

    /// Puts what is kept.
    fn tell_kept(&self, said: &mut String) -> Result<(), Error> {
        let Some(store) = &self.store else {
            return Ok(said.push_str("none")?);
        };
        let kept = store.kept()?;
        said.push_str(format!(in self.alloc; "{}", kept.len())?.as_str())?;
        for one in &kept {
            tell_cursor(self.alloc, one.name.as_str(), &one.acked, said)?;
        }
        Ok(())
    }

    /// Opens the store beside a ledger of so many entries, and puts what is kept.
    fn open(&mut self, device: &mut Device, entries: u64, said: &mut String) -> Result<(), Error> {
        if entries > 1 << 62 {
            bail!("no ledger has so many entries: {entries}");
        }
        let opened = CursorStore::open(self.alloc, &mut device.shelf, TOPIC, entries);
        self.tell_opened(device, opened, said)
    }

    /// Puts what is kept, or why an opening is refused.
    fn tell_opened(
        &mut self,
        device: &Device,
        opened: Result<CursorStore, Refusal>,
        said: &mut String,
    ) -> Result<(), Error> {
        match opened {
            Ok(store) => {
                self.store = Some(store);
                said.push_str("ok ")?;
                self.tell_kept(said)
            }
            Err(refusal) => device.refuse(said, refusal),
        }
    }

    /// Begins to open the store, and puts where the ledger begins.
    fn begin(&mut self, device: &mut Device, said: &mut String) -> Result<(), Error> {
        match CursorStore::begin(self.alloc, &mut device.shelf, TOPIC) {
            Ok(heads) => {
                let start = CursorStore::begins_at(&heads);
                self.heads = Some(heads);
                tell_start(self.alloc, Some(start), said)
            }
            Err(refusal) => device.refuse(said, refusal),
        }
    }

    /// Goes on with an opening that has begun, beside a ledger of so many entries.
    fn open_from(
        &mut self,
        device: &mut Device,
        entries: u64,
        said: &mut String,
    ) -> Result<(), Error> {
        if entries > 1 << 62 {
            bail!("no ledger has so many entries: {entries}");
        }
        let Some(heads) = &self.heads else {
            return Ok(said.push_str("none")?);
        };
        let opened = CursorStore::open_from(self.alloc, &mut device.shelf, heads, entries);
        self.tell_opened(device, opened, said)
    }

    fn append(
        &mut self,
        device: &mut Device,
        words: &[&str],
        said: &mut String,
    ) -> Result<(), Error> {
        let Some(store) = &mut self.store else {
            return Ok(said.push_str("none")?);
        };
        let changes = records(self.alloc, words)?;
        let appended = append(store, &mut device.shelf, &changes);
        drop(changes);
        tell_appended(device, appended, said)
    }

    /// Appends these records, if any, and a trim.
    fn trim(
        &mut self,
        device: &mut Device,
        start: Start,
        words: &[&str],
        said: &mut String,
    ) -> Result<(), Error> {
        let Some(store) = &mut self.store else {
            return Ok(said.push_str("none")?);
        };
        let changes = records(self.alloc, words)?;
        let trimmed = trim_behind(store, &mut device.shelf, start, &changes);
        drop(changes);
        tell_appended(device, trimmed, said)
    }

    /// Puts where the ledger begins.
    fn begins(&self, said: &mut String) -> Result<(), Error> {
        let Some(store) = &self.store else {
            return Ok(said.push_str("none")?);
        };
        tell_start(self.alloc, Some(store.start()), said)
    }

    /// Puts whether a record is of its form.
    fn formed(&self, entries: u64, word: &str, said: &mut String) -> Result<(), Error> {
        let Some(store) = &self.store else {
            return Ok(said.push_str("none")?);
        };
        let changes = records(self.alloc, &[word])?;
        let are = are_formed(store, &changes, entries);
        drop(changes);
        Ok(said.push_str(yes(are))?)
    }

    /// Its topic, how many subscriptions are kept, and whether it works.
    fn state(&self, said: &mut String) -> Result<(), Error> {
        let Some(store) = &self.store else {
            return Ok(said.push_str("none")?);
        };
        let text = format!(in self.alloc;
            "topic {}, {}, {}",
            store.topic(),
            store.kept()?.len(),
            standing(store.is_failed())
        )?;
        Ok(said.push_str(text.as_str())?)
    }

    pub(crate) fn step(
        &mut self,
        device: &mut Device,
        words: &[&str],
        said: &mut String,
    ) -> Result<(), Error> {
        match words {
            ["create"] => {
                let made = self.create(device);
                device.tell(said, made)
            }
            ["open", entries] => self.open(device, entries.parse()?, said),
            ["begin"] => self.begin(device, said),
            ["from", entries] => self.open_from(device, entries.parse()?, said),
            ["append", changes @ ..] => self.append(device, changes, said),
            ["trim", base, first, changes @ ..] => {
                let (base, first) = (base.parse()?, first.parse()?);
                self.trim(device, Start { base, first }, changes, said)
            }
            ["start"] => self.begins(said),
            ["formed", entries, word] => self.formed(entries.parse()?, word, said),
            ["kept"] => self.tell_kept(said),
            ["state"] => self.state(said),
            _ => bail!("no step of a cursor store begins with these words"),
        }
    }
}
