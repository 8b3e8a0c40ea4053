// A managed ledger.
ghost use Rattle.std.specs.Prelude.{◌<◌, ◌≤◌, ◌^◌, IfOk, length};
ghost use Rattle.managed_ledger.specs.Entries.{IsEntry, AreEntries};

use crate::device::Device;
use crate::journals::tell_found;
use crate::reading::{TOPIC, bytes, standing, tell_start};
use crate::taken::Taken;
use anyhow::{Error, bail};
use bytes::Bytes;
use commands::read_entry;
use disk_mem::MemShelf;
use gated_log::{Refusal, Start, UNTRIMMED};
use managed_ledger::{EntryStore, ManagedLedger, has_message_count};
use std::alloc::Global;

/// So many bytes are added to those that a word spells, at most.
const MOST_ADDED: usize = 1 << 21;

/// The last number of a first segment.
const LAST_FIRST: u64 = 1 << 62;

/// The ledger of the topic.
#[derive(Drop)]
pub(crate) struct Ledgers {
    alloc: Global,
    ledger: Option<ManagedLedger>,
}

/// These bytes as an entry.
fn entry_of(alloc: Global, bytes: Bytes) -> Result<Bytes, Error>
    ensures { IfOk result IsEntry }
{
    if bytes.len() > 1_048_576 {
        bail!("an entry isn't so long");
    }
    let metadata = read_entry(alloc, bytes.as_slice())?;
    if !has_message_count(&metadata) {
        bail!("an entry has from 1 to 1,048,576 messages");
    }
    Ok(bytes)
}

/// The entry that a word spells: hex digits, and behind a `+` how many bytes of `78` more.
fn entry(alloc: Global, word: &str) -> Result<Bytes, Error>
    ensures { IfOk result IsEntry }
{
    let (front, count) = word.split_once('+').unwrap_or((word, "0"));
    let count: usize = count.parse()?;
    if count > MOST_ADDED {
        bail!("an entry isn't so long");
    }
    let mut bytes = bytes(alloc, front)?;
    bytes.resize(bytes.len().saturating_add(count), b'x')?;
    entry_of(alloc, Bytes::from_vec(bytes)?)
}

/// So many of one entry.
fn copies(alloc: Global, entry: &Bytes, count: usize) -> Result<Vec<Bytes>, Error>
    requires { IsEntry entry.now }
    ensures { IfOk result (λ copies. AreEntries copies.items) }
{
    let mut copies = Vec::new(alloc);
    'copies: for _ in 0..count {
        copies.push(entry.clone()?)?;
    }
    Ok(copies)
}

fn append(
    ledger: &mut ManagedLedger,
    shelf: &mut MemShelf,
    entries: &[Bytes],
) -> Result<u64, Refusal>
    requires some { 0 < length entries.now }
    requires entries { AreEntries entries.now }
{
    if ledger.len() > 1_000 {
        return Err(Refusal::TooLarge);
    }
    if entries.len() > 1_000 {
        return Err(Refusal::TooLarge);
    }
    let prepared = ledger.prepare(entries)?;
    Ok(ledger.append_prepared(shelf, prepared)?)
}

/// Gives the segments below a limit back; false where none is.
fn trim(ledger: &mut ManagedLedger, shelf: &mut MemShelf, limit: u64) -> Result<bool, Refusal> {
    let Some(start) = ledger.trim_point(0, limit) else {
        return Ok(false);
    };
    if start.first > LAST_FIRST {
        return Err(Refusal::TooLarge);
    }
    ledger.trim(shelf, start)?;
    Ok(true)
}

impl Ledgers {
    pub(crate) fn new(alloc: Global) -> Ledgers {
        Ledgers {
            alloc,
            ledger: None,
        }
    }

    fn create(&mut self, device: &mut Device, entries_per_ledger: u32) -> Result<(), Refusal> {
        let ledger = ManagedLedger::create(
            self.alloc,
            &mut device.shelf,
            TOPIC,
            entries_per_ledger,
        )?;
        self.ledger = Some(ledger);
        Ok(())
    }

    /// Puts what an opening of a ledger that begins there hands over, or why it is refused.
    fn open(
        &mut self,
        device: &mut Device,
        entries_per_ledger: u32,
        start: Start,
        said: &mut String,
    ) -> Result<(), Error>
        requires in_range { (start.base ≤ 2 ^ 62) × (start.first ≤ 2 ^ 62) }
    {
        let taken = Taken::new(self.alloc);
        let opened: Result<(ManagedLedger, Taken), Refusal> = EntryStore::open(
            self.alloc,
            &mut device.shelf,
            TOPIC,
            entries_per_ledger,
            start,
            taken,
        );
        match opened {
            Ok((ledger, taken)) => {
                self.ledger = Some(ledger);
                said.push_str("ok")?;
                Ok(said.push_str(taken.text.as_str())?)
            }
            Err(refusal) => device.refuse(said, refusal),
        }
    }

    /// Puts what an opening answers that hands so many entries over at most. Its want of memory is an answer.
    fn open_some(
        &mut self,
        device: &mut Device,
        most: u64,
        said: &mut String,
    ) -> Result<(), Error> {
        let taken = Taken::with_room(self.alloc, most);
        match ManagedLedger::open_with(self.alloc, &mut device.shelf, TOPIC, 2, UNTRIMMED, taken) {
            Ok(_) => Ok(said.push_str("ok")?),
            Err(Refusal::NoMemory) => Ok(said.push_str("no memory")?),
            Err(refusal) => device.refuse(said, refusal),
        }
    }

    /// Puts how many entries and segments an opening finds that hands nothing over.
    fn count(&self, device: &mut Device, said: &mut String) -> Result<(), Error> {
        match ManagedLedger::open_with(self.alloc, &mut device.shelf, TOPIC, 2, UNTRIMMED, ()) {
            Ok((ledger, ())) => {
                let text = format!(in self.alloc; "{} in {}", ledger.len(), ledger.segments())?;
                Ok(said.push_str(text.as_str())?)
            }
            Err(refusal) => device.refuse(said, refusal),
        }
    }

    /// Its topic, its entries and its segments, and whether it works.
    fn state(&self, said: &mut String) -> Result<(), Error> {
        let Some(ledger) = &self.ledger else {
            return Ok(said.push_str("none")?);
        };
        let text = format!(in self.alloc;
            "topic {}, {} in {}, {}",
            ledger.topic(),
            ledger.len(),
            ledger.segments(),
            standing(ledger.is_failed())
        )?;
        Ok(said.push_str(text.as_str())?)
    }

    /// Puts the position of the first entry that is appended, or why none is.
    fn append(
        &mut self,
        device: &mut Device,
        entries: &[Bytes],
        said: &mut String,
    ) -> Result<(), Error>
        requires some { 0 < length entries.now }
        requires entries { AreEntries entries.now }
    {
        let Some(ledger) = &mut self.ledger else {
            return Ok(said.push_str("none")?);
        };
        match append(ledger, &mut device.shelf, entries) {
            Ok(position) => { Ok(said.push_str(format!(in self.alloc; "{position}")?.as_str())?) }
            Err(refusal) => device.refuse(said, refusal),
        }
    }

    /// Appends so many of one entry.
    fn append_copies(
        &mut self,
        device: &mut Device,
        count: usize,
        word: &str,
        said: &mut String,
    ) -> Result<(), Error> {
        let one = entry(self.alloc, word)?;
        let many = copies(self.alloc, &one, count)?;
        if many.is_empty() {
            bail!("no copies");
        }
        self.append(device, many.as_slice(), said)
    }

    /// Puts where it begins.
    fn begins(&self, said: &mut String) -> Result<(), Error> {
        let Some(ledger) = &self.ledger else {
            return Ok(said.push_str("none")?);
        };
        tell_start(self.alloc, Some(ledger.start()), said)
    }

    /// Puts where it would begin without the segments below a limit, with so many entries more.
    fn point(&self, more: usize, limit: u64, said: &mut String) -> Result<(), Error> {
        let Some(ledger) = &self.ledger else {
            return Ok(said.push_str("none")?);
        };
        tell_start(self.alloc, ledger.trim_point(more, limit), said)
    }

    fn trim(&mut self, device: &mut Device, limit: u64, said: &mut String) -> Result<(), Error> {
        let Some(ledger) = &mut self.ledger else {
            return Ok(said.push_str("none")?);
        };
        match trim(ledger, &mut device.shelf, limit) {
            Ok(false) => Ok(said.push_str("none")?),
            Ok(true) => device.tell(said, Ok(())),
            Err(refusal) => device.tell(said, Err(refusal)),
        }
    }

    fn read(&self, device: &mut Device, position: u64, said: &mut String) -> Result<(), Error> {
        let Some(ledger) = &self.ledger else {
            return Ok(said.push_str("none")?);
        };
        let found = ledger.read(&mut device.shelf, position);
        tell_found(self.alloc, device, found, said)
    }

    pub(crate) fn step(
        &mut self,
        device: &mut Device,
        words: &[&str],
        said: &mut String,
    ) -> Result<(), Error> {
        match words {
            ["create", number] => {
                let made = self.create(device, number.parse()?);
                device.tell(said, made)
            }
            ["open", number] => self.open(device, number.parse()?, UNTRIMMED, said),
            ["from", base, first, number] => {
                let (base, first): (u32, u32) = (base.parse()?, first.parse()?);
                let start = Start {
                    base: u64::from(base),
                    first: u64::from(first),
                };
                self.open(device, number.parse()?, start, said)
            }
            ["start"] => self.begins(said),
            ["point", more, limit] => self.point(more.parse()?, limit.parse()?, said),
            ["trim", limit] => self.trim(device, limit.parse()?, said),
            ["some", most] => self.open_some(device, most.parse()?, said),
            ["count"] => self.count(device, said),
            ["append", one] => {
                let one = entry(self.alloc, one)?;
                self.append(device, &[one], said)
            }
            ["append", one, other] => {
                let both = [entry(self.alloc, one)?, entry(self.alloc, other)?];
                self.append(device, &both, said)
            }
            ["copies", count, one] => self.append_copies(device, count.parse()?, one, said),
            ["read", position] => self.read(device, position.parse()?, said),
            ["state"] => self.state(said),
            _ => bail!("no step of a ledger begins with these words"),
        }
    }
}
