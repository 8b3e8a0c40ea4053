// A journal.

use crate::device::Device;
use crate::logs::tell_read;
use crate::reading::{TOPIC, bytes, standing};
use crate::taken::Taken;
use anyhow::{Error, bail};
use disk_mem::MemShelf;
use gated_log::{ReadError, Refusal};
use journal::Journal;
use std::alloc::Global;

/// The journal of the topic.
#[derive(Drop)]
pub(crate) struct Journals {
    alloc: Global,
    journal: Option<Journal>,
}

fn append(journal: &mut Journal, shelf: &mut MemShelf, body: &[u8]) -> Result<(), Refusal> {
    let mut builder = journal.builder(body.len())?;
    builder.extend_from_slice(body)?;
    journal.append_prepared(shelf, builder.into_batch()?)?;
    Ok(())
}

fn roll(journal: &mut Journal, shelf: &mut MemShelf, number: u64) -> Result<(), Refusal> {
    let roll = journal.prepare_roll()?;
    journal.roll_prepared(shelf, number, roll)?;
    Ok(())
}

/// Gives the segments before this one back; false where there is no such segment.
fn drop_before(journal: &mut Journal, shelf: &mut MemShelf, number: u32) -> Result<bool, Refusal> {
    let first = u64::from(number);
    if first < journal.first() {
        return Ok(false);
    }
    if journal.last() < first {
        return Ok(false);
    }
    journal.drop_before(shelf, first)?;
    Ok(true)
}

/// The same of bytes of a segment or an entry, which needn't be there.
pub(crate) fn tell_found(
    alloc: Global,
    device: &Device,
    found: Result<Option<Vec<u8>>, ReadError>,
    said: &mut String,
) -> Result<(), Error> {
    match found {
        Ok(None) => Ok(said.push_str("none")?),
        Ok(Some(bytes)) => tell_read(alloc, device, Ok(bytes), said),
        Err(error) => tell_read(alloc, device, Err(error), said),
    }
}

impl Journals {
    pub(crate) fn new(alloc: Global) -> Journals {
        Journals {
            alloc,
            journal: None,
        }
    }

    fn create(&mut self, device: &mut Device, first: u32, number: u64) -> Result<(), Refusal> {
        let shelf = &mut device.shelf;
        let journal = Journal::create(self.alloc, shelf, TOPIC, u64::from(first), number)?;
        self.journal = Some(journal);
        Ok(())
    }

    /// Puts what an opening from a segment on hands over, or why it is refused.
    fn open(&mut self, device: &mut Device, first: u32, said: &mut String) -> Result<(), Error> {
        let taken = Taken::new(self.alloc);
        match Journal::open_with(
            self.alloc,
            &mut device.shelf,
            TOPIC,
            u64::from(first),
            taken,
        ) {
            Ok((journal, taken)) => {
                self.journal = Some(journal);
                said.push_str("ok")?;
                Ok(said.push_str(taken.text.as_str())?)
            }
            Err(refusal) => device.refuse(said, refusal),
        }
    }

    /// The same of one that hands so many bodies over at most. Its want of memory is an answer.
    fn open_some(
        &mut self,
        device: &mut Device,
        most: u64,
        said: &mut String,
    ) -> Result<(), Error> {
        let taken = Taken::with_room(self.alloc, most);
        match Journal::open_with(self.alloc, &mut device.shelf, TOPIC, 0, taken) {
            Ok(_) => Ok(said.push_str("ok")?),
            Err(Refusal::NoMemory) => Ok(said.push_str("no memory")?),
            Err(refusal) => device.refuse(said, refusal),
        }
    }

    /// Its topic, its segments, the count and the end of the last one, and whether it works.
    fn state(&self, said: &mut String) -> Result<(), Error> {
        let Some(journal) = &self.journal else {
            return Ok(said.push_str("none")?);
        };
        let text = format!(in self.alloc;
            "topic {}, segments {}, {} to {}, {}",
            journal.topic(),
            journal.segments(),
            journal.last_count(),
            journal.last_end(),
            standing(journal.is_failed())
        )?;
        Ok(said.push_str(text.as_str())?)
    }

    /// A step with the journal that stands.
    fn step_open(
        &mut self,
        device: &mut Device,
        words: &[&str],
        said: &mut String,
    ) -> Result<(), Error> {
        let Some(journal) = &mut self.journal else {
            return Ok(said.push_str("none")?);
        };
        match words {
            ["append", word] => {
                let body = bytes(self.alloc, word)?;
                let answered = append(journal, &mut device.shelf, &body);
                device.tell(said, answered)
            }
            ["roll", number] => {
                let answered = roll(journal, &mut device.shelf, number.parse()?);
                device.tell(said, answered)
            }
            ["drop", number] => {
                match drop_before(journal, &mut device.shelf, number.parse()?) {
                    Ok(false) => Ok(said.push_str("none")?),
                    Ok(true) => device.tell(said, Ok(())),
                    Err(refusal) => device.tell(said, Err(refusal)),
                }
            }
            ["first"] => {
                let text = format!(in self.alloc; "{}", journal.first())?;
                Ok(said.push_str(text.as_str())?)
            }
            ["read", segment, offset, size] => {
                let (segment, offset, size) = (segment.parse()?, offset.parse()?, size.parse()?);
                let found = journal.read_at(&mut device.shelf, segment, offset, size);
                tell_found(self.alloc, device, found, said)
            }
            _ => bail!("no step of a journal begins with these words"),
        }
    }

    pub(crate) fn step(
        &mut self,
        device: &mut Device,
        words: &[&str],
        said: &mut String,
    ) -> Result<(), Error> {
        match words {
            ["create", number] => {
                let made = self.create(device, 0, number.parse()?);
                device.tell(said, made)
            }
            ["create", number, first] => {
                let (number, first) = (number.parse()?, first.parse()?);
                let made = self.create(device, first, number);
                device.tell(said, made)
            }
            ["open"] => self.open(device, 0, said),
            ["from", first] => self.open(device, first.parse()?, said),
            ["open", most] => self.open_some(device, most.parse()?, said),
            ["state"] => self.state(said),
            _ => self.step_open(device, words, said),
        }
    }
}
