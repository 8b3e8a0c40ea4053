// A gated log.

use crate::device::Device;
use crate::reading::{TOPIC, bytes, spelled, standing};
use crate::taken::Taken;
use anyhow::{Error, bail};
use disk::{DeviceError, FileId, Shelf};
use gated_log::{
    AtHeader, BatchBuilder, BatchList, GatedLog, Label, LogHead, PreparedBatch, ReadError, Refusal,
};
use std::alloc::Global;

const FILE: FileId = FileId::Segment {
    topic: TOPIC,
    number: 12,
};

/// The log of segment 12, a head of its file, and what its openings handed over.
#[derive(Drop)]
pub(crate) struct Logs {
    alloc: Global,
    log: Option<GatedLog>,
    head: Option<LogHead>,
    taken: Taken,
}

/// Adds a body to a list.
pub(crate) fn append<L: BatchList, S: Shelf>(
    list: &mut L,
    shelf: &mut S,
    body: &[u8],
) -> Result<(), Refusal> {
    let mut builder = list.builder(body.len())?;
    builder.extend_from_slice(body)?;
    list.append_prepared(shelf, PreparedBatch::new(builder)?)?;
    Ok(())
}

/// The batch of a body that is built without its list, its first byte by itself.
fn built(alloc: Global, body: &[u8]) -> Result<(usize, PreparedBatch), Refusal> {
    let mut builder = BatchBuilder::with_capacity(alloc, body.len())?;
    if let [first, rest @ ..] = body {
        builder.push(*first)?;
        builder.extend_from_slice(rest)?;
    }
    Ok((builder.len(), PreparedBatch::new(builder)?))
}

/// Puts the bytes that a read gives, or why it is refused.
pub(crate) fn tell_read(
    alloc: Global,
    device: &Device,
    read: Result<Vec<u8>, ReadError>,
    said: &mut String,
) -> Result<(), Error> {
    match read {
        Ok(bytes) => Ok(said.push_str(spelled(alloc, &bytes)?.as_str())?),
        Err(error) => device.refuse(said, Refusal::from(error)),
    }
}

impl Logs {
    pub(crate) fn new(alloc: Global) -> Logs {
        Logs {
            alloc,
            log: None,
            head: None,
            taken: Taken::new(alloc),
        }
    }

    fn create(&mut self, device: &mut Device, number: u64) -> Result<(), Refusal> {
        self.log = Some(GatedLog::create(
            self.alloc,
            &mut device.shelf,
            FILE,
            Label::plain(number),
        )?);
        Ok(())
    }

    fn open(&mut self, device: &mut Device) -> Result<(), Refusal> {
        let log = GatedLog::open_with(self.alloc, &mut device.shelf, FILE, &mut self.taken)?;
        self.log = Some(log);
        Ok(())
    }

    /// Goes on with the head that was read.
    fn open_from(&mut self, device: &mut Device) -> Result<(), Refusal> {
        let Some(head) = &self.head else {
            return Err(Refusal::NotInitialised);
        };
        let log = GatedLog::open_from(self.alloc, &mut device.shelf, head, &mut self.taken)?;
        self.log = Some(log);
        Ok(())
    }

    /// Puts what an opening answers, and what it handed over.
    fn tell_opening(
        &self,
        device: &Device,
        opened: Result<(), Refusal>,
        said: &mut String,
    ) -> Result<(), Error> {
        device.tell(said, opened)?;
        Ok(said.push_str(self.taken.text.as_str())?)
    }

    /// Reads a head, and puts its size, its header and its number.
    fn head(&mut self, device: &mut Device, said: &mut String) -> Result<(), Error> {
        let head = match LogHead::read(&mut device.shelf, FILE) {
            Ok(head) => head,
            Err(DeviceError) => return device.refuse(said, Refusal::Device),
        };
        let header = match head.header() {
            AtHeader::Closed => "closed",
            AtHeader::Damaged => "damaged",
            AtHeader::OtherVersion => "version",
            AtHeader::Labelled(_) => "number",
        };
        let text = format!(in self.alloc; "{} {header} {}", head.size(), head.number())?;
        self.head = Some(head);
        Ok(said.push_str(text.as_str())?)
    }

    /// The same of one batch of bodies that were built before.
    fn append_built(
        &mut self,
        device: &mut Device,
        body: &[u8],
        said: &mut String,
    ) -> Result<(), Error> {
        let Some(log) = &mut self.log else {
            return Ok(said.push_str("none")?);
        };
        let (size, batch) = match built(self.alloc, body) {
            Ok(built) => built,
            Err(refusal) => return device.refuse(said, refusal),
        };
        said.push_str(format!(in self.alloc; "{size} ")?.as_str())?;
        match log.append_prepared(&mut device.shelf, batch) {
            Ok(()) => device.tell(said, Ok(())),
            Err(DeviceError) => device.refuse(said, Refusal::Device),
        }
    }

    /// Its file, number, count and end, and whether it works.
    fn state(&self, said: &mut String) -> Result<(), Error> {
        let Some(log) = &self.log else {
            return Ok(said.push_str("none")?);
        };
        let id = log.id();
        let text = format!(in self.alloc;
            "{} {}, {} to {}, {}",
            id.file,
            id.label.number,
            log.count(),
            log.end(),
            standing(log.is_failed())
        )?;
        Ok(said.push_str(text.as_str())?)
    }

    /// A step with the log that stands.
    fn step_open(
        &mut self,
        device: &mut Device,
        words: &[&str],
        said: &mut String,
    ) -> Result<(), Error> {
        let Some(log) = &mut self.log else {
            return Ok(said.push_str("none")?);
        };
        match words {
            ["append", word] => {
                let body = bytes(self.alloc, word)?;
                let answered = append(log, &mut device.shelf, &body);
                device.tell(said, answered)
            }
            ["read", offset, size] => {
                let read = log.read_at(&mut device.shelf, offset.parse()?, size.parse()?);
                tell_read(self.alloc, device, read, said)
            }
            ["built", word] => {
                let body = bytes(self.alloc, word)?;
                self.append_built(device, &body, said)
            }
            ["state"] => self.state(said),
            _ => bail!("no step of a log begins with these words"),
        }
    }

    pub(crate) fn step(
        &mut self,
        device: &mut Device,
        words: &[&str],
        said: &mut String,
    ) -> Result<(), Error> {
        match words {
            ["create", number] => {
                let made = self.create(device, number.parse()?);
                device.tell(said, made)
            }
            ["open"] => {
                self.taken = Taken::new(self.alloc);
                let opened = self.open(device);
                self.tell_opening(device, opened, said)
            }
            ["behind"] => {
                let opened = self.open(device);
                self.tell_opening(device, opened, said)
            }
            ["from"] => {
                self.taken = Taken::new(self.alloc);
                let opened = self.open_from(device);
                self.tell_opening(device, opened, said)
            }
            ["head"] => self.head(device, said),
            _ => self.step_open(device, words, said),
        }
    }
}
