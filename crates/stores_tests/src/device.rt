// The device.

use crate::reading::{bytes, file, form, spelled};
use anyhow::{Error, bail};
use disk::{CrashForm, CrashShelf, DeviceError, FileId, Fuse, Shelf, persist};
use disk_mem::MemShelf;
use gated_log::Refusal;
use std::alloc::Global;
use std::marker::Send;

/// What a file has that was once long, a part at a time.
const PART: [u8; 64] = [b'-'; 64];

/// How many parts it has.
const PARTS: u64 = 4;

/// So much is read at most.
const MOST_READ: usize = 1 << 20;

/// The device in memory, and whether one of its calls may fail that an order made fail.
#[derive(Drop)]
pub(crate) struct Device {
    alloc: Global,
    pub(crate) shelf: MemShelf,
    is_armed: bool,
}

/// A device may be handed to another thread.
fn is_sent<S: Send>(shelf: S) -> S {
    shelf
}

impl Device {
    pub(crate) fn new(alloc: Global) -> Device {
        Device {
            alloc,
            shelf: is_sent(MemShelf::new(alloc)),
            is_armed: false,
        }
    }

    /// Puts why a store refuses. Where no failure was ordered, a device that fails has no memory.
    pub(crate) fn refuse(&self, said: &mut String, refusal: Refusal) -> Result<(), Error> {
        match refusal {
            Refusal::NoMemory => bail!("no memory"),
            Refusal::Device if !self.is_armed => bail!("no memory"),
            other => Ok(said.push_str(format!(in self.alloc; "{other}")?.as_str())?),
        }
    }

    /// Puts `ok`, or why a store refuses.
    pub(crate) fn tell(
        &self,
        said: &mut String,
        answered: Result<(), Refusal>,
    ) -> Result<(), Error> {
        match answered {
            Ok(()) => Ok(said.push_str("ok")?),
            Err(refusal) => self.refuse(said, refusal),
        }
    }

    /// The same of a call of the device.
    fn tell_call(&self, said: &mut String, answered: Result<(), DeviceError>) -> Result<(), Error> {
        match answered {
            Ok(()) => Ok(said.push_str("ok")?),
            Err(DeviceError) => self.refuse(said, Refusal::Device),
        }
    }

    /// Files that were once long, of other bytes: what is written over them takes no more memory.
    fn make_room(&mut self, names: &[&str], said: &mut String) -> Result<(), Error> {
        for name in names {
            let made = self.lay_parts(file(name)?);
            if made.is_err() {
                return self.refuse(said, Refusal::Device);
            }
        }
        Ok(said.push_str("ok")?)
    }

    fn lay_parts(&mut self, file: FileId) -> Result<(), DeviceError> {
        for part in 0..PARTS {
            self.shelf.write_at(file, 64 * part, &PART)?;
        }
        self.shelf.sync(file)
    }

    /// Makes these the bytes of a file.
    fn lay(&mut self, file: FileId, bytes: &[u8]) -> Result<(), DeviceError> {
        self.shelf.cut(file, 0)?;
        self.shelf.write_at(file, 0, bytes)?;
        self.shelf.sync(file)
    }

    /// Puts how many bytes a read finds, and what is then in the buffer, of which each byte was `2d`.
    fn read(
        &mut self,
        file: FileId,
        offset: u64,
        size: usize,
        said: &mut String,
    ) -> Result<(), Error> {
        if size > MOST_READ {
            bail!("so much isn't read: {size}");
        }
        let mut buffer = vec![in self.alloc; b'-'; size]?;
        match self.shelf.read(file, offset, &mut buffer) {
            Ok(count) => {
                let bytes = spelled(self.alloc, &buffer)?;
                Ok(said.push_str(format!(in self.alloc; "{count} {bytes}")?.as_str())?)
            }
            Err(DeviceError) => self.refuse(said, Refusal::Device),
        }
    }

    /// The length of a file, which is short.
    fn length(&mut self, file: FileId) -> Result<usize, Error> {
        match self.shelf.length(file) {
            Ok(length) => Ok((length as usize).min(MOST_READ)),
            Err(DeviceError) => bail!("no length"),
        }
    }

    /// Puts what a read of a whole file gives.
    fn contents(&mut self, file: FileId, said: &mut String) -> Result<(), Error> {
        let length = self.length(file)?;
        let mut bytes = vec![in self.alloc; 0u8; length]?;
        match self.shelf.read(file, 0, &mut bytes) {
            Ok(_) => Ok(said.push_str(spelled(self.alloc, &bytes)?.as_str())?),
            Err(DeviceError) => self.refuse(said, Refusal::Device),
        }
    }

    fn arm(&mut self, fuse: Fuse, said: &mut String) -> Result<(), Error> {
        self.shelf.arm(fuse)?;
        self.is_armed = true;
        Ok(said.push_str("ok")?)
    }

    fn crash(&mut self, form: CrashForm, said: &mut String) -> Result<(), Error> {
        self.shelf.arm(Fuse::CrashAs(form))?;
        self.shelf.crash();
        Ok(said.push_str("ok")?)
    }

    /// Lays a fuse, or cuts the power.
    fn fault(&mut self, words: &[&str], said: &mut String) -> Result<(), Error> {
        match words {
            ["fail", number] => self.arm(Fuse::Fail(number.parse()?), said),
            ["stop", number] => self.arm(Fuse::Stop(number.parse()?), said),
            ["failread", number] => self.arm(Fuse::FailRead(number.parse()?), said),
            ["form", name] => self.arm(Fuse::CrashAs(form(self.alloc, name)?), said),
            ["crash", name] => self.crash(form(self.alloc, name)?, said),
            ["crash"] => {
                self.shelf.crash();
                Ok(said.push_str("ok")?)
            }
            _ => bail!("no step begins with these words"),
        }
    }

    /// A call of the device with bytes.
    fn write(&mut self, words: &[&str], said: &mut String) -> Result<(), Error> {
        let answered = match words {
            ["lay", name, word] => {
                let bytes = bytes(self.alloc, word)?;
                self.lay(file(name)?, &bytes)
            }
            ["write", name, offset, word] => {
                let bytes = bytes(self.alloc, word)?;
                self.shelf.write_at(file(name)?, offset.parse()?, &bytes)
            }
            ["persist", name, offset, word] => {
                let bytes = bytes(self.alloc, word)?;
                persist(&mut self.shelf, file(name)?, offset.parse()?, &bytes)
            }
            ["cut", name, length] => self.shelf.cut(file(name)?, length.parse()?),
            ["sync", name] => self.shelf.sync(file(name)?),
            _ => return self.fault(words, said),
        };
        self.tell_call(said, answered)
    }

    /// A step of the device.
    pub(crate) fn step(&mut self, words: &[&str], said: &mut String) -> Result<(), Error> {
        match words {
            ["room", names @ ..] => self.make_room(names, said),
            ["read", name, offset, size] => {
                self.read(file(name)?, offset.parse()?, size.parse()?, said)
            }
            ["length", name] => {
                let length = self.length(file(name)?)?;
                Ok(said.push_str(format!(in self.alloc; "{length}")?.as_str())?)
            }
            ["file", name] => self.contents(file(name)?, said),
            _ => self.write(words, said),
        }
    }
}
