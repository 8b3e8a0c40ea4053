// Two slots.
ghost use Rattle.std.specs.Prelude.{◌≡◌, IfOk};
ghost use Rattle.disk.specs.declared.file_id.Folder.{Folder};
ghost use Rattle.gated_log.specs.Wholes.{folder_in};

use crate::device::Device;
use crate::logs::append;
use crate::reading::{TOPIC, bytes, standing, yes};
use crate::taken::Taken;
use anyhow::{Error, bail};
use disk::Folder;
use disk_mem::MemShelf;
use gated_log::{BatchList, LogBuilder, PreparedLog, Refusal};
use std::alloc::Global;
use two_slot::TwoSlot;

/// The slots of the topic, and what their last opening handed over.
#[derive(Drop)]
pub(crate) struct Slots {
    alloc: Global,
    slots: Option<TwoSlot>,
    taken: Taken,
}

/// A log of the bodies that words spell.
fn log_of(alloc: Global, words: &[&str]) -> Result<PreparedLog, Error>
    ensures { IfOk result (λ log. folder_in log ≡ Folder.Two) }
{
    let mut log = LogBuilder::new(alloc, Folder::Two)?;
    'words: for word in words {
        let body = bytes(alloc, word)?;
        log = log.with_body(&body)?;
    }
    Ok(log.finish()?)
}

/// Where there is no generation for it, or the slots are of version 1, nothing is replaced.
fn replace(slots: &mut TwoSlot, shelf: &mut MemShelf, log: PreparedLog) -> Result<(), Refusal>
    requires { folder_in log ≡ Folder.Two }
{
    if !slots.can_replace() {
        return Err(Refusal::TooLarge);
    }
    if slots.id().topic.folder == Folder::One {
        return Err(Refusal::Version);
    }
    let start = slots.start();
    slots.replace(shelf, log, start)?;
    Ok(())
}

impl Slots {
    pub(crate) fn new(alloc: Global) -> Slots {
        Slots {
            alloc,
            slots: None,
            taken: Taken::new(alloc),
        }
    }

    fn create(&mut self, device: &mut Device) -> Result<(), Refusal> {
        let slots = TwoSlot::create(self.alloc, &mut device.shelf, TOPIC)?;
        self.slots = Some(slots);
        Ok(())
    }

    fn open(&mut self, device: &mut Device) -> Result<(), Refusal> {
        self.taken = Taken::new(self.alloc);
        let slots = TwoSlot::open_with(self.alloc, &mut device.shelf, TOPIC, &mut self.taken)?;
        self.slots = Some(slots);
        Ok(())
    }

    /// Their topic and count, whether they work, and whether there is a generation for a replace.
    fn state(&self, said: &mut String) -> Result<(), Error> {
        let Some(slots) = &self.slots else {
            return Ok(said.push_str("none")?);
        };
        let text = format!(in self.alloc;
            "topic {}, {}, {}, {}",
            slots.id().topic,
            slots.count(),
            standing(slots.is_failed()),
            yes(slots.can_replace())
        )?;
        Ok(said.push_str(text.as_str())?)
    }

    /// A step with the slots that stand.
    fn step_open(
        &mut self,
        device: &mut Device,
        words: &[&str],
        said: &mut String,
    ) -> Result<(), Error> {
        let Some(slots) = &mut self.slots else {
            return Ok(said.push_str("none")?);
        };
        match words {
            ["append", word] => {
                let body = bytes(self.alloc, word)?;
                let answered = append(slots, &mut device.shelf, &body);
                device.tell(said, answered)
            }
            ["replace", bodies @ ..] => {
                let log = log_of(self.alloc, bodies)?;
                let answered = replace(slots, &mut device.shelf, log);
                device.tell(said, answered)
            }
            _ => bail!("no step of slots begins with these words"),
        }
    }

    pub(crate) fn step(
        &mut self,
        device: &mut Device,
        words: &[&str],
        said: &mut String,
    ) -> Result<(), Error> {
        match words {
            ["create"] => {
                let made = self.create(device);
                device.tell(said, made)
            }
            ["open"] => {
                let opened = self.open(device);
                device.tell(said, opened)?;
                Ok(said.push_str(self.taken.text.as_str())?)
            }
            ["state"] => self.state(said),
            _ => self.step_open(device, words, said),
        }
    }
}
