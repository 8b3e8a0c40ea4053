// What the steps of a line are done with.

use crate::catalogs::Catalogs;
use crate::cursors::Cursors;
use crate::device::Device;
use crate::journals::Journals;
use crate::kept::Kept;
use crate::ledgers::Ledgers;
use crate::logs::Logs;
use crate::naming;
use crate::reading::words;
use crate::slots::Slots;
use anyhow::Error;
use std::alloc::Global;

/// A device, and of each kind of store the one that was made or opened last.
#[derive(Drop)]
pub(crate) struct Tried {
    alloc: Global,
    device: Device,
    logs: Logs,
    journals: Journals,
    slots: Slots,
    ledgers: Ledgers,
    cursors: Cursors,
    kept: Kept,
    catalogs: Catalogs,
}

impl Tried {
    /// A device without files, and no store.
    pub(crate) fn new(alloc: Global) -> Tried {
        Tried {
            alloc,
            device: Device::new(alloc),
            logs: Logs::new(alloc),
            journals: Journals::new(alloc),
            slots: Slots::new(alloc),
            ledgers: Ledgers::new(alloc),
            cursors: Cursors::new(alloc),
            kept: Kept::new(alloc),
            catalogs: Catalogs::new(alloc),
        }
    }

    /// Does the steps of a line, and puts the answer of each.
    pub(crate) fn steps(&mut self, line: &str, said: &mut String) -> Result<(), Error> {
        for step in line.split("; ") {
            if !said.is_empty() {
                said.push_str("; ")?;
            }
            self.step(step, said)?;
        }
        Ok(())
    }

    /// Does a step, by its first word.
    fn step(&mut self, step: &str, said: &mut String) -> Result<(), Error> {
        let words = words(self.alloc, step)?;
        let device = &mut self.device;
        match words.as_slice() {
            ["log", rest @ ..] => self.logs.step(device, rest, said),
            ["journal", rest @ ..] => self.journals.step(device, rest, said),
            ["slots", rest @ ..] => self.slots.step(device, rest, said),
            ["ledger", rest @ ..] => self.ledgers.step(device, rest, said),
            ["cursors", rest @ ..] => self.cursors.step(device, rest, said),
            ["kept", rest @ ..] => self.kept.step(rest, said),
            ["catalog", rest @ ..] => self.catalogs.step(device, rest, said),
            ["name", rest @ ..] => naming::step(self.alloc, rest, said),
            rest => device.step(rest, said),
        }
    }
}
