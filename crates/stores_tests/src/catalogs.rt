// A catalog.

use crate::device::Device;
use crate::reading::{standing, yes};
use anyhow::{Error, bail};
use catalog::{Catalog, EntriesPerLedger};
use disk_mem::MemShelf;
use gated_log::Refusal;
use names::{NameFault, TopicName};
use std::alloc::Global;

/// The catalog.
#[derive(Drop)]
pub(crate) struct Catalogs {
    alloc: Global,
    catalog: Option<Catalog>,
}

/// What became of a name that was to be added.
enum Added {
    As(u16),
    IsThere,
    IsFull,
}

fn add(catalog: &mut Catalog, shelf: &mut MemShelf, name: TopicName) -> Result<Added, Refusal> {
    if catalog.find(shelf, &name)?.is_some() {
        return Ok(Added::IsThere);
    }
    if catalog.is_full() {
        return Ok(Added::IsFull);
    }
    Ok(Added::As(catalog.add(shelf, name)?))
}

/// The name that a text is.
fn name_of(alloc: Global, text: &str) -> Result<TopicName, Error> {
    match TopicName::read(alloc, text.as_bytes()) {
        Ok(name) => Ok(name),
        Err(NameFault::NoMemory) => bail!("no memory"),
        Err(NameFault::Bad) => bail!("no name of a topic: {text}"),
    }
}

impl Catalogs {
    pub(crate) fn new(alloc: Global) -> Catalogs {
        Catalogs {
            alloc,
            catalog: None,
        }
    }

    fn create(&mut self, device: &mut Device, entries: EntriesPerLedger) -> Result<(), Refusal> {
        let catalog = Catalog::create(self.alloc, &mut device.shelf, entries)?;
        self.catalog = Some(catalog);
        Ok(())
    }

    fn open(&mut self, device: &mut Device) -> Result<(), Refusal> {
        let catalog = Catalog::open(self.alloc, &mut device.shelf)?;
        self.catalog = Some(catalog);
        Ok(())
    }

    /// Puts how many entries a ledger has, how many names there are, whether it works, and whether it is full.
    fn state(&self, said: &mut String) -> Result<(), Error> {
        let Some(catalog) = &self.catalog else {
            return Ok(said.push_str("none")?);
        };
        let text = format!(in self.alloc;
            "{} entries, {} names, {}, full {}",
            catalog.entries_per_ledger(),
            catalog.len(),
            standing(catalog.is_failed()),
            yes(catalog.is_full())
        )?;
        Ok(said.push_str(text.as_str())?)
    }

    fn add(&mut self, device: &mut Device, text: &str, said: &mut String) -> Result<(), Error> {
        let Some(catalog) = &mut self.catalog else {
            return Ok(said.push_str("none")?);
        };
        let name = name_of(self.alloc, text)?;
        match add(catalog, &mut device.shelf, name) {
            Ok(Added::As(number)) => {
                Ok(said.push_str(format!(in self.alloc; "{number}")?.as_str())?)
            }
            Ok(Added::IsThere) => Ok(said.push_str("there")?),
            Ok(Added::IsFull) => Ok(said.push_str("full")?),
            Err(refusal) => device.refuse(said, refusal),
        }
    }

    fn find(&mut self, device: &mut Device, text: &str, said: &mut String) -> Result<(), Error> {
        let Some(catalog) = &mut self.catalog else {
            return Ok(said.push_str("none")?);
        };
        let name = name_of(self.alloc, text)?;
        match catalog.find(&mut device.shelf, &name) {
            Ok(Some(number)) => Ok(said.push_str(format!(in self.alloc; "{number}")?.as_str())?),
            Ok(None) => Ok(said.push_str("none")?),
            Err(refusal) => device.refuse(said, refusal),
        }
    }

    /// Puts the name of a number.
    fn tell_name(&self, number: u16, said: &mut String) -> Result<(), Error> {
        let Some(catalog) = &self.catalog else {
            return Ok(said.push_str("none")?);
        };
        match catalog.name(number) {
            Some(name) => Ok(said.push_str(name.as_str())?),
            None => Ok(said.push_str("none")?),
        }
    }

    pub(crate) fn step(
        &mut self,
        device: &mut Device,
        words: &[&str],
        said: &mut String,
    ) -> Result<(), Error> {
        match words {
            ["create", number] => {
                let Some(entries) = EntriesPerLedger::new(number.parse()?) else {
                    return Ok(said.push_str("none")?);
                };
                let made = self.create(device, entries);
                device.tell(said, made)
            }
            ["limit", number] => match EntriesPerLedger::new(number.parse()?) {
                Some(entries) => {
                    Ok(said.push_str(format!(in self.alloc; "{}", entries.get())?.as_str())?)
                }
                None => Ok(said.push_str("none")?),
            },
            ["open"] => {
                let opened = self.open(device);
                device.tell(said, opened)
            }
            ["add", text] => self.add(device, text, said),
            ["find", text] => self.find(device, text, said),
            ["name", number] => self.tell_name(number.parse()?, said),
            ["state"] => self.state(said),
            _ => bail!("no step of a catalog begins with these words"),
        }
    }
}
