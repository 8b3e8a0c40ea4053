// The topics of a catalog are opened, each on the device of its number, before any goes behind its locks.
ghost use Rattle.std.specs.Prelude.{◌≡◌, ◌⊎◌, ◌<◌, ◌≤◌, false, Some, length, slice_get, IfOk, IfErr, IsErrOf};
ghost use Rattle.disk.specs.Areas.{OfTopic};
ghost use Rattle.disk.specs.Disk.{Failed};
ghost use Rattle.gated_log.specs.declared.refusal.Refusal.TheVariants.{Device, NoMemory};
ghost use Rattle.topic_core.specs.Standing.{Before, Standing};
ghost use Rattle.catalog.specs.Catalogs.{remembered, per_ledger, failed};
ghost use Rattle.topic_lock.specs.Opening.{IsOpened, IsCatalogOpened, OnlyReads, AreHonest, AreNumbered, AreOnlyRead, AllOnlyRead, AreOpened, IsTopicFault, IsFirstFault, OneFailed, AnyFailed};

use crate::devices::Devices;
use crate::part::OpenPart;
use catalog::Catalog;
use disk::Shelf;
use gated_log::Refusal;
use names::TopicName;
use std::alloc::{AllocError, Global};
use topic_core::{TopicCore, TopicStore};

/// Opens the topic of a number and a name over its device, whatever its files hold. Each is synced once and read once, and nothing is
/// written. The first fault that stands in them is told.
pub(crate) fn open_part<T: TopicStore, S: Shelf>(
    alloc: Global,
    shelf: &mut S,
    number: u16,
    name: TopicName,
    per_ledger: u32,
) -> Result<OpenPart<T>, Refusal>
    requires { 0 < per_ledger }
    ensures named { IfOk result (λ part. (part.number ≡ number) × (part.name ≡ name)) }
    ensures found { (S.disk shelf.old).honest → IfOk result (λ part. IsOpened T.stands per_ledger number (S.disk shelf.old).seen part.core) }
    ensures stands { (S.disk shelf.old).honest → IfOk result (λ part. Standing T.stands Before part.core (T.view part.stores) (S.disk shelf.new)) }
    ensures faulty { (S.disk shelf.old).honest → IfErr result (λ e. (e ≡ NoMemory) ⊎ ((e ≡ Device) ⊎ T.faulty number (S.disk shelf.old).seen e)) }
    ensures cause { IsErrOf result Device → Failed (S.disk shelf.old) (S.disk shelf.new) }
    ensures read { OnlyReads (IsErrOf result Device) (OfTopic number) (S.disk shelf.old) (S.disk shelf.new) }
{
    let (core, stores) = match TopicCore::open(alloc, shelf, number, per_ledger) {
        Ok(opened) => opened,
        Err(why) => {
            drop(name);
            return Err(why);
        }
    };
    Ok(OpenPart {
        number,
        name,
        core,
        stores,
    })
}

/// Opens each topic of a catalog on the device of its number. The first fault that stands in their files is told, and nothing is
/// written.
pub(crate) fn open_topics<T: TopicStore, S: Shelf + Drop>(
    alloc: Global,
    catalog: &Catalog,
    shelves: &mut Vec<S>,
) -> Result<Vec<OpenPart<T>>, Refusal>
    requires { length (remembered catalog.now) ≤ length shelves.old.items }
    ensures count { IfOk result (λ parts. length parts.items ≡ length (remembered catalog.now)) }
    ensures numbered { IfOk result (λ parts. AreNumbered (remembered catalog.now) parts.items) }
    ensures found { IfOk result (λ parts. AreOpened S.disk (per_ledger catalog.now) shelves.old.items shelves.new.items parts.items) }
    ensures faulty { AreHonest S.disk shelves.old.items →
        IfErr result (λ e. (e ≡ NoMemory) ⊎ ((e ≡ Device) ⊎ IsTopicFault S.disk T.stands T.faulty (length (remembered catalog.now)) shelves.old.items e)) }
    ensures cause { IsErrOf result Device → OneFailed S.disk shelves.old.items shelves.new.items }
    ensures read { AreOnlyRead S.disk (IsErrOf result Device) shelves.old.items shelves.new.items }
    ensures devices { length shelves.new.items ≡ length shelves.old.items }
{
    let mut parts = Vec::new(alloc);
    let per_ledger = catalog.entries_per_ledger();
    for number in 0..catalog.len() {
        parts.reserve(1)?;
        let name = name_of(catalog, number as u16)?;
        let shelf = &mut shelves[number];
        let part = match open_part(alloc, shelf, number as u16, name, per_ledger) {
            Ok(part) => part,
            Err(why) => {
                drop(parts);
                return Err(why);
            }
        };
        parts.push(part).unwrap();
    }
    Ok(parts)
}

/// The name of the topic of a number, once more.
pub(crate) fn name_of(catalog: &Catalog, number: u16) -> Result<TopicName, AllocError>
    requires { number < length (remembered catalog.now) }
    ensures { IfOk result (λ name. slice_get (remembered catalog.now) number ≡ Some name) }
{
    let Some(name) = catalog.name(number) else {
        unreachable!();
    };
    name.clone()
}

/// A catalog and its topics, which nobody shares yet.
#[derive(Drop)]
pub(crate) struct Opened<T: TopicStore> {
    pub(crate) catalog: Catalog,
    pub(crate) parts: Vec<OpenPart<T>>,
}

/// Opens the catalog on its device, and then each of its topics on the device of its number, whatever their files hold, before any goes
/// behind a lock. Each file is synced once and read once, and nothing is written. The first fault that stands in them is told.
pub(crate) fn open_parts<T: TopicStore, S: Shelf + Drop>(
    alloc: Global,
    devices: &mut Devices<S>,
) -> Result<Opened<T>, Refusal>
    requires { length devices.old.topics.items ≡ 64 }
    ensures count { IfOk result (λ opened. length opened.parts.items ≡ length (remembered opened.catalog)) }
    ensures numbered { IfOk result (λ opened. AreNumbered (remembered opened.catalog) opened.parts.items) }
    ensures works { IfOk result (λ opened. failed opened.catalog ≡ false) }
    ensures names { (S.disk devices.old.catalog).honest → IfOk result (λ opened. IsCatalogOpened S.disk opened.catalog devices.old devices.new) }
    ensures found { IfOk result (λ opened. AreOpened S.disk (per_ledger opened.catalog) devices.old.topics.items devices.new.topics.items opened.parts.items) }
    ensures faulty { (S.disk devices.old.catalog).honest → AreHonest S.disk devices.old.topics.items →
        IfErr result (λ e. (e ≡ NoMemory) ⊎ ((e ≡ Device) ⊎ IsFirstFault S.disk T.stands T.faulty devices.old e)) }
    ensures cause { IsErrOf result Device → AnyFailed S.disk devices.old devices.new }
    ensures read { AllOnlyRead S.disk (IsErrOf result Device) devices.old devices.new }
    ensures devices { length devices.new.topics.items ≡ length devices.old.topics.items }
{
    let Devices {
        catalog: shelf,
        topics: shelves,
    } = devices;
    let catalog = match Catalog::open_newest(alloc, shelf) {
        Ok(catalog) => catalog,
        Err(why) => return Err(why),
    };
    let parts = match open_topics(alloc, &catalog, shelves) {
        Ok(parts) => parts,
        Err(why) => {
            drop(catalog);
            return Err(why);
        }
    };
    Ok(Opened { catalog, parts })
}
