// A node's files are made.
ghost use Rattle.std.specs.Prelude.{◌≡◌, ◌≢◌, ℕ, List, IfErr, IsErrOf, OnOk};
ghost use Rattle.std.specs.Io.KnownBytes.{Appends};
ghost use Rattle.disk.specs.Disk.{Same, Failed};
ghost use Rattle.gated_log.specs.declared.refusal.Refusal.TheVariants.{Device, NoMemory};
ghost use Rattle.node.specs.State.{State, fresh_broker};
ghost use Rattle.node.specs.Standing.{AtRest};
ghost use Rattle.folder.specs.Making.{initialised_line, fault_of_making, HasList, IsFaultOfMaking, MakesNothing};

use crate::fault::{FolderFault, PRINTING, fault_at};
use crate::held::Folder;
use catalog::{Catalog, EntriesPerLedger};
use disk::Shelf;
use log::Log;
use node::{Node, Refusal};
use std::alloc::Global;
use std::fs::File;
use std::io::{ErrorKind, Write};
use std::rt::Files;
use std::{fs, io};
use topic_core::{FileStores, TopicStore};

/// Makes a node without topics in the folder of this path, and writes a line that says how many entries its ledgers have. The
/// folder is made where it isn't there. One that has a list of topics, sound or not, stays as it is, and so does one that has files of
/// topics without such a list; one in which an earlier `init` was cut off is made anew. Nothing is written where the node isn't made.
pub fn init<R: AllocGlobal + Log + Files<File = File>, W: Write>(
    rt: &R,
    path: &str,
    per_ledger: EntriesPerLedger,
    writer: &mut W,
) -> Result<(), FolderFault>
    ensures line { OnOk result (Appends (W.contents writer.old) (W.contents writer.new) (initialised_line per_ledger.count)) }
    ensures silent { IfErr result (λ fault. fault ≢ FolderFault.Refused Device → fault ≢ FolderFault.Refused NoMemory → writer.new ≡ writer.old) }
{
    match holds_topics(rt, path) {
        Ok(false) => {}
        Ok(true) => return Err(fault_over_topics(rt, path)),
        Err(error) => return Err(fault_at(rt, &path, error)),
    }
    let folder = Folder::make(rt, path)?;
    let mut shelf = folder.shelf(rt)?;
    init_on(rt.alloc(), per_ledger, &mut shelf)?;
    match write_line(per_ledger, writer) {
        Ok(()) => Ok(()),
        Err(error) => Err(fault_at(rt, &PRINTING, error)),
    }
}

// Our own rule.
fn write_line<W: Write>(per_ledger: EntriesPerLedger, writer: &mut W) -> io::Result<()>
    ensures { OnOk result (Appends (W.contents writer.old) (W.contents writer.new) (initialised_line per_ledger.count)) }
{
    let count = per_ledger.get();
    writeln!(writer, "initialised, {count} entries a ledger")
}

// Whether a file of a topic stands in the folder of this path, where there is one.
fn holds_topics<R: AllocGlobal + Files>(rt: &R, path: &str) -> io::Result<bool> {
    let entries = match fs::read_dir(&rt, path) {
        Ok(entries) => entries,
        Err(error) if error.kind() == ErrorKind::NotFound => return Ok(false),
        Err(error) => return Err(error),
    };
    for entry in entries {
        match entry {
            Ok(entry) if is_of_a_topic(entry.file_name()) => return Ok(true),
            // A name that is no text is none of ours.
            Err(error) if error.kind() != ErrorKind::InvalidFilename => return Err(error),
            Ok(_) | Err(_) => {}
        }
    }
    Ok(false)
}

// Whether a file of this name is one of a topic, of a folder of either version.
fn is_of_a_topic(name: &str) -> bool {
    (name.starts_with('t') || name.starts_with('u')) && name.ends_with(".dat")
}

// Why no node is made where files of topics stand. Nothing changes.
fn fault_over_topics<R: AllocGlobal + Log + Files<File = File>>(rt: &R, path: &str) -> FolderFault {
    match look_for_list(rt, path) {
        Ok(()) => FolderFault::AlreadyInitialised,
        Err(FolderFault::Refused(Refusal::NotInitialised)) => FolderFault::HoldsTopics,
        Err(fault) => fault,
    }
}

// Looks whether a list of topics stands in the folder, which stays as it is.
fn look_for_list<R: AllocGlobal + Log + Files<File = File>>(
    rt: &R,
    path: &str,
) -> Result<(), FolderFault> {
    let folder = Folder::as_it_is(rt, path)?;
    let mut shelf = folder.reading_shelf(rt)?;
    match Catalog::open_newest(rt.alloc(), &mut shelf) {
        Ok(_) => Ok(()),
        Err(refusal) => Err(fault_of_making(refusal)),
    }
}

/// Makes a node without topics on a device that has none. Where a list of topics is open, sound or not, nothing is made, whenever the
/// power is cut, and that is told; it is told nowhere else.
pub fn init_on<S: Shelf + Drop>(
    alloc: Global,
    per_ledger: EntriesPerLedger,
    shelf: &mut S,
) -> Result<(), FolderFault>
    ensures made { OnOk result ((S.disk shelf.old).honest → (url : List ℕ) →
        (state : State) × (state.broker ≡ fresh_broker per_ledger.count url) × AtRest (⟦<FileStores as TopicStore>⟧.stands) state (S.disk shelf.new)) }
    ensures once { (S.disk shelf.old).honest → HasList (S.disk shelf.old).seen → MakesNothing (S.disk shelf.old) (S.disk shelf.new) result }
    ensures already { (S.disk shelf.old).honest → IsErrOf result FolderFault.AlreadyInitialised → HasList (S.disk shelf.old).seen × Same (S.disk shelf.old).seen (S.disk shelf.new).seen }
    ensures faults { IfErr result IsFaultOfMaking }
    ensures cause { IsErrOf result (FolderFault.Refused Device) → Failed (S.disk shelf.old) (S.disk shelf.new) }
{
    match Catalog::open_newest(alloc, shelf) {
        Ok(_) => return Err(FolderFault::AlreadyInitialised),
        Err(Refusal::NotInitialised) => {}
        Err(refusal) => return Err(fault_of_making(refusal)),
    }
    Node::<FileStores, S>::init(alloc, per_ledger, shelf)?;
    Ok(())
}

// Why no node is made where the opening of a list of topics is refused. Behind an open header there is one, sound or not.
fn fault_of_making(refusal: Refusal) -> FolderFault
    ensures { result ≡ fault_of_making refusal }
{
    match refusal {
        Refusal::Damaged { .. } | Refusal::Version | Refusal::TooLarge => {
            FolderFault::AlreadyInitialised
        }
        Refusal::Device | Refusal::NotInitialised | Refusal::NoMemory => {
            FolderFault::Refused(refusal)
        }
    }
}
