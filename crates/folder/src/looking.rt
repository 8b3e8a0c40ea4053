// A node's files are looked at.
ghost use Rattle.std.specs.Prelude.{◌≡◌, ◌≢◌, ◌⊎◌, List, IfOk, IfErr, IsErrOf, OnOk};
ghost use Rattle.std.specs.Io.KnownBytes.{Appends};
ghost use Rattle.gated_log.specs.declared.refusal.Refusal.TheVariants.{Device, NoMemory};
ghost use Rattle.admin.specs.Status.{lines_of_all};
ghost use Rattle.node.specs.declared.status.TopicStatus.{TopicStatus};
ghost use Rattle.node.specs.Standing.{state_of, Stands};
ghost use Rattle.folder.specs.Faults.{IsOutage};
ghost use Rattle.folder.specs.Looking.{AreTold, AreCounted, AreFound, IsFaultOfLooking, DeviceFails};

use crate::fault::{FolderFault, PRINTING, fault_at};
use crate::held::Folder;
use crate::sink::Sink;
use admin::print_status;
use disk::Shelf;
use gated_log::Refusal;
use log::{Log, warn};
use node::{Node, ReplyText, Site, TopicStatus};
use std::alloc::{AllocError, Global};
use std::fs::File;
use std::io::Write;
use std::rt::Files;
use topic_core::{FileStores, TopicStore};

/// By which clients would find the broker of a folder that is only looked at.
const SERVICE_URL: &str = "pulsar://inspect";

/// Writes the status lines of the node in the folder of this path, as `inspect_on` does. Nothing is made but a lock file that a
/// list of topics lacks, and nothing is written to. A folder that may not be written and has no lock file is looked at without its
/// lock, which the log tells.
pub fn inspect<R: AllocGlobal + Log + Files<File = File>, W: Write>(
    rt: &R,
    path: &str,
    writer: &mut W,
) -> Result<(), FolderFault>
    ensures lines { OnOk result ((statuses : List TopicStatus) × Appends (W.contents writer.old) (W.contents writer.new) (lines_of_all statuses)) }
    ensures silent { IfErr result (λ fault. fault ≢ FolderFault.Refused Device → fault ≢ FolderFault.Refused NoMemory → writer.new ≡ writer.old) }
{
    let folder = Folder::look(rt, path)?;
    if !folder.is_locked() {
        warn!(rt; "the folder has no lock file and may not be written, so it isn't held");
    }
    let shelf = folder.reading_shelf(rt)?;
    inspect_on(rt, shelf, writer)
}

/// Writes the status lines of the node on this device: all of them or, after any fault but one of the writer, none. The node
/// is opened for it, which syncs its files and changes nothing.
pub fn inspect_on<R: AllocGlobal + Log, S: Shelf + Drop, W: Sink>(
    rt: &R,
    shelf: S,
    writer: &mut W,
) -> Result<(), FolderFault>
    // Where the device is honest, they are those of the node that its files stand for.
    ensures found { (S.disk shelf).honest → OnOk result ((statuses : List TopicStatus) × AreFound (⟦<FileStores as TopicStore>⟧.stands) (⟦<FileStores as TopicStore>⟧.laid) (S.disk shelf).seen statuses
        × Appends (W.contents writer.old) (W.contents writer.new) (lines_of_all statuses)) }
    ensures refused { (S.disk shelf).honest → IfErr result (IsFaultOfLooking (⟦<FileStores as TopicStore>⟧.stands) (⟦<FileStores as TopicStore>⟧.faulty) (S.disk shelf).seen) }

    // `Device` is told where that failed in the call, or where the topics were found and the writer failed.
    ensures cause { IsErrOf result (FolderFault.Refused Device) → DeviceFails S.disk shelf
        ⊎ (W.can_fail × ((S.disk shelf).honest → (statuses : List TopicStatus) × AreFound (⟦<FileStores as TopicStore>⟧.stands) (⟦<FileStores as TopicStore>⟧.laid) (S.disk shelf).seen statuses)) }
    ensures lines { OnOk result ((statuses : List TopicStatus) × Appends (W.contents writer.old) (W.contents writer.new) (lines_of_all statuses)) }
    ensures silent { IfErr result (λ fault. fault ≢ FolderFault.Refused Device → fault ≢ FolderFault.Refused NoMemory → writer.new ≡ writer.old) }
{
    let statuses = statuses_on(rt.alloc(), shelf)?;
    write_lines(rt, statuses.as_slice(), writer)
}

// Writes the status lines of topics, of which nothing is written where memory for them is refused.
fn write_lines<R: AllocGlobal + Log, W: Sink>(
    rt: &R,
    statuses: &[TopicStatus],
    writer: &mut W,
) -> Result<(), FolderFault>
    ensures lines { OnOk result (Appends (W.contents writer.old) (W.contents writer.new) (lines_of_all statuses.now)) }
    ensures faults { IfErr result IsOutage }
    ensures cause { IsErrOf result (FolderFault.Refused Device) → W.can_fail }
{
    let mut lines = Vec::new(rt.alloc());
    // A writer in memory fails for want of it alone.
    if print_status(statuses, &mut lines).is_err() {
        return Err(FolderFault::Refused(Refusal::NoMemory));
    }
    match writer.write_whole(lines.as_slice()) {
        Ok(()) => Ok(()),
        Err(error) => Err(fault_at(rt, &PRINTING, error)),
    }
}

// What all topics of the node on this device have, in the order of their numbers.
fn statuses_on<S: Shelf + Drop>(alloc: Global, shelf: S) -> Result<Vec<TopicStatus>, FolderFault>
    ensures found { (S.disk shelf).honest → IfOk result (λ statuses. AreFound (⟦<FileStores as TopicStore>⟧.stands) (⟦<FileStores as TopicStore>⟧.laid) (S.disk shelf).seen statuses.items) }
    ensures refused { (S.disk shelf).honest → IfErr result (IsFaultOfLooking (⟦<FileStores as TopicStore>⟧.stands) (⟦<FileStores as TopicStore>⟧.faulty) (S.disk shelf).seen) }
    ensures cause { IsErrOf result (FolderFault.Refused Device) → DeviceFails S.disk shelf }
{
    let text = String::from_str(alloc, SERVICE_URL)?;
    let url = ReplyText::new(text);
    let node = match Node::open(alloc, Site { url, shelf }) {
        Ok(node) => node,
        Err((refusal, _)) => return Err(FolderFault::Refused(refusal)),
    };
    let told = statuses(alloc, &node);
    drop(node);
    Ok(told?)
}

// What all topics of the node have.
fn statuses<S: Shelf>(
    alloc: Global,
    node: &Node<FileStores, S>,
) -> Result<Vec<TopicStatus>, AllocError>
    ensures told { Stands S.disk node.now → IfOk result (λ statuses. AreTold (state_of S.disk node.now) statuses.items) }
    ensures files { Stands S.disk node.now → IfOk result (λ statuses. AreCounted (⟦<FileStores as TopicStore>⟧.laid) node.now.topics.held.items (S.disk node.now.topics.shelf).seen statuses.items) }
{
    let mut statuses = Vec::new(alloc);
    while let Some(status) = node.status(statuses.len() as u64)? {
        statuses.push(status)?;
    }
    Ok(statuses)
}
