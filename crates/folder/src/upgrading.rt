// A folder of version 2 is made of one of version 1.
ghost use Rattle.std.specs.Prelude.{◌≡◌, ◌≢◌, ◌⊎◌, IfErr, OnOk, IsErrOf};
ghost use Rattle.std.specs.Io.KnownBytes.{Appends};
ghost use Rattle.disk.specs.Disk.{Image, Leaves, Kept, Failed};
ghost use Rattle.gated_log.specs.declared.refusal.Refusal.TheVariants.{Device, NoMemory};
ghost use Rattle.node.specs.declared.upgrading.Upgraded.{Upgraded};
ghost use Rattle.node.specs.Upgrading.{Content, IsOld, IsNew};
ghost use Rattle.folder.specs.Faults.{IsOutage};
ghost use Rattle.folder.specs.Upgrading.{upgraded_line, Upgrades, IsFaultOfUpgrade};

use crate::fault::{FolderFault, PRINTING, fault_at};
use crate::held::Folder;
use crate::sink::Sink;
use disk::Shelf;
use gated_log::Refusal;
use log::Log;
use node::Upgraded;
use std::fs::File;
use std::io;
use std::io::Write;
use std::rt::Files;

/// Makes a folder of version 2 of the one of version 1 of this path, as `upgrade_on` does, while this process holds it. Nothing is made
/// but that and a lock file that a list of topics lacks.
pub fn upgrade<R: AllocGlobal + Log + Files<File = File>, W: Write>(
    rt: &R,
    path: &str,
    writer: &mut W,
) -> Result<(), FolderFault>
    ensures line { OnOk result ((u : Upgraded) × Appends (W.contents writer.old) (W.contents writer.new) (upgraded_line u)) }
    ensures silent { IfErr result (λ fault. fault ≢ FolderFault.Refused Device → fault ≢ FolderFault.Refused NoMemory → writer.new ≡ writer.old) }
{
    let folder = Folder::open(rt, path)?;
    let mut shelf = folder.shelf(rt)?;
    upgrade_on(rt, &mut shelf, writer)
}

/// Makes a folder of version 2 of the one of version 1 on this device, as `node::upgrade` does, and writes a line that says how many
/// topics it has, or that it was one already; none after any fault but one of the writer.
pub fn upgrade_on<R: AllocGlobal + Log, S: Shelf, W: Sink>(
    rt: &R,
    shelf: &mut S,
    writer: &mut W,
) -> Result<(), FolderFault>
    // A crash at any moment leaves a folder of version 1 or of version 2, of one content.
    ensures within { (x : Content) → (S.disk shelf.old).honest → ((c : Image) → (S.disk shelf.old).may_leave c → IsOld x c ⊎ IsNew x c) →
        Leaves (λ c. IsOld x c ⊎ IsNew x c) (S.disk shelf.old) (S.disk shelf.new) }
    // Where the device is honest, the line says what became of the files.
    ensures upgrades { (S.disk shelf.old).honest → OnOk result ((u : Upgraded) × Upgrades (S.disk shelf.old) (S.disk shelf.new) u × Appends (W.contents writer.old) (W.contents writer.new) (upgraded_line u)) }
    ensures refused { (S.disk shelf.old).honest → IfErr result (IsFaultOfUpgrade (S.disk shelf.old).seen) }
    ensures cause { IsErrOf result (FolderFault.Refused Device) → Failed (S.disk shelf.old) (S.disk shelf.new) ⊎ W.can_fail }
    ensures line { OnOk result ((u : Upgraded) × Appends (W.contents writer.old) (W.contents writer.new) (upgraded_line u)) }
    ensures silent { IfErr result (λ fault. fault ≢ FolderFault.Refused Device → fault ≢ FolderFault.Refused NoMemory → writer.new ≡ writer.old) }
    ensures kept { Kept (S.disk shelf.old) (S.disk shelf.new) }
{
    let upgraded = node::upgrade(rt.alloc(), shelf)?;
    write_line(rt, upgraded, writer)
}

// Writes the line, of which nothing is written where memory for it is refused.
fn write_line<R: AllocGlobal + Log, W: Sink>(
    rt: &R,
    upgraded: Upgraded,
    writer: &mut W,
) -> Result<(), FolderFault>
    ensures line { OnOk result (Appends (W.contents writer.old) (W.contents writer.new) (upgraded_line upgraded)) }
    ensures faults { IfErr result IsOutage }
    ensures cause { IsErrOf result (FolderFault.Refused Device) → W.can_fail }
{
    let mut line = Vec::new(rt.alloc());
    // A writer in memory fails for want of it alone.
    if spell_line(upgraded, &mut line).is_err() {
        return Err(FolderFault::Refused(Refusal::NoMemory));
    }
    match writer.write_whole(line.as_slice()) {
        Ok(()) => Ok(()),
        Err(error) => Err(fault_at(rt, &PRINTING, error)),
    }
}

// Our own rule.
fn spell_line<W: Write>(upgraded: Upgraded, writer: &mut W) -> io::Result<()>
    ensures { OnOk result (Appends (W.contents writer.old) (W.contents writer.new) (upgraded_line upgraded)) }
{
    match upgraded {
        Upgraded::Done(topics) => writeln!(writer, "upgraded, {topics} topics"),
        Upgraded::Already => writeln!(writer, "already version 2"),
    }
}
