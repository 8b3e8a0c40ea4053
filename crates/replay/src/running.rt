ghost use Rattle.std.specs.Prelude.{◌≡◌, ◌⊎◌, ℕ, List, Some};
ghost use Rattle.replay.specs.Cause.{DeviceOnlyIf, NewDeviceFailed};
ghost use Rattle.replay.specs.Replay.{IsAllOf, Replays};

use crate::fault::ProgramFault;
use crate::sink::Sink;
use crate::source::Source;
use crate::working::Replay;
use script::{Script, read_script};
use std::alloc::Global;

/// Runs the script that the source holds over a machine whose device is in memory, and writes a line for each of its lines. Where the
/// source's or the sink's bytes aren't known, the contract speaks of some bytes. A device fault is told of a source or a
/// sink that can fail, and where the files of the new broker can't be made; of a source and of the files before anything is
/// written.
pub fn replay<R: Source, W: Sink>(
    alloc: Global,
    source: &mut R,
    sink: &mut W,
) -> Result<(), ProgramFault>
    ensures replays { (bytes : List ℕ) × IsAllOf (R.remaining source.old) bytes
        × Replays bytes (W.contents sink.old) (W.contents sink.new) result }
    ensures cause { DeviceOnlyIf (((R.can_fail ⊎ NewDeviceFailed) × (sink.new ≡ sink.old)) ⊎ W.can_fail) result }
{
    let bytes = source.read_whole(alloc)?;
    replay_script(alloc, bytes.as_slice(), sink)
}

/// The same from memory to memory: a device fault is told only where the files of the new broker can't be made, and then nothing was
/// written.
pub fn replay_in_memory(
    alloc: Global,
    script: &[u8],
    lines: &mut Vec<u8>,
) -> Result<(), ProgramFault>
    ensures replays { Replays script.now (Some lines.old.items) (Some lines.new.items) result }
    ensures cause { DeviceOnlyIf (NewDeviceFailed × (lines.new ≡ lines.old)) result }
{
    let mut source = script;
    replay(alloc, &mut source, lines)
}

fn replay_script<W: Sink>(alloc: Global, bytes: &[u8], sink: &mut W) -> Result<(), ProgramFault>
    ensures replays { Replays bytes.now (W.contents sink.old) (W.contents sink.new) result }
    ensures cause { DeviceOnlyIf ((NewDeviceFailed × (sink.new ≡ sink.old)) ⊎ W.can_fail) result }
{
    let Script { per_ledger, lines } = read_script(alloc, bytes)?;
    let replay = Replay::begin(alloc, per_ledger as u32, sink)?;
    replay.work_lines(lines.into_vec(), sink)?;
    sink.finish()
}
