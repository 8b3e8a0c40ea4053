ghost use Rattle.std.specs.Prelude.{◌≡◌, ◌≤◌, ℕ, List, Option, Some, ⊤, [], length, take, IfOk, IfErr};
ghost use Rattle.std.specs.Io.KnownBytes.{Appends, Keeps};
ghost use Rattle.replay.specs.Cause.{DeviceOnlyIf};
ghost use Rattle.replay.specs.Replay.{Writes};

use crate::fault::ProgramFault;
use std::io::{ErrorKind, Write};

/// Where the lines of a replay go: a writer, or a vector in memory.
pub trait Sink {
    // The bytes that it holds, where they are known.
    ghost contents: { Self → Option (List ℕ) };

    // That there is a device that may fail it.
    ghost can_fail: { Type 0 };

    /// Writes all the bytes, or a front of them where its device fails, or none where memory is refused.
    fn write_whole(&mut self, bytes: &[u8]) -> Result<(), ProgramFault>
        ensures writes { Writes bytes.now (contents self.old) (contents self.new) result }
        ensures cause { DeviceOnlyIf can_fail result };

    /// Hands on what it may still keep to itself. It takes no memory.
    fn finish(&mut self) -> Result<(), ProgramFault>
        ensures kept { Keeps (contents self.old) (contents self.new) }
        ensures fault { IfErr result (λ fault. fault ≡ ProgramFault.Device) }
        ensures cause { DeviceOnlyIf can_fail result };
}

/// A writer as a sink. One that fails, or takes nothing, is a device fault; a signal that interrupts it isn't.
#[derive(Drop)]
pub struct ToWriter<W>(pub W);

impl<W: Write> Sink for ToWriter<W> {
    ghost contents = { λ sink. W.contents sink.0 };

    ghost can_fail = { ⊤ };

    fn write_whole(&mut self, bytes: &[u8]) -> Result<(), ProgramFault> {
        write_whole(bytes, &mut self.0)
    }

    fn finish(&mut self) -> Result<(), ProgramFault> {
        match self.0.flush() {
            Ok(()) => Ok(()),
            Err(_) => Err(ProgramFault::Device),
        }
    }
}

impl Sink for Vec<u8> {
    ghost contents = { λ sink. Some sink.items };

    ghost can_fail = { ⊥ };

    fn write_whole(&mut self, bytes: &[u8]) -> Result<(), ProgramFault> {
        self.extend_from_slice(bytes)?;
        Ok(())
    }

    fn finish(&mut self) -> Result<(), ProgramFault> {
        Ok(())
    }
}

// Writes all the bytes, or a front of them where the writer fails.
fn write_whole<W: Write>(bytes: &[u8], writer: &mut W) -> Result<(), ProgramFault>
    ensures { Writes bytes.now (W.contents writer.old) (W.contents writer.new) result }
{
    let mut written = 0;
    for _ in 0..u64::MAX {
        if written == bytes.len() {
            return Ok(());
        }
        written += write_some(&bytes[written..], writer)?;
    }
    Err(ProgramFault::Device)
}

// One write, and how many of the bytes it took: none where a signal interrupted it.
fn write_some<W: Write>(bytes: &[u8], writer: &mut W) -> Result<usize, ProgramFault>
    ensures bound { IfOk result (λ count. count ≤ length bytes.now) }
    ensures ok { IfOk result (λ count. Appends (W.contents writer.old) (W.contents writer.new) (take count bytes.now)) }
    ensures err { IfErr result (λ fault. (fault ≡ ProgramFault.Device) × Appends (W.contents writer.old) (W.contents writer.new) []) }
{
    match writer.write(bytes) {
        Ok(0) => Err(ProgramFault::Device),
        Ok(count) => Ok(count),
        Err(error) if error.kind() == ErrorKind::Interrupted => Ok(0),
        Err(_) => Err(ProgramFault::Device),
    }
}
