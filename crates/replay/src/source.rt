ghost use Rattle.std.specs.Prelude.{◌≡◌, ℕ, List, Option, Some, ⊤, IfOk, IfErr};
ghost use Rattle.replay.specs.Cause.{DeviceOnlyIf};
ghost use Rattle.replay.specs.Replay.{IsAllOf, IsOutage};

use crate::fault::ProgramFault;
use std::alloc::Global;
use std::io;
use std::io::{ErrorKind, Read};

/// Where the bytes of a script come from: a reader, or a slice in memory.
pub trait Source {
    // What it has left, where that is known.
    ghost remaining: { Self → Option (List ℕ) };

    // That there is a device that may fail it.
    ghost can_fail: { Type 0 };

    /// All that it has left. After a fault nothing is said of what is.
    fn read_whole(&mut self, alloc: Global) -> Result<Vec<u8>, ProgramFault>
        ensures whole { IfOk result (λ bytes. IsAllOf (remaining self.old) bytes.items) }
        ensures fault { IfErr result IsOutage }
        ensures cause { DeviceOnlyIf can_fail result };
}

/// A reader as a source. One that fails is a device fault; a signal that interrupts it isn't.
#[derive(Drop)]
pub struct FromReader<R>(pub R);

impl<R: Read> Source for FromReader<R> {
    ghost remaining = { λ source. R.remaining source.0 };

    ghost can_fail = { ⊤ };

    fn read_whole(&mut self, alloc: Global) -> Result<Vec<u8>, ProgramFault> {
        let mut bytes = Vec::new(alloc);
        match self.0.read_to_end(&mut bytes) {
            Ok(_) => Ok(bytes),
            Err(error) => Err(fault_of_read(&error)),
        }
    }
}

impl Source for &[u8] {
    ghost remaining = { λ source. Some source.now };

    ghost can_fail = { ⊥ };

    fn read_whole(&mut self, alloc: Global) -> Result<Vec<u8>, ProgramFault> {
        let mut bytes = Vec::new(alloc);
        bytes.extend_from_slice(self)?;
        *self = &[];
        Ok(bytes)
    }
}

// Only a buffer that can't grow is of this kind and no error of the system.
fn fault_of_read(error: &io::Error) -> ProgramFault
    ensures { IsOutage result }
{
    if error.kind() == ErrorKind::OutOfMemory && error.raw_os_error().is_none() {
        ProgramFault::NoMemory
    } else {
        ProgramFault::Device
    }
}
