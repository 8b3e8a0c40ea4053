ghost use Rattle.std.specs.Prelude.{◌≡◌};
ghost use Rattle.script.specs.declared.script.ScriptFault.TheVariants as script_fault;
ghost use Rattle.replay.specs.Fault.{fault_of_script, fault_of_refusal};
ghost use Rattle.replay.specs.declared.fault.ProgramFault.TheVariants.{NoMemory};

use node::Refusal;
use script::ScriptFault;
use std::alloc::AllocError;
use std::io;
use std::io::Write;
use thiserror::Error;

/// Why the program ends early.
#[derive(Clone, Copy, Debug, PartialEq, Eq, Error)]
pub enum ProgramFault {
    /// The script can't be read, or a line can't be written.
    #[error("device")]
    Device,
    #[error("no memory")]
    NoMemory,
    /// The first bad line of the script, counted from 1.
    #[error("script line {0}")]
    ScriptLine(u64),
}

impl From<ScriptFault> for ProgramFault {
    ghost from_gives = { λ fault e. e ≡ fault_of_script fault };

    fn from(fault: ScriptFault) -> ProgramFault {
        match fault {
            ScriptFault::BadLine(number) => ProgramFault::ScriptLine(number),
            ScriptFault::NoMemory => ProgramFault::NoMemory,
        }
    }
}

impl From<Refusal> for ProgramFault {
    ghost from_gives = { λ refusal e. e ≡ fault_of_refusal refusal };

    fn from(refusal: Refusal) -> ProgramFault {
        match refusal {
            Refusal::NoMemory => ProgramFault::NoMemory,
            Refusal::Device
            | Refusal::Damaged { .. }
            | Refusal::NotInitialised
            | Refusal::Version
            | Refusal::TooLarge => ProgramFault::Device,
        }
    }
}

impl From<AllocError> for ProgramFault {
    ghost from_gives = { λ _ e. e ≡ NoMemory };

    fn from(_error: AllocError) -> ProgramFault {
        ProgramFault::NoMemory
    }
}

/// Writes the line that says why the program ends: `error: `, the fault's text and a line feed. A fault of the writer is
/// handed on, and how much went out isn't said.
pub fn write_fault<W: Write>(fault: &ProgramFault, writer: &mut W) -> io::Result<()> {
    writeln!(writer, "error: {fault}")
}

/// The status that the program exits with after a fault. Our own rule.
pub fn exit_status(fault: &ProgramFault) -> u8
    ensures { result ≡ 1 }
{
    match fault {
        ProgramFault::Device | ProgramFault::NoMemory | ProgramFault::ScriptLine(_) => 1,
    }
}
