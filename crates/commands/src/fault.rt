ghost use Rattle.std.specs.Prelude.{◌≡◌};
ghost use Rattle.commands.specs.declared.fault.CommandFault.TheVariants.{Unreadable, NoMemory};

use proto_fields::FieldFault;
use std::alloc::{AllocError, AllocFailed};
use thiserror::Error;

/// Why no command can be read.
#[derive(Clone, Copy, Debug, PartialEq, Eq, Error)]
pub enum CommandFault {
    /// The bytes are no message, or a known field has a wrong wire type, value or is missing.
    #[error("the command can't be read")]
    Unreadable,
    /// The type is a client command's, and the field of that number is missing.
    #[error("the command of this type is missing")]
    Missing,
    #[error("no memory")]
    NoMemory,
}

impl From<FieldFault> for CommandFault {
    ghost from_gives = { λ _ e. e ≡ Unreadable };

    fn from(_fault: FieldFault) -> CommandFault {
        CommandFault::Unreadable
    }
}

impl From<AllocError> for CommandFault {
    ghost from_gives = { λ _ e. e ≡ NoMemory };

    fn from(_error: AllocError) -> CommandFault {
        CommandFault::NoMemory
    }
}

impl<T: Drop> From<AllocFailed<T>> for CommandFault {
    ghost from_gives = { λ _ e. e ≡ NoMemory };

    fn from(_error: AllocFailed<T>) -> CommandFault {
        CommandFault::NoMemory
    }
}
