ghost use Rattle.std.specs.Prelude.{◌≡◌};
ghost use Rattle.frames.specs.declared.fault.Fault.TheVariants.{NoMemory};
ghost use Rattle.frames.specs.Reading.{fault_of};

use commands::CommandFault;
use std::alloc::{AllocError, AllocFailed};
use thiserror::Error;

/// Why no further frame can be read. Our own rule: the first that stands, in this order, and each
/// as soon as the bytes show it; a size's once its bytes are there, the others with the whole frame.
#[derive(Clone, Copy, Debug, PartialEq, Eq, Error)]
pub enum Fault {
    #[error("the frame is larger than 5242880 bytes")]
    TooLarge,
    #[error("the sizes of the frame don't agree")]
    BadSizes,
    #[error("the command can't be read")]
    Unreadable,
    #[error("the command of this type is missing")]
    Missing,
    #[error("the part behind the command can't be read")]
    BadPayload,
    #[error("no memory")]
    NoMemory,
}

impl From<CommandFault> for Fault {
    ghost from_gives = { λ fault e. e ≡ fault_of fault };

    fn from(fault: CommandFault) -> Fault {
        match fault {
            CommandFault::Unreadable => Fault::Unreadable,
            CommandFault::Missing => Fault::Missing,
            CommandFault::NoMemory => Fault::NoMemory,
        }
    }
}

impl From<AllocError> for Fault {
    ghost from_gives = { λ _ e. e ≡ NoMemory };

    fn from(_error: AllocError) -> Fault {
        Fault::NoMemory
    }
}

impl<T: Drop> From<AllocFailed<T>> for Fault {
    ghost from_gives = { λ _ e. e ≡ NoMemory };

    fn from(_error: AllocFailed<T>) -> Fault {
        Fault::NoMemory
    }
}
