// Why a folder isn't served.
ghost use Rattle.std.specs.Prelude.{◌≡◌};

use folder::FolderFault;
use gated_log::Refusal;
use std::alloc::AllocError;
use thiserror::Error;

/// Why a folder isn't served.
#[derive(Clone, Copy, Debug, PartialEq, Eq, Error)]
pub enum ServeFault {
    /// The folder isn't to be had, its files are refused, or its device failed.
    #[error("{0}")]
    Folder(FolderFault),
    /// The address can't be listened at.
    #[error("cannot bind")]
    CannotBind,
    /// A line can't be written, or a thread can't be made.
    #[error("device")]
    Device,
}

impl From<FolderFault> for ServeFault {
    fn from(fault: FolderFault) -> ServeFault {
        ServeFault::Folder(fault)
    }
}

impl From<Refusal> for ServeFault {
    fn from(refusal: Refusal) -> ServeFault {
        ServeFault::Folder(FolderFault::Refused(refusal))
    }
}

impl From<AllocError> for ServeFault {
    fn from(_error: AllocError) -> ServeFault {
        ServeFault::from(Refusal::NoMemory)
    }
}

/// The status that a program exits with after a fault. Our own rule.
pub fn exit_status(fault: &ServeFault) -> u8
    ensures { result ≡ 1 }
{
    match fault {
        ServeFault::Folder(_) | ServeFault::CannotBind | ServeFault::Device => 1,
    }
}
