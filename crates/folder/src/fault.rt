// Why a command on a folder ends early.
ghost use Rattle.std.specs.Prelude.{◌≡◌};
ghost use Rattle.gated_log.specs.declared.refusal.Refusal.TheVariants.{NoMemory};
ghost use Rattle.folder.specs.declared.fault.FolderFault.TheVariants.{Refused};
ghost use Rattle.folder.specs.Faults.{IsFaultOf, IsFaultOfLock};

use gated_log::Refusal;
use log::{Log, warn};
use std::alloc::AllocError;
use std::fmt::Display;
use std::fs::TryLockError;
use std::io;
use std::io::ErrorKind;
use thiserror::Error;

/// The place of an error in writing lines.
pub(crate) const PRINTING: &str = "printing";

/// Why a command on a folder ends early.
#[derive(Clone, Copy, Debug, PartialEq, Eq, Error)]
pub enum FolderFault {
    /// The folder's files are refused, its device failed, or a line could not be written.
    #[error("{0}")]
    Refused(Refusal),
    /// The folder has a list of topics, sound or not.
    #[error("already initialised")]
    AlreadyInitialised,
    /// The folder has no list of topics, but files of topics, which a node that was made there would not know.
    #[error("not initialised")]
    HoldsTopics,
    /// Another process holds the folder, which is told as a failure of the device.
    #[error("device")]
    InUse,
}

impl From<Refusal> for FolderFault {
    ghost from_gives = { λ refusal e. e ≡ Refused refusal };

    fn from(refusal: Refusal) -> FolderFault {
        FolderFault::Refused(refusal)
    }
}

impl From<AllocError> for FolderFault {
    ghost from_gives = { λ _ e. e ≡ Refused NoMemory };

    fn from(_error: AllocError) -> FolderFault {
        FolderFault::Refused(Refusal::NoMemory)
    }
}

impl From<io::Error> for FolderFault {
    ghost from_gives = { λ error e. IsFaultOf error e };

    // Only a growth that was refused is of this kind and no error of the system.
    fn from(error: io::Error) -> FolderFault {
        if error.kind() == ErrorKind::OutOfMemory && error.raw_os_error().is_none() {
            return FolderFault::Refused(Refusal::NoMemory);
        }
        FolderFault::Refused(Refusal::Device)
    }
}

/// What an error at this place is told as. What the system said stands in the log before.
pub(crate) fn fault_at<P: Display, R: Log>(rt: &R, place: &P, error: io::Error) -> FolderFault
    ensures { IsFaultOf error result }
{
    let fault = FolderFault::from(error);
    if fault == FolderFault::Refused(Refusal::Device) {
        warn!(rt; "{place}: {error}");
    }
    fault
}

/// The same of a lock that isn't to be had.
pub(crate) fn fault_of_lock<P: Display, R: Log>(
    rt: &R,
    place: &P,
    error: TryLockError,
) -> FolderFault
    ensures { IsFaultOfLock error result }
{
    match error {
        TryLockError::WouldBlock => FolderFault::InUse,
        TryLockError::Error(error) => fault_at(rt, place, error),
    }
}

/// The status that a program exits with after a fault. Our own rule.
pub fn exit_status(fault: &FolderFault) -> u8
    ensures { result ≡ 1 }
{
    match fault {
        FolderFault::Refused(_)
        | FolderFault::AlreadyInitialised
        | FolderFault::HoldsTopics
        | FolderFault::InUse => 1,
    }
}
