// Why a read is refused.
ghost use Rattle.std.specs.Prelude.{◌≡◌};
ghost use Rattle.gated_log.specs.declared.read_error.ReadError.TheVariants.{Device, NoMemory};

use crate::Refusal;
use disk::{DeviceError, FileId};
use std::alloc::{AllocError, AllocFailed};
use thiserror::Error;

/// Why a read of a store that is open is refused.
#[derive(Clone, Copy, Debug, PartialEq, Eq, Error)]
pub enum ReadError {
    /// The device failed in this call, or in an earlier one that failed the store.
    #[error("device")]
    Device,
    /// This file ends before bytes that the store remembers to stand at this offset of it.
    #[error("damaged {file} at {offset}")]
    Damaged { file: FileId, offset: u64 },
    /// A growth was refused. Nothing changed.
    #[error("no memory")]
    NoMemory,
}

impl From<DeviceError> for ReadError {
    ghost from_gives = { λ _ e. e ≡ Device };

    fn from(_: DeviceError) -> Self {
        ReadError::Device
    }
}

impl From<AllocError> for ReadError {
    ghost from_gives = { λ _ e. e ≡ NoMemory };

    fn from(_: AllocError) -> Self {
        ReadError::NoMemory
    }
}

impl<T: Drop> From<AllocFailed<T>> for ReadError {
    ghost from_gives = { λ _ e. e ≡ NoMemory };

    fn from(_: AllocFailed<T>) -> Self {
        ReadError::NoMemory
    }
}

impl From<ReadError> for Refusal {
    ghost use Rattle.gated_log.specs.Refusals.{refusal_of};

    ghost from_gives = { λ r e. e ≡ refusal_of r };

    fn from(error: ReadError) -> Self {
        match error {
            ReadError::Device => Refusal::Device,
            ReadError::Damaged { file, offset } => Refusal::Damaged { file, offset },
            ReadError::NoMemory => Refusal::NoMemory,
        }
    }
}
