// Why a store of a topic refuses a write.
ghost use Rattle.std.specs.Prelude.{◌≡◌};
ghost use Rattle.topic_stores.specs.declared.error.WriteError.TheVariants.{Device, NoMemory};

use disk::DeviceError;
use gated_log::Refusal;
use std::alloc::AllocError;
use thiserror::Error;

/// Why a write is refused.
#[derive(Clone, Copy, Debug, PartialEq, Eq, Error)]
pub enum WriteError {
    /// The device failed in this call, or in an earlier one that failed the store.
    #[error("device")]
    Device,
    /// A growth was refused. Nothing changed.
    #[error("no memory")]
    NoMemory,
}

impl From<DeviceError> for WriteError {
    ghost from_gives = { λ _ e. e ≡ Device };

    fn from(_: DeviceError) -> Self {
        WriteError::Device
    }
}

impl From<AllocError> for WriteError {
    ghost from_gives = { λ _ e. e ≡ NoMemory };

    fn from(_: AllocError) -> Self {
        WriteError::NoMemory
    }
}

impl From<WriteError> for Refusal {
    ghost use Rattle.topic_stores.specs.Writing.{refusal_of};

    ghost from_gives = { λ r e. e ≡ refusal_of r };

    fn from(error: WriteError) -> Self {
        match error {
            WriteError::Device => Refusal::Device,
            WriteError::NoMemory => Refusal::NoMemory,
        }
    }
}
