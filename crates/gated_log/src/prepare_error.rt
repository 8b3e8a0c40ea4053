// Why nothing is prepared.
ghost use Rattle.std.specs.Prelude.{◌≡◌};
ghost use Rattle.gated_log.specs.declared.prepare_error.PrepareError.TheVariants.{NoMemory};

use crate::Refusal;
use std::alloc::{AllocError, AllocFailed};
use thiserror::Error;

/// Our own rule: why what an append writes isn't prepared.
#[derive(Clone, Copy, Debug, PartialEq, Eq, Error)]
pub enum PrepareError {
    /// A body of more bytes than a batch takes. Nothing changed.
    #[error("too large")]
    TooLarge,
    /// A growth was refused. Nothing changed.
    #[error("no memory")]
    NoMemory,
}

impl From<AllocError> for PrepareError {
    ghost from_gives = { λ _ e. e ≡ NoMemory };

    fn from(_: AllocError) -> Self {
        PrepareError::NoMemory
    }
}

impl<T: Drop> From<AllocFailed<T>> for PrepareError {
    ghost from_gives = { λ _ e. e ≡ NoMemory };

    fn from(_: AllocFailed<T>) -> Self {
        PrepareError::NoMemory
    }
}

impl From<PrepareError> for Refusal {
    ghost use Rattle.gated_log.specs.Refusals.{unprepared};

    ghost from_gives = { λ error e. e ≡ unprepared error };

    fn from(error: PrepareError) -> Self {
        match error {
            PrepareError::TooLarge => Refusal::TooLarge,
            PrepareError::NoMemory => Refusal::NoMemory,
        }
    }
}
