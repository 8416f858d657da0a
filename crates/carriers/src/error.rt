// Why a run, or what was to be carried in it, came to no end.
ghost use Rattle.std.specs.Prelude.{◌≡◌};
ghost use Rattle.carriers.specs.declared.error.LabError.TheVariants.{Memory};

use std::alloc::{AllocError, AllocFailed};
use thiserror::Error;

/// Why a run has no report.
#[derive(Clone, Copy, Debug, PartialEq, Eq, Error)]
pub enum LabError {
    /// Memory ran out, also where a node could not be created; no number is left for an event; or
    /// the world is at its end.
    #[error("out of memory")]
    Memory = 1,
}

impl From<AllocError> for LabError {
    ghost from_gives = { λ _ e. e ≡ Memory };

    fn from(_e: AllocError) -> LabError {
        LabError::Memory
    }
}

impl<T: Drop> From<AllocFailed<T>> for LabError {
    ghost from_gives = { λ _ e. e ≡ Memory };

    fn from(_e: AllocFailed<T>) -> LabError {
        LabError::Memory
    }
}
