//! Why a run of a script ended early.
ghost use Rattle.std.specs.Prelude.{◌≡◌};
ghost use Rattle.client.specs.declared.run_error.RunError.TheVariants.{Memory, Write};

use lab::LabError;
use std::alloc::AllocError;
use std::io;
use thiserror::Error;

/// Why a run of a script ended early.
#[derive(Clone, Copy, Debug, PartialEq, Eq, Error)]
pub enum RunError {
    #[error("the output takes no more")]
    Write = 1,
    #[error("out of memory")]
    Memory,
}

impl From<LabError> for RunError {
    ghost from_gives = { λ _ e. e ≡ Memory };

    fn from(_e: LabError) -> RunError {
        RunError::Memory
    }
}

impl From<AllocError> for RunError {
    ghost from_gives = { λ _ e. e ≡ Memory };

    fn from(_e: AllocError) -> RunError {
        RunError::Memory
    }
}

impl From<io::Error> for RunError {
    ghost from_gives = { λ _ e. e ≡ Write };

    fn from(_e: io::Error) -> RunError {
        RunError::Write
    }
}
