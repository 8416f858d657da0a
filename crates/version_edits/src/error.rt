// The refusals of edits that are read.
ghost use Rattle.std.specs.Prelude.{◌≡◌};
ghost use Rattle.version_edits.specs.declared.error.EditError.TheVariants.{Memory};

use std::alloc::{AllocError, AllocFailed};
use thiserror::Error;

/// Why bytes or records give no version.
#[derive(Clone, Copy, Debug, PartialEq, Eq, Error)]
pub enum EditError {
    /// The bytes are no edit, or an edit that the version before it may not take.
    #[error("the records give no version")]
    Damaged,
    #[error("out of memory")]
    Memory,
}

impl From<AllocError> for EditError {
    ghost from_gives = { λ _ e. e ≡ Memory };

    fn from(_e: AllocError) -> EditError {
        EditError::Memory
    }
}

impl<T: Drop> From<AllocFailed<T>> for EditError {
    ghost from_gives = { λ _ e. e ≡ Memory };

    fn from(_e: AllocFailed<T>) -> EditError {
        EditError::Memory
    }
}
