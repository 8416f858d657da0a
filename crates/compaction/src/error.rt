// Why a merge refused.
ghost use Rattle.std.specs.Prelude.{◌≡◌};
ghost use Rattle.compaction.specs.declared.error.MergeError.TheVariants.{Memory};
ghost use Rattle.compaction.specs.Errors.{merge_error_of_cursor, merge_error_of_table};

use merge_iter::CursorError;
use std::alloc::{AllocError, AllocFailed};
use table_format::TableError;
use thiserror::Error;

/// Why a merge refused. After any refusal it answers `Failed`.
#[derive(Clone, Copy, Debug, PartialEq, Eq, Error)]
pub enum MergeError {
    /// The device failed.
    #[error("disk")]
    Disk = 1,
    /// The files of the inputs represent no tables.
    #[error("damaged")]
    Damaged,
    #[error("out of memory")]
    Memory,
    /// An earlier call ended the merge.
    #[error("an earlier call failed")]
    Failed,
    /// An output has no place: it would be a table or a file number more than there may be, or have
    /// more data than a table may have.
    #[error("full")]
    Full,
}

impl From<TableError> for MergeError {
    ghost from_gives = { λ t e. e ≡ merge_error_of_table t };

    fn from(e: TableError) -> MergeError {
        match e {
            TableError::Disk => MergeError::Disk,
            TableError::Memory => MergeError::Memory,
            TableError::TooLarge => MergeError::Full,
            TableError::Damaged | TableError::Order | TableError::Failed => MergeError::Damaged,
        }
    }
}

impl From<CursorError> for MergeError {
    ghost from_gives = { λ c e. e ≡ merge_error_of_cursor c };

    fn from(e: CursorError) -> MergeError {
        match e {
            CursorError::Disk => MergeError::Disk,
            CursorError::Memory => MergeError::Memory,
            CursorError::Damaged | CursorError::Failed => MergeError::Damaged,
        }
    }
}

impl From<AllocError> for MergeError {
    ghost from_gives = { λ _ e. e ≡ Memory };

    fn from(_e: AllocError) -> MergeError {
        MergeError::Memory
    }
}

impl<T: Drop> From<AllocFailed<T>> for MergeError {
    ghost from_gives = { λ _ e. e ≡ Memory };

    fn from(_e: AllocFailed<T>) -> MergeError {
        MergeError::Memory
    }
}
