//! The errors of tables: of what reads or writes a table's file, and of a builder.
ghost use Rattle.std.specs.Prelude.{◌≡◌};
ghost use Rattle.table_format.specs.declared.error.FileError.TheVariants.{Memory};
ghost use Rattle.table_format.specs.declared.error.TableError.TheVariants as table;
ghost use Rattle.table_format.specs.Errors.{file_error, table_error};

use disk::DiskError;
use std::alloc::{AllocError, AllocFailed};
use thiserror::Error;

/// Why the file of a table was not opened, read or written. Its numbers are those of `TableError`.
#[derive(Clone, Copy, Debug, PartialEq, Eq, Error)]
pub enum FileError {
    #[error("the device failed")]
    Disk = 1,
    /// The file does not exist, or its bytes represent no table.
    #[error("the file is no table")]
    Damaged = 2,
    #[error("out of memory")]
    Memory = 4,
}

impl From<DiskError> for FileError {
    ghost from_gives = { λ d e. e ≡ file_error d };

    fn from(e: DiskError) -> FileError {
        match e {
            DiskError::Failed => FileError::Disk,
            DiskError::Memory => FileError::Memory,
            DiskError::NoFile | DiskError::Short => FileError::Damaged,
        }
    }
}

impl From<AllocError> for FileError {
    ghost from_gives = { λ _ e. e ≡ Memory };

    fn from(_e: AllocError) -> FileError {
        FileError::Memory
    }
}

impl<T: Drop> From<AllocFailed<T>> for FileError {
    ghost from_gives = { λ _ e. e ≡ Memory };

    fn from(_e: AllocFailed<T>) -> FileError {
        FileError::Memory
    }
}

/// Why an entry was not added to a table, or the table was not finished. A builder answers
/// `Failed` after `Disk`, `Damaged` and `Memory`.
#[derive(Clone, Copy, Debug, PartialEq, Eq, Error)]
pub enum TableError {
    #[error("the device failed")]
    Disk = 1,
    /// The file lacks bytes that were written to it.
    #[error("the file is no table")]
    Damaged,
    /// The entry does not come behind the last that was added. The builder is unchanged.
    #[error("an entry is out of order")]
    Order,
    #[error("out of memory")]
    Memory,
    /// The blocks would have more than 2^33 bytes. The builder is unchanged.
    #[error("the table is full")]
    TooLarge,
    /// An earlier call failed. The builder is unchanged.
    #[error("the builder has failed before")]
    Failed,
}

impl From<FileError> for TableError {
    ghost from_gives = { λ f e. e ≡ table_error f };

    fn from(e: FileError) -> TableError {
        match e {
            FileError::Disk => TableError::Disk,
            FileError::Damaged => TableError::Damaged,
            FileError::Memory => TableError::Memory,
        }
    }
}

impl From<AllocError> for TableError {
    ghost from_gives = { λ _ e. e ≡ table.Memory };

    fn from(_e: AllocError) -> TableError {
        TableError::Memory
    }
}
