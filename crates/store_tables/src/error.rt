//! Why a store refused.
ghost use Rattle.std.specs.Prelude.{◌≡◌};
ghost use Rattle.store_tables.specs.declared.error.EngineError.TheVariants.{Memory};
ghost use Rattle.store_tables.specs.Errors.{error_of_cursor, error_of_disk, error_of_edit};
ghost use Rattle.store_tables.specs.Errors.{error_of_log};
ghost use Rattle.store_tables.specs.Errors.{error_of_manifest, error_of_memtable};

use disk::DiskError;
use manifest::ManifestError;
use memtable::MemtableError;
use merge_iter::CursorError;
use record_log::LogError;
use std::alloc::{AllocError, AllocFailed};
use thiserror::Error;

/// Why a store refused. After `Disk`, `Damaged` or `Memory` an engine answers `Failed` until it is
/// opened again; the other refusals change nothing.
#[derive(Clone, Copy, Debug, PartialEq, Eq, Error)]
pub enum EngineError {
    /// The device failed.
    #[error("disk")]
    Disk = 1,
    /// The files represent no store.
    #[error("damaged")]
    Damaged,
    #[error("out of memory")]
    Memory,
    /// No store was created on this disk.
    #[error("not created")]
    NotCreated,
    /// An earlier call ended the engine.
    #[error("an earlier call failed")]
    Failed,
    /// The number is below the floor.
    #[error("too old")]
    TooOld,
    /// The number is above the committed number.
    #[error("not committed")]
    NotCommitted,
    /// No snapshot at the number is open.
    #[error("no such snapshot")]
    NoSuchSnapshot,
    /// As many snapshots are open as may be.
    #[error("too many snapshots")]
    TooManySnapshots,
    /// No number is left for a batch.
    #[error("exhausted")]
    Exhausted,
    /// The files are those of a store of the old format.
    #[error("old format")]
    OldFormat,
}

impl From<DiskError> for EngineError {
    ghost from_gives = { λ d e. e ≡ error_of_disk d };

    fn from(e: DiskError) -> EngineError {
        match e {
            DiskError::Failed => EngineError::Disk,
            DiskError::NoFile | DiskError::Short => EngineError::Damaged,
            DiskError::Memory => EngineError::Memory,
        }
    }
}

impl From<LogError> for EngineError {
    ghost from_gives = { λ l e. e ≡ error_of_log l };

    fn from(e: LogError) -> EngineError {
        match e {
            LogError::Disk(e) => EngineError::from(e),
            LogError::Memory => EngineError::Memory,
            LogError::TooLong | LogError::Failed => EngineError::Damaged,
        }
    }
}

impl From<ManifestError> for EngineError {
    ghost from_gives = { λ m e. e ≡ error_of_manifest m };

    fn from(e: ManifestError) -> EngineError {
        match e {
            ManifestError::Disk => EngineError::Disk,
            ManifestError::Damaged => EngineError::Damaged,
            ManifestError::NotCreated => EngineError::NotCreated,
            ManifestError::Memory => EngineError::Memory,
            ManifestError::Failed => EngineError::Failed,
            ManifestError::OldFormat => EngineError::OldFormat,
        }
    }
}

/// Why a manifest that works was not changed. It refuses an edit otherwise only where the disk did
/// not keep what was written.
pub fn refusal_of_edit(e: ManifestError) -> EngineError
    ensures { result ≡ error_of_edit e }
{
    match e {
        ManifestError::Disk => EngineError::Disk,
        ManifestError::Memory => EngineError::Memory,
        ManifestError::Damaged
        | ManifestError::NotCreated
        | ManifestError::Failed
        | ManifestError::OldFormat => EngineError::Damaged,
    }
}

impl From<MemtableError> for EngineError {
    ghost from_gives = { λ m e. e ≡ error_of_memtable m };

    fn from(e: MemtableError) -> EngineError {
        match e {
            MemtableError::Memory => EngineError::Memory,
            MemtableError::Failed => EngineError::Failed,
        }
    }
}

impl From<CursorError> for EngineError {
    ghost from_gives = { λ c e. e ≡ error_of_cursor c };

    fn from(e: CursorError) -> EngineError {
        match e {
            CursorError::Disk => EngineError::Disk,
            CursorError::Damaged => EngineError::Damaged,
            CursorError::Memory => EngineError::Memory,
            CursorError::Failed => EngineError::Failed,
        }
    }
}

impl From<AllocError> for EngineError {
    ghost from_gives = { λ _ e. e ≡ Memory };

    fn from(_e: AllocError) -> EngineError {
        EngineError::Memory
    }
}

impl<T: Drop> From<AllocFailed<T>> for EngineError {
    ghost from_gives = { λ _ e. e ≡ Memory };

    fn from(_e: AllocFailed<T>) -> EngineError {
        EngineError::Memory
    }
}
