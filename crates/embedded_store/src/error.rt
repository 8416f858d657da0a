// Why a store was not opened, or a batch not written once.
ghost use Rattle.std.specs.Prelude.{◌≡◌};
ghost use Rattle.engine.specs.EngineError.TheVariants.{Memory};
ghost use Rattle.embedded_store.specs.Errors.{disk_refusal, lock_refusal};
ghost use Rattle.embedded_store.specs.declared.error.OnceError.TheVariants as once;
ghost use Rattle.embedded_store.specs.declared.error.OpenError.TheVariants.{Store};

use dir_disk::LockError;
use disk::DiskError;
use engine::EngineError;
use std::alloc::AllocError;
use thiserror::Error;

/// Why a store was not opened. A store that is there stays, also one of a chain, but for files that
/// it does not name; behind `Damaged`, `NotCreated` and `OldFormat` every file does.
#[derive(Clone, Copy, Debug, PartialEq, Eq, Error)]
pub enum OpenError {
    /// Another user has locked the folder.
    #[error("the folder is in use")]
    InUse,
    /// The files are those of a node of a chain of others.
    #[error("the store of a chain's node")]
    OfChain,
    /// For the device, for want of memory, or for the files: `Damaged`, `OldFormat` where they are
    /// those of a store of the old format, and `NotCreated` where no store was created, and
    /// something is there.
    #[error("{0}")]
    Store(EngineError),
}

impl From<EngineError> for OpenError {
    ghost from_gives = { λ cause e. e ≡ Store cause };

    fn from(cause: EngineError) -> OpenError {
        OpenError::Store(cause)
    }
}

impl From<DiskError> for OpenError {
    ghost from_gives = { λ cause e. e ≡ disk_refusal cause };

    // The files of a disk are listed and measured.
    fn from(cause: DiskError) -> OpenError {
        OpenError::Store(match cause {
            DiskError::Failed => EngineError::Disk,
            DiskError::NoFile | DiskError::Short => EngineError::Damaged,
            DiskError::Memory => EngineError::Memory,
        })
    }
}

impl From<LockError> for OpenError {
    ghost from_gives = { λ cause e. e ≡ lock_refusal cause };

    fn from(cause: LockError) -> OpenError {
        match cause {
            LockError::InUse => OpenError::InUse,
            LockError::Failed => OpenError::Store(EngineError::Disk),
            LockError::Memory => OpenError::Store(EngineError::Memory),
        }
    }
}

impl From<AllocError> for OpenError {
    ghost from_gives = { λ _ e. e ≡ Store Memory };

    fn from(_e: AllocError) -> OpenError {
        OpenError::Store(EngineError::Memory)
    }
}

/// Why a batch was not written once. Behind `OldRequest` nothing is written.
#[derive(Clone, Copy, Debug, PartialEq, Eq, Error)]
pub enum OnceError {
    /// The last mark of the client in the list is of a greater request.
    #[error("an old request")]
    OldRequest,
    /// As a write is refused; or `Damaged`, where the mark would be in a damaged block of a table.
    #[error("{0}")]
    Store(EngineError),
}

impl From<EngineError> for OnceError {
    ghost from_gives = { λ cause e. e ≡ once.Store cause };

    fn from(cause: EngineError) -> OnceError {
        OnceError::Store(cause)
    }
}
