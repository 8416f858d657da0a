// The refusals of a manifest.
ghost use Rattle.std.specs.Prelude.{◌≡◌};
ghost use Rattle.manifest.specs.declared.error.ManifestError.TheVariants.{Memory};
ghost use Rattle.manifest.specs.Errors.{error_by_disk, error_by_edit, error_by_log};

use disk::DiskError;
use record_log::LogError;
use std::alloc::AllocError;
use thiserror::Error;
use version_edits::EditError;

/// Why a manifest refused. After any refusal of `record` or `rewrite` it answers `Failed` until it
/// is opened again. Then it has the old version or the new one.
#[derive(Clone, Copy, Debug, PartialEq, Eq, Error)]
pub enum ManifestError {
    #[error("the device failed")]
    Disk = 1,
    #[error("the files represent no version")]
    Damaged,
    #[error("no store was created")]
    NotCreated,
    #[error("out of memory")]
    Memory,
    #[error("the manifest has to be opened again")]
    Failed,
    #[error("the files have the old format")]
    OldFormat,
}

impl From<DiskError> for ManifestError {
    ghost from_gives = { λ d e. e ≡ error_by_disk d };

    fn from(e: DiskError) -> ManifestError {
        match e {
            DiskError::Failed => ManifestError::Disk,
            DiskError::Memory => ManifestError::Memory,
            DiskError::NoFile | DiskError::Short => ManifestError::Damaged,
        }
    }
}

impl From<LogError> for ManifestError {
    ghost from_gives = { λ l e. e ≡ error_by_log l };

    fn from(e: LogError) -> ManifestError {
        match e {
            LogError::Disk(e) => e.into(),
            LogError::Memory => ManifestError::Memory,
            LogError::TooLong | LogError::Failed => ManifestError::Failed,
        }
    }
}

impl From<EditError> for ManifestError {
    ghost from_gives = { λ d e. e ≡ error_by_edit d };

    fn from(e: EditError) -> ManifestError {
        match e {
            EditError::Damaged => ManifestError::Damaged,
            EditError::Memory => ManifestError::Memory,
        }
    }
}

impl From<AllocError> for ManifestError {
    ghost from_gives = { λ _ e. e ≡ Memory };

    fn from(_e: AllocError) -> ManifestError {
        ManifestError::Memory
    }
}
