// The refusals of a log.
ghost use Rattle.std.specs.Prelude.{◌≡◌};
ghost use Rattle.record_log.specs.declared.error.LogError.TheVariants.{Memory};
ghost use Rattle.record_log.specs.Error.{log_error};

use disk::DiskError;
use std::alloc::AllocError;
use thiserror::Error;

/// Why a log refused. After `Disk` or `Memory` in `append`, `append` and `record` answer `Failed`
/// until the log is opened again, and then it has the old records, with or without the new one.
/// `len`, `first_len` and `gate` still answer, but only of `len` is it said what: the number of the
/// old records.
#[derive(Clone, Copy, Debug, PartialEq, Eq, Error)]
pub enum LogError {
    /// The device failed, the file does not exist, or its bytes represent no records (`Short`).
    #[error("disk: {0}")]
    Disk(DiskError),
    /// A record is longer than 16,777,216 bytes. The log is unchanged.
    #[error("a record is longer than 16,777,216 bytes")]
    TooLong,
    #[error("out of memory")]
    Memory,
    /// An earlier `append` failed. The log is unchanged.
    #[error("the log has to be opened again")]
    Failed,
}

impl From<DiskError> for LogError {
    ghost from_gives = { λ d e. e ≡ log_error d };

    fn from(e: DiskError) -> LogError {
        match e {
            DiskError::Memory => LogError::Memory,
            other => LogError::Disk(other),
        }
    }
}

impl From<AllocError> for LogError {
    ghost from_gives = { λ _ e. e ≡ Memory };

    fn from(_e: AllocError) -> LogError {
        LogError::Memory
    }
}
