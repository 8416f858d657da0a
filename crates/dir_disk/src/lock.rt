// The lock on a folder.
ghost use Rattle.std.specs.Prelude.{◌≡◌, IsErr, IsErrOf};
ghost use Rattle.dir_disk.specs.Answers.{lock_error};
ghost use Rattle.dir_disk.specs.declared.lock.LockError.TheVariants.{Memory};

use std::alloc::AllocError;
use std::fs::{File, TryLockError};
use std::io;
use thiserror::Error;

/// Why a folder was not locked. It is as it was.
#[derive(Clone, Copy, Debug, PartialEq, Eq, Error)]
pub enum LockError {
    /// Another user has locked it.
    #[error("the folder is in use")]
    InUse = 1,
    /// There is no such folder, or the device failed.
    #[error("the device failed")]
    Failed,
    /// Memory was wanting.
    #[error("out of memory")]
    Memory,
}

impl From<AllocError> for LockError {
    ghost from_gives = { λ _ e. e ≡ Memory };

    fn from(_e: AllocError) -> LockError {
        LockError::Memory
    }
}

// Why a folder was not locked: another user has it, or the system failed.
fn refusal_of(e: TryLockError) -> LockError
    ensures { result ≡ lock_error e }
{
    match e {
        TryLockError::WouldBlock => LockError::InUse,
        TryLockError::Error(_) => LockError::Failed,
    }
}

/// Locks a folder that was opened. The lock is free again once the file is closed, so at the latest
/// when the process has ended.
pub fn locked(opened: io::Result<File>) -> Result<File, LockError>
    ensures { IsErr opened → IsErrOf result LockError.Failed }
{
    let Ok(folder) = opened else {
        return Err(LockError::Failed);
    };
    match folder.try_lock() {
        Ok(()) => Ok(folder),
        Err(e) => Err(refusal_of(e)),
    }
}
