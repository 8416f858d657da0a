//! Why a memtable refused.

ghost use Rattle.std.specs.Prelude.{◌≡◌};
ghost use Rattle.memtable.specs.declared.error.MemtableError.TheVariants.{Memory};

use std::alloc::AllocError;
use thiserror::Error;

/// Why a memtable refused. After `Memory` in `add` it answers `Failed`.
#[derive(Clone, Copy, Debug, PartialEq, Eq, Error)]
pub enum MemtableError {
    #[error("out of memory")]
    Memory = 1,
    #[error("an earlier batch was not added whole")]
    Failed,
}

impl From<AllocError> for MemtableError {
    ghost from_gives = { λ _ e. e ≡ Memory };

    fn from(_e: AllocError) -> MemtableError {
        MemtableError::Memory
    }
}
