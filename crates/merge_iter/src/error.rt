//! Why a cursor can't go on.
ghost use Rattle.std.specs.Prelude.{◌≡◌};
ghost use Rattle.merge_iter.specs.declared.error.CursorError.TheVariants.{Memory};

use std::alloc::AllocError;
use thiserror::Error;

/// Why a move was refused. After any refusal a cursor stands on no entry, and `next` and `prev`
/// answer `Failed` until `first`, `last` or `seek` succeeds.
#[derive(Clone, Copy, Debug, PartialEq, Eq, Error)]
pub enum CursorError {
    /// The device behind the source failed in this call.
    #[error("the disk failed")]
    Disk = 1,
    /// The bytes of the source do not represent the table.
    #[error("a table is damaged")]
    Damaged,
    /// The move found no memory: only moves that may allocate answer this.
    #[error("out of memory")]
    Memory,
    /// An earlier move was refused.
    #[error("the cursor has to be placed again")]
    Failed,
}

impl From<AllocError> for CursorError {
    ghost from_gives = { λ _ e. e ≡ Memory };

    fn from(_e: AllocError) -> CursorError {
        CursorError::Memory
    }
}
