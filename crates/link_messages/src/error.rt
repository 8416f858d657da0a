// The errors of a stream of frames.
ghost use Rattle.std.specs.Prelude.{◌≡◌};
ghost use Rattle.link_messages.specs.declared.error.FrameError.TheVariants.{Memory};

use std::alloc::{AllocError, AllocFailed};
use thiserror::Error;

/// Why bytes are no frame. After any error but `Memory` the reader answers the same again.
#[derive(Clone, Copy, Debug, PartialEq, Eq, Error)]
pub enum FrameError {
    #[error("a frame is longer than 131,072 bytes")]
    TooLong = 1,
    #[error("a frame is of no known kind")]
    BadKind,
    #[error("a field is not there or out of range")]
    BadField,
    #[error("bytes stand behind the last field")]
    Trailing,
    #[error("out of memory")]
    Memory,
}

impl From<AllocError> for FrameError {
    ghost from_gives = { λ _ e. e ≡ Memory };

    fn from(_e: AllocError) -> FrameError {
        FrameError::Memory
    }
}

impl<T: Drop> From<AllocFailed<T>> for FrameError {
    ghost from_gives = { λ _ e. e ≡ Memory };

    fn from(_e: AllocFailed<T>) -> FrameError {
        FrameError::Memory
    }
}
