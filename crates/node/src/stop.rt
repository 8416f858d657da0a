// The causes for which a node ends.
ghost use Rattle.std.specs.Prelude.{◌≡◌};
ghost use Rattle.node.specs.declared.stop.Stop.TheVariants.{Memory};
ghost use Rattle.node.specs.Stops.{engine_stop};

use chain_core::CoreError;
use engine::EngineError;
use std::alloc::{AllocError, AllocFailed};
use thiserror::Error;

/// Why a node ended. Only `start` runs it again.
#[derive(Clone, Copy, Debug, PartialEq, Eq, Error)]
pub enum Stop {
    #[error("disk")]
    Disk = 1,
    /// The content of the disk is no node's layout.
    #[error("damaged")]
    Damaged,
    #[error("memory")]
    Memory,
    /// No node was created on this disk.
    #[error("not created")]
    NotCreated,
    /// The disk has a node's files of the old format.
    #[error("old format")]
    OldFormat,
}

impl From<EngineError> for Stop {
    ghost from_gives = { λ cause e. e ≡ engine_stop cause };

    // A node asks its engine for what it has alone, so the last six are not met.
    fn from(e: EngineError) -> Stop {
        match e {
            EngineError::Disk => Stop::Disk,
            EngineError::Damaged => Stop::Damaged,
            EngineError::Memory => Stop::Memory,
            EngineError::NotCreated => Stop::NotCreated,
            EngineError::OldFormat => Stop::OldFormat,
            EngineError::Failed
            | EngineError::TooOld
            | EngineError::NotCommitted
            | EngineError::NoSuchSnapshot
            | EngineError::TooManySnapshots
            | EngineError::Exhausted => Stop::Damaged,
        }
    }
}

impl From<CoreError> for Stop {
    ghost from_gives = { λ _ e. e ≡ Memory };

    fn from(e: CoreError) -> Stop {
        match e {
            CoreError::Memory => Stop::Memory,
        }
    }
}

impl From<AllocError> for Stop {
    ghost from_gives = { λ _ e. e ≡ Memory };

    fn from(_e: AllocError) -> Stop {
        Stop::Memory
    }
}

impl<T: Drop> From<AllocFailed<T>> for Stop {
    ghost from_gives = { λ _ e. e ≡ Memory };

    fn from(_e: AllocFailed<T>) -> Stop {
        Stop::Memory
    }
}
