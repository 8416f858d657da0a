// The refusals of a configuration, and of a list of them.
ghost use Rattle.std.specs.Prelude.{◌≡◌};
ghost use Rattle.configurations.specs.declared.error.ConfigError.TheVariants.{Memory};

use std::alloc::AllocFailed;
use thiserror::Error;

/// Why ids are no configuration, or configurations no lawful list: the first reason that applies.
#[derive(Clone, Copy, Debug, PartialEq, Eq, Error)]
pub enum ConfigError {
    #[error("there is none")]
    Empty = 1,
    #[error("an id stands in it twice")]
    Repeated,
    #[error("a later configuration has no fewer nodes")]
    NotSmaller,
    #[error("a later configuration is not the one before with nodes left out")]
    NotInOrder,
    #[error("there are more than 16")]
    TooMany,
    #[error("0 is no id")]
    BadId,
    #[error("out of memory")]
    Memory,
}

impl<T: Drop> From<AllocFailed<T>> for ConfigError {
    ghost from_gives = { λ _ e. e ≡ Memory };

    fn from(_e: AllocFailed<T>) -> ConfigError {
        ConfigError::Memory
    }
}
