//! The faults of a script.
ghost use Rattle.std.specs.Prelude.{◌≡◌};
ghost use Rattle.script_words.specs.declared.error.ScriptError.TheVariants.{OutOfMemory};

use std::alloc::{AllocError, AllocFailed};

/// What is wrong with a line, in the order in which it is looked for. The table of faults in
/// docs/SCRIPT.md says which lines have each; `OutOfMemory` may come in place of any other.
#[derive(Clone, Copy)]
pub enum ScriptError {
    LineTooLong = 1,
    UnknownStatement,
    WrongNumberOfWords,
    BadNumber,
    BadBytes,
    BadFault,
    OutOfPlace,
    BadConfiguration,
    UnknownNode,
    BadLimit,
    TooManyLines,
    OutOfMemory,
}

impl From<AllocError> for ScriptError {
    ghost from_gives = { λ _ e. e ≡ OutOfMemory };

    fn from(_e: AllocError) -> ScriptError {
        ScriptError::OutOfMemory
    }
}

impl<T: Drop> From<AllocFailed<T>> for ScriptError {
    ghost from_gives = { λ _ e. e ≡ OutOfMemory };

    fn from(_e: AllocFailed<T>) -> ScriptError {
        ScriptError::OutOfMemory
    }
}
