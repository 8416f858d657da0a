//! Why a run ended early, and the line that says so.
ghost use Rattle.std.specs.Prelude.{◌≡◌, Some};
ghost use Rattle.program.specs.Failures.{failure_of, failure_text};
ghost use Rattle.program.specs.declared.failure.Failure.TheVariants.{Memory};

use client::{RunError, fault_name};
use lab::LabError;
use scripts::ScriptFault;
use std::alloc::AllocError;
use std::fmt;

/// Why a run ended early. With `Output` or `Memory` the text of its first statements may have been
/// written; with `Output` a beginning of the next one's text too.
#[derive(Clone, Copy)]
pub enum Failure {
    /// The script can't be opened or read.
    Unreadable,
    /// A line of the script has this fault.
    Script(ScriptFault),
    /// The output takes no more.
    Output,
    /// Memory was wanting.
    Memory,
}

impl fmt::Display for Failure {
    ghost output = { λ it. Some (failure_text it) };

    fn fmt<W: fmt::Write>(&self, f: &mut fmt::Formatter<W>) -> fmt::Result {
        match self {
            Failure::Unreadable => write!(f, "script: unreadable"),
            Failure::Script(fault) => {
                let (line, text) = (fault.line, fault_name(fault.error));
                write!(f, "line {line}: {text}")
            }
            Failure::Output => write!(f, "output: write"),
            Failure::Memory => write!(f, "run: memory"),
        }
    }
}

impl From<LabError> for Failure {
    ghost from_gives = { λ _ failure. failure ≡ Memory };

    fn from(_e: LabError) -> Failure {
        Failure::Memory
    }
}

impl From<RunError> for Failure {
    ghost from_gives = { λ e failure. failure ≡ failure_of e };

    fn from(e: RunError) -> Failure {
        match e {
            RunError::Write => Failure::Output,
            RunError::Memory => Failure::Memory,
        }
    }
}

impl From<AllocError> for Failure {
    ghost from_gives = { λ _ failure. failure ≡ Memory };

    fn from(_e: AllocError) -> Failure {
        Failure::Memory
    }
}
