//! Why a run in folders, or what is written of one, ended early, and the line that says so.
ghost use Rattle.std.specs.Prelude.{◌≡◌, Some};
ghost use Rattle.dumps.specs.declared.dump_error.DumpError.{DumpError};
ghost use Rattle.program.specs.FolderFailures.{dump_failure_of, dump_failure_text, folder_text};
ghost use Rattle.program.specs.FolderFailures.{loop_failure_text, upgrade_failure_of};
ghost use Rattle.program.specs.FolderFailures.{upgrade_failure_text};
ghost use Rattle.program.specs.declared.folder_failure.LoopFailure.TheVariants as failed;

use crate::failure::Failure;
use client::cause_name;
use dumps::DumpError;
use engine::EngineError;
use folder_nodes::{FolderError, FolderFault};
use lab::Stop;
use std::fmt;

/// Why a run in folders ended early.
#[derive(Clone, Copy)]
pub enum LoopFailure {
    /// For what ends a run on disks in memory too.
    Run(Failure),
    /// A folder has no node for the run.
    Folder(FolderFault),
    /// There is no listener for what is to be carried.
    Network,
}

/// Why what a store has was not written out whole.
#[derive(Clone, Copy)]
pub enum DumpFailure {
    /// The store was not opened, or not read to its end.
    Store(Stop),
    Output,
    /// Memory was wanting for the words.
    Memory,
}

/// Why a folder's store was not upgraded, or why it was not told.
#[derive(Clone, Copy)]
pub enum UpgradeFailure {
    /// The store was not upgraded.
    Store(Stop),
    /// No generation follows that of its manifest.
    Exhausted,
    Output,
    /// Memory was wanting for the words.
    Memory,
}

/// Why a folder has no node.
fn folder_name(error: FolderError) -> &'static str
    ensures { result.now ≡ folder_text error }
{
    match error {
        FolderError::Stopped(cause) => cause_name(cause),
        FolderError::OtherNode => "other node or configuration",
    }
}

impl fmt::Display for LoopFailure {
    ghost output = { λ it. Some (loop_failure_text it) };

    fn fmt<W: fmt::Write>(&self, f: &mut fmt::Formatter<W>) -> fmt::Result {
        match self {
            LoopFailure::Run(failure) => failure.fmt(f),
            LoopFailure::Folder(fault) => {
                let (id, text) = (fault.id.get(), folder_name(fault.error));
                write!(f, "folder {id}: {text}")
            }
            LoopFailure::Network => write!(f, "run: network"),
        }
    }
}

impl fmt::Display for DumpFailure {
    ghost output = { λ it. Some (dump_failure_text it) };

    fn fmt<W: fmt::Write>(&self, f: &mut fmt::Formatter<W>) -> fmt::Result {
        match self {
            DumpFailure::Store(cause) => {
                let text = cause_name(*cause);
                write!(f, "dump: {text}")
            }
            DumpFailure::Output => write!(f, "output: write"),
            DumpFailure::Memory => write!(f, "run: memory"),
        }
    }
}

impl fmt::Display for UpgradeFailure {
    ghost output = { λ it. Some (upgrade_failure_text it) };

    fn fmt<W: fmt::Write>(&self, f: &mut fmt::Formatter<W>) -> fmt::Result {
        match self {
            UpgradeFailure::Store(cause) => {
                let text = cause_name(*cause);
                write!(f, "upgrade: {text}")
            }
            UpgradeFailure::Exhausted => write!(f, "upgrade: exhausted"),
            UpgradeFailure::Output => write!(f, "output: write"),
            UpgradeFailure::Memory => write!(f, "run: memory"),
        }
    }
}

impl From<Failure> for LoopFailure {
    ghost from_gives = { λ e failure. failure ≡ failed.Run e };

    fn from(e: Failure) -> LoopFailure {
        LoopFailure::Run(e)
    }
}

impl From<FolderFault> for LoopFailure {
    ghost from_gives = { λ fault failure. failure ≡ failed.Folder fault };

    fn from(fault: FolderFault) -> LoopFailure {
        LoopFailure::Folder(fault)
    }
}

impl From<DumpError> for DumpFailure {
    ghost from_gives = { λ e failure. failure ≡ dump_failure_of e };

    fn from(e: DumpError) -> DumpFailure {
        match e {
            DumpError::Store(cause) => DumpFailure::Store(cause),
            DumpError::Write => DumpFailure::Output,
        }
    }
}

impl From<EngineError> for UpgradeFailure {
    ghost from_gives = { λ e failure. failure ≡ upgrade_failure_of e };

    // For the last six no upgrade is refused.
    fn from(e: EngineError) -> UpgradeFailure {
        match e {
            EngineError::Disk => UpgradeFailure::Store(Stop::Disk),
            EngineError::Damaged => UpgradeFailure::Store(Stop::Damaged),
            EngineError::Memory => UpgradeFailure::Store(Stop::Memory),
            EngineError::NotCreated => UpgradeFailure::Store(Stop::NotCreated),
            EngineError::Exhausted => UpgradeFailure::Exhausted,
            EngineError::OldFormat => UpgradeFailure::Store(Stop::OldFormat),
            EngineError::Failed
            | EngineError::TooOld
            | EngineError::NotCommitted
            | EngineError::NoSuchSnapshot
            | EngineError::TooManySnapshots => UpgradeFailure::Store(Stop::Damaged),
        }
    }
}
