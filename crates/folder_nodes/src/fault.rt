// Why a disk has no node for a run, and where a search for nodes ended.
ghost use Rattle.std.specs.Prelude.{◌≡◌};
ghost use Rattle.folder_nodes.specs.Faults.{disk_stop, lock_stop, manifest_stop};
ghost use Rattle.folder_nodes.specs.declared.fault.FolderError.TheVariants as error;
ghost use Rattle.node.specs.declared.stop.Stop.TheVariants as stop;

use configurations::NodeId;
use dir_disk::LockError;
use disk::{Disk, DiskError};
use lab::SimNode;
use manifest::ManifestError;
use node::Stop;
use std::alloc::{AllocError, AllocFailed};

/// Why a folder has no node for a run.
#[derive(Clone, Copy, Debug, PartialEq, Eq)]
pub enum FolderError {
    /// The node was neither created nor started. `Disk`: the device failed, the folder is in use,
    /// or there is none and none can be made. `Damaged`, `NotCreated`: the folder has files, which
    /// are no node's. `OldFormat`: they are a node's of the old format.
    Stopped(Stop),
    /// The node has another id, or a configuration that the list does not have at its epoch.
    OtherNode,
}

/// The node whose folder has no node for a run, and why.
#[derive(Clone, Copy)]
pub struct FolderFault {
    pub id: NodeId,
    pub error: FolderError,
}

/// A search for nodes that ended at a fault.
#[derive(Drop)]
pub struct EndedSearch<D: Disk + Drop> {
    /// The nodes that were found before.
    pub found: Vec<SimNode<D>>,
    pub fault: FolderFault,
    /// What is left of the disk of the fault's node, if one was made.
    pub disk: Option<D>,
}

impl From<Stop> for FolderError {
    ghost from_gives = { λ cause e. e ≡ error.Stopped cause };

    fn from(cause: Stop) -> FolderError {
        FolderError::Stopped(cause)
    }
}

impl From<DiskError> for FolderError {
    ghost from_gives = { λ cause e. e ≡ error.Stopped (disk_stop cause) };

    // The files of a disk are listed, or refused for the device or for memory alone.
    fn from(cause: DiskError) -> FolderError {
        FolderError::Stopped(match cause {
            DiskError::Failed => Stop::Disk,
            DiskError::Memory => Stop::Memory,
            DiskError::NoFile | DiskError::Short => Stop::Damaged,
        })
    }
}

impl From<ManifestError> for FolderError {
    ghost from_gives = { λ cause e. e ≡ error.Stopped (manifest_stop cause) };

    // A manifest that was just opened has not failed, so the last is not met.
    fn from(cause: ManifestError) -> FolderError {
        FolderError::Stopped(match cause {
            ManifestError::Disk => Stop::Disk,
            ManifestError::Memory => Stop::Memory,
            ManifestError::NotCreated => Stop::NotCreated,
            ManifestError::OldFormat => Stop::OldFormat,
            ManifestError::Damaged | ManifestError::Failed => Stop::Damaged,
        })
    }
}

impl From<LockError> for FolderError {
    ghost from_gives = { λ cause e. e ≡ error.Stopped (lock_stop cause) };

    fn from(cause: LockError) -> FolderError {
        FolderError::Stopped(match cause {
            LockError::InUse | LockError::Failed => Stop::Disk,
            LockError::Memory => Stop::Memory,
        })
    }
}

impl From<AllocError> for FolderError {
    ghost from_gives = { λ _ e. e ≡ error.Stopped stop.Memory };

    fn from(_e: AllocError) -> FolderError {
        FolderError::Stopped(Stop::Memory)
    }
}

impl<T: Drop> From<AllocFailed<T>> for FolderError {
    ghost from_gives = { λ _ e. e ≡ error.Stopped stop.Memory };

    fn from(_e: AllocFailed<T>) -> FolderError {
        FolderError::Stopped(Stop::Memory)
    }
}
