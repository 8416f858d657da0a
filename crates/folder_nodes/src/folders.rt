// The nodes of a list of configurations, each in a folder of its own.
ghost use Rattle.std.specs.Prelude.{◌≡◌, All, Contains, IfErr, IfOk};
ghost use Rattle.configurations.specs.{at_epoch};
ghost use Rattle.folder_nodes.specs.Finding.{IsForEnvironment, sim_ids};
ghost use Rattle.folder_nodes.specs.FoundNodes.{FolderAnswers, IsFoundIn};

use crate::fault::{FolderError, FolderFault};
use crate::search::{NodeDisks, nodes_over};
use configurations::{Configs, NodeId};
use dir_disk::DirDisk;
use kv_types::Limits;
use lab::SimNode;
use node::Stop;
use std::alloc::Global;
use std::fs::{self, File};
use std::io::{self, ErrorKind};
use std::rt::Files;

// Why a folder was not made.
fn cause(e: io::Error) -> FolderError
    ensures { IsForEnvironment result }
{
    match e.kind() {
        ErrorKind::OutOfMemory => FolderError::Stopped(Stop::Memory),
        _ => FolderError::Stopped(Stop::Disk),
    }
}

// The folders of nodes in the folder at a path.
#[derive(Drop)]
struct Folders<'a, R> {
    rt: &'a R,
    path: &'a str,
}

impl<'a, R: Files<File = File> + Alloc<A = Global> + Clone + Drop> NodeDisks<DirDisk<R>>
    for Folders<'a, R> {
    ghost makes = { λ old id result new.
        (new ≡ old) × FolderAnswers old.path.now id result };

    // The disk of a node's folder. The folder is made where it is absent, and locked.
    fn disk_for(&mut self, id: NodeId) -> Result<DirDisk<R>, FolderError> {
        // An empty path is that of no folder.
        if self.path.is_empty() {
            return Err(FolderError::Stopped(Stop::Disk));
        }
        let path = format!(in self.rt.alloc(); "{}/{}", self.path, id.get())?;
        fs::create_dir_all(self.rt, path.as_str()).map_err(cause)?;
        let mut disk = DirDisk::new(self.rt.clone()?, path.as_str())?;
        disk.lock()?;
        Ok(disk)
    }
}

/// The nodes of the first configuration in its order, each in the folder that has its id for its
/// name. They are found one after another, and the first fault ends that. Nothing is undone: the
/// nodes before it stay in their folders, as they were created or started.
pub fn nodes_in<R: Files<File = File> + Alloc<A = Global> + Clone + Drop>(
    rt: &R,
    folder: &str,
    configs: &Configs,
    limits: &Limits,
) -> Result<Vec<SimNode<DirDisk<R>>>, FolderFault>
    ensures nodes { IfOk result (λ nodes. sim_ids nodes.items ≡ at_epoch configs.now 0) }
    ensures found { IfOk result (λ nodes. All (IsFoundIn folder.now limits.now) nodes.items) }
    ensures fault { IfErr result (λ fault. Contains (at_epoch configs.now 0) fault.id) }
{
    let mut folders = Folders { rt, path: folder };
    match nodes_over(rt.alloc(), &mut folders, configs, limits) {
        Ok(nodes) => Ok(nodes),
        Err(ended) => Err(ended.fault),
    }
}
