// The node of a disk: started, or created where nothing was created yet.
ghost use Rattle.std.specs.Prelude.{◌≡◌, ◌↔◌, ℕ, IfErr, IfOk, IsErrAnd, IsTrue, MatchResult};
ghost use Rattle.disk.specs.{IsStill, contents};
ghost use Rattle.chain_core.specs.{Machine};
ghost use Rattle.engine.specs.{SparesFound};
ghost use Rattle.manifest.specs.{HasOnlyCreationFiles};
ghost use Rattle.manifest.specs.Holds.{SparesOthers};
ghost use Rattle.manifest.specs.Manifests.{ManifestRefusal};
ghost use Rattle.manifest.specs.Reads.{SlotsAreRead};
ghost use Rattle.node.specs.{DiskRefines, DiskRefinesOneOf, IsReady, node_limits};
ghost use Rattle.node.specs.Outputs.{AlwaysRefines};
ghost use Rattle.folder_nodes.specs.Finding.{CreatesAgain, CreatesIn, ExplainsFinding, FindsOwn};
ghost use Rattle.folder_nodes.specs.Finding.{IsForEnvironment, IsOwnVersion, KeepsFoundDisk};
ghost use Rattle.folder_nodes.specs.Finding.{KeepsFoundFiles};
ghost use Rattle.folder_nodes.specs.Finding.{NamesOwn, StartsAs, StartsFrom, disk_left};

use crate::fault::FolderError;
use configurations::{Config, Configs, Epoch, NodeId};
use disk::Disk;
use kv_types::Limits;
use manifest::laws::version_is_one;
use manifest::{Manifest, ManifestError, StoreVersion, has_only_creation_files};
use node::{Node, Stop};
use std::alloc::Global;

// Creates the node in the first configuration, without batches.
fn created<D: Disk + Drop>(
    alloc: Global,
    disk: D,
    id: NodeId,
    configs: &Configs,
    limits: &Limits,
) -> Result<Node<D>, (FolderError, D)>
    ensures kept { KeepsFoundDisk D.Disk disk result }
    ensures created { D.is_honest disk → CreatesIn configs.now id result }
    ensures works { IfOk result IsReady }
    ensures limits { IfOk result (λ node. node_limits node ≡ limits.now) }
{
    match Node::create(alloc, disk, id, configs.first(), limits) {
        Ok(node) => Ok(node),
        Err((stop, disk)) => Err((FolderError::from(stop), disk)),
    }
}

// Creates the node of a disk of which no slot is open, if it has nothing but what a creation that
// was cut short may have left.
fn created_again<D: Disk + Drop>(
    alloc: Global,
    mut disk: D,
    id: NodeId,
    configs: &Configs,
    limits: &Limits,
) -> Result<Node<D>, (FolderError, D)>
    ensures kept { KeepsFoundDisk D.Disk disk result }
    ensures created { D.is_honest disk →
        CreatesAgain configs.now id (contents (D.state disk)) result }
    ensures refused { IfErr result (λ refused. (IsForEnvironment refused.0 → ⊥) →
        IsStill D.Disk disk refused.1) }
    ensures more { (HasOnlyCreationFiles (contents (D.state disk)) → ⊥) →
        IsStill D.Disk disk (disk_left result) }
    ensures works { IfOk result IsReady }
    ensures limits { IfOk result (λ node. node_limits node ≡ limits.now) }
{
    match has_only_creation_files(&mut disk) {
        Ok(true) => created(alloc, disk, id, configs, limits),
        Ok(false) => Err((FolderError::Stopped(Stop::NotCreated), disk)),
        Err(e) => Err((FolderError::from(e), disk)),
    }
}

// Whether two configurations are the same.
fn are_same(config: &Config, other: &Config) -> bool
    ensures { IsTrue result ↔ config.now ≡ other.now }
{
    config.ids() == other.ids()
}

// Whether a version is of the node with this id, in a configuration of the list.
fn is_own(version: &StoreVersion, id: NodeId, configs: &Configs) -> bool
    ensures { IsTrue result ↔ IsOwnVersion configs.now id version.now }
{
    let Some(epoch) = Epoch::new(version.epoch) else {
        return false;
    };
    match configs.at(epoch) {
        Some(config) => version.id == id && are_same(&version.config, config),
        None => false,
    }
}

// Whether the manifest of a disk is of the node with this id, in a configuration of the list. Only
// the slots are read, and no file is changed.
fn names_own<D: Disk>(
    alloc: Global,
    disk: &mut D,
    id: NodeId,
    configs: &Configs,
) -> Result<bool, ManifestError>
    ensures reads { SlotsAreRead D.Disk disk.old disk.new SparesOthers result }
    ensures told { D.is_honest disk.old → MatchResult result
        (λ own. NamesOwn configs.now id own (contents (D.state disk.old)) (D.state disk.new))
        (λ e. ManifestRefusal e (contents (D.state disk.old))) }
{
    let manifest = Manifest::open(alloc, disk)?;
    let own = is_own(manifest.state(), id, configs);
    drop(manifest);
    Ok(own)
}

// Starts the node of a disk.
fn started<D: Disk + Drop>(
    alloc: Global,
    disk: D,
    limits: &Limits,
) -> Result<Node<D>, (FolderError, D)>
    ensures kept { KeepsFoundDisk D.Disk disk result }
    ensures started { (x : ℕ) (n : Machine) → D.is_honest disk →
        DiskRefines (contents (D.state disk)) x n → StartsAs x n result }
    ensures told { D.is_honest disk → StartsFrom (contents (D.state disk)) result }
    ensures any_moment { (x : ℕ) (n m : Machine) → D.is_honest disk →
        DiskRefinesOneOf (D.state disk) x n m →
        AlwaysRefines D.Disk disk (disk_left result) x n m }
    ensures still { SparesFound D.Disk disk (disk_left result)
        (IsErrAnd result (λ refused. IsForEnvironment refused.0 → ⊥)) }
    ensures works { IfOk result IsReady }
    ensures limits { IfOk result (λ node. node_limits node ≡ limits.now) }
{
    match Node::start(alloc, disk, limits) {
        Ok(node) => Ok(node),
        Err((stop, disk)) => Err((FolderError::from(stop), disk)),
    }
}

/// The node with this id over a disk: it is started, and has to be in a configuration of the list.
/// Where no slot is open, and there is nothing but what a creation that was cut short may have
/// left, it is created in the first configuration, without batches; so it is on a disk without
/// files. A refusal returns the disk; of another node it changes nothing.
pub fn node_over<D: Disk + Drop>(
    alloc: Global,
    mut disk: D,
    id: NodeId,
    configs: &Configs,
    limits: &Limits,
) -> Result<Node<D>, (FolderError, D)>
    ensures kept { KeepsFoundDisk D.Disk disk result }
    ensures started { (x : ℕ) (n : Machine) → D.is_honest disk →
        DiskRefines (contents (D.state disk)) x n → FindsOwn configs.now id x n result }
    ensures told { D.is_honest disk →
        ExplainsFinding configs.now id (contents (D.state disk)) result }
    ensures works { IfOk result IsReady }
    ensures limits { IfOk result (λ node. node_limits node ≡ limits.now) }

    // Where a crash before it leaves only disks of these two machines, so does one at any moment
    // since: no node that was created is created again.
    ensures any_moment { (x : ℕ) (n m : Machine) → D.is_honest disk →
        DiskRefinesOneOf (D.state disk) x n m →
        AlwaysRefines D.Disk disk (disk_left result) x n m }

    // What is refused for what the disk has is left as it was, and so is what the version names.
    ensures files { KeepsFoundFiles D.Disk disk result }
{
    version_is_one(); // law: files represent one version at most, of a store that was created
    match names_own(alloc, &mut disk, id, configs) {
        Ok(true) => started(alloc, disk, limits),
        Ok(false) => Err((FolderError::OtherNode, disk)),
        Err(e) => match e {
            ManifestError::NotCreated => created_again(alloc, disk, id, configs, limits),
            _ => Err((FolderError::from(e), disk)),
        },
    }
}
