// The search for the nodes of a list of configurations, each on the disk that is made for it.
ghost use Rattle.std.specs.Prelude.{◌≡◌, ◌++◌, ◌∷◌, [], ℕ, IfErr, IfOk, OnErr, OnOk, Result};
ghost use Rattle.configurations.specs.{at_epoch};
ghost use Rattle.node.specs.{IsReady, node_core};
ghost use Rattle.folder_nodes.specs.declared.fault.FolderError.{FolderError};
ghost use Rattle.folder_nodes.specs.Finding.{sim_ids};
ghost use Rattle.folder_nodes.specs.FoundNodes.{AddsNode};
ghost use Rattle.folder_nodes.specs.Searches.{AreFound, FaultLeaves, IsEndOfSearch, SearchEnds};
ghost use Rattle.folder_nodes.specs.Searches.{SearchFails};

use crate::fault::{EndedSearch, FolderError, FolderFault};
use crate::finding::node_over;
use configurations::{Configs, NodeId};
use disk::Disk;
use kv_types::Limits;
use lab::SimNode;
use node::{Node, Stop};
use std::alloc::Global;

/// The disks of nodes, each made when its node is looked for.
pub trait NodeDisks<D> {
    /// One call for the disk of the node with this id may answer this, and leave these disks so.
    ghost makes: { Self → ℕ → Result D FolderError → Self → Type 0 };

    /// The disk of the node with this id.
    fn disk_for(&mut self, id: NodeId) -> Result<D, FolderError>
        ensures { makes self.old id result self.new };
}

// The node over the disk that was made for this id. Its own id is compared once it runs, since a
// disk that claims no honesty may answer otherwise than when it was looked at.
fn node_with_id<D: Disk + Drop>(
    alloc: Global,
    disk: D,
    id: NodeId,
    configs: &Configs,
    limits: &Limits,
) -> Result<Node<D>, (FolderError, D)>
    ensures own { IfOk result (λ node. (node_core node).id ≡ id) }
    ensures found { IfOk result (λ node.
        SearchEnds D.Disk configs.now limits.now id disk (Ok node)) }
    ensures refused { IfErr result (λ refused.
        SearchFails D.Disk configs.now limits.now id disk refused.0 refused.1) }
{
    match node_over(alloc, disk, id, configs, limits) {
        Ok(node) => {
            if node.id() == id {
                return Ok(node);
            }
            Err((FolderError::OtherNode, node.into_disk()))
        }
        Err(refused) => Err(refused),
    }
}

// One node more, as a world takes it. For want of memory it returns.
fn add_node<D: Disk + Drop>(
    alloc: Global,
    nodes: &mut Vec<SimNode<D>>,
    id: NodeId,
    node: Node<D>,
) -> Result<(), Node<D>>
    requires { IsReady node }
    ensures added { OnOk result (AddsNode id node nodes.old.items nodes.new.items) }
    ensures returned { IfErr result (λ back. back ≡ node) }
    ensures same { OnErr result (nodes.new.items ≡ nodes.old.items) }
{
    let Ok(()) = nodes.reserve(1) else {
        return Err(node);
    };
    match Box::new(alloc, node) {
        Ok(node) => {
            let _pushed = nodes.push(SimNode::up(id, node)); // there is room
            Ok(())
        }
        Err(failed) => Err(failed.value),
    }
}

// The node of one id more. A refusal returns what is left of its disk, if one was made.
fn add_found<D: Disk + Drop, S: NodeDisks<D>>(
    alloc: Global,
    disks: &mut S,
    id: NodeId,
    configs: &Configs,
    limits: &Limits,
    nodes: &mut Vec<SimNode<D>>,
) -> Result<(), (FolderError, Option<D>)>
    ensures ids { OnOk result (sim_ids nodes.new.items ≡ sim_ids nodes.old.items ++ id ∷ []) }
    ensures found { (first : S) → OnOk result (
        AreFound D.Disk S.makes configs.now limits.now nodes.old.items first disks.old →
        AreFound D.Disk S.makes configs.now limits.now nodes.new.items first disks.new) }
    ensures fault { IfErr result (λ refused. FaultLeaves D.Disk S.makes configs.now limits.now id
        refused.0 refused.1 disks.old disks.new) }
    ensures same { OnErr result (nodes.new.items ≡ nodes.old.items) }
{
    let disk = match disks.disk_for(id) {
        Ok(disk) => disk,
        Err(error) => return Err((error, None)),
    };
    let node = match node_with_id(alloc, disk, id, configs, limits) {
        Ok(node) => node,
        Err((error, disk)) => return Err((error, Some(disk))),
    };
    match add_node(alloc, nodes, id, node) {
        Ok(()) => Ok(()),
        Err(node) => Err((FolderError::Stopped(Stop::Memory), Some(node.into_disk()))),
    }
}

/// The nodes of the first configuration in its order, each on the disk that is made for it. They
/// are found one after another, and the first fault ends that. Nothing is undone: the nodes before
/// it are returned, as they were created or started.
pub fn nodes_over<D: Disk + Drop, S: NodeDisks<D>>(
    alloc: Global,
    disks: &mut S,
    configs: &Configs,
    limits: &Limits,
) -> Result<Vec<SimNode<D>>, EndedSearch<D>>
    ensures nodes { IfOk result (λ nodes. sim_ids nodes.items ≡ at_epoch configs.now 0) }
    ensures found { IfOk result (λ nodes.
        AreFound D.Disk S.makes configs.now limits.now nodes.items disks.old disks.new) }
    ensures fault { IfErr result (λ ended.
        IsEndOfSearch D.Disk S.makes configs.now limits.now disks.old disks.new ended) }
{
    let mut nodes = Vec::new(alloc);
    for id in configs.first().ids() {
        if let Err((error, disk)) = add_found(alloc, disks, *id, configs, limits, &mut nodes) {
            return Err(EndedSearch {
                found: nodes,
                fault: FolderFault { id: *id, error },
                disk,
            });
        }
    }
    Ok(nodes)
}
