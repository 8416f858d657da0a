// What is left of nodes on disks in memory: their reports.
ghost use Rattle.std.specs.Prelude.{◌≡◌, IfOk};
ghost use Rattle.chain_core.specs.{Machine};
ghost use Rattle.disk.specs.{Slots};
ghost use Rattle.lab.specs.SimNodes.{StateRefines, disk_in, in_memory};
ghost use Rattle.lab.specs.Worlds.{AreLeft, IsLeft, IsReportOf};

use crate::node_state::NodeState;
use crate::report::NodeReport;
use crate::sim_node::SimNode;
use disk::MemDisk;
use std::alloc::{AllocError, Global};

// The report of a node, at the end of a run.
fn left_of(node: SimNode<MemDisk>) -> NodeReport
    ensures left { (n : Machine) (disk : Slots) →
        StateRefines in_memory.is_honest in_memory.state node.state node.id n →
        disk_in node.state ≡ disk → IsLeft n disk result }
    ensures own { IsReportOf node result }
{
    let SimNode { id, state } = node;
    match state {
        NodeState::Up(node) => {
            let running = Some(node.numbers());
            let disk = Box::into_inner(node).into_disk();
            NodeReport { id, disk, running }
        }
        NodeState::Down(disk) => NodeReport {
            id,
            disk: Box::into_inner(disk),
            running: None,
        },
    }
}

/// The reports of all nodes, in order.
pub fn left_of_all(
    alloc: Global,
    nodes: Vec<SimNode<MemDisk>>,
) -> Result<Vec<NodeReport>, AllocError>
    ensures { IfOk result (λ reports. AreLeft nodes.items reports.items) }
{
    let mut reports = Vec::new(alloc);
    for node in nodes {
        reports.push(left_of(node))?;
    }
    Ok(reports)
}
