// A simulated node: its id, and its state.
ghost use Rattle.std.specs.Prelude.{◌≡◌};
ghost use Rattle.node.specs.{IsReady};
ghost use Rattle.lab.specs.SimNodes.{StateIsReady};

use crate::node_state::NodeState;
use configurations::NodeId;
use disk::Disk;
use node::Node;

/// A node of a world. If it is up, a step of it may follow.
#[derive(Drop)]
pub struct SimNode<D: Disk + Drop> {
    pub(crate) id: NodeId,
    pub(crate) state: NodeState<D>,
    ghost ready: { StateIsReady state },
}

impl<D: Disk + Drop> SimNode<D> {
    /// A node that is up, with this id. It stays in this box while it is up.
    pub fn up(id: NodeId, node: Box<Node<D>>) -> SimNode<D>
        requires { IsReady node.value }
        ensures id { result.id ≡ id }
        ensures state { result.state ≡ NodeState.Up node }
    {
        let state = NodeState::Up(node);
        SimNode { id, state }
    }
}
