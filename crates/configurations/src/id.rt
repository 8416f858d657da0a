// The id of a node, from 1 to 65,535.
ghost use Rattle.std.specs.Prelude.{◌≡◌, ◌≤◌, SomeIff};
ghost use Rattle.configurations.specs.NodeLists.{IsId};

use std::marker::Model;

/// The id of a node: 1 to 65,535.
#[derive(Clone, Copy, Debug, PartialEq, Eq)]
pub struct NodeId {
    id: u16,
}

impl Model for NodeId {
    ghost use Rattle.std.specs.Prelude.{ℕ};
    ghost use Rattle.configurations.specs.NodeLists.{IsId};

    ghost Value = { ℕ };

    ghost view = { λ node. node.id };

    ghost invariant = { λ node. IsId node.id };

    ghost inverse = { λ id. record { id = id } };
}

impl NodeId {
    /// The id of this number. `None` for 0.
    pub fn new(id: u16) -> Option<NodeId>
        ensures { SomeIff result (1 ≤ id) id }
    {
        if id == 0 {
            return None;
        }
        Some(NodeId { id })
    }

    /// Its number.
    pub fn get(self) -> u16
        ensures same { result ≡ self }
        ensures id { IsId self }
    {
        self.id
    }
}
