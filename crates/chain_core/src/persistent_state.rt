//! The persistent state of a node besides its batches, from which it starts.
ghost use Rattle.std.specs.Prelude.{◌≤◌};

use configurations::{Config, Epoch, NodeId};
use kv_types::Number;

/// The persistent state of a node, besides its batches.
#[derive(Drop)]
pub struct PersistentState {
    pub id: NodeId,
    pub epoch: Epoch,
    pub config: Config,
    pub count: Number,
    pub floor: Number,
    pub kept: Number,
    ghost kept_within: { kept ≤ floor },
    ghost floor_within: { floor ≤ count },
}
