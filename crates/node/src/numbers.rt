// The numbers of a node.
use configurations::Epoch;
use kv_types::Number;

/// The numbers of a running node.
#[derive(Clone, Copy)]
pub struct Numbers {
    pub epoch: Epoch,
    pub count: Number,
    pub committed: Number,
    pub floor: Number,
    pub kept: Number,
    /// How many tables each level has.
    pub tables: [u64; 7],
}
