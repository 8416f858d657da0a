// Places of nodes and of snapshots, and the greater of two numbers.
ghost use Rattle.std.specs.Prelude.{◌≡◌, ◌==◌, max};
ghost use Rattle.std.specs.List.{position_from};
ghost use Rattle.configurations.specs.{is_head, is_tail};

use configurations::{Config, NodeId};
use kv_types::Number;
use std::collections::VecDeque;

pub(crate) fn is_head(config: &Config, id: NodeId) -> bool
    ensures { result ≡ is_head config.now id }
{
    config.head() == id
}

pub(crate) fn is_tail(config: &Config, id: NodeId) -> bool
    ensures { result ≡ is_tail config.now id }
{
    config.tail() == id
}

// The place of the newest snapshot at this number.
pub(crate) fn place_of(snapshots: &VecDeque<Number>, number: Number) -> Option<usize>
    ensures { result ≡ position_from (λ s. number == s) 0 snapshots.now.items }
{
    snapshots.iter().position(|open| number == *open)
}

pub(crate) fn greater(a: Number, b: Number) -> Number
    ensures { result ≡ max a b }
{
    if a < b { b } else { a }
}
