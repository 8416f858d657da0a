// The one node of a store that stands alone.
ghost use Rattle.std.specs.Prelude.{◌↔◌, IfOk, IsTrue};
ghost use Rattle.embedded_store.specs.Alone.{IsAloneAs};

use configurations::{Config, NodeId};
use std::alloc::{AllocError, Global};

/// The node of a store that stands alone, and its configuration.
pub fn alone(alloc: Global) -> Result<(NodeId, Config), AllocError>
    ensures { IfOk result (λ it. IsAloneAs it.0 it.1) }
{
    let ids = vec![in alloc; 1]?;
    match (NodeId::new(1), Config::new(alloc, ids)) {
        (Some(id), Ok(config)) => Ok((id, config)),
        _ => Err(AllocError),
    }
}

/// Whether this is the node of a store that stands alone, in its configuration.
pub fn is_alone(id: NodeId, config: &Config) -> bool
    ensures { IsTrue result ↔ IsAloneAs id config.now }
{
    match config.ids() {
        [only] => id.get() == 1 && only.get() == 1,
        _ => false,
    }
}
