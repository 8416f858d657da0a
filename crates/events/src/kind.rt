// The kinds of events.
ghost use Rattle.std.specs.Prelude.{◌≡◌};
ghost use Rattle.events.specs.Events.{epoch_in, node_in};

use configurations::{Epoch, NodeId};
use disk::Junk;
use kv_types::{Batch, Key, Number, Range};

/// What happens, apart from a fault of the disk: a client's request, a frame or a notice that
/// arrives, a turn of a node, or a start or stop of its machine.
#[derive(Drop)]
pub enum EventKind {
    /// A client's batch.
    Submit {
        node: NodeId,
        batch: Batch,
    },
    /// A read at a number, or else at the committed number.
    Get {
        node: NodeId,
        key: Key,
        at: Option<Number>,
    },
    /// A read of the first rows of a range at a number, or else at the committed number.
    Rows {
        node: NodeId,
        range: Range,
        at: Option<Number>,
    },
    /// A snapshot is opened at a number, or else at the committed number.
    Open {
        node: NodeId,
        at: Option<Number>,
    },
    /// A snapshot at this number is closed.
    Close {
        node: NodeId,
        number: Number,
    },
    /// The frame in this place, from 1 among all that were ever sent, goes to its addressee. It may
    /// have gone there before, and may go there again.
    Deliver {
        place: u64,
    },
    /// The configuration service tells the node of the configuration of this epoch. One that the
    /// list does not have does nothing.
    Notice {
        node: NodeId,
        epoch: Epoch,
    },
    /// A turn to send again what the successor is not known to have.
    Tick {
        node: NodeId,
    },
    /// A turn to work on the node's files.
    Tend {
        node: NodeId,
    },
    /// A node that is down opens its disk and runs. One that runs drops it.
    Start {
        node: NodeId,
    },
    /// The machine stops, and its disk crashes.
    Stop {
        node: NodeId,
        junk: Junk,
    },
}

impl EventKind {
    /// The node that the event names; a frame goes to its addressee.
    pub fn node(&self) -> Option<NodeId>
        ensures { result ≡ node_in self.now }
    {
        match self {
            EventKind::Submit { node, .. }
            | EventKind::Get { node, .. }
            | EventKind::Rows { node, .. }
            | EventKind::Open { node, .. }
            | EventKind::Close { node, .. }
            | EventKind::Notice { node, .. }
            | EventKind::Tick { node }
            | EventKind::Tend { node }
            | EventKind::Start { node }
            | EventKind::Stop { node, .. } => Some(*node),
            EventKind::Deliver { .. } => None,
        }
    }

    /// The epoch of a notice.
    pub fn epoch(&self) -> Option<Epoch>
        ensures { result ≡ epoch_in self.now }
    {
        match self {
            EventKind::Notice { epoch, .. } => Some(*epoch),
            _ => None,
        }
    }
}
