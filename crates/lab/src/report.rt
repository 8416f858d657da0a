// The report of a run: the lines of each event, and each node at the end.
use carriers::KeptReply;
use configurations::{Epoch, NodeId};
use disk::MemDisk;
use engine::Tended;
use kv_types::Number;
use node::{DropReason, Numbers, ShortList, Stop};

/// One line of the trace of an event.
#[derive(Drop)]
pub enum Line {
    /// No frame has the place, no configuration the epoch, or no node the id.
    Nothing,
    /// The request or the frame did not arrive.
    Lost,
    Dropped(DropReason),
    Started {
        node: NodeId,
        epoch: Epoch,
        count: Number,
        committed: Number,
    },
    /// The node adopted the configuration of this epoch.
    Adopted {
        node: NodeId,
        epoch: Epoch,
    },
    /// A batch was forwarded. The frame has this place, from 1, among all that were ever sent.
    Forwarded {
        place: u64,
        from: NodeId,
        to: NodeId,
        epoch: Epoch,
        number: Number,
    },
    /// A node acknowledged to its predecessor: what it knows to be committed, and its count.
    Acknowledged {
        place: u64,
        from: NodeId,
        to: NodeId,
        epoch: Epoch,
        committed: Number,
        have: Number,
    },
    Replied(KeptReply),
    /// The node stopped: by itself for this cause, or the event or its fault stopped it.
    Stopped {
        node: NodeId,
        cause: Option<Stop>,
    },
    /// What a node did in a tend.
    Tended(Tended),
}

/// The lines of one event, in order. Most events have one.
pub type Lines = ShortList<Line>;

/// A node at the end of a run.
#[derive(Drop)]
pub struct NodeReport {
    pub id: NodeId,
    pub disk: MemDisk,
    /// None of a node that does not run.
    pub running: Option<Numbers>,
}

/// The lines of a run, event by event, and its nodes at the end.
#[derive(Drop)]
pub struct Report {
    /// One for each event.
    pub steps: Vec<Lines>,
    pub nodes: Vec<NodeReport>,
}
