// Why an input of a node is dropped.

/// Why an input of a node is dropped. It changes nothing, and sends nothing but for `OtherNumber`.
/// (Reasons are this store's profile.)
#[derive(Clone, Copy, Debug, PartialEq, Eq)]
pub enum DropReason {
    /// The node does not run.
    NotRunning = 1,
    /// A start of a node that runs.
    Running,
    /// The node's configuration lacks the node.
    Removed,
    /// A frame of another epoch than the node's.
    OtherEpoch,
    /// A batch of a node that is not the predecessor.
    NotPredecessor,
    /// An acknowledgement of a node that is not the successor.
    NotSuccessor,
    /// A batch of another number than the next one.
    OtherNumber,
    /// An acknowledgement of more committed than the sender has, or of more than there is.
    BadAck,
    /// A notice of no later epoch than the node's.
    OldNotice,
    /// A notice of a configuration that is not the node's with nodes left out.
    BadNotice,
    /// A frame for clients. No run of the model has it: each frame there was sent by a node.
    NotForNodes,
    /// Bytes that are no frame. No run of the model has them.
    Unreadable,
}
