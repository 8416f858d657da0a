// Why a client's request is refused.

/// Why a client's request is refused. It changes nothing. (Refusals are this store's profile.)
#[derive(Clone, Copy, Debug, PartialEq, Eq)]
pub enum Refusal {
    /// The node does not run.
    NotRunning = 1,
    /// Only the head numbers batches.
    NotHead,
    /// A read at a number below the floor.
    TooOld,
    /// A read at a number above the committed number.
    NotCommitted,
    /// No snapshot is open at the number that is to be closed.
    NoSuchSnapshot,
    /// As many snapshots are open as a node may have.
    TooManySnapshots,
    /// The node's configuration lacks the node.
    Removed,
    /// No number is left for the batch.
    Exhausted,
    /// The node has a batch of a later request of the client.
    OldRequest,
}
