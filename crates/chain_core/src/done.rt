// The store's part of a step, once it is done.
use configurations::{Config, Epoch};
use kv_types::Number;

/// The store's part of a decision that changes the state of a node. The store already has the
/// batch, the configuration or the snapshot, if there is one.
#[derive(Drop)]
pub enum Done {
    /// A batch of this request was appended.
    Accepted { request: Number },
    /// This request submits the mark of the batch of this number again.
    Repeated { request: Number, number: Number },
    /// The predecessor's batch was appended.
    Appended,
    /// The successor reported these numbers.
    Acked { committed: Number, have: Number },
    /// The configuration of this epoch was adopted.
    Adopted { epoch: Epoch, config: Config },
    /// A snapshot was opened at this number.
    Opened { request: Number, number: Number },
    /// A snapshot at this number was closed.
    Closed { request: Number, number: Number },
}
