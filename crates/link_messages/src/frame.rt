// The 14 kinds of frame, and the greatest length of a frame.
use crate::{BoxedRange, Refusal};
use configurations::{Config, Epoch, NodeId};
use kv_types::{Batch, Key, Number, Page, Value};

/// The greatest length of a frame, in bytes, without its length field.
pub const MAX_FRAME: usize = 131072;

/// A message from one side of a link to the other. A client numbers its requests; a reply has the
/// number of the `request` that it answers.
#[derive(Drop)]
pub enum Frame {
    /// Sends the batch of this number to the sender's successor. The number is from 1 on, or the
    /// frame is not read back.
    Forward {
        epoch: Epoch,
        from: NodeId,
        number: Number,
        batch: Batch,
    },
    /// Acknowledges to the predecessor the sender's committed number and its number of batches.
    Ack {
        epoch: Epoch,
        from: NodeId,
        committed: Number,
        have: Number,
    },
    /// Reports the configuration of an epoch to a node, from the configuration service.
    Notice {
        epoch: Epoch,
        config: Config,
    },
    /// Asks the head to append a batch.
    Submit {
        request: Number,
        batch: Batch,
    },
    /// Reads a key at a number, or else at the committed number.
    Get {
        request: Number,
        at: Option<Number>,
        key: Key,
    },
    /// Reads the rows of a range at a number, or else at the committed number.
    Rows {
        request: Number,
        at: Option<Number>,
        range: BoxedRange,
    },
    /// Opens a snapshot at a number, or else at the committed number.
    Open {
        request: Number,
        at: Option<Number>,
    },
    /// Closes a snapshot at a number.
    Close {
        request: Number,
        number: Number,
    },
    /// The number of the client's batch, which is committed.
    Committed {
        request: Number,
        number: Number,
    },
    /// The value of the key at this number.
    Value {
        request: Number,
        number: Number,
        value: Option<Value>,
    },
    /// The rows at this number. They keep the limits of a page, or the frame is not read back.
    RowsAre {
        request: Number,
        number: Number,
        page: Page,
    },
    /// A snapshot is open at this number.
    Opened {
        request: Number,
        number: Number,
    },
    /// The request is not done, and why.
    Refused {
        request: Number,
        refusal: Refusal,
    },
    /// The snapshot at this number is closed.
    Closed {
        request: Number,
        number: Number,
    },
}
