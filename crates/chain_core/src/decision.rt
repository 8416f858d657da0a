// The decision on an input: the rule, with its arguments.
use crate::DropReason;
use configurations::{Config, Epoch};
use kv_types::{Batch, Key, Number};
use link_messages::{BoxedRange, Refusal};

/// The action of a node on an input.
#[derive(Drop)]
pub enum Decision {
    /// The head appends and forwards the client's batch, and its acknowledgement is pending.
    Accept {
        request: Number,
        batch: Batch,
    },
    /// The head has a batch with this mark, at this number, and acknowledges that once committed.
    Repeat {
        request: Number,
        number: Number,
    },
    /// The node appends and forwards the next batch; a tail commits it and acknowledges it.
    Append {
        batch: Batch,
    },
    /// The node drops a batch with an unexpected number, and acknowledges again to its predecessor.
    AckDuplicate,
    /// The node applies its successor's report, and reports to its predecessor if more is
    /// committed.
    OnAck {
        committed: Number,
        have: Number,
    },
    /// The node adopts a later configuration, and acknowledges to its predecessor there.
    Adopt {
        epoch: Epoch,
        config: Config,
    },
    /// The node answers the client with the value of the key at this number.
    Read {
        request: Number,
        key: Key,
        at: Number,
    },
    /// The node answers the client with a page of the rows of the range at this number.
    ReadRows {
        request: Number,
        range: BoxedRange,
        at: Number,
    },
    /// The node opens one more snapshot at this number.
    Open {
        request: Number,
        number: Number,
    },
    /// The node closes one snapshot at this number.
    Close {
        request: Number,
        number: Number,
    },
    /// The node sends again the batches that its successor may lack, and acknowledges again.
    Resend,
    Refuse {
        request: Number,
        refusal: Refusal,
    },
    Drop(DropReason),
}
