// The outputs of a step: frames for other nodes, replies for clients.
use chain_core::{DropReason, SentFrames, ShortList};
use kv_types::{Number, Page, Value};
use link_messages::Refusal;

/// A reply to a client's request.
#[derive(Drop)]
pub enum Reply {
    /// The number of the client's batch, which is committed.
    Committed {
        request: Number,
        number: Number,
    },
    /// The value of the key at this number.
    Value {
        request: Number,
        number: Number,
        value: Option<Value>,
    },
    /// The page of the range at this number.
    Rows {
        request: Number,
        number: Number,
        page: Page,
    },
    /// A snapshot at this number is open.
    Opened {
        request: Number,
        number: Number,
    },
    /// A snapshot at this number was closed.
    Closed {
        request: Number,
        number: Number,
    },
    Refused {
        request: Number,
        refusal: Refusal,
    },
}

/// The answer of a step.
#[derive(Drop)]
pub struct Output {
    /// Why the input was dropped, if it was.
    pub dropped: Option<DropReason>,
    /// The frames for other nodes, in order.
    pub frames: SentFrames,
    /// The replies for clients, in order.
    pub replies: ShortList<Reply>,
}
