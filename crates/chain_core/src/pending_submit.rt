// A request whose batch is not yet committed.
use kv_types::Number;

/// A pending request, whose batch has this number.
#[derive(Clone, Copy, PartialEq, Eq)]
pub struct PendingSubmit {
    pub number: Number,
    pub request: Number,
}
