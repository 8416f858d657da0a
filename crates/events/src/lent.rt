// The kind of an event, lent.
use crate::kind::EventKind;
use configurations::NodeId;
use kv_types::{Batch, Key, Number};

/// The kind of an event, lent: as a whole (`Kept`), or in its parts.
#[derive(Clone, Copy)]
pub enum LentKind<'a> {
    Deliver(u64),
    Submit(NodeId, &'a Batch),
    Get(NodeId, &'a Key, Option<Number>),
    Kept(&'a EventKind),
}
