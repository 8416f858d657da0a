// What an event is.
use crate::kind::EventKind;
use disk::Fault;

/// What an event is: its kind, and a fault.
#[derive(Drop)]
pub struct EventContent {
    pub kind: EventKind,
    /// A fault of the node's disk during the step. `Fail` makes a call of the disk fail, counted
    /// from 1 in the step: the node stops for its disk, which crashes with `Old`. `Stop` stops the
    /// machine in that call: the disk crashes with the fault's junk, and the line names no cause. A
    /// step that makes fewer calls is as one without a fault, and the fault is forgotten after it.
    pub fault: Fault,
}
