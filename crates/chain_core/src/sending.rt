// The frames of a node: its acknowledgement, its batches, and those of a tick.
ghost use Rattle.std.specs.Prelude.{◌≡◌, ◌<◌, ◌≤◌, ◌+◌, ◌-◌, Some, IsSome};
ghost use Rattle.std.specs.Prelude.{option_to_list};
ghost use Rattle.configurations.specs.{successor};
ghost use Rattle.kv_types.specs.{place};
ghost use Rattle.chain_model.specs.{ack, forward, forwards};
ghost use Rattle.chain_core.specs.States.{Machine, CoreRefines};
ghost use Rattle.chain_core.specs.Decisions.{AreFrames};

use crate::CoreState;
use configurations::NodeId;
use kv_types::{Batch, Number};
use link_messages::Frame;
use std::ops::Range;

/// The greatest number of batches that one tick sends again.
const MAX_RESENT: u64 = 16;

/// A frame for a node.
#[derive(Drop)]
pub struct Sent {
    pub to: NodeId,
    pub frame: Frame,
}

impl CoreState {
    /// The acknowledgement for the predecessor: the committed number and the number of batches.
    pub fn ack(&self) -> Option<Sent>
        ensures { (n : Machine) → CoreRefines self.now n →
            AreFrames (option_to_list result) (ack self.now.id n) }
    {
        let to = self.predecessor()?;
        let frame = Frame::Ack {
            epoch: self.epoch(),
            from: self.id(),
            committed: self.committed(),
            have: self.count(),
        };
        Some(Sent { to, frame })
    }

    /// The frame of a batch for the successor.
    pub fn forward(&self, number: Number, batch: Batch) -> Option<Sent>
        ensures { (n : Machine) → CoreRefines self.now n → place n.list number ≡ Some batch →
            AreFrames (option_to_list result) (forward self.now.id n number) }
    {
        let to = self.successor()?;
        let frame = Frame::Forward {
            epoch: self.epoch(),
            from: self.id(),
            number,
            batch,
        };
        Some(Sent { to, frame })
    }

    /// The numbers of the batches that a tick sends again.
    pub fn resends(&self) -> Range<u64>
        ensures from { result.start ≡ self.now.successor_has + 1 }
        ensures limit { result.end ≤ result.start + 16 }
        ensures there { result.start < result.end → result.end ≤ self.now.count + 1 }
        ensures to { result.start < result.end →
            IsSome (successor self.now.ids self.now.id) }
        ensures kept { result.start < result.end → self.now.kept < result.start }
        ensures all { (n : Machine) → CoreRefines self.now n →
            forwards self.now.id n n.successor_has 16
            ≡ forwards self.now.id n n.successor_has (result.end - result.start) }
    {
        // law: the node's numbers are in order
        let _ = self.committed();
        // law: the node's ids differ, so a node with a successor is no tail
        let _ = self.config().ids();
        let has = self.successor_has().get();
        if self.successor().is_none() {
            return has + 1..has + 1;
        }
        let more = self.count().get().saturating_sub(has).min(MAX_RESENT);
        has + 1..has + 1 + more
    }
}
