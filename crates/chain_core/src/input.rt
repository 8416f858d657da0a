// The inputs of a node: requests of clients, frames of neighbours, notices, ticks.
ghost use Rattle.std.specs.Prelude.{◌≡◌};
ghost use Rattle.chain_core.specs.Marks.{client_of};

use configurations::{Config, Epoch, NodeId};
use kv_types::{Batch, Key, Number};
use link_messages::BoxedRange;

/// An input of a running node.
#[derive(Drop)]
pub enum Input {
    Submit {
        request: Number,
        batch: Batch,
    },
    /// A client's read at a number, or else at the committed number.
    Get {
        request: Number,
        key: Key,
        at: Option<Number>,
    },
    /// A client's read of the rows of a range, at a number or else at the committed number.
    Rows {
        request: Number,
        range: BoxedRange,
        at: Option<Number>,
    },
    /// A client holds a number open, or else the committed number.
    Open {
        request: Number,
        at: Option<Number>,
    },
    /// A client closes a snapshot at this number.
    Close {
        request: Number,
        number: Number,
    },
    /// The predecessor's batch of this number.
    Forward {
        epoch: Epoch,
        from: NodeId,
        number: Number,
        batch: Batch,
    },
    /// The successor's report of its committed number and its number of batches.
    Ack {
        epoch: Epoch,
        from: NodeId,
        committed: Number,
        have: Number,
    },
    /// The configuration service reports the configuration of an epoch.
    Notice {
        epoch: Epoch,
        config: Config,
    },
    /// A turn to send again.
    Tick,
}

impl Input {
    /// The client of the mark of the submitted batch, if there is one.
    pub fn client(&self) -> Option<u64>
        ensures { result ≡ client_of self.now }
    {
        let Input::Submit { batch, .. } = self else {
            return None;
        };
        let mark = batch.mark()?;
        Some(mark.client)
    }
}
