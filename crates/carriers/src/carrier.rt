// What carries bytes between the nodes of a chain and their client.
ghost use Rattle.std.specs.Prelude.{◌↔◌, IfOk, IsTrue, List};
ghost use Rattle.carriers.specs.Carriers.{HasLost, IsCarried};
ghost use Rattle.carriers.specs.Transmissions.{HasCarriedMore, Transmission, carried_bytes};
ghost use Rattle.carriers.specs.Transmissions.{one_transmission};

use crate::LabError;
use configurations::NodeId;
use std::alloc::Global;

/// One end of what is carried.
#[derive(Clone, Copy, Debug, PartialEq, Eq)]
pub enum Peer {
    Client,
    Node(NodeId),
}

/// What became of bytes that were to be carried.
#[derive(Drop)]
pub enum Carried {
    /// They arrived, as they were sent. They need no copy.
    Same,
    /// These arrived.
    Bytes(Vec<u8>),
    /// They did not arrive, and never will.
    Lost,
}

/// Carries bytes between the nodes of a chain and their client.
pub trait Carrier {
    /// What arrives is what was sent. Without this fact `carry` promises only `faithful`, `lost`
    /// and `asked`.
    ghost is_faithful: { Self → Type 0 };

    /// Whether anything may be lost.
    ghost loses: { Type 0 };

    /// The carrier was asked for exactly these, in this order, and this arrived of each. Only
    /// `carry` makes this list longer. So of a carrier that is not direct, and of which nothing
    /// else is known, it says what was asked of it, and what it answered. A carrier may leave it
    /// open.
    ghost has_carried: { Self → List Transmission → Type 0 };

    /// Whether all that is sent arrives as it is, and nothing of it is kept. Then `carry` need not
    /// be called, and no bytes be spelled.
    fn is_direct(&self) -> bool
        ensures direct { IsTrue result → (more : List Transmission) →
            HasCarriedMore has_carried self.now self.now more }
        ensures whole { IsTrue result → is_faithful self.now × (loses → ⊥) }
    {
        false
    }

    /// Carries these bytes from one peer to another.
    fn carry(
        &mut self,
        alloc: Global,
        from: Peer,
        to: Peer,
        bytes: &[u8],
    ) -> Result<Carried, LabError>
        ensures faithful { is_faithful self.new ↔ is_faithful self.old }
        ensures carried { is_faithful self.old → IfOk result (IsCarried bytes.now) }
        ensures lost { IfOk result (λ it. HasLost it → loses) }
        ensures asked { IfOk result (λ it. HasCarriedMore has_carried self.old self.new
            (one_transmission from to bytes.now (carried_bytes bytes.now it))) };
}
