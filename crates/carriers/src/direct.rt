// The carrier in memory.
use crate::{Carried, Carrier, LabError, Peer};
use std::alloc::Global;

/// Carries everything, as it is sent. Nothing is copied.
#[derive(Clone, Copy, Debug)]
pub struct Direct;

impl Carrier for Direct {
    ghost is_faithful = { λ _. Unit {0} };

    ghost loses = { ⊥ };

    ghost has_carried = { λ _ _. Unit {0} };

    fn is_direct(&self) -> bool {
        true
    }

    fn carry(
        &mut self,
        _alloc: Global,
        _from: Peer,
        _to: Peer,
        _bytes: &[u8],
    ) -> Result<Carried, LabError> {
        Ok(Carried::Same)
    }
}
