// A carrier that alters bytes.
ghost use Rattle.std.specs.Prelude.{◌≡◌};

use carriers::{Carried, Carrier, LabError, Peer};
use std::alloc::Global;

/// In this turn, counted from 0, the byte in this place becomes another.
#[derive(Clone, Copy, Debug)]
pub struct Alteration {
    pub turn: u64,
    pub place: usize,
    pub byte: u8,
}

/// Carries everything, with these alterations. It is not faithful.
#[derive(Drop)]
pub struct Altering {
    alterations: Vec<Alteration>,
    turn: u64,
}

impl Altering {
    /// A carrier that makes these alterations. Its next turn is 0.
    pub fn new(alterations: Vec<Alteration>) -> Altering
        ensures alterations { result.alterations ≡ alterations }
        ensures first { result.turn ≡ 0 }
    {
        Altering {
            alterations,
            turn: 0,
        }
    }
}

impl Carrier for Altering {
    ghost is_faithful = { λ _. ⊥ };

    ghost loses = { ⊥ };

    ghost has_carried = { λ _ _. Unit {0} };

    fn carry(
        &mut self,
        alloc: Global,
        _from: Peer,
        _to: Peer,
        bytes: &[u8],
    ) -> Result<Carried, LabError> {
        let turn = self.turn;
        self.turn = turn.saturating_add(1);
        let mut got = bytes.to_vec(alloc)?;
        for it in &self.alterations {
            if it.turn == turn {
                if let Some(byte) = got.get_mut(it.place) {
                    *byte = it.byte;
                }
            }
        }
        Ok(Carried::Bytes(got))
    }
}
