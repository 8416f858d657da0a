// A carrier that loses chosen turns.
ghost use Rattle.std.specs.Prelude.{◌≡◌};

use carriers::{Carried, Carrier, LabError, Peer};
use std::alloc::Global;

/// Loses the bytes of these turns, counted from 0, and carries all others.
#[derive(Drop)]
pub struct Losing {
    turns: Vec<u64>,
    turn: u64,
}

impl Losing {
    /// A carrier that loses these turns. Its next turn is 0.
    pub fn new(turns: Vec<u64>) -> Losing
        ensures turns { result.turns ≡ turns }
        ensures first { result.turn ≡ 0 }
    {
        Losing { turns, turn: 0 }
    }
}

impl Carrier for Losing {
    ghost is_faithful = { λ _. Unit {0} };

    ghost loses = { Unit {0} };

    ghost has_carried = { λ _ _. Unit {0} };

    fn carry(
        &mut self,
        alloc: Global,
        _from: Peer,
        _to: Peer,
        bytes: &[u8],
    ) -> Result<Carried, LabError> {
        let turn = self.turn;
        self.turn = turn.saturating_add(1);
        if self.turns.contains(&turn) {
            return Ok(Carried::Lost);
        }
        Ok(Carried::Bytes(bytes.to_vec(alloc)?))
    }
}
