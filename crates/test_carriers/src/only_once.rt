// A carrier that carries no message again.
ghost use Rattle.std.specs.Prelude.{◌≡◌, []};

use carriers::{Carried, Carrier, LabError, Peer};
use std::alloc::Global;

// What was carried.
#[derive(Drop)]
struct SentBytes {
    from: Peer,
    to: Peer,
    bytes: Vec<u8>,
}

/// Carries each message once, and loses it where it is sent again.
#[derive(Drop)]
pub struct OnlyOnce {
    carried: Vec<SentBytes>,
}

impl OnlyOnce {
    /// A carrier that has carried nothing.
    pub fn new(alloc: Global) -> OnlyOnce
        ensures { result.carried.items ≡ [] }
    {
        OnlyOnce {
            carried: Vec::new(alloc),
        }
    }

    // Whether this was carried.
    fn has_carried(&self, sent: &SentBytes) -> bool {
        for it in &self.carried {
            let is_between = it.from == sent.from && it.to == sent.to;
            if is_between && it.bytes.as_slice() == sent.bytes.as_slice() {
                return true;
            }
        }
        false
    }
}

impl Carrier for OnlyOnce {
    ghost is_faithful = { λ _. Unit {0} };

    ghost loses = { Unit {0} };

    ghost has_carried = { λ _ _. Unit {0} };

    fn carry(
        &mut self,
        alloc: Global,
        from: Peer,
        to: Peer,
        bytes: &[u8],
    ) -> Result<Carried, LabError> {
        let got = bytes.to_vec(alloc)?;
        let sent = SentBytes {
            from,
            to,
            bytes: bytes.to_vec(alloc)?,
        };
        if self.has_carried(&sent) {
            return Ok(Carried::Lost);
        }
        self.carried.push(sent)?;
        Ok(Carried::Bytes(got))
    }
}
