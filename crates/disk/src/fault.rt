// Faults of a device.
ghost use Rattle.std.specs.Prelude.{◌≡◌, IfOk};

use crate::Junk;
use std::alloc::AllocError;

/// A fault of a device at a call, counted from 1. One at call 0 strikes none.
#[derive(Debug, Drop)]
pub enum Fault {
    None,
    /// The call fails, and so do all later ones.
    Fail(u64),
    /// The machine stops in the call, and the disk crashes with this junk.
    Stop(u64, Junk),
}

impl Fault {
    pub fn clone(&self) -> Result<Fault, AllocError>
        ensures { IfOk result (λ fault. fault ≡ self.now) }
    {
        match self {
            Fault::None => Ok(Fault::None),
            Fault::Fail(call) => Ok(Fault::Fail(*call)),
            Fault::Stop(call, junk) => Ok(Fault::Stop(*call, junk.clone()?)),
        }
    }
}
