// Marks of batches.
ghost use Rattle.std.specs.Prelude.{◌≡◌, IfOk};
ghost use Rattle.std.specs.Int.{w64, to_be_bytes};
ghost use Rattle.kv_types.specs.Marks.{is_mark};

use crate::bounds::MAX_NUMBER;
use crate::{Number, Value};
use std::alloc::{AllocError, Global};

/// The mark of a batch: the number of its client, and which of the client's requests it is.
#[derive(Clone, Copy, Debug)]
pub struct Mark {
    pub client: u64,
    pub request: u64,
}

/// The mark that a list of batches holds for a client: the request of the last batch that bears one
/// of the client's marks, and that batch's number.
#[derive(Clone, Copy, Debug)]
pub struct HeldMark {
    pub request: u64,
    pub number: Number,
}

impl Mark {
    /// Whether a batch may bear the mark: both numbers are from 1 to 2^63 - 1.
    pub fn is_in_range(self) -> bool
        ensures { result ≡ is_mark self }
    {
        (1..=MAX_NUMBER).contains(&self.client) && (1..=MAX_NUMBER).contains(&self.request)
    }

    /// What the mark leaves at the key of its client: the request, in eight bytes.
    pub fn to_value(self, alloc: Global) -> Result<Value, AllocError>
        ensures { IfOk result (λ value. value ≡ to_be_bytes w64 self.request) }
    {
        match Value::new(Vec::from_slice(alloc, &self.request.to_be_bytes())?) {
            Ok(value) => Ok(value),
            Err(_) => unreachable!(),
        }
    }
}
