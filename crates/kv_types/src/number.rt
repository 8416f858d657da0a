// Numbers of batches and requests, from 0 to 2^63 - 1.
ghost use Rattle.std.specs.Prelude.{◌≡◌, ◌+◌, ◌<◌, ◌≤◌, SomeIff};

use crate::bounds::MAX_NUMBER;
use std::marker::Model;

/// A number of a batch, a request or a file: at most 2^63 - 1.
#[derive(Clone, Copy, Debug, PartialEq, Eq, PartialOrd, Ord)]
pub struct Number {
    value: u64,
}

impl Model for Number {
    ghost use Rattle.std.specs.Prelude.{◌≤◌, ℕ};
    ghost use Rattle.kv_types.specs.declared.bounds.TheConstants.{MAX_NUMBER};

    ghost Value = { ℕ };

    ghost view = { λ number. number.value };

    ghost invariant = { λ number. number.value ≤ MAX_NUMBER };

    ghost inverse = { λ value. record { value = value } };
}

impl Number {
    pub const ZERO: Number = Number { value: 0 };

    /// The number of this value, or `None` above 2^63 - 1.
    pub fn new(value: u64) -> Option<Number>
        ensures { SomeIff result (value ≤ MAX_NUMBER) value }
    {
        if value > MAX_NUMBER {
            return None;
        }
        Some(Number { value })
    }

    pub fn get(self) -> u64
        ensures same { result ≡ self }
        ensures limit { self ≤ MAX_NUMBER }
    {
        self.value
    }

    /// The next higher number, or `None` for the greatest.
    pub fn next(self) -> Option<Number>
        ensures { SomeIff result (self < MAX_NUMBER) (self + 1) }
    {
        if self.value >= MAX_NUMBER {
            return None;
        }
        Some(Number {
            value: self.value + 1,
        })
    }
}
