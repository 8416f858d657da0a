// The place of a configuration in its list, from 0.
ghost use Rattle.std.specs.Prelude.{◌≡◌, ◌≤◌, SomeIff};

use std::marker::Model;

/// The place of a configuration in the configuration service's list: 0 to 15.
#[derive(Clone, Copy, Debug, PartialEq, Eq, PartialOrd, Ord)]
pub struct Epoch {
    epoch: u32,
}

impl Model for Epoch {
    ghost use Rattle.std.specs.Prelude.{◌≤◌, ℕ};

    ghost Value = { ℕ };

    ghost view = { λ it. it.epoch };

    ghost invariant = { λ it. it.epoch ≤ 15 };

    ghost inverse = { λ epoch. record { epoch = epoch } };
}

impl Epoch {
    /// The epoch of the first configuration.
    pub const FIRST: Epoch = Epoch { epoch: 0 };

    /// The epoch of this number. `None` above 15.
    pub fn new(epoch: u32) -> Option<Epoch>
        ensures { SomeIff result (epoch ≤ 15) epoch }
    {
        if epoch > 15 {
            return None;
        }
        Some(Epoch { epoch })
    }

    /// Its number.
    pub fn get(self) -> u32
        ensures same { result ≡ self }
        ensures limit { self ≤ 15 }
    {
        self.epoch
    }
}
