// Pseudo-random numbers, the same ones in each run.
ghost use Rattle.std.specs.Prelude.{◌≡◌, ◌<◌, ◌%◌, max};
ghost use Rattle.benchmarks.specs.Keys.{first_seed, next_seed};

use std::marker::Model;

/// The divisor of the generator: 2^31 - 1.
const DIVISOR: u64 = 2_147_483_647;

/// The factor of the generator.
const FACTOR: u64 = 16_807;

/// The generator of Park and Miller, which LevelDB's benchmarks draw from. A contract sees it as
/// its last number.
#[derive(Clone, Copy, Debug)]
pub struct Random {
    seed: u32,
}

impl Model for Random {
    ghost use Rattle.std.specs.Prelude.{ℕ};

    ghost Value = { ℕ };

    ghost view = { λ random. random.seed };

    ghost inverse = { λ seed. record { seed = seed } };
}

impl Random {
    /// The generator that begins with the low 31 bits of this seed. It begins with 1 where none of
    /// them is set, or all are: else it would draw nothing but 0.
    pub fn new(seed: u32) -> Random
        ensures { result ≡ first_seed seed }
    {
        let low = seed & 0x7fff_ffff;
        if low == 0 || low == 0x7fff_ffff {
            return Random { seed: 1 };
        }
        Random { seed: low }
    }

    /// The next number, below 2^31 - 1.
    pub fn next(&mut self) -> u32
        ensures number { result ≡ next_seed self.old }
        ensures seed { self.new ≡ next_seed self.old }
        ensures limit { result < 2147483647 }
    {
        let next = u64::from(self.seed) * FACTOR % DIVISOR;
        self.seed = next as u32;
        self.seed
    }

    /// The next number's remainder below this bound, which counts as 1 where it is 0.
    pub fn below(&mut self, bound: u64) -> u64
        ensures number { result ≡ next_seed self.old % max bound 1 }
        ensures limit { 0 < bound → result < bound }
        ensures seed { self.new ≡ next_seed self.old }
    {
        u64::from(self.next()) % bound.max(1)
    }
}
