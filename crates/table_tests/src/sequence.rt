//! Numbers that look random and are always the same.

/// A linear congruential sequence, with Knuth's constants.
#[derive(Drop)]
pub struct Sequence {
    state: u64,
}

impl Sequence {
    pub fn new(seed: u64) -> Sequence {
        Sequence { state: seed }
    }

    /// The next number, from 0 to 65,535.
    pub fn next(&mut self) -> u16 {
        self.state = self
            .state
            .wrapping_mul(6_364_136_223_846_793_005)
            .wrapping_add(1_442_695_040_888_963_407);
        (self.state >> 48) as u16
    }
}
