//! Changes, ranges and numbers of a store that look random.

use crate::items::put;
use crate::plain_store::{Change, KEYS, Span};
use crate::sequence::Sequence;
use std::alloc::Global;
use std::process::Abort;

/// Changes, ranges and numbers that look random and are always the same.
#[derive(Drop)]
pub struct Numbers {
    sequence: Sequence,
}

impl Numbers {
    pub fn new() -> Numbers {
        Numbers {
            sequence: Sequence::new(1),
        }
    }

    /// The next number, from 0 to 65,535.
    pub fn next(&mut self) -> u16 {
        self.sequence.next()
    }

    fn place(&mut self) -> u16 {
        self.next() % KEYS
    }

    /// One in four changes is a deletion.
    pub fn change(&mut self) -> Change {
        let place = self.place();
        let value = self.next();
        let is_put = self.next() % 4 != 0;
        (place, if is_put { Some(value) } else { None })
    }

    /// One change or two.
    pub fn changes(&mut self, rt: &impl Abort, alloc: Global) -> Vec<Change> {
        let mut changes = Vec::new(alloc);
        for _ in 0..self.next() % 2 + 1 {
            put(rt, &mut changes, self.change());
        }
        changes
    }

    fn limit(&mut self) -> u32 {
        match self.next() % 8 {
            0 => 1,
            1..4 => 1_024,
            _ => u32::from(self.next() % 20 + 1),
        }
    }

    /// A range of 64 keys at most, or from the least key on. One in four has no upper bound, and
    /// some are empty.
    pub fn span(&mut self) -> Span {
        let low = self.place();
        let bound = low.saturating_add(self.next() % 66).saturating_sub(2);
        let has_bound = self.next() % 4 != 0;
        let low = if low % 8 == 0 { 0 } else { low };
        Span {
            low: if has_bound { low } else { KEYS - 1 - low % 64 },
            bound: if has_bound { Some(bound) } else { None },
            backward: self.next() % 2 == 0,
            limit: self.limit(),
        }
    }

    /// A number of batches from the floor up to this one.
    pub fn at(&mut self, floor: u64, count: u64) -> u64 {
        let span = count.saturating_sub(floor).saturating_add(1).max(1);
        floor.saturating_add(u64::from(self.next()) % span)
    }
}
