//! Memtables with the greatest number that they hold.

ghost use Rattle.std.specs.Prelude.{◌+◌};
ghost use Rattle.memtable.specs.{IsNewNumber};

use kv_types::{Batch, Number};
use memtable::Memtable;
use std::alloc::Global;
use std::process::Abort;

/// A memtable, and the greatest number that was added.
#[derive(Drop)]
pub struct Numbered {
    table: Memtable,
    last: u64,
    ghost above: { IsNewNumber table (last + 1) },
}

impl Numbered {
    pub fn new(alloc: Global) -> Numbered {
        Numbered {
            table: Memtable::new(alloc),
            last: 0,
        }
    }

    pub fn table(&self) -> &Memtable {
        &self.table
    }

    /// Adds a batch, and says whether its number was above the last.
    pub fn add(&mut self, rt: &impl Abort, number: u64, batch: &Batch) -> bool {
        let Some(next) = Number::new(number) else {
            return false;
        };
        if number <= self.last {
            return false;
        }
        self.table.add(next, batch).expect(rt, "memory");
        self.last = number;
        true
    }
}
