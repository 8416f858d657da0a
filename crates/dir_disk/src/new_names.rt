// The files that a disk has made whose names may still be lost.
ghost use Rattle.std.specs.Prelude.{◌≡◌, ◌==◌, []};
ghost use Rattle.std.specs.List.{list_any};

use std::alloc::{AllocError, Global};

/// The numbers of the files that were made since the folder was synced.
#[derive(Drop)]
pub struct NewNames {
    numbers: Vec<u64>,
}

impl NewNames {
    pub fn new(alloc: Global) -> NewNames
        ensures { result.numbers.items ≡ [] }
    {
        NewNames {
            numbers: Vec::new(alloc),
        }
    }

    /// Whether this file was made since then.
    pub fn has(&self, number: u64) -> bool
        ensures { result ≡ list_any (λ it. it == number) self.now.numbers.items }
    {
        self.numbers.iter().any(|it| *it == number)
    }

    /// Notes a file that is about to be made.
    pub fn note(&mut self, number: u64) -> Result<(), AllocError> {
        if !self.has(number) {
            self.numbers.push(number)?;
        }
        Ok(())
    }

    /// The folder was synced.
    pub fn clear(&mut self)
        ensures { self.new.numbers.items ≡ [] }
    {
        self.numbers.clear();
    }
}
