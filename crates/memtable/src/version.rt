//! The versions of one key.

ghost use Rattle.std.specs.Prelude.{◌≡◌, ◌<◌, IfOk, OnOk, [], ◌∷◌, length, slice_get, Some};
ghost use Rattle.memtable.specs.Versions.{all_of, with_version, lacks, IsRisingList, IsLastUpTo};

use kv_types::Value;
use std::alloc::{AllocError, Global};
use std::mem::replace;

/// What a batch left at a key: a value, or the key's deletion.
#[derive(Drop)]
pub struct Version {
    pub number: u64,
    pub value: Option<Value>,
}

/// The versions of a key, of which there is at least one. Their numbers rise.
#[derive(Drop)]
pub struct Versions {
    pub older: Vec<Version>,
    pub newest: Version,
}

impl Versions {
    pub fn new(alloc: Global, newest: Version) -> Versions
        ensures all { all_of result ≡ newest ∷ [] }
        ensures newest { result.newest ≡ newest }
    {
        Versions {
            older: Vec::new(alloc),
            newest,
        }
    }

    /// Adds a version behind those that are there, unless the newest of them has its number. Says
    /// whether it did.
    pub fn push(&mut self, version: Version) -> Result<bool, AllocError>
        ensures all { OnOk result (all_of self.new ≡ with_version (all_of self.old) version) }
        ensures is_added { IfOk result (λ added.
            added ≡ lacks (all_of self.old) version.number) }
    {
        if self.newest.number == version.number {
            return Ok(false);
        }
        let before = replace(&mut self.newest, version);
        self.older.push(before)?;
        Ok(true)
    }

    pub fn get(&self, at: usize) -> &Version
        requires { at < length (all_of self.now) }
        ensures { slice_get (all_of self.now) at ≡ Some result.now }
    {
        if at < self.older.len() {
            &self.older[at]
        } else {
            &self.newest
        }
    }

    /// The place of the last one whose number is at most this.
    pub fn last_up_to(&self, number: u64) -> Option<usize>
        ensures { IsRisingList (all_of self.now) → IsLastUpTo (all_of self.now) number result }
    {
        if self.newest.number <= number {
            return Some(self.older.len());
        }
        let mut low = 0;
        let mut high = self.older.len();
        while low < high {
            let middle = low + (high - low) / 2;
            if self.older[middle].number <= number {
                low = middle + 1;
            } else {
                high = middle;
            }
        }
        if low == 0 { None } else { Some(low - 1) }
    }
}
