//! Memtables.

ghost use Rattle.std.specs.Prelude.{◌≡◌, ◌↔◌, ◌⊎◌, IsErr, IsErrOf, IfOk, OnOk, OnErr};
ghost use Rattle.std.specs.Prelude.{MatchResult, false};
ghost use Rattle.kv_types.specs.{Entry, entries_of};
ghost use Rattle.std.proofs.Props.{props};
ghost use Rattle.merge_iter.specs.{IsAlike, IsTableEntry, Off};
ghost use Rattle.memtable.specs.Maps.{HasLimits, HasRisingNumbers};

use crate::cursor::MemCursor;
use crate::error::MemtableError;
use crate::found::Found;
use crate::put::put_all;
use crate::version::Versions;
use byte_fields::StoredKey;
use kv_types::{Batch, Number};
use merge_iter::Cursor;
use std::alloc::Global;
use std::collections::BTreeMap;

/// The entries of batches.
#[derive(Drop)]
pub struct Memtable {
    alloc: Global,
    map: BTreeMap<StoredKey, Versions>,
    bytes: u64,
    has_failed: bool,
    ghost rising: { has_failed ≡ false → HasRisingNumbers map },
    ghost limits: { has_failed ≡ false → HasLimits map } by { Prim.hlevel props },
}

impl Memtable {
    ghost use Rattle.memtable.specs.Tables.{TableHolds, HasFailedAdd, IsNewNumber, IsFoundAt};
    ghost use Rattle.memtable.specs.Tables.{table_bytes};
    ghost use Rattle.memtable.specs.Sizes.{capped_sum, batch_size};

    /// A memtable without entries.
    pub fn new(alloc: Global) -> Memtable
        ensures empty { (entry : Entry) → TableHolds result entry → ⊥ }
        ensures bytes { table_bytes result ≡ 0 }
        ensures works { HasFailedAdd result → ⊥ }
    {
        Memtable {
            alloc,
            map: BTreeMap::new(alloc),
            bytes: 0,
            has_failed: false,
        }
    }

    /// Adds the entries of a batch: for each of its keys what the last edit left, and the request
    /// of its mark. After `Memory` the memtable answers `Failed`.
    pub fn add(&mut self, number: Number, batch: &Batch) -> Result<(), MemtableError>
        requires { IsNewNumber self.old number }
        ensures adds { OnOk result ((entry : Entry) → TableHolds self.new entry
            ↔ (TableHolds self.old entry ⊎ entries_of number batch.now entry)) }
        ensures bytes { OnOk result
            (table_bytes self.new ≡ capped_sum (table_bytes self.old) (batch_size batch.now)) }
        ensures bytes_stay { OnErr result (table_bytes self.new ≡ table_bytes self.old) }
        ensures failed { IsErrOf result MemtableError.Failed ↔ HasFailedAdd self.old }
        ensures fails { HasFailedAdd self.new ↔ IsErr result }
    {
        if self.has_failed {
            return Err(MemtableError::Failed);
        }
        self.has_failed = true;
        let edits = batch.edits();
        let mark = batch.mark();
        self.bytes = put_all(
            self.alloc,
            &mut self.map,
            number.get(),
            edits,
            mark,
            self.bytes,
        )?;
        self.has_failed = false;
        Ok(())
    }

    /// The bytes that the entries count: see docs/FORMATS.md. It takes no memory.
    pub fn bytes(&self) -> u64
        ensures { result ≡ table_bytes self.now }
    {
        self.bytes
    }

    /// What the key has at a number. It takes no memory.
    pub fn get<'a>(&'a self, key: &StoredKey, at: Number) -> Result<Found<'a>, MemtableError>
        ensures found { IfOk result (IsFoundAt self.now key.now at) }
        ensures failed { MatchResult result (λ _. HasFailedAdd self.now → ⊥)
            (λ e. (e ≡ MemtableError.Failed) × HasFailedAdd self.now) }
    {
        if self.has_failed {
            return Err(MemtableError::Failed);
        }
        let Some(versions) = self.map.get(key) else {
            return Ok(Found::None);
        };
        let Some(place) = versions.last_up_to(at.get()) else {
            return Ok(Found::None);
        };
        let version = versions.get(place);
        match &version.value {
            Some(value) => Ok(Found::Value(value, version.number)),
            None => Ok(Found::Deleted),
        }
    }

    /// A cursor over all entries, which stands on none.
    pub fn cursor<'a>(&'a self) -> Result<MemCursor<'a>, MemtableError>
        ensures holds { IfOk result (λ cursor.
            IsAlike (⟦<MemCursor<'a> as Cursor>⟧.holds tt cursor tt) (TableHolds self.now)) }
        ensures sound { IfOk result (λ cursor. ⟦<MemCursor<'a> as Cursor>⟧.is_sound tt cursor tt) }
        ensures limits { IfOk result (λ cursor. (entry : Entry) → TableHolds self.now entry →
            IsTableEntry entry) }
        ensures off { IfOk result (λ cursor. ⟦<MemCursor<'a> as Cursor>⟧.position cursor ≡ Off) }
        ensures failed { MatchResult result (λ _. HasFailedAdd self.now → ⊥)
            (λ e. (e ≡ MemtableError.Failed) × HasFailedAdd self.now) }
    {
        if self.has_failed {
            return Err(MemtableError::Failed);
        }
        Ok(MemCursor::new(self.alloc, &self.map))
    }
}
