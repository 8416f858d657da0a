// A row: a key and its value.
ghost use Rattle.std.specs.Prelude.{◌≡◌, ◌≤◌, length, IfOk};
ghost use Rattle.byte_fields.specs.declared.stored_key.TheConstants.{MAX_KEY};
ghost use Rattle.kv_types.specs.declared.bounds.TheConstants.{MAX_VALUE};

use crate::Key;
use crate::bounds::ROW_OVERHEAD;
use std::alloc::{AllocError, Global};
use std::marker::Model;

/// A key with its value in a map, in one piece of memory.
#[derive(Debug, Drop)]
pub struct Row {
    // The key, and the value behind it.
    bytes: Vec<u8>,
    key_len: usize,
}

impl Model for Row {
    ghost use Rattle.std.specs.Prelude.{◌≤◌, ◌-◌, drop, length, take};
    ghost use Rattle.byte_fields.specs.declared.stored_key.TheConstants.{MAX_KEY};
    ghost use Rattle.kv_types.specs.declared.bounds.TheConstants.{MAX_VALUE};
    ghost use Rattle.kv_types.specs.Spans.{Row};

    ghost Value = { Row };

    ghost view = { λ row. record {
      key = take row.key_len row.bytes.items;
      value = drop row.key_len row.bytes.items;
    } };

    ghost invariant = { λ row. (row.key_len ≤ length row.bytes.items) × (row.key_len ≤ MAX_KEY)
        × (length row.bytes.items - row.key_len ≤ MAX_VALUE) };
}

impl Row {
    ghost use Rattle.kv_types.specs.Pages.{row_size};

    /// The row of this key and value, with memory of its own.
    pub fn new(alloc: Global, key: &[u8], value: &[u8]) -> Result<Row, AllocError>
        requires key { length key.now ≤ MAX_KEY }
        requires value { length value.now ≤ MAX_VALUE }
        ensures { IfOk result (λ row. row ≡ record { key = key.now; value = value.now }) }
    {
        let mut bytes = Vec::with_capacity(alloc, key.len() + value.len())?;
        bytes.extend_from_slice(key)?;
        bytes.extend_from_slice(value)?;
        let key_len = key.len();
        Ok(Row { bytes, key_len })
    }

    pub fn key(&self) -> &[u8]
        ensures key { result.now ≡ self.now.key }
        ensures limit { length self.now.key ≤ MAX_KEY }
    {
        &self.bytes[..self.key_len]
    }

    /// A copy of the key.
    pub fn to_key(&self, alloc: Global) -> Result<Key, AllocError>
        ensures { IfOk result (λ key. key ≡ self.now.key) }
    {
        match Key::new(Vec::from_slice(alloc, self.key())?) {
            Ok(key) => Ok(key),
            Err(_) => unreachable!(),
        }
    }

    pub fn value(&self) -> &[u8]
        ensures value { result.now ≡ self.now.value }
        ensures limit { length self.now.value ≤ MAX_VALUE }
    {
        &self.bytes[self.key_len..]
    }

    /// The bytes that the row counts in a page.
    pub fn size(&self) -> usize
        ensures { result ≡ row_size self.now }
    {
        self.bytes.len() + ROW_OVERHEAD
    }

    pub fn clone(&self) -> Result<Row, AllocError>
        ensures { IfOk result (λ row. row ≡ self.now) }
    {
        Ok(Row {
            bytes: Vec::from_slice(*self.bytes.allocator(), &self.bytes)?,
            key_len: self.key_len,
        })
    }
}
