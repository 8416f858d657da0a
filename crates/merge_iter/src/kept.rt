//! An entry that is kept while the cursor that it was read from moves on.
ghost use Rattle.std.specs.Prelude.{◌≡◌, ◌↔◌, IsTrue, OnOk, IfOk, IsSome, Some, []};
ghost use Rattle.byte_fields.specs.{row_key};
ghost use Rattle.merge_iter.specs.Positions.{IsOn, IfOn};
ghost use Rattle.merge_iter.specs.KeptEntries.{kept_entry};

use crate::cursor::Cursor;
use byte_fields::KeyBuffer;
use std::alloc::{AllocError, Global};

/// An entry with a value, in memory of its own.
#[derive(Drop)]
pub struct KeptEntry {
    pub key: KeyBuffer,
    pub number: u64,
    pub value: Vec<u8>,
}

impl KeptEntry {
    /// Room for an entry, without memory yet.
    pub fn new(alloc: Global) -> KeptEntry
        ensures { kept_entry result ≡ record { key = row_key []; number = 0; value = Some [] } }
    {
        KeptEntry {
            key: KeyBuffer::new(alloc),
            number: 0,
            value: Vec::new(alloc),
        }
    }

    /// Keeps the entry that the cursor stands on, if it is no deletion; answers whether.
    pub fn keep<C: Cursor>(&mut self, cursor: &C) -> Result<bool, AllocError>
        requires { IsOn (C.position cursor.now) }
        ensures put { IfOk result (λ kept. IfOn (C.position cursor.now)
            (λ entry. IsTrue kept ↔ IsSome entry.value)) }
        ensures kept { IfOk result (λ kept. IfOn (C.position cursor.now)
            (λ entry. IsTrue kept → kept_entry self.new ≡ entry)) }
    {
        let Some(value) = cursor.value() else {
            return Ok(false);
        };
        copy(&mut self.value, value)?;
        self.key.set(cursor.key())?;
        self.number = cursor.number();
        Ok(true)
    }
}

// Replaces the bytes of the buffer by these.
fn copy(into: &mut Vec<u8>, bytes: &[u8]) -> Result<(), AllocError>
    ensures { OnOk result (into.new.items ≡ bytes.now) }
{
    into.clear();
    into.extend_from_slice(bytes)
}
