// Values: byte strings of at most 16,384 bytes.
ghost use Rattle.std.specs.Prelude.{◌≡◌, ◌<◌, ◌≤◌, length, IfOk, IfErr};
ghost use Rattle.std.specs.Prelude.{Ok, None, List, ℕ, ◌++◌, OnOk, IfSome};
ghost use Rattle.byte_fields.specs.{text_bytes, text_at};
ghost use Rattle.byte_fields.specs.{ReadsBytes};

use crate::KvError;
use crate::bounds::MAX_VALUE;
use byte_fields::{put_text, read_text};
use std::alloc::{AllocError, Global};
use std::marker::Model;

/// A value: at most 16,384 bytes.
#[derive(Debug, Drop)]
pub struct Value {
    bytes: Vec<u8>,
}

impl Model for Value {
    ghost use Rattle.std.specs.Prelude.{◌≤◌, List, ℕ, length};
    ghost use Rattle.kv_types.specs.declared.bounds.TheConstants.{MAX_VALUE};

    ghost Value = { List ℕ };

    ghost view = { λ value. value.bytes.items };

    ghost invariant = { λ value. length value.bytes.items ≤ MAX_VALUE };
}

impl Value {
    /// The value of these bytes. `ValueTooLong` refuses more than 16,384, and nothing else is
    /// refused.
    pub fn new(bytes: Vec<u8>) -> Result<Value, KvError>
        ensures made { IfOk result (λ value. (value ≡ bytes.items) × (length value ≤ MAX_VALUE)) }
        ensures too_long { IfErr result (λ e. (e ≡ KvError.ValueTooLong)
            × (MAX_VALUE < length bytes.items)) }
    {
        if bytes.len() > MAX_VALUE {
            return Err(KvError::ValueTooLong);
        }
        Ok(Value { bytes })
    }

    pub fn as_bytes(&self) -> &[u8]
        ensures bytes { result.now ≡ self.now }
        ensures limit { length self.now ≤ MAX_VALUE }
    {
        &self.bytes
    }

    /// Appends the spelling of the value to `out`.
    pub fn spell_into(&self, out: &mut Vec<u8>) -> Result<(), AllocError>
        ensures spelled { OnOk result (out.new.items ≡ out.old.items ++ text_bytes self.now) }
        ensures limit { length self.now ≤ MAX_VALUE }
    {
        put_text(out, &self.bytes)
    }

    /// The value at the front of the bytes, and the bytes behind it, if there is one.
    pub fn read_from(alloc: Global, bytes: &[u8]) -> Result<Option<(Value, &[u8])>, AllocError>
        ensures found { IfOk result (λ read. IfSome read (λ x.
            (bytes.now ≡ text_bytes x.0 ++ x.1.now) × (length x.0 ≤ MAX_VALUE))) }
        ensures bad { result ≡ Ok None → (value rest : List ℕ)
            → length value ≤ MAX_VALUE → bytes.now ≡ text_bytes value ++ rest → ⊥ }
        ensures exact { ReadsBytes (λ x. (x.0, x.1.now)) result (text_at MAX_VALUE bytes.now) }
    {
        let Some((text, rest)) = read_text(MAX_VALUE, bytes) else {
            return Ok(None);
        };
        let bytes = Vec::from_slice(alloc, text)?;
        Ok(Some((Value { bytes }, rest)))
    }

    pub fn clone(&self) -> Result<Value, AllocError>
        ensures { IfOk result (λ value. value ≡ self.now) }
    {
        Ok(Value {
            bytes: Vec::from_slice(*self.bytes.allocator(), &self.bytes)?,
        })
    }
}
