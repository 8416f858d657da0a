//! An entry with memory of its own.
ghost use Rattle.std.specs.Prelude.{◌≡◌, ◌↔◌, IfSome, IsSome, option_map};
ghost use Rattle.std.proofs.Props.{props};
ghost use Rattle.merge_iter.specs.TableEntries.{IsTableEntry};

use byte_fields::StoredKey;
use kv_types::bounds::{MAX_NUMBER, MAX_VALUE};

/// A version of a key: its value at a number, or `None` if the key was deleted there. It keeps the
/// limits of a table's entry.
#[derive(Drop)]
pub struct OwnedEntry {
    pub key: StoredKey,
    pub number: u64,
    pub value: Option<Vec<u8>>,
    ghost limits: { IsTableEntry (record {
      key = key;
      number = number;
      value = option_map (λ v. v.items) value;
    }) } by { Prim.hlevel props },
}

impl OwnedEntry {
    /// The entry of these parts, or `None` where one is beyond its limit.
    pub fn new(key: StoredKey, number: u64, value: Option<Vec<u8>>) -> Option<OwnedEntry>
        ensures made { IfSome result (λ entry. (entry.key ≡ key) × (entry.number ≡ number)
            × (entry.value ≡ value)) }
        ensures limits { IsSome result ↔ IsTableEntry (record {
          key = key;
          number = number;
          value = option_map (λ v. v.items) value;
        }) }
    {
        let value_len = match &value {
            Some(value) => value.len(),
            None => 0,
        };
        if number > MAX_NUMBER || value_len > MAX_VALUE {
            return None;
        }
        Some(OwnedEntry { key, number, value })
    }
}
