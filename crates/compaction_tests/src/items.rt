//! Keys, batches, lists and the like, as tests make them.

use byte_fields::StoredKey;
use kv_types::{Key, Number};
use std::alloc::Global;
use std::process::Abort;

/// A copy of these bytes.
pub fn copy_of(rt: &impl Abort, alloc: Global, bytes: &[u8]) -> Vec<u8> {
    bytes.to_vec(alloc).expect(rt, "memory")
}

/// Whether these are the same bytes. A comparison is dear to prove, so it stands here alone.
pub fn is_same(found: &[u8], want: &[u8]) -> bool {
    found == want
}

/// Appends the item.
pub fn put<T: Drop>(rt: &impl Abort, list: &mut Vec<T>, item: T) {
    list.push(item).expect(rt, "memory");
}

pub fn key_of(rt: &impl Abort, alloc: Global, bytes: &[u8]) -> Key {
    Key::new(copy_of(rt, alloc, bytes)).expect(rt, "a key")
}

/// The key of the row at these bytes, as that of an entry.
pub fn row_key_of(rt: &impl Abort, alloc: Global, bytes: &[u8]) -> StoredKey {
    let key = key_of(rt, alloc, bytes);
    key.stored().clone().expect(rt, "memory")
}

pub fn number(value: u64) -> Number {
    Number::new(value).unwrap_or(Number::ZERO)
}
