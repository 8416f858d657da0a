//! Keys, batches, lists and the like, as tests make them.

use byte_fields::{MAX_KEY, Space, StoredKey};
use kv_types::{Batch, Edit, Key, Number, Value};
use std::alloc::Global;
use std::process::Abort;

/// A copy of these bytes.
pub fn copy_of(rt: &impl Abort, alloc: Global, bytes: &[u8]) -> Vec<u8> {
    bytes.to_vec(alloc).expect(rt, "memory")
}

/// Whether these are the same bytes. A comparison is dear to prove, so it stands here alone.
pub fn is_same(found: &[u8], want: &[u8]) -> bool {
    found == want
}

/// Appends the item.
pub fn put<T: Drop>(rt: &impl Abort, list: &mut Vec<T>, item: T) {
    list.push(item).expect(rt, "memory");
}

/// This byte so many times.
pub fn filled(rt: &impl Abort, alloc: Global, byte: u8, len: usize) -> Vec<u8> {
    vec![in alloc; byte; len].expect(rt, "memory")
}

pub fn key_of(rt: &impl Abort, alloc: Global, bytes: &[u8]) -> Key {
    Key::new(copy_of(rt, alloc, bytes)).expect(rt, "a key")
}

/// The key of the row at these bytes, as that of an entry.
pub fn row_key_of(rt: &impl Abort, alloc: Global, bytes: &[u8]) -> StoredKey {
    let key = key_of(rt, alloc, bytes);
    key.stored().clone().expect(rt, "memory")
}

/// The key of a mark that has these bytes.
pub fn mark_key_of(rt: &impl Abort, bytes: Vec<u8>) -> StoredKey {
    assert!(rt; bytes.len() <= MAX_KEY);
    StoredKey::new(Space::Marks, bytes)
}

pub fn value_of(rt: &impl Abort, alloc: Global, bytes: &[u8]) -> Value {
    Value::new(copy_of(rt, alloc, bytes)).expect(rt, "a value")
}

/// A put, or a deletion where there is no value.
fn edit_of(rt: &impl Abort, alloc: Global, key: &[u8], value: Option<&[u8]>) -> Edit {
    let key = key_of(rt, alloc, key);
    match value {
        Some(bytes) => Edit::Put(key, value_of(rt, alloc, bytes)),
        None => Edit::Delete(key),
    }
}

pub type Edits<'a> = &'a [(&'a [u8], Option<&'a [u8]>)];

pub fn batch_of(rt: &impl Abort, alloc: Global, edits: Edits) -> Batch {
    let mut list = Vec::new(alloc);
    for (key, value) in edits {
        put(rt, &mut list, edit_of(rt, alloc, *key, *value));
    }
    Batch::new(list).expect(rt, "a batch")
}

pub fn number(value: u64) -> Number {
    Number::new(value).unwrap_or(Number::ZERO)
}
