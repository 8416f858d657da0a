//! Entries with memory of their own.

use crate::items::{copy_of, is_same, row_key_of};
use crate::plain::PlainEntry;
use byte_fields::StoredKey;
use merge_iter::OwnedEntry;
use std::alloc::Global;
use std::process::Abort;

/// Whether these are the same bytes, or both none.
pub fn is_same_value(found: Option<&[u8]>, want: Option<&[u8]>) -> bool {
    match (found, want) {
        (Some(found), Some(want)) => is_same(found, want),
        (None, None) => true,
        _ => false,
    }
}

/// An entry of this key with a copy of these bytes.
pub fn entry_at(
    rt: &impl Abort,
    alloc: Global,
    key: StoredKey,
    number: u64,
    value: Option<&[u8]>,
) -> OwnedEntry {
    let value = match value {
        Some(bytes) => Some(copy_of(rt, alloc, bytes)),
        None => None,
    };
    OwnedEntry::new(key, number, value).expect(rt, "an entry within the limits")
}

/// The entry of a row with a copy of these bytes.
pub fn entry_of(
    rt: &impl Abort,
    alloc: Global,
    key: &[u8],
    number: u64,
    value: Option<&[u8]>,
) -> OwnedEntry {
    entry_at(rt, alloc, row_key_of(rt, alloc, key), number, value)
}

/// The key at which the last mark of this client stands.
pub fn client_key(rt: &impl Abort, alloc: Global, client: u64) -> StoredKey {
    StoredKey::of_client(alloc, client).expect(rt, "memory")
}

/// The entry, with a key and a value in two bytes.
pub fn owned(rt: &impl Abort, alloc: Global, entry: PlainEntry) -> OwnedEntry {
    let key = entry.key.to_be_bytes();
    match entry.value {
        Some(value) => entry_of(rt, alloc, &key, entry.number, Some(&value.to_be_bytes())),
        None => entry_of(rt, alloc, &key, entry.number, None),
    }
}
