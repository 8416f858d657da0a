//! Entries with memory of their own.

use crate::items::copy_of;
use byte_fields::StoredKey;
use merge_iter::OwnedEntry;
use std::alloc::Global;
use std::process::Abort;

/// An entry of this key with a copy of these bytes.
pub fn entry_at(
    rt: &impl Abort,
    alloc: Global,
    key: StoredKey,
    number: u64,
    value: Option<&[u8]>,
) -> OwnedEntry {
    let value = match value {
        Some(bytes) => Some(copy_of(rt, alloc, bytes)),
        None => None,
    };
    OwnedEntry::new(key, number, value).expect(rt, "an entry within the limits")
}

/// The key at which the last mark of this client stands.
pub fn client_key(rt: &impl Abort, alloc: Global, client: u64) -> StoredKey {
    StoredKey::of_client(alloc, client).expect(rt, "memory")
}
