//! Keys, batches, lists and the like, as tests make them.

use configurations::{Config, NodeId};
use kv_types::{Key, Number};
use std::alloc::Global;
use std::process::Abort;

/// A copy of these bytes.
pub fn copy_of(rt: &impl Abort, alloc: Global, bytes: &[u8]) -> Vec<u8> {
    bytes.to_vec(alloc).expect(rt, "memory")
}

/// Whether these are the same bytes. A comparison is dear to prove, so it stands here alone.
pub fn is_same(found: &[u8], want: &[u8]) -> bool {
    found == want
}

/// Appends the item.
pub fn put<T: Drop>(rt: &impl Abort, list: &mut Vec<T>, item: T) {
    list.push(item).expect(rt, "memory");
}

/// Appends the bytes.
pub fn write(rt: &impl Abort, bytes: &mut Vec<u8>, more: &[u8]) {
    bytes.extend_from_slice(more).expect(rt, "memory");
}

/// This byte so many times.
pub fn filled(rt: &impl Abort, alloc: Global, byte: u8, len: usize) -> Vec<u8> {
    vec![in alloc; byte; len].expect(rt, "memory")
}

pub fn key_of(rt: &impl Abort, alloc: Global, bytes: &[u8]) -> Key {
    Key::new(copy_of(rt, alloc, bytes)).expect(rt, "a key")
}

pub fn number(value: u64) -> Number {
    Number::new(value).unwrap_or(Number::ZERO)
}

/// The node of this id.
pub fn node(rt: &impl Abort, id: u16) -> NodeId {
    NodeId::new(id).expect(rt, "an id")
}

pub fn config_of(rt: &impl Abort, alloc: Global, ids: &[u16]) -> Config {
    let ids = ids.to_vec(alloc).expect(rt, "memory");
    Config::new(alloc, ids).expect(rt, "a configuration")
}
