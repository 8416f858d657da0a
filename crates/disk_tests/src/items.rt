//! Keys, batches, lists and the like, as tests make them.

use kv_types::{Batch, Edit, Key, KvError, Value};
use std::alloc::Global;
use std::process::Abort;

/// A copy of these bytes.
pub fn copy_of(rt: &impl Abort, alloc: Global, bytes: &[u8]) -> Vec<u8> {
    bytes.to_vec(alloc).expect(rt, "memory")
}

/// Whether these are the same bytes. A comparison is dear to prove, so it stands here alone.
pub fn is_same(found: &[u8], want: &[u8]) -> bool {
    found == want
}

/// Appends the item.
pub fn put<T: Drop>(rt: &impl Abort, list: &mut Vec<T>, item: T) {
    list.push(item).expect(rt, "memory");
}

/// This byte so many times.
pub fn filled(rt: &impl Abort, alloc: Global, byte: u8, len: usize) -> Vec<u8> {
    vec![in alloc; byte; len].expect(rt, "memory")
}

pub fn key_of(rt: &impl Abort, alloc: Global, bytes: &[u8]) -> Key {
    Key::new(copy_of(rt, alloc, bytes)).expect(rt, "a key")
}

pub fn value_of(rt: &impl Abort, alloc: Global, bytes: &[u8]) -> Value {
    Value::new(copy_of(rt, alloc, bytes)).expect(rt, "a value")
}

/// A key of this many `k`, if that is one.
pub fn try_key(rt: &impl Abort, alloc: Global, len: usize) -> Result<Key, KvError> {
    Key::new(filled(rt, alloc, b'k', len))
}

fn long_key(rt: &impl Abort, alloc: Global, len: usize) -> Key {
    try_key(rt, alloc, len).expect(rt, "a key")
}

/// A value of this many `v`, if that is one.
pub fn try_value(rt: &impl Abort, alloc: Global, len: usize) -> Result<Value, KvError> {
    Value::new(filled(rt, alloc, b'v', len))
}

fn long_value(rt: &impl Abort, alloc: Global, len: usize) -> Value {
    try_value(rt, alloc, len).expect(rt, "a value")
}

/// A put, or a deletion where there is no value.
fn edit_of(rt: &impl Abort, alloc: Global, key: &[u8], value: Option<&[u8]>) -> Edit {
    let key = key_of(rt, alloc, key);
    match value {
        Some(bytes) => Edit::Put(key, value_of(rt, alloc, bytes)),
        None => Edit::Delete(key),
    }
}

pub type Edits<'a> = &'a [(&'a [u8], Option<&'a [u8]>)];

fn edits_of(rt: &impl Abort, alloc: Global, edits: Edits) -> Vec<Edit> {
    let mut list = Vec::new(alloc);
    for (key, value) in edits {
        put(rt, &mut list, edit_of(rt, alloc, *key, *value));
    }
    list
}

pub fn batch_of(rt: &impl Abort, alloc: Global, edits: Edits) -> Batch {
    Batch::new(edits_of(rt, alloc, edits)).expect(rt, "a batch")
}

/// The client and the request of a mark.
pub type Marking = (u64, u64);

/// The batch of these edits with this mark, or without one, if that is a batch.
pub fn try_batch(mark: Option<Marking>, edits: Vec<Edit>) -> Result<Batch, KvError> {
    match mark {
        Some((client, request)) => Batch::marked(client, request, edits),
        None => Batch::new(edits),
    }
}

/// The batch of these edits with this mark.
pub fn marked_of(rt: &impl Abort, alloc: Global, mark: Marking, edits: Edits) -> Batch {
    try_batch(Some(mark), edits_of(rt, alloc, edits)).expect(rt, "a batch")
}

fn long_put(rt: &impl Abort, alloc: Global, key: usize, value: usize) -> Edit {
    Edit::Put(long_key(rt, alloc, key), long_value(rt, alloc, value))
}

/// The batch of puts with keys and values of these lengths, if that is one.
pub fn long_batch(
    rt: &impl Abort,
    alloc: Global,
    mark: Option<Marking>,
    lens: &[(usize, usize)],
) -> Result<Batch, KvError> {
    let mut edits = Vec::new(alloc);
    for (key, value) in lens {
        put(rt, &mut edits, long_put(rt, alloc, *key, *value));
    }
    try_batch(mark, edits)
}

/// The batch of this many deletions of this key, if that is one.
pub fn deletions(
    rt: &impl Abort,
    alloc: Global,
    mark: Option<Marking>,
    key: &[u8],
    count: usize,
) -> Result<Batch, KvError> {
    let mut edits = Vec::new(alloc);
    for _ in 0..count {
        put(rt, &mut edits, Edit::Delete(key_of(rt, alloc, key)));
    }
    try_batch(mark, edits)
}

/// The batch of one deletion of this key.
pub fn deletion(rt: &impl Abort, alloc: Global, key: &[u8]) -> Batch {
    deletions(rt, alloc, None, key, 1).expect(rt, "a batch")
}
