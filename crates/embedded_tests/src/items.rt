//! Keys, batches, lists and the like, as tests make them.

use crate::cases::done;
use configurations::Config;
use kv_types::{Batch, Edit, Key, Number, Value};
use std::alloc::Global;
use std::process::Abort;

/// A copy of these bytes.
pub fn copy_of(rt: &impl Abort, alloc: Global, bytes: &[u8]) -> Vec<u8> {
    done(rt, bytes.to_vec(alloc))
}

/// Whether these are the same bytes. A comparison is dear to prove, so it stands here alone.
pub fn is_same(found: &[u8], want: &[u8]) -> bool {
    found == want
}

/// Appends the item.
pub fn put<T: Drop>(rt: &impl Abort, list: &mut Vec<T>, item: T) {
    done(rt, list.push(item));
}

pub fn key_of(rt: &impl Abort, alloc: Global, bytes: &[u8]) -> Key {
    done(rt, Key::new(copy_of(rt, alloc, bytes)))
}

pub fn value_of(rt: &impl Abort, alloc: Global, bytes: &[u8]) -> Value {
    done(rt, Value::new(copy_of(rt, alloc, bytes)))
}

/// A put, or a deletion where there is no value.
fn edit_of(rt: &impl Abort, alloc: Global, key: &[u8], value: Option<&[u8]>) -> Edit {
    let key = key_of(rt, alloc, key);
    match value {
        Some(bytes) => Edit::Put(key, value_of(rt, alloc, bytes)),
        None => Edit::Delete(key),
    }
}

pub type Edits<'a> = &'a [(&'a [u8], Option<&'a [u8]>)];

pub fn batch_of(rt: &impl Abort, alloc: Global, edits: Edits) -> Batch {
    let mut list = Vec::new(alloc);
    for (key, value) in edits {
        put(rt, &mut list, edit_of(rt, alloc, *key, *value));
    }
    done(rt, Batch::new(list))
}

pub fn number(value: u64) -> Number {
    Number::new(value).unwrap_or(Number::ZERO)
}

pub fn config_of(rt: &impl Abort, alloc: Global, ids: &[u16]) -> Config {
    let ids = done(rt, ids.to_vec(alloc));
    done(rt, Config::new(alloc, ids))
}
