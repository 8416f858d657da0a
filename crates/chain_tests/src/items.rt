//! What tests of runs put together: ids, a configuration, a batch.

use configurations::{Config, NodeId};
use kv_types::{Batch, Edit, Key, Value};
use std::alloc::Global;
use std::process::Abort;

/// A copy of these bytes.
fn copy_of(rt: &impl Abort, alloc: Global, bytes: &[u8]) -> Vec<u8> {
    bytes.to_vec(alloc).expect(rt, "memory")
}

pub fn id_of(rt: &impl Abort, id: u16) -> NodeId {
    NodeId::new(id).expect(rt, "an id")
}

pub fn config_of(rt: &impl Abort, alloc: Global, ids: &[u16]) -> Config {
    let ids = ids.to_vec(alloc).expect(rt, "memory");
    Config::new(alloc, ids).expect(rt, "a configuration")
}

/// The batch that puts `1` to `a`.
pub fn small_batch(rt: &impl Abort, alloc: Global) -> Batch {
    let key = Key::new(copy_of(rt, alloc, b"a")).expect(rt, "a key");
    let value = Value::new(copy_of(rt, alloc, b"1")).expect(rt, "a value");
    let edits = vec![in alloc; Edit::Put(key, value)].expect(rt, "memory");
    Batch::new(edits).expect(rt, "a batch")
}
