//! Batches made of numbers that look random.

use crate::items::{key_of, put, value_of};
use crate::sequence::Sequence;
use kv_types::{Batch, Edit};
use std::alloc::Global;
use std::process::Abort;

/// A change of a key: a value, or none for a deletion.
#[derive(Clone, Copy)]
pub struct KeyChange {
    pub key: u16,
    pub value: Option<u16>,
}

/// The next change, of one of so many even keys; one in four is a deletion.
pub fn change_of(sequence: &mut Sequence, keys: u8) -> KeyChange {
    let key = sequence.next() % (u16::from(keys) + 1) * 2;
    let value = sequence.next();
    KeyChange {
        key,
        value: if value % 4 == 0 { None } else { Some(value) },
    }
}

/// The next changes, so many, of 21 keys.
pub fn changes_of(
    rt: &impl Abort,
    alloc: Global,
    sequence: &mut Sequence,
    count: u16,
) -> Vec<KeyChange> {
    let mut changes = Vec::new(alloc);
    for _ in 0..count {
        put(rt, &mut changes, change_of(sequence, 20));
    }
    changes
}

/// An edit of a key in two bytes, so that keys are in the order of their numbers.
fn edit_of(rt: &impl Abort, alloc: Global, change: KeyChange) -> Edit {
    let key = key_of(rt, alloc, &change.key.to_be_bytes());
    match change.value {
        Some(value) => Edit::Put(key, value_of(rt, alloc, &value.to_be_bytes())),
        None => Edit::Delete(key),
    }
}

/// The batch of these changes.
pub fn batch_of(rt: &impl Abort, alloc: Global, changes: &[KeyChange]) -> Batch {
    let mut edits = Vec::new(alloc);
    for change in changes {
        put(rt, &mut edits, edit_of(rt, alloc, *change));
    }
    Batch::new(edits).expect(rt, "a batch")
}
