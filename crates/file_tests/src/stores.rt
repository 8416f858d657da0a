//! Batches of a store, and the calls of an engine that tests make. A refusal ends the test.

use crate::cases::is_so;
use crate::items::{config_of, filled, is_same, key_of, node, number, put};
use disk::Disk;
use engine::{Engine, Tended};
use kv_types::{Batch, Edit, Key, Limits, Value};
use std::alloc::Global;
use std::process::Abort;

/// The key of a place, and its new value; a deletion has none. The key is two bytes, or two bytes
/// and a 0 behind them, so keys are in the order of their places.
pub type Change = (u16, Option<u16>);

fn key_at(rt: &impl Abort, alloc: Global, place: u16) -> Key {
    let [high, low] = (place / 2).to_be_bytes();
    if place % 2 == 0 {
        key_of(rt, alloc, &[high, low])
    } else {
        key_of(rt, alloc, &[high, low, 0])
    }
}

// So many bytes the values of a key have: those of the first keys are long.
fn value_len(place: u16) -> usize {
    if place < 16 { 8_000 } else { 90 }
}

fn value_at(rt: &impl Abort, alloc: Global, place: u16, value: u16) -> Value {
    let [high, low] = value.to_be_bytes();
    let mut bytes = filled(rt, alloc, low, value_len(place));
    *bytes.first_mut().expect(rt, "a byte") = high;
    Value::new(bytes).expect(rt, "a value")
}

fn edit_at(rt: &impl Abort, alloc: Global, change: Change) -> Edit {
    let key = key_at(rt, alloc, change.0);
    match change.1 {
        Some(value) => Edit::Put(key, value_at(rt, alloc, change.0, value)),
        None => Edit::Delete(key),
    }
}

/// The batch of these changes.
pub fn batch_at(rt: &impl Abort, alloc: Global, changes: &[Change]) -> Batch {
    let mut edits = Vec::new(alloc);
    for change in changes {
        put(rt, &mut edits, edit_at(rt, alloc, *change));
    }
    Batch::new(edits).expect(rt, "a batch")
}

/// A new store of these limits on this disk.
pub fn created<D: Disk + Drop>(
    rt: &impl Abort,
    alloc: Global,
    disk: D,
    limits: &Limits,
) -> Engine<D> {
    let config = config_of(rt, alloc, &[1]);
    let created = Engine::create(alloc, disk, node(rt, 1), &config, limits);
    created.ok().expect(rt, "an engine")
}

// All batches of the store are committed.
fn commit<D: Disk + Drop>(engine: &mut Engine<D>) {
    let count = engine.count();
    engine.set_committed(count);
}

/// The store of this disk, with these limits, all of whose batches are committed.
pub fn opened<D: Disk + Drop>(
    rt: &impl Abort,
    alloc: Global,
    disk: D,
    limits: &Limits,
) -> Engine<D> {
    let opened = Engine::open(alloc, disk, limits);
    let mut engine = opened.ok().expect(rt, "an engine");
    commit(&mut engine);
    engine
}

/// Appends this batch, which is committed.
pub fn append<D: Disk + Drop>(rt: &impl Abort, engine: &mut Engine<D>, batch: &Batch) {
    let appended = engine.append(batch);
    is_so(rt, appended.is_ok(), "a batch more");
    commit(engine);
}

/// What a tend of the store does.
pub fn tend<D: Disk + Drop>(rt: &impl Abort, alloc: Global, engine: &mut Engine<D>) -> Tended {
    engine.tend(alloc).expect(rt, "a tend")
}

/// Whether a tend of the store works.
pub fn tends<D: Disk + Drop>(rt: &impl Abort, alloc: Global, engine: &mut Engine<D>) -> bool {
    tend(rt, alloc, engine) == Tended::Worked
}

// Whether this is the value of a place, or none.
fn is_value(
    rt: &impl Abort,
    alloc: Global,
    found: Option<&Value>,
    place: u16,
    want: Option<u16>,
) -> bool {
    let (Some(found), Some(want)) = (found, want) else {
        return found.is_none() && want.is_none();
    };
    let want = value_at(rt, alloc, place, want);
    is_same(found.as_bytes(), want.as_bytes())
}

/// Whether the key has this value after so many batches.
pub fn has_at<D: Disk + Drop>(
    rt: &impl Abort,
    alloc: Global,
    engine: &mut Engine<D>,
    (place, want): Change,
    at: u64,
) -> bool {
    let key = key_at(rt, alloc, place);
    let found = engine.get(alloc, number(at), &key).expect(rt, "a read");
    is_value(rt, alloc, found.as_ref(), place, want)
}
