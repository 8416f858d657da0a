// A store as a plain list: of each key the values that batches gave it. What pages of an engine are
// compared with, and the calls of an engine that tests make.

use crate::cases::is_so;
use crate::items::{Marking, config_of, filled, is_same, key_of, node, number, put, try_batch};
use disk::Disk;
use engine::{Engine, Tended};
use kv_types::{Batch, Edit, Key, Limits, Page, Range, Row, Value};
use std::alloc::Global;
use std::process::Abort;

/// So many keys there are. The key of a place is two bytes, or two bytes and a 0 behind them, so
/// keys are in the order of their places.
pub const KEYS: u16 = 2_048;

/// The key of a place, and its new value; a deletion has none.
pub type Change = (u16, Option<u16>);

pub fn key_at(rt: &impl Abort, alloc: Global, place: u16) -> Key {
    let [high, low] = (place / 2).to_be_bytes();
    if place % 2 == 0 {
        key_of(rt, alloc, &[high, low])
    } else {
        key_of(rt, alloc, &[high, low, 0])
    }
}

// So many bytes the values of a key have: those of the first keys are long, and 13 of them are more
// than a page has.
fn value_len(place: u16) -> usize {
    if place < 16 { 8_000 } else { 90 }
}

fn value_at(rt: &impl Abort, alloc: Global, place: u16, value: u16) -> Value {
    let [high, low] = value.to_be_bytes();
    let mut bytes = filled(rt, alloc, low, value_len(place));
    *bytes.first_mut().expect(rt, "a byte") = high;
    Value::new(bytes).expect(rt, "a value")
}

fn edit_at(rt: &impl Abort, alloc: Global, change: Change) -> Edit {
    let key = key_at(rt, alloc, change.0);
    match change.1 {
        Some(value) => Edit::Put(key, value_at(rt, alloc, change.0, value)),
        None => Edit::Delete(key),
    }
}

/// The batch of these changes, with this mark or without one.
pub fn marked_at(
    rt: &impl Abort,
    alloc: Global,
    mark: Option<Marking>,
    changes: &[Change],
) -> Batch {
    let mut edits = Vec::new(alloc);
    for change in changes {
        put(rt, &mut edits, edit_at(rt, alloc, *change));
    }
    try_batch(mark, edits).expect(rt, "a batch")
}

/// The batch of these changes.
pub fn batch_at(rt: &impl Abort, alloc: Global, changes: &[Change]) -> Batch {
    marked_at(rt, alloc, None, changes)
}

/// A range by the places of its bounds, its direction, and the greatest number of rows of a page.
#[derive(Clone, Copy)]
pub struct Span {
    pub low: u16,
    pub bound: Option<u16>,
    pub backward: bool,
    pub limit: u32,
}

impl Span {
    // The range behind the row of this place.
    fn behind(self, place: u16) -> Span {
        let mut span = self;
        if self.backward {
            span.bound = Some(place);
        } else {
            span.low = place.saturating_add(1);
        }
        span
    }

    pub fn range(self, rt: &impl Abort, alloc: Global) -> Range {
        let from = key_at(rt, alloc, self.low);
        let to = match self.bound {
            Some(bound) => Some(key_at(rt, alloc, bound)),
            None => None,
        };
        Range::new(from, to, self.backward, self.limit).expect(rt, "a range")
    }
}

// The value that a key got in the batch of a number.
#[derive(Clone, Copy)]
struct Version {
    number: u64,
    value: Option<u16>,
}

/// Of each key the values that batches gave it, in their order. No key before the first place, and
/// none from the bound on, has one.
#[derive(Drop)]
pub struct PlainStore {
    keys: Vec<Vec<Version>>,
    first: u16,
    bound: u16,
}

impl PlainStore {
    pub fn new(rt: &impl Abort, alloc: Global) -> PlainStore {
        let mut keys = Vec::new(alloc);
        for _ in 0..KEYS {
            put(rt, &mut keys, Vec::new(alloc));
        }
        PlainStore {
            keys,
            first: KEYS,
            bound: 0,
        }
    }

    /// The batch of this number has these changes.
    pub fn add(&mut self, rt: &impl Abort, number: u64, changes: &[Change]) {
        for (place, value) in changes {
            let versions = self.keys.get_mut(*place as usize).expect(rt, "a key");
            let value = *value;
            put(rt, versions, Version { number, value });
            self.first = self.first.min(*place);
            self.bound = self.bound.max(place.saturating_add(1));
        }
    }

    // The value of a key after so many batches.
    fn get(&self, place: u16, at: u64) -> Option<u16> {
        let versions = self.keys.get(place as usize)?;
        for version in versions.iter().rev() {
            if version.number <= at {
                return version.value;
            }
        }
        None
    }

    // The rows of a range after so many batches, in the order of its walk.
    fn walk(&self, rt: &impl Abort, alloc: Global, at: u64, span: Span) -> Vec<(u16, u16)> {
        let mut rows = Vec::new(alloc);
        let end = span.bound.unwrap_or(KEYS).min(self.bound);
        for place in span.low.max(self.first)..end {
            if let Some(value) = self.get(place, at) {
                put(rt, &mut rows, (place, value));
            }
        }
        if span.backward {
            rows.reverse();
        }
        rows
    }
}

// So many bytes a row counts: its key, its value and 4.
fn row_size(place: u16) -> usize {
    let key = if place % 2 == 0 { 2 } else { 3 };
    value_len(place).saturating_add(key).saturating_add(4)
}

// The longest beginning of the rows within the limit and 98,304 bytes has so many.
fn page_len(rows: &[(u16, u16)], limit: u32) -> usize {
    let mut size = 0usize;
    for (index, row) in rows.iter().enumerate() {
        size = size.saturating_add(row_size(row.0));
        if index >= limit as usize || size > 98_304 {
            return index;
        }
    }
    rows.len()
}

fn is_row(rt: &impl Abort, alloc: Global, row: &Row, want: (u16, u16)) -> bool {
    let key = key_at(rt, alloc, want.0);
    let value = value_at(rt, alloc, want.0, want.1);
    is_same(row.key(), key.as_bytes()) && is_same(row.value(), value.as_bytes())
}

fn is_page(rt: &impl Abort, alloc: Global, page: &Page, want: &[(u16, u16)], more: bool) -> bool {
    let rows = page.rows();
    if rows.len() != want.len() || page.has_more() != more {
        return false;
    }
    for (row, want) in rows.iter().zip(want) {
        if !is_row(rt, alloc, row, *want) {
            return false;
        }
    }
    true
}

// ---- the calls of an engine; a refusal ends the test

// Limits with a log of so many bytes.
fn limits(rt: &impl Abort, log: u64) -> Limits {
    let limits = Limits::new(log, 4, 2097152, 10485760, 1_024);
    limits.ok().expect(rt, "limits")
}

/// A new store on this disk, whose log is flushed where it is longer than so many bytes.
pub fn created<D: Disk + Drop>(rt: &impl Abort, alloc: Global, disk: D, log: u64) -> Engine<D> {
    let config = config_of(rt, alloc, &[1]);
    let created = Engine::create(alloc, disk, node(rt, 1), &config, &limits(rt, log));
    created.ok().expect(rt, "an engine")
}

/// Tells the store that all its batches are committed.
pub fn commit<D: Disk + Drop>(engine: &mut Engine<D>) {
    let count = engine.count();
    engine.set_committed(count);
}

/// The store of this disk, all of whose batches are committed.
pub fn opened<D: Disk + Drop>(rt: &impl Abort, alloc: Global, disk: D, log: u64) -> Engine<D> {
    let opened = Engine::open(alloc, disk, &limits(rt, log));
    let mut engine = opened.ok().expect(rt, "an engine");
    commit(&mut engine);
    engine
}

/// Appends this batch, which is committed.
pub fn append<D: Disk + Drop>(rt: &impl Abort, engine: &mut Engine<D>, batch: &Batch) {
    let appended = engine.append(batch);
    is_so(rt, appended.is_ok(), "a batch more");
    commit(engine);
}

/// Whether a tend of the store works.
pub fn tends<D: Disk + Drop>(rt: &impl Abort, alloc: Global, engine: &mut Engine<D>) -> bool {
    engine.tend(alloc).expect(rt, "a tend") == Tended::Worked
}

/// The request of the last mark of a client, and the number of its batch; zeros for none.
pub fn mark_of<D: Disk + Drop>(
    rt: &impl Abort,
    alloc: Global,
    engine: &mut Engine<D>,
    client: u64,
) -> (u64, u64) {
    match engine.mark(alloc, client).expect(rt, "a read") {
        Some(held) => (held.request, held.number.get()),
        None => (0, 0),
    }
}

// Whether this is the value of a place, or none.
fn is_value(
    rt: &impl Abort,
    alloc: Global,
    found: Option<&Value>,
    place: u16,
    want: Option<u16>,
) -> bool {
    let (Some(found), Some(want)) = (found, want) else {
        return found.is_none() && want.is_none();
    };
    let want = value_at(rt, alloc, place, want);
    is_same(found.as_bytes(), want.as_bytes())
}

/// Whether the key has, after so many batches, the value that the plain store has.
pub fn get_agrees<D: Disk + Drop>(
    rt: &impl Abort,
    alloc: Global,
    engine: &mut Engine<D>,
    plain: &PlainStore,
    (place, at): (u16, u64),
) -> bool {
    let key = key_at(rt, alloc, place);
    let found = engine.get(alloc, number(at), &key).expect(rt, "a read");
    is_value(rt, alloc, found.as_ref(), place, plain.get(place, at))
}

// Whether the page of a range has these rows, and whether it says so that more are left.
fn page_agrees<D: Disk + Drop>(
    rt: &impl Abort,
    alloc: Global,
    engine: &mut Engine<D>,
    (at, span): (u64, Span),
    (want, more): (&[(u16, u16)], bool),
) -> bool {
    let range = span.range(rt, alloc);
    let page = engine.rows(alloc, number(at), &range).expect(rt, "a page");
    is_page(rt, alloc, &page, want, more)
}

// How many pages these rows have page after page, if each is one of the engine.
fn pages_of<D: Disk + Drop>(
    rt: &impl Abort,
    alloc: Global,
    engine: &mut Engine<D>,
    rows: &[(u16, u16)],
    (at, span): (u64, Span),
) -> Option<u64> {
    let (mut rest, mut span) = (rows, span);
    for pages in 1..u64::from(KEYS) + 1 {
        let count = page_len(rest, span.limit).min(rest.len());
        let (want, behind) = rest.split_at(count);
        let more = !behind.is_empty();
        if !page_agrees(rt, alloc, engine, (at, span), (want, more)) {
            return None;
        }
        if !more {
            return Some(pages);
        }
        span = span.behind(want.last()?.0);
        rest = behind;
    }
    None
}

/// How many pages a range has page after page to its end, if each is the one of the plain store.
pub fn agreeing_pages<D: Disk + Drop>(
    rt: &impl Abort,
    alloc: Global,
    engine: &mut Engine<D>,
    plain: &PlainStore,
    (at, span): (u64, Span),
) -> Option<u64> {
    let rows = plain.walk(rt, alloc, at, span);
    pages_of(rt, alloc, engine, &rows, (at, span))
}
