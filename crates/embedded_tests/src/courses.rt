// A store that stands alone, beside a plain map: its history, snapshots, tends and stops, and what
// a stop leaves of it at each call of its disk.
use crate::cases::{done, fails, holds_at, is_so};
use crate::items::{is_same, key_of, number, value_of};
use crate::scratch_folders::{empty_folder, remove_folder};
use disk::{Crash, Disk, Fault, Junk, JunkBytes, MemDisk};
use embedded_store::{EmbeddedStore, EngineError, Tended};
use kv_types::{Batch, Edit, Key, Limits, Number, Range, Row, Value};
use std::alloc::Global;
use std::process::Abort;

pub type Store = EmbeddedStore<MemDisk>;

/// So many keys there are.
pub const KEYS: u64 = 24;

/// A store whose log is longer than its limit flushes, so its tends have much to do.
pub fn limits(rt: &impl Abort) -> Limits {
    done(rt, Limits::new(200, 1, 256, 512, 16))
}

pub fn key_at(rt: &impl Abort, alloc: Global, index: u64) -> Key {
    key_of(rt, alloc, &index.to_be_bytes())
}

// The keys that the batch of a number puts to the number, and deletes.
fn put_by(batch: u64) -> u64 {
    batch.wrapping_mul(7) % KEYS
}

fn deleted_by(batch: u64) -> u64 {
    batch.wrapping_mul(5).wrapping_add(1) % KEYS
}

// Each second batch bears a mark. Its client has the bytes of the key behind the one that it puts.
fn batch_at(rt: &impl Abort, alloc: Global, batch: u64) -> Batch {
    let value = value_of(rt, alloc, &batch.to_be_bytes());
    let put = Edit::Put(key_at(rt, alloc, put_by(batch)), value);
    let deletion = Edit::Delete(key_at(rt, alloc, deleted_by(batch)));
    let edits = done(rt, vec![in alloc; put, deletion]);
    let made = if batch % 2 == 0 {
        Batch::new(edits)
    } else {
        Batch::marked(put_by(batch).wrapping_add(1), batch, edits)
    };
    done(rt, made)
}

/// What a plain map has of a key after so many batches.
pub fn plain(index: u64, count: u64) -> Option<u64> {
    let mut value = None;
    for batch in 1..=count {
        if put_by(batch) == index {
            value = Some(batch);
        }
        if deleted_by(batch) == index {
            value = None;
        }
    }
    value
}

fn is_value(found: &Option<Value>, want: Option<u64>) -> bool {
    match (found, want) {
        (Some(value), Some(batch)) => is_same(value.as_bytes(), &batch.to_be_bytes()),
        (None, None) => true,
        _ => false,
    }
}

// What the store has of a key, at this number or at the newest, and whether the map has that after
// so many batches.
fn agrees_at<D: Disk + Drop>(
    rt: &impl Abort,
    alloc: Global,
    store: &mut EmbeddedStore<D>,
    at: &Option<Number>,
    (index, count): (u64, u64),
) -> bool {
    let key = key_at(rt, alloc, index);
    let found = store.get(alloc, &key, *at);
    drop(key);
    let found = done(rt, found);
    let is_so = is_value(&found, plain(index, count));
    drop(found);
    is_so
}

/// Whether the store has, at this number or at the newest, what the map has after so many batches.
pub fn agrees<D: Disk + Drop>(
    rt: &impl Abort,
    alloc: Global,
    store: &mut EmbeddedStore<D>,
    at: &Option<Number>,
    count: u64,
) -> bool {
    let mut all = true;
    for index in 0..KEYS {
        all = agrees_at(rt, alloc, store, at, (index, count)) && all;
    }
    all
}

/// Whether this is the row of a key after so many batches.
pub fn is_row(row: &Row, index: u64, count: u64) -> bool {
    let want = plain(index, count).unwrap_or(0);
    is_same(row.key(), &index.to_be_bytes()) && is_same(row.value(), &want.to_be_bytes())
}

// Whether these are the rows of the map after so many batches, in the order of their keys.
fn are_rows(rows: &[Row], count: u64) -> bool {
    let mut place = 0usize;
    for index in 0..KEYS {
        if plain(index, count).is_some() {
            let is_next = rows.get(place).is_some_and(|row| is_row(row, index, count));
            if !is_next {
                return false;
            }
            place = place.wrapping_add(1);
        }
    }
    place == rows.len()
}

/// Whether all rows at a number are those of the map.
pub fn shows_all<D: Disk + Drop>(
    rt: &impl Abort,
    alloc: Global,
    store: &mut EmbeddedStore<D>,
    at: u64,
) -> bool {
    let all = done(rt, Range::new(key_at(rt, alloc, 0), None, false, 100));
    let found = store.rows(alloc, &all, Some(number(at)));
    drop(all);
    let page = done(rt, found);
    let is_so = !page.has_more() && are_rows(page.rows(), at);
    drop(page);
    is_so
}

// Tends until nothing is due.
fn settle<D: Disk + Drop>(rt: &impl Abort, alloc: Global, store: &mut EmbeddedStore<D>) {
    for _ in 0..100 {
        if done(rt, store.tend(alloc)) == Tended::Idle {
            return;
        }
    }
    is_so(rt, false, "an end of the tends");
}

pub fn opened<D: Disk + Drop>(rt: &impl Abort, alloc: Global, disk: D) -> EmbeddedStore<D> {
    done(rt, EmbeddedStore::over(alloc, disk, &limits(rt)))
}

/// The junk of a crash, by its place.
pub fn junk_at(rt: &impl Abort, alloc: Global, place: u64) -> Junk {
    match place % 4 {
        0 => Junk::Old,
        1 => Junk::New,
        2 => Junk::Bytes(JunkBytes::new(done(rt, vec![in alloc; 0u8; 1]))),
        _ => Junk::Bytes(JunkBytes::new(done(rt, vec![in alloc; 1u8; 2]))),
    }
}

// What a write of the batch of a number answers, if it is written.
fn try_write<D: Disk + Drop>(
    rt: &impl Abort,
    alloc: Global,
    store: &mut EmbeddedStore<D>,
    batch: u64,
) -> Option<Number> {
    let batch = batch_at(rt, alloc, batch);
    let written = store.write(&batch).ok();
    drop(batch);
    written
}

fn write<D: Disk + Drop>(rt: &impl Abort, alloc: Global, store: &mut EmbeddedStore<D>, batch: u64) {
    let written = try_write(rt, alloc, store, batch);
    is_so(rt, written == Some(number(batch)), "the next number");
}

/// Writes the batches of these numbers, and tends behind each.
pub fn fill<D: Disk + Drop>(
    rt: &impl Abort,
    alloc: Global,
    store: &mut EmbeddedStore<D>,
    first: u64,
    last: u64,
) {
    for batch in first..=last {
        write(rt, alloc, store, batch);
        settle(rt, alloc, store);
    }
}

// Writes seven batches behind so many, and looks at all after each.
fn write_seven(rt: &impl Abort, alloc: Global, store: &mut Store, count: u64) {
    for more in 1..=7u64 {
        let batch = count.wrapping_add(more);
        write(rt, alloc, store, batch);
        holds_at(rt, batch as usize, agrees(rt, alloc, store, &None, batch));
        holds_at(rt, batch as usize, shows_all(rt, alloc, store, batch));
    }
}

// Looks at each number up to this one.
fn look_at_all(rt: &impl Abort, alloc: Global, store: &mut Store, count: u64) {
    for at in 0..=count {
        holds_at(
            rt,
            at as usize,
            agrees(rt, alloc, store, &Some(number(at)), at),
        );
    }
}

#[test]
fn each_number_has_its_map(rt: HostRuntime) {
    let (rt, alloc) = (&rt, rt.alloc());
    let mut disk = MemDisk::new(alloc);
    for round in 0..8u64 {
        let mut store = opened(rt, alloc, disk);
        write_seven(rt, alloc, &mut store, round.wrapping_mul(7));
        disk = store.into_disk();
        disk.crash(junk_at(rt, alloc, round));
    }
    let mut store = opened(rt, alloc, disk);
    look_at_all(rt, alloc, &mut store, 56);
    store.close();
}

/// Whether a read at a number is refused with this error.
pub fn is_refused<D: Disk + Drop>(
    rt: &impl Abort,
    alloc: Global,
    store: &mut EmbeddedStore<D>,
    at: u64,
    want: EngineError,
) -> bool {
    let key = key_at(rt, alloc, 0);
    let found = store.get(alloc, &key, Some(number(at)));
    drop(key);
    fails(found, want)
}

// A snapshot at 20, while 40 batches more are written.
fn read_snapshot<D: Disk + Drop>(rt: &impl Abort, alloc: Global, store: &mut EmbeddedStore<D>) {
    let snapshot = done(rt, store.snapshot());
    is_so(rt, snapshot == number(20), "at the newest number");
    fill(rt, alloc, store, 21, 60);
    is_so(rt, store.floor() == snapshot, "the floor rises to it alone");
    is_so(rt, agrees(rt, alloc, store, &Some(snapshot), 20), "its map");
    is_so(rt, shows_all(rt, alloc, store, 20), "its rows");
    let early = is_refused(rt, alloc, store, 19, EngineError::TooOld);
    is_so(rt, early, "a number below the floor");
    let late = is_refused(rt, alloc, store, 61, EngineError::NotCommitted);
    is_so(rt, late, "a number that is not there");
    is_so(rt, store.release(snapshot).is_ok(), "it is released");
    let gone = fails(store.release(snapshot), EngineError::NoSuchSnapshot);
    is_so(rt, gone, "once");
}

// The course of a store without batches: a snapshot, and what stays behind its end.
fn run_course<D: Disk + Drop>(rt: &impl Abort, alloc: Global, store: &mut EmbeddedStore<D>) {
    fill(rt, alloc, store, 1, 20);
    read_snapshot(rt, alloc, store);
    fill(rt, alloc, store, 61, 90);
    let old = is_refused(rt, alloc, store, 20, EngineError::TooOld);
    is_so(rt, old, "its number is too old");
    is_so(rt, agrees(rt, alloc, store, &None, 90), "the newest map");
}

#[test]
fn a_snapshot_is_read_until_it_is_released(rt: HostRuntime) {
    let mut store = opened(&rt, rt.alloc(), MemDisk::new(rt.alloc()));
    run_course(&rt, rt.alloc(), &mut store);
    store.close();
}

// Runs the course in a folder, closes the store and opens it again.
fn run_in_folder(rt: &impl Abort, host: &HostRuntime, folder: &str) {
    let mut store = done(rt, EmbeddedStore::open(host, folder, &limits(rt)));
    run_course(rt, host.alloc(), &mut store);
    store.close();
    let mut store = done(rt, EmbeddedStore::open(host, folder, &limits(rt)));
    let is_left = agrees(rt, host.alloc(), &mut store, &None, 90);
    store.close();
    is_so(rt, is_left, "as it was");
}

#[test]
fn a_store_in_a_folder_is_opened_again(rt: HostRuntime) {
    let folder = empty_folder(&rt, &rt, "embedded_course");
    run_in_folder(&rt, &rt, folder.as_str());
    remove_folder(&rt, &rt, folder.as_str());
}

// ---- a stop at each call of the disk

/// Arms the disk with a fault at a call, without its contract.
pub fn arm(disk: &mut MemDisk, call: u64) {
    let fault = Fault::Fail(call);
    disk.arm(&fault);
    drop(fault);
}

// A disk with the store of three batches.
fn filled_disk(rt: &impl Abort, alloc: Global) -> MemDisk {
    let mut store = opened(rt, alloc, MemDisk::new(alloc));
    fill(rt, alloc, &mut store, 1, 3);
    store.into_disk()
}

// Writes and tends until a call is refused, at most five batches. Answers how many were written.
fn write_some(rt: &impl Abort, alloc: Global, store: &mut Store) -> u64 {
    for batch in 4..=8u64 {
        if try_write(rt, alloc, store, batch).is_none() {
            return batch.saturating_sub(1);
        }
        if store.tend(alloc).is_err() {
            return batch;
        }
    }
    8
}

// The disk of a course that was struck, and how many batches were written.
fn struck(rt: &impl Abort, alloc: Global, mut disk: MemDisk, call: u64) -> (MemDisk, u64) {
    arm(&mut disk, call);
    match EmbeddedStore::over(alloc, disk, &limits(rt)) {
        Ok(mut store) => {
            let written = write_some(rt, alloc, &mut store);
            (store.into_disk(), written)
        }
        Err((_, disk)) => (disk, 3),
    }
}

// Whether a store has what was written, and at most the next batch.
fn has_written(rt: &impl Abort, alloc: Global, store: &mut Store, written: u64) {
    let count = store.count().get();
    let more = count == written.saturating_add(1);
    is_so(rt, count == written || more, "its list");
    is_so(rt, agrees(rt, alloc, store, &None, count), "its map");
    write(rt, alloc, store, count.saturating_add(1));
}

// Whether a stop in this call leaves what was written. Says whether the fault struck.
fn outlives(rt: &impl Abort, alloc: Global, call: u64, place: u64) -> bool {
    let (mut disk, written) = struck(rt, alloc, filled_disk(rt, alloc), call);
    let has_struck = disk.has_struck();
    disk.crash(junk_at(rt, alloc, place));
    let mut store = opened(rt, alloc, disk);
    has_written(rt, alloc, &mut store, written);
    store.close();
    has_struck
}

#[test]
fn a_stop_at_each_call_leaves_what_was_written(rt: HostRuntime) {
    let (rt, alloc) = (&rt, rt.alloc());
    for call in 1..300u64 {
        if !outlives(rt, alloc, call, call) {
            is_so(rt, 40 < call, "the calls of the course");
            return;
        }
    }
    is_so(rt, false, "an end of the course");
}

#[test]
fn a_store_that_was_refused_for_its_device_has_ended(rt: HostRuntime) {
    let (rt, alloc) = (&rt, rt.alloc());
    let mut disk = filled_disk(rt, alloc);
    arm(&mut disk, 30);
    let mut store = opened(rt, alloc, disk);
    let written = write_some(rt, alloc, &mut store);
    is_so(rt, written < 8, "a call was struck");
    let failed = is_refused(rt, alloc, &mut store, 3, EngineError::Failed);
    is_so(rt, failed, "a read");
    let shut = fails(store.snapshot(), EngineError::Failed);
    is_so(rt, shut, "a snapshot");
    store.close();
}
