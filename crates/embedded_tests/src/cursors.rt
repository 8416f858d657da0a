// Cursors of a store that stands alone, beside a plain map: walks both ways, turns, seeks, and the
// map of a snapshot behind later batches.
use crate::cases::{done, fails, holds_at, is_so};
use crate::courses::{KEYS, fill, is_refused, is_row, key_at, limits, opened, plain};
use crate::items::number;
use crate::scratch_folders::{empty_folder, remove_folder};
use disk::{Disk, MemDisk};
use embedded_store::{EmbeddedStore, EngineError, RowCursor};
use std::alloc::Global;
use std::process::Abort;

// Whether the cursor stands on the row that the map of so many batches has of this key.
fn is_on(cursor: &RowCursor, index: u64, count: u64) -> bool {
    cursor.row().is_some_and(|row| is_row(row, index, count))
}

// A move of a cursor; `Seek` goes to the key of an index.
#[derive(Clone, Copy)]
enum Move {
    First,
    Last,
    Next,
    Prev,
    Seek(u64),
}

// Moves the cursor. The test ends where that is refused.
fn move_cursor<D: Disk + Drop>(
    rt: &impl Abort,
    alloc: Global,
    store: &mut EmbeddedStore<D>,
    cursor: &mut RowCursor,
    to: Move,
) {
    let moved = match to {
        Move::First => cursor.first(alloc, store),
        Move::Last => cursor.last(alloc, store),
        Move::Next => cursor.next(alloc, store),
        Move::Prev => cursor.prev(alloc, store),
        Move::Seek(index) => {
            let key = key_at(rt, alloc, index);
            let moved = cursor.seek(alloc, store, &key);
            drop(key);
            moved
        }
    };
    done(rt, moved);
}

// Walks from the first row to the last, with one look back at each.
fn walk_on<D: Disk + Drop>(
    rt: &impl Abort,
    alloc: Global,
    store: &mut EmbeddedStore<D>,
    cursor: &mut RowCursor,
) {
    let count = cursor.number().get();
    move_cursor(rt, alloc, store, cursor, Move::First);
    for index in 0..KEYS {
        if plain(index, count).is_some() {
            holds_at(rt, index as usize, is_on(cursor, index, count));
            move_cursor(rt, alloc, store, cursor, Move::Next);
        }
    }
    is_so(rt, cursor.row().is_none(), "behind the last row");
}

// Walks from the last row to the first.
fn walk_back<D: Disk + Drop>(
    rt: &impl Abort,
    alloc: Global,
    store: &mut EmbeddedStore<D>,
    cursor: &mut RowCursor,
) {
    let count = cursor.number().get();
    move_cursor(rt, alloc, store, cursor, Move::Last);
    for index in (0..KEYS).rev() {
        if plain(index, count).is_some() {
            holds_at(rt, index as usize, is_on(cursor, index, count));
            move_cursor(rt, alloc, store, cursor, Move::Prev);
        }
    }
    is_so(rt, cursor.row().is_none(), "before the first row");
}

// The first key from this one on that the map of so many batches has; else none of the keys.
fn next_key(from: u64, count: u64) -> u64 {
    for index in from..KEYS {
        if plain(index, count).is_some() {
            return index;
        }
    }
    KEYS
}

// Moves to a key, steps on, and back.
fn seek_and_turn<D: Disk + Drop>(
    rt: &impl Abort,
    alloc: Global,
    store: &mut EmbeddedStore<D>,
    cursor: &mut RowCursor,
    index: u64,
) {
    let count = cursor.number().get();
    move_cursor(rt, alloc, store, cursor, Move::Seek(index));
    let first = next_key(index, count);
    if first == KEYS {
        is_so(rt, cursor.row().is_none(), "no row from there on");
        return;
    }
    holds_at(rt, index as usize, is_on(cursor, first, count));
    move_cursor(rt, alloc, store, cursor, Move::Next);
    let second = next_key(first.wrapping_add(1), count);
    if second < KEYS {
        holds_at(rt, index as usize, is_on(cursor, second, count));
        move_cursor(rt, alloc, store, cursor, Move::Prev);
        holds_at(rt, index as usize, is_on(cursor, first, count));
    }
}

fn seek_all<D: Disk + Drop>(
    rt: &impl Abort,
    alloc: Global,
    store: &mut EmbeddedStore<D>,
    cursor: &mut RowCursor,
) {
    for index in 0..=KEYS {
        seek_and_turn(rt, alloc, store, cursor, index);
    }
}

// All walks through the map of the cursor.
fn walk_all<D: Disk + Drop>(
    rt: &impl Abort,
    alloc: Global,
    store: &mut EmbeddedStore<D>,
    cursor: &mut RowCursor,
) {
    is_so(rt, cursor.row().is_none(), "on no row at first");
    walk_on(rt, alloc, store, cursor);
    walk_back(rt, alloc, store, cursor);
    seek_all(rt, alloc, store, cursor);
}

// Cursors at a snapshot, while batches are written behind it, and at the newest number.
fn run_cursors<D: Disk + Drop>(rt: &impl Abort, alloc: Global, store: &mut EmbeddedStore<D>) {
    fill(rt, alloc, store, 1, 20);
    let snapshot = done(rt, store.snapshot());
    let mut before = store.cursor(alloc, Some(snapshot));
    walk_all(rt, alloc, store, &mut before);
    fill(rt, alloc, store, 21, 40);
    walk_on(rt, alloc, store, &mut before);
    drop(before);
    let mut newest = store.cursor(alloc, None);
    is_so(rt, newest.number() == number(40), "the newest number");
    walk_all(rt, alloc, store, &mut newest);
    drop(newest);
}

#[test]
fn cursors_walk_as_a_plain_map(rt: HostRuntime) {
    let mut store = opened(&rt, rt.alloc(), MemDisk::new(rt.alloc()));
    run_cursors(&rt, rt.alloc(), &mut store);
    store.close();
}

#[test]
fn cursors_walk_so_in_a_folder(rt: HostRuntime) {
    let folder = empty_folder(&rt, &rt, "embedded_cursors");
    let mut store = done(&rt, EmbeddedStore::open(&rt, folder.as_str(), &limits(&rt)));
    run_cursors(&rt, rt.alloc(), &mut store);
    store.close();
    remove_folder(&rt, &rt, folder.as_str());
}

// A cursor at number 20, while 40 batches more are written: it is refused, and stands where it
// stood.
fn refuse_move<D: Disk + Drop>(
    rt: &impl Abort,
    alloc: Global,
    store: &mut EmbeddedStore<D>,
    cursor: &mut RowCursor,
) {
    move_cursor(rt, alloc, store, cursor, Move::First);
    let first = next_key(0, 20);
    fill(rt, alloc, store, 21, 60);
    let is_old = is_refused(rt, alloc, store, 20, EngineError::TooOld);
    is_so(rt, is_old, "too old");
    let move_fails = fails(cursor.last(alloc, store), EngineError::TooOld);
    is_so(rt, move_fails, "a move");
    is_so(rt, is_on(cursor, first, 20), "where it stood");
}

#[test]
fn a_refused_move_leaves_the_cursor(rt: HostRuntime) {
    let (rt, alloc) = (&rt, rt.alloc());
    let mut store = opened(rt, alloc, MemDisk::new(alloc));
    fill(rt, alloc, &mut store, 1, 20);
    let mut cursor = store.cursor(alloc, None);
    refuse_move(rt, alloc, &mut store, &mut cursor);
    drop(cursor);
    store.close();
}
