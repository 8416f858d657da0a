//! Batches that are written once, by their marks: again at once, in tables, and in a store that is
//! opened again.
use crate::cases::{done, holds_at};
use crate::courses::key_at;
use crate::items::{number, value_of};
use disk::MemDisk;
use embedded_store::{EmbeddedStore, OnceError, Tended};
use kv_types::{Batch, Edit, Limits, Number};
use std::alloc::Global;
use std::process::Abort;

// What a retry is answered: a number, or none for an old request.
type Answer = Option<u64>;

// The mark of each batch, and what its write is answered: batches of clients 7 and 8 in turn, their
// retries, request numbers that skip, and ones that fall.
const COURSE: [(u64, u64, Answer); 10] = [
    (7, 1, Some(1)),
    (7, 1, Some(1)),
    (8, 1, Some(2)),
    (7, 1, Some(1)),
    (7, 5, Some(3)),
    (7, 1, None),
    (7, 4, None),
    (8, 1, Some(2)),
    (8, 2, Some(4)),
    (7, 5, Some(3)),
];

// A store that flushes behind each batch.
fn opened(rt: &impl Abort, alloc: Global, disk: MemDisk) -> EmbeddedStore<MemDisk> {
    let limits = done(rt, Limits::new(16, 1, 256, 512, 16));
    done(rt, EmbeddedStore::over(alloc, disk, &limits))
}

// The batch with this mark, which puts the request to the key of the client.
fn marked_batch(rt: &impl Abort, alloc: Global, client: u64, request: u64) -> Batch {
    let value = value_of(rt, alloc, &request.to_be_bytes());
    let put = Edit::Put(key_at(rt, alloc, client), value);
    let edits = done(rt, vec![in alloc; put]);
    done(rt, Batch::marked(client, request, edits))
}

// Whether a write was answered so.
fn is_answer(found: Result<Number, OnceError>, want: Answer) -> bool {
    match want {
        Some(want) => found.ok() == Some(number(want)),
        None => found.err() == Some(OnceError::OldRequest),
    }
}

fn writes_once(
    rt: &impl Abort,
    alloc: Global,
    store: &mut EmbeddedStore<MemDisk>,
    step: (u64, u64, Answer),
) -> bool {
    let batch = marked_batch(rt, alloc, step.0, step.1);
    let answer = store.write_once(alloc, &batch);
    drop(batch);
    is_answer(answer, step.2)
}

// Flushes and merges what is due.
fn settles(alloc: Global, store: &mut EmbeddedStore<MemDisk>) -> bool {
    for _ in 0..100 {
        if store.tend(alloc) != Ok(Tended::Worked) {
            return true;
        }
    }
    false
}

// The disk of a store that is closed by a stop of its process, and opened again.
fn opened_again(
    rt: &impl Abort,
    alloc: Global,
    store: EmbeddedStore<MemDisk>,
) -> EmbeddedStore<MemDisk> {
    opened(rt, alloc, store.into_disk())
}

#[test]
fn a_marked_batch_is_written_once(rt: HostRuntime) {
    let (rt, alloc) = (&rt, rt.alloc());
    let mut store = opened(rt, alloc, MemDisk::new(alloc));
    for (index, step) in COURSE.iter().enumerate() {
        holds_at(rt, index, writes_once(rt, alloc, &mut store, *step));
    }
    store.close();
}

#[test]
fn a_retry_is_known_in_tables_and_in_a_store_that_is_opened_again(rt: HostRuntime) {
    let (rt, alloc) = (&rt, rt.alloc());
    let mut store = opened(rt, alloc, MemDisk::new(alloc));
    for (index, step) in COURSE.iter().enumerate() {
        store = opened_again(rt, alloc, store);
        let written = writes_once(rt, alloc, &mut store, *step);
        let settled = settles(alloc, &mut store);
        holds_at(rt, index, written && settled);
    }
    store.close();
}
