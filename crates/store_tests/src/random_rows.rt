// Random pages of a store that grows, flushes and merges, beside a plain one, and its last marks.
use crate::cases::{holds_at, is_so};
use crate::items::Marking;
use crate::numbers::Numbers;
use crate::plain_store::{PlainStore, agreeing_pages, append, created, mark_of, marked_at, tends};
use disk::MemDisk;
use engine::Engine;
use std::alloc::Global;
use std::process::Abort;

const BATCHES: u64 = 20_000;

// So many batches come between two ranges.
const BETWEEN: u64 = 10;

// So long a log grows.
const LOG: u64 = 65_536;

// One of so many batches bears a mark.
const MARKED: u64 = 100;

// So many clients mark batches in turn.
const CLIENTS: u64 = 50;

// The mark of the batch of a number, which is its request.
fn mark_at(number: u64) -> Option<Marking> {
    if number % MARKED == 0 {
        Some(((number / MARKED % CLIENTS).saturating_add(1), number))
    } else {
        None
    }
}

// Whether the last mark of a client is the one that so many others stand behind, fewer than there
// are clients, up to a batch.
fn has_mark(
    rt: &impl Abort,
    alloc: Global,
    engine: &mut Engine<MemDisk>,
    (behind, count): (u64, u64),
) -> bool {
    let number = (count / MARKED)
        .saturating_sub(behind)
        .saturating_mul(MARKED);
    match mark_at(number) {
        Some((client, _)) if number > 0 => {
            let found = mark_of(rt, alloc, engine, client);
            found.0 == number && found.1 == number
        }
        _ => true,
    }
}

// Appends the batch of this number to both stores, and says whether a tend then works.
fn flushes(
    rt: &impl Abort,
    alloc: Global,
    engine: &mut Engine<MemDisk>,
    plain: &mut PlainStore,
    (numbers, count): (&mut Numbers, u64),
) -> bool {
    let changes = numbers.changes(rt, alloc);
    append(rt, engine, &marked_at(rt, alloc, mark_at(count), &changes));
    plain.add(rt, count, &changes);
    tends(rt, alloc, engine)
}

// How many pages a range at a number of so many has, each of which is that of the plain store.
fn pages(
    rt: &impl Abort,
    alloc: Global,
    engine: &mut Engine<MemDisk>,
    plain: &PlainStore,
    (numbers, count): (&mut Numbers, u64),
) -> u64 {
    let floor = engine.floor().get();
    let walk = (numbers.at(floor, count), numbers.span());
    let found = agreeing_pages(rt, alloc, engine, plain, walk);
    holds_at(rt, count as usize, found.is_some());
    found.unwrap_or(0)
}

// Grows the stores, and reads them.
fn grow(rt: &impl Abort, alloc: Global, engine: &mut Engine<MemDisk>) {
    let (mut numbers, mut plain) = (Numbers::new(), PlainStore::new(rt, alloc));
    let (mut flushed, mut read) = (0u64, 0u64);
    for count in 1..BATCHES + 1 {
        if flushes(rt, alloc, engine, &mut plain, (&mut numbers, count)) {
            flushed = flushed.saturating_add(1);
        }
        if count % BETWEEN == 0 {
            let pages = pages(rt, alloc, engine, &plain, (&mut numbers, count));
            read = read.saturating_add(pages);
            let mark = (count / BETWEEN % CLIENTS, count);
            holds_at(rt, count as usize, has_mark(rt, alloc, engine, mark));
        }
    }
    is_so(rt, flushed > 40, "flushes");
    is_so(rt, read > 2 * (BATCHES / BETWEEN), "pages");
}

#[test]
fn random_pages_beside_a_plain_store(rt: HostRuntime) {
    let alloc = rt.alloc();
    let mut engine = created(&rt, alloc, MemDisk::new(alloc), LOG);
    grow(&rt, alloc, &mut engine);
    drop(engine.into_disk());
}
