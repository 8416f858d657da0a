// What pages of two tables cost the device, and what a damaged block of one of them does to a walk.
use crate::cases::{has_memory, holds_at, is_so};
use crate::items::{is_same, put};
use crate::plain_store::{Change, Span, append, batch_at, created, key_at, opened, tends};
use crate::watched_disk::{Spot, WatchedDisk};
use disk::MemDisk;
use engine::{Engine, EngineError};
use kv_types::{Page, Row};
use std::alloc::Global;
use std::process::Abort;

// With this limit each log that has a batch is due for a flush.
const LOG: u64 = 16;

// The files of the tables.
const FIRST: u64 = 4;

const SECOND: u64 = 6;

// Keys of a table: the first place, the step to the next, and how many hundreds.
type Keys = (u16, u16, u16);

// The puts of the hundred keys behind so many hundreds.
fn hundred(rt: &impl Abort, alloc: Global, keys: Keys, behind: u16) -> Vec<Change> {
    let mut changes = Vec::new(alloc);
    for i in 0..100u16 {
        let index = behind.wrapping_mul(100).wrapping_add(i);
        let place = keys.0.wrapping_add(keys.1.wrapping_mul(index));
        put(rt, &mut changes, (place, Some(place)));
    }
    changes
}

// Puts these keys, and flushes them.
fn fill(rt: &impl Abort, alloc: Global, engine: &mut Engine<WatchedDisk>, keys: Keys) {
    for behind in 0..keys.2 {
        let changes = hundred(rt, alloc, keys, behind);
        append(rt, engine, &batch_at(rt, alloc, &changes));
    }
    is_so(rt, tends(rt, alloc, engine), "a flush");
}

// A disk with two tables of these keys.
fn tables(rt: &impl Abort, alloc: Global, first: Keys, second: Keys) -> WatchedDisk {
    let disk = WatchedDisk::new(MemDisk::new(alloc));
    let mut engine = created(rt, alloc, disk, LOG);
    fill(rt, alloc, &mut engine, first);
    fill(rt, alloc, &mut engine, second);
    engine.into_disk()
}

// The tables of every second of 10,000 keys, from 100 on. A block has 39 entries, and the last one
// of a table 8.
fn mixed(rt: &impl Abort, alloc: Global) -> WatchedDisk {
    tables(rt, alloc, (100, 2, 50), (101, 2, 50))
}

// Whether the row has the key of a place.
fn is_at(rt: &impl Abort, alloc: Global, row: &Row, place: u16) -> bool {
    let key = key_at(rt, alloc, place);
    is_same(row.key(), key.as_bytes())
}

// Whether the page has the rows of so many keys, from this place on or down from it, and whether
// more are left.
fn has_rows(
    rt: &impl Abort,
    alloc: Global,
    page: &Page,
    (first, backward): (u16, bool),
    (count, more): (usize, bool),
) -> bool {
    let mut place = first;
    for row in page.rows() {
        if !is_at(rt, alloc, row, place) {
            return false;
        }
        place = if backward {
            place.wrapping_sub(1)
        } else {
            place.wrapping_add(1)
        };
    }
    page.rows().len() == count && page.has_more() == more
}

// A range of places, whether it is read backward, with which limit.
type Walk = (u16, u16, bool, u32);

fn span_of((low, bound, backward, limit): Walk) -> Span {
    Span {
        low,
        bound: Some(bound),
        backward,
        limit,
    }
}

// The place of the first row of a walk through a range that has every key.
fn start_of((low, bound, backward, _): Walk) -> u16 {
    if backward { bound.wrapping_sub(1) } else { low }
}

// A walk, how many rows its page has, and whether more are left.
type Read = (Walk, usize, bool);

// Whether the page of a walk is this one.
fn reads(
    rt: &impl Abort,
    alloc: Global,
    engine: &mut Engine<WatchedDisk>,
    (walk, count, more): Read,
) -> Result<bool, EngineError> {
    let at = engine.count();
    match engine.rows(alloc, at, &span_of(walk).range(rt, alloc)) {
        Ok(page) => {
            let first = (start_of(walk), walk.2);
            Ok(has_rows(rt, alloc, &page, first, (count, more)))
        }
        Err(e) => {
            has_memory(rt, e == EngineError::Memory);
            Err(e)
        }
    }
}

// The calls of an opening of this store for the two tables, and of a page, if there is one to read.
fn calls_of(
    rt: &impl Abort,
    alloc: Global,
    disk: WatchedDisk,
    read: Option<Read>,
) -> (WatchedDisk, [u64; 2]) {
    let mut engine = opened(rt, alloc, disk, LOG);
    if let Some(read) = read {
        let is_read = reads(rt, alloc, &mut engine, read);
        is_so(rt, matches!(is_read, Ok(true)), "the rows");
    }
    let mut disk = engine.into_disk();
    let calls = [disk.calls[FIRST as usize], disk.calls[SECOND as usize]];
    disk.calls = [0; 16];
    (disk, calls)
}

// Whether a page costs so many calls for each table, beyond those of an opening.
fn costs(
    rt: &impl Abort,
    alloc: Global,
    disk: WatchedDisk,
    read: Read,
    want: [u64; 2],
) -> (WatchedDisk, bool) {
    let (disk, _first) = calls_of(rt, alloc, disk, None);
    let (disk, opening) = calls_of(rt, alloc, disk, None);
    let (disk, calls) = calls_of(rt, alloc, disk, Some(read));
    let is_first = calls[0].saturating_sub(opening[0]) == want[0];
    let is_second = calls[1].saturating_sub(opening[1]) == want[1];
    (disk, is_first && is_second)
}

// Pages that a store of this disk has, and their calls for each table.
fn all_cost(rt: &impl Abort, alloc: Global, disk: WatchedDisk, rows: &[(Read, [u64; 2])]) {
    let mut disk = disk;
    for (index, (read, want)) in rows.iter().enumerate() {
        let (left, holds) = costs(rt, alloc, disk, *read, *want);
        holds_at(rt, index, holds);
        disk = left;
    }
    drop(disk);
}

// Pages of ten rows, of a hundred keys and of all.
static TENS: [(Read, [u64; 2]); 4] = [
    (((100, 200, false, 10), 10, true), [1, 1]),
    (((100, 10_100, false, 10), 10, true), [1, 1]),
    (((10_000, 10_100, true, 10), 10, true), [1, 1]),
    (((100, 10_100, true, 10), 10, true), [1, 1]),
];

#[test]
fn ten_rows_cost_one_block_of_each_table(rt: HostRuntime) {
    all_cost(&rt, rt.alloc(), mixed(&rt, rt.alloc()), &TENS);
}

// Pages of ranges in which one of two tables has all rows: 100 to 399, and 500 to 799. Each has
// eight blocks.
static APART: [(Read, [u64; 2]); 4] = [
    (((100, 400, false, 1_024), 300, false), [8, 0]),
    (((100, 400, true, 1_024), 300, false), [8, 0]),
    (((500, 800, false, 1_024), 300, false), [0, 8]),
    (((500, 800, true, 1_024), 300, false), [0, 8]),
];

#[test]
fn a_table_without_keys_of_the_range_is_not_read(rt: HostRuntime) {
    let disk = tables(&rt, rt.alloc(), (100, 1, 3), (500, 1, 3));
    all_cost(&rt, rt.alloc(), disk, &APART);
}

// How many rows a walk meets in full pages until one is refused, and the refusal.
fn rows_before(
    rt: &impl Abort,
    alloc: Global,
    engine: &mut Engine<WatchedDisk>,
    walk: Walk,
) -> (u16, Option<EngineError>) {
    let (mut walk, mut met) = (walk, 0u16);
    for _ in 0..1_000 {
        match reads(rt, alloc, engine, (walk, 10, true)) {
            Ok(true) => met = met.wrapping_add(10),
            Ok(false) => return (met, None),
            Err(e) => return (met, Some(e)),
        }
        if walk.2 {
            walk.1 = walk.1.wrapping_sub(10);
        } else {
            walk.0 = walk.0.wrapping_add(10);
        }
    }
    (met, None)
}

// A place in block 61 of the first table. Each block has 4,146 bytes, and this one the keys from
// 4,858 to 4,934.
const DAMAGE: Spot = Spot {
    file: FIRST,
    place: 61 * 4_146 + 500,
};

// Walks, and how many rows come before the page that has a key of that block.
static DAMAGED: [(Walk, u16); 2] = [
    ((100, 10_100, false, 10), 4_750),
    ((100, 10_100, true, 10), 5_160),
];

// Whether a walk of the store of this disk meets so many rows and ends as damaged, and whether a
// read then fails.
fn ends_damaged(
    rt: &impl Abort,
    alloc: Global,
    disk: WatchedDisk,
    (walk, met): (Walk, u16),
) -> (WatchedDisk, bool) {
    let mut engine = opened(rt, alloc, disk, LOG);
    let found = rows_before(rt, alloc, &mut engine, walk);
    let later = reads(rt, alloc, &mut engine, (walk, 10, true));
    let holds = found == (met, Some(EngineError::Damaged))
        && matches!(later, Err(EngineError::Failed));
    (engine.into_disk(), holds)
}

#[test]
fn a_damaged_block_ends_a_walk(rt: HostRuntime) {
    let mut disk = mixed(&rt, rt.alloc());
    disk.damage = Some(DAMAGE);
    for (index, row) in DAMAGED.iter().enumerate() {
        let (left, holds) = ends_damaged(&rt, rt.alloc(), disk, *row);
        holds_at(&rt, index, holds);
        disk = left;
    }
    drop(disk);
}
