//! Walks over a memtable and two tables side by side, as a store has them, against plain lists, and
//! a damaged block of one of the tables.

use crate::changes::{batch_of, changes_of};
use crate::counts::is_count;
use crate::entries::{all_owned, owned};
use crate::items;
use crate::items::{number, put};
use crate::moves::{agreeing, meet_all};
use crate::numbered::Numbered;
use crate::open_tables::{FILE, build, cursor_in, with_cache};
use crate::plain::{PlainEntry, add_all, shown_at};
use crate::sequence::Sequence;
use crate::table_damage::{SOUND, damaged_files, is_stopped};
use disk::MemDisk;
use kv_types::Number;
use merge_iter::{Merged, OwnedEntry};
use sorted_table::CachedDisk;
use std::alloc::Global;
use std::process::Abort;
use store_cursors::{StoreCursor, StoreRows, rows_at};

const NUMBERS: u8 = 120;

/// The entries of 120 batches with 12 changes each, and a memtable of every third batch.
fn entries_and_memtable(rt: &impl Abort, alloc: Global) -> (Vec<PlainEntry>, Numbered) {
    let (mut sequence, mut entries) = (Sequence::new(5), Vec::new(alloc));
    let mut memtable = Numbered::new(alloc);
    for number in 1..=u64::from(NUMBERS) {
        let changes = changes_of(rt, alloc, &mut sequence, 12);
        add_all(rt, &mut entries, number, &changes);
        if number % 3 == 0 {
            memtable.add(rt, number, &batch_of(rt, alloc, &changes));
        }
    }
    (entries, memtable)
}

/// The entries whose numbers leave this when they are divided by three.
fn part_of(rt: &impl Abort, alloc: Global, entries: &[PlainEntry], which: u64) -> Vec<OwnedEntry> {
    let mut part = Vec::new(alloc);
    for entry in entries {
        if entry.number % 3 == which {
            put(rt, &mut part, owned(rt, alloc, *entry));
        }
    }
    part
}

/// A disk with two tables, each of a third of the entries, and a cache of two blocks.
fn files_of(rt: &impl Abort, alloc: Global, entries: &[PlainEntry]) -> CachedDisk<MemDisk> {
    let mut disk = MemDisk::new(alloc);
    for (file, which) in [(FILE, 1), (SOUND, 2)] {
        let part = part_of(rt, alloc, entries, which);
        build(rt, alloc, &mut disk, file, &part);
    }
    with_cache(rt, alloc, disk, 2)
}

/// A cursor over the tables of these files, one after another.
fn over<'a>(
    rt: &impl Abort,
    alloc: Global,
    files: &mut CachedDisk<MemDisk>,
    of: &[u64],
) -> StoreCursor<'a, MemDisk> {
    let mut tables = Vec::new(alloc);
    for file in of {
        put(rt, &mut tables, cursor_in(rt, alloc, files, *file));
    }
    StoreCursor::of_tables(tables)
}

/// A cursor over the memtable, and one over each table.
fn cursors_of<'a>(
    rt: &impl Abort,
    alloc: Global,
    memtable: &'a Numbered,
    files: &mut CachedDisk<MemDisk>,
) -> Vec<StoreCursor<'a, MemDisk>> {
    let mut cursors = Vec::new(alloc);
    let newest = StoreCursor::of_memtable(memtable.table()).expect(rt, "a memtable");
    put(rt, &mut cursors, newest);
    for file in [FILE, SOUND] {
        put(rt, &mut cursors, over(rt, alloc, files, &[file]));
    }
    cursors
}

/// The rows of all three at a number.
fn rows_of<'a>(
    rt: &impl Abort,
    alloc: Global,
    memtable: &'a Numbered,
    files: &mut CachedDisk<MemDisk>,
    at: u64,
) -> StoreRows<'a, MemDisk> {
    rows_at(alloc, cursors_of(rt, alloc, memtable, files), number(at))
}

#[test]
fn a_memtable_beside_two_tables(rt: HostRuntime) {
    let (entries, memtable) = entries_and_memtable(&rt, rt.alloc());
    let mut files = files_of(&rt, rt.alloc(), &entries);
    let mut union = Merged::new(cursors_of(&rt, rt.alloc(), &memtable, &mut files));
    let count = agreeing(&rt, &mut union, &mut files, &entries, NUMBERS);
    is_count(&rt, count, 2_000);
}

/// A disk with tables in these files, each of the next third of the entries, and a cache of two
/// blocks.
fn files_of_thirds(
    rt: &impl Abort,
    alloc: Global,
    entries: &[OwnedEntry],
    of: &[u64],
) -> CachedDisk<MemDisk> {
    let mut disk = MemDisk::new(alloc);
    for (file, third) in of.iter().zip(entries.chunks(entries.len() / 3 + 1)) {
        build(rt, alloc, &mut disk, *file, third);
    }
    with_cache(rt, alloc, disk, 2)
}

#[test]
fn three_tables_one_after_another(rt: HostRuntime) {
    let (alloc, of) = (rt.alloc(), [FILE, SOUND, 5]);
    let entries = entries_and_memtable(&rt, alloc).0;
    let owned = all_owned(&rt, alloc, &entries);
    let mut files = files_of_thirds(&rt, alloc, &owned, &of);
    let mut cursor = over(&rt, alloc, &mut files, &of);
    meet_all(&rt, &mut cursor, &mut files, &owned, owned.len());
    let count = agreeing(&rt, &mut cursor, &mut files, &entries, NUMBERS);
    is_count(&rt, count, 2_000);
}

/// Fails the test where a walk each way over the rows at a number does not meet each in its place.
fn meet_rows(
    rt: &impl Abort,
    alloc: Global,
    memtable: &Numbered,
    files: &mut CachedDisk<MemDisk>,
    entries: &[PlainEntry],
    at: u64,
) {
    let shown = shown_at(rt, alloc, entries, at);
    let owned = all_owned(rt, alloc, &shown);
    let mut rows = rows_of(rt, alloc, memtable, files, at);
    meet_all(rt, &mut rows, files, &owned, shown.len());
}

#[test]
fn rows_at_several_numbers(rt: HostRuntime) {
    let alloc = rt.alloc();
    let (entries, memtable) = entries_and_memtable(&rt, alloc);
    let mut files = files_of(&rt, alloc, &entries);
    for at in [0, 1, 2, 3, 40, 119, 120] {
        meet_rows(&rt, alloc, &memtable, &mut files, &entries, at);
    }
}

// Of the moves over the rows at 61.
#[test]
fn the_rows_of_a_memtable_and_two_tables(rt: HostRuntime) {
    let (entries, memtable) = entries_and_memtable(&rt, rt.alloc());
    let mut files = files_of(&rt, rt.alloc(), &entries);
    let mut rows = rows_of(&rt, rt.alloc(), &memtable, &mut files, 61);
    let shown = shown_at(&rt, rt.alloc(), &entries, 61);
    let count = agreeing(&rt, &mut rows, &mut files, &shown, NUMBERS);
    is_count(&rt, count, 2_000);
}

/// A memtable of the batch with number 2, which deletes 4 and puts 6.
fn newer(rt: &impl Abort, alloc: Global) -> Numbered {
    let mut memtable = Numbered::new(alloc);
    let batch = items::batch_of(rt, alloc, &[(b"4", None), (b"6", Some(b"new"))]);
    memtable.add(rt, 2, &batch);
    memtable
}

// The keys 4 and 6 stand in the union twice, behind the damage of 5 and before it.
#[test]
fn a_damaged_block_stops_a_union_with_a_memtable(rt: HostRuntime) {
    let (memtable, mut files) = (newer(&rt, rt.alloc()), damaged_files(&rt, rt.alloc()));
    let mut union = Merged::new(cursors_of(&rt, rt.alloc(), &memtable, &mut files));
    is_stopped(&rt, &mut union, &mut files, (b"123", b"987"));
}

// At 2 the key 4 is deleted. A walk back is one entry ahead.
#[test]
fn a_damaged_block_stops_rows(rt: HostRuntime) {
    let (memtable, mut files) = (newer(&rt, rt.alloc()), damaged_files(&rt, rt.alloc()));
    let mut rows = rows_of(&rt, rt.alloc(), &memtable, &mut files, 2);
    is_stopped(&rt, &mut rows, &mut files, (b"123", b"98"));
}
