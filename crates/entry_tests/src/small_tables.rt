//! Tables of one entry in files: their bytes, what damage answers, and two of them side by side.

use crate::cases::{holds_at, is_so};
use crate::counts::is_count;
use crate::entries::{entry_of, is_same_value};
use crate::items::is_same;
use crate::one_put::{
    BLOCK, FILTER, FOOTER, INDEX, OLD_BLOCK, OLD_FILTER, OLD_FOOTER, OLD_INDEX, joined, turned,
};
use crate::open_tables::{FILE, build, bytes_of, table_in, with_cache, write};
use byte_fields::{Format, LentKey, Space};
use disk::MemDisk;
use sorted_table::{CachedDisk, FileError, Table};
use std::alloc::Global;
use std::process::Abort;

// ---- bytes

/// The table in which `1` was put at `a` by the batch with number 1.
fn smallest(rt: &impl Abort, alloc: Global) -> Vec<u8> {
    joined(rt, alloc, &[BLOCK, FILTER, INDEX, FOOTER])
}

/// Builds the table of one entry of the key `a` with number 1, and answers its bytes.
fn table_of_a(
    rt: &impl Abort,
    alloc: Global,
    disk: &mut MemDisk,
    file: u64,
    value: Option<&[u8]>,
) -> Vec<u8> {
    let entries = [entry_of(rt, alloc, b"a", 1, value)];
    let finished = build(rt, alloc, disk, file, &entries);
    let bytes = bytes_of(rt, alloc, disk, file);
    let is_reported = finished.length == bytes.len() as u64;
    is_so(rt, is_reported, "the builder reports another length");
    is_so(
        rt,
        is_same(finished.least.lent().as_bytes(), b"a"),
        "another key",
    );
    bytes
}

#[test]
fn bytes_of_the_smallest_tables(rt: HostRuntime) {
    let (alloc, mut disk) = (rt.alloc(), MemDisk::new(rt.alloc()));
    let bytes = table_of_a(&rt, alloc, &mut disk, 3, Some(b"1"));
    is_so(&rt, is_same(&bytes, &smallest(&rt, alloc)), "its bytes");
    let bytes = table_of_a(&rt, alloc, &mut disk, 4, None);
    is_count(&rt, bytes.len(), 133);
    let bytes = table_of_a(&rt, alloc, &mut disk, 5, Some(&[7; 200]));
    is_count(&rt, bytes.len(), 335);
}

// ---- damage

/// A disk with a file of these bytes, and a cache of one block.
fn files_with(rt: &impl Abort, alloc: Global, bytes: &[u8]) -> CachedDisk<MemDisk> {
    let mut disk = MemDisk::new(alloc);
    write(rt, &mut disk, FILE, 0, bytes);
    with_cache(rt, alloc, disk, 1)
}

/// Whether a lookup of `a` says that its block is damaged.
fn is_refused(alloc: Global, table: &Table, files: &mut CachedDisk<MemDisk>) -> bool {
    table
        .get(alloc, files, LentKey::new(Space::Rows, b"a"), 1)
        .err()
        == Some(FileError::Damaged)
}

/// Whether the opening or a lookup says that these bytes are damaged.
fn is_damaged(rt: &impl Abort, alloc: Global, bytes: &[u8]) -> bool {
    let mut files = files_with(rt, alloc, bytes);
    match Table::open(alloc, &mut files, FILE) {
        Ok(table) => is_refused(alloc, &table, &mut files),
        Err(e) => e == FileError::Damaged,
    }
}

// Damage of each byte is found, both where a bit of it is turned and where the file ends before it.
#[test]
fn damage_and_short_files_are_found(rt: HostRuntime) {
    let alloc = rt.alloc();
    let whole = smallest(&rt, alloc);
    is_so(&rt, !is_damaged(&rt, alloc, &whole), "the sound table");
    for at in 0..136 {
        let other = turned(&rt, alloc, &whole, at);
        holds_at(&rt, at, is_damaged(&rt, alloc, &other));
        let front = whole.get(..at).unwrap_or_default();
        holds_at(&rt, at, is_damaged(&rt, alloc, front));
    }
}

/// Whether a table opens whose block has such a bit turned, and two lookups of `a` find it.
fn is_found_late(rt: &impl Abort, alloc: Global, at: usize) -> bool {
    let other = turned(rt, alloc, &smallest(rt, alloc), at);
    let mut files = files_with(rt, alloc, &other);
    let table = table_in(rt, alloc, &mut files, FILE);
    is_refused(alloc, &table, &mut files) && is_refused(alloc, &table, &mut files)
}

#[test]
fn damage_of_a_block_is_found_by_its_first_read(rt: HostRuntime) {
    for at in [0, 4, 7, 19, 27] {
        holds_at(&rt, at, is_found_late(&rt, rt.alloc(), at));
    }
}

// ---- two tables

/// Two tables of one key, whose first blocks differ at one place.
fn two_tables(rt: &impl Abort, alloc: Global, blocks: usize) -> CachedDisk<MemDisk> {
    let mut disk = MemDisk::new(alloc);
    table_of_a(rt, alloc, &mut disk, 3, Some(b"1"));
    table_of_a(rt, alloc, &mut disk, 4, Some(b"2"));
    with_cache(rt, alloc, disk, blocks)
}

/// Whether the table has this value at the key `a`.
fn has_value(
    rt: &impl Abort,
    alloc: Global,
    table: &Table,
    files: &mut CachedDisk<MemDisk>,
    value: &[u8],
) -> bool {
    let key = LentKey::new(Space::Rows, b"a");
    match table.get(alloc, files, key, 1).expect(rt, "a lookup") {
        Some(found) => is_same_value(found.value.as_deref(), Some(value)),
        None => false,
    }
}

/// How many of ten lookups in turn find the table's own value.
fn own_values(rt: &impl Abort, alloc: Global, blocks: usize) -> usize {
    let mut files = two_tables(rt, alloc, blocks);
    let one = table_in(rt, alloc, &mut files, 3);
    let two = table_in(rt, alloc, &mut files, 4);
    let mut own = 0usize;
    for _ in 0..5 {
        own = own.wrapping_add(has_value(rt, alloc, &one, &mut files, b"1") as usize);
        own = own.wrapping_add(has_value(rt, alloc, &two, &mut files, b"2") as usize);
    }
    own
}

#[test]
fn each_table_answers_its_own_value(rt: HostRuntime) {
    is_count(&rt, own_values(&rt, rt.alloc(), 1), 10);
    is_count(&rt, own_values(&rt, rt.alloc(), 2), 10);
}

// ---- a table of format 1

/// The table of format 1 in which `1` was put at `a` by the batch with number 1.
fn old_table(rt: &impl Abort, alloc: Global) -> Vec<u8> {
    joined(rt, alloc, &[OLD_BLOCK, OLD_FILTER, OLD_INDEX, OLD_FOOTER])
}

/// The value that a lookup of the key finds in the table of these bytes.
fn finds(rt: &impl Abort, alloc: Global, bytes: &[u8], key: LentKey) -> Option<Vec<u8>> {
    let mut files = files_with(rt, alloc, bytes);
    let table = table_in(rt, alloc, &mut files, FILE);
    let found = table.get(alloc, &mut files, key, 1).expect(rt, "a lookup");
    match found {
        Some(found) => found.value,
        None => None,
    }
}

#[test]
fn a_table_of_format_1_is_read(rt: HostRuntime) {
    let alloc = rt.alloc();
    let bytes = old_table(&rt, alloc);
    is_count(&rt, bytes.len(), 134);
    let mut files = files_with(&rt, alloc, &bytes);
    let table = table_in(&rt, alloc, &mut files, FILE);
    is_so(&rt, table.format().is_same(Format::One), "its format");
    let row = LentKey::new(Space::Rows, b"a");
    let found = finds(&rt, alloc, &bytes, row);
    is_so(
        &rt,
        is_same_value(found.as_deref(), Some(b"1")),
        "the value at the row",
    );
    let mark = LentKey::new(Space::Marks, b"a");
    is_so(&rt, finds(&rt, alloc, &bytes, mark).is_none(), "no mark");
}

#[test]
fn damage_of_a_table_of_format_1_is_found(rt: HostRuntime) {
    let alloc = rt.alloc();
    let whole = old_table(&rt, alloc);
    is_so(&rt, !is_damaged(&rt, alloc, &whole), "the sound table");
    for at in 0..134 {
        let other = turned(&rt, alloc, &whole, at);
        holds_at(&rt, at, is_damaged(&rt, alloc, &other));
    }
}
