//! Builders under way: refused entries, data sizes, and the blocks of a long table.

use crate::cases::is_so;
use crate::items::is_same;
use crate::open_tables::bytes_of;
use byte_fields::{Format, LentKey, Space};
use disk::MemDisk;
use sorted_table::{Builder, Finished};
use std::alloc::Global;
use std::process::Abort;
use table_format::{IndexLine, LentEntry, TableError, entries_of, footer_of, lines_of};

const FILE: u64 = 9;

/// Adds `a` at this number.
fn add_a(
    alloc: Global,
    builder: &mut Builder,
    disk: &mut MemDisk,
    number: u8,
) -> Result<(), TableError> {
    let entry = LentEntry {
        key: LentKey::new(Space::Rows, b"a"),
        number: number as u64,
        value: None,
    };
    builder.add(alloc, disk, entry)
}

/// Whether the builder has so many entries, and this data size.
fn has(builder: &Builder, len: u64, size: u64) -> bool {
    builder.len() == len && builder.data_size() == size
}

// `a` is added at 2, refused at 2 and at 3, and added at 1.
#[test]
fn a_refused_entry_leaves_the_builder(rt: HostRuntime) {
    let (alloc, mut disk) = (rt.alloc(), MemDisk::new(rt.alloc()));
    let mut builder = Builder::new(alloc, FILE);
    for (number, want) in [
        (2, Ok(())),
        (2, Err(TableError::Order)),
        (3, Err(TableError::Order)),
    ] {
        let answer = add_a(alloc, &mut builder, &mut disk, number);
        is_so(&rt, answer == want && has(&builder, 1, 25), "one entry");
    }
    let answer = add_a(alloc, &mut builder, &mut disk, 1);
    is_so(&rt, answer.is_ok() && has(&builder, 2, 38), "two entries");
}

/// Adds 1,000 keys, each at number 1.
fn fill(rt: &impl Abort, alloc: Global, builder: &mut Builder, disk: &mut MemDisk) {
    for i in 0..1000u16 {
        let key = i.to_be_bytes();
        let entry = LentEntry {
            key: LentKey::new(Space::Rows, &key),
            number: 1,
            value: Some(&[7; 100]),
        };
        builder.add(alloc, disk, entry).expect(rt, "an entry");
    }
}

/// The index of the table, and the place where its filter begins.
fn index_of(table: &[u8]) -> Option<(&[u8], u64)> {
    let front = table.len().checked_sub(52)?;
    let footer = footer_of(&table[front..])?;
    let index = table.get(footer.index as usize..front)?;
    Some((index, footer.filter))
}

/// Whether the line is that of a good block of the table.
fn is_good(table: &[u8], line: &IndexLine) -> bool {
    let from = line.place as usize;
    match table.get(from..from.saturating_add(line.len as usize)) {
        Some(part) => entries_of(Format::Two, part).is_some(),
        None => false,
    }
}

/// How many lines and how many good blocks the table has.
fn counts(rt: &impl Abort, alloc: Global, table: &[u8]) -> (usize, usize) {
    let (index, filter) = index_of(table).expect(rt, "an index");
    let lines = lines_of(alloc, Format::Two, index, filter).expect(rt, "lines");
    let mut good = 0usize;
    for line in &lines {
        good = good.wrapping_add(is_good(table, line) as usize);
    }
    (lines.len(), good)
}

/// The table of those keys. 36 entries of 116 bytes fill a block: 27 full blocks, and one of 28
/// entries.
fn finished(rt: &impl Abort, alloc: Global, disk: &mut MemDisk) -> Finished {
    let mut builder = Builder::new(alloc, FILE);
    fill(rt, alloc, &mut builder, disk);
    is_so(rt, builder.data_size() == 116_000 + 28 * 12, "the size");
    assert!(rt; builder.len() == 1_000);
    builder.finish(alloc, disk).expect(rt, "a table")
}

/// Whether the builder reports the first key, the last, and this length.
fn is_reported(finished: &Finished, len: usize) -> bool {
    is_same(finished.least.lent().as_bytes(), &[0, 0])
        && is_same(finished.greatest.lent().as_bytes(), &[3, 231])
        && finished.length == len as u64
}

#[test]
fn many_blocks(rt: HostRuntime) {
    let (alloc, mut disk) = (rt.alloc(), MemDisk::new(rt.alloc()));
    let finished = finished(&rt, alloc, &mut disk);
    let table = bytes_of(&rt, alloc, &mut disk, FILE);
    is_so(&rt, is_reported(&finished, table.len()), "the report");
    is_so(&rt, counts(&rt, alloc, &table) == (28, 28), "the blocks");
}
