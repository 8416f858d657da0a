//! Tables of entries in files, built, opened and damaged.

ghost use Rattle.table_format.specs.{IsTableEntry, lent_entry};

use disk::{Disk, MemDisk};
use merge_iter::OwnedEntry;
use sorted_table::{Builder, CachedDisk, Finished, LentEntry, Table, TableCursor};
use std::alloc::Global;
use std::process::Abort;

/// The entry, lent.
fn lent(entry: &OwnedEntry) -> LentEntry<'_>
    ensures { IsTableEntry (lent_entry result) }
{
    LentEntry {
        key: entry.key.lent(),
        number: entry.number,
        value: entry.value.as_deref(),
    }
}

/// Adds these entries.
fn add_all<D: Disk>(
    rt: &impl Abort,
    alloc: Global,
    builder: &mut Builder,
    disk: &mut D,
    entries: &[OwnedEntry],
) {
    for entry in entries {
        builder.add(alloc, disk, lent(entry)).expect(rt, "an entry");
    }
}

/// Builds the table of these entries in a file.
pub fn build<D: Disk>(
    rt: &impl Abort,
    alloc: Global,
    disk: &mut D,
    file: u64,
    entries: &[OwnedEntry],
) -> Finished {
    let mut builder = Builder::new(alloc, file);
    add_all(rt, alloc, &mut builder, disk, entries);
    assert!(rt; builder.len() > 0, "no entries");
    builder.finish(alloc, disk).expect(rt, "a table")
}

/// The disk with a cache of so many blocks.
pub fn with_cache(
    rt: &impl Abort,
    alloc: Global,
    disk: MemDisk,
    blocks: usize,
) -> CachedDisk<MemDisk> {
    CachedDisk::new(alloc, disk, blocks.clamp(1, 65_536)).expect(rt, "memory for the cache")
}

/// The table of the file.
pub fn table_in(
    rt: &impl Abort,
    alloc: Global,
    files: &mut CachedDisk<MemDisk>,
    file: u64,
) -> Table {
    Table::open(alloc, files, file).expect(rt, "a table")
}

/// A cursor over the table of the file.
pub fn cursor_in(
    rt: &impl Abort,
    alloc: Global,
    files: &mut CachedDisk<MemDisk>,
    file: u64,
) -> TableCursor<MemDisk> {
    let table = table_in(rt, alloc, files, file);
    table.cursor(alloc).expect(rt, "memory")
}

/// Writes the bytes at a place of the file.
pub fn write<D: Disk>(rt: &impl Abort, disk: &mut D, file: u64, place: u64, bytes: &[u8]) {
    disk.write_at(file, place, bytes).expect(rt, "a write");
}

/// All bytes of the file.
pub fn bytes_of<D: Disk>(rt: &impl Abort, alloc: Global, disk: &mut D, file: u64) -> Vec<u8> {
    let len = disk.length(file).expect(rt, "a file");
    let mut bytes = vec![in alloc; 0u8; len as usize].expect(rt, "memory");
    disk.read(file, 0, &mut bytes).expect(rt, "the bytes");
    bytes
}
