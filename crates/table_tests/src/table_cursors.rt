//! Walks of 2,000 moves over a table of several blocks, against a plain list, and a walk over a
//! disk that fails.

use crate::cases::is_so;
use crate::changes::changes_of;
use crate::counts::is_count;
use crate::entries::all_owned;
use crate::moves::{agreeing, meet_all};
use crate::open_tables::{FILE, cursor_in, files_of};
use crate::plain::{PlainEntry, add_all};
use crate::sequence::Sequence;
use disk::{Crash, Fault, MemDisk};
use merge_iter::{Cursor, CursorError, OwnedEntry};
use sorted_table::{CachedDisk, TableCursor};
use std::alloc::Global;
use std::process::Abort;

const NUMBERS: u8 = 250;

/// The entries of 250 batches with 12 changes each.
fn entries_of(rt: &impl Abort, alloc: Global) -> (Vec<PlainEntry>, Vec<OwnedEntry>) {
    let (mut sequence, mut entries) = (Sequence::new(11), Vec::new(alloc));
    for number in 1..=u64::from(NUMBERS) {
        let changes = changes_of(rt, alloc, &mut sequence, 12);
        add_all(rt, &mut entries, number, &changes);
    }
    is_so(rt, entries.len() > 2_000, "entries");
    let owned = all_owned(rt, alloc, &entries);
    (entries, owned)
}

/// Fails the test where a cursor of the table does not go through the entries, or where a move of
/// 2,000 leads to another entry than in the plain list.
fn walk_through(
    rt: &impl Abort,
    alloc: Global,
    files: &mut CachedDisk<MemDisk>,
    entries: &[PlainEntry],
    owned: &[OwnedEntry],
) {
    let mut cursor = cursor_in(rt, alloc, files, FILE);
    meet_all(rt, &mut cursor, files, owned, entries.len());
    let count = agreeing(rt, &mut cursor, files, entries, NUMBERS);
    is_count(rt, count, 2_000);
}

#[test]
fn a_table_of_ten_blocks(rt: HostRuntime) {
    let alloc = rt.alloc();
    let (entries, owned) = entries_of(&rt, alloc);
    for blocks in [1, 2, 64] {
        let mut files = files_of(&rt, alloc, &owned, blocks);
        walk_through(&rt, alloc, &mut files, &entries, &owned);
    }
}

/// Whether the first entry is refused for the disk, and the step after it for that.
fn is_refused(cursor: &mut TableCursor<MemDisk>, files: &mut CachedDisk<MemDisk>) -> bool {
    match cursor.first(files) {
        Err(CursorError::Disk) => cursor.next(files) == Err(CursorError::Failed),
        _ => false,
    }
}

// The cursor refuses to move while the disk fails, and then goes on.
#[test]
fn a_disk_that_fails(rt: HostRuntime) {
    let alloc = rt.alloc();
    let (entries, owned) = entries_of(&rt, alloc);
    let mut files = files_of(&rt, alloc, &owned, 64);
    let mut cursor = cursor_in(&rt, alloc, &mut files, FILE);
    files.arm(&Fault::Fail(1));
    is_so(&rt, is_refused(&mut cursor, &mut files), "a failure");
    is_so(&rt, !cursor.valid(), "no entry");
    files.arm(&Fault::None);
    let count = agreeing(&rt, &mut cursor, &mut files, &entries, NUMBERS);
    is_count(&rt, count, 2_000);
}
