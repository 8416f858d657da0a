//! A merge of a table of format 1, as a folder from before has it, with one of format 2.

use crate::cases::is_so;
use crate::counts::is_count;
use crate::items::{is_same, row_key_of};
use crate::lettered::{FIRST, LEN, Lines, entries_of};
use crate::merged_tables::found_number;
use crate::merges::{edit_of, open_in};
use crate::open_tables::{bytes_of, with_cache, write};
use disk::MemDisk;
use sorted_table::CachedDisk;
use std::alloc::Global;
use std::process::Abort;
use version_edits::StoreVersion;

/// The table of format 1 in which `1` was put at `a` by the batch with number 1.
const OLD: &[u8] = &[
    0, 0, 0, 1, 0, 1, 97, 0, 0, 0, 0, 0, 0, 0, 1, 1, 0, 1, 49, 176, 228, 216, 211, 250, 103, 200,
    7, 0, 0, 0, 8, 0, 12, 128, 1, 16, 0, 2, 64, 180, 15, 122, 118, 18, 42, 63, 81, 0, 0, 0, 1, 0,
    0, 0, 0, 0, 0, 0, 0, 0, 0, 0, 27, 0, 1, 97, 0, 0, 0, 0, 0, 0, 0, 1, 29, 191, 61, 191, 75, 60,
    111, 219, 0, 0, 0, 0, 0, 0, 0, 47, 0, 0, 0, 35, 0, 0, 0, 0, 0, 0, 0, 27, 0, 0, 0, 20, 0, 0, 0,
    0, 0, 0, 0, 1, 0, 0, 0, 1, 67, 82, 76, 83, 77, 84, 48, 49, 131, 236, 126, 53, 92, 27, 68, 168,
];

/// The table of format 2 in which the same was put.
const NEW: &[u8] = &[
    0, 0, 0, 1, 0, 0, 1, 97, 0, 0, 0, 0, 0, 0, 0, 1, 1, 0, 1, 49, 164, 242, 148, 39, 74, 251, 126,
    24, 0, 0, 0, 8, 66, 0, 0, 33, 0, 132, 16, 0, 4, 199, 123, 171, 144, 83, 63, 107, 0, 0, 0, 1, 0,
    0, 0, 0, 0, 0, 0, 0, 0, 0, 0, 28, 0, 0, 1, 97, 0, 0, 0, 0, 0, 0, 0, 1, 125, 50, 35, 120, 194,
    158, 245, 103, 0, 0, 0, 0, 0, 0, 0, 48, 0, 0, 0, 36, 0, 0, 0, 0, 0, 0, 0, 28, 0, 0, 0, 20, 0,
    0, 0, 0, 0, 0, 0, 1, 0, 0, 0, 2, 67, 82, 76, 83, 77, 84, 48, 49, 84, 63, 200, 119, 222, 185,
    12, 36,
];

/// That table of format 1, beside one of format 2 in which `b` was deleted by the batch with number
/// 6: both stand in level 0.
fn both_formats(rt: &impl Abort, alloc: Global) -> (CachedDisk<MemDisk>, Lines) {
    let (mut disk, mut lines) = (MemDisk::new(alloc), Lines::new(alloc));
    let key = row_key_of(rt, alloc, b"a");
    write(rt, &mut disk, 4, 0, OLD);
    lines.put(rt, (0, 4), OLD.len() as u64, (&key, &key));
    let entries = entries_of(rt, alloc, b"b6-", LEN);
    lines.add(rt, alloc, &mut disk, (0, 5), &entries);
    (with_cache(rt, alloc, disk, 4), lines)
}

/// Whether a lookup in the open tables finds the entry at `a` in the one, and that at `b` in the
/// other.
fn both_are_found(
    rt: &impl Abort,
    alloc: Global,
    files: &mut CachedDisk<MemDisk>,
    version: &StoreVersion,
) -> bool {
    let tables = open_in(rt, alloc, files, version);
    let (old, new) = (row_key_of(rt, alloc, b"a"), row_key_of(rt, alloc, b"b"));
    let is_old = found_number(rt, alloc, &tables, files, (&old, 9)) == Some(1);
    let is_new = found_number(rt, alloc, &tables, files, (&new, 9)) == Some(6);
    is_old && is_new
}

// At the floor 9 nothing is left of the deletion: the merge writes the table of format 2 with the
// entry of that of format 1.
#[test]
fn a_merge_of_both_formats(rt: HostRuntime) {
    let alloc = rt.alloc();
    let (mut files, lines) = both_formats(&rt, alloc);
    let version = lines.version(&rt, alloc, 16, 9);
    is_so(
        &rt,
        both_are_found(&rt, alloc, &mut files, &version),
        "both",
    );
    let edit = edit_of(&rt, alloc, &mut files, &version, 4_096);
    is_count(&rt, edit.tables_gone.len(), 2);
    is_count(&rt, edit.tables_added.len(), 1);
    let bytes = bytes_of(&rt, alloc, &mut files, FIRST);
    is_so(&rt, is_same(&bytes, NEW), "its bytes");
}
