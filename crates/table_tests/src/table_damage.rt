//! Walks over a table with a damaged block: alone, beside a sound table, and as the view at a
//! number shows it.

use crate::cases::is_so;
use crate::entries::entry_of;
use crate::items::put;
use crate::moves::{apply, is_at_key};
use crate::one_put::{BLOCK, FILTER, FOOTER, index_with, joined};
use crate::open_tables::{FILE, build, cursor_in, table_in, with_cache, write};
use crate::plain::Move;
use byte_fields::{LentKey, Space};
use disk::MemDisk;
use merge_iter::{AtNumber, Cursor, CursorError, Direction, Merged, OwnedEntry, step};
use sorted_table::{CachedDisk, FileError, TableCursor};
use std::alloc::Global;
use std::process::Abort;

/// The file of the sound table.
pub const SOUND: u64 = 4;

/// An entry for each key of one byte, long enough for a block of its own. The key that is named has
/// number 2, and the others 1.
fn entries_of(rt: &impl Abort, alloc: Global, keys: &[u8], newer: u8) -> Vec<OwnedEntry> {
    let mut entries = Vec::new(alloc);
    for key in keys {
        let number = if *key == newer { 2 } else { 1 };
        let entry = entry_of(rt, alloc, &[*key], number, Some(&[7; 5_000]));
        put(rt, &mut entries, entry);
    }
    entries
}

/// A disk with a table of these keys, of which the one that is named has number 2, and with another
/// byte at a place of its file; and a sound table of the keys between.
fn files_damaged_at(rt: &impl Abort, alloc: Global, newer: u8, at: u64) -> CachedDisk<MemDisk> {
    let mut disk = MemDisk::new(alloc);
    let odd = entries_of(rt, alloc, b"13579", newer);
    build(rt, alloc, &mut disk, FILE, &odd);
    let even = entries_of(rt, alloc, b"2468", newer);
    build(rt, alloc, &mut disk, SOUND, &even);
    write(rt, &mut disk, FILE, at, b"8");
    with_cache(rt, alloc, disk, 64)
}

/// The same at number 1, where the third block of five, that of the key 5, is damaged.
pub fn damaged_files(rt: &impl Abort, alloc: Global) -> CachedDisk<MemDisk> {
    files_damaged_at(rt, alloc, b'0', 12_500)
}

/// The union of both tables.
fn union_in(
    rt: &impl Abort,
    alloc: Global,
    files: &mut CachedDisk<MemDisk>,
) -> Merged<TableCursor<MemDisk>> {
    let mut both = Vec::new(alloc);
    for file in [FILE, SOUND] {
        put(rt, &mut both, cursor_in(rt, alloc, files, file));
    }
    Merged::new(both)
}

/// The first table as the view at a number shows it.
fn view_in(
    rt: &impl Abort,
    alloc: Global,
    files: &mut CachedDisk<MemDisk>,
    at: u64,
) -> AtNumber<TableCursor<MemDisk>> {
    AtNumber::new(alloc, cursor_in(rt, alloc, files, FILE), at)
}

/// Whether a step is refused for damage, and one behind it is refused for that.
fn steps_into_damage<C: Cursor>(cursor: &mut C, source: &mut C::Source, way: Direction) -> bool {
    if !cursor.valid() {
        return false;
    }
    match step(cursor, way, source) {
        Err(CursorError::Damaged) => cursor.next(source) == Err(CursorError::Failed),
        _ => false,
    }
}

/// Whether a walk meets just these keys, and is refused for damage behind the last.
fn is_stopped_behind<C: Cursor>(
    cursor: &mut C,
    source: &mut C::Source,
    (start, next, way): (Move, Move, Direction),
    keys: &[u8],
) -> bool {
    let Some((last, front)) = keys.split_last() else {
        return false;
    };
    let mut is_so = apply(cursor, source, start).is_ok();
    for key in front {
        is_so &= is_at_key(cursor, &[*key]);
        is_so &= apply(cursor, source, next).is_ok();
    }
    is_so && is_at_key(cursor, &[*last]) && steps_into_damage(cursor, source, way)
}

/// The outcome of a seek of this key at number 1.
fn seek<C: Cursor>(cursor: &mut C, source: &mut C::Source, key: &[u8]) -> Result<(), CursorError> {
    cursor.seek(source, LentKey::new(Space::Rows, key), 1)
}

/// Fails the test unless walks forward and back meet just these keys before the damage, and a seek
/// of the key before it is refused, and one of the key behind it is not.
pub fn is_stopped<C: Cursor>(
    rt: &impl Abort,
    cursor: &mut C,
    source: &mut C::Source,
    (forward, back): (&[u8], &[u8]),
) {
    let way = (Move::First, Move::Next, Direction::Forward);
    is_so(
        rt,
        is_stopped_behind(cursor, source, way, forward),
        "forward",
    );
    let way = (Move::Last, Move::Prev, Direction::Backward);
    is_so(rt, is_stopped_behind(cursor, source, way, back), "back");
    is_so(rt, seek(cursor, source, b"4x") == DAMAGED, "a seek");
    let goes_on = seek(cursor, source, b"7").is_ok();
    is_so(rt, goes_on && is_at_key(cursor, b"7"), "a seek behind it");
}

#[test]
fn a_damaged_block_stops_a_table_walk(rt: HostRuntime) {
    let mut files = damaged_files(&rt, rt.alloc());
    let mut alone = cursor_in(&rt, rt.alloc(), &mut files, FILE);
    is_stopped(&rt, &mut alone, &mut files, (b"13", b"97"));
}

#[test]
fn a_damaged_block_stops_a_union(rt: HostRuntime) {
    let mut files = damaged_files(&rt, rt.alloc());
    let mut union = union_in(&rt, rt.alloc(), &mut files);
    is_stopped(&rt, &mut union, &mut files, (b"123", b"987"));
}

// A walk back in a view is one entry ahead, to know which entry of a key is shown.
#[test]
fn a_damaged_block_stops_a_view(rt: HostRuntime) {
    let mut files = damaged_files(&rt, rt.alloc());
    let mut view = view_in(&rt, rt.alloc(), &mut files, 1);
    is_stopped(&rt, &mut view, &mut files, (b"13", b"9"));
}

// ---- damage where a walk begins, turns or looks ahead

const DAMAGED: Result<(), CursorError> = Err(CursorError::Damaged);

/// Fails the test unless the move is refused for damage, and the cursor stands on no entry.
fn is_refused<C: Cursor>(
    rt: &impl Abort,
    cursor: &mut C,
    source: &mut C::Source,
    step: Move,
    what: &str,
) {
    let is_damaged = apply(cursor, source, step) == DAMAGED;
    is_so(rt, is_damaged && !cursor.valid(), what);
}

/// Files whose first block of five is damaged, and files whose last one is.
fn damaged_at_ends(rt: &impl Abort, alloc: Global) -> (CachedDisk<MemDisk>, CachedDisk<MemDisk>) {
    let first = files_damaged_at(rt, alloc, b'0', 2_500);
    (first, files_damaged_at(rt, alloc, b'0', 22_500))
}

#[test]
fn damage_at_the_ends_of_a_table(rt: HostRuntime) {
    let (mut first, mut last) = damaged_at_ends(&rt, rt.alloc());
    let mut alone = cursor_in(&rt, rt.alloc(), &mut first, FILE);
    is_refused(&rt, &mut alone, &mut first, Move::First, "first");
    is_refused(&rt, &mut alone, &mut last, Move::Last, "last");
}

#[test]
fn damage_at_the_ends_of_a_union(rt: HostRuntime) {
    let (mut first, mut last) = damaged_at_ends(&rt, rt.alloc());
    let mut union = union_in(&rt, rt.alloc(), &mut first);
    is_refused(&rt, &mut union, &mut first, Move::First, "first");
    is_refused(&rt, &mut union, &mut last, Move::Last, "last");
}

#[test]
fn damage_at_the_ends_of_a_view(rt: HostRuntime) {
    let (mut first, mut last) = damaged_at_ends(&rt, rt.alloc());
    let mut view = view_in(&rt, rt.alloc(), &mut first, 1);
    is_refused(&rt, &mut view, &mut first, Move::First, "first");
    is_refused(&rt, &mut view, &mut last, Move::Last, "last");
}

// The union stands on 6, and the table's cursor on 7, behind the damaged block.
#[test]
fn a_union_that_turns_at_damage(rt: HostRuntime) {
    let mut files = damaged_files(&rt, rt.alloc());
    let mut union = union_in(&rt, rt.alloc(), &mut files);
    let is_moved = seek(&mut union, &mut files, b"6").is_ok();
    is_so(&rt, is_moved && is_at_key(&union, b"6"), "on 6");
    is_refused(&rt, &mut union, &mut files, Move::Prev, "a turn");
}

// The entry of 3 is too new, and the block behind it is damaged.
#[test]
fn a_view_that_passes_an_entry_before_damage(rt: HostRuntime) {
    let mut files = files_damaged_at(&rt, rt.alloc(), b'3', 12_500);
    let mut view = view_in(&rt, rt.alloc(), &mut files, 1);
    let is_moved = apply(&mut view, &mut files, Move::First).is_ok();
    is_so(&rt, is_moved && is_at_key(&view, b"1"), "on 1");
    is_refused(&rt, &mut view, &mut files, Move::Next, "a step");
}

// The view at 2 shows 3 at number 2, and is asked for 3 from number 1 on.
#[test]
fn a_view_that_seeks_behind_an_entry_before_damage(rt: HostRuntime) {
    let mut files = files_damaged_at(&rt, rt.alloc(), b'3', 12_500);
    let mut view = view_in(&rt, rt.alloc(), &mut files, 2);
    let is_damaged = seek(&mut view, &mut files, b"3") == DAMAGED;
    is_so(&rt, is_damaged && !view.valid(), "a seek");
}

// The block of the entry that a walk back has kept is damaged afterwards.
#[test]
fn a_view_that_returns_to_damage(rt: HostRuntime) {
    let mut files = files_damaged_at(&rt, rt.alloc(), b'0', 2_500);
    let mut view = view_in(&rt, rt.alloc(), &mut files, 1);
    let is_moved = apply(&mut view, &mut files, Move::Last).is_ok();
    is_so(&rt, is_moved && is_at_key(&view, b"9"), "on 9");
    write(&rt, &mut files, FILE, 22_500, b"8");
    is_refused(&rt, &mut view, &mut files, Move::Next, "a step");
}

/// The table of one put, but for its index: the line says that the block ends with `b`.
fn ends_too_early(rt: &impl Abort, alloc: Global) -> CachedDisk<MemDisk> {
    let mut disk = MemDisk::new(alloc);
    let index = index_with(rt, alloc, b"b");
    let bytes = joined(rt, alloc, &[BLOCK, FILTER, &index, FOOTER]);
    write(rt, &mut disk, FILE, 0, &bytes);
    with_cache(rt, alloc, disk, 64)
}

// A block that fits its digest and not its line is a damaged one, for each move and for a lookup.
#[test]
fn a_block_that_ends_before_its_line_says(rt: HostRuntime) {
    let alloc = rt.alloc();
    let mut files = ends_too_early(&rt, alloc);
    let mut cursor = cursor_in(&rt, alloc, &mut files, FILE);
    let is_damaged = seek(&mut cursor, &mut files, b"b") == DAMAGED;
    is_so(&rt, is_damaged && !cursor.valid(), "a seek");
    is_refused(&rt, &mut cursor, &mut files, Move::First, "the first");
    let table = table_in(&rt, alloc, &mut files, FILE);
    let answer = table
        .get(alloc, &mut files, LentKey::new(Space::Rows, b"a"), 1)
        .err();
    is_so(&rt, answer == Some(FileError::Damaged), "a lookup");
}
