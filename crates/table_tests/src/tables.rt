//! Tables in files: lookups, and the calls of the device that these make.

use crate::cases::{holds_at, is_so};
use crate::counts::is_count;
use crate::entries::{client_key, entry_at, entry_of, is_same_value};
use crate::items::{filled, mark_key_of, put};
use crate::open_tables::{FILE, files_of, table_in};
use byte_fields::{LentKey, Space};
use disk::{Crash, Fault, MemDisk};
use merge_iter::OwnedEntry;
use sorted_table::{CachedDisk, FoundVersion, Table};
use std::alloc::Global;
use std::process::Abort;

// ---- lookups

/// Whether this entry was found, or none.
fn is_found(found: &Option<FoundVersion>, want: Option<&OwnedEntry>) -> bool {
    match (found, want) {
        (Some(found), Some(want)) => {
            found.number == want.number
                && is_same_value(found.value.as_deref(), want.value.as_deref())
        }
        (None, None) => true,
        _ => false,
    }
}

/// Whether a lookup of the key finds this entry, or none.
fn finds(
    rt: &impl Abort,
    alloc: Global,
    table: &Table,
    files: &mut CachedDisk<MemDisk>,
    (key, at): (LentKey, u64),
    want: Option<&OwnedEntry>,
) -> bool {
    let found = table.get(alloc, files, key, at).expect(rt, "a lookup");
    is_found(&found, want)
}

/// The entries of a key of one byte, and of the longest key with three numbers.
fn few(rt: &impl Abort, alloc: Global) -> [OwnedEntry; 4] {
    let longest = [b'k'; 1_024];
    [
        entry_of(rt, alloc, b"@", 5, Some(b"")),
        entry_of(rt, alloc, &longest, 9, Some(b"new")),
        entry_of(rt, alloc, &longest, 6, None),
        entry_of(rt, alloc, &longest, 2, Some(b"old")),
    ]
}

/// A number at which a lookup is made, the place of the entry of whose key it is, and the place of
/// the entry that it finds.
type Lookup = (u64, usize, Option<usize>);

static LOOKUPS: [Lookup; 10] = [
    (5, 0, Some(0)),
    (4, 0, None),
    (u64::MAX, 0, Some(0)),
    (1, 1, None),
    (2, 1, Some(3)),
    (5, 1, Some(3)),
    (6, 1, Some(2)),
    (8, 1, Some(2)),
    (9, 1, Some(1)),
    (u64::MAX, 1, Some(1)),
];

/// Whether the lookup finds what it is to find.
fn finds_place(
    rt: &impl Abort,
    alloc: Global,
    table: &Table,
    files: &mut CachedDisk<MemDisk>,
    entries: &[OwnedEntry],
    (at, key, found): Lookup,
) -> bool {
    let Some(entry) = entries.get(key) else {
        return false;
    };
    let want = match found {
        Some(place) => entries.get(place),
        None => None,
    };
    finds(rt, alloc, table, files, (entry.key.lent(), at), want)
}

#[test]
fn lookups_at_each_number(rt: HostRuntime) {
    let alloc = rt.alloc();
    let entries = few(&rt, alloc);
    let mut files = files_of(&rt, alloc, &entries, 1);
    let table = table_in(&rt, alloc, &mut files, FILE);
    for (index, row) in LOOKUPS.iter().enumerate() {
        let is_so = finds_place(&rt, alloc, &table, &mut files, &entries, *row);
        holds_at(&rt, index, is_so);
    }
}

// ---- both spaces

/// Entries of rows and of marks, whose keys have the same bytes: eight that are client 7, and the
/// longest.
fn both(rt: &impl Abort, alloc: Global) -> [OwnedEntry; 4] {
    let longest = filled(rt, alloc, b'k', 1_024);
    let of_rows = [0, 0, 0, 0, 0, 0, 0, 7];
    let of_marks = client_key(rt, alloc, 7);
    [
        entry_of(rt, alloc, &of_rows, 5, Some(b"row")),
        entry_of(rt, alloc, &longest, 6, None),
        entry_at(rt, alloc, of_marks, 3, Some(b"mark")),
        entry_at(rt, alloc, mark_key_of(rt, longest), 4, Some(b"long")),
    ]
}

/// Whether a lookup of each of the keys finds its entry in the table of these, and none where it is
/// of no entry of them.
fn finds_own(rt: &impl Abort, alloc: Global, all: &[OwnedEntry], of: &[OwnedEntry]) -> bool {
    let mut files = files_of(rt, alloc, of, 1);
    let table = table_in(rt, alloc, &mut files, FILE);
    let mut found = 0usize;
    for entry in all {
        let asked = (entry.key.lent(), u64::MAX);
        let want = of.iter().find(|it| it.key == entry.key);
        found = found.wrapping_add(finds(rt, alloc, &table, &mut files, asked, want) as usize);
    }
    found == all.len()
}

// The first table has rows alone, the second marks alone.
#[test]
fn keys_of_the_same_bytes_in_both_spaces(rt: HostRuntime) {
    let all = both(&rt, rt.alloc());
    let (rows, marks) = all.split_at(2);
    is_so(&rt, finds_own(&rt, rt.alloc(), &all, &all), "both");
    is_so(&rt, finds_own(&rt, rt.alloc(), &all, rows), "rows");
    is_so(&rt, finds_own(&rt, rt.alloc(), &all, marks), "marks");
}

// ---- calls of the device

/// A disk with the table of those entries, and a cache of one block.
fn files_of_few(rt: &impl Abort, alloc: Global) -> CachedDisk<MemDisk> {
    files_of(rt, alloc, &few(rt, alloc), 1)
}

/// Whether a call of the device that comes so late is made by an opening.
fn opening_reaches(rt: &impl Abort, alloc: Global, call: u64) -> bool {
    let mut files = files_of_few(rt, alloc);
    files.arm(&Fault::Fail(call));
    let is_open = Table::open(alloc, &mut files, FILE).is_ok();
    is_so(rt, is_open != files.has_struck(), "it hides a failure");
    !is_open
}

fn answers(alloc: Global, table: &Table, files: &mut CachedDisk<MemDisk>) -> bool {
    table
        .get(alloc, files, LentKey::new(Space::Rows, b"@"), 5)
        .is_ok()
}

/// Whether such a call is made by two lookups of one key.
fn lookups_reach(rt: &impl Abort, alloc: Global, call: u64) -> bool {
    let mut files = files_of_few(rt, alloc);
    let table = table_in(rt, alloc, &mut files, FILE);
    files.arm(&Fault::Fail(call));
    let first = answers(alloc, &table, &mut files);
    let both = answers(alloc, &table, &mut files) && first;
    is_so(rt, both != files.has_struck(), "it hides a failure");
    !both
}

#[test]
fn an_opening_makes_three_calls_and_a_lookup_one(rt: HostRuntime) {
    let alloc = rt.alloc();
    is_so(&rt, opening_reaches(&rt, alloc, 3), "three calls");
    is_so(&rt, !opening_reaches(&rt, alloc, 4), "and no more");
    is_so(&rt, lookups_reach(&rt, alloc, 1), "one call");
    is_so(&rt, !lookups_reach(&rt, alloc, 2), "and no second");
}

// ---- many blocks

/// Entry `i` of many: two of each key, values of so many bytes, 200 at most, and some deletions.
fn one_of_many(rt: &impl Abort, alloc: Global, i: u16, len: usize) -> OwnedEntry {
    let mut key = [0u8; 16];
    let [high, low] = (i / 2).to_be_bytes();
    (key[6], key[7]) = (high, low);
    let value = [low; 200];
    let value = if i % 7 == 0 { None } else { value.get(..len) };
    entry_of(rt, alloc, &key, u64::from(u16::MAX - i), value)
}

/// So many entries, with values of so many bytes.
pub fn many(rt: &impl Abort, alloc: Global, count: u16, len: usize) -> Vec<OwnedEntry> {
    let mut entries = Vec::new(alloc);
    for i in 0..count {
        put(rt, &mut entries, one_of_many(rt, alloc, i, len));
    }
    entries
}

/// How many of the entries lookups find at their own numbers.
pub fn found_of(
    rt: &impl Abort,
    alloc: Global,
    files: &mut CachedDisk<MemDisk>,
    entries: &[OwnedEntry],
) -> usize {
    let table = table_in(rt, alloc, files, FILE);
    let mut count = 0usize;
    for entry in entries {
        let asked = (entry.key.lent(), entry.number);
        let is_found = finds(rt, alloc, &table, files, asked, Some(entry));
        count = count.wrapping_add(is_found as usize);
    }
    count
}

#[test]
fn lookups_in_many_blocks(rt: HostRuntime) {
    let alloc = rt.alloc();
    let entries = many(&rt, alloc, 10_000, 100);
    let found = found_of(&rt, alloc, &mut files_of(&rt, alloc, &entries, 8), &entries);
    is_count(&rt, found, 10_000);
}
