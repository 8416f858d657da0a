//! Merges of two tables of level 0 and one of level 1, by steps: what their edits give up and add,
//! and what stands in the tables that they write.

use crate::cases::{holds_at, is_so};
use crate::counts::is_count;
use crate::items::is_same;
use crate::lettered::{FIRST, LEN, Lines, entries_of, letters_of};
use crate::open_tables::{with_cache, write};
use compaction::{Merge, MergeError, Plan, Turn, pick};
use disk::{Disk, MemDisk};
use kv_types::Limits;
use sorted_table::CachedDisk;
use std::alloc::Global;
use std::process::Abort;
use store_tables::LevelTables;
use version_edits::{MAX_LINES, StoreVersion, VersionEdit};

// ---- the tables

/// The entries of the tables in the files 4 and 5 of level 0, and 6 of level 1.
pub type Inputs = [&'static [u8]; 3];

pub static INPUTS: Inputs = [b"a5+a4-b5-c4-d6+", b"a8+b7+c9+e8-f7-", b"a1+b2+d1-e3+"];

/// The tables of these entries, beside one of level 1 that is no input, and a deeper one whose
/// range is from `b` to `e`, if there is to be one.
pub fn tables_of(
    rt: &impl Abort,
    alloc: Global,
    inputs: &Inputs,
    is_deep: bool,
) -> (CachedDisk<MemDisk>, Lines) {
    let (mut disk, mut lines) = (MemDisk::new(alloc), Lines::new(alloc));
    let [older, newer, deep] = *inputs;
    for (place, letters) in [
        ((0, 4), older),
        ((0, 5), newer),
        ((1, 6), deep),
        ((1, 7), b"m2+".as_slice()),
        ((2, 8), b"b1+e1+"),
    ] {
        if place.0 < 2 || is_deep {
            let entries = entries_of(rt, alloc, letters, LEN);
            lines.add(rt, alloc, &mut disk, place, &entries);
        }
    }
    (with_cache(rt, alloc, disk, 4), lines)
}

// ---- a merge

/// The plan that is due, where level 0 may have one table.
fn plan_of(rt: &impl Abort, alloc: Global, version: &StoreVersion) -> Plan {
    let limits = Limits::new(16, 1, 64, 64, 1).expect(rt, "limits");
    let turn = Turn::new(alloc).expect(rt, "memory");
    pick(version, &limits, &turn).expect(rt, "a plan")
}

/// The open tables of a version.
pub fn open_in(
    rt: &impl Abort,
    alloc: Global,
    files: &mut CachedDisk<MemDisk>,
    version: &StoreVersion,
) -> LevelTables {
    LevelTables::open(alloc, files, &version.tables).expect(rt, "open tables")
}

/// Begins the merge that is due.
fn begin(
    rt: &impl Abort,
    alloc: Global,
    files: &mut CachedDisk<MemDisk>,
    version: &StoreVersion,
    target: u64,
) -> Result<Merge<MemDisk>, MergeError> {
    let plan = plan_of(rt, alloc, version);
    assert!(rt; plan.level == 0 && target > 0);
    let cursors = open_in(rt, alloc, files, version)
        .merge_cursors(alloc, plan, &version.tables)
        .expect(rt, "memory");
    Merge::begin(alloc, files, version, plan, target, FIRST, cursors)
}

/// Merges all entries by steps.
fn step_all(
    rt: &impl Abort,
    alloc: Global,
    files: &mut CachedDisk<MemDisk>,
    merge: &mut Merge<MemDisk>,
    next_file: &mut u64,
) {
    let mut more = true;
    for count in [1, 3, 256, 1] {
        more = merge
            .step(alloc, files, count, 5, next_file)
            .expect(rt, "a step");
    }
    is_so(rt, !more, "entries are left");
}

/// The edit of the merge that is due.
pub fn edit_of(
    rt: &impl Abort,
    alloc: Global,
    files: &mut CachedDisk<MemDisk>,
    version: &StoreVersion,
    target: u64,
) -> VersionEdit {
    let mut merge = begin(rt, alloc, files, version, target).expect(rt, "a merge");
    let mut next_file = FIRST;
    step_all(rt, alloc, files, &mut merge, &mut next_file);
    merge
        .finish(alloc, files, version, next_file)
        .expect(rt, "an edit")
}

// ---- merges of all

/// A merge at a floor, with tables that are complete from so many bytes of data on, and with a
/// deeper table or without; and what its edit is to say.
type Row = (u8, u64, bool, &'static [u8]);

/// Whether the edit says what it is to say, and the next file is behind so many tables.
fn is_merged(rt: &impl Abort, alloc: Global, inputs: &Inputs, row: &Row) -> bool {
    let (floor, target, is_deep, want) = *row;
    let (mut files, lines) = tables_of(rt, alloc, inputs, is_deep);
    let version = lines.version(rt, alloc, 16, floor);
    let edit = edit_of(rt, alloc, &mut files, &version, target);
    let tables = edit.next_file.wrapping_sub(FIRST);
    is_same(&letters_of(rt, alloc, &mut files, &edit), want)
        && tables == edit.tables_added.len() as u64
        && edit.floor == u64::from(floor)
}

fn all_are_merged(rt: &impl Abort, alloc: Global, inputs: &Inputs, rows: &[Row]) {
    for (index, row) in rows.iter().enumerate() {
        holds_at(rt, index, is_merged(rt, alloc, inputs, row));
    }
}

/// What an edit says that keeps each entry.
const ALL: &[u8] = b"040516 0af:a8+a5+a4-a1+b7+b5-b2+c9+c4-d6+d1-e8-e3+f7-";

/// The rows of one table.
static FLOORS: [Row; 6] = [
    (0, 4_096, false, ALL),
    (0, 4_096, true, ALL),
    (5, 4_096, false, b"040516 0af:a8+a5+b7+c9+d6+e8-e3+f7-"),
    (
        5,
        4_096,
        true,
        b"040516 0af:a8+a5+b7+b5-c9+c4-d6+d1-e8-e3+f7-",
    ),
    (9, 4_096, false, b"040516 0ad:a8+b7+c9+d6+"),
    (9, 4_096, true, b"040516 0ae:a8+b7+c9+d6+e8-"),
];

const AT_255: &[u8] = b"040516 0aa:a8+a5+a4-a1+ 1bb:b7+b5-b2+ 2cd:c9+c4-d6+d1- 3ef:e8-e3+f7-";

const AT_256: &[u8] = b"040516 0aa:a8+a5+a4-a1+ 1bc:b7+b5-b2+c9+c4- 2de:d6+d1-e8-e3+ 3ff:f7-";

const AT_1: &[u8] =
    b"040516 0aa:a8+a5+a4-a1+ 1bb:b7+b5-b2+ 2cc:c9+c4- 3dd:d6+d1- 4ee:e8-e3+ 5ff:f7-";

/// A block has 12 bytes beside its entries, a deletion 13 and a put 115.
static CUTS: [Row; 4] = [
    (0, 255, false, AT_255),
    (0, 256, false, AT_256),
    (0, 1, false, AT_1),
    (9, 1, false, b"040516 0aa:a8+ 1bb:b7+ 2cc:c9+ 3dd:d6+"),
];

/// Inputs with marks of two clients. They are of the range from `a` to the client `N`, in which the
/// table of `m` is too.
static MARKED: Inputs = [b"a5+M4+", b"b8+M7+N6+", b"a1+b2+"];

/// Of each client the marks that a number from the floor on sees are kept, and always the last.
static MARKS: [Row; 4] = [
    (0, 4_096, false, b"04051617 0aN:a5+a1+b8+b2+m2+M7+M4+N6+"),
    (5, 4_096, false, b"04051617 0aN:a5+b8+b2+m2+M7+M4+N6+"),
    (9, 4_096, false, b"04051617 0aN:a5+b8+m2+M7+N6+"),
    (
        9,
        1,
        true,
        b"04051617 0aa:a5+ 1bb:b8+ 2mm:m2+ 3MM:M7+ 4NN:N6+",
    ),
];

/// Inputs of which nothing is left at 9.
static DELETED: Inputs = [b"a5-", b"b6-", b"a1+b2+"];

#[test]
fn merges_of_three_tables(rt: HostRuntime) {
    let alloc = rt.alloc();
    all_are_merged(&rt, alloc, &INPUTS, &FLOORS);
    all_are_merged(&rt, alloc, &INPUTS, &CUTS);
    all_are_merged(&rt, alloc, &MARKED, &MARKS);
    all_are_merged(&rt, alloc, &DELETED, &[(9, 1, false, b"040516")]);
}

// ---- merges without an end

/// Whether a step beside so many tables is refused with `Full`, and what is called behind it for
/// that.
fn is_full_at(
    alloc: Global,
    files: &mut CachedDisk<MemDisk>,
    merge: &mut Merge<MemDisk>,
    version: &StoreVersion,
    tables: usize,
    next_file: &mut u64,
) -> bool {
    let tables = tables.min(MAX_LINES);
    merge.step(alloc, files, 256, tables, next_file).err() == Some(MergeError::Full)
        && merge.step(alloc, files, 1, 0, next_file).err() == Some(MergeError::Failed)
        && merge.finish(alloc, files, version, *next_file).err() == Some(MergeError::Failed)
}

/// Fails the test where the disk has other files.
fn has_files(rt: &impl Abort, files: &mut CachedDisk<MemDisk>, want: &[u64]) {
    let found = files.files().expect(rt, "the files");
    is_so(rt, found.as_slice() == want, "other files");
}

#[test]
fn no_table_more(rt: HostRuntime) {
    let alloc = rt.alloc();
    let (mut files, lines) = tables_of(&rt, alloc, &INPUTS, false);
    let version = lines.version(&rt, alloc, 16, 0);
    let mut merge = begin(&rt, alloc, &mut files, &version, 1).expect(&rt, "a merge");
    let mut next = FIRST;
    let is_full = is_full_at(
        alloc, &mut files, &mut merge, &version, MAX_LINES, &mut next,
    );
    is_so(&rt, is_full && next == FIRST, "no file");
    has_files(&rt, &mut files, &[4, 5, 6, 7]);
}

/// Fails the test unless five entries of the merge fill the files 16 and 17.
fn write_two(
    rt: &impl Abort,
    alloc: Global,
    files: &mut CachedDisk<MemDisk>,
    merge: &mut Merge<MemDisk>,
    next: &mut u64,
) {
    let more = merge.step(alloc, files, 5, 4, next).expect(rt, "a step");
    is_so(
        rt,
        more && *next == 18 && merge.begun() == FIRST,
        "two files",
    );
}

// While the merge writes the files 16 and 17, another table is written in 18.
#[test]
fn an_abandoned_merge(rt: HostRuntime) {
    let alloc = rt.alloc();
    let (mut files, mut lines) = tables_of(&rt, alloc, &INPUTS, false);
    let version = lines.version(&rt, alloc, 16, 0);
    let mut merge = begin(&rt, alloc, &mut files, &version, 1).expect(&rt, "a merge");
    let mut next = FIRST;
    write_two(&rt, alloc, &mut files, &mut merge, &mut next);
    let entries = entries_of(&rt, alloc, b"g9+", LEN);
    lines.add(&rt, alloc, &mut files, (0, 18), &entries);
    next = 19;
    let tables = MAX_LINES - 2;
    let is_full = is_full_at(alloc, &mut files, &mut merge, &version, tables, &mut next);
    is_so(&rt, is_full && next == 19, "no file more");
    has_files(&rt, &mut files, &[4, 5, 6, 7, 16, 17, 18]);
    let version = lines.version(&rt, alloc, 19, 0);
    let answer = merge.abandon(&mut files, &version, next);
    is_so(&rt, answer.is_ok(), "leftovers");
    has_files(&rt, &mut files, &[4, 5, 6, 7, 18]);
}

// ---- damage

/// Two tables whose entries have a block each, with another byte at a place of the first.
fn damaged_at(rt: &impl Abort, alloc: Global, place: u64) -> (CachedDisk<MemDisk>, Lines) {
    let (mut disk, mut lines) = (MemDisk::new(alloc), Lines::new(alloc));
    let odd = entries_of(rt, alloc, b"11+31+51+71+91+", 5_000);
    lines.add(rt, alloc, &mut disk, (0, 4), &odd);
    let even = entries_of(rt, alloc, b"21+41+61+81+", 5_000);
    lines.add(rt, alloc, &mut disk, (0, 5), &even);
    write(rt, &mut disk, 4, place, b"8");
    (with_cache(rt, alloc, disk, 64), lines)
}

/// What is no number of a step.
const NONE: usize = 99;

/// The number of the step by one entry that is refused for damage, where one behind it is refused
/// for that.
fn step_refused(
    alloc: Global,
    files: &mut CachedDisk<MemDisk>,
    merge: &mut Merge<MemDisk>,
) -> usize {
    let mut next = FIRST;
    for number in 1..=9usize {
        if let Err(e) = merge.step(alloc, files, 1, 2, &mut next) {
            let later = merge.step(alloc, files, 1, 2, &mut next).err();
            let is_so = e == MergeError::Damaged && later == Some(MergeError::Failed);
            return if is_so { number } else { NONE };
        }
    }
    NONE
}

/// The same of a merge of those tables; 0 where the beginning is refused.
fn refused_step(rt: &impl Abort, alloc: Global, place: u64) -> usize {
    let (mut files, lines) = damaged_at(rt, alloc, place);
    let version = lines.version(rt, alloc, 16, 0);
    match begin(rt, alloc, &mut files, &version, 1) {
        Ok(mut merge) => step_refused(alloc, &mut files, &mut merge),
        Err(MergeError::Damaged) => 0,
        Err(_) => NONE,
    }
}

#[test]
fn damage_ends_a_merge(rt: HostRuntime) {
    let alloc = rt.alloc();
    for (place, want) in [
        (2_500, 0),
        (7_500, 1),
        (12_500, 3),
        (17_500, 5),
        (22_500, 7),
    ] {
        is_count(&rt, refused_step(&rt, alloc, place), want);
    }
}
