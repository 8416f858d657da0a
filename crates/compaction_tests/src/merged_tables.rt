//! The open tables of a store behind a merge: its outputs in the place of its inputs.

use crate::cases::is_so;
use crate::counts::is_count;
use crate::items::{number, put};
use crate::merges::{INPUTS, edit_of, open_in, tables_of};
use byte_fields::StoredKey;
use disk::MemDisk;
use sorted_table::CachedDisk;
use std::alloc::Global;
use std::process::Abort;
use store_tables::{LevelTables, OpenTable};
use version_edits::{StoreVersion, VersionEdit, is_fit};

/// The outputs of an edit, each opened by its line.
fn outputs_of(
    rt: &impl Abort,
    alloc: Global,
    files: &mut CachedDisk<MemDisk>,
    edit: &VersionEdit,
) -> Vec<OpenTable> {
    let mut outputs = Vec::new(alloc);
    for line in &edit.tables_added {
        let output = OpenTable::open(alloc, files, line).expect(rt, "an output");
        put(rt, &mut outputs, output);
    }
    outputs
}

/// The number of what a lookup finds, or none.
pub fn found_number(
    rt: &impl Abort,
    alloc: Global,
    tables: &LevelTables,
    files: &mut CachedDisk<MemDisk>,
    (key, at): (&StoredKey, u64),
) -> Option<u64> {
    match tables
        .get(alloc, files, key, number(at))
        .expect(rt, "a lookup")
    {
        Some(found) => Some(found.number),
        None => None,
    }
}

/// Whether the version may take the edit, and not with a floor below its own.
fn is_taken(
    rt: &impl Abort,
    alloc: Global,
    version: &StoreVersion,
    edit: &mut VersionEdit,
) -> bool {
    let is_first = is_fit(alloc, version, edit).expect(rt, "memory");
    let floor = edit.floor;
    edit.floor = floor.saturating_sub(1);
    let is_second = is_fit(alloc, version, edit).expect(rt, "memory");
    edit.floor = floor;
    is_first && !is_second
}

// At the floor 5 three outputs, from `a`, `c` and `e` on, stand in level 1 beside the table there
// that was no input.
#[test]
fn open_tables_behind_a_merge(rt: HostRuntime) {
    let alloc = rt.alloc();
    let (mut files, lines) = tables_of(&rt, alloc, &INPUTS, true);
    let version = lines.version(&rt, alloc, 16, 5);
    let mut tables = open_in(&rt, alloc, &mut files, &version);
    is_so(&rt, tables.counts() == [2, 2, 1, 0, 0, 0, 0], "tables");
    let mut edit = edit_of(&rt, alloc, &mut files, &version, 252);
    is_so(&rt, is_taken(&rt, alloc, &version, &mut edit), "it is fit");
    let outputs = outputs_of(&rt, alloc, &mut files, &edit);
    tables
        .replace(&edit.tables_gone, outputs)
        .expect(&rt, "memory");
    is_so(&rt, tables.counts() == [0, 4, 1, 0, 0, 0, 0], "outputs");
    for (line, want) in edit.tables_added.iter().zip([8, 9, 8]) {
        let newest = found_number(&rt, alloc, &tables, &mut files, (&line.least, 9));
        is_count(&rt, newest.unwrap_or_default() as usize, want);
    }
}
