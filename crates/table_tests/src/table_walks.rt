//! Walks through tables of many blocks, both ways.

use crate::cases::is_so;
use crate::counts::is_count;
use crate::entries::entry_of;
use crate::items::put;
use crate::moves::meet_all;
use crate::open_tables::{FILE, cursor_in, files_of};
use crate::tables::{found_of, many};
use disk::{Disk, MemDisk};
use merge_iter::OwnedEntry;
use sorted_table::CachedDisk;
use std::alloc::Global;
use std::process::Abort;

/// The files of the table of these entries, so many, through which it walks both ways.
fn walk(rt: &impl Abort, alloc: Global, entries: &[OwnedEntry], all: usize) -> CachedDisk<MemDisk> {
    let mut files = files_of(rt, alloc, entries, 2);
    let mut cursor = cursor_in(rt, alloc, &mut files, FILE);
    meet_all(rt, &mut cursor, &mut files, entries, all);
    files
}

#[test]
fn walks_through_many_blocks(rt: HostRuntime) {
    let entries = many(&rt, rt.alloc(), 10_000, 100);
    walk(&rt, rt.alloc(), &entries, 10_000);
}

// A table of more than 1,000 blocks.
#[test]
fn walks_through_a_thousand_blocks(rt: HostRuntime) {
    let entries = many(&rt, rt.alloc(), 25_000, 200);
    let mut files = walk(&rt, rt.alloc(), &entries, 25_000);
    let blocks = files.length(FILE).expect(&rt, "a file") / 4_600;
    is_so(&rt, blocks > 1_000, "a thousand blocks");
}

/// Entries with keys of 1,024 bytes and values of 16,384: the longest that a table may have.
fn longest(rt: &impl Abort, alloc: Global) -> Vec<OwnedEntry> {
    let mut entries = Vec::new(alloc);
    for i in 0..12u8 {
        let mut key = [b'k'; 1_024];
        key[1_023] = i;
        let entry = entry_of(rt, alloc, &key, 9, Some(&[i; 16_384]));
        put(rt, &mut entries, entry);
    }
    entries
}

#[test]
fn walks_through_the_longest_entries(rt: HostRuntime) {
    let entries = longest(&rt, rt.alloc());
    let mut files = walk(&rt, rt.alloc(), &entries, 12);
    is_count(&rt, found_of(&rt, rt.alloc(), &mut files, &entries), 12);
}
