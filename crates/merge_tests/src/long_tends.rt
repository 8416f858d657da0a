// The device calls of the tends of a long merge.
use crate::cases::holds_at;
use crate::merge_courses::{Run, Step};
use crate::watched_disk::WatchedDisk;
use disk::MemDisk;
use kv_types::Limits;
use std::alloc::Global;
use std::process::Abort;

// So many times each of 16 keys is put, with values that fill a block each: 272 entries.
const ROUNDS: u16 = 17;

// Of 256 entries each may have a block of its own, which is read, and written again. An output
// needs its last block, the rest and a sync, and four calls to open it; an edit four, and one for
// each file given up.
const MOST: u64 = 2 * 256 + 2 * (3 + 4) + 4 + 1;

// The calls of a flush of 272 blocks, of the beginning of a merge, of 256 entries, behind 136 of
// which an output is complete, and of the last 16.
static CALLS: [u64; 4] = [284, 5, 514, 46];

// How many calls there are up to so many tends.
fn calls_before(rt: &impl Abort, alloc: Global, tends: usize) -> u64 {
    let limits = Limits::new(16, 0, 1 << 20, 1 << 40, 1_024);
    let limits = limits.ok().expect(rt, "limits");
    let disk = WatchedDisk::new(MemDisk::new(alloc));
    let mut run = Run::new(rt, alloc, disk, &limits);
    run.open(rt, alloc, 0);
    for round in 0..ROUNDS {
        run = run.behind(rt, alloc, &Step::Fill(0, 8, round), &limits);
        run = run.behind(rt, alloc, &Step::Fill(8, 8, round), &limits);
    }
    run.work(rt, alloc, tends);
    run.engine.into_disk().total
}

#[test]
fn the_calls_of_a_long_merge(rt: HostRuntime) {
    let mut before = calls_before(&rt, rt.alloc(), 0);
    for (index, want) in CALLS.iter().enumerate() {
        let behind = calls_before(&rt, rt.alloc(), index.saturating_add(1));
        holds_at(&rt, index, behind.saturating_sub(before) == *want);
        holds_at(&rt, index, *want <= MOST);
        before = behind;
    }
}
