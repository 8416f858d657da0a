// The outcomes of a crash, and the refusals of a disk.
use crate::acts::{Act, Choice, FILE, REMOVE, SYNC, arm, crash, is_content, refusal_of, run};
use crate::cases::{Case, all_hold, holds_at, is_so};
use disk::{Disk, DiskError, Fault, MemDisk};
use std::alloc::Global;
use std::process::Abort;

pub const ABC: Act = Act::Write(FILE, 0, b"abc");

const DE: Act = Act::Write(FILE, 0, b"de");

// Whether this is the file's content after a crash.
fn leaves(
    rt: &impl Abort,
    alloc: Global,
    disk: &mut MemDisk,
    choice: Choice,
    file: u64,
    want: Option<&[u8]>,
) -> bool {
    crash(rt, alloc, disk, choice);
    is_content(rt, disk, file, want)
}

// Whether this is the content after these acts, a crash, and more crashes, which find every place
// synced.
fn leaves_after(
    rt: &impl Abort,
    alloc: Global,
    acts: &[Act],
    choice: Choice,
    want: Option<&[u8]>,
) -> bool {
    let mut disk = MemDisk::new(alloc);
    run(rt, &mut disk, acts);
    crash(rt, alloc, &mut disk, choice);
    crash(rt, alloc, &mut disk, Choice::Bytes(&[0x55]));
    let is_left = leaves(rt, alloc, &mut disk, Choice::Old, FILE, want);
    drop(disk);
    is_left
}

// The content after the acts and a crash by `Old`, by `New`, and with the junk 1, 2, 3.
struct Outcome(
    &'static [Act],
    Option<&'static [u8]>,
    Option<&'static [u8]>,
    Option<&'static [u8]>,
);

impl Case for Outcome {
    fn holds(&self, rt: &impl Abort, alloc: Global) -> bool {
        let Outcome(acts, old, new, junk) = *self;
        let is_old = leaves_after(rt, alloc, acts, Choice::Old, old);
        let is_new = leaves_after(rt, alloc, acts, Choice::New, new);
        let is_written = leaves_after(rt, alloc, acts, Choice::Bytes(&[]), new);
        let is_junk = leaves_after(rt, alloc, acts, Choice::Bytes(&[1, 2, 3]), junk);
        is_old && is_new && is_written && is_junk
    }
}

static OUTCOMES: [Outcome; 14] = [
    Outcome(&[], None, None, None),
    // Durable.
    Outcome(&[ABC, SYNC], Some(b"abc"), Some(b"abc"), Some(b"abc")),
    // Never synced: it may be absent, and all its places are unsynced.
    Outcome(&[ABC], None, Some(b"abc"), Some(&[1, 2, 3])),
    Outcome(
        &[ABC, Act::Write(FILE, 3, b"de")],
        None,
        Some(b"abcde"),
        Some(&[1, 2, 3, 1, 2]),
    ),
    // The places written are unsynced, and those past the synced end.
    Outcome(
        &[ABC, SYNC, Act::Write(FILE, 1, b"X")],
        Some(b"abc"),
        Some(b"aXc"),
        Some(&[b'a', 1, b'c']),
    ),
    Outcome(
        &[ABC, SYNC, Act::Write(FILE, 3, b"de")],
        Some(b"abc"),
        Some(b"abcde"),
        Some(&[b'a', b'b', b'c', 1, 2]),
    ),
    Outcome(
        &[
            Act::Write(FILE, 0, b"abcd"),
            SYNC,
            Act::Write(FILE, 0, b"X"),
            Act::Write(FILE, 2, b"YZW"),
        ],
        Some(b"abcd"),
        Some(b"XbYZW"),
        Some(&[1, b'b', 2, 3, 1]),
    ),
    // The places past a cut are unsynced.
    Outcome(
        &[ABC, SYNC, Act::Cut(FILE, 1)],
        Some(b"abc"),
        Some(b"a"),
        Some(b"a"),
    ),
    Outcome(
        &[ABC, SYNC, Act::Cut(FILE, 1), Act::Write(FILE, 1, b"xyz")],
        Some(b"abc"),
        Some(b"axyz"),
        Some(&[b'a', 1, 2, 3]),
    ),
    Outcome(
        &[ABC, SYNC, Act::Cut(FILE, 1), SYNC],
        Some(b"a"),
        Some(b"a"),
        Some(b"a"),
    ),
    // A removed file may reappear with its synced content.
    Outcome(
        &[ABC, SYNC, Act::Write(FILE, 0, b"X"), REMOVE],
        Some(b"abc"),
        None,
        None,
    ),
    Outcome(&[ABC, REMOVE], None, None, None),
    // A removed file's number is used again.
    Outcome(
        &[ABC, SYNC, REMOVE, DE],
        Some(b"abc"),
        Some(b"de"),
        Some(&[1, 2]),
    ),
    Outcome(
        &[ABC, SYNC, REMOVE, DE, SYNC],
        Some(b"de"),
        Some(b"de"),
        Some(b"de"),
    ),
];

#[test]
fn outcomes_of_a_crash(rt: HostRuntime) {
    all_hold(&rt, rt.alloc(), &OUTCOMES);
}

// Files 2 and 9 were never synced, and file 5 was.
const THREE_FILES: &[Act] = &[
    Act::Write(9, 0, b"nine!"),
    Act::Write(2, 0, b"two"),
    Act::Write(5, 0, b"five"),
    Act::Sync(5),
];

fn three_files(rt: &impl Abort, alloc: Global) -> MemDisk {
    let mut disk = MemDisk::new(alloc);
    run(rt, &mut disk, THREE_FILES);
    disk
}

// Whether the disk has these files.
fn has_files(rt: &impl Abort, disk: &mut MemDisk, want: &[u64]) -> bool {
    disk.files().expect(rt, "the files").as_slice() == want
}

// A file, and its content after a crash with the junk 6, 7.
struct Begun(u64, &'static [u8]);

impl Case for Begun {
    fn holds(&self, rt: &impl Abort, alloc: Global) -> bool {
        let mut disk = three_files(rt, alloc);
        let junk = Choice::Bytes(&[6, 7]);
        let is_left = leaves(rt, alloc, &mut disk, junk, self.0, Some(self.1));
        drop(disk);
        is_left
    }
}

static BEGUN: [Begun; 3] = [
    Begun(2, &[6, 7, 6]),
    Begun(5, b"five"),
    Begun(9, &[6, 7, 6, 7, 6]),
];

#[test]
fn each_file_begins_with_the_first_junk(rt: HostRuntime) {
    all_hold(&rt, rt.alloc(), &BEGUN);
}

// Whether these are the files as they are made, once the synced one is removed, and after a crash.
fn returns_after(rt: &impl Abort, alloc: Global, disk: &mut MemDisk) -> bool {
    let is_made = has_files(rt, disk, &[2, 5, 9]);
    run(rt, disk, &[Act::Remove(5)]);
    let is_removed = has_files(rt, disk, &[2, 9]);
    arm(disk, Fault::None);
    crash(rt, alloc, disk, Choice::Old);
    has_files(rt, disk, &[5]) && is_made && is_removed
}

#[test]
fn old_leaves_what_was_synced(rt: HostRuntime) {
    let mut disk = three_files(&rt, rt.alloc());
    let returns = returns_after(&rt, rt.alloc(), &mut disk);
    is_so(&rt, returns, "other files");
}

// Whether a file of a disk is as it was written, and that of its clone, which stopped, as it was
// synced.
fn leaves_both(rt: &impl Abort, alloc: Global, disk: &mut MemDisk) -> bool {
    run(rt, disk, &[Act::Write(5, 1, b"XYZW")]);
    let mut copy = disk.clone().expect(rt, "memory");
    let is_written = leaves(rt, alloc, disk, Choice::New, 5, Some(b"fXYZW"));
    let is_synced = leaves(rt, alloc, &mut copy, Choice::Old, 5, Some(b"five"));
    drop(copy);
    is_written && is_synced
}

#[test]
fn a_clone_goes_its_own_way(rt: HostRuntime) {
    let mut disk = three_files(&rt, rt.alloc());
    let leaves_both = leaves_both(&rt, rt.alloc(), &mut disk);
    is_so(&rt, leaves_both, "another content");
}

const MISSING: Option<DiskError> = Some(DiskError::NoFile);

const SHORT: Option<DiskError> = Some(DiskError::Short);

const FAILED: Option<DiskError> = Some(DiskError::Failed);

// Calls, one after another, and the refusal of each.
static CALLS: [(Act, Option<DiskError>); 20] = [
    (Act::Length(1), MISSING),
    (Act::Length(5), None),
    (Act::Read(1, 0, 0), MISSING),
    (Act::Read(5, 4, 0), None),
    (Act::Read(5, 3, 2), SHORT),
    (Act::Read(5, 5, 0), SHORT),
    (Act::Write(1, 1, b"!"), MISSING),
    (Act::Write(5, 5, b"!"), SHORT),
    (Act::Write(5, 4, b"!"), None),
    (Act::Write(5, (1 << 63) - 2, b"!"), SHORT),
    (Act::Write(5, (1 << 63) - 1, b"!"), FAILED),
    (Act::Write(1, u64::MAX, b"!"), FAILED),
    (Act::Cut(1, 0), MISSING),
    (Act::Cut(5, 6), SHORT),
    (Act::Cut(5, 5), None),
    (Act::Sync(1), MISSING),
    (Act::Remove(1), MISSING),
    (Act::Remove(5), None),
    (Act::Remove(5), MISSING),
    (Act::Write(1, 0, b"!"), None),
];

// Makes the calls, each after those before it. The failure names the first with another refusal.
fn all_are_refused(rt: &impl Abort, disk: &mut MemDisk) {
    for (index, (call, want)) in CALLS.iter().enumerate() {
        holds_at(rt, index, refusal_of(disk, *call) == *want);
    }
}

#[test]
fn refusals(rt: HostRuntime) {
    let mut disk = three_files(&rt, rt.alloc());
    all_are_refused(&rt, &mut disk);
    is_so(&rt, has_files(&rt, &mut disk, &[1, 2, 9]), "other files");
}
