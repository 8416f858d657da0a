//! Calls of a disk in memory as a table has them, faults, and what a crash leaves.

use crate::cases::is_so;
use crate::items::{copy_of, is_same};
use disk::{Crash, Disk, DiskError, Fault, Junk, JunkBytes, MemDisk};
use std::alloc::Global;
use std::process::Abort;

/// A call of a disk.
#[derive(Clone, Copy)]
pub enum Act {
    Files,
    Length(u64),
    // The bytes are so many from a place on.
    Read(u64, u64, usize),
    Write(u64, u64, &'static [u8]),
    Cut(u64, u64),
    Sync(u64),
    Remove(u64),
}

pub const FILE: u64 = 7;

pub const SYNC: Act = Act::Sync(FILE);

pub const REMOVE: Act = Act::Remove(FILE);

fn perform(disk: &mut MemDisk, act: Act) -> Result<(), DiskError> {
    match act {
        Act::Files => disk.files().and(Ok(())),
        Act::Length(file) => disk.length(file).and(Ok(())),
        Act::Read(file, at, len) => disk.read(file, at, &mut [0; 8][..len.min(8)]),
        Act::Write(file, at, bytes) => disk.write_at(file, at, bytes),
        Act::Cut(file, len) => disk.cut(file, len),
        Act::Sync(file) => disk.sync(file),
        Act::Remove(file) => disk.remove(file),
    }
}

/// The refusal of a call. One that wants memory changes nothing and is not counted, so it is made
/// again.
pub fn refusal_of(disk: &mut MemDisk, act: Act) -> Option<DiskError> {
    match perform(disk, act) {
        Err(DiskError::Memory) => perform(disk, act).err(),
        answer => answer.err(),
    }
}

/// Makes the calls, and ends the test where one is refused.
pub fn run(rt: &impl Abort, disk: &mut MemDisk, acts: &[Act]) {
    for act in acts {
        is_so(rt, refusal_of(disk, *act).is_none(), "a call is refused");
    }
}

// Whether these bytes stand in the file, which has so many.
fn has_bytes(rt: &impl Abort, disk: &mut MemDisk, file: u64, want: &[u8]) -> bool {
    let mut bytes = [0; 64];
    let into = bytes.get_mut(..want.len()).expect(rt, "at most 64 bytes");
    disk.read(file, 0, into).expect(rt, "a read");
    is_same(into, want)
}

/// Whether this is the file's content, of at most 64 bytes, or there is no such file.
pub fn is_content(rt: &impl Abort, disk: &mut MemDisk, file: u64, want: Option<&[u8]>) -> bool {
    match want {
        Some(want) => {
            let is_length = disk.length(file) == Ok(want.len() as u64);
            is_length && has_bytes(rt, disk, file, want)
        }
        None => disk.length(file) == Err(DiskError::NoFile),
    }
}

/// The choice among the outcomes of a crash.
#[derive(Clone, Copy)]
pub enum Choice {
    Old,
    New,
    Bytes(&'static [u8]),
}

pub fn crash(rt: &impl Abort, alloc: Global, disk: &mut MemDisk, choice: Choice) {
    disk.crash(match choice {
        Choice::Old => Junk::Old,
        Choice::New => Junk::New,
        Choice::Bytes(bytes) => Junk::Bytes(JunkBytes::new(copy_of(rt, alloc, bytes))),
    });
}

/// Arms the disk with a fault, without its contract.
pub fn arm(disk: &mut MemDisk, fault: Fault) {
    disk.arm(&fault);
    drop(fault);
}

/// Arms a disk with no fault, or lets it crash, so that it works again.
pub fn mend(rt: &impl Abort, alloc: Global, disk: &mut MemDisk, choice: Option<Choice>) {
    match choice {
        Some(choice) => crash(rt, alloc, disk, choice),
        None => arm(disk, Fault::None),
    }
}
