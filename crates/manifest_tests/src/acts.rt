//! Calls of a disk in memory as a table has them, faults, and what a crash leaves.

use crate::items::copy_of;
use disk::{Crash, Disk, Fault, Junk, JunkBytes, MemDisk};
use std::alloc::Global;
use std::process::Abort;

/// The choice among the outcomes of a crash.
#[derive(Clone, Copy)]
pub enum Choice {
    Old,
    New,
    Bytes(&'static [u8]),
}

/// What a crash leaves in unsynced places.
pub fn junk_of(rt: &impl Abort, alloc: Global, choice: Choice) -> Junk {
    match choice {
        Choice::Old => Junk::Old,
        Choice::New => Junk::New,
        Choice::Bytes(bytes) => Junk::Bytes(JunkBytes::new(copy_of(rt, alloc, bytes))),
    }
}

pub fn crash(rt: &impl Abort, alloc: Global, disk: &mut MemDisk, choice: Choice) {
    disk.crash(junk_of(rt, alloc, choice));
}

/// Arms the disk with a fault, without its contract.
pub fn arm(disk: &mut MemDisk, fault: Fault) {
    disk.arm(&fault);
    drop(fault);
}

/// Arms a disk with no fault, or lets it crash, so that it works again.
pub fn mend(rt: &impl Abort, alloc: Global, disk: &mut MemDisk, choice: Option<Choice>) {
    match choice {
        Some(choice) => crash(rt, alloc, disk, choice),
        None => arm(disk, Fault::None),
    }
}
