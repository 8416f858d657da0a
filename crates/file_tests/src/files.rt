//! The files of a store, by its manifest.

use disk::{Disk, MemDisk};
use engine::Engine;
use manifest::Manifest;
use std::alloc::Global;
use std::mem::forget;
use std::process::Abort;

/// The next file of the manifest, if the disk has the files that it names and no others.
pub fn next_if_alone(rt: &impl Abort, alloc: Global, disk: &mut MemDisk) -> Option<u64> {
    let manifest = Manifest::open(alloc, disk).expect(rt, "a manifest");
    let version = manifest.state();
    let named = version.logs.len().saturating_add(version.tables.len());
    let next = version.next_file;
    // A drop would be proved here.
    forget(manifest);
    let files = disk.files().expect(rt, "the files").len();
    if files == named.saturating_add(2) {
        Some(next)
    } else {
        None
    }
}

/// The same of the store that was on the disk.
pub fn next_behind(rt: &impl Abort, alloc: Global, engine: Engine<MemDisk>) -> Option<u64> {
    let mut disk = engine.into_disk();
    next_if_alone(rt, alloc, &mut disk)
}
