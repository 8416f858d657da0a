// What an opening of a store that stands alone creates, opens and refuses.
use crate::cases::{done, is_so};
use crate::courses::{agrees, arm, fill, junk_at, limits, opened};
use crate::items::config_of;
use configurations::NodeId;
use disk::{Crash, Disk, MemDisk};
use embedded_store::{EmbeddedStore, EngineError, OpenError};
use engine::Engine;
use kv_types::Number;
use std::alloc::Global;
use std::process::Abort;

// A store on the disk that a stopped creation left has no batches, and takes some.
fn is_made_again(rt: &impl Abort, alloc: Global, disk: MemDisk) {
    let mut store = opened(rt, alloc, disk);
    is_so(rt, store.count() == Number::ZERO, "no batches");
    fill(rt, alloc, &mut store, 1, 3);
    is_so(rt, agrees(rt, alloc, &mut store, &None, 3), "its map");
    store.close();
}

// Whether a creation stops in this call. Then it is made again.
fn stops_at(rt: &impl Abort, alloc: Global, call: u64, place: u64) -> bool {
    let mut disk = MemDisk::new(alloc);
    arm(&mut disk, call);
    match EmbeddedStore::over(alloc, disk, &limits(rt)) {
        Ok(store) => {
            store.close();
            false
        }
        Err((error, mut disk)) => {
            let failed = error == OpenError::Store(EngineError::Disk);
            is_so(rt, failed, "the device");
            disk.crash(junk_at(rt, alloc, place));
            is_made_again(rt, alloc, disk);
            true
        }
    }
}

// How many calls of a creation stop it.
fn stops(rt: &impl Abort, alloc: Global, place: u64) -> u64 {
    for call in 1..50u64 {
        if !stops_at(rt, alloc, call, place) {
            return call.saturating_sub(1);
        }
    }
    0
}

// A crash may leave any bytes of a file that was never synced. Ones would open the gate of a slot.
#[test]
fn a_creation_that_stops_is_made_again(rt: HostRuntime) {
    let (rt, alloc) = (&rt, rt.alloc());
    for place in 0..3u64 {
        is_so(rt, stops(rt, alloc, place) > 7, "the calls of a creation");
    }
}

// Whether the disk has these files, and no others.
fn has_files(disk: &mut MemDisk, files: &[u64]) -> bool {
    match disk.files() {
        Ok(found) => found.as_slice() == files,
        Err(_) => false,
    }
}

// Whether an opening answers this error, and leaves these files, or a store where there is none.
fn answers(
    rt: &impl Abort,
    alloc: Global,
    disk: MemDisk,
    files: &[u64],
    want: Option<OpenError>,
) -> bool {
    match EmbeddedStore::over(alloc, disk, &limits(rt)) {
        Ok(store) => {
            store.close();
            want.is_none()
        }
        Err((error, mut disk)) => {
            let is_left = has_files(&mut disk, files);
            drop(disk);
            is_left && want == Some(error)
        }
    }
}

fn disk_with(rt: &impl Abort, alloc: Global, file: u64, bytes: &[u8]) -> MemDisk {
    let mut disk = MemDisk::new(alloc);
    let is_put = disk.write_at(file, 0, bytes).is_ok();
    is_so(rt, is_put, "a write");
    disk
}

// The disk of a node of a chain of two.
fn node_disk(rt: &impl Abort, alloc: Global) -> MemDisk {
    let config = config_of(rt, alloc, &[1, 2]);
    let id = NodeId::new(1).expect(rt, "an id");
    let made = Engine::create(alloc, MemDisk::new(alloc), id, &config, &limits(rt));
    drop(config);
    done(rt, made).into_disk()
}

// The disk of a store whose first log is gone.
fn disk_without_log(rt: &impl Abort, alloc: Global) -> MemDisk {
    let mut disk = opened(rt, alloc, MemDisk::new(alloc)).into_disk();
    let is_gone = disk.remove(3).is_ok();
    is_so(rt, is_gone, "a removal");
    disk
}

const NOT_CREATED: Option<OpenError> = Some(OpenError::Store(EngineError::NotCreated));

const DAMAGED: Option<OpenError> = Some(OpenError::Store(EngineError::Damaged));

#[test]
fn an_opening_creates_over_nothing_that_is_there(rt: HostRuntime) {
    let (rt, alloc) = (&rt, rt.alloc());
    let disk = disk_with(rt, alloc, 7, b"");
    let holds = answers(rt, alloc, disk, &[7], NOT_CREATED);
    is_so(rt, holds, "a fourth file");
    let disk = disk_with(rt, alloc, 3, b"\x01\x00");
    let holds = answers(rt, alloc, disk, &[3], NOT_CREATED);
    is_so(rt, holds, "a record");
    let disk = disk_with(rt, alloc, 3, b"\x01");
    let holds = answers(rt, alloc, disk, &[], None);
    is_so(rt, holds, "a log without one");
    let disk = node_disk(rt, alloc);
    let holds = answers(rt, alloc, disk, &[1, 2, 3], Some(OpenError::OfChain));
    is_so(rt, holds, "a node of a chain");
    let disk = disk_without_log(rt, alloc);
    let holds = answers(rt, alloc, disk, &[1, 2], DAMAGED);
    is_so(rt, holds, "a store without its log");
}

// A slot of the old format that counts, with a log without records: generation 1, node 1.
const OLD_SLOT: &[u8] = b"\x01\x00\x00\x00\x00\x00\x00\x00\x01\x00\x01\x00";

// The disk of a store of the old format, with a file that no opening knows.
fn old_disk(rt: &impl Abort, alloc: Global) -> MemDisk {
    let mut disk = disk_with(rt, alloc, 1, OLD_SLOT);
    disk.write_at(2, 0, b"\x00").expect(rt, "a write");
    disk.write_at(9, 0, b"\x07").expect(rt, "a write");
    disk
}

// Whether the file has these bytes, which are at most 12.
fn has_bytes(rt: &impl Abort, disk: &mut MemDisk, file: u64, want: &[u8]) -> bool {
    let mut bytes = [0; 12];
    let into = bytes.get_mut(..want.len()).expect(rt, "at most 12 bytes");
    disk.read(file, 0, into).expect(rt, "a read");
    *into == *want && disk.length(file) == Ok(want.len() as u64)
}

#[test]
fn a_store_of_the_old_format_is_left(rt: HostRuntime) {
    let (rt, alloc) = (&rt, rt.alloc());
    match EmbeddedStore::over(alloc, old_disk(rt, alloc), &limits(rt)) {
        Ok(store) => {
            store.close();
            is_so(rt, false, "a refusal");
        }
        Err((error, mut disk)) => {
            let old = error == OpenError::Store(EngineError::OldFormat);
            is_so(rt, old, "the old format");
            is_so(rt, has_bytes(rt, &mut disk, 1, OLD_SLOT), "its slot");
            is_so(rt, has_bytes(rt, &mut disk, 2, b"\x00"), "its other slot");
            is_so(rt, has_bytes(rt, &mut disk, 9, b"\x07"), "a file beside");
        }
    }
}
