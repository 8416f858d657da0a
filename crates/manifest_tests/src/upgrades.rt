// Stores of format 1 that are taken over: the bytes of their slots, what is refused, and what is
// left where a call of the disk fails in an upgrade, or the machine stops in it.
use crate::acts::{Choice, arm, junk_of, mend};
use crate::cases::{holds_at, is_so};
use crate::items::{copy_of, is_same, key_of};
use crate::manifests::{SLOT, disk_of, has_bytes, put_file, slot_with};
use disk::{Crash, Disk, Fault, MemDisk};
use engine::{Engine, EngineError, Upgraded};
use kv_types::Limits;
use std::alloc::Global;
use std::process::Abort;

// The slot of node 1 in format 1: a head of generation 1 with the id, and the record of `SLOT`.
const OLD_SLOT: &[u8] = &[
    1, 0, 0, 0, 0, 0, 0, 0, 1, 0, 1, 1, 0, 0, 0, 55, //
    0, 0, 0, 0, 0, 0, 0, 4, 0, 0, 0, 0, 0, 0, 0, 0, 0, 0, 0, 0, 0, 0, 0, 0, 0, 0, 0, 0, 1, 0, 1, //
    0, 0, 0, 1, 0, 0, 0, 0, 0, 0, 0, 3, 0, 0, 0, 0, 0, 0, 0, 1, 0, 0, 0, 0, 0,
];

// The log of batch 1, which puts 1 to a.
const LOG: &[u8] = &[
    1, 0, 0, 0, 17, 0, 0, 0, 0, 0, 0, 0, 1, 0, 1, 1, 0, 1, 97, 0, 1, 49, 0,
];

// The slot of the same node behind a flush: a second edit names the log of file 5, from batch 2 on,
// and the table of file 4.
const FLUSHED: &[u8] = &[
    1, 0, 0, 0, 0, 0, 0, 0, 1, 0, 1, 1, 0, 0, 0, 55, 0, 0, 0, 0, 0, 0, 0, 4, 0, 0, 0, 0, 0, 0, 0,
    0, 0, 0, 0, 0, 0, 0, 0, 0, 0, 0, 0, 0, 1, 0, 1, 0, 0, 0, 1, 0, 0, 0, 0, 0, 0, 0, 3, 0, 0, 0, 0,
    0, 0, 0, 1, 0, 0, 0, 0, 1, 0, 0, 0, 78, 0, 0, 0, 0, 0, 0, 0, 6, 0, 0, 0, 0, 0, 0, 0, 0, 0, 0,
    0, 0, 0, 0, 0, 1, 0, 0, 0, 0, 1, 0, 1, 0, 0, 0, 1, 0, 0, 0, 0, 0, 0, 0, 5, 0, 0, 0, 0, 0, 0, 0,
    2, 0, 0, 0, 1, 0, 0, 0, 0, 0, 0, 0, 0, 4, 0, 0, 0, 0, 0, 0, 0, 134, 0, 1, 97, 0, 1, 97, 0,
];

// The table of format 1 that the flush wrote.
const TABLE: &[u8] = &[
    0, 0, 0, 1, 0, 1, 97, 0, 0, 0, 0, 0, 0, 0, 1, 1, 0, 1, 49, 176, 228, 216, 211, 250, 103, 200,
    7, 0, 0, 0, 8, 0, 12, 128, 1, 16, 0, 2, 64, 180, 15, 122, 118, 18, 42, 63, 81, 0, 0, 0, 1, 0,
    0, 0, 0, 0, 0, 0, 0, 0, 0, 0, 27, 0, 1, 97, 0, 0, 0, 0, 0, 0, 0, 1, 29, 191, 61, 191, 75, 60,
    111, 219, 0, 0, 0, 0, 0, 0, 0, 47, 0, 0, 0, 35, 0, 0, 0, 0, 0, 0, 0, 27, 0, 0, 0, 20, 0, 0, 0,
    0, 0, 0, 0, 1, 0, 0, 0, 1, 67, 82, 76, 83, 77, 84, 48, 49, 131, 236, 126, 53, 92, 27, 68, 168,
];

// How a fault strikes: the call fails, or the machine stops in it and leaves this.
type Way = Option<Choice>;

static ALL_WAYS: [Way; 6] = [
    None,
    Some(Choice::Old),
    Some(Choice::New),
    Some(Choice::Bytes(b"\x00")),
    Some(Choice::Bytes(b"\x01")),
    Some(Choice::Bytes(b"\x01\x00")),
];

// A store of format 1 with one batch, and this in file 2.
fn old_store(rt: &impl Abort, alloc: Global, first: &[u8], second: &[u8]) -> MemDisk {
    let mut disk = disk_of(rt, alloc, first, second);
    put_file(rt, &mut disk, 3, LOG);
    disk
}

// The same store behind a flush, with a table and two logs.
fn flushed_store(rt: &impl Abort, alloc: Global) -> MemDisk {
    let mut disk = old_store(rt, alloc, FLUSHED, &[0]);
    put_file(rt, &mut disk, 4, TABLE);
    put_file(rt, &mut disk, 5, &[0]);
    disk
}

// What an upgrade answers. Want of memory ends the test.
fn upgrade(rt: &impl Abort, alloc: Global, disk: &mut MemDisk) -> Result<Upgraded, EngineError> {
    let found = Engine::upgrade(alloc, disk);
    is_so(rt, found != Err(EngineError::Memory), "memory");
    found
}

// Whether the store opens with its batch.
fn has_batch(rt: &impl Abort, alloc: Global, disk: MemDisk) -> bool {
    let limits = Limits::default();
    let opened = Engine::open(alloc, disk, &limits);
    let mut engine = opened.ok().expect(rt, "the engine");
    let count = engine.count();
    engine.set_committed(count);
    let key = key_of(rt, alloc, b"a");
    let found = engine.get(alloc, count, &key).expect(rt, "a read");
    let is_there = match &found {
        Some(value) => is_same(value.as_bytes(), b"1"),
        None => false,
    };
    drop(found);
    drop(engine.into_disk());
    count.get() == 1 && is_there
}

// The slot of format 2 that an upgrade writes over generation 1 is `SLOT` with generation 2.
#[test]
fn the_bytes_of_an_upgrade(rt: HostRuntime) {
    let (rt, alloc) = (&rt, rt.alloc());
    let mut disk = old_store(rt, alloc, OLD_SLOT, &[0]);
    is_so(
        rt,
        upgrade(rt, alloc, &mut disk) == Ok(Upgraded::Done),
        "done",
    );
    let slot = slot_with(rt, alloc, 8, 2);
    is_so(rt, has_bytes(rt, alloc, &mut disk, 1, OLD_SLOT), "file 1");
    is_so(rt, has_bytes(rt, alloc, &mut disk, 2, &slot), "file 2");
    is_so(rt, has_bytes(rt, alloc, &mut disk, 3, LOG), "file 3");
    is_so(
        rt,
        upgrade(rt, alloc, &mut disk) == Ok(Upgraded::Already),
        "already",
    );
    is_so(rt, has_batch(rt, alloc, disk), "the batch");
}

// A first slot, and what an upgrade answers of it beside a closed one.
fn answer_of(rt: &impl Abort, alloc: Global, first: &[u8]) -> Result<Upgraded, EngineError> {
    let mut disk = old_store(rt, alloc, first, &[0]);
    let found = upgrade(rt, alloc, &mut disk);
    is_so(rt, has_bytes(rt, alloc, &mut disk, 1, first), "file 1");
    drop(disk);
    found
}

// The slot of format 1 with this byte at this place.
fn old_with(rt: &impl Abort, alloc: Global, at: usize, byte: u8) -> Vec<u8> {
    let mut bytes = copy_of(rt, alloc, OLD_SLOT);
    *bytes.get_mut(at).expect(rt, "a place") = byte;
    bytes
}

#[test]
fn what_an_upgrade_refuses(rt: HostRuntime) {
    let (rt, alloc) = (&rt, rt.alloc());
    let is_open = answer_of(rt, alloc, SLOT) == Ok(Upgraded::Already);
    is_so(rt, is_open, "format 2");
    let is_closed = answer_of(rt, alloc, &[0]) == Err(EngineError::NotCreated);
    is_so(rt, is_closed, "no slot is open");
    let mut last = old_with(rt, alloc, 1, 0x7f);
    for at in 2..9 {
        *last.get_mut(at).expect(rt, "a place") = 0xff;
    }
    let is_last = answer_of(rt, alloc, &last) == Err(EngineError::Exhausted);
    is_so(rt, is_last, "the last generation");
    // A byte of the head or the record that may not be this one, and the length of the record.
    for (at, byte) in [(1, 0x80), (11, 0), (15, 54), (23, 3), (71, 1)] {
        let damaged = old_with(rt, alloc, at, byte);
        let found = answer_of(rt, alloc, &damaged);
        holds_at(rt, at, found == Err(EngineError::Damaged));
    }
}

fn fault_at(rt: &impl Abort, alloc: Global, way: Way, call: u64) -> Fault {
    match way {
        Some(choice) => Fault::Stop(call, junk_of(rt, alloc, choice)),
        None => Fault::Fail(call),
    }
}

// An upgrade with a fault at a call, and what one finds behind it. Answers whether the fault
// struck.
fn strikes(rt: &impl Abort, alloc: Global, disk: &MemDisk, (way, call): (Way, u64)) -> bool {
    let mut disk = disk.clone().expect(rt, "memory");
    arm(&mut disk, fault_at(rt, alloc, way, call));
    let has_worked = upgrade(rt, alloc, &mut disk).is_ok();
    let has_struck = disk.has_struck();
    is_so(rt, has_worked != has_struck, "what the fault makes of it");
    mend(rt, alloc, &mut disk, way);
    is_so(
        rt,
        upgrade(rt, alloc, &mut disk).is_ok(),
        "the next upgrade",
    );
    is_so(rt, has_batch(rt, alloc, disk), "the batch");
    has_struck
}

// Faults at the first call of the disk in an upgrade, at the second, and so on, as long as they
// strike. Answers how many upgrades that were.
fn sweep(rt: &impl Abort, alloc: Global, disk: &MemDisk, way: Way) -> u64 {
    for call in 1..100u64 {
        if !strikes(rt, alloc, disk, (way, call)) {
            return call;
        }
    }
    0
}

// Each upgrade strikes as often, whatever the way.
fn sweep_ways(rt: &impl Abort, alloc: Global, disk: &MemDisk) {
    let calls = sweep(rt, alloc, disk, None);
    for way in &ALL_WAYS {
        is_so(rt, sweep(rt, alloc, disk, *way) == calls, "its calls");
    }
}

// The other slot is closed, or an open one of a lesser generation; or there are a table and two
// logs.
#[test]
fn faults_in_an_upgrade(rt: HostRuntime) {
    let (rt, alloc) = (&rt, rt.alloc());
    sweep_ways(rt, alloc, &old_store(rt, alloc, OLD_SLOT, &[0]));
    let later = old_with(rt, alloc, 8, 2);
    sweep_ways(rt, alloc, &old_store(rt, alloc, &later, OLD_SLOT));
    sweep_ways(rt, alloc, &flushed_store(rt, alloc));
}
