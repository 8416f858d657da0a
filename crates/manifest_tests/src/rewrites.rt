// Rewrites of the manifest that are due: what they leave, and what is left where a call of the disk
// fails in one, or the machine stops in it.
use crate::acts::{Choice, junk_of, mend};
use crate::cases::is_so;
use crate::items::{config_of, filled, is_same, key_of, number, origin, put, value_of};
use crate::manifests::answer;
use disk::{Crash, Disk, Fault, MemDisk};
use engine::{Engine, Tended};
use kv_types::{Batch, Edit, Key, Limits};
use std::alloc::Global;
use std::process::Abort;

// The keys that all batches put, each of the greatest length.
const KEYS: u64 = 12;

// After so many flushes the slot has 13 bytes, 60 of the first record, 2,131 of each flush, and its
// closed gate: 66,135, which is more than twice 55 and 65,536. With one flush less it is not.
const FIRST: u64 = 31;

// After so many more it has 13, 64,757, 62 times 2,131 and 1, which is more than twice 64,752 and
// 65,536: the first edit then has 32 logs and 31 tables.
const SECOND: u64 = 93;

// How a fault strikes: the call fails, or the machine stops in it and leaves this.
type Way = Option<Choice>;

static ALL_WAYS: [Way; 6] = [
    None,
    Some(Choice::Old),
    Some(Choice::New),
    Some(Choice::Bytes(b"\x00")),
    Some(Choice::Bytes(b"\x01")),
    Some(Choice::Bytes(b"\x01\x00")),
];

fn fault_at(rt: &impl Abort, alloc: Global, way: Way, call: u64) -> Fault {
    match way {
        Some(choice) => Fault::Stop(call, junk_of(rt, alloc, choice)),
        None => Fault::Fail(call),
    }
}

// The keys that a batch puts, which are two.
fn indices(batch: u64) -> [u64; 2] {
    let first = batch.wrapping_mul(5) % KEYS;
    let second = batch.wrapping_mul(7).wrapping_add(1) % KEYS;
    [first, second]
}

// The last of so many batches that puts a key, or 0: what a plain map has.
fn last_put(batches: u64, index: u64) -> u64 {
    let mut last = 0;
    for batch in 1..batches.saturating_add(1) {
        let [first, second] = indices(batch);
        if first == index || second == index {
            last = batch;
        }
    }
    last
}

fn long_key(rt: &impl Abort, alloc: Global, index: u64) -> Key {
    let mut bytes = filled(rt, alloc, b'k', 1024);
    for (at, byte) in index.to_be_bytes().iter().enumerate() {
        if let Some(place) = bytes.get_mut(at.wrapping_add(1016)) {
            *place = *byte;
        }
    }
    Key::new(bytes).expect(rt, "a key")
}

// The batch of this number: it puts its number to its keys.
fn batch_at(rt: &impl Abort, alloc: Global, batch: u64) -> Batch {
    let mut edits = Vec::new(alloc);
    for index in indices(batch) {
        let value = value_of(rt, alloc, &batch.to_be_bytes());
        let edit = Edit::Put(long_key(rt, alloc, index), value);
        put(rt, &mut edits, edit);
    }
    Batch::new(edits).expect(rt, "a batch")
}

fn limits(rt: &impl Abort) -> Limits {
    Limits::new(16, 64, 2097152, 10485760, 16)
        .ok()
        .expect(rt, "limits")
}

fn created(rt: &impl Abort, alloc: Global) -> MemDisk {
    let (_epoch, id) = origin(rt, 0, 1);
    let config = config_of(rt, alloc, &[1]);
    let created = Engine::create(alloc, MemDisk::new(alloc), id, &config, &limits(rt));
    created.ok().expect(rt, "an engine").into_disk()
}

fn opened(rt: &impl Abort, alloc: Global, disk: MemDisk) -> Engine<MemDisk> {
    let opened = Engine::open(alloc, disk, &limits(rt));
    opened.ok().expect(rt, "the engine again")
}

fn append(rt: &impl Abort, alloc: Global, engine: &mut Engine<MemDisk>) {
    let next = engine.count().get().saturating_add(1);
    let batch = batch_at(rt, alloc, next);
    let put = engine.append(&batch).ok();
    drop(batch);
    is_so(rt, put == Some(number(next)), "a batch more");
}

// Whether a tend works.
fn works(alloc: Global, engine: &mut Engine<MemDisk>) -> bool {
    engine.tend(alloc).ok() == Some(Tended::Worked)
}

// A tend that flushes: there is a table more.
fn flush(rt: &impl Abort, alloc: Global, engine: &mut Engine<MemDisk>) {
    let before = engine.tables()[0];
    is_so(rt, works(alloc, engine), "a flush");
    let has_more = engine.tables()[0] == before.saturating_add(1);
    is_so(rt, has_more, "a table more");
}

// Flushes each batch by itself, up to so many tables, and appends one batch more.
fn fill(rt: &impl Abort, alloc: Global, disk: MemDisk, tables: u64) -> MemDisk {
    let mut engine = opened(rt, alloc, disk);
    for _ in engine.tables()[0]..tables {
        append(rt, alloc, &mut engine);
        flush(rt, alloc, &mut engine);
    }
    append(rt, alloc, &mut engine);
    engine.into_disk()
}

// Whether the store has, at this number, what the plain map has of a key.
fn has_key(
    rt: &impl Abort,
    alloc: Global,
    engine: &mut Engine<MemDisk>,
    (batches, index): (u64, u64),
) -> bool {
    let key = long_key(rt, alloc, index);
    let found = engine
        .get(alloc, number(batches), &key)
        .expect(rt, "a read");
    let want = last_put(batches, index);
    match &found {
        Some(value) => is_same(value.as_bytes(), &want.to_be_bytes()),
        None => want == 0,
    }
}

// Whether it has what the map has of all keys.
fn has_map(rt: &impl Abort, alloc: Global, engine: &mut Engine<MemDisk>, batches: u64) -> bool {
    for index in 0..KEYS {
        if !has_key(rt, alloc, engine, (batches, index)) {
            return false;
        }
    }
    true
}

// Whether it has so many tables, all of level 0.
fn has_tables(engine: &Engine<MemDisk>, tables: u64) -> bool {
    let mut all = 0u64;
    for count in engine.tables() {
        all = all.saturating_add(count);
    }
    engine.tables()[0] == tables && all == tables
}

// Fails the test unless the store has all its batches: one more than so many tables.
fn has_all(rt: &impl Abort, alloc: Global, engine: &mut Engine<MemDisk>, tables: u64) {
    let count = engine.count();
    is_so(rt, count.get() == tables.saturating_add(1), "its batches");
    is_so(rt, has_tables(engine, tables), "its tables");
    engine.set_committed(count);
    for below in [0, 1, tables / 2, tables] {
        let at = count.get().saturating_sub(below);
        is_so(rt, has_map(rt, alloc, engine, at), "the map");
    }
}

// The generation of the slot that counts.
fn generation_of(rt: &impl Abort, alloc: Global, disk: &MemDisk) -> u64 {
    let mut disk = disk.clone().expect(rt, "memory");
    let found = answer(rt, alloc, &mut disk);
    drop(disk);
    found.ok().expect(rt, "a manifest")
}

// Whether this file is an open slot of the generation.
fn is_slot(rt: &impl Abort, disk: &mut MemDisk, file: u64, generation: u64) -> bool {
    let mut head = [0u8; 9];
    disk.read(file, 0, &mut head).expect(rt, "a slot");
    head[0] == 1 && is_same(&head[1..], &generation.to_be_bytes())
}

// Makes the rewrite that is due, after so many flushes.
fn rewrite(rt: &impl Abort, alloc: Global, disk: MemDisk, tables: u64) -> MemDisk {
    let mut engine = opened(rt, alloc, disk);
    is_so(rt, works(alloc, &mut engine), "a rewrite");
    has_all(rt, alloc, &mut engine, tables);
    engine.into_disk()
}

// Opens what a rewrite left, in which nothing but the flush of the last batch is due.
fn flush_last(rt: &impl Abort, alloc: Global, disk: MemDisk, tables: u64) -> MemDisk {
    let mut engine = opened(rt, alloc, disk);
    has_all(rt, alloc, &mut engine, tables);
    flush(rt, alloc, &mut engine);
    // A merge is due where level 0 has more tables than its limit.
    let rests = engine.tend(alloc).ok() == Some(Tended::Idle);
    is_so(rt, rests || tables >= 64, "nothing is due");
    engine.into_disk()
}

// Makes the rewrite that is due, after so many flushes. The slot of its generation is then this
// file. Answers the disk behind the flush of its last batch.
fn rewritten(
    rt: &impl Abort,
    alloc: Global,
    disk: MemDisk,
    tables: u64,
    (file, generation): (u64, u64),
) -> MemDisk {
    let before = generation_of(rt, alloc, &disk);
    is_so(rt, before.saturating_add(1) == generation, "before");
    let mut disk = rewrite(rt, alloc, disk, tables);
    let after = generation_of(rt, alloc, &disk);
    is_so(rt, after == generation, "the generation of a rewrite");
    is_so(rt, is_slot(rt, &mut disk, file, generation), "its slot");
    flush_last(rt, alloc, disk, tables)
}

// A tend of this disk, where a rewrite is due, with a fault at a call of it; then the machine has
// stopped, or the disk works again. Answers the disk, and whether the fault struck.
fn tend_struck(
    rt: &impl Abort,
    alloc: Global,
    disk: MemDisk,
    (way, call): (Way, u64),
) -> (MemDisk, bool) {
    let mut engine = opened(rt, alloc, disk);
    let fault = fault_at(rt, alloc, way, call);
    engine.arm(&fault);
    drop(fault);
    let has_worked = engine.tend(alloc).is_ok();
    let mut disk = engine.into_disk();
    let has_struck = disk.has_struck();
    is_so(rt, has_worked != has_struck, "what the fault makes of it");
    mend(rt, alloc, &mut disk, way);
    (disk, has_struck)
}

// Opens a disk behind a fault, and finds all batches. If the rewrite is still due, it is made; then
// the last batch is flushed.
fn continue_on(rt: &impl Abort, alloc: Global, disk: MemDisk, tables: u64, is_due: bool) {
    let mut engine = opened(rt, alloc, disk);
    has_all(rt, alloc, &mut engine, tables);
    if is_due {
        is_so(rt, works(alloc, &mut engine), "a rewrite");
    }
    flush(rt, alloc, &mut engine);
    drop(engine.into_disk());
}

// A tend with a fault, and an opening after it. Answers whether the fault struck.
fn strikes(
    rt: &impl Abort,
    alloc: Global,
    disk: MemDisk,
    tables: u64,
    (way, call): (Way, u64),
) -> bool {
    let old = generation_of(rt, alloc, &disk);
    let (disk, has_struck) = tend_struck(rt, alloc, disk, (way, call));
    let new = generation_of(rt, alloc, &disk);
    let is_next = new == old.saturating_add(1);
    is_so(rt, is_next || (has_struck && new == old), "a generation");
    continue_on(rt, alloc, disk, tables, new == old);
    has_struck
}

// Faults at the first call of the disk in the rewrite that is due, at the second, and so on, as
// long as they strike. Answers how many tends that were.
fn sweep(rt: &impl Abort, alloc: Global, disk: &MemDisk, tables: u64, way: Way) -> u64 {
    for call in 1..100u64 {
        let disk = disk.clone().expect(rt, "memory");
        if !strikes(rt, alloc, disk, tables, (way, call)) {
            return call;
        }
    }
    0
}

// Sweeps the rewrite in all ways. Each has so many calls, and one tend without a fault.
fn sweep_ways(rt: &impl Abort, alloc: Global, disk: &MemDisk, tables: u64, calls: u64) {
    for way in &ALL_WAYS {
        let tends = sweep(rt, alloc, disk, tables, *way);
        let is_all = tends == calls.saturating_add(1);
        is_so(rt, is_all, "the calls of a rewrite");
    }
}

#[test]
fn long_slots_are_rewritten(rt: HostRuntime) {
    let (rt, alloc) = (&rt, rt.alloc());
    let disk = fill(rt, alloc, created(rt, alloc), FIRST);
    sweep_ways(rt, alloc, &disk, FIRST, 6);
    let disk = rewritten(rt, alloc, disk, FIRST, (2, 2));
    // The other slot's gate is open, and is closed first.
    let disk = fill(rt, alloc, disk, SECOND);
    sweep_ways(rt, alloc, &disk, SECOND, 7);
    drop(rewritten(rt, alloc, disk, SECOND, (1, 3)));
}
