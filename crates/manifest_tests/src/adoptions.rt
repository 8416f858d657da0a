// Adoptions of later configurations: what an engine answers, what is opened again, and a fault at
// each of the four calls.

use crate::acts::{Choice, mend};
use crate::cases::{has_memory, holds_at, is_so};
use crate::items::{batch_of, config_of, is_same, origin};
use configurations::Config;
use disk::{Disk, Fault, MemDisk};
use engine::{Engine, EngineError};
use kv_types::Limits;
use std::alloc::Global;
use std::process::Abort;

/// The refusal of an adoption of a later configuration, if it is refused.
pub fn refusal<D: Disk + Drop>(
    rt: &impl Abort,
    alloc: Global,
    engine: &mut Engine<D>,
    epoch: u32,
    ids: &[u16],
) -> Option<EngineError> {
    let (epoch, _id) = origin(rt, epoch, 1);
    let config = config_of(rt, alloc, ids);
    if epoch.get() <= engine.epoch().get() || !config.leaves_out(engine.config()) {
        is_so(rt, false, "a later configuration");
        return None;
    }
    let refused = engine.adopt(alloc, epoch, &config).err();
    drop(config);
    has_memory(rt, refused == Some(EngineError::Memory));
    refused
}

// The refusal of an append of one more batch, if it is refused.
fn refusal_of_append(
    rt: &impl Abort,
    alloc: Global,
    engine: &mut Engine<MemDisk>,
) -> Option<EngineError> {
    let batch = batch_of(rt, alloc, &[(b"a", Some(b"1"))]);
    let refused = engine.append(&batch).err();
    drop(batch);
    has_memory(rt, refused == Some(EngineError::Memory));
    refused
}

// The store of node 2 of three, with one batch.
fn store(rt: &impl Abort, alloc: Global) -> Engine<MemDisk> {
    let (_epoch, id) = origin(rt, 0, 2);
    let config = config_of(rt, alloc, &[1, 2, 3]);
    let created = Engine::create(alloc, MemDisk::new(alloc), id, &config, &Limits::default());
    let mut engine = created.ok().expect(rt, "an engine");
    let refused = refusal_of_append(rt, alloc, &mut engine);
    is_so(rt, refused.is_none(), "a batch");
    engine
}

// The refusal of an adoption of epoch 2, which leaves out the head, if it is refused.
fn adopt(rt: &impl Abort, alloc: Global, engine: &mut Engine<MemDisk>) -> Option<EngineError> {
    refusal(rt, alloc, engine, 2, &[2, 3])
}

// Epoch, head, tail, count, floor and kept number of an engine.
fn look_ups(engine: &Engine<MemDisk>) -> [u64; 6] {
    let config = engine.config();
    [
        u64::from(engine.epoch().get()),
        u64::from(config.head().get()),
        u64::from(config.tail().get()),
        engine.count().get(),
        engine.floor().get(),
        engine.kept().get(),
    ]
}

const BEFORE: [u64; 6] = [0, 1, 3, 1, 0, 0];

const AFTER: [u64; 6] = [2, 2, 3, 1, 0, 0];

const LONGER: [u64; 6] = [2, 2, 3, 2, 0, 0];

// Those of the engine that is opened.
fn opened(rt: &impl Abort, alloc: Global, disk: MemDisk) -> [u64; 6] {
    let opened = Engine::open(alloc, disk, &Limits::default());
    let engine = opened.ok().expect(rt, "an engine");
    look_ups(&engine)
}

// The gate, the length and the edit of an adoption of epoch 1 by node 1 alone, and the next gate.
const ADOPTED: &[u8] = &[
    1, 0, 0, 0, 39, //
    0, 0, 0, 0, 0, 0, 0, 4, 0, 0, 0, 0, 0, 0, 0, 0, 0, 0, 0, 0, 0, 0, 0, 0, 0, 0, 0, 1, //
    1, 0, 1, 0, 0, 0, 0, 0, 0, 0, 0, 0,
];

// The disk of a new store of node 1 of two, which adopted the configuration of node 1 alone.
pub fn disk_of_adoption<D: Disk + Drop>(rt: &impl Abort, alloc: Global, disk: D) -> D {
    let (_epoch, id) = origin(rt, 0, 1);
    let config = config_of(rt, alloc, &[1, 2]);
    let created = Engine::create(alloc, disk, id, &config, &Limits::default());
    let mut engine = created.ok().expect(rt, "an engine");
    let refused = refusal(rt, alloc, &mut engine, 1, &[1]);
    is_so(rt, refused.is_none(), "an adoption");
    engine.into_disk()
}

// It stands behind the 75 bytes of a slot with two ids.
#[test]
fn an_adoption_byte_by_byte(rt: HostRuntime) {
    let mut disk = disk_of_adoption(&rt, rt.alloc(), MemDisk::new(rt.alloc()));
    let mut bytes = [0; 45];
    let read = disk.read(1, 75, &mut bytes);
    let is_all = read.is_ok() && disk.length(1) == Ok(120);
    is_so(&rt, is_all && is_same(&bytes, ADOPTED), "the bytes");
}

#[test]
fn an_adopted_configuration_is_opened_again(rt: HostRuntime) {
    let mut engine = store(&rt, rt.alloc());
    is_so(&rt, look_ups(&engine) == BEFORE, "created");
    let refused = adopt(&rt, rt.alloc(), &mut engine);
    let is_adopted = refused.is_none() && look_ups(&engine) == AFTER;
    is_so(&rt, is_adopted, "adopted");
    let refused = refusal_of_append(&rt, rt.alloc(), &mut engine);
    is_so(&rt, refused.is_none(), "a batch more");
    let is_opened = opened(&rt, rt.alloc(), engine.into_disk()) == LONGER;
    is_so(&rt, is_opened, "opened");
}

// Whether an adoption with this call struck is refused and ends the engine, and this is opened
// again.
fn is_left(
    rt: &impl Abort,
    alloc: Global,
    call: u64,
    choice: Option<Choice>,
    want: &[u64; 6],
) -> bool {
    let mut engine = store(rt, alloc);
    engine.arm(&Fault::Fail(call));
    let refused = adopt(rt, alloc, &mut engine);
    let stays = look_ups(&engine) == BEFORE;
    let later = adopt(rt, alloc, &mut engine);
    let mut disk = engine.into_disk();
    mend(rt, alloc, &mut disk, choice);
    let is_opened = opened(rt, alloc, disk) == *want;
    let is_ended = refused == Some(EngineError::Disk) && later == Some(EngineError::Failed);
    is_ended && stays && is_opened
}

// What becomes of a disk whose call was struck, and what is opened where the call was the write of
// the gate or the sync behind it.
static CHOICES: [(Option<Choice>, [u64; 6]); 5] = [
    (None, AFTER),
    (Some(Choice::Old), BEFORE),
    (Some(Choice::New), AFTER),
    (Some(Choice::Bytes(&[0])), BEFORE),
    (Some(Choice::Bytes(&[1])), AFTER),
];

// Until the third call the record stands behind a closed gate.
#[test]
fn adoptions_that_stop(rt: HostRuntime) {
    for call in 1..5 {
        for (choice, gated) in &CHOICES {
            let want = if call < 3 { &BEFORE } else { gated };
            let is_left = is_left(&rt, rt.alloc(), call, *choice, want);
            holds_at(&rt, call as usize, is_left);
        }
    }
}

// A fault at the fifth call strikes the next append.
#[test]
fn an_adoption_makes_four_calls(rt: HostRuntime) {
    let mut engine = store(&rt, rt.alloc());
    engine.arm(&Fault::Fail(5));
    let refused = adopt(&rt, rt.alloc(), &mut engine);
    let is_adopted = refused.is_none() && look_ups(&engine) == AFTER;
    is_so(&rt, is_adopted, "adopted");
    let refused = refusal_of_append(&rt, rt.alloc(), &mut engine);
    is_so(&rt, refused == Some(EngineError::Disk), "the fifth call");
    drop(engine);
}
