// Batches that an engine reads from a log which was damaged below it.
ghost use Rattle.std.specs.Prelude.{None};
ghost use Rattle.disk.specs.{Absent, IsReliable, past_states};

use crate::cases::{Case, all_hold, has_memory, is_so};
use crate::items::{batch_of, config_of, number, origin};
use disk::{Disk, DiskError, MemDisk};
use engine::{Engine, EngineError, Tended};
use kv_types::{Limits, Number};
use std::alloc::Global;
use std::process::Abort;

// The file of a store's first log.
const LOG: u64 = 3;

// What became of that log: the lowest bit of a byte is another, or the file is short, or absent.
#[derive(Clone, Copy)]
enum Damage {
    Byte(u64),
    Short,
    Absent,
}

// Changes the byte of a place among these, which begin at another place.
fn flip(place: u64, at: u64, bytes: &mut [u8]) {
    if let Some(byte) = bytes.get_mut(place.wrapping_sub(at) as usize) {
        *byte ^= 1;
    }
}

// A disk in memory whose first log reads as damaged. It promises nothing.
#[derive(Drop)]
struct DamagedDisk {
    disk: MemDisk,
    damage: Damage,
}

impl Disk for DamagedDisk {
    ghost is_honest = { λ disk. ⊥ };

    ghost state = { λ disk file. Absent None };

    ghost failures = { λ disk. disk.disk.failures };

    ghost is_reliable = { λ disk. IsReliable disk.disk };

    ghost past = { λ disk. past_states disk.disk };

    ghost incidents = { λ disk. disk.disk.incidents };

    ghost allocates = { ⊥ };

    fn files(&mut self) -> Result<Vec<u64>, DiskError> {
        self.disk.files()
    }

    fn length(&mut self, file: u64) -> Result<u64, DiskError> {
        self.disk.length(file)
    }

    fn read(&mut self, file: u64, at: u64, into: &mut [u8]) -> Result<(), DiskError> {
        self.disk.read(file, at, into)?;
        if file != LOG {
            return Ok(());
        }
        match self.damage {
            Damage::Byte(place) => {
                flip(place, at, into);
                Ok(())
            }
            Damage::Short => Err(DiskError::Short),
            Damage::Absent => Err(DiskError::NoFile),
        }
    }

    fn write_at(&mut self, file: u64, at: u64, bytes: &[u8]) -> Result<(), DiskError> {
        self.disk.write_at(file, at, bytes)
    }

    fn cut(&mut self, file: u64, length: u64) -> Result<(), DiskError> {
        self.disk.cut(file, length)
    }

    fn sync(&mut self, file: u64) -> Result<(), DiskError> {
        self.disk.sync(file)
    }

    fn remove(&mut self, file: u64) -> Result<(), DiskError> {
        self.disk.remove(file)
    }
}

// Limits with which each log that has a batch is due for a flush.
fn limits(rt: &impl Abort) -> Limits {
    Limits::new(16, 4, 2097152, 10485760, 16)
        .ok()
        .expect(rt, "limits")
}

// A store whose log has one batch, the put of 1 at a, on a disk with this damage.
fn store(rt: &impl Abort, alloc: Global, damage: Damage) -> Engine<DamagedDisk> {
    let (_epoch, id) = origin(rt, 0, 1);
    let config = config_of(rt, alloc, &[1]);
    let disk = DamagedDisk {
        disk: MemDisk::new(alloc),
        damage,
    };
    let created = Engine::create(alloc, disk, id, &config, &limits(rt));
    let mut engine = created.ok().expect(rt, "an engine");
    let batch = batch_of(rt, alloc, &[(b"a", Some(b"1"))]);
    let appended = engine.append(&batch);
    is_so(rt, appended.is_ok(), "a batch more");
    engine
}

// The batch's log is followed by another one.
fn flush(rt: &impl Abort, alloc: Global, engine: &mut Engine<DamagedDisk>) {
    let tended = engine.tend(alloc).expect(rt, "a tend");
    is_so(rt, tended == Tended::Worked, "a flush");
}

// The refusal of a read of the batch, if it is refused.
fn refusal(
    rt: &impl Abort,
    alloc: Global,
    engine: &mut Engine<DamagedDisk>,
    batch: Number,
) -> Option<EngineError> {
    if batch <= engine.kept() || engine.count() < batch {
        is_so(rt, false, "the engine has the batch");
        return None;
    }
    let refused = engine.batch(alloc, batch).err();
    has_memory(rt, refused == Some(EngineError::Memory));
    refused
}

// Whether reads of the batch answer so, the first and the next.
fn answers(
    rt: &impl Abort,
    alloc: Global,
    engine: &mut Engine<DamagedDisk>,
    want: (Option<EngineError>, Option<EngineError>),
) -> bool {
    let first = refusal(rt, alloc, engine, number(1));
    let next = refusal(rt, alloc, engine, number(1));
    (first, next) == want
}

// A damage, and the refusals of two reads of the batch, from the newest log or from an older one.
struct Row(Damage, (Option<EngineError>, Option<EngineError>));

impl Case for Row {
    fn holds(&self, rt: &impl Abort, alloc: Global) -> bool {
        let mut engine = store(rt, alloc, self.0);
        let is_newest = answers(rt, alloc, &mut engine, self.1);
        drop(engine);
        let mut engine = store(rt, alloc, self.0);
        flush(rt, alloc, &mut engine);
        let is_older = answers(rt, alloc, &mut engine, self.1);
        drop(engine);
        is_newest && is_older
    }
}

// Damage ends the engine.
const DAMAGED: (Option<EngineError>, Option<EngineError>) = (
    Some(EngineError::Damaged),
    Some(EngineError::Failed),
);

const READ: (Option<EngineError>, Option<EngineError>) = (None, None);

static ROWS: [Row; 14] = [
    Row(Damage::Short, DAMAGED),
    Row(Damage::Absent, DAMAGED),
    // Its number, from the first byte to the last.
    Row(Damage::Byte(5), DAMAGED),
    Row(Damage::Byte(12), DAMAGED),
    // How many edits, and the kind of the first.
    Row(Damage::Byte(13), DAMAGED),
    Row(Damage::Byte(14), DAMAGED),
    Row(Damage::Byte(15), DAMAGED),
    // The lengths of key and value.
    Row(Damage::Byte(16), DAMAGED),
    Row(Damage::Byte(17), DAMAGED),
    Row(Damage::Byte(19), DAMAGED),
    Row(Damage::Byte(20), DAMAGED),
    // A read has no need of the gates and of the record's length.
    Row(Damage::Byte(0), READ),
    Row(Damage::Byte(4), READ),
    Row(Damage::Byte(22), READ),
];

#[test]
fn a_batch_of_a_damaged_log(rt: HostRuntime) {
    all_hold(&rt, rt.alloc(), &ROWS);
}
