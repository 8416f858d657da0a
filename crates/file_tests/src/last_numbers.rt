// Stores with the last file numbers and generations, and with as many logs as there may be, which
// an edit in bytes brings about: `Full`, and the store as it was before.
use crate::cases::{Case, all_hold, is_so};
use crate::files::next_behind;
use crate::full_stores::{created, has, has_tables, limits};
use crate::items::{config_of, copy_of, node, put, write};
use crate::stores::{Change, append, batch_at, opened, tend};
use disk::{Disk, MemDisk};
use engine::{Engine, Tended};
use record_log::Log;
use std::alloc::Global;
use std::mem::forget;
use std::process::Abort;
use store_files::StoreFiles;

// The edit of node 1 alone at floor 0: this next file, so many flushed batches, and these logs with
// the numbers of their first batches.
fn edit_of(
    rt: &impl Abort,
    alloc: Global,
    (next, flushed): (u64, u64),
    logs: &[(u64, u64)],
) -> Vec<u8> {
    let mut edit = copy_of(rt, alloc, &next.to_be_bytes());
    write(rt, &mut edit, &[0; 8]);
    write(rt, &mut edit, &flushed.to_be_bytes());
    write(rt, &mut edit, &[0, 0, 0, 0, 1, 0, 1, 0, 0]);
    write(rt, &mut edit, &((logs.len() % 65_536) as u16).to_be_bytes());
    for (file, first) in logs {
        write(rt, &mut edit, &file.to_be_bytes());
        write(rt, &mut edit, &first.to_be_bytes());
    }
    write(rt, &mut edit, &[0; 4]);
    edit
}

// Records such an edit so often in the first slot.
fn record(
    rt: &impl Abort,
    alloc: Global,
    disk: &mut MemDisk,
    (numbers, logs): ((u64, u64), &[(u64, u64)]),
    times: usize,
) {
    let edit = edit_of(rt, alloc, numbers, logs);
    let opened = Log::open(alloc, disk, 1, 13).expect(rt, "the slot");
    let mut log = opened.log;
    for _ in 0..times {
        log.append(disk, &edit).expect(rt, "a record");
    }
}

// ---- stores at their last numbers

// Appends the batch of this number to a log that has none.
fn put_batch(rt: &impl Abort, alloc: Global, disk: &mut MemDisk, log: Log, at: u64) {
    let mut log = log;
    let mut bytes = copy_of(rt, alloc, &at.to_be_bytes());
    let batch = batch_at(rt, alloc, &[(20, Some((at % 65_536) as u16))]);
    write(rt, &mut bytes, &batch.to_bytes(alloc).expect(rt, "memory"));
    log.append(disk, &bytes).expect(rt, "a batch");
}

// Gives the disk of a new store so many logs, each of one batch, the last of which is in no table.
// It has no tables, and only the key of the last batch is looked up.
fn add_logs(rt: &impl Abort, alloc: Global, disk: &mut MemDisk, count: u64) {
    let log = Log::open(alloc, disk, 3, 0).expect(rt, "a log").log;
    put_batch(rt, alloc, disk, log, 1);
    let mut logs = Vec::new(alloc);
    for at in 2..count.saturating_add(1) {
        let file = at.saturating_add(2);
        let log = Log::create(alloc, disk, file).expect(rt, "a log");
        put_batch(rt, alloc, disk, log, at);
        put(rt, &mut logs, (file, at));
    }
    let numbers = (count.saturating_add(3), count.saturating_sub(1));
    record(rt, alloc, disk, (numbers, &logs), 1);
}

// Makes the first slot so long that a rewrite is due, and its generation this one.
fn lengthen(rt: &impl Abort, alloc: Global, disk: &mut MemDisk, generation: u64) {
    record(rt, alloc, disk, ((4, 0), &[]), 1_600);
    let written = disk.write_at(1, 1, &generation.to_be_bytes());
    is_so(rt, written.is_ok() && disk.sync(1).is_ok(), "a generation");
}

// What is near its end in a store: the next file or the generation of the slot, by how far it is
// below 2^63, or the logs, by their number.
#[derive(Clone, Copy)]
enum Last {
    File(u64),
    Logs(u64),
    Generation(u64),
}

const END: u64 = 1 << 63;

impl Last {
    fn fill(self, rt: &impl Abort, alloc: Global, disk: &mut MemDisk) {
        match self {
            Last::File(below) => {
                let numbers = (END.saturating_sub(below), 0);
                record(rt, alloc, disk, (numbers, &[]), 1);
            }
            Last::Logs(count) => add_logs(rt, alloc, disk, count),
            Last::Generation(below) => lengthen(rt, alloc, disk, END.saturating_sub(below)),
        }
    }

    // With more tables of level 0 a merge is due.
    fn flushed(self) -> u64 {
        if matches!(self, Last::Logs(_)) { 64 } else { 0 }
    }

    // How many batches the store has, of which the last put its own number.
    fn batches(self) -> u64 {
        if let Last::Logs(count) = self {
            count
        } else {
            0
        }
    }
}

// A store, what tends answer in turn, the changes of a batch, what tends answer behind it, and how
// many tables levels 0 and 1 then have.
struct Ended(
    Last,
    &'static [Tended],
    &'static [Change],
    &'static [Tended],
    (u64, u64),
);

// Whether tends answer this in turn.
fn answers(
    rt: &impl Abort,
    alloc: Global,
    engine: &mut Engine<MemDisk>,
    answers: &[Tended],
) -> bool {
    let mut all = true;
    for want in answers {
        all = tend(rt, alloc, engine) == *want && all;
    }
    all
}

// Whether each of these keys has its value.
fn has_each(
    rt: &impl Abort,
    alloc: Global,
    engine: &mut Engine<MemDisk>,
    changes: &[Change],
) -> bool {
    let mut all = true;
    for change in changes {
        all = has(rt, alloc, engine, *change) && all;
    }
    all
}

impl Ended {
    fn is_met(&self, rt: &impl Abort, alloc: Global, engine: &mut Engine<MemDisk>) -> bool {
        let Ended(last, before, changes, behind, tables) = *self;
        let is_before = answers(rt, alloc, engine, before);
        append(rt, engine, &batch_at(rt, alloc, changes));
        let is_behind = answers(rt, alloc, engine, behind);
        let count = last.batches();
        let has_last = count == 0 || has(rt, alloc, engine, (20, Some((count % 65_536) as u16)));
        is_before
            && is_behind
            && has_last
            && has_each(rt, alloc, engine, changes)
            && engine.count().get() == count.saturating_add(1)
            && has_tables(engine, tables)
    }
}

impl Case for Ended {
    fn holds(&self, rt: &impl Abort, alloc: Global) -> bool {
        let mut disk = created(rt, alloc).into_disk();
        self.0.fill(rt, alloc, &mut disk);
        let limits = limits(rt, self.0.flushed());
        let mut engine = opened(rt, alloc, disk, &limits);
        let is_met = self.is_met(rt, alloc, &mut engine);
        next_behind(rt, alloc, engine).is_some() && is_met
    }
}

// ---- file numbers

const IDLE: Tended = Tended::Idle;

const WORKED: Tended = Tended::Worked;

const FULL: Tended = Tended::Full;

static FILES: [Ended; 8] = [
    // No number for the log of a flush, and none for its table.
    Ended(Last::File(1), &[], &[(20, Some(1))], &[FULL, FULL], (0, 0)),
    Ended(Last::File(0), &[], &[(20, Some(1))], &[FULL, FULL], (0, 0)),
    // Both have one, and the output of a merge has none.
    Ended(
        Last::File(2),
        &[],
        &[(20, Some(1))],
        &[WORKED, WORKED, FULL, WORKED, FULL],
        (1, 0),
    ),
    // A merge that leaves nothing wants none.
    Ended(
        Last::File(2),
        &[],
        &[(20, None)],
        &[WORKED, WORKED, WORKED, IDLE],
        (0, 0),
    ),
    // One output has one.
    Ended(
        Last::File(4),
        &[],
        &[(20, Some(1))],
        &[WORKED, WORKED, WORKED, IDLE],
        (0, 1),
    ),
    // A second one has none.
    Ended(
        Last::File(3),
        &[],
        &[(20, Some(1)), (22, Some(1))],
        &[WORKED, WORKED, FULL, WORKED, FULL],
        (1, 0),
    ),
    // An output has the last number.
    Ended(
        Last::File(3),
        &[],
        &[(20, Some(1))],
        &[WORKED, WORKED, WORKED, IDLE],
        (0, 1),
    ),
    Ended(
        Last::File(4),
        &[],
        &[(20, Some(1)), (22, Some(1))],
        &[WORKED, WORKED, WORKED, IDLE],
        (0, 2),
    ),
];

// Whether the first free file of a new store is the one behind its log, and then the one that it is
// told.
fn has_free_files(rt: &impl Abort, alloc: Global) -> bool {
    let config = config_of(rt, alloc, &[1]);
    let created = StoreFiles::create(alloc, &mut MemDisk::new(alloc), node(rt, 1), &config);
    let mut store = created.expect(rt, "a store");
    let first = store.free_file();
    store.set_free_file(9);
    let second = store.free_file();
    // A drop would be proved here.
    forget(store);
    first == 4 && second == 9
}

#[test]
fn the_last_file_numbers(rt: HostRuntime) {
    is_so(&rt, has_free_files(&rt, rt.alloc()), "a free file");
    all_hold(&rt, rt.alloc(), &FILES);
}

// ---- logs and generations

static LOGS: [Ended; 2] = [
    // A flush makes the slot so long that a rewrite is due.
    Ended(
        Last::Logs(4_095),
        &[WORKED],
        &[(22, Some(1))],
        &[WORKED, FULL, FULL],
        (1, 0),
    ),
    Ended(
        Last::Logs(4_096),
        &[FULL],
        &[(22, Some(1))],
        &[FULL],
        (0, 0),
    ),
];

#[test]
fn as_many_logs_as_there_may_be(rt: HostRuntime) {
    all_hold(&rt, rt.alloc(), &LOGS);
}

static GENERATIONS: [Ended; 2] = [
    Ended(
        Last::Generation(2),
        &[],
        &[(20, Some(1))],
        &[WORKED, WORKED],
        (1, 0),
    ),
    Ended(
        Last::Generation(1),
        &[],
        &[(20, Some(1))],
        &[FULL, FULL],
        (0, 0),
    ),
];

#[test]
fn the_last_generations(rt: HostRuntime) {
    all_hold(&rt, rt.alloc(), &GENERATIONS);
}
