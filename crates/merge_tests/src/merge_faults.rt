// A fault at each device call of each tend of stores that merge: what is found behind an opening.
use crate::acts::{Choice, mend};
use crate::cases::{has_memory, holds_at, is_so};
use crate::files::next_behind;
use crate::merge_courses::{Course, Run, before_tend};
use crate::merge_rows::STRUCK;
use crate::plain_store::{PlainStore, opened_with, tend};
use disk::{Crash, Disk, Fault, MemDisk};
use engine::{Engine, EngineError, Tended};
use std::alloc::Global;
use std::process::Abort;

/// The ways in which a machine goes on: the disk works again, or it crashes.
pub static WAYS: [Option<Choice>; 6] = [
    None,
    Some(Choice::Old),
    Some(Choice::New),
    Some(Choice::Bytes(&[0])),
    Some(Choice::Bytes(&[1])),
    Some(Choice::Bytes(&[1, 0])),
];

/// Whether nothing is due behind so many tends at most.
pub fn settles<D: Disk + Drop>(rt: &impl Abort, alloc: Global, run: &mut Run<D>) -> bool {
    for _ in 0..2_000u16 {
        if tend(rt, alloc, &mut run.engine) == Tended::Idle {
            return true;
        }
    }
    false
}

/// Whether the store leaves the files that its manifest names, and no others.
pub fn is_alone(rt: &impl Abort, alloc: Global, engine: Engine<MemDisk>) -> bool {
    next_behind(rt, alloc, engine).is_some()
}

// What is to be found: so many batches, and a floor of two.
#[derive(Clone, Copy)]
struct Found {
    count: u64,
    floors: [u64; 2],
}

// Whether the store of this disk has these batches, and reads as the plain one, also at those of
// the numbers that are not below its floor.
fn is_found(
    rt: &impl Abort,
    alloc: Global,
    run: &mut Run<MemDisk>,
    found: &Found,
    numbers: &[u64],
) -> bool {
    let floor = run.engine.floor().get();
    let mut is_found = run.engine.count().get() == found.count
        && found.floors.contains(&floor)
        && run.agrees(rt, alloc);
    for at in numbers {
        if *at >= floor {
            is_found = run.agrees_at(rt, alloc, *at) && is_found;
        }
    }
    is_found
}

// Whether the store of this disk is found, also where it goes on until nothing is due.
fn is_recovered(
    rt: &impl Abort,
    alloc: Global,
    disk: MemDisk,
    course: &Course,
    (plain, found): (PlainStore, &Found),
    numbers: &[u64],
) -> (bool, PlainStore) {
    let engine = opened_with(rt, alloc, disk, &course.limits(rt));
    let open = Vec::new(alloc);
    let mut run = Run {
        engine,
        plain,
        open,
    };
    let is_first = is_found(rt, alloc, &mut run, found, numbers);
    let is_last = settles(rt, alloc, &mut run) && run.agrees(rt, alloc);
    let Run { engine, plain, .. } = run;
    let is_alone = is_alone(rt, alloc, engine);
    (is_first && is_last && is_alone, plain)
}

// Whether a store is recovered from this disk in each way.
fn is_recovered_each_way(
    rt: &impl Abort,
    alloc: Global,
    course: &Course,
    run: Run<MemDisk>,
    found: &Found,
) -> bool {
    let Run {
        engine,
        plain,
        open,
    } = run;
    let (disk, mut plain) = (engine.into_disk(), plain);
    let mut all = true;
    for way in &WAYS {
        let mut copy = disk.clone().expect(rt, "memory");
        mend(rt, alloc, &mut copy, *way);
        let (is_so, same) = is_recovered(rt, alloc, copy, course, (plain, found), &open);
        all = is_so && all;
        plain = same;
    }
    all
}

// Whether a fault at this call of the tend strikes it exactly if it makes so many, and the store is
// recovered from what is left. At the call behind the last one it strikes none.
fn survives(
    rt: &impl Abort,
    alloc: Global,
    course: &Course,
    (run, calls): (Run<MemDisk>, u64),
    call: u64,
) -> bool {
    let mut run = run;
    let floor = run.engine.floor().get();
    let mut next = run.engine.committed().get();
    for at in &run.open {
        next = next.min(*at);
    }
    let found = Found {
        count: run.engine.count().get(),
        floors: [floor, next],
    };
    let fault = Fault::Fail(call);
    run.engine.arm(&fault);
    drop(fault);
    let refused = run.engine.tend(alloc).err();
    has_memory(rt, refused == Some(EngineError::Memory));
    let want = if call <= calls {
        Some(EngineError::Disk)
    } else {
        None
    };
    refused == want && is_recovered_each_way(rt, alloc, course, run, &found)
}

// Strikes each call of a tend of the course. Says whether there is such a tend.
fn strike(rt: &impl Abort, alloc: Global, course: &Course, which: usize, first: usize) -> bool {
    for call in 1..1_000u64 {
        let Some((run, calls)) = before_tend(rt, alloc, MemDisk::new(alloc), course, which) else {
            return false;
        };
        let index = first.saturating_add(call as usize);
        holds_at(rt, index, survives(rt, alloc, course, (run, calls), call));
        if call > calls {
            return true;
        }
    }
    is_so(rt, false, "a tend of less than 1,000 calls");
    false
}

// The failure names the course by its place times 10,000, the tend by its times a hundred, and the
// call.
#[test]
fn a_fault_at_each_call_of_each_tend(rt: HostRuntime) {
    let mut count = 0usize;
    for (index, course) in STRUCK.iter().enumerate() {
        for which in 0..100usize {
            let first = index
                .saturating_mul(100)
                .saturating_add(which)
                .saturating_mul(100);
            if !strike(&rt, rt.alloc(), course, which, first) {
                break;
            }
            count = count.saturating_add(1);
        }
    }
    // Eight, seven, eight and five.
    is_so(&rt, count == 28, "the tends of all courses");
}
