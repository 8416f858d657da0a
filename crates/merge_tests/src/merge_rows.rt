// Merges of small stores: what they drop, which tables they take, which files are left.
use crate::merge_courses::{Course, Step, run_course};
use disk::MemDisk;
use std::alloc::Global;
use std::process::Abort;

// A flush makes 13 calls for a table of one block: its block, the rest and a sync, four to open it,
// two for a new log, and four of a record. The beginning of a merge makes four of a record, one for
// each log given up, and reads a block of each input. Its end makes three for an output of one
// block, four to open it, four of a record, and one for each input. One more is for each block read
// or written on the way.
//
// A table of at most six keys has 121 bytes, 106 for each put and 14 for each deletion, where the
// places of its keys are even. A log has one byte, and 112 for each batch of a put, and 20
// for one of a deletion.

/// Level 0 may have one table, or none.
const ONE: [u64; 3] = [1, 2_097_152, 10_485_760];

const NONE: [u64; 3] = [0, 2_097_152, 10_485_760];

/// Courses, at each of whose calls a fault strikes too.
pub static STRUCK: [Course; 4] = [
    // A merge below an open snapshot; then one over what the first left, without it.
    Course {
        limits: ONE,
        steps: &[
            Step::Put(&[(20, Some(1))]),
            Step::Open(1),
            Step::Tends(&[13]),
            Step::Put(&[(20, Some(2))]),
            Step::Put(&[(20, None)]),
            Step::Tends(&[13, 7, 13]),
            Step::Idle,
            Step::Shows(1, 1, [0, 1, 0, 0, 0, 0, 0]),
            Step::Close(1),
            Step::Put(&[(20, Some(4))]),
            Step::Tends(&[13]),
            Step::Put(&[(22, Some(1))]),
            Step::Tends(&[13, 10, 14]),
            Step::Idle,
            Step::Shows(5, 5, [0, 1, 0, 0, 0, 0, 0]),
        ],
        files: &[(12, 1), (13, 333)],
    },
    // Five tables, where four are the limit.
    Course {
        limits: [4, 2_097_152, 10_485_760],
        steps: &[
            Step::Put(&[(20, Some(1))]),
            Step::Tends(&[13]),
            Step::Put(&[(22, Some(2))]),
            Step::Tends(&[13]),
            Step::Put(&[(24, Some(3))]),
            Step::Tends(&[13]),
            Step::Put(&[(26, Some(4))]),
            Step::Tends(&[13]),
            Step::Idle,
            Step::Put(&[(20, Some(5))]),
            Step::Tends(&[13, 14, 16]),
            Step::Idle,
            Step::Shows(5, 5, [0, 1, 0, 0, 0, 0, 0]),
        ],
        files: &[(13, 1), (14, 545)],
    },
    // A table of a put goes down to level 2, and a deletion of its key stays in level 1.
    Course {
        limits: [0, 2_097_152, 200],
        steps: &[
            Step::Put(&[(20, Some(1))]),
            Step::Tends(&[13, 6, 12, 5, 12]),
            Step::Idle,
            Step::Put(&[(20, None)]),
            Step::Tends(&[13, 6, 12]),
            Step::Idle,
            Step::Shows(2, 2, [0, 1, 1, 0, 0, 0, 0]),
        ],
        files: &[(7, 227), (9, 1), (10, 135)],
    },
    // Two tables of 256 keys, in two steps.
    Course {
        limits: ONE,
        steps: &[
            Step::Fill(100, 256, 1),
            Step::Tends(&[19]),
            Step::Fill(100, 256, 2),
            Step::Tends(&[19, 8, 9]),
            Step::Shows(2, 2, [2, 0, 0, 0, 0, 0, 0]),
            Step::Tends(&[22]),
            Step::Shows(2, 2, [0, 1, 0, 0, 0, 0, 0]),
            Step::Idle,
        ],
        files: &[(7, 1), (8, 27_923)],
    },
];

static OTHERS: [Course; 2] = [
    // A merge of one table, part by part.
    Course {
        limits: NONE,
        steps: &[
            Step::Put(&[(20, Some(1))]),
            Step::Tends(&[13]),
            Step::Tends(&[6]),
            Step::Shows(1, 1, [1, 0, 0, 0, 0, 0, 0]),
            Step::Tends(&[12]),
            Step::Shows(1, 1, [0, 1, 0, 0, 0, 0, 0]),
            Step::Idle,
        ],
        files: &[(5, 1), (6, 227)],
    },
    // Batches that are not committed: the floor stays, and so do the logs.
    Course {
        limits: NONE,
        steps: &[
            Step::Late(&[(20, Some(1))]),
            Step::Tends(&[13]),
            Step::Late(&[(20, None)]),
            Step::Tends(&[13, 6, 13]),
            Step::Idle,
            Step::Shows(0, 0, [0, 1, 0, 0, 0, 0, 0]),
            Step::Commit,
            Step::Idle,
            Step::Late(&[(20, Some(3))]),
            Step::Tends(&[13, 8, 13]),
            Step::Shows(2, 2, [0, 1, 0, 0, 0, 0, 0]),
            Step::Idle,
        ],
        files: &[(7, 113), (10, 1), (11, 227)],
    },
];

/// Runs each course. The failure names the first that does not hold, by its place times a hundred,
/// and the place of its step.
pub fn run_all(rt: &impl Abort, alloc: Global, courses: &[Course]) {
    for (index, course) in courses.iter().enumerate() {
        let first = index.saturating_mul(100);
        run_course(rt, alloc, MemDisk::new(alloc), course, first);
    }
}

#[test]
fn merges_of_small_stores(rt: HostRuntime) {
    run_all(&rt, rt.alloc(), &STRUCK);
    run_all(&rt, rt.alloc(), &OTHERS);
}
