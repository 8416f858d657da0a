// Which entries a merge drops, and which tables it takes, each at the edges of its rule.
use crate::merge_courses::{Course, Step};
use crate::merge_rows::run_all;

// How many calls tends make, and how long files are, is said in `merge_rows.rt`.

// A level has no limit that these courses come to.
const LARGE: u64 = 10_485_760;

const DROPS: usize = 6;

static DROPPED: [Course; DROPS] = [
    // At the floor 2: of a key the entries that are newer, the newest at most at the floor, and no
    // older one. A deletion at the floor is dropped, and one above it stays. What is no input keeps
    // its entries, and at the next floor they are dropped.
    Course {
        limits: [0, LARGE, LARGE],
        steps: &[
            Step::Put(&[(20, Some(1)), (22, Some(1))]),
            Step::Put(&[(20, Some(2)), (22, None)]),
            Step::Put(&[(20, Some(3)), (24, None)]),
            Step::Open(2),
            Step::Tends(&[13, 5, 12]),
            Step::Shows(2, 0, [0, 1, 0, 0, 0, 0, 0]),
            Step::Close(2),
            Step::Put(&[(26, Some(4))]),
            Step::Tends(&[13, 7, 12]),
            Step::Shows(4, 4, [0, 2, 0, 0, 0, 0, 0]),
            Step::Put(&[(20, Some(5))]),
            Step::Tends(&[13, 7, 13]),
            Step::Idle,
            Step::Shows(5, 5, [0, 2, 0, 0, 0, 0, 0]),
        ],
        files: &[(9, 227), (11, 1), (12, 227)],
    },
    // The same up to the first merge, whose output has three entries.
    Course {
        limits: [0, LARGE, LARGE],
        steps: &[
            Step::Put(&[(20, Some(1)), (22, Some(1))]),
            Step::Put(&[(20, Some(2)), (22, None)]),
            Step::Put(&[(20, Some(3)), (24, None)]),
            Step::Open(2),
            Step::Tends(&[13, 5, 12]),
        ],
        files: &[(3, 444), (5, 1), (6, 347)],
    },
    // The range of a table of level 2 holds three of five deleted keys, two of them its ends. Then
    // the deletion goes to level 2 itself, where it is dropped with what it deletes.
    Course {
        limits: [0, LARGE, 300],
        steps: &[
            Step::Put(&[(20, Some(1)), (24, Some(1))]),
            Step::Tends(&[13, 6, 12, 5, 12]),
            Step::Put(&[(18, None), (20, None), (22, None), (24, None), (26, None)]),
            Step::Tends(&[13, 6, 12]),
            Step::Idle,
            Step::Shows(2, 2, [0, 1, 1, 0, 0, 0, 0]),
            Step::Put(&[(22, Some(3)), (24, Some(3))]),
            Step::Tends(&[13, 7, 13, 6, 13]),
            Step::Idle,
            Step::Shows(3, 3, [0, 0, 1, 0, 0, 0, 0]),
        ],
        files: &[(12, 1), (14, 333)],
    },
    // The same up to the deletions.
    Course {
        limits: [0, LARGE, 300],
        steps: &[
            Step::Put(&[(20, Some(1)), (24, Some(1))]),
            Step::Tends(&[13, 6, 12, 5, 12]),
            Step::Put(&[(18, None), (20, None), (22, None), (24, None), (26, None)]),
            Step::Tends(&[13, 6, 12]),
        ],
        files: &[(7, 333), (9, 1), (10, 163)],
    },
    // Merges that leave nothing.
    Course {
        limits: [0, LARGE, LARGE],
        steps: &[
            Step::Put(&[(20, Some(1))]),
            Step::Put(&[(20, None)]),
            Step::Tends(&[13, 6, 5]),
            Step::Idle,
            Step::Shows(2, 2, [0, 0, 0, 0, 0, 0, 0]),
            Step::Put(&[(20, Some(3)), (22, Some(3))]),
            Step::Tends(&[13, 6, 12]),
            Step::Put(&[(20, None), (22, None)]),
            Step::Tends(&[13, 7, 6]),
            Step::Idle,
            Step::Shows(4, 4, [0, 0, 0, 0, 0, 0, 0]),
        ],
        files: &[(10, 1)],
    },
    // The entries of a key fill more than one output, and stay in one.
    Course {
        limits: [0, 64, LARGE],
        steps: &[
            Step::Open(0),
            Step::Put(&[(20, Some(1))]),
            Step::Put(&[(20, Some(2))]),
            Step::Put(&[(20, Some(3)), (22, Some(3))]),
            Step::Tends(&[13, 5, 19]),
            Step::Idle,
            Step::Shows(0, 0, [0, 2, 0, 0, 0, 0, 0]),
        ],
        files: &[(3, 434), (5, 1), (6, 439), (7, 227)],
    },
];

const CHOICES: usize = 4;

static CHOSEN: [Course; CHOICES] = [
    // Tables of the next level that share one key with the table of level 0, first their greatest,
    // then two at once, of one the least; and none.
    Course {
        limits: [0, 200, LARGE],
        steps: &[
            Step::Put(&[(20, Some(1)), (22, Some(1)), (24, Some(1)), (26, Some(1))]),
            Step::Tends(&[13, 6, 19]),
            Step::Put(&[(22, Some(2)), (23, Some(2))]),
            Step::Tends(&[13, 7, 20]),
            Step::Put(&[(23, Some(3)), (24, Some(3))]),
            Step::Tends(&[13, 8, 21]),
            Step::Put(&[(25, Some(4))]),
            Step::Tends(&[13, 6, 12]),
            Step::Idle,
            Step::Shows(4, 4, [0, 4, 0, 0, 0, 0, 0]),
        ],
        files: &[(10, 333), (14, 334), (15, 227), (17, 1), (18, 229)],
    },
    // The tables of level 0 have a joint range, in which neither of their own has a key.
    Course {
        limits: [1, 64, LARGE],
        steps: &[
            Step::Put(&[(20, Some(1))]),
            Step::Tends(&[13]),
            Step::Idle,
            Step::Put(&[(24, Some(2))]),
            Step::Tends(&[13, 8, 20]),
            Step::Put(&[(18, Some(3))]),
            Step::Tends(&[13]),
            Step::Idle,
            Step::Put(&[(28, Some(4))]),
            Step::Tends(&[13, 10, 36]),
            Step::Idle,
            Step::Shows(4, 4, [0, 4, 0, 0, 0, 0, 0]),
        ],
        files: &[(13, 1), (14, 227), (15, 227), (16, 227), (17, 227)],
    },
    // Level 1 may have two tables of one key. Of three the one goes whose turn it is: the first,
    // then each next one, also where the key of the last one is back; behind the last the first
    // again, and the first behind an opening.
    Course {
        limits: [0, 64, 500],
        steps: &[
            Step::Put(&[(20, Some(1)), (22, Some(1)), (24, Some(1))]),
            Step::Tends(&[13, 6, 26, 5, 12]),
            Step::Put(&[(26, Some(2))]),
            Step::Tends(&[13, 6, 12, 5, 12]),
            Step::Put(&[(20, Some(3))]),
            Step::Tends(&[13, 6, 12, 5, 12]),
            Step::Put(&[(24, Some(4))]),
            Step::Tends(&[13, 6, 12, 5, 12]),
            Step::Put(&[(28, Some(5))]),
            Step::Tends(&[13, 6, 12, 5, 12]),
            Step::Put(&[(18, Some(6))]),
            Step::Tends(&[13, 6, 12, 5, 12]),
            Step::Put(&[(22, Some(7))]),
            Step::Tends(&[13, 6, 12, 6, 13]),
            Step::Idle,
            Step::Reopen,
            Step::Put(&[(18, Some(8))]),
            Step::Tends(&[13, 6, 12, 6, 13]),
            Step::Idle,
            Step::Shows(8, 8, [0, 2, 6, 0, 0, 0, 0]),
        ],
        files: &[
            (13, 227),
            (17, 227),
            (20, 227),
            (21, 227),
            (25, 227),
            (32, 227),
            (33, 227),
            (35, 1),
            (37, 227),
        ],
    },
    // Batches come between the parts of a merge: their tables are no inputs.
    Course {
        limits: [1, LARGE, LARGE],
        steps: &[
            Step::Fill(100, 256, 1),
            Step::Tends(&[19]),
            Step::Fill(100, 256, 2),
            Step::Tends(&[19, 8]),
            Step::Put(&[(20, Some(3))]),
            Step::Open(2),
            Step::Tends(&[13, 9]),
            Step::Put(&[(20, Some(4)), (100, None)]),
            Step::Open(3),
            Step::Tends(&[13, 22]),
            Step::Shows(2, 2, [2, 1, 0, 0, 0, 0, 0]),
        ],
        files: &[
            (7, 113),
            (8, 227),
            (9, 118),
            (10, 27_923),
            (11, 241),
            (12, 1),
        ],
    },
];

const LEVELS: usize = 4;

static LIMITED: [Course; LEVELS] = [
    // Level 1 is at its limit, and then over it.
    Course {
        limits: [0, 64, 227],
        steps: &[
            Step::Put(&[(20, Some(1))]),
            Step::Tends(&[13, 6, 12]),
            Step::Idle,
            Step::Put(&[(22, Some(2))]),
            Step::Tends(&[13, 6, 12, 5, 12]),
            Step::Idle,
            Step::Shows(2, 2, [0, 1, 1, 0, 0, 0, 0]),
        ],
        files: &[(8, 1), (9, 227), (10, 227)],
    },
    Course {
        limits: [0, 64, 226],
        steps: &[
            Step::Put(&[(20, Some(1))]),
            Step::Tends(&[13, 6, 12, 5, 12]),
            Step::Idle,
            Step::Shows(1, 1, [0, 0, 1, 0, 0, 0, 0]),
        ],
        files: &[(5, 1), (7, 227)],
    },
    // Level 2 is at ten times that limit, and then over it. The place of the last key is odd.
    Course {
        limits: [0, 64, 91],
        steps: &[
            Step::Put(&[(20, Some(1)), (22, Some(1)), (24, Some(1)), (27, Some(1))]),
            Step::Tends(&[13, 6, 33, 5, 12, 5, 12, 5, 12, 5, 12]),
            Step::Idle,
            Step::Shows(1, 1, [0, 0, 4, 0, 0, 0, 0]),
            Step::Put(&[(28, Some(2))]),
            Step::Tends(&[13, 6, 12, 5, 12, 5, 12]),
            Step::Idle,
            Step::Shows(2, 2, [0, 0, 4, 1, 0, 0, 0]),
        ],
        files: &[
            (11, 227),
            (12, 227),
            (13, 229),
            (15, 1),
            (17, 227),
            (18, 227),
        ],
    },
    // The logs up to the floor are given up: up to the committed number, then up to a snapshot.
    Course {
        limits: [2, LARGE, LARGE],
        steps: &[
            Step::Put(&[(20, Some(1))]),
            Step::Tends(&[13]),
            Step::Late(&[(20, Some(2))]),
            Step::Tends(&[13]),
            Step::Late(&[(22, Some(3))]),
            Step::Late(&[(22, None)]),
            Step::Tends(&[13, 8, 14]),
            Step::Shows(1, 1, [0, 1, 0, 0, 0, 0, 0]),
            Step::Commit,
            Step::Open(3),
            Step::Put(&[(24, Some(5))]),
            Step::Tends(&[13]),
            Step::Put(&[(24, Some(6))]),
            Step::Tends(&[13]),
            Step::Put(&[(24, Some(7))]),
            Step::Tends(&[13, 8, 14]),
            Step::Idle,
            Step::Shows(3, 2, [0, 2, 0, 0, 0, 0, 0]),
        ],
        files: &[
            (7, 133),
            (9, 113),
            (10, 453),
            (12, 113),
            (14, 113),
            (16, 1),
            (17, 439),
        ],
    },
];

#[test]
fn what_merges_drop(rt: HostRuntime) {
    run_all(&rt, rt.alloc(), &DROPPED);
}

#[test]
fn what_merges_take(rt: HostRuntime) {
    run_all(&rt, rt.alloc(), &CHOSEN);
}

#[test]
fn levels_and_logs_at_their_limits(rt: HostRuntime) {
    run_all(&rt, rt.alloc(), &LIMITED);
}
