// A disk that is armed with a fault.
use crate::acts::{Act, Choice, FILE, REMOVE, SYNC, arm, crash, is_content, mend, refusal_of, run};
use crate::cases::{Case, all_hold};
use crate::crashes::ABC;
use disk::{Crash, DiskError, Fault, Junk, MemDisk};
use std::alloc::Global;
use std::process::Abort;

const LENGTH: Act = Act::Length(FILE);

const READ: Act = Act::Read(FILE, 0, 1);

const MISSING: Option<DiskError> = Some(DiskError::NoFile);

const FAILED: Option<DiskError> = Some(DiskError::Failed);

// One call of each kind. Made on a disk that works, each has an effect or an answer.
static EACH: [Act; 7] = [
    Act::Files,
    LENGTH,
    READ,
    Act::Write(FILE, 0, b"ZZZZZZ"),
    Act::Cut(FILE, 0),
    SYNC,
    REMOVE,
];

// Whether this call and each one after it fail.
fn all_fail(disk: &mut MemDisk, call: Act) -> bool {
    let mut all = refusal_of(disk, call) == FAILED;
    for later in &EACH {
        all = refusal_of(disk, *later) == FAILED && all;
    }
    all
}

// Whether a struck call and all later ones fail, the fault has struck, and the disk works again and
// has this file.
fn is_struck(
    rt: &impl Abort,
    alloc: Global,
    row: &Struck,
    choice: Option<Choice>,
    want: Option<&[u8]>,
) -> bool {
    let mut disk = MemDisk::new(alloc);
    run(rt, &mut disk, row.0);
    arm(&mut disk, Fault::Fail(1));
    let is_failing = all_fail(&mut disk, row.1) && disk.has_struck();
    mend(rt, alloc, &mut disk, choice);
    let is_mended = !disk.has_struck() && is_content(rt, &mut disk, FILE, want);
    drop(disk);
    is_failing && is_mended
}

// Acts, and the call after them that a fault strikes. Then what a crash leaves by `Old`, by `New`,
// which a read also gives, and with the junk 1, 2, 3.
struct Struck(
    &'static [Act],
    Act,
    Option<&'static [u8]>,
    Option<&'static [u8]>,
    Option<&'static [u8]>,
);

impl Case for Struck {
    fn holds(&self, rt: &impl Abort, alloc: Global) -> bool {
        let is_read = is_struck(rt, alloc, self, None, self.3);
        let is_old = is_struck(rt, alloc, self, Some(Choice::Old), self.2);
        let is_new = is_struck(rt, alloc, self, Some(Choice::New), self.3);
        let junk = Choice::Bytes(&[1, 2, 3]);
        let is_junk = is_struck(rt, alloc, self, Some(junk), self.4);
        is_read && is_old && is_new && is_junk
    }
}

// Synced, and then one byte of it written.
const TOUCHED: &[Act] = &[ABC, SYNC, Act::Write(FILE, 1, b"X")];

static STRUCK: [Struck; 20] = [
    // What was written or cut is unsynced.
    Struck(&[], ABC, None, Some(b"abc"), Some(&[1, 2, 3])),
    Struck(
        &[ABC, SYNC],
        Act::Write(FILE, 1, b"X"),
        Some(b"abc"),
        Some(b"aXc"),
        Some(&[b'a', 1, b'c']),
    ),
    Struck(
        &[ABC, SYNC],
        Act::Write(FILE, 3, b"de"),
        Some(b"abc"),
        Some(b"abcde"),
        Some(&[b'a', b'b', b'c', 1, 2]),
    ),
    Struck(
        &[ABC, SYNC],
        Act::Cut(FILE, 1),
        Some(b"abc"),
        Some(b"a"),
        Some(b"a"),
    ),
    // Nothing was made durable.
    Struck(&[ABC], SYNC, None, Some(b"abc"), Some(&[1, 2, 3])),
    Struck(
        TOUCHED,
        SYNC,
        Some(b"abc"),
        Some(b"aXc"),
        Some(&[b'a', 1, b'c']),
    ),
    // What was removed may be back.
    Struck(TOUCHED, REMOVE, Some(b"abc"), None, None),
    Struck(&[ABC], REMOVE, None, None, None),
    // What reads changes nothing.
    Struck(
        TOUCHED,
        READ,
        Some(b"abc"),
        Some(b"aXc"),
        Some(&[b'a', 1, b'c']),
    ),
    Struck(
        TOUCHED,
        LENGTH,
        Some(b"abc"),
        Some(b"aXc"),
        Some(&[b'a', 1, b'c']),
    ),
    Struck(
        TOUCHED,
        Act::Files,
        Some(b"abc"),
        Some(b"aXc"),
        Some(&[b'a', 1, b'c']),
    ),
    // A call that would have been refused has no effect.
    Struck(&[], Act::Write(FILE, 1, b"X"), None, None, None),
    Struck(&[], Act::Cut(FILE, 0), None, None, None),
    Struck(&[], SYNC, None, None, None),
    Struck(&[], REMOVE, None, None, None),
    Struck(&[], READ, None, None, None),
    Struck(&[], LENGTH, None, None, None),
    Struck(
        &[ABC, SYNC],
        Act::Write(FILE, 4, b"X"),
        Some(b"abc"),
        Some(b"abc"),
        Some(b"abc"),
    ),
    Struck(
        &[ABC, SYNC],
        Act::Cut(FILE, 4),
        Some(b"abc"),
        Some(b"abc"),
        Some(b"abc"),
    ),
    Struck(
        &[ABC, SYNC],
        Act::Write(FILE, u64::MAX, b"X"),
        Some(b"abc"),
        Some(b"abc"),
        Some(b"abc"),
    ),
];

#[test]
fn what_a_struck_call_leaves(rt: HostRuntime) {
    all_hold(&rt, rt.alloc(), &STRUCK);
}

// A fault of a table.
#[derive(Clone, Copy)]
enum Kind {
    None,
    Fail(u64),
    Stop(u64),
}

fn fault_of(kind: Kind) -> Fault {
    match kind {
        Kind::None => Fault::None,
        Kind::Fail(call) => Fault::Fail(call),
        Kind::Stop(call) => Fault::Stop(call, Junk::Old),
    }
}

// The refusals of three calls.
type Answers = (Option<DiskError>, Option<DiskError>, Option<DiskError>);

// The refusals of a removal that is refused, a write out of range and a write.
fn answers(disk: &mut MemDisk) -> Answers {
    (
        refusal_of(disk, REMOVE),
        refusal_of(disk, Act::Write(FILE, u64::MAX, b"X")),
        refusal_of(disk, ABC),
    )
}

// A fault, what the three calls then answer on a disk that was armed twice, the last time with this
// fault, and whether it has struck. Each call counts, whatever it answers. The write out of range
// fails with no fault.
struct Counted(Kind, Answers, bool);

impl Case for Counted {
    fn holds(&self, _rt: &impl Abort, alloc: Global) -> bool {
        let mut disk = MemDisk::new(alloc);
        arm(&mut disk, Fault::Fail(3));
        let _missing = refusal_of(&mut disk, READ);
        arm(&mut disk, fault_of(self.0));
        let is_answer = answers(&mut disk) == self.1 && disk.has_struck() == self.2;
        drop(disk);
        is_answer
    }
}

static COUNTED: [Counted; 9] = [
    Counted(Kind::None, (MISSING, FAILED, None), false),
    Counted(Kind::Fail(0), (MISSING, FAILED, None), false),
    Counted(Kind::Fail(1), (FAILED, FAILED, FAILED), true),
    Counted(Kind::Fail(2), (MISSING, FAILED, FAILED), true),
    Counted(Kind::Fail(3), (MISSING, FAILED, FAILED), true),
    Counted(Kind::Fail(4), (MISSING, FAILED, None), false),
    Counted(Kind::Fail(u64::MAX), (MISSING, FAILED, None), false),
    Counted(Kind::Stop(0), (MISSING, FAILED, None), false),
    Counted(Kind::Stop(2), (MISSING, FAILED, FAILED), true),
];

#[test]
fn the_call_that_a_fault_strikes(rt: HostRuntime) {
    all_hold(&rt, rt.alloc(), &COUNTED);
}
