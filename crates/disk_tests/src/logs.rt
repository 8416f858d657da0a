// The bytes of complete logs, openings, and failures that stay.
use crate::acts::{Act, Choice, FILE, REMOVE, SYNC, crash, is_content, run};
use crate::cases::{Case, all_hold, has_memory, is_so};
use crate::items::{filled, is_same};
use disk::{DiskError, MemDisk};
use record_log::{Log, LogError};
use std::alloc::Global;
use std::process::Abort;

// The number 1 and the batch that puts 1 at a.
const FIRST: &[u8] = &[0, 0, 0, 0, 0, 0, 0, 1, 0, 1, 1, 0, 1, b'a', 0, 1, b'1'];

// The number 2 and the batch that puts 2 at a.
const SECOND: &[u8] = &[0, 0, 0, 0, 0, 0, 0, 2, 0, 1, 1, 0, 1, b'a', 0, 1, b'2'];

// The log of the first record: an open gate, the length, the record, and a closed gate.
const LOG: &[u8] = &[
    1, 0, 0, 0, 0x11, 0, 0, 0, 0, 0, 0, 0, 1, 0, 1, 1, 0, 1, b'a', 0, 1, b'1', 0,
];

// The bytes that an append of the second record writes behind that gate.
const BEHIND: &[u8] = &[
    0, 0, 0, 0x11, 0, 0, 0, 0, 0, 0, 0, 2, 0, 1, 1, 0, 1, b'a', 0, 1, b'2', 0,
];

// The log of both records.
const BOTH: &[u8] = &[
    1, 0, 0, 0, 0x11, 0, 0, 0, 0, 0, 0, 0, 1, 0, 1, 1, 0, 1, b'a', 0, 1, b'1', 1, 0, 0, 0, 0x11, 0,
    0, 0, 0, 0, 0, 0, 2, 0, 1, 1, 0, 1, b'a', 0, 1, b'2', 0,
];

// The calls of a log, without their contracts. Want of memory ends the test.
fn try_open(
    rt: &impl Abort,
    alloc: Global,
    disk: &mut MemDisk,
    start: u64,
) -> Result<Log, LogError> {
    match Log::open(alloc, disk, FILE, start) {
        Ok(opened) => Ok(opened.log),
        Err(e) => {
            has_memory(rt, e == LogError::Memory);
            Err(e)
        }
    }
}

fn open(rt: &impl Abort, alloc: Global, disk: &mut MemDisk, start: u64) -> Log {
    try_open(rt, alloc, disk, start).expect(rt, "a log")
}

// The refusal of an append, if it is refused.
fn refusal(rt: &impl Abort, disk: &mut MemDisk, log: &mut Log, bytes: &[u8]) -> Option<LogError> {
    let refused = log.append(disk, bytes).err();
    has_memory(rt, refused == Some(LogError::Memory));
    refused
}

fn append(rt: &impl Abort, disk: &mut MemDisk, log: &mut Log, bytes: &[u8]) {
    log.append(disk, bytes).expect(rt, "an append");
}

fn log_of(rt: &impl Abort, alloc: Global, disk: &mut MemDisk, records: &[&[u8]]) -> Log {
    let mut log = Log::create(alloc, disk, FILE).expect(rt, "a log");
    for one in records {
        append(rt, disk, &mut log, one);
    }
    log
}

fn is_record(one: &[u8], want: Option<&&[u8]>) -> bool {
    match want {
        Some(want) => is_same(one, *want),
        None => false,
    }
}

// Whether the log has these records and no others.
fn has(rt: &impl Abort, alloc: Global, disk: &mut MemDisk, log: &Log, want: &[&[u8]]) -> bool {
    let mut same = log.len() == want.len();
    for index in 0..log.len() {
        let one = log.record(alloc, disk, index).expect(rt, "a record");
        same = same && is_record(&one, want.get(index));
    }
    same
}

// Whether the log has these records and no others after opening.
fn opens(rt: &impl Abort, alloc: Global, disk: &mut MemDisk, want: &[&[u8]]) -> bool {
    let log = open(rt, alloc, disk, 0);
    has(rt, alloc, disk, &log, want)
}

// Records, and the bytes of their log.
struct Logged(&'static [&'static [u8]], &'static [u8]);

impl Case for Logged {
    // Whether the log of these records has them, also after opening, and these bytes.
    fn holds(&self, rt: &impl Abort, alloc: Global) -> bool {
        let mut disk = MemDisk::new(alloc);
        let log = log_of(rt, alloc, &mut disk, self.0);
        let has = has(rt, alloc, &mut disk, &log, self.0);
        let opens = opens(rt, alloc, &mut disk, self.0);
        is_content(rt, &mut disk, FILE, Some(self.1)) && has && opens
    }
}

static LOGS: [Logged; 5] = [
    Logged(&[], &[0]),
    Logged(&[FIRST], LOG),
    Logged(&[FIRST, SECOND], BOTH),
    Logged(&[b""], &[1, 0, 0, 0, 0, 0]),
    Logged(
        &[b"", b"ab"],
        &[1, 0, 0, 0, 0, 1, 0, 0, 0, 2, b'a', b'b', 0],
    ),
];

#[test]
fn bytes_of_a_log(rt: HostRuntime) {
    all_hold(&rt, rt.alloc(), &LOGS);
}

// The first record is in the log, and the next is behind its gate.
fn begin_next(rt: &impl Abort, alloc: Global, disk: &mut MemDisk) {
    log_of(rt, alloc, disk, &[FIRST]);
    run(rt, disk, &[Act::Write(FILE, 23, BEHIND)]);
}

// The log of the first, and junk in place of the next.
const STOPPED: &[u8] = &[
    1, 0, 0, 0, 0x11, 0, 0, 0, 0, 0, 0, 0, 1, 0, 1, 1, 0, 1, b'a', 0, 1, b'1', 0, //
    1, 1, 1, 1, 1, 1, 1, 1, 1, 1, 1, 1, 1, 1, 1, 1, 1, 1, 1, 1, 1, 1,
];

// A stop then leaves these bytes, and that log has one record.
#[test]
fn a_stop_before_the_first_sync(rt: HostRuntime) {
    let mut disk = MemDisk::new(rt.alloc());
    begin_next(&rt, rt.alloc(), &mut disk);
    crash(&rt, rt.alloc(), &mut disk, Choice::Bytes(&[1]));
    let is_left = is_content(&rt, &mut disk, FILE, Some(STOPPED));
    let len = open(&rt, rt.alloc(), &mut disk, 0).len();
    drop(disk);
    is_so(&rt, is_left, "another content");
    is_so(&rt, len == 1, "other records");
}

// How the machine stops with the gate written, and what the log then has, and a last record.
struct AtGate(Choice, &'static [&'static [u8]]);

impl Case for AtGate {
    // Whether an append to the log that is opened then leads to these records.
    fn holds(&self, rt: &impl Abort, alloc: Global) -> bool {
        let mut disk = MemDisk::new(alloc);
        begin_next(rt, alloc, &mut disk);
        run(rt, &mut disk, &[SYNC, Act::Write(FILE, 22, &[1])]);
        crash(rt, alloc, &mut disk, self.0);
        let mut log = open(rt, alloc, &mut disk, 0);
        append(rt, &mut disk, &mut log, b"last");
        has(rt, alloc, &mut disk, &log, self.1)
    }
}

// What the log is without the second record, and with it.
const WITHOUT: &[&[u8]] = &[FIRST, b"last"];

const WITH: &[&[u8]] = &[FIRST, SECOND, b"last"];

// The bytes stand in the gate's place.
static GATES: [AtGate; 6] = [
    AtGate(Choice::Old, WITHOUT),
    AtGate(Choice::New, WITH),
    AtGate(Choice::Bytes(&[0]), WITHOUT),
    AtGate(Choice::Bytes(&[1]), WITH),
    AtGate(Choice::Bytes(&[2]), WITHOUT),
    AtGate(Choice::Bytes(&[255]), WITHOUT),
];

#[test]
fn a_stop_before_the_last_sync(rt: HostRuntime) {
    all_hold(&rt, rt.alloc(), &GATES);
}

const SHORT: Option<LogError> = Some(LogError::Disk(DiskError::Short));

// A disk with this file, synced.
fn disk_with(rt: &impl Abort, alloc: Global, bytes: &'static [u8]) -> MemDisk {
    let mut disk = MemDisk::new(alloc);
    run(rt, &mut disk, &[Act::Write(FILE, 0, bytes), SYNC]);
    disk
}

// A file, the place where its log begins, the refusal of opening, and the number of records.
struct Opening(Option<&'static [u8]>, u64, Option<LogError>, usize);

impl Opening {
    // The disk with the file, if there is one.
    fn disk(&self, rt: &impl Abort, alloc: Global) -> MemDisk {
        match self.0 {
            Some(bytes) => disk_with(rt, alloc, bytes),
            None => MemDisk::new(alloc),
        }
    }
}

impl Case for Opening {
    // Whether the disk's log is opened so.
    fn holds(&self, rt: &impl Abort, alloc: Global) -> bool {
        let mut disk = self.disk(rt, alloc);
        match try_open(rt, alloc, &mut disk, self.1) {
            Ok(log) => self.2.is_none() && log.len() == self.3,
            Err(e) => self.2 == Some(e),
        }
    }
}

static OPENINGS: [Opening; 22] = [
    Opening(None, 0, Some(LogError::Disk(DiskError::NoFile)), 0),
    // No gate.
    Opening(Some(&[]), 0, SHORT, 0),
    Opening(Some(&[9, 9]), 2, SHORT, 0),
    Opening(Some(&[9, 9]), 3, SHORT, 0),
    Opening(Some(&[0]), u64::MAX, SHORT, 0),
    // A closed gate ends the log, whatever follows it.
    Opening(Some(&[0]), 0, None, 0),
    Opening(Some(&[7]), 0, None, 0),
    Opening(Some(&[255, 0, 0]), 0, None, 0),
    Opening(Some(&[0, 1, 2]), 0, None, 0),
    Opening(Some(&[9, 1, 0]), 2, None, 0),
    // The log ends in the length.
    Opening(Some(&[1]), 0, SHORT, 0),
    Opening(Some(&[1, 0, 0, 0]), 0, SHORT, 0),
    // The log ends in the record.
    Opening(Some(&[1, 0, 0, 0, 1]), 0, SHORT, 0),
    Opening(Some(&[1, 0, 0, 0, 2, 0]), 0, SHORT, 0),
    Opening(Some(&[1, 255, 255, 255, 255, 0]), 0, SHORT, 0),
    // The log ends without its last gate.
    Opening(Some(&[1, 0, 0, 0, 0]), 0, SHORT, 0),
    Opening(Some(&[1, 0, 0, 0, 1, 5]), 0, SHORT, 0),
    Opening(Some(&[1, 0, 0, 0, 0, 1]), 0, SHORT, 0),
    // Records.
    Opening(Some(&[1, 0, 0, 0, 0, 0]), 0, None, 1),
    Opening(Some(&[1, 0, 0, 0, 1, 5, 0]), 0, None, 1),
    Opening(Some(&[1, 0, 0, 0, 1, 5, 6, 1, 1]), 0, None, 1),
    Opening(Some(&[1, 1, 0, 0, 0, 0, 1, 0, 0, 0, 1, 1, 0]), 1, None, 2),
];

#[test]
fn what_is_opened(rt: HostRuntime) {
    all_hold(&rt, rt.alloc(), &OPENINGS);
}

// A file, the place where its log begins, and the file after an append of one byte.
struct Appended(&'static [u8], u64, &'static [u8]);

impl Case for Appended {
    fn holds(&self, rt: &impl Abort, alloc: Global) -> bool {
        let mut disk = disk_with(rt, alloc, self.0);
        let mut log = open(rt, alloc, &mut disk, self.1);
        append(rt, &mut disk, &mut log, b"z");
        is_content(rt, &mut disk, FILE, Some(self.2))
    }
}

static APPENDS: [Appended; 4] = [
    Appended(&[0], 0, &[1, 0, 0, 0, 1, b'z', 0]),
    // Behind the closed gate the file has more.
    Appended(&[0, 9, 9], 0, &[1, 0, 0, 0, 1, b'z', 0]),
    Appended(
        &[7, 9, 9, 9, 9, 9, 9, 9, 8],
        0,
        &[1, 0, 0, 0, 1, b'z', 0, 9, 8],
    ),
    // The log begins behind other bytes.
    Appended(&[9, 1, 0], 2, &[9, 1, 1, 0, 0, 0, 1, b'z', 0]),
];

#[test]
fn an_append_writes_its_own_bytes(rt: HostRuntime) {
    all_hold(&rt, rt.alloc(), &APPENDS);
}

// The length of a record, the refusal of its append to a log of one record, and the number of
// records after one more append.
struct Sized(usize, Option<LogError>, usize);

impl Sized {
    // Whether the append is refused so, and the log then has so many records.
    fn grows(&self, rt: &impl Abort, alloc: Global, disk: &mut MemDisk) -> bool {
        let mut log = log_of(rt, alloc, disk, ONE);
        let bytes = filled(rt, alloc, 7, self.0);
        let refused = refusal(rt, disk, &mut log, &bytes);
        append(rt, disk, &mut log, b"last");
        refused == self.1 && log.len() == self.2
    }
}

impl Case for Sized {
    // Whether it is, and the log has so many records, also after opening.
    fn holds(&self, rt: &impl Abort, alloc: Global) -> bool {
        let mut disk = MemDisk::new(alloc);
        let grows = self.grows(rt, alloc, &mut disk);
        open(rt, alloc, &mut disk, 0).len() == self.2 && grows
    }
}

static SIZES: [Sized; 3] = [
    Sized(0, None, 3),
    Sized(16_777_216, None, 3),
    Sized(16_777_217, Some(LogError::TooLong), 2),
];

#[test]
fn sizes_at_their_edges(rt: HostRuntime) {
    all_hold(&rt, rt.alloc(), &SIZES);
}

const LOST: Option<LogError> = Some(LogError::Disk(DiskError::NoFile));

const FAILED: Option<LogError> = Some(LogError::Failed);

const ONE: &[&[u8]] = &[b"one"];

// Whether three appends to a log that lost its file are refused, and so is its record.
fn refuses(rt: &impl Abort, alloc: Global, disk: &mut MemDisk) -> bool {
    let mut log = log_of(rt, alloc, disk, ONE);
    run(rt, disk, &[REMOVE]);
    let first = refusal(rt, disk, &mut log, b"two") == LOST;
    let second = refusal(rt, disk, &mut log, b"two") == FAILED;
    let third = refusal(rt, disk, &mut log, b"two") == FAILED;
    let all = first && second && third;
    all && log.len() == 1 && log.record(alloc, disk, 0).err() == FAILED
}

// The log of a file that is removed refuses each call, until it is opened again.
#[test]
fn a_failure_stays_until_the_log_is_opened(rt: HostRuntime) {
    let mut disk = MemDisk::new(rt.alloc());
    is_so(&rt, refuses(&rt, rt.alloc(), &mut disk), "another answer");
    crash(&rt, rt.alloc(), &mut disk, Choice::Old);
    let opens = opens(&rt, rt.alloc(), &mut disk, ONE);
    drop(disk);
    is_so(&rt, opens, "other records");
}

// What becomes of the file below a log of one record, and why that record is then not read.
struct Below(Act, Option<LogError>);

impl Case for Below {
    fn holds(&self, rt: &impl Abort, alloc: Global) -> bool {
        let mut disk = MemDisk::new(alloc);
        let log = log_of(rt, alloc, &mut disk, ONE);
        run(rt, &mut disk, &[self.0]);
        log.len() == 1 && log.record(alloc, &mut disk, 0).err() == self.1
    }
}

static BELOW: [Below; 4] = [
    Below(REMOVE, LOST),
    Below(Act::Cut(FILE, 5), SHORT),
    Below(Act::Cut(FILE, 7), SHORT),
    // Without its closed gate the record is there.
    Below(Act::Cut(FILE, 8), None),
];

#[test]
fn a_record_of_a_file_that_is_cut(rt: HostRuntime) {
    all_hold(&rt, rt.alloc(), &BELOW);
}
