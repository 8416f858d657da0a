// A folder as a disk beside the disk in memory, which answers the same calls the same: rows of
// calls with their answers, and random calls of 40 files.
use crate::cases::{holds_at, is_so};
use crate::items::is_same;
use crate::scratch_folders::{are_same, disk_over, empty_folder, remove_folder, texts};
use crate::sequence::Sequence;
use disk::{Disk, DiskError, MemDisk};
use std::alloc::Global;
use std::process::Abort;

/// A call of a disk, which is named by its file. A read says which bytes it is to give.
#[derive(Clone, Copy)]
pub enum Call {
    Files(&'static [u64]),
    Length(u64),
    Read(u64, u64, &'static [u8]),
    Write(u64, u64, &'static [u8]),
    Cut(u64, u64),
    Sync(u64),
    Remove(u64),
}

/// The answer: the length, or 1 for the numbers and bytes that were named, or 0.
pub type Answer = Result<u64, DiskError>;

/// The device failed.
pub const FAILED: Answer = Err(DiskError::Failed);

/// The file is absent.
pub const NO_FILE: Answer = Err(DiskError::NoFile);

const SHORT: Answer = Err(DiskError::Short);

const LAST: u64 = (1 << 63) - 1;

static ABSENT: [(Call, Answer); 9] = [
    (Call::Files(&[]), Ok(1)),
    (Call::Length(7), NO_FILE),
    (Call::Read(7, 0, b""), NO_FILE),
    (Call::Read(7, LAST, b"ab"), NO_FILE),
    (Call::Write(7, 1, b"a"), NO_FILE),
    (Call::Cut(7, 0), NO_FILE),
    (Call::Sync(7), NO_FILE),
    (Call::Remove(7), NO_FILE),
    (Call::Files(&[]), Ok(1)),
];

static WRITES: [(Call, Answer); 12] = [
    (Call::Write(7, 0, b""), Ok(0)),
    (Call::Length(7), Ok(0)),
    (Call::Write(7, 0, b"abcdef"), Ok(0)),
    (Call::Write(7, 7, b"x"), SHORT),
    (Call::Write(7, 7, b""), SHORT),
    (Call::Write(7, 6, b"gh"), Ok(0)),
    (Call::Write(7, 2, b"XY"), Ok(0)),
    (Call::Write(7, LAST, b"x"), FAILED),
    (Call::Write(7, LAST, b""), SHORT),
    (Call::Length(7), Ok(8)),
    (Call::Sync(7), Ok(0)),
    (Call::Read(7, 0, b"abXYefgh"), Ok(1)),
];

static READS: [(Call, Answer); 9] = [
    (Call::Read(7, 5, b"fgh"), Ok(1)),
    (Call::Read(7, 5, b"fgh?"), SHORT),
    (Call::Read(7, 8, b""), Ok(1)),
    (Call::Read(7, 8, b"?"), SHORT),
    (Call::Read(7, 9, b""), SHORT),
    (Call::Read(7, LAST, b"??"), SHORT),
    (Call::Read(7, LAST + 1, b""), SHORT),
    (Call::Read(7, u64::MAX, b"?"), SHORT),
    (Call::Length(7), Ok(8)),
];

static CUTS: [(Call, Answer); 14] = [
    (Call::Cut(7, 9), SHORT),
    (Call::Cut(7, 8), Ok(0)),
    (Call::Cut(7, 3), Ok(0)),
    (Call::Write(7, 4, b"x"), SHORT),
    (Call::Write(7, 3, b"z"), Ok(0)),
    (Call::Read(7, 0, b"abXz"), Ok(1)),
    (Call::Write(12, 0, b"12"), Ok(0)),
    (Call::Write(0, 0, b"none"), Ok(0)),
    (Call::Write(u64::MAX, 0, b"last"), Ok(0)),
    (Call::Files(&[0, 7, 12, u64::MAX]), Ok(1)),
    (Call::Remove(7), Ok(0)),
    (Call::Length(7), NO_FILE),
    (Call::Write(7, 1, b"x"), NO_FILE),
    (Call::Files(&[0, 12, u64::MAX]), Ok(1)),
];

// Ends the test where memory is missing.
fn counted<T>(rt: &impl Abort, answer: Result<T, DiskError>) -> Result<T, DiskError> {
    is_so(rt, !matches!(answer, Err(DiskError::Memory)), "memory");
    answer
}

fn read<D: Disk>(disk: &mut D, file: u64, at: u64, want: &[u8]) -> Answer {
    let mut into = [0u8; 16];
    let Some(into) = into.get_mut(..want.len()) else {
        return Ok(0);
    };
    disk.read(file, at, into)?;
    Ok(is_same(into, want) as u64)
}

fn files<D: Disk>(disk: &mut D, want: &[u64]) -> Answer {
    let numbers = disk.files()?;
    Ok((numbers.as_slice() == want) as u64)
}

fn made<D: Disk>(disk: &mut D, call: Call) -> Answer {
    match call {
        Call::Files(want) => return files(disk, want),
        Call::Length(file) => return disk.length(file),
        Call::Read(file, at, want) => return read(disk, file, at, want),
        Call::Write(file, at, bytes) => disk.write_at(file, at, bytes)?,
        Call::Cut(file, length) => disk.cut(file, length)?,
        Call::Sync(file) => disk.sync(file)?,
        Call::Remove(file) => disk.remove(file)?,
    }
    Ok(0)
}

/// Makes the calls of the rows in turn. The failure names the first that has another answer.
pub fn rows_hold<D: Disk>(rt: &impl Abort, disk: &mut D, rows: &[(Call, Answer)]) {
    for (index, (call, want)) in rows.iter().enumerate() {
        let answer = counted(rt, made(disk, *call));
        holds_at(rt, index, answer == *want);
    }
}

fn all_rows_hold<D: Disk>(rt: &impl Abort, disk: &mut D) {
    rows_hold(rt, disk, &ABSENT);
    rows_hold(rt, disk, &WRITES);
    rows_hold(rt, disk, &READS);
    rows_hold(rt, disk, &CUTS);
}

#[test]
fn a_folder_answers_as_the_disk_in_memory(rt: HostRuntime) {
    all_rows_hold(&rt, &mut MemDisk::new(rt.alloc()));
    let folder = empty_folder(&rt, &rt, "rows");
    all_rows_hold(&rt, &mut disk_over(&rt, &rt, folder.as_str()));
    // Another disk over the folder finds what is there.
    let mut again = disk_over(&rt, &rt, folder.as_str());
    rows_hold(&rt, &mut again, &[(Call::Read(12, 0, b"12"), Ok(1))]);
    drop(again);
    remove_folder(&rt, &rt, folder.as_str());
}

// A call of one of 40 files, at random, with bytes of "0123456789abcdef".
fn random_call(numbers: &mut Sequence) -> Call {
    let file = numbers.next() as u64 % 40;
    let at = numbers.next() as u64 % 12;
    let bytes = &b"0123456789abcdef"[..numbers.next() as usize % 6];
    match numbers.next() % 12 {
        0 => Call::Sync(file),
        1 => Call::Remove(file),
        2 => Call::Cut(file, at),
        3 => Call::Length(file),
        4..=6 => Call::Read(file, at, bytes),
        7..=9 => Call::Write(file, 0, bytes),
        _ => Call::Write(file, at, bytes),
    }
}

// Whether both disks answer the same to so many calls. A read says whether it gives its bytes.
fn agree<C: Disk, D: Disk>(
    rt: &impl Abort,
    numbers: &mut Sequence,
    calls: usize,
    (first, second): (&mut C, &mut D),
) -> bool {
    for _ in 0..calls {
        let call = random_call(numbers);
        if counted(rt, made(first, call)) != counted(rt, made(second, call)) {
            return false;
        }
    }
    true
}

// Whether both disks have the same files with the same bytes.
fn have_same_files<C: Disk, D: Disk>(
    rt: &impl Abort,
    alloc: Global,
    (first, second): (&mut C, &mut D),
) -> bool {
    let want = texts(rt, alloc, first);
    are_same(&texts(rt, alloc, second), &want)
}

#[test]
fn random_calls_of_40_files_have_the_same_answers(rt: HostRuntime) {
    let folder = empty_folder(&rt, &rt, "random");
    let mut memory = MemDisk::new(rt.alloc());
    let mut numbers = Sequence::new(1);
    for round in 0..10 {
        let mut disk = disk_over(&rt, &rt, folder.as_str());
        holds_at(
            &rt,
            round,
            agree(&rt, &mut numbers, 400, (&mut memory, &mut disk)),
        );
        let have_same = have_same_files(&rt, rt.alloc(), (&mut memory, &mut disk));
        holds_at(&rt, round, have_same);
        drop(disk);
    }
    drop(memory);
    remove_folder(&rt, &rt, folder.as_str());
}
