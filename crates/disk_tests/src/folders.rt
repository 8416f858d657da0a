// What only a folder has of all disks: other names, things that are no files, few open files, a
// folder that is absent, files to read, and a lock.
use crate::cases::{holds_at, is_so};
use crate::folder_rows::{Answer, Call, FAILED, NO_FILE, rows_hold};
use crate::scratch_folders::{disk_over, empty_folder, remove_folder};
use dir_disk::{DirDisk, LockError};
use disk::Disk;
use std::fs;
use std::process::Abort;

// How many files this process has open.
fn open_files(rt: &impl Abort, host: &HostRuntime) -> usize {
    let entries = fs::read_dir(host, "/proc/self/fd").expect(rt, "what is open");
    entries.count()
}

// Writes each of the files 1 to 40, and reads all.
fn use_40_files<D: Disk>(rt: &impl Abort, disk: &mut D) {
    for file in 1..=40u64 {
        let bytes = file.to_be_bytes();
        disk.write_at(file, 0, &bytes).expect(rt, "a write");
    }
    for file in 1..=40u64 {
        let mut bytes = [0u8; 8];
        disk.read(file, 0, &mut bytes).expect(rt, "a read");
        is_so(
            rt,
            u64::from_be_bytes(bytes) == file,
            "the bytes of its own",
        );
    }
}

#[test]
fn a_folder_of_40_files_has_32_open(rt: HostRuntime) {
    let folder = empty_folder(&rt, &rt, "many");
    let before = open_files(&rt, &rt);
    let mut disk = disk_over(&rt, &rt, folder.as_str());
    use_40_files(&rt, &mut disk);
    let during = open_files(&rt, &rt);
    drop(disk);
    assert!(rt;
        during == before.saturating_add(32),
        "{before} files, then {during}"
    );
    assert!(rt;
        open_files(&rt, &rt) == before,
        "each is closed with the disk"
    );
    remove_folder(&rt, &rt, folder.as_str());
}

// Names of files that the disk has, and of others.
static NAMES: [&str; 14] = [
    "0",
    "9",
    "10",
    "18446744073709551615",
    "00",
    "09",
    "+9",
    "-9",
    " 9",
    "9 ",
    "9.tmp",
    "18446744073709551616",
    "LOCK",
    "\u{663}",
];

// A file of each of these names in the folder, of no bytes, and a folder with the name 11.
fn make_names(rt: &impl Abort, host: &HostRuntime, folder: &str) {
    for name in NAMES {
        let path = format!(in host.alloc(); "{folder}/{name}").expect(rt, "memory");
        fs::write(host, path, b"").expect(rt, "a file");
    }
    let path = format!(in host.alloc(); "{folder}/11").expect(rt, "memory");
    fs::create_dir(host, path).expect(rt, "a folder");
}

// A folder with a number for its name is in the way. Behind a sync that failed each call fails.
static IN_THE_WAY: [(Call, Answer); 10] = [
    (Call::Files(&[0, 9, 10, u64::MAX]), Ok(1)),
    (Call::Length(11), FAILED),
    (Call::Read(11, 0, b""), FAILED),
    (Call::Write(11, 0, b"x"), FAILED),
    (Call::Cut(11, 0), FAILED),
    (Call::Remove(11), FAILED),
    (Call::Files(&[0, 9, 10, u64::MAX]), Ok(1)),
    (Call::Sync(11), FAILED),
    (Call::Files(&[]), FAILED),
    (Call::Length(9), FAILED),
];

#[test]
fn other_names_are_ignored(rt: HostRuntime) {
    let folder = empty_folder(&rt, &rt, "names");
    make_names(&rt, &rt, folder.as_str());
    rows_hold(&rt, &mut disk_over(&rt, &rt, folder.as_str()), &IN_THE_WAY);
    remove_folder(&rt, &rt, folder.as_str());
}

// Of a folder that is absent.
static NO_FOLDER: [(Call, Answer); 7] = [
    (Call::Files(&[]), FAILED),
    (Call::Length(1), NO_FILE),
    (Call::Read(1, 0, b""), NO_FILE),
    (Call::Sync(1), NO_FILE),
    (Call::Remove(1), NO_FILE),
    (Call::Write(1, 1, b"x"), NO_FILE),
    (Call::Write(1, 0, b"x"), FAILED),
];

// Where a file is in the place of the folder.
static NO_PLACE: [(Call, Answer); 6] = [
    (Call::Files(&[]), FAILED),
    (Call::Length(1), FAILED),
    (Call::Read(1, 0, b""), FAILED),
    (Call::Sync(1), FAILED),
    (Call::Remove(1), FAILED),
    (Call::Write(1, 0, b"x"), FAILED),
];

// Of an empty path, which would be that of the root.
static NO_PATH: [(Call, Answer); 6] = [
    (Call::Files(&[]), FAILED),
    (Call::Length(1), FAILED),
    (Call::Read(1, 0, b""), FAILED),
    (Call::Write(1, 0, b"x"), FAILED),
    (Call::Sync(1), FAILED),
    (Call::Remove(1), FAILED),
];

#[test]
fn an_empty_path_is_refused(rt: HostRuntime) {
    let mut disk = disk_over(&rt, &rt, "");
    is_so(
        &rt,
        lock_of(&rt, &mut disk) == Err(LockError::Failed),
        "no lock",
    );
    rows_hold(&rt, &mut disk, &NO_PATH);
}

fn lock_of(rt: &impl Abort, disk: &mut DirDisk<HostRuntime>) -> Result<(), LockError> {
    let answer = disk.lock();
    is_so(rt, !matches!(answer, Err(LockError::Memory)), "memory");
    answer
}

#[test]
fn no_folder_is_made(rt: HostRuntime) {
    let folder = empty_folder(&rt, &rt, "absent");
    remove_folder(&rt, &rt, folder.as_str());
    let mut disk = disk_over(&rt, &rt, folder.as_str());
    rows_hold(&rt, &mut disk, &NO_FOLDER);
    assert!(rt;
        lock_of(&rt, &mut disk) == Err(LockError::Failed),
        "no folder is locked"
    );
    assert!(rt;
        !fs::exists(&rt, folder.as_str()).expect(&rt, "a path"),
        "it is absent"
    );
    fs::write(&rt, folder.as_str(), b"text").expect(&rt, "a file");
    rows_hold(&rt, &mut disk, &NO_PLACE);
    assert!(rt;
        lock_of(&rt, &mut disk) == Err(LockError::Failed),
        "a file is not locked"
    );
    drop(disk);
    fs::remove_file(&rt, folder.as_str()).expect(&rt, "a removal");
}

// What a disk to read answers, where file 1 has two bytes.
static TO_READ: [(Call, Answer); 11] = [
    (Call::Files(&[1]), Ok(1)),
    (Call::Write(1, 0, b"x"), FAILED),
    (Call::Write(1, 0, b""), FAILED),
    (Call::Write(2, 0, b"x"), FAILED),
    (Call::Cut(1, 0), FAILED),
    (Call::Remove(1), FAILED),
    (Call::Sync(1), Ok(0)),
    (Call::Sync(2), NO_FILE),
    (Call::Length(1), Ok(2)),
    (Call::Read(1, 0, b"ab"), Ok(1)),
    (Call::Files(&[1]), Ok(1)),
];

#[test]
fn a_disk_to_read_changes_nothing(rt: HostRuntime) {
    let folder = empty_folder(&rt, &rt, "to_read");
    let mut disk = disk_over(&rt, &rt, folder.as_str());
    rows_hold(&rt, &mut disk, &[(Call::Write(1, 0, b"ab"), Ok(0))]);
    drop(disk);
    let mut disk = DirDisk::to_read(rt, folder.as_str()).expect(&rt, "memory");
    rows_hold(&rt, &mut disk, &TO_READ);
    drop(disk);
    remove_folder(&rt, &rt, folder.as_str());
}

#[test]
fn a_folder_has_one_user(rt: HostRuntime) {
    let folder = empty_folder(&rt, &rt, "lock");
    let mut first = disk_over(&rt, &rt, folder.as_str());
    let mut second = disk_over(&rt, &rt, folder.as_str());
    let answers = [
        (lock_of(&rt, &mut first), Ok(())),
        (lock_of(&rt, &mut first), Ok(())),
        (lock_of(&rt, &mut second), Err(LockError::InUse)),
        (lock_of(&rt, &mut second), Err(LockError::InUse)),
    ];
    for (index, (answer, want)) in answers.iter().enumerate() {
        holds_at(&rt, index, answer == want);
    }
    // No file is made for the lock, and it is free again.
    rows_hold(&rt, &mut second, &[(Call::Files(&[]), Ok(1))]);
    drop(first);
    assert!(rt; lock_of(&rt, &mut second).is_ok(), "it is free again");
    drop(second);
    remove_folder(&rt, &rt, folder.as_str());
}
