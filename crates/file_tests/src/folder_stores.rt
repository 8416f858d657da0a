// A store in a folder: the bytes of its files, what an opening finds, and an opening that leaves
// each byte as it was.
use crate::cases::{holds_at, is_so};
use crate::scratch_folders::{Text, are_same, disk_over, empty_folder, remove_folder, texts};
use crate::stores::{append, batch_at, created, has_at, opened, tends};
use dir_disk::{DirDisk, Unchanged};
use disk::{Disk, DiskError, MemDisk};
use engine::Engine;
use kv_types::Limits;
use std::alloc::Global;
use std::process::Abort;

const BATCHES: u16 = 60;

// No version names this file.
const UNNAMED: u64 = 900;

// With these each log that has a batch is due for a flush, and five tables for a merge.
fn limits(rt: &impl Abort) -> Limits {
    let limits = Limits::new(16, 4, 2_097_152, 10_485_760, 1_024);
    limits.ok().expect(rt, "limits")
}

// Count, floor, kept number and the tables of each level.
type Facts = ([u64; 3], [u64; 7]);

fn facts_of<D: Disk + Drop>(engine: &Engine<D>) -> Facts {
    let numbers = [
        engine.count().get(),
        engine.floor().get(),
        engine.kept().get(),
    ];
    (numbers, engine.tables())
}

// Tends until nothing is due.
fn settle<D: Disk + Drop>(rt: &impl Abort, alloc: Global, engine: &mut Engine<D>) {
    for _ in 0..10 {
        if !tends(rt, alloc, engine) {
            return;
        }
    }
    is_so(rt, false, "an end of the tends");
}

// A store of 60 batches of one put each, whose last log is not flushed.
fn filled_store<D: Disk + Drop>(rt: &impl Abort, alloc: Global, disk: D) -> Engine<D> {
    let mut engine = created(rt, alloc, disk, &limits(rt));
    for place in 0..BATCHES {
        settle(rt, alloc, &mut engine);
        let batch = batch_at(rt, alloc, &[(place, Some(place))]);
        append(rt, &mut engine, &batch);
    }
    engine
}

// Whether each key has its value.
fn has_all<D: Disk + Drop>(rt: &impl Abort, alloc: Global, engine: &mut Engine<D>) -> bool {
    let mut all = true;
    for place in 0..BATCHES {
        all = all && has_at(rt, alloc, engine, (place, Some(place)), BATCHES as u64);
    }
    all
}

// The facts of a store in this folder, after its creation.
fn store_in(rt: &impl Abort, host: &HostRuntime, folder: &str) -> Facts {
    let engine = filled_store(rt, host.alloc(), disk_over(rt, host, folder));
    let facts = facts_of(&engine);
    drop(engine.into_disk());
    facts
}

// Whether the files of the folder are those of the same store in memory.
fn is_as_in_memory(rt: &impl Abort, host: &HostRuntime, folder: &str) -> bool {
    let alloc = host.alloc();
    let mut memory = filled_store(rt, alloc, MemDisk::new(alloc)).into_disk();
    let want = texts(rt, alloc, &mut memory);
    drop(memory);
    are_same(&texts(rt, alloc, &mut disk_over(rt, host, folder)), &want)
}

#[test]
fn a_store_in_a_folder_is_opened_again(rt: HostRuntime) {
    let folder = empty_folder(&rt, &rt, "store");
    let facts = store_in(&rt, &rt, folder.as_str());
    is_so(
        &rt,
        facts.0[0] == BATCHES as u64 && facts.1[1] > 0,
        "batches and merged tables",
    );
    is_so(
        &rt,
        is_as_in_memory(&rt, &rt, folder.as_str()),
        "the bytes of each file",
    );
    let mut engine = opened(
        &rt,
        rt.alloc(),
        disk_over(&rt, &rt, folder.as_str()),
        &limits(&rt),
    );
    is_so(&rt, facts_of(&engine) == facts, "the same numbers");
    is_so(
        &rt,
        has_all(&rt, rt.alloc(), &mut engine),
        "the value of each key",
    );
    drop(engine.into_disk());
    remove_folder(&rt, &rt, folder.as_str());
}

// Opens the store, whatever is asked of the disk inside, and reads it.
fn look_at(rt: &impl Abort, host: &HostRuntime, folder: &str) -> Facts {
    let alloc = host.alloc();
    let disk = DirDisk::to_read(*host, folder).expect(rt, "memory");
    let mut engine = opened(rt, alloc, Unchanged::new(alloc, disk), &limits(rt));
    is_so(rt, has_all(rt, alloc, &mut engine), "the value of each key");
    let facts = facts_of(&engine);
    drop(engine.into_disk());
    facts
}

// The files of the folder with their bytes.
fn folder_texts(rt: &impl Abort, host: &HostRuntime, folder: &str) -> Vec<Text> {
    texts(rt, host.alloc(), &mut disk_over(rt, host, folder))
}

// Gives the folder a file that no version names.
fn put_unnamed(rt: &impl Abort, host: &HostRuntime, folder: &str) {
    let written = disk_over(rt, host, folder).write_at(UNNAMED, 0, b"no version names it");
    is_so(rt, written.is_ok(), "a write");
}

// Fails the test unless an opening that changes nothing finds these facts, and leaves each byte.
fn is_left(rt: &impl Abort, host: &HostRuntime, folder: &str, facts: Facts) {
    let before = folder_texts(rt, host, folder);
    is_so(rt, look_at(rt, host, folder) == facts, "the same numbers");
    let after = folder_texts(rt, host, folder);
    is_so(rt, are_same(&after, &before), "each byte");
}

// How many files a folder has.
fn file_count(rt: &impl Abort, host: &HostRuntime, folder: &str) -> usize {
    disk_over(rt, host, folder)
        .files()
        .expect(rt, "files")
        .len()
}

// Fails the test unless an opening removes one file.
fn removes_one(rt: &impl Abort, host: &HostRuntime, folder: &str) {
    let before = file_count(rt, host, folder);
    let engine = opened(rt, host.alloc(), disk_over(rt, host, folder), &limits(rt));
    drop(engine.into_disk());
    let after = file_count(rt, host, folder).saturating_add(1);
    is_so(rt, after == before, "the file without a name is gone");
}

#[test]
fn an_unchanged_store_keeps_each_byte(rt: HostRuntime) {
    let folder = empty_folder(&rt, &rt, "unchanged");
    let facts = store_in(&rt, &rt, folder.as_str());
    put_unnamed(&rt, &rt, folder.as_str());
    is_left(&rt, &rt, folder.as_str(), facts);
    removes_one(&rt, &rt, folder.as_str());
    remove_folder(&rt, &rt, folder.as_str());
}

// What an unchanged disk answers, whose disk has file 1 with two bytes and file 2 with none.
fn unchanged_answers(disk: &mut Unchanged<MemDisk>) -> [Result<(), DiskError>; 9] {
    let mut into = [0u8; 2];
    [
        disk.sync(1),
        disk.sync(3),
        disk.write_at(1, 0, b"x"),
        disk.cut(1, 0),
        disk.read(1, 0, &mut into),
        disk.remove(1),
        disk.remove(1),
        disk.sync(1),
        disk.read(1, 0, &mut into),
    ]
}

const UNCHANGED: [Result<(), DiskError>; 9] = [
    Ok(()),
    Err(DiskError::NoFile),
    Err(DiskError::Failed),
    Err(DiskError::Failed),
    Ok(()),
    Ok(()),
    Err(DiskError::NoFile),
    Err(DiskError::NoFile),
    Err(DiskError::NoFile),
];

#[test]
fn an_unchanged_disk_leaves_out_what_is_removed(rt: HostRuntime) {
    let alloc = rt.alloc();
    let mut memory = MemDisk::new(alloc);
    memory.write_at(1, 0, b"ab").expect(&rt, "a write");
    memory.write_at(2, 0, b"").expect(&rt, "a write");
    let before = texts(&rt, alloc, &mut memory);
    let mut disk = Unchanged::new(alloc, memory);
    let answers = unchanged_answers(&mut disk);
    for (index, (answer, want)) in answers.iter().zip(&UNCHANGED).enumerate() {
        holds_at(&rt, index, answer == want);
    }
    is_so(&rt, disk.length(1) == Err(DiskError::NoFile), "no length");
    is_so(
        &rt,
        disk.files().expect(&rt, "files").as_slice() == [2].as_slice(),
        "one file",
    );
    is_so(
        &rt,
        are_same(&texts(&rt, alloc, &mut disk.into_disk()), &before),
        "each byte",
    );
}
