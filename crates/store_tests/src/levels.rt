// Keys and marks whose versions lie in memory, in level 0 and in deeper levels. Flushed tables are
// copied, and an edit puts the copies in their place. Its bytes are those of the format.
use crate::cases::{holds_at, is_so};
use crate::items::{Marking, filled};
use crate::plain_store::{
    Change, PlainStore, Span, agreeing_pages, append, created, get_agrees, key_at, mark_of,
    marked_at, opened, tends,
};
use disk::{Disk, MemDisk};
use engine::Engine;
use record_log::Log;
use std::alloc::Global;
use std::process::Abort;

// With this limit each log that has a batch is due for a flush.
const LOG: u64 = 16;

// A batch: its mark or none, and keys from 20 to 30 with their new values.
type Appended = (Option<Marking>, &'static [Change]);

// Two batches behind one another are flushed together, and the last two stay in memory.
static BATCHES: [Appended; 12] = [
    // For level 2: all keys.
    (
        Some((1, 1)),
        &[(20, Some(1)), (22, Some(1)), (24, Some(1)), (30, Some(1))],
    ),
    (
        Some((9, 1)),
        &[(21, Some(2)), (22, None), (23, Some(2)), (25, Some(2))],
    ),
    // For level 1, the lower keys. Marks would stand behind the upper ones.
    (None, &[(20, Some(3)), (22, Some(3)), (21, None)]),
    (None, &[(20, Some(4)), (23, Some(4))]),
    // For level 1, the upper keys.
    (Some((1, 2)), &[(25, Some(5)), (30, None)]),
    (Some((2, 1)), &[(25, None), (28, Some(6))]),
    // In level 0.
    (Some((1, 3)), &[(20, None), (21, Some(7)), (28, Some(7))]),
    (Some((2, 2)), &[(20, Some(8)), (25, Some(8))]),
    // In level 0.
    (Some((1, 4)), &[(22, None), (24, Some(9)), (30, Some(9))]),
    (Some((2, 3)), &[(23, None), (28, None)]),
    // In memory.
    (Some((1, 5)), &[(20, Some(11)), (24, None), (25, None)]),
    (
        Some((3, 1)),
        &[(20, None), (21, None), (22, Some(12)), (26, Some(12))],
    ),
];

// The greatest key of a table: that of a row, or a client's.
#[derive(Clone, Copy)]
enum Greatest {
    Row(u16),
    Client(u64),
}

// A flushed table, where its copy goes, and its least and its greatest key.
struct Moved {
    from: u8,
    to: u8,
    level: u8,
    least: u16,
    greatest: Greatest,
}

static MOVED: [Moved; 3] = [
    Moved {
        from: 4,
        to: 10,
        level: 2,
        least: 20,
        greatest: Greatest::Client(9),
    },
    Moved {
        from: 6,
        to: 11,
        level: 1,
        least: 20,
        greatest: Greatest::Row(23),
    },
    Moved {
        from: 8,
        to: 12,
        level: 1,
        least: 25,
        greatest: Greatest::Client(2),
    },
];

/// The bytes of a file.
pub fn bytes_of(rt: &impl Abort, alloc: Global, disk: &mut MemDisk, file: u64) -> Vec<u8> {
    let len = disk.length(file).expect(rt, "a file");
    let mut bytes = filled(rt, alloc, 0, len as usize);
    disk.read(file, 0, &mut bytes).expect(rt, "the bytes");
    bytes
}

fn write(rt: &impl Abort, bytes: &mut Vec<u8>, more: &[u8]) {
    bytes.extend_from_slice(more).expect(rt, "memory");
}

fn write_key(rt: &impl Abort, alloc: Global, bytes: &mut Vec<u8>, place: u16) {
    let key = key_at(rt, alloc, place);
    // The space of rows.
    write(rt, bytes, &[0]);
    write(rt, bytes, &(key.as_bytes().len() as u16).to_be_bytes());
    write(rt, bytes, key.as_bytes());
}

fn write_greatest(rt: &impl Abort, alloc: Global, bytes: &mut Vec<u8>, key: Greatest) {
    match key {
        Greatest::Row(place) => write_key(rt, alloc, bytes, place),
        Greatest::Client(client) => {
            // The space of marks, and a key of eight bytes.
            write(rt, bytes, &[1, 0, 8]);
            write(rt, bytes, &client.to_be_bytes());
        }
    }
}

// Copies the table, and writes the line of the copy.
fn copy(rt: &impl Abort, alloc: Global, disk: &mut MemDisk, edit: &mut Vec<u8>, table: &Moved) {
    let bytes = bytes_of(rt, alloc, disk, u64::from(table.from));
    let file = u64::from(table.to);
    disk.write_at(file, 0, &bytes).expect(rt, "a write");
    disk.sync(file).expect(rt, "a sync");
    write(rt, edit, &[table.level, 0, 0, 0, 0, 0, 0, 0, table.to]);
    write(rt, edit, &(bytes.len() as u64).to_be_bytes());
    write_key(rt, alloc, edit, table.least);
    write_greatest(rt, alloc, edit, table.greatest);
}

// Next file 13, floor 0, 6 batches in tables, epoch 0, the id 1, and no log given up or added.
const NUMBERS: &[u8] = &[
    0, 0, 0, 0, 0, 0, 0, 13, 0, 0, 0, 0, 0, 0, 0, 0, 0, 0, 0, 0, 0, 0, 0, 6, //
    0, 0, 0, 0, 1, 0, 1, 0, 0, 0, 0,
];

// Records the edit that gives up the flushed tables and adds their copies.
fn move_tables(rt: &impl Abort, alloc: Global, disk: &mut MemDisk) {
    let mut edit = Vec::new(alloc);
    write(rt, &mut edit, NUMBERS);
    write(rt, &mut edit, &[0, 3]);
    for table in &MOVED {
        write(rt, &mut edit, &[0, 0, 0, 0, 0, 0, 0, 0, table.from]);
    }
    write(rt, &mut edit, &[0, 3]);
    for table in &MOVED {
        copy(rt, alloc, disk, &mut edit, table);
    }
    let opened = Log::open(alloc, disk, 1, 13).expect(rt, "the slot");
    let mut log = opened.log;
    log.append(disk, &edit).expect(rt, "a record");
}

// Appends these batches.
fn append_all(rt: &impl Abort, alloc: Global, engine: &mut Engine<MemDisk>, batches: &[Appended]) {
    for (mark, changes) in batches {
        append(rt, engine, &marked_at(rt, alloc, *mark, *changes));
    }
}

// Appends these batches, and flushes each two of them.
fn grow(rt: &impl Abort, alloc: Global, engine: &mut Engine<MemDisk>, batches: &[Appended]) {
    for pair in batches.chunks(2) {
        append_all(rt, alloc, engine, pair);
        is_so(rt, tends(rt, alloc, engine), "a flush");
    }
}

// The disk of the first batches, whose flushed tables have gone to their places.
fn moved_disk(rt: &impl Abort, alloc: Global) -> MemDisk {
    let mut engine = created(rt, alloc, MemDisk::new(alloc), LOG);
    grow(rt, alloc, &mut engine, &BATCHES[..6]);
    let mut disk = engine.into_disk();
    move_tables(rt, alloc, &mut disk);
    disk
}

static CLIENTS: [u64; 4] = [1, 2, 3, 9];

// Of each client the request of the last mark and the number of its batch; zeros for none.
type Marks = [(u64, u64); 4];

// After six batches, of which all are in the levels 1 and 2, after ten, and after all: those of the
// client 1 are then in memory and in each table of a mark, and that of the client 9 is in level 2.
static LAST: [Marks; 3] = [
    [(2, 5), (1, 6), (0, 0), (1, 2)],
    [(4, 9), (3, 10), (0, 0), (1, 2)],
    [(5, 11), (3, 10), (1, 12), (1, 2)],
];

// Fails the test unless these are the last marks of the clients.
fn has_marks(rt: &impl Abort, alloc: Global, engine: &mut Engine<MemDisk>, want: &Marks) {
    for (client, want) in CLIENTS.iter().zip(want) {
        let found = mark_of(rt, alloc, engine, *client);
        let is_so = found.0 == want.0 && found.1 == want.1;
        holds_at(rt, *client as usize, is_so);
    }
}

// Appends the other batches, and shows the last marks before, on the way and behind them.
fn grow_on(rt: &impl Abort, alloc: Global, engine: &mut Engine<MemDisk>) {
    has_marks(rt, alloc, engine, &LAST[0]);
    grow(rt, alloc, engine, &BATCHES[6..10]);
    has_marks(rt, alloc, engine, &LAST[1]);
    append_all(rt, alloc, engine, &BATCHES[10..]);
    has_marks(rt, alloc, engine, &LAST[2]);
}

// The store, and the same batches beside it.
fn store(rt: &impl Abort, alloc: Global) -> Engine<MemDisk> {
    let mut engine = opened(rt, alloc, moved_disk(rt, alloc), LOG);
    grow_on(rt, alloc, &mut engine);
    engine
}

fn plain(rt: &impl Abort, alloc: Global) -> PlainStore {
    let mut plain = PlainStore::new(rt, alloc);
    for (index, (_, changes)) in BATCHES.iter().enumerate() {
        plain.add(rt, (index as u64).saturating_add(1), *changes);
    }
    plain
}

// Ranges that are read both ways.
static RANGES: [(u16, Option<u16>); 4] = [
    (19, None),
    (20, Some(30)),
    (21, Some(25)),
    (24, Some(29)),
];

// Whether a range at this number has the rows of the plain store, in this direction.
fn walk_agrees(
    rt: &impl Abort,
    alloc: Global,
    engine: &mut Engine<MemDisk>,
    plain: &PlainStore,
    (at, (low, bound), backward): (u64, (u16, Option<u16>), bool),
) -> bool {
    let limit = 2;
    let span = Span {
        low,
        bound,
        backward,
        limit,
    };
    agreeing_pages(rt, alloc, engine, plain, (at, span)).is_some()
}

// Whether all look-ups and walks at this number have what the plain store has.
fn agrees(
    rt: &impl Abort,
    alloc: Global,
    engine: &mut Engine<MemDisk>,
    plain: &PlainStore,
    at: u64,
) -> bool {
    let mut all = true;
    for place in 19..32 {
        all = get_agrees(rt, alloc, engine, plain, (place, at)) && all;
    }
    for range in &RANGES {
        all = walk_agrees(rt, alloc, engine, plain, (at, *range, false))
            && walk_agrees(rt, alloc, engine, plain, (at, *range, true))
            && all;
    }
    all
}

// Fails the test unless the store has these tables, and agrees with the plain one at each number.
fn agrees_at_each(rt: &impl Abort, alloc: Global, engine: &mut Engine<MemDisk>) {
    let plain = plain(rt, alloc);
    is_so(rt, engine.tables() == [2, 2, 1, 0, 0, 0, 0], "the tables");
    for at in 0..13u64 {
        holds_at(rt, at as usize, agrees(rt, alloc, engine, &plain, at));
    }
}

#[test]
fn versions_in_memory_and_in_each_level(rt: HostRuntime) {
    let mut engine = store(&rt, rt.alloc());
    agrees_at_each(&rt, rt.alloc(), &mut engine);
    drop(engine.into_disk());
}
