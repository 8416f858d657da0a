// Stores whose batches bear marks, in memory, in level 0 and in deeper levels: no page and no
// look-up of a row shows them, and the last one of each client is found.
use crate::cases::{holds_at, is_so};
use crate::items::{Edits, Marking, config_of, is_same, key_of, marked_of, node};
use crate::levels::bytes_of;
use crate::plain_store::{append, commit, mark_of, tends};
use disk::MemDisk;
use engine::Engine;
use kv_types::{Limits, Page, Range};
use std::alloc::Global;
use std::process::Abort;

// The bytes of the clients 7 and 8, of which the first are the key of a row too: its value looks
// like a request.
const SEVEN: &[u8] = &[0, 0, 0, 0, 0, 0, 0, 7];

const EIGHT: &[u8] = &[0, 0, 0, 0, 0, 0, 0, 8];

// The batches and their marks. They leave two rows.
static BATCHES: [(Marking, Edits); 4] = [
    ((7, 1), &[(SEVEN, Some(b"12345678")), (b"b", Some(b"1"))]),
    ((8, 1), &[(b"a", Some(b"2"))]),
    ((7, 2), &[(b"a", Some(b"3"))]),
    ((9, 5), &[(b"b", None)]),
];

// ---- the store

// Each log that has a batch is due for a flush, and each table for a merge.
fn limits(rt: &impl Abort) -> Limits {
    let limits = Limits::new(16, 0, 64, 64, 1);
    limits.ok().expect(rt, "limits")
}

// The disk of a new store.
fn new_disk(rt: &impl Abort, alloc: Global) -> MemDisk {
    let config = config_of(rt, alloc, &[1]);
    let disk = MemDisk::new(alloc);
    let created = Engine::create(alloc, disk, node(rt, 1), &config, &limits(rt));
    created.ok().expect(rt, "an engine").into_disk()
}

// The store of this disk, of which no batch behind the floor is committed.
fn opened(rt: &impl Abort, alloc: Global, disk: MemDisk) -> Engine<MemDisk> {
    let opened = Engine::open(alloc, disk, &limits(rt));
    opened.ok().expect(rt, "an engine")
}

fn append_all(rt: &impl Abort, alloc: Global, engine: &mut Engine<MemDisk>) {
    for (mark, edits) in &BATCHES {
        append(rt, engine, &marked_of(rt, alloc, *mark, *edits));
    }
}

// ---- bytes

// The files behind the flush of the batch that puts `1` at `a` and bears the mark of client 7 and
// request 1, in hexadecimal: both slots, log 3, table 4, and log 5, which takes batch 2.
static FLUSHED: [&str; 5] = [
    "0100000000000000010000000101000000370000000000000004000000000000000000000000000000000000\
     0000010001000000010000000000000003000000000000000100000000010000005700000000000000060000\
     0000000000000000000000000001000000000100010000000100000000000000050000000000000002000000\
     0100000000000000000400000000000000ad00000161010008000000000000000700",
    "00",
    "0100000023000000000000000100000000000000000007000000000000000100010100016100013100",
    "0000000200000161000000000000000101000131010008000000000000000700000000000000010100080000\
     0000000000013b068de957c42979000000084202802120a41808bdcc5d85a3f36fe400000001000000000000\
     00000000003a010008000000000000000700000000000000011a73c96d20ec28fd000000000000004e000000\
     2b000000000000003a0000001400000000000000020000000243524c534d54303125c6412d3baa0f57",
    "00",
];

// The disk of the store with that batch, behind its flush.
fn flushed_disk(rt: &impl Abort, alloc: Global) -> MemDisk {
    let mut engine = opened(rt, alloc, new_disk(rt, alloc));
    let batch = marked_of(rt, alloc, (7, 1), &[(b"a", Some(b"1"))]);
    append(rt, &mut engine, &batch);
    is_so(rt, tends(rt, alloc, &mut engine), "a flush");
    engine.into_disk()
}

// Whether a file has these bytes.
fn is_spelled(rt: &impl Abort, alloc: Global, disk: &mut MemDisk, file: u64, want: &str) -> bool {
    let bytes = bytes_of(rt, alloc, disk, file);
    let spelled = hex::encode(alloc, &bytes).expect(rt, "memory");
    is_same(spelled.as_bytes(), want.as_bytes())
}

#[test]
fn a_flush_byte_by_byte(rt: HostRuntime) {
    let mut disk = flushed_disk(&rt, rt.alloc());
    for (index, want) in FLUSHED.iter().enumerate() {
        let file = (index as u64).saturating_add(1);
        holds_at(
            &rt,
            index,
            is_spelled(&rt, rt.alloc(), &mut disk, file, *want),
        );
    }
}

// ---- rows

// A page from the least key on without an upper bound.
fn page(
    rt: &impl Abort,
    alloc: Global,
    engine: &mut Engine<MemDisk>,
    (backward, limit): (bool, u32),
) -> Page {
    let range = Range::new(key_of(rt, alloc, b""), None, backward, limit);
    let range = range.ok().expect(rt, "a range");
    let at = engine.committed();
    engine.rows(alloc, at, &range).expect(rt, "a page")
}

// Whether the page has these keys, and says whether more are left.
fn has_keys(page: &Page, want: &[&[u8]], more: bool) -> bool {
    let mut same = 0usize;
    for (row, key) in page.rows().iter().zip(want) {
        same = same.wrapping_add(is_same(row.key(), *key) as usize);
    }
    same == want.len() && page.rows().len() == same && page.has_more() == more
}

// Pages by their direction and limit, their keys, and whether more are left.
type Shown = ((bool, u32), &'static [&'static [u8]], bool);

static PAGES: [Shown; 6] = [
    ((false, 9), &[SEVEN, b"a"], false),
    ((true, 9), &[b"a", SEVEN], false),
    ((false, 2), &[SEVEN, b"a"], false),
    ((true, 2), &[b"a", SEVEN], false),
    ((false, 1), &[SEVEN], true),
    ((true, 1), &[b"a"], true),
];

// Keys and their values.
static VALUES: [(&[u8], Option<&[u8]>); 4] = [
    (SEVEN, Some(b"12345678")),
    (EIGHT, None),
    (b"a", Some(b"3")),
    (b"b", None),
];

// Whether the key has this value.
fn has(
    rt: &impl Abort,
    alloc: Global,
    engine: &mut Engine<MemDisk>,
    key: &[u8],
    want: Option<&[u8]>,
) -> bool {
    let (at, key) = (engine.committed(), key_of(rt, alloc, key));
    match (engine.get(alloc, at, &key).expect(rt, "a read"), want) {
        (Some(found), Some(want)) => is_same(found.as_bytes(), want),
        (None, None) => true,
        _ => false,
    }
}

// Fails the test unless the store shows both rows, and nothing of a mark.
fn shows_rows(rt: &impl Abort, alloc: Global, engine: &mut Engine<MemDisk>) {
    for (index, (way, keys, more)) in PAGES.iter().enumerate() {
        let page = page(rt, alloc, engine, *way);
        holds_at(rt, index, has_keys(&page, *keys, *more));
    }
    for (index, (key, value)) in VALUES.iter().enumerate() {
        holds_at(rt, index, has(rt, alloc, engine, *key, *value));
    }
}

// The disk of the store, which shows its rows while its batches are in memory.
fn filled_disk(rt: &impl Abort, alloc: Global) -> MemDisk {
    let mut engine = opened(rt, alloc, new_disk(rt, alloc));
    append_all(rt, alloc, &mut engine);
    shows_rows(rt, alloc, &mut engine);
    engine.into_disk()
}

// Shows the rows, and works until nothing is due, and shows them behind each tend. All is then in
// deeper levels.
fn settle_rows(rt: &impl Abort, alloc: Global, engine: &mut Engine<MemDisk>) {
    for _ in 0..100u8 {
        shows_rows(rt, alloc, engine);
        if !tends(rt, alloc, engine) {
            is_so(rt, engine.tables()[0] == 0, "level 0 is empty");
            return;
        }
    }
    is_so(rt, false, "it never settles");
}

// The disk of the store, opened again and settled.
fn settled_disk(rt: &impl Abort, alloc: Global, disk: MemDisk) -> MemDisk {
    let mut engine = opened(rt, alloc, disk);
    commit(&mut engine);
    settle_rows(rt, alloc, &mut engine);
    engine.into_disk()
}

#[test]
fn marks_are_no_rows(rt: HostRuntime) {
    let disk = filled_disk(&rt, rt.alloc());
    let disk = settled_disk(&rt, rt.alloc(), disk);
    drop(settled_disk(&rt, rt.alloc(), disk));
}

// ---- the last mark of each client

// Of the clients 7 to 10, the request of the last mark and the number of its batch; zeros for none.
type Marks = [(u64, u64); 4];

// After so many batches.
static LAST: [Marks; 5] = [
    [(0, 0), (0, 0), (0, 0), (0, 0)],
    [(1, 1), (0, 0), (0, 0), (0, 0)],
    [(1, 1), (1, 2), (0, 0), (0, 0)],
    [(2, 3), (1, 2), (0, 0), (0, 0)],
    [(2, 3), (1, 2), (5, 4), (0, 0)],
];

// Fails the test unless the store has the last marks of its batches.
fn shows_marks(rt: &impl Abort, alloc: Global, engine: &mut Engine<MemDisk>) {
    let count = engine.count().get() as usize;
    for (index, want) in LAST.get(count).expect(rt, "a count").iter().enumerate() {
        let found = mark_of(rt, alloc, engine, (index as u64).saturating_add(7));
        holds_at(rt, index, found.0 == want.0 && found.1 == want.1);
    }
}

// Shows the marks, and works until nothing is due, and shows them behind each tend.
fn settle_marks(rt: &impl Abort, alloc: Global, engine: &mut Engine<MemDisk>) {
    for _ in 0..100u8 {
        shows_marks(rt, alloc, engine);
        if !tends(rt, alloc, engine) {
            return;
        }
    }
    is_so(rt, false, "it never settles");
}

// The disk of the store with the batch of a row more, which is in memory.
fn grown_disk(rt: &impl Abort, alloc: Global, disk: MemDisk, index: usize) -> MemDisk {
    let mut engine = opened(rt, alloc, disk);
    shows_marks(rt, alloc, &mut engine);
    let (mark, edits) = BATCHES.get(index).expect(rt, "a batch");
    append(rt, &mut engine, &marked_of(rt, alloc, *mark, *edits));
    shows_marks(rt, alloc, &mut engine);
    engine.into_disk()
}

// The disk of the store, opened again and settled. A merge drops the marks before the last one
// where the batches are committed, and else none: the floor stays below them.
fn merged_disk(rt: &impl Abort, alloc: Global, disk: MemDisk, commits: bool) -> MemDisk {
    let mut engine = opened(rt, alloc, disk);
    if commits {
        commit(&mut engine);
    }
    settle_marks(rt, alloc, &mut engine);
    engine.into_disk()
}

// A batch more is in memory, behind those that tables have, and then in tables of each level.
fn marks_stay(rt: &impl Abort, alloc: Global, commits: bool) {
    let mut disk = new_disk(rt, alloc);
    for index in 0..BATCHES.len() {
        disk = grown_disk(rt, alloc, disk, index);
        disk = merged_disk(rt, alloc, disk, commits);
    }
}

#[test]
fn the_last_mark_is_found(rt: HostRuntime) {
    for commits in [false, true] {
        marks_stay(&rt, rt.alloc(), commits);
    }
}
