// Batches written and read as bytes, and what is made at the edges.
use crate::cases::{Case, all_hold, has_memory, holds_at, is_so};
use crate::items::{
    Marking, batch_of, deletion, deletions, is_same, key_of, long_batch, marked_of, try_key,
    try_value,
};
use crate::ranges::try_range;
use kv_types::{Batch, KvError, Value, value_at};
use std::alloc::Global;
use std::process::Abort;

/// Whether this is the value, if there is one.
fn is_value(found: Option<&Value>, want: Option<&[u8]>) -> bool {
    match (found, want) {
        (Some(value), Some(bytes)) => is_same(value.as_bytes(), bytes),
        (None, None) => true,
        _ => false,
    }
}

/// Whether the batch bears this mark, or none.
fn bears(batch: &Batch, want: Option<Marking>) -> bool {
    match batch.mark() {
        Some(mark) => want == Some((mark.client, mark.request)),
        None => want.is_none(),
    }
}

/// Whether the batch has one edit, of the key `a`, with this value.
fn is_edit(batch: &Batch, value: Option<&[u8]>) -> bool {
    match batch.edits() {
        [edit] => is_same(edit.key().as_bytes(), b"a") && is_value(edit.value(), value),
        _ => false,
    }
}

/// The spelling of a batch, which is dropped.
fn spelled(rt: &impl Abort, alloc: Global, batch: Batch) -> Vec<u8> {
    let bytes = batch.to_bytes(alloc);
    drop(batch);
    bytes.expect(rt, "memory")
}

/// Whether the batch is spelled so.
fn is_spelled(rt: &impl Abort, alloc: Global, batch: Batch, want: &[u8]) -> bool {
    is_same(&spelled(rt, alloc, batch), want)
}

/// The batch that these bytes spell.
fn read(rt: &impl Abort, alloc: Global, bytes: &[u8]) -> Batch {
    Batch::from_bytes(alloc, bytes).expect(rt, "a batch")
}

/// A mark or none, a value of the key `a`, and how a batch of this edit is spelled.
struct Spelling(Option<Marking>, Option<&'static [u8]>, &'static [u8]);

/// The batch of one edit of the key `a`.
fn batch_of_a(
    rt: &impl Abort,
    alloc: Global,
    mark: Option<Marking>,
    value: Option<&[u8]>,
) -> Batch {
    match mark {
        Some(mark) => marked_of(rt, alloc, mark, &[(b"a", value)]),
        None => batch_of(rt, alloc, &[(b"a", value)]),
    }
}

impl Case for Spelling {
    fn holds(&self, rt: &impl Abort, alloc: Global) -> bool {
        let batch = read(rt, alloc, self.2);
        let is_read = is_edit(&batch, self.1) && bears(&batch, self.0);
        drop(batch);
        let batch = batch_of_a(rt, alloc, self.0, self.1);
        let is_made = bears(&batch, self.0);
        is_spelled(rt, alloc, batch, self.2) && is_read && is_made
    }
}

/// The greatest client and request.
const LAST: u64 = (1 << 63) - 1;

static SPELLINGS: [Spelling; 4] = [
    Spelling(None, Some(b"1"), &[0, 1, 1, 0, 1, 0x61, 0, 1, 0x31]),
    Spelling(None, None, &[0, 1, 2, 0, 1, 0x61]),
    Spelling(
        Some((7, 1)),
        Some(b"1"),
        &[
            0, 0, 0, 0, 0, 0, 0, 0, 0, 7, 0, 0, 0, 0, 0, 0, 0, 1, 0, 1, 1, 0, 1, 0x61, 0, 1, 0x31,
        ],
    ),
    Spelling(
        Some((LAST, LAST)),
        None,
        &[
            0, 0, 127, 255, 255, 255, 255, 255, 255, 255, 127, 255, 255, 255, 255, 255, 255, 255,
            0, 1, 2, 0, 1, 0x61,
        ],
    ),
];

#[test]
fn one_edit_is_spelled_so(rt: HostRuntime) {
    all_hold(&rt, rt.alloc(), &SPELLINGS);
}

/// A value at an edge of the accepted range.
enum Made {
    /// A key of this length.
    Key(usize),
    /// A value of this length.
    Value(usize),
    /// A batch of this many deletions, with a mark or without one.
    Deletions(Option<Marking>, usize),
    /// Three puts of the longest value, and one of this length: 49,178 bytes and the value, and 18
    /// where the batch bears a mark.
    LongBatch(Option<Marking>, usize),
    /// A batch of this spelling.
    Spelled(&'static [u8]),
    /// A range of this many rows.
    Range(u32),
}

/// The batch that is spelled in 49,178 bytes and this many more, and 18 for a mark.
fn four_puts(
    rt: &impl Abort,
    alloc: Global,
    mark: Option<Marking>,
    last: usize,
) -> Result<Batch, KvError> {
    let lens = [(1, 16384), (1, 16384), (1, 16384), (1, last)];
    long_batch(rt, alloc, mark, &lens)
}

/// The refusal, if it is refused.
fn refusal_of(rt: &impl Abort, alloc: Global, made: &Made) -> Option<KvError> {
    match made {
        Made::Key(len) => try_key(rt, alloc, *len).err(),
        Made::Value(len) => try_value(rt, alloc, *len).err(),
        Made::Deletions(mark, count) => deletions(rt, alloc, *mark, b"a", *count).err(),
        Made::LongBatch(mark, last) => four_puts(rt, alloc, *mark, *last).err(),
        Made::Spelled(bytes) => Batch::from_bytes(alloc, *bytes).err(),
        Made::Range(limit) => try_range(rt, alloc, None, false, *limit).err(),
    }
}

/// What is made, and the refusal.
struct Edge(Made, Option<KvError>);

impl Case for Edge {
    fn holds(&self, rt: &impl Abort, alloc: Global) -> bool {
        let found = refusal_of(rt, alloc, &self.0);
        has_memory(rt, found == Some(KvError::Memory));
        found == self.1
    }
}

const BAD_BYTES: Option<KvError> = Some(KvError::BadBytes);

const BAD_LIMIT: Option<KvError> = Some(KvError::BadLimit);

static EDGES: [Edge; 27] = [
    Edge(Made::Key(0), None),
    Edge(Made::Key(1024), None),
    Edge(Made::Key(1025), Some(KvError::KeyTooLong)),
    Edge(Made::Value(0), None),
    Edge(Made::Value(16384), None),
    Edge(Made::Value(16385), Some(KvError::ValueTooLong)),
    Edge(Made::Deletions(None, 0), Some(KvError::NoEdits)),
    Edge(Made::Deletions(None, 1), None),
    Edge(Made::Deletions(None, 256), None),
    Edge(Made::Deletions(None, 257), Some(KvError::TooManyEdits)),
    Edge(Made::LongBatch(None, 16358), None),
    Edge(Made::LongBatch(None, 16359), Some(KvError::BatchTooLong)),
    Edge(Made::Range(0), BAD_LIMIT),
    Edge(Made::Range(1), None),
    Edge(Made::Range(1024), None),
    Edge(Made::Range(1025), BAD_LIMIT),
    Edge(Made::Range(u32::MAX), BAD_LIMIT),
    // What spells no batch. Those that begin with no edits and a mark stand in `MARKED`.
    Edge(Made::Spelled(&[]), BAD_BYTES),
    Edge(Made::Spelled(&[0]), BAD_BYTES),
    Edge(Made::Spelled(&[0, 0]), BAD_BYTES),
    Edge(Made::Spelled(&[0, 1]), BAD_BYTES),
    Edge(Made::Spelled(&[0, 1, 0, 0, 0]), BAD_BYTES),
    Edge(Made::Spelled(&[0, 1, 3, 0, 0]), BAD_BYTES),
    Edge(Made::Spelled(&[0, 1, 2, 0, 1]), BAD_BYTES),
    Edge(Made::Spelled(&[0, 1, 1, 0, 0]), BAD_BYTES),
    Edge(Made::Spelled(&[0, 2, 2, 0, 0]), BAD_BYTES),
    Edge(Made::Spelled(&[0, 1, 2, 0, 0, 0]), BAD_BYTES),
];

#[test]
fn what_is_made_at_the_edges(rt: HostRuntime) {
    all_hold(&rt, rt.alloc(), &EDGES);
}

const SEVEN: Option<Marking> = Some((7, 1));

const BAD_MARK: Option<KvError> = Some(KvError::BadMark);

// Batches that bear a mark. A bad mark is refused before anything else.
static MARKED: [Edge; 18] = [
    Edge(Made::Deletions(Some((1, 1)), 1), None),
    Edge(Made::Deletions(Some((LAST, LAST)), 1), None),
    Edge(Made::Deletions(Some((0, 1)), 1), BAD_MARK),
    Edge(Made::Deletions(Some((1, 0)), 1), BAD_MARK),
    Edge(Made::Deletions(Some((LAST + 1, 1)), 1), BAD_MARK),
    Edge(Made::Deletions(Some((1, LAST + 1)), 1), BAD_MARK),
    Edge(Made::Deletions(Some((u64::MAX, u64::MAX)), 1), BAD_MARK),
    Edge(Made::Deletions(Some((0, 1)), 0), BAD_MARK),
    Edge(Made::Deletions(Some((7, 0)), 257), BAD_MARK),
    Edge(Made::LongBatch(Some((0, 0)), 16384), BAD_MARK),
    Edge(Made::Deletions(SEVEN, 0), Some(KvError::NoEdits)),
    Edge(Made::Deletions(SEVEN, 256), None),
    Edge(Made::Deletions(SEVEN, 257), Some(KvError::TooManyEdits)),
    Edge(Made::LongBatch(SEVEN, 16340), None),
    Edge(Made::LongBatch(SEVEN, 16341), Some(KvError::BatchTooLong)),
    Edge(Made::LongBatch(SEVEN, 16358), Some(KvError::BatchTooLong)),
    Edge(Made::Spelled(ALONE), BAD_BYTES),
    Edge(Made::Spelled(TWICE), BAD_BYTES),
];

/// A mark without edits.
const ALONE: &[u8] = &[0, 0, 0, 0, 0, 0, 0, 0, 0, 7, 0, 0, 0, 0, 0, 0, 0, 1, 0, 0];

/// A batch with two marks.
const TWICE: &[u8] = &[
    0, 0, 0, 0, 0, 0, 0, 0, 0, 7, 0, 0, 0, 0, 0, 0, 0, 1, 0, 0, 0, 0, 0, 0, 0, 0, 0, 7, 0, 0, 0, 0,
    0, 0, 0, 1, 0, 1, 2, 0, 1, 0x61,
];

#[test]
fn what_is_made_with_a_mark(rt: HostRuntime) {
    all_hold(&rt, rt.alloc(), &MARKED);
}

/// The spelling of the batch that deletes `a` and bears a mark, with another byte at a place.
struct Changed(usize, u8, Option<KvError>);

impl Case for Changed {
    fn holds(&self, rt: &impl Abort, alloc: Global) -> bool {
        let batch = batch_of_a(rt, alloc, SEVEN, None);
        let mut bytes = spelled(rt, alloc, batch);
        if let Some(byte) = bytes.get_mut(self.0) {
            *byte = self.1;
        }
        let found = Batch::from_bytes(alloc, &bytes).err();
        has_memory(rt, found == Some(KvError::Memory));
        found == self.2
    }
}

// The client stands at the places from 2 on, the request from 10 on, and the edits from 18 on.
static CHANGED: [Changed; 9] = [
    Changed(9, 8, None),
    Changed(9, 0, BAD_BYTES),
    Changed(2, 0x7f, None),
    Changed(2, 0x80, BAD_BYTES),
    Changed(17, 9, None),
    Changed(17, 0, BAD_BYTES),
    Changed(10, 0x7f, None),
    Changed(10, 0x80, BAD_BYTES),
    Changed(19, 2, BAD_BYTES),
];

#[test]
fn a_spelled_mark_at_its_ends(rt: HostRuntime) {
    all_hold(&rt, rt.alloc(), &CHANGED);
}

/// Whether no front of the spelling of a batch with a mark spells a batch.
fn is_no_front(rt: &impl Abort, alloc: Global, len: usize) -> bool {
    let batch = batch_of_a(rt, alloc, SEVEN, None);
    let bytes = spelled(rt, alloc, batch);
    let front = bytes.get(..len).unwrap_or_default();
    Batch::from_bytes(alloc, front).err() == BAD_BYTES
}

#[test]
fn no_front_of_a_marked_batch_is_one(rt: HostRuntime) {
    for len in 0..24 {
        holds_at(&rt, len, is_no_front(&rt, rt.alloc(), len));
    }
}

/// The spelling of the longest batch, with a mark or without one.
fn longest(rt: &impl Abort, alloc: Global, mark: Option<Marking>, last: usize) -> Vec<u8> {
    let batch = four_puts(rt, alloc, mark, last).expect(rt, "a batch");
    spelled(rt, alloc, batch)
}

/// Whether the batch that the bytes spell is spelled so.
fn is_read_again(rt: &impl Abort, alloc: Global, bytes: &[u8]) -> bool {
    is_spelled(rt, alloc, read(rt, alloc, bytes), bytes)
}

#[test]
fn the_longest_batch_is_read_again(rt: HostRuntime) {
    for (mark, last) in [(None, 16358), (SEVEN, 16340)] {
        let bytes = longest(&rt, rt.alloc(), mark, last);
        is_so(&rt, bytes.len() == 65536, "another length");
        let is_read = is_read_again(&rt, rt.alloc(), &bytes);
        is_so(&rt, is_read, "another spelling");
    }
}

/// The batches `a=1 -a a=2 b=1` and `-b`, of which the first bears a mark of the client 97.
fn two_batches(rt: &impl Abort, alloc: Global) -> [Batch; 2] {
    let first: [(&[u8], Option<&[u8]>); 4] = [
        (b"a", Some(b"1")),
        (b"a", None),
        (b"a", Some(b"2")),
        (b"b", Some(b"1")),
    ];
    let marked = marked_of(rt, alloc, (97, 1), &first);
    [marked, deletion(rt, alloc, b"b")]
}

/// A key, and its value after the batches.
struct Found(&'static [u8], Option<&'static [u8]>);

impl Case for Found {
    fn holds(&self, rt: &impl Abort, alloc: Global) -> bool {
        let key = key_of(rt, alloc, self.0);
        let batches = two_batches(rt, alloc);
        let is_found = is_value(value_at(&batches, &key), self.1);
        drop(batches);
        is_found
    }
}

// The last key has the bytes of the client.
static FOUND: [Found; 4] = [
    Found(b"a", Some(b"2")),
    Found(b"b", None),
    Found(b"c", None),
    Found(b"\0\0\0\0\0\0\0a", None),
];

#[test]
fn the_last_edit_decides(rt: HostRuntime) {
    all_hold(&rt, rt.alloc(), &FOUND);
}

/// Whether a copy of a batch of one edit has this edit and its mark.
fn copies_batch(rt: &impl Abort, alloc: Global, mark: Option<Marking>) -> bool {
    let batch = batch_of_a(rt, alloc, mark, Some(b"1"));
    let copy = batch.clone().expect(rt, "memory");
    drop(batch);
    let is_same = is_edit(&copy, Some(b"1")) && bears(&copy, mark);
    drop(copy);
    is_same
}

#[test]
fn copies_of_batches(rt: HostRuntime) {
    is_so(&rt, copies_batch(&rt, rt.alloc(), None), "a batch");
    is_so(&rt, copies_batch(&rt, rt.alloc(), SEVEN), "a marked one");
}
