//! A memtable of many batches, against the map of so many first batches.

use crate::cases::{holds_at, is_so};
use crate::changes::{KeyChange, batch_of, change_of};
use crate::counts::is_count;
use crate::entries::client_key;
use crate::items::{Marking, is_same, key_of, marked_of, number, put, try_batch};
use crate::numbered::Numbered;
use crate::sequence::Sequence;
use byte_fields::{LentKey, Space};
use kv_types::{Batch, Edit, Key, Value, value_at};
use memtable::{Found, MemCursor, Memtable};
use merge_iter::Cursor;
use std::alloc::Global;
use std::process::Abort;

const BATCHES: u16 = 10_000;

const KEYS: u8 = 30;

/// The next batch, of two changes.
fn next_batch(rt: &impl Abort, alloc: Global, sequence: &mut Sequence) -> Batch {
    let changes = [change_of(sequence, KEYS), change_of(sequence, KEYS)];
    batch_of(rt, alloc, &changes)
}

/// The batches, and the memtable of them.
fn batches_and_table(rt: &impl Abort, alloc: Global) -> (Vec<Batch>, Numbered) {
    let (mut sequence, mut batches) = (Sequence::new(1), Vec::new(alloc));
    let mut table = Numbered::new(alloc);
    for number in 1..=u64::from(BATCHES) {
        let batch = next_batch(rt, alloc, &mut sequence);
        table.add(rt, number, &batch);
        put(rt, &mut batches, batch);
    }
    (batches, table)
}

/// Every key that a change may have, and one that none has.
fn keys(rt: &impl Abort, alloc: Global) -> Vec<Key> {
    let mut keys = Vec::new(alloc);
    for i in 0..=u16::from(KEYS) {
        put(rt, &mut keys, key_of(rt, alloc, &(i * 2).to_be_bytes()));
    }
    put(rt, &mut keys, key_of(rt, alloc, &[0, 1]));
    keys
}

fn is_found(found: &Found, want: Option<&Value>) -> bool {
    match (found, want) {
        (Found::Value(value, _), Some(other)) => is_same(value.as_bytes(), other.as_bytes()),
        (Found::Deleted | Found::None, None) => true,
        _ => false,
    }
}

/// How many of these keys the memtable has as these batches leave them.
fn agreeing(rt: &impl Abort, table: &Memtable, batches: &[Batch], keys: &[Key]) -> usize {
    let at = number(batches.len() as u64);
    let mut count = 0usize;
    for key in keys {
        let found = table.get(key.stored(), at).expect(rt, "memory");
        count = count.wrapping_add(is_found(&found, value_at(batches, key)) as usize);
    }
    count
}

/// The same for each hundred of batches, added up.
fn agreeing_in_all(rt: &impl Abort, alloc: Global) -> usize {
    let (batches, table) = batches_and_table(rt, alloc);
    let keys = keys(rt, alloc);
    let mut count = 0usize;
    for i in 1..=100usize {
        let first = batches.get(..i * 100).unwrap_or_default();
        count = count.wrapping_add(agreeing(rt, table.table(), first, &keys));
    }
    count
}

#[test]
fn ten_thousand_batches_at_a_hundred_numbers(rt: HostRuntime) {
    is_count(&rt, agreeing_in_all(&rt, rt.alloc()), 3_200);
}

/// Whether a seek of a key of this byte that is longer than any entry's finds an entry.
fn finds_long(rt: &impl Abort, cursor: &mut MemCursor<'_>, byte: u8) -> bool {
    let key = [byte; 5_000];
    cursor
        .seek(&mut (), LentKey::new(Space::Rows, &key), 1)
        .expect(rt, "a seek");
    cursor.valid()
}

// It finds the entry behind it, and none behind all.
#[test]
fn a_seek_of_a_long_key(rt: HostRuntime) {
    let mut table = Numbered::new(rt.alloc());
    let change = KeyChange {
        key: 256,
        value: Some(7),
    };
    table.add(&rt, 1, &batch_of(&rt, rt.alloc(), &[change]));
    let mut cursor = table.table().cursor().expect(&rt, "memory");
    is_so(&rt, finds_long(&rt, &mut cursor, 0), "an entry behind it");
    is_so(&rt, !finds_long(&rt, &mut cursor, 2), "none behind all");
}

// ---- marks

/// Whether the memtable has this request and this number at the key of the client at a number.
fn has_mark(
    rt: &impl Abort,
    alloc: Global,
    table: &Memtable,
    (client, at): (u64, u64),
    want: Option<(u64, u64)>,
) -> bool {
    let key = client_key(rt, alloc, client);
    match (table.get(&key, number(at)).expect(rt, "memory"), want) {
        (Found::Value(value, own), Some((request, number))) => {
            own == number && is_same(value.as_bytes(), &request.to_be_bytes())
        }
        (Found::None, None) => true,
        _ => false,
    }
}

/// A client and the number that its mark is asked at; and the request that is found, with its
/// batch's number.
type Asked = (u64, u64, Option<(u64, u64)>);

static ASKED: [Asked; 8] = [
    (7, 1, Some((9, 1))),
    (7, 2, Some((9, 1))),
    (7, 3, Some((10, 3))),
    (8, 1, None),
    (8, 2, Some((LAST, 2))),
    (8, 3, Some((LAST, 2))),
    (9, 3, None),
    (0x6162, 3, None),
];

/// The greatest request.
const LAST: u64 = (1 << 63) - 1;

/// A row whose key has the bytes of client 7.
const SEVEN: &[u8] = &[0, 0, 0, 0, 0, 0, 0, 7];

/// Marks of the batches 1 to 3. Each puts one byte at the row of those bytes.
static MARKS: [Marking; 3] = [(7, 9), (8, LAST), (7, 10)];

fn marked_table(rt: &impl Abort, alloc: Global) -> Numbered {
    let mut table = Numbered::new(alloc);
    for (place, mark) in MARKS.iter().enumerate() {
        let batch = marked_of(rt, alloc, *mark, &[(SEVEN, Some(b"1"))]);
        table.add(rt, place as u64 + 1, &batch);
    }
    table
}

#[test]
fn the_last_mark_at_each_number(rt: HostRuntime) {
    let (alloc, table) = (rt.alloc(), marked_table(&rt, rt.alloc()));
    for (index, (client, at, want)) in ASKED.iter().enumerate() {
        let holds = has_mark(&rt, alloc, table.table(), (*client, *at), *want);
        holds_at(&rt, index, holds);
    }
    let row = key_of(&rt, alloc, SEVEN);
    let found = table
        .table()
        .get(row.stored(), number(3))
        .expect(&rt, "memory");
    let is_row = matches!(found, Found::Value(value, _) if is_same(value.as_bytes(), b"1"));
    is_so(&rt, is_row, "the row of these bytes");
}

/// The batch that deletes each key of one byte, and bears a mark.
fn longest_list(rt: &impl Abort, alloc: Global) -> Batch {
    let mut edits = Vec::new(alloc);
    for byte in 0..=255u8 {
        put(rt, &mut edits, Edit::Delete(key_of(rt, alloc, &[byte])));
    }
    try_batch(Some((7, 9)), edits).expect(rt, "a batch")
}

// A deletion counts the one byte of its key and 64, and a mark 80.
#[test]
fn a_mark_beside_256_edits(rt: HostRuntime) {
    let (alloc, mut table) = (rt.alloc(), Numbered::new(rt.alloc()));
    table.add(&rt, 1, &longest_list(&rt, alloc));
    let is_found = has_mark(&rt, alloc, table.table(), (7, 1), Some((9, 1)));
    is_so(&rt, is_found, "the mark");
    is_so(&rt, table.table().bytes() == 256 * 65 + 80, "the bytes");
}
